//! Facts about an answer: the class, path, region and packet that it is about.

use crate::members::{Items, Members};
use crate::texts::string_of;
use fx_base::{Line, Room, entry_numbered};
use fx_boxes::{Fields, Region};
use fx_check::Due;
use fx_elements::{Axis, EVERY_AXIS, put_value, top, width};
use fx_explanation::{Documents, class_name, element_name};
use fx_plan::Plan;
use fx_refute::Refutation;
use fx_tables::Crossing;
use fx_traffic::Target;
use serde_json::Value;
use std::alloc::{AllocError, Global};

/// Returns a value of an axis: an address as a string, anything else as a number.
fn value_on(alloc: Global, axis: Axis, value: u128) -> Result<Value, AllocError> {
    if value > top(axis) {
        return Ok(Value::Null);
    }
    if !axis.is_address() {
        return Ok(Value::from(value as u64));
    }
    let mut octets = [0; 64];
    let mut room = Room::new(&mut octets);
    // No address is longer than the array.
    let _written = put_value(&mut room, axis, width(axis), value);
    string_of(alloc, room.octets())
}

/// Returns the information element of an axis.
fn element_on(axis: Axis) -> &'static str {
    element_name(axis.element_number())
}

/// Returns a region: for each axis that it restricts, by the name of the information element, the least and the
/// greatest value.
fn region_value(alloc: Global, region: &Region) -> Result<Value, AllocError> {
    let (least, greatest) = (region.corner(), region.far_corner());
    let mut members = Members::new(alloc);
    for axis in EVERY_AXIS {
        let (low, high) = (least.get(axis), greatest.get(axis));
        if low != 0 || high != top(axis) {
            let mut range = Members::new(alloc);
            range.add("low", value_on(alloc, axis, low));
            range.add("high", value_on(alloc, axis, high));
            members.add(element_on(axis), range.into_value());
        }
    }
    members.into_value()
}

/// Returns the nine fields of a packet by the names of their information elements.
fn fields_value(alloc: Global, fields: &Fields) -> Result<Value, AllocError> {
    let mut members = Members::new(alloc);
    for axis in EVERY_AXIS {
        members.add(element_on(axis), value_on(alloc, axis, fields.get(axis)));
    }
    members.into_value()
}

/// Returns a crossing: its device, interface and direction.
fn crossing_value(alloc: Global, plan: &Plan, crossing: &Crossing) -> Result<Value, AllocError> {
    let mut members = Members::new(alloc);
    let devices = plan.network().devices.as_slice();
    if let Some(device) = entry_numbered(devices, crossing.device) {
        members.text("device", device.name.as_str());
    }
    members.text("interface", crossing.interface.as_str());
    let direction = if crossing.inwards {
        "ingress"
    } else {
        "egress"
    };
    members.text("direction", direction);
    members.into_value()
}

/// Returns the crossings of a path in order.
fn crossings_value(
    alloc: Global,
    plan: &Plan,
    crossings: &[Crossing],
) -> Result<Value, AllocError> {
    let mut items = Items::new(alloc);
    for crossing in crossings {
        items.add(crossing_value(alloc, plan, crossing));
    }
    items.into_value()
}

/// Returns a class: its 1-based number and its name.
fn class_value(alloc: Global, documents: &Documents<'_>, number: u64) -> Result<Value, AllocError> {
    let mut members = Members::new(alloc);
    members.number("number", number);
    members.text("name", class_name(documents, number));
    members.into_value()
}

/// Adds the class, the 1-based number of the path, and its crossings.
fn add_path(
    members: &mut Members,
    alloc: Global,
    documents: &Documents<'_>,
    (class, path): (u64, u64),
    crossings: &[Crossing],
) {
    members.add("class", class_value(alloc, documents, class));
    members.number("path", path);
    members.add(
        "crossings",
        crossings_value(alloc, documents.plan, crossings),
    );
}

/// Adds the target of the line that a certificate must have next, and of a region's tree the region and how many splits
/// it is below.
fn add_due(members: &mut Members, alloc: Global, documents: &Documents<'_>, due: &Due<'_>) {
    match due {
        Due::Header => members.text("due", "header"),
        Due::Target(target) => {
            members.text("due", "class");
            add_target(members, alloc, documents, target);
        }
        Due::Tree {
            target,
            region,
            depth,
            ..
        } => {
            members.text("due", "tree");
            add_target(members, alloc, documents, target);
            members.add("region", region_value(alloc, region));
            members.number("depth", u64::from(*depth));
        }
        Due::End => members.text("due", "end"),
        Due::Nothing => members.text("due", "nothing"),
    }
}

/// Adds the class and the path of a target.
fn add_target(
    members: &mut Members,
    alloc: Global,
    documents: &Documents<'_>,
    target: &Target<'_>,
) {
    let numbers = (target.class, target.path);
    add_path(members, alloc, documents, numbers, target.crossings);
}

/// Returns what a certificate is refused at: its line, if there is one, what the line had to be, and the class, path
/// and region that it is about.
///
/// Fails if out of memory.
pub fn certificate_fact(
    alloc: Global,
    documents: &Documents<'_>,
    due: &Due<'_>,
    line: Option<&Line<'_>>,
) -> Result<Value, AllocError> {
    let mut members = Members::new(alloc);
    members.text("about", "certificate line");
    if let Some(line) = line {
        members.number("line", line.number);
        members.add("text", string_of(alloc, line.bytes));
    }
    add_due(&mut members, alloc, documents, due);
    members.into_value()
}

/// Returns what a refutation is about: its packet with class, path and fields, and the number of its steps.
///
/// Fails if out of memory.
pub fn refutation_fact(
    alloc: Global,
    documents: &Documents<'_>,
    refutation: &Refutation,
) -> Result<Value, AllocError> {
    let packet = refutation.packet();
    let numbers = (packet.class, packet.path);
    let crossings = documents.traffic.classes().path_of(packet);
    let mut members = Members::new(alloc);
    members.text("about", "refuting run");
    add_path(&mut members, alloc, documents, numbers, crossings);
    members.add("fields", fields_value(alloc, &packet.fields));
    members.number("octets", packet.octets);
    members.number("steps", refutation.steps().len() as u64);
    members.into_value()
}
