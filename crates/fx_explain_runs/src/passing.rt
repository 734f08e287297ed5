//! Explaining why a packet isn't metered at a crossing: what each observation point there does with it.
use crate::packets::write_outside;
use fx_base::{Name, entry_at, entry_numbered};
use fx_boxes::Fields;
use fx_config::{ObservationPoint, SelectionProcess};
use fx_explanation::{Explanation, between, selection_process};
use fx_plan::Plan;
use fx_tables::{Crossing, Point, Selection};
use fx_topology::NetworkDevice;

/// A packet at a crossing of a device.
#[derive(Drop)]
struct Passing<'a> {
    device: &'a NetworkDevice,
    crossing: &'a Crossing,
    fields: &'a Fields,
}

/// Returns whether a name is among these.
fn is_among(names: &[Name], name: &Name) -> bool {
    names.contains(name)
}

/// Writes why a selection process of a point doesn't meter a packet that the point observes.
fn write_selection(
    out: &mut Explanation,
    passing: &Passing<'_>,
    process: &SelectionProcess,
    selection: &Selection,
) {
    out.text_quoted("selection process ", process.name.as_str());
    match &selection.region {
        None => out.text(" selects no packet"),
        Some(region) if region.holds(passing.fields) => {
            out.text(" selects it and has no cache");
        }
        Some(region) => {
            out.text(" doesn't select it: ");
            write_outside(out, region, passing.fields);
        }
    }
}

/// Writes why no selection process of a point meters a packet that the point observes.
fn write_selections(
    out: &mut Explanation,
    passing: &Passing<'_>,
    named: &ObservationPoint,
    selections: &[Selection],
) {
    out.text(" sees it; ");
    if selections.is_empty() {
        out.text("it has no selection process");
        return;
    }
    for index in 0..selections.len() {
        out.text(between(index > 0, "; "));
        if let Some(process) = selection_process(&passing.device.config, named, index as u64 + 1) {
            write_selection(out, passing, process, &selections[index]);
        }
    }
}

/// Writes why a point at the crossing's interface doesn't meter a packet.
fn write_point(
    out: &mut Explanation,
    passing: &Passing<'_>,
    named: &ObservationPoint,
    point: &Point,
) {
    out.text_quoted("observation point ", named.name.as_str());
    if point.watches(passing.crossing) {
        write_selections(out, passing, named, point.selections());
        return;
    }
    out.text(if passing.crossing.inwards {
        " sees packets that go out there, and none that come in"
    } else {
        " sees packets that come in there, and none that go out"
    });
}

/// Writes why the points of a device don't meter a packet.
fn write_points(out: &mut Explanation, passing: &Passing<'_>, points: &[Point]) {
    let mut shown = false;
    let named = passing.device.config.observation_points.as_slice();
    for index in 0..points.len() {
        if let Some(one) = entry_at(named, index) {
            if is_among(one.interfaces.as_slice(), &passing.crossing.interface) {
                out.text(between(shown, "; "));
                write_point(out, passing, one, &points[index]);
                shown = true;
            }
        }
    }
    if shown {
        return;
    }
    out.text("no observation point of ");
    out.text(passing.device.name.as_str());
    out.text(" is at that interface");
}

/// Writes why a packet with these fields isn't metered at a crossing.
pub(crate) fn write_unmetered(
    out: &mut Explanation,
    plan: &Plan,
    crossing: &Crossing,
    fields: &Fields,
) {
    let number = crossing.device;
    out.text(": it isn't metered there: ");
    if let Some(device) = entry_numbered(plan.network().devices.as_slice(), number) {
        let passing = Passing {
            device,
            crossing,
            fields,
        };
        write_points(out, &passing, plan.net().points_of(number));
    }
}
