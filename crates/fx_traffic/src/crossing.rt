//! Crossings: the passage of a packet through an interface of a device.
ghost use Rattle.std.specs.Prelude.{◌≡◌, ℕ, List, map, codes};
ghost use Rattle.serde_json.specs.View.{view};
ghost use Rattle.fx_walk.specs.Pointer.{pointer};
ghost use Rattle.fx_walk.specs.Walk.{Reads, required_row, member_of};
ghost use Rattle.fx_walk.specs.Scalars.{text_of};
ghost use Rattle.fx_traffic.specs.Texts.{name_faults};
ghost use Rattle.fx_traffic.specs.Crossings.{number_in, number_of, device_faults, inwards_in, inwards_of, direction_faults, crossing_faults, crossing_of};

use crate::list::FromValueAmong;
use crate::text::read_name;
use fx_base::{Fault, Name, refusals};
use fx_tables::Crossing;
use fx_walk::{DocumentPath, Named, object_of, place_of, refusal};
use serde_json::Value;
use std::alloc::Global;

/// Returns the 1-based number of the first of these devices that has the name.
fn number_in<T: Named>(devices: &[T], name: &Name) -> Option<u64>
    ensures { result ≡ number_in (map T.name devices.now) name.now }
{
    let index = place_of(devices, name)?;
    Some(index as u64 + 1)
}

/// Returns the number of the device that the value names. Fails with 303 if none has its name.
fn device_at<T: Named>(
    alloc: Global,
    path: &DocumentPath<'_>,
    value: &Value,
    devices: &[T],
) -> Result<u64, Fault>
    ensures { Reads (device_faults (map T.name devices.now) (pointer path.now) (view value.now))
        (number_of (map T.name devices.now) (view value.now)) result }
{
    let name = read_name(alloc, path, value)?;
    match number_in(devices, &name) {
        Some(number) => Ok(number),
        None => Err(refusal(alloc, refusals::UNKNOWN_DEVICE, path)),
    }
}

fn device_member<T: Named>(
    alloc: Global,
    path: &DocumentPath<'_>,
    object: &Value,
    devices: &[T],
) -> Result<u64, Fault>
    ensures { Reads ((required_row (codes "device") (device_faults (map T.name devices.now))).faults
        (pointer path.now) (view object.now))
        (number_of (map T.name devices.now) (member_of (codes "device") (view object.now))) result }
{
    match object.get("device") {
        Some(value) => device_at(alloc, &DocumentPath::Member(path, "device"), value, devices),
        None => Err(refusal(alloc, refusals::MISSING_MEMBER, path)),
    }
}

fn interface_member(alloc: Global, path: &DocumentPath<'_>, object: &Value) -> Result<Name, Fault>
    ensures { Reads ((required_row (codes "interface") name_faults).faults (pointer path.now)
        (view object.now)) (text_of (member_of (codes "interface") (view object.now))) result }
{
    match object.get("interface") {
        Some(value) => read_name(alloc, &DocumentPath::Member(path, "interface"), value),
        None => Err(refusal(alloc, refusals::MISSING_MEMBER, path)),
    }
}

/// Returns whether the text denotes the direction into the device, or `None` if it denotes no direction.
fn inwards_in(text: &str) -> Option<bool>
    ensures { result ≡ inwards_in text.now }
{
    match text {
        "ingress" => Some(true),
        "egress" => Some(false),
        _ => None,
    }
}

/// Reads a direction. Fails with 104 if the value is not a text, and with 302 for a text other than `ingress` and
/// `egress`.
fn inwards_at(alloc: Global, path: &DocumentPath<'_>, value: &Value) -> Result<bool, Fault>
    ensures { Reads (direction_faults (pointer path.now) (view value.now))
        (inwards_of (view value.now)) result }
{
    let Some(text) = value.as_str() else {
        return Err(refusal(alloc, refusals::WRONG_KIND, path));
    };
    match inwards_in(text) {
        Some(inwards) => Ok(inwards),
        None => Err(refusal(alloc, refusals::TRAFFIC_VALUE, path)),
    }
}

fn inwards_member(alloc: Global, path: &DocumentPath<'_>, object: &Value) -> Result<bool, Fault>
    ensures { Reads ((required_row (codes "direction") direction_faults).faults (pointer path.now)
        (view object.now)) (inwards_of (member_of (codes "direction") (view object.now))) result }
{
    match object.get("direction") {
        Some(value) => inwards_at(alloc, &DocumentPath::Member(path, "direction"), value),
        None => Err(refusal(alloc, refusals::MISSING_MEMBER, path)),
    }
}

/// Reads a crossing of one of the devices.
impl FromValueAmong for Crossing {
    ghost faults = { crossing_faults };

    ghost meaning = { crossing_of };

    fn from_value_among<D: Named>(
        alloc: Global,
        path: &DocumentPath<'_>,
        value: &Value,
        devices: &[D],
    ) -> Result<Crossing, Fault> {
        object_of(alloc, path, value, &["device", "interface", "direction"])?;
        let device = device_member(alloc, path, value, devices)?;
        let interface = interface_member(alloc, path, value)?;
        let inwards = inwards_member(alloc, path, value)?;
        Ok(Crossing {
            device,
            interface,
            inwards,
        })
    }
}
