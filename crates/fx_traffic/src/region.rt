//! Regions: the values that the fields of a class's packets may have.
ghost use Rattle.std.specs.Prelude.{◌≡◌, IfOk, IfSome};
ghost use Rattle.serde_json.specs.View.{view};
ghost use Rattle.serde_json.specs.Find.{get};
ghost use Rattle.fx_elements.specs.Elements.{axis_name};
ghost use Rattle.fx_elements.specs.Values.{value_on, values_of};
ghost use Rattle.fx_elements.specs.declared.element.Element.TheVariants as element;
ghost use Rattle.fx_boxes.specs.Boxes.{IsRegion};
ghost use Rattle.fx_walk.specs.Pointer.{pointer};
ghost use Rattle.fx_walk.specs.Walk.{Reads, optional, row_faults};
ghost use Rattle.fx_traffic.specs.Regions.{IsOn, all_on, region_faults, region_rows, region_of, span, values_faults, values_given, values_in, values_on, whole};

use fx_base::{Fault, refusals};
use fx_boxes::{Fields, Region};
use fx_elements::{
    AXES, AXIS_NAMES, Axis, EVERY_AXIS, Element, Range, TOPS, read_on, read_value, split_at_byte,
    top, values_fit, width,
};
use fx_walk::{DocumentPath, object_of, refusal};
use serde_json::Value;
use std::alloc::Global;

/// Returns the values from the one that the text `low` spells to the one that `high` spells.
fn span(axis: Axis, low: &[u8], high: &[u8]) -> Option<Range>
    ensures value { result ≡ span (value_on axis low.now) (value_on axis high.now) }
    ensures bound { IfSome result (IsOn axis) }
{
    let low = read_on(axis, low)?;
    let high = read_on(axis, high)?;
    if low > high {
        return None;
    }
    Some(Range { low, high, bits: 0 })
}

/// Returns the addresses on the axis that begin with a prefix.
fn prefix_on(axis: Axis, text: &str) -> Option<Range>
    ensures value { result ≡ values_of (element.Prefix axis) text.now }
    ensures bound { IfSome result (IsOn axis) }
{
    values_fit();
    read_value(Element::Prefix(axis), text)
}

/// Returns the single value that the text spells.
fn single_on(axis: Axis, text: &str) -> Option<Range>
    ensures value { result ≡ values_of (element.OnAxis axis) text.now }
    ensures bound { IfSome result (IsOn axis) }
{
    let value = read_on(axis, text.as_bytes())?;
    Some(Range {
        low: value,
        high: value,
        bits: width(axis),
    })
}

/// Returns the values on the axis that the text spells: a value, two values separated by a hyphen, or a prefix of
/// addresses.
fn values_on(axis: Axis, text: &str) -> Option<Range>
    ensures value { result ≡ values_on axis text.now }
    ensures bound { IfSome result (IsOn axis) }
{
    match split_at_byte(text.as_bytes(), b'-') {
        Some((low, high)) => span(axis, low, high),
        None => match single_on(axis, text) {
            Some(values) => Some(values),
            None => prefix_on(axis, text),
        },
    }
}

/// Returns all values on the axis.
fn all_on(axis: Axis) -> Range
    ensures value { result ≡ all_on axis }
    ensures bound { IsOn axis result }
{
    Range {
        low: 0,
        high: top(axis),
        bits: 0,
    }
}

/// Reads values on the axis. Fails with 104 if the value is not a text, and with 302 if the text spells no values.
fn values_at(
    alloc: Global,
    path: &DocumentPath<'_>,
    value: &Value,
    axis: Axis,
) -> Result<Range, Fault>
    ensures answer { Reads (values_faults axis (pointer path.now) (view value.now))
        (values_in axis (view value.now)) result }
    ensures bound { IfOk result (IsOn axis) }
{
    let Some(text) = value.as_str() else {
        return Err(refusal(alloc, refusals::WRONG_KIND, path));
    };
    match values_on(axis, text) {
        Some(values) => Ok(values),
        None => Err(refusal(alloc, refusals::TRAFFIC_VALUE, path)),
    }
}

/// Reads the values on the axis from an object's optional member, by default all values.
fn axis_member(
    alloc: Global,
    path: &DocumentPath<'_>,
    object: &Value,
    axis: Axis,
) -> Result<Range, Fault>
    ensures answer { Reads ((optional (axis_name axis) (values_faults axis)).faults
        (pointer path.now) (view object.now))
        (values_given axis (get (axis_name axis) (view object.now))) result }
    ensures bound { IfOk result (IsOn axis) }
{
    let name = axis.name();
    match object.get(name) {
        Some(value) => values_at(alloc, &DocumentPath::Member(path, name), value, axis),
        None => Ok(all_on(axis)),
    }
}

/// Returns the region with these bounds.
fn region_between(low: [u128; AXES], high: [u128; AXES]) -> Region
    requires { IsRegion (record { low = low; high = high }) }
    ensures { result ≡ record { low = low; high = high } }
{
    match Region::between(&Fields::of(low), &Fields::of(high)) {
        Some(region) => region,
        None => Region::whole(),
    }
}

/// Returns the region of all fields.
pub fn whole() -> Region
    ensures { result ≡ whole }
{
    region_between([0; AXES], TOPS)
}

/// Reads the region of the values that an object's members give.
fn region_in(alloc: Global, path: &DocumentPath<'_>, object: &Value) -> Result<Region, Fault>
    ensures { Reads (row_faults region_rows (pointer path.now) (view object.now))
        (region_of (view object.now)) result }
{
    let mut low = [0; AXES];
    let mut high = [0; AXES];
    for axis in EVERY_AXIS {
        let values = axis_member(alloc, path, object, axis)?;
        low[axis.index()] = values.low;
        high[axis.index()] = values.high;
    }
    Ok(region_between(low, high))
}

/// Reads a region: an object that names axes and gives the values that packets may have on each.
pub fn read_region(alloc: Global, path: &DocumentPath<'_>, value: &Value) -> Result<Region, Fault>
    ensures { Reads (region_faults (pointer path.now) (view value.now)) (region_of (view value.now))
        result }
{
    object_of(alloc, path, value, &AXIS_NAMES)?;
    region_in(alloc, path, value)
}
