//! Values that packets or records must have.
ghost use Rattle.std.specs.Prelude.{◌≡◌, ℕ};
ghost use Rattle.fx_walk.specs.Pointer.{pointer};
ghost use Rattle.fx_walk.specs.Walk.{Reads};
ghost use Rattle.fx_config.specs.PropertyMatches.{axis_matched, property_check, property_given, property_match_faults, property_match_of, property_meant};

use crate::element::{Enterprise, read_element};
use fx_base::{Fault, refusals};
use fx_elements::{Axis, Element, Range, read_value};
use fx_walk::{
    DocumentPath, FromValue, Text, object_of, optional_member, refusal, required_member,
};
use serde_json::Value;
use std::alloc::Global;

/// A property match (RFC 5475, section 6.1): a packet or record must have one of these values on the axis.
#[derive(Clone, Copy, Debug, PartialEq, Eq)]
pub struct PropertyMatch {
    /// The axis of the values.
    pub axis: Axis,
    /// The values: all that begin with the fixed leading bits.
    pub range: Range,
}

/// Returns the axis of the values of an element.
fn axis_matched(element: Element) -> Option<Axis>
    ensures { result ≡ axis_matched element }
{
    match element {
        Element::OnAxis(axis) | Element::Prefix(axis) => Some(axis),
        _ => None,
    }
}

/// Returns the match denoted by an element and the text of its value, if there is one.
fn property_given(element: Element, text: &str) -> Option<PropertyMatch>
    ensures { result ≡ property_given element text.now }
{
    let axis = axis_matched(element)?;
    let range = read_value(element, text)?;
    Some(PropertyMatch { axis, range })
}

/// Returns the match denoted by an element and the text of its value. Fails with 105 if they denote none.
fn known_property(
    alloc: Global,
    path: &DocumentPath<'_>,
    element: Element,
    text: &str,
) -> Result<PropertyMatch, Fault>
    ensures { Reads (property_check element text.now (pointer path.now))
        (property_meant element text.now) result }
{
    match property_given(element, text) {
        Some(property) => Ok(property),
        None => Err(refusal(alloc, refusals::BAD_VALUE, path)),
    }
}

/// A reader of filters and of matches of aggregations.
pub(crate) struct PropertyMatchReader;

/// Reads the element and the value of a filter, or of a match of an aggregation.
impl FromValue for PropertyMatchReader {
    type Read = PropertyMatch;

    ghost faults = { property_match_faults };

    ghost meaning = { property_match_of };

    fn from_value(
        alloc: Global,
        path: &DocumentPath<'_>,
        value: &Value,
    ) -> Result<PropertyMatch, Fault> {
        object_of(
            alloc,
            path,
            value,
            &["ieName", "ieId", "ieEnterpriseNumber", "value"],
        )?;
        let given = read_element(alloc, path, value)?;
        let enterprise = optional_member::<Enterprise>(alloc, path, value, "ieEnterpriseNumber")?;
        let text = required_member::<Text>(alloc, path, value, "value")?;
        let element = given.with(enterprise);
        known_property(alloc, path, element, text.as_str())
    }
}
