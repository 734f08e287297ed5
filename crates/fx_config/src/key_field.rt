//! Fields of keys by which records are aggregated.
ghost use Rattle.std.specs.Prelude.{◌≡◌, ℕ};
ghost use Rattle.fx_walk.specs.Pointer.{pointer};
ghost use Rattle.fx_walk.specs.Walk.{Reads};
ghost use Rattle.fx_config.specs.KeyFields.{is_prefix, key_field_faults, key_field_of, longest_prefix, part_of, prefix_check, prefix_part};

use crate::element::read_element;
use fx_base::{Fault, refusals};
use fx_elements::{Axis, Element, width};
use fx_layout::Part;
use fx_walk::{DocumentPath, FromValue, Whole, object_of, optional_member, refusal};
use serde_json::Value;
use std::alloc::Global;

/// A number of leading bits of an address, IPv4 or IPv6.
type PrefixLength = Whole<1, 128>;

/// A field of the key by which records are aggregated or totals are requested: an element, or the leading bits of an
/// address.
#[derive(Clone, Copy, Debug, PartialEq, Eq)]
pub struct KeyField {
    /// The element that it holds.
    pub element: Element,
    /// The number of leading bits, if given.
    pub prefix_length: Option<u32>,
}

/// Returns whether values of the element are the leading bits of addresses.
fn is_prefix(element: Element) -> bool
    ensures { result ≡ is_prefix element }
{
    matches!(element, Element::Prefix(_))
}

/// Returns the greatest number of leading bits that may be given: the width of the address for a prefix, and 32 for any
/// other element.
fn longest_prefix(element: Element) -> u32
    ensures { result ≡ longest_prefix element }
{
    match element {
        Element::Prefix(axis) => width(axis),
        _ => 32,
    }
}

/// Refuses a prefix without a length (103), and a length greater than that of the addresses (105, at the member
/// `prefixLength`).
fn known_prefix(
    alloc: Global,
    path: &DocumentPath<'_>,
    element: Element,
    prefix_length: Option<u32>,
) -> Result<(), Fault>
    ensures { Reads (prefix_check element prefix_length (pointer path.now)) tt result }
{
    let Some(bits) = prefix_length else {
        if is_prefix(element) {
            return Err(refusal(alloc, refusals::MISSING_MEMBER, path));
        }
        return Ok(());
    };
    let index = DocumentPath::Member(path, "prefixLength");
    if bits > longest_prefix(element) {
        return Err(refusal(alloc, refusals::BAD_VALUE, &index));
    }
    Ok(())
}

/// Returns the given number of bits.
fn bits_given(bits: Option<PrefixLength>) -> Option<u32>
    ensures { result ≡ bits }
{
    match bits {
        Some(bits) => Some(bits.number()),
        None => None,
    }
}

/// A reader of fields of keys.
pub struct KeyFieldReader;

/// Reads a field and checks only its members. Fails with 102 to 105, where 103 also means a prefix without a length,
/// and 105 a prefix longer than the addresses. The part that the field denotes is given by [`part_of`].
impl FromValue for KeyFieldReader {
    type Read = KeyField;

    ghost faults = { key_field_faults };

    ghost meaning = { key_field_of };

    fn from_value(
        alloc: Global,
        path: &DocumentPath<'_>,
        value: &Value,
    ) -> Result<KeyField, Fault> {
        object_of(alloc, path, value, &["ieName", "ieId", "prefixLength"])?;
        let given = read_element(alloc, path, value)?;
        let length = optional_member::<PrefixLength>(alloc, path, value, "prefixLength")?;
        let element = given.with(None);
        let prefix_length = bits_given(length);
        known_prefix(alloc, path, element, prefix_length)?;
        Ok(KeyField {
            element,
            prefix_length,
        })
    }
}

/// Returns the leading bits of the addresses on the axis.
fn prefix_part(axis: Axis, prefix_length: Option<u32>) -> Option<Part>
    ensures { result ≡ prefix_part axis prefix_length }
{
    match prefix_length {
        Some(bits) => Some(Part { axis, bits }),
        None => None,
    }
}

/// Returns the axis, and the number of its leading bits, that a field of a key denotes: all bits of an element that is
/// an axis, and the given number of bits of a prefix. Returns `None` for any other element, for an axis with a number
/// of bits, and for a prefix without one.
pub fn part_of(field: &KeyField) -> Option<Part>
    ensures { result ≡ part_of field.now }
{
    match field.element {
        Element::OnAxis(axis) => match field.prefix_length {
            Some(_) => None,
            None => Some(Part {
                axis,
                bits: width(axis),
            }),
        },
        Element::Prefix(axis) => prefix_part(axis, field.prefix_length),
        _ => None,
    }
}
