//! Which fields of templates provide the report's key.
use fx_elements::{Axis, Element};
use fx_explanation::number_in;
use fx_layout::Part;
use fx_wire::{FieldSpecifier, cut_value};

/// The answer to whether the records of a template have the report's key.
#[derive(Clone, Copy, Drop)]
pub(crate) enum Reading {
    /// All do.
    Each,
    /// None does: the template lacks a field.
    Never,
    /// Those do whose prefixes are long enough.
    ByPrefixes,
}

/// Returns whether a template has a field of an element.
pub(crate) fn has(fields: &[FieldSpecifier], element: Element) -> bool {
    for field in fields {
        if field.element() == element {
            return true;
        }
    }
    false
}

/// Returns whether a template has a prefix of an address and that prefix's length.
fn has_prefix(fields: &[FieldSpecifier], axis: Axis) -> bool {
    has(fields, Element::Prefix(axis)) && has(fields, Element::PrefixLength(axis))
}

/// Returns whether a template has a field of an axis.
fn says(fields: &[FieldSpecifier], axis: Axis) -> bool {
    has(fields, Element::OnAxis(axis)) || has_prefix(fields, axis)
}

/// Returns the first part of a key for whose axis a template has no field, if any.
pub(crate) fn first_unsaid<'a>(fields: &[FieldSpecifier], key: &'a [Part]) -> Option<&'a Part> {
    for wanted in key {
        if !says(fields, wanted.axis) {
            return Some(wanted);
        }
    }
    None
}

/// Returns whether records of a template have an address of the other IP version instead of the one of an axis.
pub(crate) fn is_of_other_version(fields: &[FieldSpecifier], axis: Axis) -> bool {
    match axis {
        Axis::Source => says(fields, Axis::Source6),
        Axis::Destination => says(fields, Axis::Destination6),
        Axis::Source6 => says(fields, Axis::Source),
        Axis::Destination6 => says(fields, Axis::Destination),
        _ => false,
    }
}

/// Returns whether the records of a template with these fields have a key.
pub(crate) fn reading_of(fields: &[FieldSpecifier], key: &[Part]) -> Reading {
    if first_unsaid(fields, key).is_some() {
        return Reading::Never;
    }
    for wanted in key {
        if !has(fields, Element::OnAxis(wanted.axis)) {
            return Reading::ByPrefixes;
        }
    }
    Reading::Each
}

/// Returns the number of leading bits that the address prefix in the record at the beginning of the octets has.
fn prefix_bits(fields: &[FieldSpecifier], octets: &[u8], axis: Axis) -> u32 {
    let mut rest = octets;
    for field in fields {
        let Some((value, after)) = cut_value(field.field_length, rest) else {
            return 0;
        };
        if field.element() == Element::PrefixLength(axis) {
            return number_in(value).min(128) as u32;
        }
        rest = after;
    }
    0
}

/// Returns whether records of a template lack a counter that totals need.
pub(crate) fn lacks_counter(fields: &[FieldSpecifier]) -> bool {
    !has(fields, Element::OctetDeltaCount) || !has(fields, Element::PacketDeltaCount)
}

/// Returns whether the record at the beginning of the octets lacks bits of a key. The template has fields for all axes
/// of the key.
pub(crate) fn lacks_bits(fields: &[FieldSpecifier], key: &[Part], octets: &[u8]) -> bool {
    for wanted in key {
        if !has(fields, Element::OnAxis(wanted.axis))
            && prefix_bits(fields, octets, wanted.axis) < wanted.bits
        {
            return true;
        }
    }
    false
}
