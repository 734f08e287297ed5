//! Field specifiers.
ghost use Rattle.std.specs.Prelude.{◌≡◌, ◌-◌, ◌&&◌, ◌==◌, nat_le, Some, None};
ghost use Rattle.std.specs.Iterator.{at_most};
ghost use Rattle.fx_wire.specs.Fields as fields;
ghost use Rattle.fx_wire.specs.FieldReading as reading;

use crate::malformed::Malformed;
use crate::number::{u16_at, u32_at};
use fx_elements::{Element, by_id, width};
use std::marker::Model;

/// A field of a template (RFC 7011, section 3.2).
#[derive(Clone, Copy, Debug, PartialEq, Eq)]
pub struct FieldSpecifier {
    /// The number of the element, below 32768.
    pub element: u16,
    /// The number of octets of a value, or 65535 if each value gives its own length.
    pub field_length: u16,
    /// The enterprise of the element, if the first bit says that it has one. The IANA registry is 0.
    pub enterprise: Option<u32>,
}

/// Returns whether the values of an element may have this length, where 65535 means that each value gives its own.
///
/// No value is empty. IPv4 addresses and prefixes have four octets, those of IPv6 sixteen, and prefix lengths one;
/// other fields of packets may have fewer octets than their full width.
#[tactic(auto, unfolding(crate::specs::Fields::element_of))]
pub fn can_have(element: Element, field_length: u16) -> bool
    ensures { result ≡ fields.can_have element field_length }
{
    match element {
        Element::OnAxis(axis) => {
            if axis.is_address() {
                u32::from(field_length) == width(axis) / 8
            } else {
                field_length >= 1 && u32::from(field_length) <= width(axis) / 8
            }
        }
        Element::Prefix(axis) => u32::from(field_length) == width(axis) / 8,
        Element::PrefixLength(_) => field_length == 1,
        _ => field_length >= 1,
    }
}

impl FieldSpecifier {
    /// Returns the element.
    #[tactic(auto, unfolding(crate::specs::Fields::element_of))]
    pub fn element(&self) -> Element
        ensures { result ≡ fields.element_of self.now }
    {
        match self.enterprise {
            None => by_id(self.element, 0),
            Some(enterprise) => by_id(self.element, enterprise),
        }
    }
}

/// Returns the specifier at the front and the octets after it, or None if it is cut.
fn read_specifier(octets: &[u8]) -> Option<(FieldSpecifier, &[u8])>
    ensures { reading.with_rest result ≡ fields.specifier_at octets.now }
{
    if octets.len() < 4 {
        return None;
    }
    let element = u16_at(octets, 0);
    let field_length = u16_at(octets, 2);
    if element < 0x8000 {
        let field = FieldSpecifier {
            element,
            field_length,
            enterprise: None,
        };
        return Some((field, octets.split_at(4).1));
    }
    if octets.len() < 8 {
        return None;
    }
    let field = FieldSpecifier {
        element: element - 0x8000,
        field_length,
        enterprise: Some(u32_at(octets, 4)),
    };
    Some((field, octets.split_at(8).1))
}

/// Returns the field at the front and the octets after it.
///
/// Fails with [`Malformed::Template`] if it is cut or its element can't have its length.
fn read_field(octets: &[u8]) -> Result<(FieldSpecifier, &[u8]), Malformed>
    ensures { reading.field_with_rest result ≡ fields.field_at octets.now }
{
    let (field, rest) = read_specifier(octets).ok_or(Malformed::Template)?;
    if can_have(field.element(), field.field_length) {
        Ok((field, rest))
    } else {
        Err(Malformed::Template)
    }
}

/// The fields of a template, in order. The iteration ends after the first that is refused.
#[derive(Drop)]
pub struct FieldSpecifiers<'a> {
    left: u16,
    rest: &'a [u8],
}

impl<'a> Model for FieldSpecifiers<'a> {
    ghost use Rattle.fx_wire.specs.FieldReading as reading;

    ghost Value = { reading.FieldsLeft };

    ghost view = { λ f. record { count = f.left; octets = f.rest.now } };
}

impl<'a> FieldSpecifiers<'a> {
    /// Returns this many fields from the front of the octets.
    pub fn new(count: u16, octets: &'a [u8]) -> FieldSpecifiers<'a>
        ensures { result ≡ record { count = count; octets = octets.now } }
    {
        FieldSpecifiers {
            left: count,
            rest: octets,
        }
    }

    /// Returns the octets after the fields that were returned.
    pub fn rest(&self) -> &'a [u8]
        ensures { result.now ≡ self.now.octets }
    {
        self.rest
    }
}

impl Iterator for FieldSpecifiers<'_> {
    type Item = Result<FieldSpecifier, Malformed>;

    ghost next_gives = { reading.IsNextField };

    ghost remaining = { λ f. at_most f.count };

    /// Returns the next field. Fails with [`Malformed::Template`] (614) if it is cut or its element can't have its
    /// length, and then no field follows.
    fn next(&mut self) -> Option<Result<FieldSpecifier, Malformed>> {
        if self.left == 0 {
            return None;
        }
        match read_field(self.rest) {
            Ok((field, behind)) => {
                *self = FieldSpecifiers::new(self.left - 1, behind);
                Some(Ok(field))
            }
            Err(why) => {
                self.left = 0;
                Some(Err(why))
            }
        }
    }
}
