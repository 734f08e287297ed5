//! Values of data records, and whole records.
ghost use Rattle.std.specs.Prelude.{◌≡◌, ◌+◌, ◌≤◌, ◌++◌, length};
ghost use Rattle.fx_wire.specs.Values as values;
ghost use Rattle.fx_wire.specs.ValueReading as reading;

use crate::field::FieldSpecifier;
use crate::number::u16_at;

/// The field length which means that each value gives its own (RFC 7011, section 7).
pub const VARIABLE: u16 = 65535;

/// Returns this many octets and those after them, or None if there are fewer.
fn cut_octets(count: usize, octets: &[u8]) -> Option<(&[u8], &[u8])>
    ensures { reading.both result ≡ values.octets_at count octets.now }
{
    if octets.len() < count {
        return None;
    }
    Some(octets.split_at(count))
}

/// Returns a value that gives its own length, and the octets after it, or None if it is cut.
fn cut_variable(octets: &[u8]) -> Option<(&[u8], &[u8])>
    ensures { reading.both result ≡ values.variable_at octets.now }
{
    if octets.is_empty() {
        return None;
    }
    let first = octets[0];
    if first < 255 {
        return cut_octets(first as usize, octets.split_at(1).1);
    }
    if octets.len() < 3 {
        return None;
    }
    cut_octets(u16_at(octets, 1) as usize, octets.split_at(3).1)
}

/// Returns the value of a field with this length, where 65535 means that the value gives its own, and the octets after
/// it, or None if it is cut.
pub fn cut_value(field_length: u16, octets: &[u8]) -> Option<(&[u8], &[u8])>
    ensures { reading.both result ≡ values.value_at field_length octets.now }
{
    if field_length == VARIABLE {
        cut_variable(octets)
    } else {
        cut_octets(field_length as usize, octets)
    }
}

/// Returns the octets after the record at the front under a template's fields, or None if it is cut.
pub fn cut_record<'a>(fields: &[FieldSpecifier], octets: &'a [u8]) -> Option<&'a [u8]>
    ensures { reading.behind result ≡ values.after_record fields.now octets.now }
{
    let mut rest = octets;
    for field in fields {
        match cut_value(field.field_length, rest) {
            Some((_value, behind)) => rest = behind,
            None => return None,
        }
    }
    Some(rest)
}

/// Returns the least number of octets of a record under a template's fields.
pub fn shortest_record(fields: &[FieldSpecifier]) -> usize
    requires { length fields.now ≤ 65535 }
    ensures { result ≡ values.shortest_record fields.now }
{
    let mut sum: usize = 0;
    for field in fields {
        sum += shortest_value(field);
    }
    sum
}

/// Returns the least number of octets of a field's value.
fn shortest_value(field: &FieldSpecifier) -> usize
    ensures value { result ≡ values.shortest_value field.now }
    ensures bound { result ≤ 65535 }
{
    if field.field_length == VARIABLE {
        1
    } else {
        field.field_length as usize
    }
}
