//! Explaining why data sets are refused.
use crate::declarations::{Declarations, Declared};
use crate::refused_messages::put_set;
use crate::stream_watch::RefusedMessage;
use fx_elements::{Axis, Element, width};
use fx_explanation::{Explanation, number_in, number16, write_element, write_field};
use fx_session::StreamFault;
use fx_wire::{FieldSpecifier, VARIABLE, cut_record, cut_value};

/// The maximum number of templates that are listed.
const LISTED: usize = 20;

/// Adds the ids of a domain's templates.
fn put_live(out: &mut Explanation, declarations: &Declarations, domain: u32) {
    let mut listed: usize = 0;
    for declared in declarations.as_slice() {
        if declared.at.domain == domain && declared.withdrawn.is_none() && listed < LISTED {
            let before = if listed == 0 {
                "its templates there: "
            } else {
                ", "
            };
            out.text_number(before, u64::from(declared.id));
            listed += 1;
        }
    }
    if listed == 0 {
        out.sentence("its domain has no template at all there");
        return;
    }
    out.end_line();
}

/// Adds where a template is declared, and why it isn't one of the domain.
fn put_declared(out: &mut Explanation, declared: &Declared, domain: u32) {
    out.text_number("message ", declared.at.message);
    out.text_number(" declares template ", u64::from(declared.id));
    if declared.at.domain != domain {
        out.text_number(
            " in another observation domain: ",
            u64::from(declared.at.domain),
        );
    }
    if let Some(number) = declared.withdrawn {
        out.text_number("; it is withdrawn by message ", number);
    }
    out.end_line();
}

/// Adds where templates with an id are declared, none of which is one of the domain.
fn put_elsewhere(out: &mut Explanation, declarations: &Declarations, domain: u32, id: u16) {
    let mut listed: usize = 0;
    for declared in declarations.as_slice() {
        if declared.id == id && listed < LISTED {
            put_declared(out, declared, domain);
            listed += 1;
        }
    }
}

/// Adds that the data set has no template.
pub(crate) fn put_no_template(
    out: &mut Explanation,
    refused: &RefusedMessage,
    declarations: &Declarations,
) {
    let domain = refused.message.domain;
    put_set(out, &refused.set);
    out.text_number(" needs template ", u64::from(refused.set.id));
    out.text_number(", and observation domain ", u64::from(domain));
    out.sentence(" has none of this id there");
    if !declarations.is_full() {
        put_elsewhere(out, declarations, domain, refused.set.id);
        put_live(out, declarations, domain);
    }
}

/// Returns the number of octets of the value that begins with the given octets.
fn wanted(field: &FieldSpecifier, octets: &[u8]) -> u64 {
    if field.field_length != VARIABLE {
        return u64::from(field.field_length);
    }
    match octets.first() {
        None => 1,
        Some(255) => u64::from(number16(octets, 1)) + 3,
        Some(first) => u64::from(*first) + 1,
    }
}

/// Returns the axis whose addresses are shorter than the prefix length that is this field's value, if there is one.
fn long_prefix(field: &FieldSpecifier, value: &[u8]) -> Option<Axis> {
    match field.element() {
        Element::PrefixLength(axis) if number_in(value) > u64::from(width(axis)) => Some(axis),
        _ => None,
    }
}

/// Adds the field at index `place` of the data record with this number. The record begins with the set's last `left`
/// octets.
fn put_field_of(
    out: &mut Explanation,
    refused: &RefusedMessage,
    fields: &[FieldSpecifier],
    number: u64,
    left: usize,
    index: usize,
) {
    out.text_number("record ", number);
    out.text_number(" of template ", u64::from(refused.set.id));
    out.text_number(", at octet ", refused.place_before_end(left));
    out.text_number(": field ", (index as u64).saturating_add(1));
    out.text_number(" of ", fields.len() as u64);
    out.text(", ");
}

/// Adds the field of the data record with this number, at the beginning of the octets, whose value extends past the
/// set's end or, if that is why the set is refused, is the length of a prefix that is longer than its address. Returns
/// whether there is one.
fn put_wrong_value(
    out: &mut Explanation,
    refused: &RefusedMessage,
    fields: &[FieldSpecifier],
    number: u64,
    octets: &[u8],
) -> bool {
    let has_long_prefix = matches!(refused.fault, StreamFault::PrefixLength);
    let mut rest = octets;
    for index in 0..fields.len() {
        let field = &fields[index];
        let Some((value, after)) = cut_value(field.field_length, rest) else {
            put_field_of(out, refused, fields, number, octets.len(), index);
            write_field(out, field);
            out.text_number(", wants octets: ", wanted(field, rest));
            out.text_number("; the set has left: ", rest.len() as u64);
            out.end_line();
            return true;
        };
        if let (true, Some(axis)) = (has_long_prefix, long_prefix(field, value)) {
            put_field_of(out, refused, fields, number, octets.len(), index);
            write_element(out, field);
            out.text_number(", is ", number_in(value));
            out.text_number("; the address has bits: ", u64::from(width(axis)));
            out.end_line();
            return true;
        }
        rest = after;
    }
    false
}

/// Adds the first data record of the set that is refused, under the fields of its template.
pub(crate) fn put_refused_record(
    out: &mut Explanation,
    refused: &RefusedMessage,
    fields: &[FieldSpecifier],
) {
    let mut rest = refused.octets.as_slice();
    for passed in 0..refused.octets.len() {
        if put_wrong_value(out, refused, fields, passed as u64 + 1, rest) {
            return;
        }
        let Some(after) = cut_record(fields, rest) else {
            return;
        };
        rest = after;
    }
}
