//! Values that aren't allowed, and the elements that they name.
use crate::pointers::{text_member, text_or_none};
use crate::similar_names::similar_name;
use fx_elements::{AXIS_NAMES, Element, by_id, by_name};
use fx_explanation::{Explanation, element_name};
use serde_json::Value;

/// The maximum number of octets of a value that are written.
const SHOWN: usize = 200;

/// The names of the other elements that are distinguished: those of prefixes of addresses, then the rest.
const OTHER_NAMES: [&str; 12] = [
    "sourceIPv4Prefix",
    "destinationIPv4Prefix",
    "sourceIPv6Prefix",
    "destinationIPv6Prefix",
    "octetDeltaCount",
    "packetDeltaCount",
    "octetTotalCount",
    "packetTotalCount",
    "sourceIPv4PrefixLength",
    "destinationIPv4PrefixLength",
    "sourceIPv6PrefixLength",
    "destinationIPv6PrefixLength",
];

/// The number of these names that are of prefixes.
const PREFIXES: usize = 4;

/// Returns whether the element that an object names is enterprise-specific.
fn is_of_enterprise(object: &Value) -> bool {
    match object.get("ieEnterpriseNumber") {
        Some(number) => number.as_u64() != Some(0),
        None => false,
    }
}

/// Returns the element that an object identifies by name or number.
pub(crate) fn element_of(object: &Value) -> Element {
    if is_of_enterprise(object) {
        return Element::Other;
    }
    if let Some(name) = text_member(object, "ieName") {
        return by_name(name);
    }
    match number_of(object) {
        Some(number) if number < 0x8000 => by_id(number as u16, 0),
        _ => Element::Other,
    }
}

/// Returns the number of the element that an object identifies.
fn number_of(object: &Value) -> Option<u64> {
    object.get("ieId")?.as_u64()
}

/// Returns whether packets are distinguished by an element, or by the leading bits of it.
fn is_of_axis(element: Element) -> bool {
    matches!(element, Element::OnAxis(_) | Element::Prefix(_))
}

/// Writes the name of the element that a misspelled one probably means.
fn write_near<'x>(out: &mut Explanation, name: &'x str, known: &'x str) {
    out.text_quoted("no element is named ", name);
    out.text("; the nearest name is ");
    out.sentence(known);
}

/// Writes that packets aren't distinguished by the element with this name.
fn write_named(out: &mut Explanation, name: &str) {
    match by_name(name) {
        Element::Other => {
            out.text_quoted("no element that is read is named ", name);
            out.end_line();
        },
        _ => {
            out.text(name);
            out.sentence(" is no field by which packets are distinguished");
        },
    }
}

/// Writes that packets aren't distinguished by the element with this number.
fn write_numbered(out: &mut Explanation, number: u64) {
    out.text_number("element ", number);
    out.sentence(" is no field by which packets are distinguished");
}

/// Writes that packets aren't distinguished by the element that an object names.
fn write_no_axis(out: &mut Explanation, object: &Value) {
    if is_of_enterprise(object) {
        out.sentence("packets are distinguished by no element of an enterprise");
        return;
    }
    if let Some(name) = text_member(object, "ieName") {
        write_named(out, name);
        return;
    }
    if let Some(number) = number_of(object) {
        write_numbered(out, number);
    }
}

/// Writes names after others, with commas.
fn write_more(out: &mut Explanation, names: &[&str]) {
    for name in names {
        out.text(", ");
        out.text(name);
    }
}

/// Writes the elements by which packets are distinguished, including those of prefixes if `prefixes` is true.
fn write_choice(out: &mut Explanation, prefixes: bool) {
    out.text("elements that are allowed there: ");
    out.text(AXIS_NAMES[0]);
    write_more(out, &AXIS_NAMES[1..]);
    if prefixes {
        write_more(out, &OTHER_NAMES[..PREFIXES]);
    }
    out.end_line();
}

/// Returns the most similar name to the one that an object gives its element, if no element has that name.
fn near_name(out: &mut Explanation, object: &Value) -> Option<&'static str> {
    let name = text_member(object, "ieName")?;
    if by_name(name) != Element::Other {
        return None;
    }
    match similar_name(out, name, &AXIS_NAMES) {
        Some(known) => Some(known),
        None => similar_name(out, name, &OTHER_NAMES),
    }
}

/// Writes a field of a cache whose element is misspelled.
fn write_misspelled<'x>(
    out: &mut Explanation,
    device: &'x str,
    cache: &'x str,
    field: &'x Value,
    known: &'x str,
) {
    out.text_quoted("field ", text_or_none(field, "name"));
    out.text_quoted(" of cache ", cache);
    out.text(" of ");
    out.text(device);
    out.text_quoted(
        " names no element that is read: ",
        text_or_none(field, "ieName"),
    );
    out.text("; the nearest name is ");
    out.sentence(known);
}

/// Returns whether this is the name of an element by which packets aren't distinguished.
fn is_registered(name: &str) -> bool {
    for number in 0..256 {
        if element_name(number) == name {
            return true;
        }
    }
    false
}

/// Writes the fields of the layout of a device's cache whose elements are misspelled.
pub(crate) fn write_misspelled_fields(
    out: &mut Explanation,
    device: &str,
    cache: &str,
    fields: &[Value],
) {
    for field in fields {
        if let Some(known) = near_name(out, field) {
            if !is_of_enterprise(field) && !is_registered(text_or_none(field, "ieName")) {
                write_misspelled(out, device, cache, field, known);
            }
        }
    }
}

/// Writes what is wrong with the element that an object names if packets aren't distinguished by it: the most similar
/// name, or the elements by which they are, including those of prefixes if `prefixes` is true. Returns whether packets
/// are distinguished by it.
pub(crate) fn write_element(out: &mut Explanation, object: &Value, prefixes: bool) -> bool {
    if is_of_axis(element_of(object)) {
        return true;
    }
    match near_name(out, object) {
        Some(known) => write_near(out, text_or_none(object, "ieName"), known),
        None => {
            write_no_axis(out, object);
            write_choice(out, prefixes);
        }
    }
    false
}

/// Writes a value that isn't allowed, if it is short enough.
pub(crate) fn write_value(out: &mut Explanation, value: &Value) {
    let text = value.to_string(out.alloc);
    let Some(text) = out.unless_short(text) else {
        return;
    };
    let octets = text.as_bytes();
    let end = octets.len().min(SHOWN);
    out.text("the value there: ");
    out.octets_of(&octets[..end]);
    out.end_line();
}
