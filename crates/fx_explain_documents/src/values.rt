//! What is wrong with a value that isn't allowed, and the allowed values.
use crate::elements::{element_of, write_element};
use crate::members::one_required;
use crate::pointers::{last_member, text_member};
use crate::spelling::{write_forms, write_spelling, write_values};
use fx_elements::{Element, by_name, width};
use fx_explanation::Explanation;
use serde_json::Value;

/// Members that are 32-bit integers.
const WHOLE: [&str; 6] = [
    "observationDomainId",
    "maxFlows",
    "activeTimeout",
    "idleTimeout",
    "exportInterval",
    "ieEnterpriseNumber",
];

/// Returns the allowed values of a member of a network document or of a traffic declaration, if a few words suffice.
fn words_allowed(member: &str, is_network: bool) -> &'static str {
    if WHOLE.contains(&member) {
        return "a whole number from 0 to 4294967295";
    }
    match member {
        "direction" if is_network => "ingress, egress or both",
        "direction" => "ingress or egress",
        "exportMode" => "parallel, loadBalancing or fallback",
        "ieId" => "a whole number from 1 to 32767",
        "ieLength" => "a whole number of octets from 1 to 65535",
        "prefixLength" => "a whole number of bits from 1 to 32, of IPv6 to 128",
        "isFlowKey" => "[null] or true; a field that is no flow key hasn't the member",
        "exempt" => "[null] or true; a class that isn't exempt hasn't the member",
        "selectAll" => "[null], true or {}",
        _ => "",
    }
}

/// Writes the allowed values of a member.
pub(crate) fn write_allowed(out: &mut Explanation, member: &str, is_network: bool) {
    let words = words_allowed(member, is_network);
    if !words.is_empty() {
        out.text("allowed there: ");
        out.sentence(words);
    } else if !is_network {
        write_region_forms(out, member);
    }
}

/// Writes the notation of a region's member.
fn write_region_forms(out: &mut Explanation, member: &str) {
    if let Element::OnAxis(axis) = by_name(member) {
        write_forms(out, axis);
    }
}

/// Returns why a text is no valid name, if it isn't one.
fn name_words(text: &str) -> Option<&'static str> {
    if text.is_empty() {
        Some("the name is empty")
    } else if text.len() > 255 {
        Some("the name has more than 255 octets")
    } else if text.trim().len() != text.len() {
        Some("the name has white space at an end")
    } else {
        None
    }
}

/// Writes why a text is no valid name, if it isn't one.
fn write_name(out: &mut Explanation, text: &str) {
    if let Some(words) = name_words(text) {
        out.sentence(words);
    }
}

/// Writes what is wrong with the text of a member that isn't one of a few words.
fn write_text(out: &mut Explanation, member: &str, text: &str, is_network: bool) {
    match by_name(member) {
        Element::OnAxis(axis) if !is_network => write_values(out, axis, text),
        _ => write_name(out, text),
    }
}

/// Returns whether a value is an allowed number of octets of a field.
fn is_length(value: &Value) -> bool {
    match value.as_u64() {
        Some(octets) => 0 < octets && octets < 0x1_0000,
        None => false,
    }
}

/// Writes the number of octets of a field's element.
fn write_octets(out: &mut Explanation, field: &Value) {
    let octets = match element_of(field) {
        Element::OnAxis(axis) => u64::from(width(axis) / 8),
        Element::OctetDeltaCount | Element::PacketDeltaCount => 8,
        _ => return,
    };
    out.text_number("octets that this element has to have there: ", octets);
    out.end_line();
}

/// Writes which of several mutually exclusive members an object has.
fn write_several(out: &mut Explanation, object: &Value, names: &'static [&'static str]) {
    let mut separator = "only one of these may be there: ";
    for name in names {
        if object.get(*name).is_some() {
            out.text(separator);
            out.text(name);
            separator = ", ";
        }
    }
    out.end_line();
}

/// Returns whether an object has more than one of these members.
fn are_several(object: &Value, names: &'static [&'static str]) -> bool {
    let mut found = false;
    for name in names {
        if object.get(*name).is_some() {
            if found {
                return true;
            }
            found = true;
        }
    }
    false
}

/// Writes what is wrong with an object that specifies an element and its value.
fn write_match(out: &mut Explanation, object: &Value) {
    if !write_element(out, object, true) {
        return;
    }
    if let Some(text) = text_member(object, "value") {
        write_spelling(out, element_of(object), text);
    }
}

/// Returns whether two fields of a key are of one axis.
fn is_same_axis(one: &Value, other: &Value) -> bool {
    match (element_of(one), element_of(other)) {
        (
            Element::OnAxis(one) | Element::Prefix(one),
            Element::OnAxis(other) | Element::Prefix(other),
        ) => one == other,
        _ => false,
    }
}

/// Returns whether one of these fields of a key is of the axis of another.
fn has_same_axis(fields: &[Value], other: &Value) -> bool {
    for field in fields {
        if is_same_axis(field, other) {
            return true;
        }
    }
    false
}

/// Writes what is wrong with a field of a key that follows the earlier fields.
fn write_field(out: &mut Explanation, field: &Value, earlier: &[Value]) {
    if !write_element(out, field, true) {
        return;
    }
    let is_axis = matches!(element_of(field), Element::OnAxis(_));
    if is_axis && field.get("prefixLength").is_some() {
        out.sentence(
            "prefixLength is allowed only with an element of a prefix, such as sourceIPv4Prefix",
        );
    }
    if has_same_axis(earlier, field) {
        out.sentence(
            "an earlier field of the key has this axis; an address and its prefix are one axis",
        );
    }
}

/// Writes what is wrong with the fields of a key.
fn write_key(out: &mut Explanation, fields: &[Value]) {
    for index in 0..fields.len() {
        write_field(out, &fields[index], &fields[..index]);
    }
}

/// Returns the value that contains the one at a pointer.
fn value_above<'a>(document: &'a Value, pointer: &str) -> Option<&'a Value> {
    let (above, _) = pointer.rsplit_once('/')?;
    document.pointer(above)
}

/// Writes what is wrong with an object at a pointer that isn't allowed.
fn write_object(out: &mut Explanation, document: &Value, pointer: &str, object: &Value) {
    let member = last_member(pointer);
    let choice = one_required(member);
    if are_several(object, choice) {
        write_several(out, object, choice);
        return;
    }
    match member {
        "filterMatch" | "match" => write_match(out, object),
        "cacheField" => {
            let _of_axis = write_element(out, object, false);
        }
        "report" => {
            if let Some(Value::Array(fields)) = object.get("key") {
                write_key(out, fields.as_slice());
            }
        }
        "key" => {
            if let Some(Value::Array(fields)) = value_above(document, pointer) {
                write_key(out, fields.as_slice());
            }
        }
        _ => {}
    }
}

/// Writes what is wrong with a value at a pointer that isn't allowed, and the allowed values.
pub(crate) fn write_wrong(
    out: &mut Explanation,
    document: &Value,
    pointer: &str,
    value: &Value,
    is_network: bool,
) {
    let member = last_member(pointer);
    if words_allowed(member, is_network).is_empty() {
        match value {
            Value::Object(_) => write_object(out, document, pointer, value),
            Value::String(text) => write_text(out, member, text.as_str(), is_network),
            _ => {}
        }
        return;
    }
    match value_above(document, pointer) {
        Some(field) if member == "ieLength" && is_length(value) => write_octets(out, field),
        _ => write_allowed(out, member, is_network),
    }
}
