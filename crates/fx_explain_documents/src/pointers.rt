//! JSON Pointers, segment by segment.
use fx_explanation::are_digits;
use serde_json::Value;

/// Returns whether a segment of a pointer is an index into a list.
fn is_place(segment: &str) -> bool {
    !segment.is_empty() && are_digits(segment.as_bytes())
}

/// The location to which a pointer leads.
#[derive(Clone, Copy, Drop)]
pub(crate) struct Location<'a> {
    /// The last member in the pointer, or an empty text.
    pub(crate) member: &'a str,
    /// The member before that, or an empty text.
    pub(crate) above: &'a str,
    /// The number of lists between the last member and the value.
    pub(crate) depth: usize,
}

/// Returns where a pointer leads.
pub(crate) fn location_of(pointer: &str) -> Location<'_> {
    let mut location = Location {
        member: "",
        above: "",
        depth: 0,
    };
    for segment in pointer.split('/').skip(1) {
        if is_place(segment) {
            location.depth = location.depth.saturating_add(1);
        } else {
            location = Location {
                member: segment,
                above: location.member,
                depth: 0,
            };
        }
    }
    location
}

/// Returns the last member in a pointer, or an empty text.
pub(crate) fn last_member(pointer: &str) -> &str {
    let mut last = "";
    for segment in pointer.split('/') {
        if !is_place(segment) {
            last = segment;
        }
    }
    last
}

/// Returns the child of a value to which a segment of a pointer leads.
fn child<'a>(value: &'a Value, segment: &str) -> Option<&'a Value> {
    match segment.parse::<usize>() {
        Ok(index) => value.as_array()?.get(index),
        Err(_) => value.get(segment),
    }
}

/// Returns the value to which the given number of first segments of a pointer lead.
pub(crate) fn value_after<'a>(
    value: &'a Value,
    pointer: &str,
    segments: usize,
) -> Option<&'a Value> {
    let mut value = value;
    for segment in pointer.split('/').skip(1).take(segments) {
        value = child(value, segment)?;
    }
    Some(value)
}

/// Returns the text in a member of an object.
pub(crate) fn text_member<'a>(value: &'a Value, name: &str) -> Option<&'a str> {
    value.get(name)?.as_str()
}

/// Returns the text in a member of an object, or an empty text.
pub(crate) fn text_or_none<'a>(value: &'a Value, name: &str) -> &'a str {
    match text_member(value, name) {
        Some(text) => text,
        None => "",
    }
}

/// Returns the items of a member that is a list, or an empty slice if there is no such member.
pub(crate) fn items_member<'a>(value: &'a Value, name: &str) -> &'a [Value] {
    match value.get(name) {
        Some(Value::Array(items)) => items.as_slice(),
        _ => &[],
    }
}

/// Returns the entry with this name in a list of an object.
pub(crate) fn entry_of<'a>(value: &'a Value, list: &str, name: &str) -> Option<&'a Value> {
    for entry in items_member(value, list) {
        if text_member(entry, "name") == Some(name) {
            return Some(entry);
        }
    }
    None
}

/// Returns the configuration of a device.
pub(crate) fn configuration(device: &Value) -> Option<&Value> {
    device.get("config")?.get("ietf-ipfix-psamp:ipfix")
}
