//! The expected and the actual kind of a JSON value.
use crate::allowed::is_one_of;
use crate::pointers::{Location, location_of};
use fx_explanation::Explanation;
use serde_json::Value;

/// The member that contains the lists of a device.
const MODULE: &str = "ietf-ipfix-psamp:ipfix";

/// The expected kind of a value.
#[derive(Clone, Copy)]
enum Due {
    Object,
    Text,
    Number,
    /// An empty type, whose values are written like allowed values.
    Empty,
    /// A list of objects.
    Objects,
    /// A list of names.
    Names,
    /// A list of paths, each of which is a list of crossings.
    Paths,
}

/// Returns the kind of a value.
fn kind_words(value: &Value) -> &'static str {
    match value {
        Value::Null => "null",
        Value::Bool(_) => "a Boolean",
        Value::Number(_) => "a number",
        Value::String(_) => "a text",
        Value::Array(_) => "a list",
        Value::Object(_) => "an object",
    }
}

/// Members of a network that are objects; the first is the document itself.
const OBJECTS: [&str; 10] = [
    "",
    "config",
    "ietf-ipfix-psamp:ipfix",
    "report",
    "filterMatch",
    "cacheLayout",
    "immediateCache",
    "timeoutCache",
    "naturalCache",
    "permanentCache",
];

/// Members of a network that are lists of objects in every object.
const LISTS: [&str; 7] = [
    "devices",
    "links",
    "key",
    "selector",
    "cacheField",
    "match",
    "once-audit:aggregation",
];

/// Members of a network that are lists of objects in a device's module or, for `destination`, in one of its exporting
/// processes.
const DEVICE_LISTS: [&str; 6] = [
    "observationPoint",
    "selectionProcess",
    "cache",
    "exportingProcess",
    "collectingProcess",
    "destination",
];

/// Members of a network that are texts in every object.
const TEXTS: [&str; 8] = [
    "name",
    "device",
    "toDevice",
    "toProcess",
    "ieName",
    "value",
    "direction",
    "exportMode",
];

/// Members of a network that are numbers.
const NUMBERS: [&str; 9] = [
    "observationDomainId",
    "maxFlows",
    "activeTimeout",
    "idleTimeout",
    "exportInterval",
    "ieId",
    "ieLength",
    "ieEnterpriseNumber",
    "prefixLength",
];

/// Members of a traffic declaration that are texts in every object.
const TRAFFIC_TEXTS: [&str; 4] = ["name", "device", "interface", "direction"];

/// Returns the expected kind of a member of a network that is a name in one object and a list of names in another.
fn due_of_names(location: &Location<'_>) -> Due {
    let is_list = location.above == MODULE || location.member == "destination";
    match location.above {
        "links" | "report" | "selectionProcess" => Due::Text,
        _ if is_list => Due::Objects,
        _ => Due::Names,
    }
}

/// Returns the expected kind of a member of a network.
fn due_in_network(location: &Location<'_>) -> Option<Due> {
    let member = location.member;
    if is_one_of(&DEVICE_LISTS, member) {
        Some(due_of_names(location))
    } else if is_one_of(&OBJECTS, member) {
        Some(Due::Object)
    } else if is_one_of(&LISTS, member) {
        Some(Due::Objects)
    } else if is_one_of(&TEXTS, member) {
        Some(Due::Text)
    } else if is_one_of(&NUMBERS, member) {
        Some(Due::Number)
    } else {
        other_due(member)
    }
}

/// Returns the expected kind of one of the other members of a network.
fn other_due(member: &str) -> Option<Due> {
    match member {
        "ifName" => Some(Due::Names),
        "selectAll" | "isFlowKey" => Some(Due::Empty),
        _ => None,
    }
}

/// Returns the expected kind of a member of a traffic declaration.
fn due_in_traffic(location: &Location<'_>) -> Option<Due> {
    if location.above == "region" || is_one_of(&TRAFFIC_TEXTS, location.member) {
        return Some(Due::Text);
    }
    match location.member {
        "" | "region" => Some(Due::Object),
        "classes" => Some(Due::Objects),
        "paths" => Some(Due::Paths),
        _ => None,
    }
}

/// Returns a description of the kind that is expected the given number of lists below a member.
fn due_below(due: Due, depth: usize) -> &'static str {
    match (due, depth) {
        (Due::Object, 0) | (Due::Objects, 1) | (Due::Paths, 2) => "an object, in { }",
        (Due::Text, 0) | (Due::Names, 1) => "a text, in quotation marks",
        (Due::Number, 0) => "a number, without quotation marks",
        (Due::Objects, 0) => "a list of objects, in [ ]",
        (Due::Names, 0) => "a list of texts, in [ ]",
        (Due::Paths, 0) => "a list of paths, in [ ], each of which is a list of crossings",
        (Due::Paths, 1) => "a list of crossings, in [ ]",
        _ => "",
    }
}

/// Returns a description of the kind that is expected at a location in a network or in a traffic declaration, or an
/// empty text if it isn't known.
fn due_words(location: &Location<'_>, is_network: bool) -> &'static str {
    let due = if is_network {
        due_in_network(location)
    } else {
        due_in_traffic(location)
    };
    match due {
        Some(due) => due_below(due, location.depth),
        None => "",
    }
}

/// Writes the kind of the value at a pointer, and the expected kind.
pub(crate) fn write_kinds(out: &mut Explanation, pointer: &str, value: &Value, is_network: bool) {
    let due = due_words(&location_of(pointer), is_network);
    out.text("it is ");
    out.text(kind_words(value));
    if !due.is_empty() {
        out.text("; expected there: ");
        out.text(due);
    }
    out.end_line();
}
