//! JSON values given instead of a document that are a part of a document, or the other document.
use fx_explanation::Explanation;
use serde_json::Value;

/// Members that identify the object that has one; of several, the first counts.
const MARKS: &[&str] = &[
    "devices",
    "links",
    "report",
    "classes",
    "ietf-ipfix-psamp:ipfix",
    "config",
    "paths",
    "toDevice",
    "key",
    "interface",
    "observationPoint",
    "selectionProcess",
    "cache",
    "exportingProcess",
    "collectingProcess",
];

/// Returns the member that identifies an object, or an empty text.
fn mark_of(object: &Value) -> &'static str {
    for mark in MARKS {
        if object.get(*mark).is_some() {
            return mark;
        }
    }
    ""
}

/// The kind of an object that has a member, and of a list of such objects.
const NAMES: [(&str, &str, &str); 10] = [
    ("devices", "a network", "a list of networks"),
    ("links", "a network", "a list of networks"),
    ("report", "a network", "a list of networks"),
    (
        "classes",
        "a traffic declaration",
        "a list of traffic declarations",
    ),
    (
        "ietf-ipfix-psamp:ipfix",
        "the configuration of a device",
        "the configuration of a device",
    ),
    ("config", "a device", "a list of devices"),
    ("paths", "a class", "a list of classes"),
    ("toDevice", "a link", "a list of links"),
    ("key", "a report", "a report"),
    ("interface", "crossings", "crossings"),
];

/// The places where an object that has a member belongs, and where a list of such objects does.
const PLACES: [(&str, &str, &str); 10] = [
    ("devices", ALONE, ALONE),
    ("links", ALONE, ALONE),
    ("report", ALONE, ALONE),
    ("classes", ALONE, ALONE),
    ("ietf-ipfix-psamp:ipfix", CONFIGURATION, CONFIGURATION),
    (
        "config",
        "its place in a network is: {\"devices\": [HERE, ..], \"links\": [..], \"report\": {..}}",
        "its place in a network is: {\"devices\": HERE, \"links\": [..], \"report\": {..}}",
    ),
    (
        "toDevice",
        "its place in a network is: {\"devices\": [..], \"links\": [HERE, ..], \"report\": {..}}",
        "its place in a network is: {\"devices\": [..], \"links\": HERE, \"report\": {..}}",
    ),
    ("key", REPORT, REPORT),
    (
        "paths",
        "its place in a traffic declaration is: {\"classes\": [HERE, ..]}",
        "its place in a traffic declaration is: {\"classes\": HERE}",
    ),
    ("interface", CROSSINGS, CROSSINGS),
];

/// The advice on where a document belongs.
const ALONE: &str = "a document is a single object: remove what is around it";

/// The advice on where the configuration of a device belongs.
const CONFIGURATION: &str =
    "its place in a network is: {\"devices\": [{\"name\": .., \"config\": HERE}, ..], \"links\": [..], \"report\": {..}}";

/// The advice on where the report belongs.
const REPORT: &str =
    "its place in a network is: {\"devices\": [..], \"links\": [..], \"report\": HERE}";

/// The advice on where crossings belong.
const CROSSINGS: &str =
    "their place in a traffic declaration is: {\"classes\": [{\"name\": .., \"paths\": [[..], ..]}, ..]}";

/// The advice on where a part of a device's configuration belongs.
const PART: &str =
    "the place of a device's configuration in a network is: {\"devices\": [{\"name\": .., \"config\": {\"ietf-ipfix-psamp:ipfix\": {\"observationPoint\": [..], ..}}}, ..], \"links\": [..], \"report\": {..}}";

/// Returns the text of a table for an object with this member, or for a list of such objects, or `other` if it has
/// none.
fn said_of(
    table: &[(&'static str, &'static str, &'static str)],
    mark: &str,
    is_list: bool,
    other: &'static str,
) -> &'static str {
    for (known, one, list) in table {
        if *known == mark {
            return if is_list { list } else { one };
        }
    }
    other
}

/// Returns the kind of an object with this member, or of a list of such objects.
fn name_of(mark: &str, is_list: bool) -> &'static str {
    said_of(&NAMES, mark, is_list, "a part of a device's configuration")
}

/// Returns where an object with this member, or a list of such objects, belongs.
fn place_of(mark: &str, is_list: bool) -> &'static str {
    said_of(&PLACES, mark, is_list, PART)
}

/// Returns whether such objects belong in a network.
fn is_of_network(mark: &str) -> bool {
    !matches!(mark, "classes" | "paths" | "interface")
}

/// Returns whether an object with this member is a document.
fn is_document(mark: &str) -> bool {
    matches!(mark, "devices" | "links" | "report" | "classes")
}

/// Writes what an object or a list of objects is that is given instead of a network document or a traffic declaration.
fn write_mark(out: &mut Explanation, mark: &str, is_list: bool, is_network: bool) {
    out.text("this looks like ");
    out.text(name_of(mark, is_list));
    out.sentence(if is_network {
        ", and is read as a network"
    } else {
        ", and is read as a traffic declaration"
    });
    if is_list || !is_document(mark) {
        out.sentence(place_of(mark, is_list));
    }
    if is_of_network(mark) != is_network {
        out.sentence("the order of the files is: NETWORK TRAFFIC");
    }
}

/// Writes what a list is that is given instead of a network document or a traffic declaration.
pub(crate) fn write_list(out: &mut Explanation, items: &[Value], is_network: bool) {
    let first = match items.first() {
        Some(Value::Array(inner)) => inner.as_slice().first(),
        first => first,
    };
    let mark = match first {
        Some(object) => mark_of(object),
        None => "",
    };
    if !mark.is_empty() {
        write_mark(out, mark, true, is_network);
    }
}

/// Writes what an object is that is given instead of a network document or a traffic declaration and has a member that
/// such a document can't have.
pub(crate) fn write_whole(out: &mut Explanation, object: &Value, member: &Value, is_network: bool) {
    let mark = mark_of(object);
    let inner = mark_of(member);
    if is_document(mark) && object.get("classes").is_some() && is_of_network(mark) {
        out.sentence(
            "a network and a traffic declaration are documents of their own: write them in two files",
        );
    } else if mark.is_empty() && !inner.is_empty() {
        out.text("its content looks like ");
        out.sentence(name_of(inner, false));
        out.sentence(place_of(inner, false));
    } else if !mark.is_empty() && (!is_document(mark) || is_of_network(mark) != is_network) {
        write_mark(out, mark, false, is_network);
    }
}
