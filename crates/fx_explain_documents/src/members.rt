//! The members that an object lacks, and those that it has.
use crate::allowed::{has_one, members_in};
use crate::elements::element_of;
use fx_elements::Element;
use fx_explanation::Explanation;
use serde_json::Value;

/// The members that an object must have: all of the first, and one of the second.
#[derive(Clone, Copy)]
struct Required {
    all: &'static [&'static str],
    one: &'static [&'static str],
}

/// Returns the members of which an object must have exactly one, by the last member of the object's pointer.
pub(crate) fn one_required(member: &str) -> &'static [&'static str] {
    match member {
        "selector" => &["selectAll", "filterMatch"],
        "filterMatch" | "match" | "cacheField" | "key" => &["ieName", "ieId"],
        "cache" => &[
            "immediateCache",
            "timeoutCache",
            "naturalCache",
            "permanentCache",
        ],
        "destination" => &["tcpExporter", "sctpExporter", "udpExporter"],
        _ => &[],
    }
}

/// The members that objects must have, by the member that contains the object.
const REQUIRED: [(&str, &[&str]); 22] = [
    ("devices", &["name", "config"]),
    ("config", &["ietf-ipfix-psamp:ipfix"]),
    (
        "links",
        &[
            "device",
            "exportingProcess",
            "destination",
            "toDevice",
            "toProcess",
        ],
    ),
    ("report", &["device", "collectingProcess", "key"]),
    ("classes", &["name", "paths"]),
    ("paths", &["device", "interface", "direction"]),
    (
        "observationPoint",
        &["name", "observationDomainId", "ifName"],
    ),
    ("selectionProcess", &["name", "selector"]),
    ("filterMatch", &["value"]),
    ("match", &["value"]),
    ("immediateCache", &["cacheLayout"]),
    ("timeoutCache", &["cacheLayout"]),
    ("naturalCache", &["cacheLayout"]),
    ("permanentCache", &["cacheLayout"]),
    ("cacheLayout", &["cacheField"]),
    ("exportingProcess", &["name", "destination"]),
    ("selector", &["name"]),
    ("cache", &["name"]),
    ("cacheField", &["name"]),
    ("destination", &["name"]),
    ("collectingProcess", &["name"]),
    ("once-audit:aggregation", &["name"]),
];

/// Returns the members that a network document or a traffic declaration as a whole must have.
fn members_of_document(is_network: bool) -> &'static [&'static str] {
    if is_network {
        &["devices", "links", "report"]
    } else {
        &["classes"]
    }
}

/// Returns the members that an object must have, by the last member of its pointer, or those that a network document or
/// a traffic declaration as a whole must have.
fn members_required(member: &str, is_network: bool) -> Required {
    Required {
        all: if member.is_empty() {
            members_of_document(is_network)
        } else {
            members_in(&REQUIRED, member)
        },
        one: one_required(member),
    }
}

/// Writes those of these members that an object lacks.
fn write_missing(out: &mut Explanation, object: &Value, names: &'static [&'static str]) {
    for name in names {
        if object.get(*name).is_none() {
            out.text("missing: ");
            out.sentence(name);
        }
    }
}

/// Writes names with a separator between them.
fn write_choice(out: &mut Explanation, names: &'static [&'static str]) {
    let mut separator = "missing: one of ";
    for name in names {
        out.text(separator);
        out.text(name);
        separator = ", ";
    }
    out.end_line();
}

/// Writes the members that an object has.
fn write_members(out: &mut Explanation, object: &Value) {
    let Some(members) = object.as_object() else {
        return;
    };
    for (name, _) in members.iter() {
        out.text("there: ");
        out.sentence(name.as_str());
    }
    if members.is_empty() {
        out.sentence("it has no members");
    }
}

/// Writes which members an object lacks, by the last member of its pointer, and which it has.
pub(crate) fn write_lacking(out: &mut Explanation, object: &Value, member: &str, is_network: bool) {
    if !object.is_object() {
        out.sentence("the list is empty; it has to have an entry at least");
        return;
    }
    let required = members_required(member, is_network);
    write_missing(out, object, required.all);
    if !has_one(object, required.one) && !required.one.is_empty() {
        write_choice(out, required.one);
    }
    if matches!(element_of(object), Element::Prefix(_)) && member == "key" {
        write_missing(out, object, &["prefixLength"]);
    }
    write_members(out, object);
}
