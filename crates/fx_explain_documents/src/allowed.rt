//! The members that an object may have, and members that it may not have.
use crate::members::one_required;
use crate::parts::write_whole;
use crate::pointers::last_member;
use crate::similar_names::similar_name;
use fx_elements::AXIS_NAMES;
use fx_explanation::{Explanation, between};
use serde_json::Value;

/// The members that objects of a network may have, by the member that contains the object, except for those whose
/// refusal has its own number.
const OF_NETWORK: [(&str, &[&str]); 23] = [
    ("", &["devices", "links", "report"]),
    ("devices", &["name", "config"]),
    ("config", &["ietf-ipfix-psamp:ipfix"]),
    (
        "links",
        &[
            "device",
            "exportingProcess",
            "destination",
            "toDevice",
            "toProcess",
        ],
    ),
    ("report", &["device", "collectingProcess", "key"]),
    (
        "ietf-ipfix-psamp:ipfix",
        &[
            "observationPoint",
            "selectionProcess",
            "cache",
            "exportingProcess",
            "collectingProcess",
        ],
    ),
    (
        "observationPoint",
        &[
            "name",
            "observationDomainId",
            "ifName",
            "direction",
            "selectionProcess",
        ],
    ),
    ("selectionProcess", &["name", "selector", "cache"]),
    ("selector", &["name", "selectAll", "filterMatch"]),
    (
        "filterMatch",
        &["ieName", "ieId", "ieEnterpriseNumber", "value"],
    ),
    ("match", &["ieName", "ieId", "ieEnterpriseNumber", "value"]),
    (
        "exportingProcess",
        &["name", "exportMode", "destination", "options"],
    ),
    (
        "destination",
        &["name", "tcpExporter", "sctpExporter", "udpExporter"],
    ),
    (
        "collectingProcess",
        &[
            "name",
            "tcpCollector",
            "sctpCollector",
            "udpCollector",
            "exportingProcess",
            "once-audit:aggregation",
        ],
    ),
    (
        "once-audit:aggregation",
        &["name", "key", "match", "exportingProcess"],
    ),
    ("key", &["ieName", "ieId", "prefixLength"]),
    (
        "cache",
        &[
            "name",
            "immediateCache",
            "timeoutCache",
            "naturalCache",
            "permanentCache",
            "exportingProcess",
        ],
    ),
    (
        "immediateCache",
        &[
            "maxFlows",
            "activeTimeout",
            "idleTimeout",
            "exportInterval",
            "cacheLayout",
        ],
    ),
    (
        "timeoutCache",
        &[
            "maxFlows",
            "activeTimeout",
            "idleTimeout",
            "exportInterval",
            "cacheLayout",
        ],
    ),
    (
        "naturalCache",
        &[
            "maxFlows",
            "activeTimeout",
            "idleTimeout",
            "exportInterval",
            "cacheLayout",
        ],
    ),
    (
        "permanentCache",
        &[
            "maxFlows",
            "activeTimeout",
            "idleTimeout",
            "exportInterval",
            "cacheLayout",
        ],
    ),
    ("cacheLayout", &["cacheField"]),
    (
        "cacheField",
        &[
            "name",
            "ieName",
            "ieId",
            "ieLength",
            "ieEnterpriseNumber",
            "isFlowKey",
        ],
    ),
];

/// The members that objects of a traffic declaration may have, by the member that contains the object.
const OF_TRAFFIC: [(&str, &[&str]); 3] = [
    ("", &["classes"]),
    ("classes", &["name", "region", "paths", "exempt"]),
    ("paths", &["device", "interface", "direction"]),
];

/// Returns the members that a table lists for the objects in a member.
pub(crate) fn members_in(
    table: &[(&'static str, &'static [&'static str])],
    member: &str,
) -> &'static [&'static str] {
    for (known, names) in table {
        if *known == member {
            return names;
        }
    }
    &[]
}

/// Returns the members that are allowed in an object of a network document or of a traffic declaration, by the last
/// member of the object's pointer.
fn members_allowed(member: &str, is_network: bool) -> &'static [&'static str] {
    if is_network {
        members_in(&OF_NETWORK, member)
    } else if member == "region" {
        &AXIS_NAMES
    } else {
        members_in(&OF_TRAFFIC, member)
    }
}

/// Returns whether an object has one of these members.
pub(crate) fn has_one(object: &Value, names: &[&str]) -> bool {
    for name in names {
        if object.get(*name).is_some() {
            return true;
        }
    }
    false
}

/// Returns whether a name is one of these.
pub(crate) fn is_one_of(names: &[&str], name: &str) -> bool {
    names.contains(&name)
}

/// Writes which of the allowed names an object doesn't have yet; it has a member of another name. Names of which it may
/// have only one aren't written if it has one of them.
fn write_free(
    out: &mut Explanation,
    object: &Value,
    name: &str,
    names: &'static [&'static str],
    choice: &'static [&'static str],
) {
    let is_made = has_one(object, choice);
    out.text_quoted("member ", name);
    out.text(" is not allowed there; allowed, and not there yet: ");
    let mut shown = false;
    for free in names {
        if object.get(*free).is_none() && !(is_made && is_one_of(choice, free)) {
            out.text(between(shown, ", "));
            out.text(free);
            shown = true;
        }
    }
    if !shown {
        out.sentence("none");
        out.text("remove the member");
    }
    out.end_line();
}

/// Writes the name that a misspelled member probably means.
fn write_near<'x>(out: &mut Explanation, object: &Value, name: &'x str, known: &'x str) {
    let there = object.get(known).is_some();
    out.text_quoted("member ", name);
    out.text(" is not allowed there; the nearest name is ");
    out.text(known);
    out.sentence(if there { ", which is there too" } else { "" });
}

/// The notation of a source in a region.
const SOURCE: &str = "\"sourceIPv4Address\": \"192.0.2.0/24\"";

/// The notation of a destination in a region.
const DESTINATION: &str = "\"destinationIPv4Address\": \"192.0.2.0/24\"";

/// The notation of an IPv6 source in a region.
const SOURCE_6: &str = "\"sourceIPv6Address\": \"2001:db8::/32\"";

/// The notation of an IPv6 destination in a region.
const DESTINATION_6: &str = "\"destinationIPv6Address\": \"2001:db8::/32\"";

/// The notation of source ports in a region.
const SOURCE_PORT: &str = "\"sourceTransportPort\": \"1024-65535\"";

/// The notation of destination ports in a region.
const DESTINATION_PORT: &str = "\"destinationTransportPort\": \"443\"";

/// The notation of a protocol in a region.
const PROTOCOL: &str = "\"protocolIdentifier\": \"17\"";

/// The notation of a class of service in a region.
const CLASS_OF_SERVICE: &str =
    "\"ipClassOfService\": \"184\" (the whole octet, as 184 for the DSCP 46)";

/// The notation of a version in a region.
const VERSION: &str = "\"ipVersion\": \"6\"";

/// Names often used for members of a region, each with the notation of the member that is meant.
const EXAMPLES: [(&str, &str); 28] = [
    ("sourceIPv4Prefix", SOURCE),
    ("sourceIPv4PrefixLength", SOURCE),
    ("source", SOURCE),
    ("sourceAddress", SOURCE),
    ("destinationIPv4Prefix", DESTINATION),
    ("destinationIPv4PrefixLength", DESTINATION),
    ("destination", DESTINATION),
    ("destinationAddress", DESTINATION),
    ("sourceIPv6Prefix", SOURCE_6),
    ("sourceIPv6PrefixLength", SOURCE_6),
    ("source6", SOURCE_6),
    ("destinationIPv6Prefix", DESTINATION_6),
    ("destinationIPv6PrefixLength", DESTINATION_6),
    ("destination6", DESTINATION_6),
    ("tcpSourcePort", SOURCE_PORT),
    ("udpSourcePort", SOURCE_PORT),
    ("sourcePort", SOURCE_PORT),
    ("sport", SOURCE_PORT),
    ("tcpDestinationPort", DESTINATION_PORT),
    ("udpDestinationPort", DESTINATION_PORT),
    ("destinationPort", DESTINATION_PORT),
    ("dport", DESTINATION_PORT),
    ("protocol", PROTOCOL),
    ("proto", PROTOCOL),
    ("tos", CLASS_OF_SERVICE),
    ("ipDiffServCodePoint", CLASS_OF_SERVICE),
    ("dscp", CLASS_OF_SERVICE),
    ("version", VERSION),
];

/// Returns an example of the member of a region that a name means which isn't its name there.
fn region_example(name: &str) -> Option<&'static str> {
    for (known, example) in &EXAMPLES {
        if *known == name {
            return Some(example);
        }
    }
    None
}

/// Writes an example of the member that a wrong name means, in the region of a class, or in a filter or a match of a
/// network.
fn write_example<'x>(out: &mut Explanation, name: &'x str, example: &'x str, is_network: bool) {
    out.text_quoted("member ", name);
    out.text(if is_network {
        " is not allowed there; the length of a prefix is in its value: "
    } else {
        " is not allowed there; a region is written like this: "
    });
    out.sentence(example);
}

/// Returns the example for a wrong name of a member in a region, or for the length of a prefix in a filter or a match.
fn example_at(place: &str, name: &str, is_network: bool) -> Option<&'static str> {
    match (last_member(place), name) {
        ("filterMatch" | "match", "prefixLength") if is_network => {
            Some("\"ieName\": \"sourceIPv4Prefix\", \"value\": \"192.0.2.0/24\"")
        }
        ("region", _) if !is_network => region_example(name),
        _ => None,
    }
}

/// Writes which member is meant instead of the one at a pointer, which isn't allowed: the nearest allowed name, or all
/// allowed names.
pub(crate) fn write_unknown_member(
    out: &mut Explanation,
    document: &Value,
    pointer: &str,
    is_network: bool,
) {
    let Some((place, name)) = pointer.rsplit_once('/') else {
        return;
    };
    let Some(object) = document.pointer(place) else {
        return;
    };
    if let Some(example) = example_at(place, name, is_network) {
        write_example(out, name, example, is_network);
        return;
    }
    let names = members_allowed(last_member(place), is_network);
    match similar_name(out, name, names) {
        Some(known) => write_near(out, object, name, known),
        None => write_free(out, object, name, names, one_required(last_member(place))),
    }
    if let (Some(member), true) = (object.get(name), place.is_empty()) {
        write_whole(out, object, member, is_network);
    }
}
