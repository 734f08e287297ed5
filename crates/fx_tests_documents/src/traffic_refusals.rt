//! Declarations of traffic that are refused, and the places, in a network of two devices.
use crate::documents::{Frame, Kind, look_at_rows};

/// A whole document.
const DOCUMENT: &Frame<'static> = &Frame {
    kind: Kind::Traffic,
    before: "",
    behind: "",
    pointer: "",
};

const DOCUMENTS: &[(&str, &str)] = &[
    ("[]", "104 "),
    ("{}", "103 "),
    (r#"{"a":1,"classes":7}"#, "102 /a"),
    (r#"{"classes":{}}"#, "104 /classes"),
    (r#"{"classes":[7]}"#, "104 /classes/0"),
    (r#"{"classes":[{}]}"#, "103 /classes/0"),
    (r#"{"classes":[{"except":true}]}"#, "102 /classes/0/except"),
    (r#"{"classes":[{"exempt":true}]}"#, "103 /classes/0"),
    (r#"{"classes":[{"name":7}]}"#, "104 /classes/0/name"),
    (r#"{"classes":[{"name":" a"}]}"#, "302 /classes/0/name"),
    (
        r#"{"classes":[{"name":"a","region":7}]}"#,
        "104 /classes/0/region",
    ),
    (r#"{"classes":[{"name":"a"}]}"#, "103 /classes/0"),
    (
        r#"{"classes":[{"name":"a","paths":[]}]}"#,
        "304 /classes/0/paths",
    ),
    (
        r#"{"classes":[{"exempt":7,"name":"a","paths":[]}]}"#,
        "304 /classes/0/paths",
    ),
    (
        r#"{"classes":[{"name":"a","paths":[7]}]}"#,
        "104 /classes/0/paths/0",
    ),
    (
        r#"{"classes":[{"name":"a","paths":[[7]]}]}"#,
        "104 /classes/0/paths/0/0",
    ),
    (
        r#"{"classes":[{"name":"a","paths":[[],[7]]}]}"#,
        "104 /classes/0/paths/1/0",
    ),
    (
        r#"{"classes":[{"name":"a","paths":[[]]},{"name":"b","paths":[[]]},{"name":"a"}]}"#,
        "301 /classes/2/name",
    ),
];

/// A class's region.
const REGION: &Frame<'static> = &Frame {
    kind: Kind::Traffic,
    before: r#"{"classes":[{"name":"a","region":"#,
    behind: r#","paths":[[]]}]}"#,
    pointer: "/classes/0/region",
};

const REGIONS: &[(&str, &str)] = &[
    ("{}", "ok"),
    (
        r#"{"destinationIPv4Address":"192.0.2.1/32","sourceIPv4Address":"10.0.0.5/8"}"#,
        "ok",
    ),
    (
        r#"{"sourceIPv4Prefix":"10.0.0.0/8","sourceIPv4Address":7}"#,
        "102 /sourceIPv4Prefix",
    ),
    (r#"{"sourceIPv4Address":7}"#, "104 /sourceIPv4Address"),
    (r#"{"sourceIPv4Address":"10.0.0.0"}"#, "ok"),
    (
        r#"{"sourceIPv4Address":"10.0.0.1-10.0.0.0"}"#,
        "302 /sourceIPv4Address",
    ),
    (
        r#"{"sourceIPv4Address":"10.0.0.0/8-10.0.0.1"}"#,
        "302 /sourceIPv4Address",
    ),
    (
        r#"{"sourceTransportPort":"1-2-3"}"#,
        "302 /sourceTransportPort",
    ),
    (
        r#"{"sourceTransportPort":"0-65536"}"#,
        "302 /sourceTransportPort",
    ),
    (
        r#"{"sourceTransportPort":"1 - 2"}"#,
        "302 /sourceTransportPort",
    ),
    (r#"{"protocolIdentifier":"6/8"}"#, "302 /protocolIdentifier"),
    (
        r#"{"sourceIPv4Address":"10.0.0.0/0"}"#,
        "302 /sourceIPv4Address",
    ),
    (
        r#"{"sourceIPv4Address":"10.0.0.0/33"}"#,
        "302 /sourceIPv4Address",
    ),
    (
        r#"{"protocolIdentifier":"6","destinationIPv4Address":"x"}"#,
        "302 /destinationIPv4Address",
    ),
    (r#"{"protocolIdentifier":"06"}"#, "302 /protocolIdentifier"),
    (r#"{"protocolIdentifier":"6"}"#, "ok"),
    (r#"{"ipClassOfService":0}"#, "104 /ipClassOfService"),
];

/// A class's one crossing.
const CROSSING: &Frame<'static> = &Frame {
    kind: Kind::Traffic,
    before: r#"{"classes":[{"name":"a","paths":[["#,
    behind: "]]}]}",
    pointer: "/classes/0/paths/0/0",
};

const CROSSINGS: &[(&str, &str)] = &[
    (
        r#"{"device":"c1","interface":"eth0","direction":"egress"}"#,
        "ok",
    ),
    (
        r#"{"device":"c1","interface":"eth0","direction":"both"}"#,
        "302 /direction",
    ),
    (
        r#"{"device":"c1","interface":"eth0","direction":true}"#,
        "104 /direction",
    ),
    (r#"{"device":"c1","interface":"eth0"}"#, "103 "),
    (
        r#"{"device":"c1","interface":"","direction":7}"#,
        "302 /interface",
    ),
    (r#"{"device":"c1","interface":7}"#, "104 /interface"),
    (r#"{"device":"c2","interface":7}"#, "303 /device"),
    (r#"{"device":"","interface":7}"#, "302 /device"),
    (r#"{"device":7}"#, "104 /device"),
    (r#"{"interface":7}"#, "103 "),
    (r#"{"interface":7,"a":1}"#, "102 /a"),
];

/// The member that makes a class exempt.
const EXEMPT: &Frame<'static> = &Frame {
    kind: Kind::Traffic,
    before: r#"{"classes":[{"name":"a","paths":[[]],"exempt":"#,
    behind: "}]}",
    pointer: "/classes/0/exempt",
};

const EXEMPTS: &[(&str, &str)] = &[
    ("true", "ok"),
    ("[null]", "ok"),
    ("false", "302 "),
    ("null", "302 "),
    ("[]", "302 "),
    ("[true]", "302 "),
    (r#""true""#, "302 "),
];

#[test]
fn refuses_declarations(rt: HostRuntime) {
    look_at_rows(&rt, rt.alloc(), DOCUMENT, DOCUMENTS);
}

#[test]
fn refuses_regions(rt: HostRuntime) {
    look_at_rows(&rt, rt.alloc(), REGION, REGIONS);
}

#[test]
fn refuses_crossings(rt: HostRuntime) {
    look_at_rows(&rt, rt.alloc(), CROSSING, CROSSINGS);
}

#[test]
fn refuses_other_exemptions(rt: HostRuntime) {
    look_at_rows(&rt, rt.alloc(), EXEMPT, EXEMPTS);
}
