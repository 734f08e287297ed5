//! Results of reading documents, and tables of documents that are refused.
use crate::plan::plan_of;
use fx_base::Fault;
use fx_config::read_device;
use fx_topology::read_network;
use fx_traffic::{Traffic, read_traffic};
use serde_json::Value;
use std::alloc::Global;
use std::process::Abort;

/// The kind of a document, by what it should describe.
#[derive(Clone, Copy)]
pub(crate) enum Kind {
    Device,
    Network,
    Traffic,
}

/// The parts that all documents of a table have in common.
#[derive(Clone, Copy)]
pub(crate) struct Frame<'a> {
    pub(crate) kind: Kind,
    /// The text before and after each text of the table.
    pub(crate) before: &'a str,
    pub(crate) behind: &'a str,
    /// The pointer to that place, which precedes those of the table.
    pub(crate) pointer: &'a str,
}

/// The network of the traffic: the devices `c1`, which reports, and `m1`.
const NETWORK: &str = r#"{"devices":[
{"name":"c1","config":{"ietf-ipfix-psamp:ipfix":{"collectingProcess":[{"name":"cp"}]}}},
{"name":"m1","config":{"ietf-ipfix-psamp:ipfix":{}}}],
"links":[],"report":{"device":"c1","collectingProcess":"cp","key":[]}}"#;

/// Parses a text as a document.
fn value_of(rt: &impl Abort, alloc: Global, text: &str) -> Value {
    Value::from_str(alloc, text).expect(rt, "a document")
}

/// Reads the traffic that a text declares in that network.
pub(crate) fn traffic_of(rt: &impl Abort, alloc: Global, text: &str) -> Result<Traffic, Fault> {
    read_traffic(
        alloc,
        &value_of(rt, alloc, text),
        &plan_of(rt, alloc, NETWORK),
    )
}

/// Returns whether a call succeeded, without its value.
fn done<T: Drop>(answer: Result<T, Fault>) -> Result<(), Fault> {
    match answer {
        Ok(_) => Ok(()),
        Err(fault) => Err(fault),
    }
}

/// Reads a document, and returns whether it was accepted.
fn read(rt: &impl Abort, alloc: Global, kind: Kind, text: &str) -> Result<(), Fault> {
    match kind {
        Kind::Device => done(read_device(alloc, &value_of(rt, alloc, text))),
        Kind::Network => done(read_network(alloc, &value_of(rt, alloc, text))),
        Kind::Traffic => done(traffic_of(rt, alloc, text)),
    }
}

/// Returns a fault's number, and its place after a space.
pub(crate) fn fault_reported(rt: &impl Abort, alloc: Global, fault: Fault) -> String {
    let Fault { number, place } = fault;
    format!(in alloc; "{number} {place}").expect(rt, "memory")
}

/// Returns the text of an answer: `ok`, or the fault's number and place.
fn reported(rt: &impl Abort, alloc: Global, answer: Result<(), Fault>) -> String {
    match answer {
        Ok(()) => String::from_str(alloc, "ok").expect(rt, "memory"),
        Err(fault) => fault_reported(rt, alloc, fault),
    }
}

/// Returns whether this is the text of an answer.
pub(crate) fn is_reported(
    rt: &impl Abort,
    alloc: Global,
    answer: Result<(), Fault>,
    wanted: &str,
) -> bool {
    reported(rt, alloc, answer).as_str() == wanted
}

/// Returns whether this is the text of an answer, if pointers begin after the frame's.
fn is_reported_in(found: &str, pointer: &str, wanted: &str) -> bool {
    match found.split_once(pointer) {
        Some((number, index)) => wanted.strip_prefix(number) == Some(index),
        None => found == wanted,
    }
}

/// Returns whether reading the text in its frame has the wanted result.
fn comes_to(rt: &impl Abort, alloc: Global, frame: &Frame<'_>, text: &str, wanted: &str) -> bool {
    let document = [frame.before, text, frame.behind]
        .concat(alloc)
        .expect(rt, "memory");
    let found = reported(rt, alloc, read(rt, alloc, frame.kind, document.as_str()));
    is_reported_in(found.as_str(), frame.pointer, wanted)
}

/// Reads each text, and asserts that it has the result beside it.
pub(crate) fn look_at_rows(
    rt: &impl Abort,
    alloc: Global,
    frame: &Frame<'_>,
    rows: &[(&str, &str)],
) {
    for (text, wanted) in rows {
        assert!(rt; comes_to(rt, alloc, frame, *text, *wanted), "{text}");
    }
}

/// Returns whether reading a list with this many copies of an item has the wanted result.
fn list_comes_to(
    rt: &impl Abort,
    alloc: Global,
    frame: &Frame<'_>,
    item: &str,
    count: usize,
    wanted: &str,
) -> bool {
    let list = item.repeat(alloc, count).expect(rt, "memory");
    comes_to(
        rt,
        alloc,
        frame,
        list.as_str().trim_end_matches(','),
        wanted,
    )
}

const DEVICES: &Frame<'static> = &Frame {
    kind: Kind::Network,
    before: r#"{"devices":["#,
    behind: "]}",
    pointer: "",
};

const LINKS: &Frame<'static> = &Frame {
    kind: Kind::Network,
    before: r#"{"devices":[],"links":["#,
    behind: "]}",
    pointer: "",
};

const CLASSES: &Frame<'static> = &Frame {
    kind: Kind::Traffic,
    before: r#"{"classes":["#,
    behind: "]}",
    pointer: "",
};

const PATHS: &Frame<'static> = &Frame {
    kind: Kind::Traffic,
    before: r#"{"classes":[{"name":"a","paths":["#,
    behind: "]}]}",
    pointer: "",
};

const CROSSINGS: &Frame<'static> = &Frame {
    kind: Kind::Traffic,
    before: r#"{"classes":[{"name":"a","paths":[["#,
    behind: "]]}]}",
    pointer: "",
};

/// Items of lists, the number of copies, and the results.
const LISTS: &[(&Frame<'static>, &str, usize, &str)] = &[
    (DEVICES, "{},", 65, "115 /devices"),
    (LINKS, "{},", 1025, "115 /links"),
    (CLASSES, "7,", 257, "305 /classes"),
    (CLASSES, "7,", 256, "104 /classes/0"),
    (PATHS, "7,", 17, "305 /classes/0/paths"),
    (PATHS, "7,", 16, "104 /classes/0/paths/0"),
    (CROSSINGS, "7,", 33, "305 /classes/0/paths/0"),
    (CROSSINGS, "7,", 32, "104 /classes/0/paths/0/0"),
];

#[test]
fn refuses_long_lists(rt: HostRuntime) {
    for (frame, item, count, wanted) in LISTS {
        assert!(rt; list_comes_to(&rt, rt.alloc(), *frame, *item, *count, *wanted));
    }
}
