//! Network documents that are read and refused, and the network that one describes.
use crate::audit_texts;
use crate::documents::{Frame, Kind, look_at_rows};
use crate::plan::plan_of;
use fx_elements::{Axis, Element};
use fx_tables::Net;
use fx_topology::{NetworkDocument, read_network};
use serde_json::Value;
use std::alloc::Global;
use std::process::Abort;

/// Returns the network that a document describes.
fn network_of(rt: &impl Abort, alloc: Global, text: &str) -> NetworkDocument {
    let value = Value::from_str(alloc, text).expect(rt, "a document");
    read_network(alloc, &value).expect(rt, "a network")
}

/// Returns whether the two devices of the network are the meter and the collector.
fn has_devices(network: &NetworkDocument) -> bool {
    let [meter, collector] = network.devices.as_slice() else {
        return false;
    };
    meter.name.as_str() == "m1"
        && meter.config.caches.as_slice().len() == 1
        && collector.name.as_str() == "c1"
        && collector.config.collecting_processes.as_slice().len() == 1
}

/// Returns whether its one link leads from the meter to the collector.
fn has_link(network: &NetworkDocument) -> bool {
    let [link] = network.links.as_slice() else {
        return false;
    };
    link.device.as_str() == "m1"
        && link.exporting_process.as_str() == "ex"
        && link.destination.as_str() == "d"
        && link.to_device.as_str() == "c1"
        && link.to_process.as_str() == "cp"
}

/// Returns whether the key of the report at the collector is the source.
fn has_report(network: &NetworkDocument) -> bool {
    let [field] = network.report.key.as_slice() else {
        return false;
    };
    network.report.device.as_str() == "c1"
        && network.report.collecting_process.as_str() == "cp"
        && field.element == Element::OnAxis(Axis::Source)
        && field.prefix_length.is_none()
}

#[test]
fn reads_a_network(rt: HostRuntime) {
    let network = network_of(&rt, rt.alloc(), audit_texts::NETWORK);
    assert!(rt; has_devices(&network) & has_link(&network) & has_report(&network));
}

/// Returns the numbers of devices, exporting processes, caches, collecting processes and links of a network.
fn sizes(net: &Net) -> [usize; 5] {
    [
        net.devices().len(),
        net.exporters().len(),
        net.holders().len(),
        net.processes().len(),
        net.links().len(),
    ]
}

#[test]
fn means_a_network(rt: HostRuntime) {
    let plan = plan_of(&rt, rt.alloc(), audit_texts::NETWORK);
    assert!(rt; sizes(plan.net()) == [2, 1, 1, 1, 1]);
}

/// Whole documents.
const NETWORKS: &[(&str, &str)] = &[
    ("{}", "103 "),
    ("[]", "104 "),
    (r#"{"a/b":1}"#, "102 /a~1b"),
    (r#"{"devices":[]}"#, "103 "),
    (r#"{"devices":{},"links":[]}"#, "104 /devices"),
    (
        r#"{"devices":[{"name":"a","config":{}}]}"#,
        "103 /devices/0/config",
    ),
    (r#"{"devices":[],"links":[{}]}"#, "103 /links/0"),
    (r#"{"devices":[],"links":[]}"#, "103 "),
    (
        r#"{"devices":[
        {"name":"a","config":{"ietf-ipfix-psamp:ipfix":{}}},
        {"name":"a","config":{"ietf-ipfix-psamp:ipfix":{}}}]}"#,
        "106 /devices/1/name",
    ),
];

const DEVICES: &str = r#"{"devices":[{"name":"m1","config":{"ietf-ipfix-psamp:ipfix":{
"observationPoint":[{"name":"op","observationDomainId":0,"ifName":["eth0"],"selectionProcess":["sp"]}],
"selectionProcess":[{"name":"sp","selector":[{"name":"a","selectAll":[null]}],"cache":"ca"}],
"cache":[{"name":"ca","timeoutCache":{"cacheLayout":{"cacheField":[
{"name":"s","ieName":"sourceIPv4Address","isFlowKey":[null]},
{"name":"o","ieId":1},{"name":"p","ieId":2}]}},"exportingProcess":["ex"]}],
"exportingProcess":[{"name":"ex","destination":[{"name":"d","tcpExporter":{}}]}]}}},
{"name":"c1","config":{"ietf-ipfix-psamp:ipfix":{"collectingProcess":[{"name":"cp"}]}}}]"#;

/// Links whose ends don't exist.
const LINKS: &[(&str, &str)] = &[
    (
        r#"{"device":"x","exportingProcess":"ex","destination":"d","toDevice":"c1","toProcess":"cp"}"#,
        "201 /links/0",
    ),
    (
        r#"{"device":"m1","exportingProcess":"x","destination":"d","toDevice":"c1","toProcess":"cp"}"#,
        "201 /links/0",
    ),
    (
        r#"{"device":"m1","exportingProcess":"ex","destination":"x","toDevice":"c1","toProcess":"cp"}"#,
        "201 /links/0",
    ),
    (
        r#"{"device":"m1","exportingProcess":"ex","destination":"d","toDevice":"x","toProcess":"cp"}"#,
        "201 /links/0",
    ),
    (
        r#"{"device":"m1","exportingProcess":"ex","destination":"d","toDevice":"m1","toProcess":"cp"}"#,
        "201 /links/0",
    ),
];

const REPORTS: &[(&str, &str)] = &[
    (
        r#"{"device":"m1","collectingProcess":"cp","key":[]}"#,
        "205 /report",
    ),
    (
        r#"{"device":"x","collectingProcess":"cp","key":[{"ieName":4}]}"#,
        "104 /report/key/0/ieName",
    ),
    (
        r#"{"device":"c1","collectingProcess":"cp","key":[{"ieName":"octetDeltaCount"}]}"#,
        "206 /report",
    ),
    (
        r#"{"device":"c1","collectingProcess":"cp","key":[{"ieName":"sourceIPv4Address"},{"ieName":"sourceIPv4Address"}]}"#,
        "206 /report",
    ),
    (
        r#"{"device":"c1","collectingProcess":" cp","key":[]}"#,
        "105 /report/collectingProcess",
    ),
    (r#"{"device":"c1","collectingProcess":"cp"}"#, "103 /report"),
    (
        r#"{"device":"c1","collectingProcess":"cp","key":[{"ieId":44}]}"#,
        "103 /report/key/0",
    ),
    (
        r#"{"device":"c1","collectingProcess":"cp","key":[{"ieId":8,"prefixLength":16}]}"#,
        "206 /report",
    ),
    (
        r#"{"device":"c1","collectingProcess":"cp","key":[{"ieId":44,"prefixLength":16}]}"#,
        "ok",
    ),
    (r#"{"device":"c1","collectingProcess":"cp","key":[]}"#, "ok"),
];

/// Reads networks with these texts before and after each text of the rows, and asserts the results beside them.
fn look_at(rt: &impl Abort, alloc: Global, before: &str, behind: &str, rows: &[(&str, &str)]) {
    let frame = Frame {
        kind: Kind::Network,
        before,
        behind,
        pointer: "",
    };
    look_at_rows(rt, alloc, &frame, rows);
}

#[test]
fn refuses_networks(rt: HostRuntime) {
    look_at(&rt, rt.alloc(), "", "", NETWORKS);
}

#[test]
fn refuses_links(rt: HostRuntime) {
    let before = [DEVICES, r#","links":["#]
        .concat(rt.alloc())
        .expect(&rt, "memory");
    let behind =
        r#"],"report":{"device":"c1","collectingProcess":"cp","key":[{"ieName":"sourceIPv4Address"}]}}"#;
    look_at(&rt, rt.alloc(), before.as_str(), behind, LINKS);
}

#[test]
fn refuses_reports(rt: HostRuntime) {
    let before = [DEVICES, r#","links":[],"report":"#]
        .concat(rt.alloc())
        .expect(&rt, "memory");
    look_at(&rt, rt.alloc(), before.as_str(), "}", REPORTS);
}
