//! Regions of selection processes, and the pairs to which packets are passed.
use fx_boxes::Region;
use fx_config::{Device, read_device};
use fx_elements::Axis;
use fx_selectors::{feeds, region_of};
use serde_json::Value;
use std::alloc::Global;
use std::process::Abort;

/// Returns the device with this container `ipfix`.
fn device_of(rt: &impl Abort, alloc: Global, lists: &str) -> Device {
    let text = [r#"{"ietf-ipfix-psamp:ipfix":"#, lists, "}"]
        .concat(alloc)
        .expect(rt, "memory");
    let value = Value::from_str(alloc, text.as_str()).expect(rt, "a document");
    read_device(alloc, &value).expect(rt, "a device")
}

/// Returns whether a device has one selection process, with this region.
fn selects(device: &Device, wanted: Option<Region>) -> bool {
    match device.selection_processes.as_slice() {
        [process] => region_of(process) == wanted,
        _ => false,
    }
}

/// Returns whether this is the region of a selection process with these selectors.
fn is_region(rt: &impl Abort, alloc: Global, selectors: &str, wanted: Option<Region>) -> bool {
    let before = r#"{"selectionProcess":[{"name":"s","selector":["#;
    let lists = [before, selectors, "]}]}"]
        .concat(alloc)
        .expect(rt, "memory");
    selects(&device_of(rt, alloc, lists.as_str()), wanted)
}

/// The sources below 128.0.0.0, and the remaining ones.
const LOWER: &str =
    r#"{"name":"a","filterMatch":{"ieName":"sourceIPv4Prefix","value":"0.0.0.0/1"}}"#;

const UPPER: &str =
    r#"{"name":"a","filterMatch":{"ieName":"sourceIPv4Prefix","value":"128.0.0.0/1"}}"#;

/// Two protocols at once, which no packet has.
const NONE: &str =
    r#"{"name":"a","filterMatch":{"ieId":4,"value":"6"}},{"name":"b","filterMatch":{"ieId":4,"value":"17"}}"#;

const ALL: &str = r#"{"name":"a","selectAll":[null]}"#;

#[test]
fn regions_of_filters(rt: HostRuntime) {
    let halves = Region::whole().split(Axis::Source, 0x8000_0000);
    let (below, above) = halves.expect(&rt, "two halves");
    assert!(rt;
        is_region(&rt, rt.alloc(), LOWER, Some(below))
            & is_region(&rt, rt.alloc(), UPPER, Some(above))
            & is_region(&rt, rt.alloc(), NONE, None)
            & is_region(&rt, rt.alloc(), ALL, Some(Region::whole()))
    );
}

/// Returns the pairs to which packets into `eth0` are passed, in order.
fn pairs(rt: &impl Abort, alloc: Global, lists: &str) -> String {
    let device = device_of(rt, alloc, lists);
    let mut text = String::new(alloc);
    for (point, process) in feeds(&device, "eth0", true) {
        write!(text, "{point}.{process} ").expect(rt, "memory");
    }
    text
}

/// Observation points, selection processes and a cache.
const LISTS: &str = r#"{"observationPoint":[
            {"name":"a","observationDomainId":0,"ifName":["eth0"],"direction":"egress","selectionProcess":["fed"]},
            {"name":"b","observationDomainId":0,"ifName":["eth1","eth0"],"selectionProcess":["fed","dry","none"]},
            {"name":"c","observationDomainId":0,"ifName":["eth0"],"direction":"ingress","selectionProcess":["dry","fed"]}],
        "selectionProcess":[{"name":"fed","selector":[{"name":"a","selectAll":[null]}],"cache":"ca"},
            {"name":"dry","selector":[{"name":"a","selectAll":[null]}]},
            {"name":"none","selector":[{"name":"a","filterMatch":{"ieId":4,"value":"6"}},{"name":"b","filterMatch":{"ieId":4,"value":"17"}}],"cache":"ca"}],
        "cache":[{"name":"ca","timeoutCache":{"cacheLayout":{"cacheField":[{"name":"o","ieId":1},{"name":"p","ieId":2}]}}}]}"#;

#[test]
fn pairs_in_order(rt: HostRuntime) {
    assert!(rt; pairs(&rt, rt.alloc(), LISTS).as_str() == "2.1 2.3 3.2 ");
}
