//! Configurations of devices that are read.
use fx_base::Name;
use fx_config::{Device, read_device};
use fx_elements::Axis;
use fx_layout::Part;
use serde_json::Value;
use std::alloc::Global;
use std::process::Abort;

const METER: &str = r#"{"ietf-ipfix-psamp:ipfix":{
        "observationPoint":[{"name":"op","observationDomainId":0,"ifName":["eth0"],"selectionProcess":["sp"]}],
        "selectionProcess":[{"name":"sp","selector":[{"name":"a","selectAll":[null]}],"cache":"ca"}],
        "cache":[{"name":"ca","timeoutCache":{"cacheLayout":{"cacheField":[
            {"name":"s","ieName":"sourceIPv4Address","isFlowKey":[null]},
            {"name":"o","ieId":1},{"name":"p","ieId":2}]}},"exportingProcess":["ex"]}],
        "exportingProcess":[{"name":"ex","destination":[{"name":"d","tcpExporter":{}}]}]}}"#;

const COLLECTOR: &str = r#"{"ietf-ipfix-psamp:ipfix":{"collectingProcess":[{"name":"cp"}]}}"#;

/// Returns the device that a document describes.
fn device_of(rt: &impl Abort, alloc: Global, text: &str) -> Device {
    let value = Value::from_str(alloc, text).expect(rt, "a document");
    read_device(alloc, &value).expect(rt, "a device")
}

/// Returns whether the metering device observes at its interface, for its selection process.
fn observes(device: &Device) -> bool {
    let [point] = device.observation_points.as_slice() else {
        return false;
    };
    let ([interface], [selecting]) = (
        point.interfaces.as_slice(),
        point.selection_processes.as_slice(),
    ) else {
        return false;
    };
    point.name.as_str() == "op"
        && point.observation_domain_id == 0
        && interface.as_str() == "eth0"
        && fx_walk::place_of(device.selection_processes.as_slice(), selecting) == Some(0)
}

/// Returns whether it selects with one selector, into its cache.
fn selects(device: &Device) -> bool {
    let [process] = device.selection_processes.as_slice() else {
        return false;
    };
    let Some(cache) = &process.cache else {
        return false;
    };
    process.selectors.as_slice().len() == 1 && cache.as_str() == "ca"
}

/// Returns whether it counts by sources, sends to one destination and collects nothing.
fn counts_and_exports(device: &Device) -> bool {
    let ([cache], [exporting]) = (
        device.caches.as_slice(),
        device.exporting_processes.as_slice(),
    ) else {
        return false;
    };
    let key = Part {
        axis: Axis::Source,
        bits: 32,
    };
    cache.layout.parts() == [key].as_slice()
        && exporting.destinations.as_slice().len() == 1
        && device.collecting_processes.as_slice().is_empty()
}

#[test]
fn reads_a_metering_device(rt: HostRuntime) {
    let device = device_of(&rt, rt.alloc(), METER);
    assert!(rt; observes(&device) & selects(&device) & counts_and_exports(&device));
}

/// Returns whether a device collects with the process `cp`, and observes nothing.
fn collects(device: &Device) -> bool {
    let [process] = device.collecting_processes.as_slice() else {
        return false;
    };
    process.name.as_str() == "cp" && device.observation_points.as_slice().is_empty()
}

#[test]
fn reads_a_collector(rt: HostRuntime) {
    assert!(rt; collects(&device_of(&rt, rt.alloc(), COLLECTOR)));
}

/// Returns the name with this text.
fn name(rt: &impl Abort, alloc: Global, text: &str) -> Name {
    Name::read(alloc, text).expect(rt, "a name")
}

/// Adds a name to the kept names, and returns whether it is new.
fn adds(rt: &impl Abort, alloc: Global, names: &mut fx_walk::Names, text: &str) -> bool {
    names.add(&name(rt, alloc, text)).expect(rt, "memory")
}

/// Returns whether the kept names have this one at this index, or don't have it for `None`.
fn keeps(
    rt: &impl Abort,
    alloc: Global,
    names: &fx_walk::Names,
    text: &str,
    place: Option<usize>,
) -> bool {
    let name = name(rt, alloc, text);
    (names.place_of(&name) == place) & (names.contains(&name) == place.is_some())
}

#[test]
fn keeps_names(rt: HostRuntime) {
    let alloc = rt.alloc();
    let mut names = fx_walk::Names::new(alloc);
    assert!(rt;
        adds(&rt, alloc, &mut names, "a")
            & adds(&rt, alloc, &mut names, "b")
            & !adds(&rt, alloc, &mut names, "a")
            & keeps(&rt, alloc, &names, "a", Some(0))
            & keeps(&rt, alloc, &names, "b", Some(1))
            & keeps(&rt, alloc, &names, "c", None)
    );
}
