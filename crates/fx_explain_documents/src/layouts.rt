//! The number of different keys in a network.
use fx_explanation::{Explanation, unless_refused};
use fx_layout::Layout;
use fx_topology::{NetworkDevice, NetworkDocument, read_network};
use serde_json::Value;
use std::alloc::AllocError;

/// Returns whether a key is one of these.
fn is_among(known: &[Layout], key: &Layout) -> bool {
    for other in known {
        if other.same(key) {
            return true;
        }
    }
    false
}

/// Adds a key, unless it is one of these.
fn add(known: &mut Vec<Layout>, key: &Layout) -> Result<(), AllocError> {
    if !is_among(known.as_slice(), key) {
        known.push(key.copy())?;
    }
    Ok(())
}

/// Adds the keys of the caches and the aggregations of a device.
fn add_device(known: &mut Vec<Layout>, device: &NetworkDevice) -> Result<(), AllocError> {
    for cache in device.config.caches.as_slice() {
        add(known, &cache.layout)?;
    }
    for process in device.config.collecting_processes.as_slice() {
        for aggregation in process.aggregations.as_slice() {
            add(known, &aggregation.key)?;
        }
    }
    Ok(())
}

/// Adds the keys of the caches, the aggregations and the report of a network.
fn add_network(known: &mut Vec<Layout>, network: &NetworkDocument) -> Result<(), AllocError> {
    for device in network.devices.as_slice() {
        add_device(known, device)?;
    }
    match network.report.layout() {
        Some(key) => add(known, &key),
        None => Ok(()),
    }
}

/// Writes the number of different keys in a network.
fn write_keys(out: &mut Explanation, network: &NetworkDocument) {
    let mut known = Vec::new(out.alloc);
    let _added = out.unless_short(add_network(&mut known, network));
    out.text_number(
        "different keys of caches, of aggregations and of the report: ",
        known.len() as u64,
    );
    out.sentence("; at most 64 are allowed");
}

/// Writes the number of different keys of the caches, the aggregations and the report of a network, and the maximum.
pub(crate) fn write_layouts(out: &mut Explanation, network: &Value) {
    let read = read_network(out.alloc, network);
    if let Some(network) = unless_refused(out, read) {
        write_keys(out, &network);
    }
}
