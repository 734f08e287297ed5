//! Lists that have too many entries.
use crate::pointers::{Location, configuration, items_member, location_of};
use fx_explanation::Explanation;
use serde_json::Value;

/// The maximum number of devices of a network.
const DEVICES: u64 = 64;

/// The maximum number of collecting processes of a network's devices.
const PROCESSES: u64 = 256;

/// Returns the maximum number of entries of a list in a network document or a traffic declaration.
fn most_entries(location: &Location<'_>, is_network: bool) -> u64 {
    match (location.member, location.depth) {
        ("paths", 0) => 16,
        ("paths", _) => 32,
        ("devices", _) if is_network => DEVICES,
        ("links", _) => 1024,
        ("selector", _) => 16,
        ("cacheField" | "key", _) => 32,
        _ => 256,
    }
}

/// Returns the kind of a list's entries in a network document or a traffic declaration.
fn entries_words(location: &Location<'_>) -> &'static str {
    match (location.member, location.depth) {
        ("paths", 1) => "crossings of the path: ",
        _ => "entries of the list: ",
    }
}

/// Returns the number of collecting processes of a network's devices.
fn count_processes(devices: &[Value]) -> u64 {
    let mut count: u64 = 0;
    for device in devices {
        if let Some(container) = configuration(device) {
            let processes = items_member(container, "collectingProcess");
            count = count.saturating_add(processes.len() as u64);
        }
    }
    count
}

/// Writes a count and its maximum.
fn write_count<'x>(out: &mut Explanation, words: &'x str, count: u64, most: u64) {
    out.text_number(words, count);
    out.text_number("; at most ", most);
    out.sentence(" are allowed");
}

/// Writes the number of entries of the list at a pointer, and its maximum.
pub(crate) fn write_entries(out: &mut Explanation, pointer: &str, list: &Value, is_network: bool) {
    let Some(items) = list.as_array() else {
        return;
    };
    let location = location_of(pointer);
    let most = most_entries(&location, is_network);
    let count = items.len() as u64;
    if location.member == "devices" && count <= most {
        let count = count_processes(items.as_slice());
        write_count(
            out,
            "collecting processes of all devices: ",
            count,
            PROCESSES,
        );
        return;
    }
    write_count(out, entries_words(&location), count, most);
}
