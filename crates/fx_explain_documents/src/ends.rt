//! Names that refer to nothing.
use crate::pointers::{
    configuration, entry_of, items_member, last_member, text_member, text_or_none, value_after,
};
use fx_explanation::{Explanation, between};
use fx_topology::NetworkDevice;
use serde_json::Value;

/// The number of segments of a pointer to the configuration of a device.
const CONFIGURATION: usize = 4;

/// Writes that nothing of a kind has this name, and the existing names.
fn write_unknown<'x>(out: &mut Explanation, kind: &'x str, name: &'x str, entries: &[Value]) {
    out.text("no ");
    out.text(kind);
    out.text_quoted(" is named ", name);
    out.text("; there are: ");
    let mut shown = false;
    for entry in entries {
        if let Some(known) = text_member(entry, "name") {
            out.text_quoted(between(shown, ", "), known);
            shown = true;
        }
    }
    if !shown {
        out.text("none");
    }
    out.end_line();
}

/// Returns the entry with this name in a list of an object. If there is none, writes that and returns `None`.
fn entry_or_report<'a, 'x>(
    out: &mut Explanation,
    value: &'a Value,
    list: &str,
    kind: &'x str,
    name: &'x str,
) -> Option<&'a Value> {
    let found = entry_of(value, list, name);
    if found.is_none() {
        write_unknown(out, kind, name, items_member(value, list));
    }
    found
}

/// Writes that a device doesn't exist, or has no collecting process with this name.
fn write_process(out: &mut Explanation, network: &Value, device: &str, process: &str) {
    let Some(device) = entry_or_report(out, network, "devices", "device", device) else {
        return;
    };
    if let Some(container) = configuration(device) {
        let list = "collectingProcess";
        let _found = entry_or_report(out, container, list, "collecting process", process);
    }
}

/// Returns whether two links lead from the same destination.
fn have_one_start(one: &Value, other: &Value) -> bool {
    for member in ["device", "exportingProcess", "destination"] {
        if text_member(one, member) != text_member(other, member) {
            return false;
        }
    }
    true
}

/// Writes the earlier link that leads from the same destination as the one at a pointer.
pub(crate) fn write_linked(out: &mut Explanation, network: &Value, link: &Value) {
    let links = items_member(network, "links");
    for index in 0..links.len() {
        let other = &links[index];
        if have_one_start(other, link) {
            out.text_number("/links/", index as u64);
            out.text_quoted(
                " leads from destination ",
                text_or_none(other, "destination"),
            );
            out.text_quoted(
                " of exporting process ",
                text_or_none(other, "exportingProcess"),
            );
            out.text(" of ");
            out.text(text_or_none(other, "device"));
            out.text_quoted(
                " too, to collecting process ",
                text_or_none(other, "toProcess"),
            );
            out.text(" of ");
            out.sentence(text_or_none(other, "toDevice"));
            return;
        }
    }
}

/// Writes that a device doesn't exist, that it has no exporting process with this name, or that the process has no such
/// destination.
fn write_start(
    out: &mut Explanation,
    network: &Value,
    device: &str,
    process: &str,
    destination: &str,
) {
    let Some(device) = entry_or_report(out, network, "devices", "device", device) else {
        return;
    };
    let Some(container) = configuration(device) else {
        return;
    };
    let list = "exportingProcess";
    if let Some(process) = entry_or_report(out, container, list, "exporting process", process) {
        let _found = entry_or_report(out, process, "destination", "destination", destination);
    }
}

/// Writes which ends of a link don't exist.
pub(crate) fn write_link_ends(out: &mut Explanation, network: &Value, link: &Value) {
    let device = text_or_none(link, "device");
    let process = text_or_none(link, "exportingProcess");
    let destination = text_or_none(link, "destination");
    write_start(out, network, device, process, destination);
    let device = text_or_none(link, "toDevice");
    write_process(out, network, device, text_or_none(link, "toProcess"));
}

/// Writes whether the device or the collecting process of a report doesn't exist.
pub(crate) fn write_report_end(out: &mut Explanation, network: &Value, report: &Value) {
    let device = text_or_none(report, "device");
    let process = text_or_none(report, "collectingProcess");
    write_process(out, network, device, process);
}

/// Returns the kind of the entries in a list of a device.
fn kind_of(list: &str) -> &'static str {
    match list {
        "selectionProcess" => "selection process",
        "cache" => "cache",
        "exportingProcess" => "exporting process",
        _ => "entry",
    }
}

/// Writes the name at a pointer into a network, which refers to nothing of its device, and the existing names.
pub(crate) fn write_unknown_name(
    out: &mut Explanation,
    network: &Value,
    pointer: &str,
    name: &str,
) {
    let list = last_member(pointer);
    if let Some(container) = value_after(network, pointer, CONFIGURATION) {
        write_unknown(out, kind_of(list), name, items_member(container, list));
    }
}

/// Writes that no device of a network has this name, and the existing names.
pub(crate) fn write_unknown_device(out: &mut Explanation, devices: &[NetworkDevice], name: &str) {
    out.text_quoted("no device is named ", name);
    out.text("; there are: ");
    for index in 0..devices.len() {
        out.text_quoted(between(index > 0, ", "), devices[index].name.as_str());
    }
    if devices.is_empty() {
        out.text("none");
    }
    out.end_line();
}

/// Writes a collecting process given by the numbers of its device and its own, such as `3.1`.
fn write_numbers<'x>(out: &mut Explanation, network: &'x Value, numbers: &'x str) {
    let Some((device, process)) = numbers.split_once('.') else {
        return;
    };
    let (Ok(first), Ok(second)) = (device.parse::<usize>(), process.parse::<usize>()) else {
        return;
    };
    let Some(device) = items_member(network, "devices").get(first.saturating_sub(1)) else {
        return;
    };
    let Some(container) = configuration(device) else {
        return;
    };
    let processes = items_member(container, "collectingProcess");
    let Some(process) = processes.get(second.saturating_sub(1)) else {
        return;
    };
    out.text(numbers);
    out.text_quoted(" is collecting process ", text_or_none(process, "name"));
    out.text(" of ");
    out.sentence(text_or_none(device, "name"));
}

/// Writes the collecting processes that are on a cycle of links, or downstream of one, by their numbers.
pub(crate) fn write_cycle(out: &mut Explanation, network: &Value, place: &str) {
    for numbers in place.split(' ') {
        write_numbers(out, network, numbers);
    }
}
