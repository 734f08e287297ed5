//! Members of a network document that aren't read.
use crate::elements::write_misspelled_fields;
use crate::pointers::{configuration, items_member, text_or_none};
use fx_explanation::Explanation;
use serde_json::Value;

/// The transports of destinations and of collecting processes.
const TRANSPORTS: [&str; 6] = [
    "tcpExporter",
    "sctpExporter",
    "udpExporter",
    "tcpCollector",
    "sctpCollector",
    "udpCollector",
];

/// The members of which a cache has one, which contains its layout.
const KINDS: [&str; 4] = [
    "immediateCache",
    "timeoutCache",
    "naturalCache",
    "permanentCache",
];

/// Returns whether a member is an object that isn't empty.
fn has_content(entry: &Value, member: &str) -> bool {
    match entry.get(member) {
        Some(Value::Object(members)) => !members.is_empty(),
        _ => false,
    }
}

/// Writes that a member of an entry of a device isn't read.
fn write_unread<'x>(
    out: &mut Explanation,
    device: &'x str,
    kind: &'x str,
    name: &'x str,
    member: &'x str,
) {
    out.text_quoted(kind, name);
    out.text(" of ");
    out.text(device);
    out.text(": what stands in ");
    out.text(member);
    out.sentence(" isn't read");
}

/// Writes the transports of an entry of a device that aren't empty.
fn write_transports<'x>(out: &mut Explanation, device: &'x str, kind: &'x str, entry: &'x Value) {
    for member in TRANSPORTS {
        if has_content(entry, member) {
            write_unread(out, device, kind, text_or_none(entry, "name"), member);
        }
    }
}

/// Writes what isn't read of a device's exporting processes.
fn write_exporting(out: &mut Explanation, device: &str, container: &Value) {
    for process in items_member(container, "exportingProcess") {
        if process.get("options").is_some() {
            write_unread(
                out,
                device,
                "exporting process ",
                text_or_none(process, "name"),
                "options",
            );
        }
        for destination in items_member(process, "destination") {
            write_transports(out, device, "destination ", destination);
        }
    }
}

/// Writes what isn't read of a device's collecting processes.
fn write_collecting(out: &mut Explanation, device: &str, container: &Value) {
    for process in items_member(container, "collectingProcess") {
        write_transports(out, device, "collecting process ", process);
    }
}

/// Writes the members of a device's configuration that belong to other modules.
fn write_modules<'x>(out: &mut Explanation, device: &'x str, config: &'x Value) {
    let Some(members) = config.as_object() else {
        return;
    };
    for (name, _) in members.iter() {
        if name.as_str() != "ietf-ipfix-psamp:ipfix" {
            out.text("device ");
            out.text(device);
            out.text(": member ");
            out.text(name.as_str());
            out.sentence(" of its configuration isn't read");
        }
    }
}

/// Writes what isn't read of a device.
fn write_device(out: &mut Explanation, device: &Value) {
    let name = text_or_none(device, "name");
    if let Some(config) = device.get("config") {
        write_modules(out, name, config);
    }
    if let Some(container) = configuration(device) {
        write_exporting(out, name, container);
        write_collecting(out, name, container);
    }
}

/// Writes the members of a network document that aren't read, except for those that specify when records expire.
pub(crate) fn write_unread_members(out: &mut Explanation, network: &Value) {
    for device in items_member(network, "devices") {
        write_device(out, device);
    }
}

/// Returns the layout of a cache.
fn layout_of(cache: &Value) -> Option<&Value> {
    for kind in KINDS {
        if let Some(members) = cache.get(kind) {
            return members.get("cacheLayout");
        }
    }
    None
}

/// Writes the fields of a device's caches whose elements are misspelled.
fn write_fields(out: &mut Explanation, device: &Value) {
    let Some(container) = configuration(device) else {
        return;
    };
    for cache in items_member(container, "cache") {
        if let Some(layout) = layout_of(cache) {
            write_misspelled_fields(
                out,
                text_or_none(device, "name"),
                text_or_none(cache, "name"),
                items_member(layout, "cacheField"),
            );
        }
    }
}

/// Writes the fields of caches in a network document whose elements are misspelled and therefore aren't read.
pub(crate) fn write_unread_fields(out: &mut Explanation, network: &Value) {
    for device in items_member(network, "devices") {
        write_fields(out, device);
    }
}
