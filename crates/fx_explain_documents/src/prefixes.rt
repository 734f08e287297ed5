//! Prefixes whose addresses have bits after their length.
use crate::elements::element_of;
use crate::pointers::{configuration, items_member, text_member, text_or_none};
use fx_elements::{Axis, Element, Range, by_name, read_on, read_value};
use fx_explanation::Explanation;
use serde_json::Value;

/// Returns the addresses that the text of a prefix on an axis denotes, if its address has bits after its length.
fn addresses_meant(axis: Axis, text: &str) -> Option<Range> {
    let (address, _) = text.split_once('/')?;
    let address = read_on(axis, address.as_bytes())?;
    let range = read_value(Element::Prefix(axis), text)?;
    if address == range.low {
        return None;
    }
    Some(range)
}

/// Writes which addresses a prefix denotes.
fn write_meant(out: &mut Explanation, text: &str, axis: Axis, range: Range) {
    out.text(text);
    out.text(" has bits after its length; it means ");
    out.value(axis, range.low);
    out.text(" to ");
    out.value(axis, range.high);
    out.end_line();
}

/// The title of an entry of a device: its own kind and name, and those of the entry that contains it.
#[derive(Clone, Copy)]
struct Title<'a> {
    device: &'a str,
    /// For example ` of selection process `.
    above: &'static str,
    name: &'a str,
}

/// Writes which addresses the prefix in an object denotes, if its address has bits after its length.
fn write_match<'x>(
    out: &mut Explanation,
    title: Title<'x>,
    kind: &'static str,
    name: &'x str,
    object: &Value,
) {
    let Element::Prefix(axis) = element_of(object) else {
        return;
    };
    let text = text_or_none(object, "value");
    let Some(range) = addresses_meant(axis, text) else {
        return;
    };
    out.text_quoted(kind, name);
    out.text_quoted(title.above, title.name);
    out.text(" of ");
    out.text(title.device);
    out.text(": ");
    write_meant(out, text, axis, range);
}

/// Writes the prefixes of the filters of a selection process.
fn write_filters(out: &mut Explanation, device: &str, process: &Value) {
    let title = Title {
        device,
        above: " of selection process ",
        name: text_or_none(process, "name"),
    };
    for selector in items_member(process, "selector") {
        if let Some(filter) = selector.get("filterMatch") {
            write_match(
                out,
                title,
                "filter ",
                text_or_none(selector, "name"),
                filter,
            );
        }
    }
}

/// Writes the prefixes of the matches of an aggregation.
fn write_matches<'x>(out: &mut Explanation, title: Title<'x>, aggregation: &'x Value) {
    let name = text_or_none(aggregation, "name");
    for object in items_member(aggregation, "match") {
        write_match(out, title, "match of aggregation ", name, object);
    }
}

/// Writes the prefixes of the aggregations of a collecting process.
fn write_aggregations(out: &mut Explanation, device: &str, process: &Value) {
    let title = Title {
        device,
        above: " of collecting process ",
        name: text_or_none(process, "name"),
    };
    for aggregation in items_member(process, "once-audit:aggregation") {
        write_matches(out, title, aggregation);
    }
}

/// Writes the prefixes of the filters of a device.
fn write_selecting(out: &mut Explanation, device: &str, container: &Value) {
    for process in items_member(container, "selectionProcess") {
        write_filters(out, device, process);
    }
}

/// Writes the prefixes of the aggregations of a device.
fn write_collecting(out: &mut Explanation, device: &str, container: &Value) {
    for process in items_member(container, "collectingProcess") {
        write_aggregations(out, device, process);
    }
}

/// Writes the prefixes of a network document whose addresses have bits after their length, and what they denote.
pub(crate) fn write_prefixes(out: &mut Explanation, network: &Value) {
    for device in items_member(network, "devices") {
        if let Some(container) = configuration(device) {
            write_selecting(out, text_or_none(device, "name"), container);
            write_collecting(out, text_or_none(device, "name"), container);
        }
    }
}

/// Writes which addresses a member of a region denotes, if its address has bits after its length.
fn write_member<'x>(out: &mut Explanation, class: &'x str, name: &'x str, region: &'x Value) {
    let Element::OnAxis(axis) = by_name(name) else {
        return;
    };
    let Some(text) = text_member(region, name) else {
        return;
    };
    let Some(range) = addresses_meant(axis, text) else {
        return;
    };
    out.text_quoted("traffic: class ", class);
    out.text(", ");
    out.text(name);
    out.text(": ");
    write_meant(out, text, axis, range);
}

/// Writes the prefixes of the region of a class.
fn write_region(out: &mut Explanation, class: &Value) {
    let Some(region) = class.get("region") else {
        return;
    };
    let Some(members) = region.as_object() else {
        return;
    };
    for (name, _) in members.iter() {
        write_member(out, text_or_none(class, "name"), name.as_str(), region);
    }
}

/// Writes the prefixes of a traffic declaration whose addresses have bits after their length, and what they denote.
pub(crate) fn write_prefixes_of_classes(out: &mut Explanation, traffic: &Value) {
    for class in items_member(traffic, "classes") {
        write_region(out, class);
    }
}
