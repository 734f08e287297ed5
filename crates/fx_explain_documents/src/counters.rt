//! Counters that are missing in a cache's layout, and flow keys that a cache can't have.
use crate::elements::{element_of, write_element};
use crate::pointers::{items_member, text_member, text_or_none};
use crate::similar_names::similar_name;
use fx_elements::{Element, by_name};
use fx_explanation::Explanation;
use serde_json::Value;

/// The counters that the fields of a cache must include.
const COUNTERS: [&str; 2] = ["octetDeltaCount", "packetDeltaCount"];

/// Returns whether one of these fields names this element.
fn is_among(fields: &[Value], element: Element) -> bool {
    for field in fields {
        if element_of(field) == element {
            return true;
        }
    }
    false
}

/// Writes the fields of a layout whose element is misspelled and most similar to this counter.
fn write_misspelled(out: &mut Explanation, fields: &[Value], counter: &'static str) {
    for field in fields {
        if let Some(name) = text_member(field, "ieName") {
            let is_near = similar_name(out, name, &COUNTERS) == Some(counter);
            if is_near && by_name(name) == Element::Other {
                out.text_quoted("field ", text_or_none(field, "name"));
                out.text_quoted(" names no element that is read: ", name);
                out.end_line();
            }
        }
    }
}

/// Writes which counters the layout of a cache lacks.
pub(crate) fn write_counters(out: &mut Explanation, layout: &Value) {
    let fields = items_member(layout, "cacheField");
    for counter in COUNTERS {
        if !is_among(fields, by_name(counter)) {
            out.text("missing among the fields: ");
            out.sentence(counter);
            write_misspelled(out, fields, counter);
        }
    }
}

/// Writes why a field of a cache can't be a flow key.
pub(crate) fn write_flow_key(out: &mut Explanation, field: &Value) {
    if let Element::Prefix(axis) = element_of(field) {
        out.text("its element is a prefix, and the flow keys of caches are whole: write ");
        out.text(axis.name());
        out.sentence(
            ", and the prefix with its prefixLength in the key of an aggregation or of the report",
        );
        return;
    }
    let _of_axis = write_element(out, field, false);
}
