//! The contents of labels: keys, filters and lists of names.
use crate::dot::Dot;
use fx_base::Name;
use fx_config::{CacheKind, Direction, ExportMode, Method, PropertyMatch};
use fx_elements::width;
use fx_layout::Part;

/// Returns the directions in which an observation point observes packets, as in documents.
pub(crate) fn direction_name(direction: Direction) -> &'static str {
    match direction {
        Direction::Ingress => "ingress",
        Direction::Egress => "egress",
        Direction::Both => "both directions",
    }
}

/// Returns a description of a cache's kind.
pub(crate) fn kind_name(kind: CacheKind) -> &'static str {
    match kind {
        CacheKind::Immediate => "immediate cache",
        CacheKind::Timeout => "timeout cache",
        CacheKind::Natural => "natural cache",
        CacheKind::Permanent => "permanent cache",
    }
}

/// Returns the mode of an exporting process, as in documents.
pub(crate) fn mode_name(mode: ExportMode) -> &'static str {
    match mode {
        ExportMode::Parallel => "parallel",
        ExportMode::LoadBalancing => "load balancing",
        ExportMode::Fallback => "fallback",
    }
}

/// Adds a line with a list of names to a label.
pub(crate) fn add_names(dot: &mut Dot, names: &[Name]) {
    let mut separator = "";
    for name in names {
        dot.quoted(separator);
        dot.quoted(name.as_str());
        separator = ", ";
    }
}

/// Adds a line to a label for each part of a key: its element, and the number of leading bits if those aren't all.
pub(crate) fn add_key(dot: &mut Dot, parts: &[Part]) {
    if parts.is_empty() {
        dot.code("\\nall packets together");
        return;
    }
    for part in parts {
        dot.code("\\nby ");
        dot.code(part.axis.name());
        if part.bits < width(part.axis) {
            dot.code_number("/", u64::from(part.bits));
        }
    }
}

/// Adds a line to a label with what a filter selects: an element with one value, or with the addresses of a prefix.
pub(crate) fn add_match(dot: &mut Dot, filter: &PropertyMatch) {
    dot.code("\\n");
    dot.code(filter.axis.name());
    dot.code(" ");
    dot.value(filter.axis, filter.range.low);
    if filter.range.low == filter.range.high {
        return;
    }
    dot.code_number("/", u64::from(filter.range.bits))
}

/// Adds a line to a label with what a selector selects.
pub(crate) fn add_method(dot: &mut Dot, method: &Method) {
    match method {
        Method::SelectAll => dot.code("\\nall packets"),
        Method::FilterMatch(filter) => add_match(dot, filter),
    }
}
