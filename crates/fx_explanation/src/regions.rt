//! Regions as text.
use crate::explanation::Explanation;
use fx_boxes::Region;
use fx_elements::{Axis, EVERY_AXIS, top};

/// Returns the name of an axis as in certificates.
pub fn axis_word(axis: Axis) -> &'static str {
    match axis {
        Axis::Source => "source",
        Axis::Destination => "destination",
        Axis::Protocol => "protocol",
        Axis::SourcePort => "sport",
        Axis::DestinationPort => "dport",
        Axis::ClassOfService => "tos",
        Axis::Version => "version",
        Axis::Source6 => "source6",
        Axis::Destination6 => "destination6",
    }
}

/// Writes a range of values on an axis.
pub fn write_values(out: &mut Explanation, axis: Axis, low: u128, high: u128) {
    out.value(axis, low);
    if low == high {
        return;
    }
    out.text(" to ");
    out.value(axis, high);
}

/// Writes a region: its range on each axis that it restricts.
pub fn write_region(out: &mut Explanation, region: &Region) {
    let least = region.corner();
    let greatest = region.far_corner();
    let mut separator = "";
    for axis in EVERY_AXIS {
        let low = least.get(axis);
        let high = greatest.get(axis);
        if low != 0 || high != top(axis) {
            out.text(separator);
            out.text(axis_word(axis));
            out.text(" ");
            write_values(out, axis, low, high);
            separator = ", ";
        }
    }
    if separator.is_empty() {
        out.text("all packets");
    }
}
