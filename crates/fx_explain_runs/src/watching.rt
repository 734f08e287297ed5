//! What observes a region's packets along a path.
use fx_base::{entry_at, entry_numbered};
use fx_boxes::Region;
use fx_config::{ObservationPoint, SelectionProcess};
use fx_explanation::{Explanation, entry_named, selection_process, write_numbered, write_sending};
use fx_leaf::{Overlap, selection_overlap};
use fx_plan::Plan;
use fx_tables::{Crossing, Point, Selection};
use fx_topology::NetworkDevice;

/// Returns a description of how much of a region a selection process selects.
fn overlap_words(region: &Region, selection: &Selection) -> &'static str {
    match selection_overlap(region, &selection.region) {
        Overlap::Whole => " selects all of these packets",
        Overlap::Part => " selects some of these packets and not all",
        Overlap::Nothing => " selects none of these packets",
    }
}

/// Writes where the records of a selection process's cache go.
fn write_cache(
    out: &mut Explanation,
    plan: &Plan,
    device: &NetworkDevice,
    process: &SelectionProcess,
) {
    let Some(name) = &process.cache else {
        out.sentence(" and has no cache");
        return;
    };
    out.text_quoted(", cache ", name.as_str());
    if let Some(cache) = entry_named(device.config.caches.as_slice(), name) {
        out.text(": ");
        write_sending(out, plan, device, cache.exporting_processes.as_slice(), &[]);
        if cache.exporting_processes.as_slice().is_empty() {
            out.text("it has no exporting process, so its records are lost");
        }
    }
    out.end_line();
}

/// A crossing of a path, and the region of packets that make it.
#[derive(Drop)]
struct Crossed<'a> {
    plan: &'a Plan,
    region: &'a Region,
    crossing: &'a Crossing,
    /// Its 1-based number on the path.
    number: u64,
}

/// Writes what a selection process does with the packets.
fn write_selection<'x>(
    out: &mut Explanation,
    crossed: &Crossed<'_>,
    device: &NetworkDevice,
    point: &'x ObservationPoint,
    process: &'x SelectionProcess,
    selection: &Selection,
) {
    write_numbered(out, crossed.plan, crossed.number, crossed.crossing);
    out.text_quoted(": observation point ", point.name.as_str());
    out.text_quoted(", selection process ", process.name.as_str());
    out.text(overlap_words(crossed.region, selection));
    write_cache(out, crossed.plan, device, process)
}

/// Writes what a point's selection processes do with the packets.
fn write_selections(
    out: &mut Explanation,
    crossed: &Crossed<'_>,
    device: &NetworkDevice,
    point: &ObservationPoint,
    selections: &[Selection],
) {
    for index in 0..selections.len() {
        if let Some(process) = selection_process(&device.config, point, index as u64 + 1) {
            write_selection(out, crossed, device, point, process, &selections[index]);
        }
    }
}

/// Writes what the points of a device do with the packets. Returns whether one observes and selects them.
fn write_points(
    out: &mut Explanation,
    crossed: &Crossed<'_>,
    device: &NetworkDevice,
    points: &[Point],
) -> bool {
    let mut seen = false;
    for index in 0..points.len() {
        let point = &points[index];
        if point.watches(crossed.crossing) {
            if let Some(named) = entry_at(device.config.observation_points.as_slice(), index) {
                write_selections(out, crossed, device, named, point.selections());
                seen = seen || !point.selections().is_empty();
            }
        }
    }
    seen
}

/// Writes what observes the packets at a crossing.
fn write_at(out: &mut Explanation, crossed: &Crossed<'_>) {
    let number = crossed.crossing.device;
    let Some(device) = entry_numbered(crossed.plan.network().devices.as_slice(), number) else {
        return;
    };
    let points = crossed.plan.net().points_of(number);
    if write_points(out, crossed, device, points) {
        return;
    }
    write_numbered(out, crossed.plan, crossed.number, crossed.crossing);
    out.sentence(": no observation point with a selection process sees it");
}

/// Writes, for each crossing of a path, what observes the packets of a region there and where their records go.
pub(crate) fn write_watching(
    out: &mut Explanation,
    plan: &Plan,
    region: &Region,
    crossings: &[Crossing],
) {
    for index in 0..crossings.len() {
        let crossed = Crossed {
            plan,
            region,
            crossing: &crossings[index],
            number: index as u64 + 1,
        };
        write_at(out, &crossed);
    }
}
