//! What a leaf of a certificate names.
use fx_base::entry_numbered;
use fx_config::{Device, ObservationPoint};
use fx_explanation::{Explanation, selection_process, write_numbered};
use fx_leaf::Counted;
use fx_plan::Plan;
use fx_tables::Crossing;

/// Writes the selection process of a leaf, and its cache.
fn write_process(out: &mut Explanation, device: &Device, point: &ObservationPoint, number: u64) {
    let Some(process) = selection_process(device, point, number) else {
        out.text_number("; there is no selection process ", number);
        out.end_line();
        return;
    };
    out.text_quoted(", selection process ", process.name.as_str());
    match &process.cache {
        Some(cache) => {
            out.text_quoted(", cache ", cache.as_str());
            out.end_line();
        },
        None => out.sentence(", which has no cache"),
    }
}

/// Writes the observation point of a leaf, and what follows it.
fn write_point(out: &mut Explanation, device: &Device, leaf: &Counted) {
    let points = device.observation_points.as_slice();
    let Some(point) = entry_numbered(points, leaf.point) else {
        out.text_number("; there is no observation point ", leaf.point);
        out.end_line();
        return;
    };
    out.text_quoted(", observation point ", point.name.as_str());
    write_process(out, device, point, leaf.process);
}

/// Writes the crossing, the observation point, the selection process and the cache that a leaf names.
pub(crate) fn write_leaf(
    out: &mut Explanation,
    plan: &Plan,
    crossings: &[Crossing],
    leaf: &Counted,
) {
    out.text("the leaf names ");
    let Some(crossing) = entry_numbered(crossings, leaf.crossing) else {
        out.text_number("a crossing that isn't there: ", leaf.crossing);
        out.end_line();
        return;
    };
    write_numbered(out, plan, leaf.crossing, crossing);
    match plan.device(crossing.device) {
        Some(device) => write_point(out, device, leaf),
        None => out.end_line(),
    }
}
