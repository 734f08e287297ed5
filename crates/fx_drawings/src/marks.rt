//! Drawing the edges that a certificate or a refutation marks.
use crate::dot::Dot;
use crate::edges::cache_of;
use crate::nodes::{self, Node};
use fx_base::entry_numbered;
use fx_config::Device;
use fx_walk::place_of;

/// The mark of an edge.
#[derive(Clone, Copy, Drop)]
pub(crate) struct EdgeMark {
    /// The Graphviz name of its colour.
    pub(crate) colour: &'static str,
    /// The beginning of the edge's label.
    pub(crate) word: &'static str,
    /// The number after the word.
    pub(crate) number: u64,
}

/// Draws a marked edge, with the mark's word and number.
pub(crate) fn draw_mark(dot: &mut Dot, mark: EdgeMark, from: Node, to: Node) {
    dot.code_node("  ", from);
    dot.code_node(" -> ", to);
    dot.code(" [color=");
    dot.code(mark.colour);
    dot.code(", fontcolor=");
    dot.code(mark.colour);
    dot.code(", penwidth=3, label=\"");
    dot.code_number(mark.word, mark.number);
    dot.line("\"];")
}

/// Returns the 0-based index of the selection process that this one of an observation point is, by 1-based numbers.
fn selection_place(device: &Device, point: u64, process: u64) -> Option<usize> {
    let entry = entry_numbered(device.observation_points.as_slice(), point)?;
    let name = entry_numbered(entry.selection_processes.as_slice(), process)?;
    place_of(device.selection_processes.as_slice(), name)
}

/// Returns the 1-based number of the cache to which a selection process of an observation point passes packets.
pub(crate) fn metering_cache(device: &Device, point: u64, process: u64) -> Option<u64> {
    cache_of(device, selection_place(device, point, process)?)
}

/// Draws marked edges from packets through an observation point and a selection process to its cache.
pub(crate) fn draw_metering(
    dot: &mut Dot,
    mark: EdgeMark,
    packets: Node,
    number: u64,
    device: &Device,
    point: u64,
    process: u64,
) {
    let observation = nodes::point(number, point);
    draw_mark(dot, mark, packets, observation);
    let Some(index) = selection_place(device, point, process) else {
        return;
    };
    let selection = nodes::selection(number, (index as u64).saturating_add(1));
    draw_mark(dot, mark, observation, selection);
    match cache_of(device, index) {
        Some(cache) => draw_mark(dot, mark, selection, nodes::cache(number, cache)),
        None => {}
    }
}
