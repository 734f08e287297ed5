//! Drawing the ways of packets within a device, and of records within and between devices.
use crate::dot::Dot;
use crate::nodes::{self, Node};
use fx_base::{Name, entry_at};
use fx_config::{CollectingProcess, Destination, Device, ExportingProcess, ObservationPoint};
use fx_plan::Plan;
use fx_topology::{NamedLink, NetworkDevice};
use fx_walk::{Named, place_of};
use std::alloc::AllocError;

/// Returns the 1-based number of the entry with the given name.
pub(crate) fn number_of<T: Named>(entries: &[T], name: &Name) -> Option<u64> {
    let index = place_of(entries, name)?;
    Some((index as u64).saturating_add(1))
}

/// Draws an edge.
fn draw_edge(dot: &mut Dot, from: Node, to: Node) {
    dot.code_node("  ", from);
    dot.code_node(" -> ", to);
    dot.line(";")
}

/// Draws an edge to each of the exporting processes with these names.
fn draw_exports(dot: &mut Dot, number: u64, device: &Device, from: Node, names: &[Name]) {
    for name in names {
        if let Some(exporter) = number_of(device.exporting_processes.as_slice(), name) {
            draw_edge(dot, from, nodes::exporter(number, exporter));
        }
    }
}

/// Draws the edges from an observation point to its selection processes.
fn draw_from_point(
    dot: &mut Dot,
    number: u64,
    device: &Device,
    from: Node,
    point: &ObservationPoint,
) {
    for name in point.selection_processes.as_slice() {
        if let Some(process) = number_of(device.selection_processes.as_slice(), name) {
            draw_edge(dot, from, nodes::selection(number, process));
        }
    }
}

/// Draws the edges from the observation points of a device.
fn draw_from_points(dot: &mut Dot, number: u64, device: &Device) {
    let points = device.observation_points.as_slice();
    for index in 0..points.len() {
        let from = nodes::point(number, index as u64 + 1);
        draw_from_point(dot, number, device, from, &points[index]);
    }
}

/// Returns the 1-based number of the cache to which a selection process passes packets.
pub(crate) fn cache_of(device: &Device, selection: usize) -> Option<u64> {
    let process = device.selection_processes.as_slice().get(selection)?;
    match &process.cache {
        Some(name) => number_of(device.caches.as_slice(), name),
        None => None,
    }
}

/// Draws the edges from the selection processes of a device to their caches.
fn draw_from_selections(dot: &mut Dot, number: u64, device: &Device) {
    for index in 0..device.selection_processes.as_slice().len() {
        if let Some(cache) = cache_of(device, index) {
            let from = nodes::selection(number, index as u64 + 1);
            draw_edge(dot, from, nodes::cache(number, cache));
        }
    }
}

/// Draws the edges from the caches of a device.
fn draw_from_caches(dot: &mut Dot, number: u64, device: &Device) {
    let caches = device.caches.as_slice();
    for index in 0..caches.len() {
        let from = nodes::cache(number, index as u64 + 1);
        let names = caches[index].exporting_processes.as_slice();
        draw_exports(dot, number, device, from, names);
    }
}

/// Draws the edges to and from the aggregations of a collecting process.
fn draw_aggregated(
    dot: &mut Dot,
    number: u64,
    device: &Device,
    collector: u64,
    process: &CollectingProcess,
) {
    let aggregations = process.aggregations.as_slice();
    for index in 0..aggregations.len() {
        let node = nodes::aggregation(number, collector, index as u64 + 1);
        draw_edge(dot, nodes::collector(number, collector), node);
        let names = aggregations[index].exporting_processes.as_slice();
        draw_exports(dot, number, device, node, names);
    }
}

/// Draws the edges from the collecting processes of a device.
fn draw_from_collectors(dot: &mut Dot, number: u64, device: &Device) {
    let processes = device.collecting_processes.as_slice();
    for index in 0..processes.len() {
        let collector = index as u64 + 1;
        let from = nodes::collector(number, collector);
        let names = processes[index].exporting_processes.as_slice();
        draw_exports(dot, number, device, from, names);
        draw_aggregated(dot, number, device, collector, &processes[index]);
    }
}

/// Returns the link from a destination, if there is one.
fn link_from<'a>(
    plan: &'a Plan,
    device: &Name,
    process: &Name,
    destination: &Name,
) -> Result<Option<&'a NamedLink>, AllocError> {
    let links = &plan.network().links;
    let index = links.place_of(device, process, destination)?;
    Ok(entry_at(links.as_slice(), index.unwrap_or(usize::MAX)))
}

/// Returns the collecting process at the end of a link.
pub(crate) fn end_of(plan: &Plan, link: &NamedLink) -> Option<Node> {
    let devices = plan.network().devices.as_slice();
    let device = number_of(devices, &link.to_device)?;
    let config = plan.device(device)?;
    let process = number_of(config.collecting_processes.as_slice(), &link.to_process)?;
    Some(nodes::collector(device, process))
}

/// Returns the node where a destination's records arrive: a collecting process, or the node for lost records.
pub(crate) fn target_of(
    plan: &Plan,
    number: u64,
    device: &NetworkDevice,
    exporter: u64,
    process: &ExportingProcess,
    destination: u64,
    entry: &Destination,
) -> Result<Node, AllocError> {
    let link = link_from(plan, &device.name, &process.name, &entry.name)?;
    let end = match link {
        Some(link) => end_of(plan, link),
        None => None,
    };
    Ok(end.unwrap_or(nodes::lost(number, exporter, destination)))
}

/// Draws a node for lost records.
fn draw_lost(dot: &mut Dot, node: Node) {
    dot.code_node("  ", node);
    dot.line(" [shape=plaintext, fontcolor=red, label=\"lost: no link\"];")
}

/// Draws the edge from an exporting process through one of its destinations.
fn draw_destination(dot: &mut Dot, from: Node, to: Node, destination: &Destination) {
    let look = if to.kind == "lost" {
        draw_lost(dot, to);
        ", color=red, fontcolor=red, style=dashed];"
    } else {
        ", penwidth=2];"
    };
    dot.code_node("  ", from);
    dot.code_node(" -> ", to);
    dot.code_quoted(" [label=\"", destination.name.as_str());
    dot.code("\"");
    dot.line(look)
}

/// Draws the edges from an exporting process through its destinations.
fn draw_from_exporter(
    dot: &mut Dot,
    plan: &Plan,
    number: u64,
    device: &NetworkDevice,
    exporter: u64,
    process: &ExportingProcess,
) -> Result<(), AllocError> {
    let from = nodes::exporter(number, exporter);
    let destinations = process.destinations.as_slice();
    for index in 0..destinations.len() {
        let entry = &destinations[index];
        let destination = index as u64 + 1;
        let to = target_of(plan, number, device, exporter, process, destination, entry)?;
        draw_destination(dot, from, to, entry);
    }
    Ok(())
}

/// Draws the edges from the exporting processes of a device.
fn draw_from_exporters(
    dot: &mut Dot,
    plan: &Plan,
    number: u64,
    device: &NetworkDevice,
) -> Result<(), AllocError> {
    let processes = device.config.exporting_processes.as_slice();
    for index in 0..processes.len() {
        let exporter = index as u64 + 1;
        draw_from_exporter(dot, plan, number, device, exporter, &processes[index])?;
    }
    Ok(())
}

/// Draws the edges that begin in the device with this 1-based number, unless it is drawn as another.
pub(crate) fn draw_edges(
    dot: &mut Dot,
    plan: &Plan,
    number: u64,
    device: &NetworkDevice,
) -> Result<(), AllocError> {
    if dot.folding().of(number) != number {
        return Ok(());
    }
    draw_from_points(dot, number, &device.config);
    draw_from_selections(dot, number, &device.config);
    draw_from_caches(dot, number, &device.config);
    draw_from_collectors(dot, number, &device.config);
    draw_from_exporters(dot, plan, number, device)
}

/// Returns the collecting process of the report.
pub(crate) fn report_of(plan: &Plan) -> Option<Node> {
    let network = plan.network();
    let devices = network.devices.as_slice();
    let device = number_of(devices, &network.report.device)?;
    let config = plan.device(device)?;
    let processes = config.collecting_processes.as_slice();
    let process = number_of(processes, &network.report.collecting_process)?;
    Some(nodes::collector(device, process))
}
