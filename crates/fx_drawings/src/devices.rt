//! Drawing devices and their parts.
use crate::dot::Dot;
use crate::labels::{
    add_key, add_match, add_method, add_names, direction_name, kind_name, mode_name,
};
use crate::nodes;
use fx_base::Name;
use fx_config::{
    Aggregation, Cache, CollectingProcess, ExportingProcess, ObservationPoint, SelectionProcess,
};
use fx_layout::Part;
use fx_plan::Plan;
use fx_topology::{NetworkDevice, Report};

/// The number of devices that the label of a box names.
const NAMED: u64 = 3;

/// Begins a node, with its name as the first line of its label.
fn begin<'x>(dot: &mut Dot, node: nodes::Node, look: &'static str, name: &'x Name) {
    dot.code_node("    ", node);
    dot.code(" [");
    dot.code(look);
    dot.code_quoted(", label=\"", name.as_str())
}

/// Ends a node.
fn end(dot: &mut Dot) {
    dot.line("\"];")
}

/// Draws an observation point: its interfaces, if they are to be named, and the directions in which it observes
/// packets.
fn draw_point(dot: &mut Dot, node: nodes::Node, point: &ObservationPoint, names_interfaces: bool) {
    begin(dot, node, "shape=cds", &point.name);
    dot.code("\\n");
    if names_interfaces {
        add_names(dot, point.interfaces.as_slice());
        dot.code(" ");
    }
    dot.code(direction_name(point.direction));
    end(dot)
}

/// Draws a selection process: what its selectors select.
fn draw_selection(dot: &mut Dot, node: nodes::Node, process: &SelectionProcess) {
    begin(dot, node, "shape=hexagon", &process.name);
    for selector in process.selectors.as_slice() {
        add_method(dot, &selector.method);
    }
    end(dot)
}

/// Draws a cache: its kind and its flow keys.
fn draw_cache(dot: &mut Dot, node: nodes::Node, cache: &Cache) {
    begin(dot, node, "shape=cylinder", &cache.name);
    dot.code("\\n");
    dot.code(kind_name(cache.kind));
    add_key(dot, cache.layout.parts());
    end(dot)
}

/// Draws an exporting process: its mode.
fn draw_exporter(dot: &mut Dot, node: nodes::Node, process: &ExportingProcess) {
    begin(dot, node, "shape=cds", &process.name);
    dot.code("\\n");
    dot.code(mode_name(process.mode));
    end(dot)
}

/// Draws an aggregation: which records it aggregates, and their key.
fn draw_aggregation(dot: &mut Dot, node: nodes::Node, aggregation: &Aggregation) {
    begin(dot, node, "shape=cylinder", &aggregation.name);
    dot.code("\\naggregation");
    for filter in aggregation.matches.as_slice() {
        add_match(dot, filter);
    }
    add_key(dot, aggregation.key.parts());
    end(dot)
}

/// Returns whether a report is that of the given collecting process of a device.
pub(crate) fn reports(report: &Report, device: &Name, process: &Name) -> bool {
    report.device == *device && report.collecting_process == *process
}

/// Draws a collecting process. The one of the report has two lines around it and shows the report's key.
fn draw_collector(
    dot: &mut Dot,
    node: nodes::Node,
    process: &CollectingProcess,
    key: Option<&[Part]>,
) {
    let Some(key) = key else {
        begin(dot, node, "shape=box", &process.name);
        end(dot);
        return;
    };
    begin(
        dot,
        node,
        "shape=box, peripheries=2, style=bold",
        &process.name,
    );
    dot.code("\\nreport");
    add_key(dot, key);
    end(dot)
}

/// Draws the aggregations of a collecting process.
fn draw_aggregations(dot: &mut Dot, device: u64, number: u64, process: &CollectingProcess) {
    let aggregations = process.aggregations.as_slice();
    for index in 0..aggregations.len() {
        let node = nodes::aggregation(device, number, index as u64 + 1);
        draw_aggregation(dot, node, &aggregations[index]);
    }
}

/// Draws the collecting processes of a device, with their aggregations.
fn draw_collectors(dot: &mut Dot, plan: &Plan, number: u64, device: &NetworkDevice) {
    let processes = device.config.collecting_processes.as_slice();
    for index in 0..processes.len() {
        let process = &processes[index];
        let key = if reports(&plan.network().report, &device.name, &process.name) {
            Some(plan.net().report_layout().parts())
        } else {
            None
        };
        let node = nodes::collector(number, index as u64 + 1);
        draw_collector(dot, node, process, key);
        draw_aggregations(dot, number, index as u64 + 1, process);
    }
}

/// Draws the observation points of a device.
fn draw_points(dot: &mut Dot, number: u64, device: &NetworkDevice, names_interfaces: bool) {
    let points = device.config.observation_points.as_slice();
    for index in 0..points.len() {
        let node = nodes::point(number, index as u64 + 1);
        draw_point(dot, node, &points[index], names_interfaces);
    }
}

/// Draws the selection processes of a device.
fn draw_selections(dot: &mut Dot, number: u64, device: &NetworkDevice) {
    let processes = device.config.selection_processes.as_slice();
    for index in 0..processes.len() {
        let node = nodes::selection(number, index as u64 + 1);
        draw_selection(dot, node, &processes[index]);
    }
}

/// Draws the caches of a device.
fn draw_caches(dot: &mut Dot, number: u64, device: &NetworkDevice) {
    let caches = device.config.caches.as_slice();
    for index in 0..caches.len() {
        draw_cache(dot, nodes::cache(number, index as u64 + 1), &caches[index]);
    }
}

/// Draws the exporting processes of a device.
fn draw_exporters(dot: &mut Dot, number: u64, device: &NetworkDevice) {
    let processes = device.config.exporting_processes.as_slice();
    for index in 0..processes.len() {
        let node = nodes::exporter(number, index as u64 + 1);
        draw_exporter(dot, node, &processes[index]);
    }
}

/// Draws the parts of a device, with the names of the interfaces of its observation points if these are to be named.
pub(crate) fn draw_parts(
    dot: &mut Dot,
    plan: &Plan,
    number: u64,
    device: &NetworkDevice,
    names_interfaces: bool,
) {
    draw_points(dot, number, device, names_interfaces);
    draw_selections(dot, number, device);
    draw_caches(dot, number, device);
    draw_collectors(dot, plan, number, device);
    draw_exporters(dot, number, device);
}

/// Adds the names of the devices that are drawn as this one to a label: the first three, and the number of others.
fn add_devices(dot: &mut Dot, plan: &Plan, number: u64) {
    let devices = plan.network().devices.as_slice();
    let mut named: u64 = 0;
    for index in 0..devices.len() {
        if dot.folding().of(index as u64 + 1) == number {
            if named < NAMED {
                dot.code(if named == 0 { "" } else { ", " });
                dot.quoted(devices[index].name.as_str());
            }
            named = named.saturating_add(1);
        }
    }
    if named > NAMED {
        dot.code_number(" and ", named - NAMED);
        dot.code(" more");
    }
}

/// Draws the device with this 1-based number as a box around its parts, unless it is drawn as another. Interfaces
/// aren't named if other devices are drawn as this one.
pub(crate) fn draw_device(dot: &mut Dot, plan: &Plan, number: u64, device: &NetworkDevice) {
    if dot.folding().of(number) != number {
        return;
    }
    let is_alone = dot.folding().count(number) < 2;
    dot.code_number("  subgraph cluster_", number);
    dot.line(" {");
    dot.code("    label=\"");
    add_devices(dot, plan, number);
    dot.line("\"; style=rounded; color=gray40;");
    draw_parts(dot, plan, number, device, is_alone);
    dot.line("  }")
}
