//! Drawing the ways on which counted records reach the report.

use crate::dot::Dot;
use crate::edges::{number_of, report_of, target_of};
use crate::nodes::{self, Node};
use fx_base::{Name, entry_numbered};
use fx_config::{CollectingProcess, ExportingProcess};
use fx_plan::Plan;
use fx_topology::NetworkDevice;
use std::alloc::{AllocError, Global};

/// The greatest number of collecting processes that are followed, which is more than a network has.
const FOLLOWED: usize = 4096;

/// The collecting processes from which records may reach the report, that of the report among them; those that the
/// drawn ways have reached so far; and the edges that have been drawn.
#[derive(Drop)]
pub(crate) struct Ways {
    leading: Vec<Node>,
    reached: Vec<Node>,
    drawn: Vec<(Node, Node)>,
}

/// Returns whether a node is among these.
fn is_among(nodes: &[Node], node: Node) -> bool {
    for other in nodes {
        if *other == node {
            return true;
        }
    }
    false
}

/// Returns whether an edge is among these.
fn is_drawn(edges: &[(Node, Node)], from: Node, to: Node) -> bool {
    for edge in edges {
        if edge.0 == from && edge.1 == to {
            return true;
        }
    }
    false
}

/// Adds a node, unless it is among these.
fn add(nodes: &mut Vec<Node>, node: Node) -> Result<(), AllocError> {
    if !is_among(nodes.as_slice(), node) {
        nodes.push(node)?;
    }
    Ok(())
}

/// Returns whether a destination of an exporting process leads to one of these collecting processes.
fn leads(
    plan: &Plan,
    number: u64,
    device: &NetworkDevice,
    exporter: u64,
    process: &ExportingProcess,
    leading: &[Node],
) -> Result<bool, AllocError> {
    let destinations = process.destinations.as_slice();
    for index in 0..destinations.len() {
        let entry = &destinations[index];
        let destination = index as u64 + 1;
        let to = target_of(plan, number, device, exporter, process, destination, entry)?;
        if is_among(leading, to) {
            return Ok(true);
        }
    }
    Ok(false)
}

/// Returns whether one of the exporting processes with these names leads to one of these collecting processes.
fn one_leads(
    plan: &Plan,
    number: u64,
    device: &NetworkDevice,
    names: &[Name],
    leading: &[Node],
) -> Result<bool, AllocError> {
    let processes = device.config.exporting_processes.as_slice();
    for name in names {
        if let Some(exporter) = number_of(processes, name) {
            if let Some(process) = entry_numbered(processes, exporter) {
                if leads(plan, number, device, exporter, process, leading)? {
                    return Ok(true);
                }
            }
        }
    }
    Ok(false)
}

/// Returns whether a collecting process, or one of its aggregations, leads to one of these collecting processes.
fn process_leads(
    plan: &Plan,
    number: u64,
    device: &NetworkDevice,
    process: &CollectingProcess,
    leading: &[Node],
) -> Result<bool, AllocError> {
    let names = process.exporting_processes.as_slice();
    if one_leads(plan, number, device, names, leading)? {
        return Ok(true);
    }
    for aggregation in process.aggregations.as_slice() {
        let names = aggregation.exporting_processes.as_slice();
        if one_leads(plan, number, device, names, leading)? {
            return Ok(true);
        }
    }
    Ok(false)
}

/// Adds the collecting processes of a device that lead to those found so far.
fn add_leading_of(
    plan: &Plan,
    number: u64,
    device: &NetworkDevice,
    leading: &mut Vec<Node>,
) -> Result<(), AllocError> {
    let processes = device.config.collecting_processes.as_slice();
    for index in 0..processes.len() {
        if process_leads(plan, number, device, &processes[index], leading.as_slice())? {
            add(leading, nodes::collector(number, index as u64 + 1))?;
        }
    }
    Ok(())
}

/// Adds the collecting processes that lead to those found so far.
fn add_leading(plan: &Plan, leading: &mut Vec<Node>) -> Result<(), AllocError> {
    let devices = plan.network().devices.as_slice();
    for index in 0..devices.len() {
        add_leading_of(plan, index as u64 + 1, &devices[index], leading)?;
    }
    Ok(())
}

/// Returns the collecting processes from which records may reach the report, and that of the report.
fn leading_of(alloc: Global, plan: &Plan) -> Result<Vec<Node>, AllocError> {
    let mut leading = Vec::new(alloc);
    if let Some(report) = report_of(plan) {
        leading.push(report)?;
    }
    for _round in 0..FOLLOWED {
        let before = leading.len();
        add_leading(plan, &mut leading)?;
        if leading.len() == before {
            return Ok(leading);
        }
    }
    Ok(leading)
}

impl Ways {
    /// Returns the ways of a network, of which none is drawn.
    ///
    /// Fails if out of memory.
    pub(crate) fn new(alloc: Global, plan: &Plan) -> Result<Ways, AllocError> {
        Ok(Ways {
            leading: leading_of(alloc, plan)?,
            reached: Vec::new(alloc),
            drawn: Vec::new(alloc),
        })
    }

    /// Draws an edge of a way, once.
    fn draw_edge(&mut self, dot: &mut Dot, from: Node, to: Node) -> Result<(), AllocError> {
        let (from, to) = (dot.drawn(from), dot.drawn(to));
        if is_drawn(self.drawn.as_slice(), from, to) {
            return Ok(());
        }
        self.drawn.push((from, to))?;
        dot.code_node("  ", from);
        dot.code_node(" -> ", to);
        dot.line(" [color=darkgreen, penwidth=3];");
        Ok(())
    }

    /// Draws the ways through the destinations of an exporting process that lead to the report.
    fn draw_destinations(
        &mut self,
        dot: &mut Dot,
        plan: &Plan,
        number: u64,
        device: &NetworkDevice,
        exporter: u64,
        process: &ExportingProcess,
    ) -> Result<(), AllocError> {
        let destinations = process.destinations.as_slice();
        for index in 0..destinations.len() {
            let entry = &destinations[index];
            let destination = index as u64 + 1;
            let to = target_of(plan, number, device, exporter, process, destination, entry)?;
            if is_among(self.leading.as_slice(), to) {
                self.draw_edge(dot, nodes::exporter(number, exporter), to)?;
                add(&mut self.reached, to)?;
            }
        }
        Ok(())
    }

    /// Draws the ways from a node through the exporting processes with these names that lead to the report.
    pub(crate) fn draw_exports(
        &mut self,
        dot: &mut Dot,
        plan: &Plan,
        number: u64,
        device: &NetworkDevice,
        from: Node,
        names: &[Name],
    ) -> Result<(), AllocError> {
        let processes = device.config.exporting_processes.as_slice();
        for name in names {
            if let Some(exporter) = number_of(processes, name) {
                if let Some(process) = entry_numbered(processes, exporter) {
                    let leading = self.leading.as_slice();
                    if leads(plan, number, device, exporter, process, leading)? {
                        self.draw_edge(dot, from, nodes::exporter(number, exporter))?;
                        self.draw_destinations(dot, plan, number, device, exporter, process)?;
                    }
                }
            }
        }
        Ok(())
    }

    /// Draws the ways from the aggregations of a collecting process.
    fn draw_aggregations(
        &mut self,
        dot: &mut Dot,
        plan: &Plan,
        device: &NetworkDevice,
        collector: Node,
        process: &CollectingProcess,
    ) -> Result<(), AllocError> {
        let number = collector.first;
        let aggregations = process.aggregations.as_slice();
        for index in 0..aggregations.len() {
            let names = aggregations[index].exporting_processes.as_slice();
            if one_leads(plan, number, device, names, self.leading.as_slice())? {
                let node = nodes::aggregation(number, collector.second, index as u64 + 1);
                self.draw_edge(dot, collector, node)?;
                self.draw_exports(dot, plan, number, device, node, names)?;
            }
        }
        Ok(())
    }

    /// Draws the ways from a collecting process.
    fn draw_from(&mut self, dot: &mut Dot, plan: &Plan, collector: Node) -> Result<(), AllocError> {
        let number = collector.first;
        let Some(device) = entry_numbered(plan.network().devices.as_slice(), number) else {
            return Ok(());
        };
        let processes = device.config.collecting_processes.as_slice();
        let Some(process) = entry_numbered(processes, collector.second) else {
            return Ok(());
        };
        let names = process.exporting_processes.as_slice();
        self.draw_exports(dot, plan, number, device, collector, names)?;
        self.draw_aggregations(dot, plan, device, collector, process)
    }

    /// Draws the ways from all collecting processes that drawn ways reach, up to the report.
    pub(crate) fn draw_rest(&mut self, dot: &mut Dot, plan: &Plan) -> Result<(), AllocError> {
        for at in 0..FOLLOWED {
            let Some(collector) = self.reached.as_slice().get(at).copied() else {
                return Ok(());
            };
            self.draw_from(dot, plan, collector)?;
        }
        Ok(())
    }
}
