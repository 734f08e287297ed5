//! Drawing the run of a refutation, step by step, and its result.
ghost use Rattle.std.specs.Prelude.{IfErr};
ghost use Rattle.fx_base.specs.Fault.{IsMemory};
ghost use Rattle.fx_collect.specs.Report.{KeysAscend};

use crate::documents::DrawnDocuments;
use crate::dot::Dot;
use crate::edges::{end_of, number_of, report_of, target_of};
use crate::marks::{EdgeMark, draw_mark, draw_metering};
use crate::nodes::{self, Node};
use fx_base::{Fault, Name, Room, entry_numbered};
use fx_collect::Totals;
use fx_config::{ExportMode, ExportingProcess};
use fx_plan::Plan;
use fx_refute::Refutation;
use fx_run_text::Step;
use fx_tables::{HolderName, Packet};
use fx_topology::NetworkDevice;
use std::alloc::{AllocError, Global};

/// Returns the number of the device at which a step is made, if there is one.
fn device_of_step(documents: &DrawnDocuments, packet: &Packet, step: &Step) -> Option<u64> {
    match step {
        Step::Cross { crossing, .. } => {
            let crossings = documents.traffic.classes().path_of(packet);
            Some(entry_numbered(crossings, *crossing)?.device)
        }
        Step::Expire { holder, .. } => match holder {
            HolderName::Cache { device, .. } => Some(*device),
            HolderName::Aggregation { device, .. } => Some(*device),
        },
        Step::Arrive { link, .. } => {
            let network = documents.plan.network();
            let link = entry_numbered(network.links.as_slice(), *link)?;
            number_of(network.devices.as_slice(), &link.to_device)
        }
    }
}

/// Returns the numbers of the devices at which the steps of a run are made.
///
/// Fails if out of memory.
pub(crate) fn devices_of_run(
    alloc: Global,
    documents: &DrawnDocuments,
    refutation: &Refutation,
) -> Result<Vec<u64>, AllocError> {
    let mut devices = Vec::new(alloc);
    for step in refutation.steps() {
        if let Some(device) = device_of_step(documents, refutation.packet(), step) {
            devices.push(device)?;
        }
    }
    Ok(devices)
}

/// Returns the mark of the step with this 1-based number.
fn step_mark(number: u64) -> EdgeMark {
    EdgeMark {
        colour: "darkorange",
        word: "step ",
        number,
    }
}

/// Draws where a packet is metered at a crossing of its path.
fn draw_crossing(
    alloc: Global,
    dot: &mut Dot,
    documents: &DrawnDocuments,
    packet: &Packet,
    number: u64,
    mark: EdgeMark,
) -> Result<(), AllocError> {
    let crossings = documents.traffic.classes().path_of(packet);
    let Some(crossing) = entry_numbered(crossings, number) else {
        return Ok(());
    };
    let Some(config) = documents.plan.device(crossing.device) else {
        return Ok(());
    };
    let net = documents.plan.net();
    let occurrences = net.occurrences(alloc, crossing, &packet.fields)?;
    let packets = nodes::packets(packet.class, packet.path);
    for occurrence in occurrences.as_slice() {
        let point = occurrence.point as u64;
        let process = occurrence.process as u64;
        draw_metering(dot, mark, packets, crossing.device, config, point, process);
    }
    Ok(())
}

/// Returns whether an exporting process sends a record through this destination, by the choice of a step if it chooses
/// one.
fn sends(process: &ExportingProcess, chosen: Option<u64>, destination: u64) -> bool {
    matches!(process.mode, ExportMode::Parallel) || chosen == Some(destination)
}

/// Draws the destinations through which an exporting process sends a record.
fn draw_export(
    dot: &mut Dot,
    plan: &Plan,
    number: u64,
    device: &NetworkDevice,
    exporter: u64,
    process: &ExportingProcess,
    chosen: Option<u64>,
    mark: EdgeMark,
) -> Result<(), AllocError> {
    let from = nodes::exporter(number, exporter);
    let destinations = process.destinations.as_slice();
    for index in 0..destinations.len() {
        let destination = index as u64 + 1;
        if sends(process, chosen, destination) {
            let entry = &destinations[index];
            let to = target_of(plan, number, device, exporter, process, destination, entry)?;
            draw_mark(dot, mark, from, to);
        }
    }
    Ok(())
}

/// Draws the destinations through which the exporting processes with these names send a record, by the choices of a
/// step, which has one for each process that isn't parallel.
fn draw_exports(
    dot: &mut Dot,
    plan: &Plan,
    number: u64,
    device: &NetworkDevice,
    from: Node,
    names: &[Name],
    choices: &[Option<u64>],
    mark: EdgeMark,
) -> Result<(), AllocError> {
    let processes = device.config.exporting_processes.as_slice();
    let mut made: usize = 0;
    for name in names {
        if let Some(exporter) = number_of(processes, name) {
            if let Some(process) = entry_numbered(processes, exporter) {
                let mut chosen = None;
                if !matches!(process.mode, ExportMode::Parallel) {
                    chosen = choices.get(made).copied().flatten();
                    made = made.saturating_add(1);
                }
                draw_mark(dot, mark, from, nodes::exporter(number, exporter));
                draw_export(dot, plan, number, device, exporter, process, chosen, mark)?;
            }
        }
    }
    Ok(())
}

/// Draws where a record goes that leaves its holder.
fn draw_expiry(
    dot: &mut Dot,
    plan: &Plan,
    holder: HolderName,
    choices: &[Option<u64>],
    mark: EdgeMark,
) -> Result<(), AllocError> {
    let number = match holder {
        HolderName::Cache { device, .. } => device,
        HolderName::Aggregation { device, .. } => device,
    };
    let Some(device) = entry_numbered(plan.network().devices.as_slice(), number) else {
        return Ok(());
    };
    match holder {
        HolderName::Cache { cache, .. } => {
            let Some(entry) = entry_numbered(device.config.caches.as_slice(), cache) else {
                return Ok(());
            };
            let from = nodes::cache(number, cache);
            let names = entry.exporting_processes.as_slice();
            draw_exports(dot, plan, number, device, from, names, choices, mark)
        }
        HolderName::Aggregation {
            process,
            aggregation,
            ..
        } => draw_expired_aggregation(
            dot,
            plan,
            number,
            device,
            process,
            aggregation,
            choices,
            mark,
        ),
    }
}

/// Draws where a record goes that leaves an aggregation of a collecting process.
fn draw_expired_aggregation(
    dot: &mut Dot,
    plan: &Plan,
    number: u64,
    device: &NetworkDevice,
    process: u64,
    aggregation: u64,
    choices: &[Option<u64>],
    mark: EdgeMark,
) -> Result<(), AllocError> {
    let processes = device.config.collecting_processes.as_slice();
    let Some(collector) = entry_numbered(processes, process) else {
        return Ok(());
    };
    let Some(entry) = entry_numbered(collector.aggregations.as_slice(), aggregation) else {
        return Ok(());
    };
    let from = nodes::aggregation(number, process, aggregation);
    let names = entry.exporting_processes.as_slice();
    draw_exports(dot, plan, number, device, from, names, choices, mark)
}

/// Draws where a record goes that arrives over a link at a collecting process: to its exporting processes, and into the
/// aggregations that accept it.
fn draw_arrival(
    dot: &mut Dot,
    plan: &Plan,
    link: u64,
    choices: &[Option<u64>],
    mark: EdgeMark,
) -> Result<(), AllocError> {
    let Some(link) = entry_numbered(plan.network().links.as_slice(), link) else {
        return Ok(());
    };
    let Some(end) = end_of(plan, link) else {
        return Ok(());
    };
    let Some(device) = entry_numbered(plan.network().devices.as_slice(), end.first) else {
        return Ok(());
    };
    let processes = device.config.collecting_processes.as_slice();
    let Some(process) = entry_numbered(processes, end.second) else {
        return Ok(());
    };
    dot.code_node("  ", end);
    dot.code_node(" -> ", end);
    dot.code_number(
        " [color=darkorange, fontcolor=darkorange, penwidth=3, label=\"step ",
        mark.number,
    );
    dot.line(": arrives\"];");
    let names = process.exporting_processes.as_slice();
    draw_exports(dot, plan, end.first, device, end, names, choices, mark)
}

/// Draws a step of a refutation.
fn draw_step(
    alloc: Global,
    dot: &mut Dot,
    documents: &DrawnDocuments,
    packet: &Packet,
    step: &Step,
    number: u64,
) -> Result<(), AllocError> {
    let mark = step_mark(number);
    match step {
        Step::Cross { crossing, .. } => {
            draw_crossing(alloc, dot, documents, packet, *crossing, mark)
        }
        Step::Expire {
            holder,
            choices,
            ..
        } => draw_expiry(dot, &documents.plan, *holder, choices.as_slice(), mark),
        Step::Arrive { link, choices, .. } => {
            draw_arrival(dot, &documents.plan, *link, choices.as_slice(), mark)
        }
    }
}

/// Adds totals to a label, in the form of reports.
fn add_totals(dot: &mut Dot, totals: &Totals)
    requires { KeysAscend totals.now.entries }
{
    let mut octets = [0; 4096];
    let mut room = Room::new(&mut octets);
    // What doesn't fit in the buffer is left out.
    let _written = totals.put_report(&mut room);
    dot.lines(room.octets());
}

/// Adds a heading to a label, and totals after it in the order of reports.
fn add_sorted(dot: &mut Dot, heading: &str, mut totals: Totals) -> Result<(), Fault>
    ensures { IfErr result IsMemory }
{
    totals.sort()?;
    dot.code(heading);
    add_totals(dot, &totals);
    Ok(())
}

/// Draws an edge from the report to the result of the run.
fn draw_compared(dot: &mut Dot, plan: &Plan) {
    if let Some(report) = report_of(plan) {
        dot.code_node("  ", report);
        dot.code_node(" -> ", nodes::outcome());
        dot.line(" [color=red, dir=none, style=dotted];");
    }
}

/// Draws the run's totals and the expected ones beside the report.
pub(crate) fn draw_outcome(
    dot: &mut Dot,
    plan: &Plan,
    ran: Totals,
    plain: Totals,
) -> Result<(), Fault>
    ensures { IfErr result IsMemory }
{
    dot.code_node("  ", nodes::outcome());
    dot.code(" [shape=note, color=red, fontcolor=red, label=\"");
    add_sorted(dot, "in the end the collector holds\\n", ran)?;
    add_sorted(dot, "and it should hold\\n", plain)?;
    dot.line("\"];");
    draw_compared(dot, plan);
    Ok(())
}

/// Draws the run of a refutation, with the number of each step.
pub(crate) fn draw_refutation(
    alloc: Global,
    dot: &mut Dot,
    documents: &DrawnDocuments,
    refutation: &Refutation,
) -> Result<(), AllocError> {
    let steps = refutation.steps();
    for index in 0..steps.len() {
        let packet = refutation.packet();
        draw_step(
            alloc,
            dot,
            documents,
            packet,
            &steps[index],
            index as u64 + 1,
        )?;
    }
    Ok(())
}
