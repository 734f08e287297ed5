//! Where exporting processes send records.
use crate::explanation::{Explanation, between};
use crate::names::{entry_named, link_from};
use fx_base::{Name, entry_numbered};
use fx_config::{Destination, ExportMode, ExportingProcess};
use fx_plan::Plan;
use fx_topology::{NamedLink, NetworkDevice};

/// Writes the collecting process to which a link leads.
pub fn write_end(out: &mut Explanation, link: &NamedLink) {
    out.text_quoted("collecting process ", link.to_process.as_str());
    out.text(" of ");
    out.text(link.to_device.as_str());
}

/// Writes where a destination's records arrive.
fn write_destination<'x>(
    out: &mut Explanation,
    plan: &Plan,
    device: &NetworkDevice,
    process: &'x ExportingProcess,
    destination: &'x Destination,
) {
    out.text_quoted("exporting process ", process.name.as_str());
    out.text_quoted(" sends to destination ", destination.name.as_str());
    let links = plan.network().links.as_slice();
    match link_from(links, &device.name, &process.name, &destination.name) {
        Some(link) => {
            out.text(", which is linked to ");
            write_end(out, link);
        }
        None => out.text(", which has no link: what it is sent is lost"),
    }
}

/// Writes where the records of all destinations arrive.
fn write_destinations(
    out: &mut Explanation,
    plan: &Plan,
    device: &NetworkDevice,
    process: &ExportingProcess,
) {
    let mut separator = "";
    for destination in process.destinations.as_slice() {
        out.text(separator);
        write_destination(out, plan, device, process, destination);
        separator = "; ";
    }
}

/// Writes where an exporting process sends a record: to the destination with this 1-based number, or to all.
fn write_process(
    out: &mut Explanation,
    plan: &Plan,
    device: &NetworkDevice,
    process: &ExportingProcess,
    chosen: Option<u64>,
) {
    let Some(number) = chosen else {
        write_destinations(out, plan, device, process);
        return;
    };
    match entry_numbered(process.destinations.as_slice(), number) {
        Some(destination) => write_destination(out, plan, device, process, destination),
        None => {
            out.text_quoted("exporting process ", process.name.as_str());
            out.text_number(" has no destination ", number);
        }
    }
}

/// Returns whether an exporting process sends each record to only one of its destinations.
pub fn chooses(process: &ExportingProcess) -> bool {
    !matches!(process.mode, ExportMode::Parallel)
}

/// Writes where the exporting processes with these names send a record, by the choices of a step, which has one for
/// each process that isn't parallel. Without choices, writes all destinations. Returns the number of processes that
/// choose.
pub fn write_sending(
    out: &mut Explanation,
    plan: &Plan,
    device: &NetworkDevice,
    names: &[Name],
    choices: &[Option<u64>],
) -> usize {
    let mut made: usize = 0;
    let mut shown = false;
    for name in names {
        if let Some(process) = entry_named(device.config.exporting_processes.as_slice(), name) {
            let mut chosen = None;
            if chooses(process) {
                chosen = choices.get(made).copied().flatten();
                made = made.saturating_add(1);
            }
            out.text(between(shown, "; "));
            write_process(out, plan, device, process, chosen);
            shown = true;
        }
    }
    made
}
