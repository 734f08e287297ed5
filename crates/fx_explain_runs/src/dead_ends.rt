//! Where the records of a packet end that never reach the report, and which of these places to mend.
use crate::choosing::aggregation_at;
use crate::holders::{write_arrival, write_expiry};
use crate::leading::Leading;
use crate::lineage::Handled;
use crate::missing_fields::process_at_end;
use crate::refutations::arriving;
use fx_base::{Name, entry_at, entry_numbered};
use fx_config::{Destination, ExportingProcess};
use fx_explanation::{Documents, Explanation, chooses, entry_named, link_from};
use fx_plan::Plan;
use fx_run_text::Step;
use fx_tables::{HolderName, Packet};
use fx_topology::{NamedLink, NetworkDevice};
use fx_walk::place_of;

/// The advice for a cache or an aggregation without an exporting process, or a collecting process that forwards
/// nothing.
const UNSENT: &str =
    "The record goes no further: link its source to a collecting process whose records reach the report, or add an exporting process there that is linked to one, and audit again: ";

/// The advice for an aggregation that doesn't accept a record.
const NOT_TAKEN: &str =
    "Keep what the aggregation asks for among the flow keys (isFlowKey) of each cache and in the key of each aggregation on \
the way, ask for less in its key or its match, or add an aggregation for such packets, and audit again: ";

/// Why a record ends at a place.
#[derive(Clone, Copy)]
enum Reason {
    /// A destination without a link: the one with this 1-based number, of the exporting process with this number among
    /// those of its device.
    Unlinked {
        device: usize,
        exporter: usize,
        destination: usize,
    },
    /// The record leaves a cache or an aggregation that has no exporting process.
    Unsent,
    /// The record reaches a collecting process that forwards nothing, while another one of the same device leads to the
    /// report: the one at this index among those of its device.
    WrongProcess {
        process: usize,
    },
    /// The record reaches a collecting process that forwards nothing.
    Terminal,
    /// The record reaches a collecting process whose aggregations don't accept it.
    NotTaken,
}

/// A place where a record ends: the 0-based index of the step at which it does, and the distance of the place from one
/// that leads to the report. The least distance is that of one missing link.
#[derive(Clone, Copy)]
struct DeadEnd {
    step: usize,
    distance: u32,
    reason: Reason,
}

/// The dead ends of a packet's run, of which the one to mend so far is kept.
#[derive(Drop)]
struct DeadEnds<'a> {
    plan: &'a Plan,
    leading: &'a Leading,
    nearest: Option<DeadEnd>,
}

/// Distances, the least first.
const ONE_LINK: u32 = 1;

const ONE_PROCESS: u32 = 2;

const ONE_KEY: u32 = 3;

const FAR: u32 = 9;

impl DeadEnds<'_> {
    /// Considers a dead end, and keeps it if it is nearer to the report than the one so far; of two at the same
    /// distance, keeps the later one, which is after more devices.
    fn add(&mut self, end: DeadEnd) {
        let is_nearer = match &self.nearest {
            Some(known) => {
                end.distance < known.distance
                    || (end.distance == known.distance && end.step > known.step)
            }
            None => true,
        };
        if is_nearer {
            self.nearest = Some(end);
        }
    }

    /// Adds the destinations without a link to which an exporting process of a device sends a record at a step: all, or
    /// the one with this 1-based number.
    fn add_unlinked(
        &mut self,
        step: usize,
        device: &NetworkDevice,
        process: &ExportingProcess,
        chosen: Option<u64>,
    ) {
        let plan = self.plan;
        let links = plan.network().links.as_slice();
        let destinations = process.destinations.as_slice();
        for index in 0..destinations.len() {
            let is_sent_to = match chosen {
                Some(number) => number == index as u64 + 1,
                None => !chooses(process),
            };
            let name = &destinations[index].name;
            if is_sent_to && link_from(links, &device.name, &process.name, name).is_none() {
                let (at, exporter) = places_of(plan, device, process);
                self.add(DeadEnd {
                    step,
                    distance: ONE_LINK,
                    reason: Reason::Unlinked {
                        device: at,
                        exporter,
                        destination: index,
                    },
                });
            }
        }
    }

    /// Adds the destinations without a link to which the exporting processes with these names send a record at a step,
    /// by its choices.
    fn add_sending(
        &mut self,
        step: usize,
        device: &NetworkDevice,
        names: &[Name],
        choices: &[Option<u64>],
    ) {
        let mut made: usize = 0;
        for name in names {
            if let Some(process) = entry_named(device.config.exporting_processes.as_slice(), name) {
                let mut chosen = None;
                if chooses(process) {
                    chosen = choices.get(made).copied().flatten();
                    made = made.saturating_add(1);
                }
                self.add_unlinked(step, device, process, chosen);
            }
        }
    }

    /// Adds the destinations without a link to which a record is sent when it leaves a cache or an aggregation.
    fn add_leaving(&mut self, step: usize, holder: HolderName, choices: &[Option<u64>]) {
        let plan = self.plan;
        let Some(device) = device_of(plan, holder) else {
            return;
        };
        match holder {
            HolderName::Cache { cache, .. } => {
                if let Some(cache) = entry_numbered(device.config.caches.as_slice(), cache) {
                    self.add_sending(step, device, cache.exporting_processes.as_slice(), choices);
                }
            }
            HolderName::Aggregation {
                process,
                aggregation,
                ..
            } => {
                if let Some(found) = aggregation_at(device, process, aggregation) {
                    self.add_sending(step, device, found.exporting_processes.as_slice(), choices);
                }
            }
        }
    }

    /// Adds the destinations without a link to which a record is sent when it arrives by the link with this 1-based
    /// number.
    fn add_arriving(&mut self, step: usize, link: u64, choices: &[Option<u64>]) {
        let plan = self.plan;
        let Some(process) = process_at_end(plan, link) else {
            return;
        };
        if let Some(device) = device_at_end(plan, link) {
            self.add_sending(
                step,
                device,
                process.exporting_processes.as_slice(),
                choices,
            );
        }
    }

    /// Adds the destinations without a link to which records are sent at these steps.
    fn add_steps(&mut self, steps: &[Step]) {
        for index in 0..steps.len() {
            match &steps[index] {
                Step::Expire {
                    holder,
                    choices,
                    ..
                } => self.add_leaving(index, *holder, choices.as_slice()),
                Step::Arrive { link, choices, .. } => {
                    self.add_arriving(index, *link, choices.as_slice());
                }
                Step::Cross { .. } => {}
            }
        }
    }

    /// Adds the dead end of a record that leaves a cache or an aggregation and goes nowhere.
    fn add_unsent(&mut self, step: usize, holder: HolderName) {
        let net = self.plan.net();
        let index = net.holder_place(holder).unwrap_or(usize::MAX);
        if !net.named_by(index).is_empty() {
            return;
        }
        let leads = match device_of(self.plan, holder) {
            Some(device) => self.leading.is_linked_from(self.plan, device),
            None => false,
        };
        self.add(DeadEnd {
            step,
            distance: if leads { ONE_PROCESS } else { FAR },
            reason: Reason::Unsent,
        });
    }

    /// Adds the dead end of a record that arrives by the link with this 1-based number and goes nowhere.
    fn add_ended(&mut self, step: usize, link: u64) {
        let net = self.plan.net();
        let index = entry_numbered(net.links(), link)
            .copied()
            .unwrap_or(usize::MAX);
        let Some(process) = entry_at(net.processes(), index) else {
            return;
        };
        if !process.exporters().is_empty() {
            return;
        }
        let (distance, reason) = if !process.aggregations().is_empty() {
            let leads = self.leading.has(index);
            (if leads { ONE_KEY } else { FAR }, Reason::NotTaken)
        } else {
            self.terminal(link)
        };
        self.add(DeadEnd {
            step,
            distance,
            reason,
        });
    }

    /// Returns the distance from the report of a collecting process that forwards nothing, to which the link with this
    /// 1-based number leads, and why records end there.
    fn terminal(&self, link: u64) -> (u32, Reason) {
        let Some(device) = device_at_end(self.plan, link) else {
            return (FAR, Reason::Terminal);
        };
        if let Some(process) = self.leading.process_of(self.plan, device) {
            return (ONE_LINK, Reason::WrongProcess { process });
        }
        let is_linked = self.leading.is_linked_from(self.plan, device);
        (if is_linked { ONE_PROCESS } else { FAR }, Reason::Terminal)
    }

    /// Adds the dead ends of the records that go nowhere after these steps.
    fn add_lost(&mut self, steps: &[Step], lost: &[Handled]) {
        for handled in lost {
            match steps.get(handled.step) {
                Some(Step::Expire { holder, .. }) => self.add_unsent(handled.step, *holder),
                Some(Step::Arrive { link, .. }) => self.add_ended(handled.step, *link),
                _ => {}
            }
        }
    }
}

/// Returns the device of a cache or an aggregation.
fn device_of(plan: &Plan, holder: HolderName) -> Option<&NetworkDevice> {
    let number = match holder {
        HolderName::Cache { device, .. } => device,
        HolderName::Aggregation { device, .. } => device,
    };
    entry_numbered(plan.network().devices.as_slice(), number)
}

/// Returns the device to which the link with this 1-based number leads.
fn device_at_end(plan: &Plan, link: u64) -> Option<&NetworkDevice> {
    let network = plan.network();
    let link = entry_numbered(network.links.as_slice(), link)?;
    entry_named(network.devices.as_slice(), &link.to_device)
}

/// Returns the index of a device in a network, and that of an exporting process in the device, by their names.
fn places_of(plan: &Plan, device: &NetworkDevice, process: &ExportingProcess) -> (usize, usize) {
    let devices = plan.network().devices.as_slice();
    let exporters = device.config.exporting_processes.as_slice();
    (
        place_of(devices, &device.name).unwrap_or(usize::MAX),
        place_of(exporters, &process.name).unwrap_or(usize::MAX),
    )
}

/// Writes the name of a destination, with those of its exporting process and device.
fn write_destination<'x>(
    out: &mut Explanation,
    device: &'x NetworkDevice,
    process: &'x ExportingProcess,
    destination: &'x Destination,
) {
    out.text_quoted("destination ", destination.name.as_str());
    out.text_quoted(" of exporting process ", process.name.as_str());
    out.text(" of ");
    out.text(device.name.as_str());
}

/// Writes what to do about a destination without a link.
fn write_unlinked(
    out: &mut Explanation,
    plan: &Plan,
    device: usize,
    exporter: usize,
    destination: usize,
) {
    let Some(device) = entry_at(plan.network().devices.as_slice(), device) else {
        return;
    };
    let exporters = device.config.exporting_processes.as_slice();
    let Some(process) = entry_at(exporters, exporter) else {
        return;
    };
    let destinations = process.destinations.as_slice();
    let Some(found) = entry_at(destinations, destination) else {
        return;
    };
    out.text("Link ");
    write_destination(out, device, process, found);
    out.text(", which has no link, to a collecting process whose records reach the report");
    if destinations.len() > 1 {
        out.text(", or remove it from its exporting process");
    }
    out.sentence(", and audit again");
}

/// Writes where a link begins.
fn write_start(out: &mut Explanation, link: &NamedLink) {
    out.text_quoted("destination ", link.destination.as_str());
    out.text_quoted(" of exporting process ", link.exporting_process.as_str());
    out.text(" of ");
    out.text(link.device.as_str());
}

/// Writes what to do about the link with this 1-based number, which leads to a collecting process that forwards
/// nothing: the one at this index of the same device leads to the report.
fn write_wrong_process(out: &mut Explanation, plan: &Plan, number: u64, process: usize) {
    let Some(link) = entry_numbered(plan.network().links.as_slice(), number) else {
        return;
    };
    let Some(device) = device_at_end(plan, number) else {
        return;
    };
    let Some(right) = entry_at(device.config.collecting_processes.as_slice(), process) else {
        return;
    };
    out.text("Link ");
    write_start(out, link);
    out.text_quoted(" to collecting process ", right.name.as_str());
    out.text(" of ");
    out.text(device.name.as_str());
    out.text_quoted(
        ", whose records reach the report: it is linked to ",
        link.to_process.as_str(),
    );
    out.sentence(", which sends nothing on; and audit again");
}

/// Writes what to do about a dead end of a packet's run.
fn write_dead_end(
    out: &mut Explanation,
    documents: &Documents<'_>,
    packet: &Packet,
    steps: &[Step],
    lost: &[Handled],
    end: &DeadEnd,
) {
    let plan = documents.plan;
    match (&end.reason, steps.get(end.step)) {
        (
            Reason::Unlinked {
                device,
                exporter,
                destination,
            },
            _,
        ) => write_unlinked(out, plan, *device, *exporter, *destination),
        (Reason::WrongProcess { process }, Some(Step::Arrive { link, .. })) => {
            write_wrong_process(out, plan, *link, *process);
        }
        (
            _,
            Some(
                Step::Expire {
                    holder,
                    choices,
                    ..
                },
            ),
        ) => {
            out.text(UNSENT);
            write_expiry(out, plan, *holder, choices.as_slice());
        }
        (Reason::NotTaken, Some(Step::Arrive { link, choices, .. })) => {
            out.text(NOT_TAKEN);
            if let Some(holder) = holder_lost_at(lost, end.step) {
                arriving(documents, packet, holder).write_untaken(out, *link, "; ");
            }
            write_arrival(out, plan, *link, choices.as_slice());
        }
        (_, Some(Step::Arrive { link, choices, .. })) => {
            out.text(UNSENT);
            write_arrival(out, plan, *link, choices.as_slice());
        }
        _ => {}
    }
}

/// Returns the cache or the aggregation that a record left last which goes nowhere after a step.
fn holder_lost_at(lost: &[Handled], step: usize) -> Option<HolderName> {
    for handled in lost {
        if handled.step == step {
            return Some(handled.holder);
        }
    }
    None
}

/// Writes what to do about a packet of which no record reaches the report: about the dead end nearest to the report.
/// `lost` are the records that go nowhere after these steps.
pub(crate) fn write_lost(
    out: &mut Explanation,
    documents: &Documents<'_>,
    packet: &Packet,
    steps: &[Step],
    lost: &[Handled],
) {
    let found = Leading::of(out.alloc, documents.plan.net());
    let Some(leading) = out.unless_short(found) else {
        return;
    };
    let mut ends = DeadEnds {
        plan: documents.plan,
        leading: &leading,
        nearest: None,
    };
    ends.add_steps(steps);
    ends.add_lost(steps, lost);
    if let Some(end) = ends.nearest {
        write_dead_end(out, documents, packet, steps, lost, &end);
    }
}
