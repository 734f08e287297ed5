//! The entities to which the choices of a step apply.
use crate::missing_fields::process_at_end;
use fx_base::{entry_at, entry_numbered};
use fx_config::{Aggregation, CollectingProcess, ExportingProcess};
use fx_explanation::{Documents, Explanation};
use fx_machine::{State, StepActs};
use fx_plan::Plan;
use fx_run_text::Step;
use fx_tables::{Exporter, HolderName, Holding};
use fx_topology::NetworkDevice;

/// The entities to which the choices of a step apply, in order: exporting processes that aren't parallel, then the
/// caches that meter a packet, or some of the aggregations of a collecting process.
#[derive(Drop)]
pub(crate) struct Choosers<'a> {
    pub(crate) documents: &'a Documents<'a>,
    pub(crate) acts: &'a StepActs<'a>,
    pub(crate) step: &'a Step,
}

/// Returns the exporting process at a 0-based index of the network's table, which contains those of all devices in
/// document order.
fn exporting_process(plan: &Plan, index: usize) -> Option<&ExportingProcess> {
    let mut left = index;
    for device in plan.network().devices.as_slice() {
        let processes = device.config.exporting_processes.as_slice();
        if left < processes.len() {
            return processes.get(left);
        }
        left -= processes.len();
    }
    None
}

/// Returns the aggregation with this 1-based number of a collecting process of a device.
pub(crate) fn aggregation_at(
    device: &NetworkDevice,
    process: u64,
    number: u64,
) -> Option<&Aggregation> {
    let process = entry_numbered(device.config.collecting_processes.as_slice(), process)?;
    entry_numbered(process.aggregations.as_slice(), number)
}

/// Writes the cache of a device that is at an index of the network's table of holders, if there is one.
fn write_cache_of(
    out: &mut Explanation,
    plan: &Plan,
    device: &NetworkDevice,
    number: u64,
    index: usize,
) {
    let caches = device.config.caches.as_slice();
    for at in 0..caches.len() {
        let name = HolderName::Cache {
            device: number,
            cache: at as u64 + 1,
        };
        if plan.net().holder_place(name) == Some(index) {
            out.text_quoted("cache ", caches[at].name.as_str());
        }
    }
}

/// Writes the cache at an index of the network's table of holders.
fn write_cache_at(out: &mut Explanation, plan: &Plan, index: usize) {
    let devices = plan.network().devices.as_slice();
    for at in 0..devices.len() {
        write_cache_of(out, plan, &devices[at], at as u64 + 1, index);
    }
}

/// Writes the aggregations of a collecting process that may accept a record.
fn write_aggregations(out: &mut Explanation, process: &CollectingProcess) {
    match process.aggregations.as_slice() {
        [only] => out.text_quoted("aggregation ", only.name.as_str()),
        _ => out.text("an aggregation that takes the record in"),
    }
}

impl Choosers<'_> {
    /// Returns the exporting process of the table to which the choice at a 0-based index applies, if there is one.
    fn exporter_at(&self, index: usize) -> Option<(usize, &Exporter)> {
        let mut left = index;
        for at in self.acts.exporters {
            if let Some(exporter) = entry_at(self.documents.plan.net().exporters(), *at) {
                if !exporter.parallel() {
                    if left == 0 {
                        return Some((*at, exporter));
                    }
                    left -= 1;
                }
            }
        }
        None
    }

    /// Returns the number of exporting processes that take a choice.
    fn exporters(&self) -> usize {
        let mut count: usize = 0;
        for at in self.acts.exporters {
            if let Some(exporter) = entry_at(self.documents.plan.net().exporters(), *at) {
                count = count.saturating_add(usize::from(!exporter.parallel()));
            }
        }
        count
    }

    /// Returns the number of choices that the step takes.
    pub(crate) fn count(&self) -> usize {
        self.exporters().saturating_add(self.acts.holdings.len())
    }

    /// Writes the exporting processes that take no choice because they send to all their destinations.
    pub(crate) fn write_parallel(&self, out: &mut Explanation) {
        let plan = self.documents.plan;
        for at in self.acts.exporters {
            match (
                entry_at(plan.net().exporters(), *at),
                exporting_process(plan, *at),
            ) {
                (Some(exporter), Some(process)) if exporter.parallel() => {
                    out.text_quoted("exporting process ", process.name.as_str());
                    out.sentence(
                        " is parallel: it sends to all its destinations and takes no choice",
                    );
                }
                _ => {}
            }
        }
    }

    /// Writes the holder of the record that the choice of a holding may name.
    fn write_holder(&self, out: &mut Explanation, holding: &Holding) {
        let plan = self.documents.plan;
        match self.step {
            Step::Arrive { link, .. } => match process_at_end(plan, *link) {
                Some(process) => write_aggregations(out, process),
                None => {}
            },
            _ => write_cache_at(out, plan, holding.holder),
        }
    }

    /// Writes what is expected as the choice at a 0-based index: a destination, or a record of a cache or of one of the
    /// aggregations.
    pub(crate) fn write_due(&self, out: &mut Explanation, index: usize) {
        if let Some((at, exporter)) = self.exporter_at(index) {
            if let Some(process) = exporting_process(self.documents.plan, at) {
                out.text_quoted("a destination of exporting process ", process.name.as_str());
                out.text_number(
                    " is expected there, from 1 to ",
                    exporter.destinations().len() as u64,
                );
                out.end_line();
                return;
            }
        }
        out.text(
            "n for a new record is expected there, or the position of a record with the same key in ",
        );
        let number = index.saturating_sub(self.exporters());
        if let Some(holding) = entry_at(self.acts.holdings.as_slice(), number) {
            self.write_holder(out, holding);
        }
        out.end_line();
    }
}
