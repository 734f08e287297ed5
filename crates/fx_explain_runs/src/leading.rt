//! Which collecting processes lead to the report.
use fx_base::entry_at;
use fx_plan::Plan;
use fx_tables::Net;
use fx_topology::NetworkDevice;
use fx_walk::place_of;
use std::alloc::{AllocError, Global};

/// For each collecting process of a network's table, whether it is the report's or forwards records to one that leads
/// to the report, regardless of their keys.
#[derive(Drop)]
pub(crate) struct Leading {
    processes: Vec<bool>,
}

/// Returns whether one of these links, by 0-based index, leads to a collecting process that leads to the report.
fn has_leading(net: &Net, leads: &[bool], links: &[Option<usize>]) -> bool {
    for link in links {
        let process = entry_at(net.links(), link.unwrap_or(usize::MAX)).copied();
        if leads
            .get(process.unwrap_or(usize::MAX))
            .copied()
            .unwrap_or(false)
        {
            return true;
        }
    }
    false
}

/// Returns whether one of these exporting processes, by 0-based index, sends to a collecting process that leads to the
/// report.
fn sends_on(net: &Net, leads: &[bool], exporters: &[usize]) -> bool {
    for index in exporters {
        if let Some(exporter) = entry_at(net.exporters(), *index) {
            if has_leading(net, leads, exporter.destinations()) {
                return true;
            }
        }
    }
    false
}

/// Returns whether the collecting process at an index forwards records, or those of its aggregations, to one that leads
/// to the report.
fn leads_on(net: &Net, leads: &[bool], index: usize) -> bool {
    let Some(process) = entry_at(net.processes(), index) else {
        return false;
    };
    if sends_on(net, leads, process.exporters()) {
        return true;
    }
    for aggregation in process.aggregations() {
        if sends_on(net, leads, net.named_by(aggregation.holder())) {
            return true;
        }
    }
    false
}

/// Marks the collecting processes that forward records to those that lead to the report. Returns whether another one
/// was marked.
fn note_more(net: &Net, leads: &mut Vec<bool>) -> bool {
    let mut has_more = false;
    for index in 0..leads.len() {
        let is_known = leads.get(index).copied().unwrap_or(true);
        if !is_known && leads_on(net, leads.as_slice(), index) {
            if let Some(at) = leads.get_mut(index) {
                *at = true;
            }
            has_more = true;
        }
    }
    has_more
}

impl Leading {
    /// Returns which collecting processes lead to the report.
    ///
    /// Fails if out of memory.
    pub(crate) fn of(alloc: Global, net: &Net) -> Result<Leading, AllocError> {
        let count = net.processes().len();
        let mut processes = vec![in alloc; false; count]?;
        if let Some(at) = processes.get_mut(net.report()) {
            *at = true;
        }
        for _round in 0..count {
            if !note_more(net, &mut processes) {
                return Ok(Leading { processes });
            }
        }
        Ok(Leading { processes })
    }

    /// Returns whether the collecting process at a 0-based index of the network's table leads to the report.
    pub(crate) fn has(&self, index: usize) -> bool {
        self.processes.get(index).copied().unwrap_or(false)
    }

    /// Returns the 0-based index of the first collecting process of a device that leads to the report.
    pub(crate) fn process_of(&self, plan: &Plan, device: &NetworkDevice) -> Option<usize> {
        let at = place_of(plan.network().devices.as_slice(), &device.name)?;
        let entry = entry_at(plan.net().devices(), at)?;
        let processes = entry.processes();
        for index in 0..processes.len() {
            if self.has(processes[index]) {
                return Some(index);
            }
        }
        None
    }

    /// Returns whether a destination of a device is linked to a collecting process that leads to the report.
    pub(crate) fn is_linked_from(&self, plan: &Plan, device: &NetworkDevice) -> bool {
        let links = plan.network().links.as_slice();
        for index in 0..links.len() {
            let process = entry_at(plan.net().links(), index).copied();
            if links[index].device == device.name && self.has(process.unwrap_or(usize::MAX)) {
                return true;
            }
        }
        false
    }
}
