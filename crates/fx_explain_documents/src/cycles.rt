//! Links that form a cycle.
use fx_base::{Name, entry_at};
use fx_config::{Aggregation, CollectingProcess};
use fx_explanation::{Explanation, entry_named, unless_refused, write_end};
use fx_topology::{NamedLink, NetworkDevice, NetworkDocument, Sizes, read_network_within};
use serde_json::Value;
use std::alloc::{AllocError, Global};

/// Returns whether an aggregation passes its records to the exporting process with this name.
fn aggregates_to(aggregation: &Aggregation, name: &Name) -> bool {
    aggregation.exporting_processes.as_slice().contains(name)
}

/// Returns whether a collecting process passes records to the exporting process with this name, unchanged or
/// aggregated.
fn hands_to(process: &CollectingProcess, name: &Name) -> bool {
    for aggregation in process.aggregations.as_slice() {
        if aggregates_to(aggregation, name) {
            return true;
        }
    }
    process.exporting_processes.as_slice().contains(name)
}

/// Returns the collecting process to which a link leads.
fn process_at_end<'a>(
    devices: &'a [NetworkDevice],
    link: &NamedLink,
) -> Option<&'a CollectingProcess> {
    let device = entry_named(devices, &link.to_device)?;
    entry_named(
        device.config.collecting_processes.as_slice(),
        &link.to_process,
    )
}

/// Returns whether records that arrive by a link may leave by another.
fn goes_on(devices: &[NetworkDevice], link: &NamedLink, next: &NamedLink) -> bool {
    if link.to_device != next.device {
        return false;
    }
    match process_at_end(devices, link) {
        Some(process) => hands_to(process, &next.exporting_process),
        None => false,
    }
}

/// The state of a link in the search.
#[derive(Clone, Copy)]
enum VisitState {
    /// Not visited.
    New,
    /// On the way that is being followed.
    OnWay,
    /// Known to lead to no cycle.
    Done,
}

/// A search for a cycle of links.
#[derive(Drop)]
struct Search<'a> {
    devices: &'a [NetworkDevice],
    links: &'a [NamedLink],
    /// The state of each link.
    marks: Vec<VisitState>,
    /// The indices of links, each of which may lead to the next.
    way: Vec<usize>,
}

impl<'a> Search<'a> {
    /// Returns a search that hasn't visited any link.
    fn new(alloc: Global, network: &'a NetworkDocument) -> Result<Search<'a>, AllocError> {
        let links = network.links.as_slice();
        let mut marks = Vec::new(alloc);
        marks.resize(links.len(), VisitState::New)?;
        Ok(Search {
            devices: network.devices.as_slice(),
            links,
            marks,
            way: Vec::new(alloc),
        })
    }

    /// Returns the state of the link at an index.
    fn mark(&self, index: usize) -> VisitState {
        match self.marks.as_slice().get(index) {
            Some(mark) => *mark,
            None => VisitState::Done,
        }
    }

    /// Sets the state of the link at an index.
    fn set(&mut self, index: usize, mark: VisitState) {
        if let Some(entry) = self.marks.get_mut(index) {
            *entry = mark;
        }
    }

    /// Returns the index of the first link by which records that arrive by the one at `place` may leave, not counting
    /// links that lead to no cycle.
    fn next(&self, index: usize) -> Option<usize> {
        let link = entry_at(self.links, index)?;
        for next in 0..self.links.len() {
            if self.mark(next) != VisitState::Done
                && goes_on(self.devices, link, &self.links[next])
            {
                return Some(next);
            }
        }
        None
    }

    /// Appends the link at an index to the way.
    fn enter(&mut self, index: usize) -> Result<(), AllocError> {
        self.set(index, VisitState::OnWay);
        self.way.push(index)?;
        Ok(())
    }

    /// Removes the last link, which leads to no cycle, from the way.
    fn leave(&mut self, index: usize) {
        self.set(index, VisitState::Done);
        let _left = self.way.pop();
    }

    /// Continues from the last link of the way. Returns the index of the link that begins a cycle as soon as the way
    /// returns to it.
    fn step(&mut self, index: usize) -> Result<Option<usize>, AllocError> {
        let Some(next) = self.next(index) else {
            self.leave(index);
            return Ok(None);
        };
        if self.mark(next) == VisitState::OnWay {
            return Ok(Some(next));
        }
        self.enter(next)?;
        Ok(None)
    }

    /// Follows the links from the one at an index. Returns the index of the link that begins a cycle, if one is found.
    fn follow(&mut self, start: usize) -> Result<Option<usize>, AllocError> {
        let steps = self.links.len().saturating_mul(2);
        self.enter(start)?;
        for _step in 0..steps {
            let Some(index) = self.way.as_slice().last().copied() else {
                return Ok(None);
            };
            let found = self.step(index)?;
            if found.is_some() {
                return Ok(found);
            }
        }
        Ok(None)
    }

    /// Returns the index of the link that begins a cycle, if there is one; the way then ends with that cycle.
    fn run(&mut self) -> Result<Option<usize>, AllocError> {
        for start in 0..self.links.len() {
            if self.mark(start) == VisitState::New {
                let found = self.follow(start)?;
                if found.is_some() {
                    return Ok(found);
                }
            }
        }
        Ok(None)
    }
}

/// Writes a link: its index in the document, and its ends.
fn write_link(out: &mut Explanation, index: usize, link: &NamedLink) {
    out.text_number("on the circle: /links/", index as u64);
    out.text_quoted(", from destination ", link.destination.as_str());
    out.text_quoted(" of exporting process ", link.exporting_process.as_str());
    out.text(" of ");
    out.text(link.device.as_str());
    out.text(" to ");
    write_end(out, link);
    out.end_line();
}

/// Writes the links of a way, beginning with the link at an index.
fn write_way(out: &mut Explanation, links: &[NamedLink], way: &[usize], first: usize) {
    let mut begun = false;
    for index in way {
        begun = begun || *index == first;
        match entry_at(links, *index) {
            Some(link) if begun => write_link(out, *index, link),
            _ => {}
        }
    }
}

/// Writes the links of a cycle, if there is one.
fn write_circle_of(out: &mut Explanation, network: &NetworkDocument) {
    let begun = Search::new(out.alloc, network);
    let Some(mut search) = out.unless_short(begun) else {
        return;
    };
    if let Some(Some(first)) = out.unless_short(search.run()) {
        write_way(out, network.links.as_slice(), search.way.as_slice(), first);
    }
}

/// Sizes that no document exceeds.
const ANY_SIZES: Sizes = Sizes {
    devices: usize::MAX,
    links: usize::MAX,
    processes: usize::MAX,
};

/// Writes the links of a cycle of a network of any size in order, by their indices in the list of links.
pub(crate) fn write_cycle_of(out: &mut Explanation, network: &Value) {
    let read = read_network_within(out.alloc, network, ANY_SIZES);
    if let Some(network) = unless_refused(out, read) {
        write_circle_of(out, &network);
    }
}
