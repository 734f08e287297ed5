//! The aggregations of a collecting process whose matches may accept packets of a region.
ghost use Rattle.std.specs.Prelude.{◌≡◌, ◌<◌, ℕ, length, slice_get, slice_index_or, IfOk, IsTrue};
ghost use Rattle.std.specs.List.{AllByRecursion};
ghost use Rattle.fx_tables.specs.Matches.{HasEntries};
ghost use Rattle.fx_tables.specs.Network as network;
ghost use Rattle.fx_leaf.specs.Remaining as remaining;

use crate::regions::match_part;
use fx_boxes::Region;
use fx_tables::{AggregationEntry, Process};
use std::alloc::{AllocError, Global};
use std::marker::Model;

/// The shortest list that is worth its region: fewer matches are looked at as fast as a region is found.
const SHORTEST: usize = 4;

/// An aggregation in a list.
#[derive(Debug, Drop)]
pub(crate) struct Listed<'a> {
    aggregation: &'a AggregationEntry,
}

impl<'a> Model for Listed<'a> {
    ghost use Rattle.fx_tables.specs.Network.{AggregationEntry};

    ghost Value = { AggregationEntry };

    ghost view = { λ l. l.aggregation.now };
}

/// Aggregations of a collecting process: all of them, or those in a list.
#[derive(Drop)]
pub(crate) struct Remaining<'m, 'a> {
    all: &'a [AggregationEntry],
    listed: &'m [Listed<'a>],
    is_listed: bool,
}

impl<'m, 'a> Model for Remaining<'m, 'a> {
    ghost use Rattle.std.specs.Prelude.{List, if◌then◌else◌};
    ghost use Rattle.fx_tables.specs.Network.{AggregationEntry};

    ghost Value = { List AggregationEntry };

    ghost view = { λ r. if r.is_listed then r.listed.now else r.all.now };
}

impl<'m, 'a> Remaining<'m, 'a> {
    /// Returns all of these.
    pub(crate) fn of_all(all: &'a [AggregationEntry]) -> Remaining<'m, 'a>
        ensures { result ≡ all.now }
    {
        Remaining {
            all,
            listed: &[],
            is_listed: false,
        }
    }

    /// Returns those in a list.
    fn of_list(listed: &'m [Listed<'a>]) -> Remaining<'m, 'a>
        ensures { result ≡ listed.now }
    {
        Remaining {
            all: &[],
            listed,
            is_listed: true,
        }
    }

    /// Returns their number.
    pub(crate) fn len(&self) -> usize
        ensures { result ≡ length self.now }
    {
        if self.is_listed {
            self.listed.len()
        } else {
            self.all.len()
        }
    }

    /// Returns the one at this 0-based place.
    pub(crate) fn at(&self, index: usize) -> &'a AggregationEntry
        requires { index < length self.now }
        ensures at { (d : network.AggregationEntry)
            → result.now ≡ slice_index_or self.now index d }
        ensures entries { AllByRecursion HasEntries self.now → HasEntries result.now }
    {
        if self.is_listed {
            let listed = &self.listed[index];
            listed.aggregation
        } else {
            &self.all[index]
        }
    }
}

/// Replaces a list by those of the remaining aggregations whose matches accept packets of the region, if its room
/// suffices. Returns whether it does.
fn list_within<'a>(
    listed: &mut Vec<Listed<'a>>,
    others: &Remaining<'_, 'a>,
    region: &Region,
) -> bool
    requires { AllByRecursion HasEntries others.now }
    ensures { IsTrue result → remaining.AreRemaining region.now others.now listed.new.items }
{
    listed.clear();
    for index in 0..others.len() {
        let aggregation = others.at(index);
        if match_part(region, aggregation.matches()).is_some() {
            if listed.len() >= listed.capacity() {
                return false;
            }
            listed.push_reserved(Listed { aggregation });
        }
    }
    true
}

/// A region, and those aggregations of a collecting process whose matches may accept packets of it.
#[derive(Debug, Drop)]
struct RegionMatches<'a> {
    region: Region,
    listed: Vec<Listed<'a>>,
}

impl<'a> Model for RegionMatches<'a> {
    ghost use Rattle.fx_leaf.specs.Remaining.{RegionMatches};

    ghost Value = { RegionMatches };

    ghost view = { λ r. record { region = r.region; listed = r.listed.items } };
}

/// The aggregations of a collecting process, with lists of those that remain for regions, each region within the one
/// before. All room is made at the start: each list has at most half as much as the one before, so that all lists
/// together are no longer than the aggregations.
#[derive(Debug, Drop)]
pub(crate) struct ProcessMatches<'a> {
    all: &'a [AggregationEntry],
    entered: Vec<RegionMatches<'a>>,
    /// Lists that no region uses, the longest last.
    spare: Vec<Vec<Listed<'a>>>,
}

impl<'a> Model for ProcessMatches<'a> {
    ghost use Rattle.std.specs.Prelude.{List};
    ghost use Rattle.std.specs.List.{AllByRecursion};
    ghost use Rattle.fx_tables.specs.Matches.{HasEntries};
    ghost use Rattle.fx_tables.specs.Network.{AggregationEntry};
    ghost use Rattle.fx_leaf.specs.Remaining.{HasRemaining};

    ghost Value = { List AggregationEntry };

    ghost view = { λ p. p.all.now };

    ghost invariant = { λ p. AllByRecursion HasEntries p.all.now
        × AllByRecursion (HasRemaining p.all.now) p.entered.items };
}

/// Returns empty lists, each with twice the room of the one before, the longest with room for half of `count`
/// aggregations or less.
///
/// Fails if out of memory.
fn spare_lists<'a>(alloc: Global, count: usize) -> Result<Vec<Vec<Listed<'a>>>, AllocError> {
    let mut spare: Vec<Vec<Listed<'a>>> = Vec::new(alloc);
    for doublings in 0..32u32 {
        let room = SHORTEST << doublings;
        if room <= count / 2 {
            spare.push(Vec::with_capacity(alloc, room)?)?;
        }
    }
    Ok(spare)
}

impl<'a> ProcessMatches<'a> {
    /// Returns these aggregations, with room for lists of them.
    ///
    /// Fails if out of memory.
    pub(crate) fn new(
        alloc: Global,
        all: &'a [AggregationEntry],
    ) -> Result<ProcessMatches<'a>, AllocError>
        requires { AllByRecursion HasEntries all.now }
        ensures { IfOk result (λ p. p ≡ all.now) }
    {
        let spare = spare_lists(alloc, all.len())?;
        Ok(ProcessMatches {
            all,
            entered: Vec::with_capacity(alloc, spare.len())?,
            spare,
        })
    }

    /// Returns whether the region is within the one that was entered last, if there is one.
    fn is_within(&self, region: &Region) -> bool {
        match self.entered.last() {
            Some(last) => region.inside(&last.region),
            None => true,
        }
    }

    /// Leaves the region that was entered last.
    fn leave(&mut self)
        ensures { self.new ≡ self.old }
    {
        if let Some(last) = self.entered.pop() {
            if self.spare.len() < self.spare.capacity() {
                self.spare.push_reserved(last.listed);
            }
        }
    }

    /// Leaves regions until this one is within the one that was entered last.
    fn leave_for(&mut self, region: &Region)
        ensures { self.new ≡ self.old }
    {
        for _region in 0..self.entered.len() {
            if self.is_within(region) {
                return;
            }
            self.leave();
        }
    }

    /// Returns those whose matches may accept packets of the region: those listed for the last region that it is
    /// within, or all.
    pub(crate) fn remaining(&self, region: &Region) -> Remaining<'_, 'a>
        ensures remain { remaining.AreRemaining region.now self.now result }
        ensures entries { AllByRecursion HasEntries result }
    {
        let entered = self.entered.as_slice();
        let count = entered.len();
        for later in 0..count {
            let last = &entered[count - 1 - later];
            if region.inside(&last.region) {
                return Remaining::of_list(&last.listed);
            }
        }
        Remaining::of_all(self.all)
    }

    /// Enters the region with this list, if the list is right, and keeps the list for another region if not.
    fn put(&mut self, region: &Region, listed: Vec<Listed<'a>>, right: bool)
        requires { IsTrue right → remaining.AreRemaining region.now self.old listed.items }
        ensures { self.new ≡ self.old }
    {
        if right {
            if self.entered.len() < self.entered.capacity() {
                self.entered.push_reserved(RegionMatches {
                    region: *region,
                    listed,
                });
            }
        } else if self.spare.len() < self.spare.capacity() {
            self.spare.push_reserved(listed);
        }
    }

    /// Enters a region: lists those that remain for it, unless they are too many for the next list.
    pub(crate) fn enter(&mut self, region: &Region)
        ensures { self.new ≡ self.old }
    {
        self.leave_for(region);
        let Some(mut listed) = self.spare.pop() else {
            return;
        };
        let fits = list_within(&mut listed, &self.remaining(region), region);
        self.put(region, listed, fits);
    }
}

/// Returns the aggregations of each of these collecting processes, with room for lists of them.
///
/// Fails if out of memory.
pub(crate) fn matches_of<'a>(
    alloc: Global,
    processes: &'a [Process],
) -> Result<Vec<ProcessMatches<'a>>, AllocError>
    requires { (process : ℕ)
        → AllByRecursion HasEntries (network.aggregations_of (slice_get processes.now process)) }
    ensures { IfOk result (λ lists. remaining.AreAggregations processes.now lists.items) }
{
    let mut lists: Vec<ProcessMatches<'a>> = Vec::with_capacity(alloc, processes.len())?;
    for index in 0..processes.len() {
        let process = &processes[index];
        lists.push(ProcessMatches::new(alloc, process.aggregations())?)?;
    }
    Ok(lists)
}

/// Enters a region at each collecting process with marks.
pub(crate) fn enter_marked(matches: &mut Vec<ProcessMatches<'_>>, marks: &[u64], region: &Region)
    ensures { matches.new.items ≡ matches.old.items }
{
    for process in 0..matches.len() {
        match marks.get(process) {
            Some(layouts) if *layouts != 0 => matches[process].enter(region),
            _ => {}
        }
    }
}
