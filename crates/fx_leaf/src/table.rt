//! Room for the verdicts on records that reach the collecting processes.
ghost use Rattle.std.specs.Prelude.{◌≡◌, ◌≢◌, ◌<◌, ℕ, length, slice_get, Some, IfOk, IfErr};
ghost use Rattle.std.specs.List.{AllByRecursion};
ghost use Rattle.fx_base.specs.Fault.{IsMemory};
ghost use Rattle.fx_tables.specs.Matches.{HasEntries};
ghost use Rattle.fx_leaf.specs.Remaining as of_remaining;
ghost use Rattle.fx_leaf.specs.Tables as by_table;

use crate::remaining::{ProcessMatches, Remaining};
use crate::tables::Tables;
use crate::verdict::Fate;
use fx_base::Fault;
use fx_boxes::Region;
use fx_tables::{LAYOUTS, Process};
use std::alloc::{AllocError, Global};
use std::marker::Model;

/// The verdicts on records that reach a collecting process, by the number of their layout.
#[derive(Debug, Drop)]
pub(crate) struct VerdictRow {
    entries: [Option<Fate>; LAYOUTS],
}

impl Model for VerdictRow {
    ghost use Rattle.std.specs.Prelude.{List};
    ghost use Rattle.fx_leaf.specs.Verdicts.{Verdict};

    ghost Value = { List Verdict };

    ghost view = { λ r. r.entries };
}

impl VerdictRow {
    /// Returns a row without any entries set.
    pub(crate) fn new() -> VerdictRow {
        VerdictRow {
            entries: [Some(Fate::Never); LAYOUTS],
        }
    }

    /// Sets the entry for the layout with this 0-based number.
    pub(crate) fn set(&mut self, layout: usize, verdict: Option<Fate>)
        requires { layout < LAYOUTS }
        ensures set { by_table.entry_in (Some self.new) layout ≡ verdict }
        ensures others { (k : ℕ) → k ≢ layout
            → by_table.entry_in (Some self.new) k ≡ by_table.entry_in (Some self.old) k }
    {
        self.entries[layout] = verdict;
    }

    /// Returns the entry for the layout with this 0-based number.
    pub(crate) fn at(&self, layout: usize) -> Option<Fate>
        ensures { result ≡ by_table.or_never (slice_get self.now layout) }
    {
        match self.entries.get(layout) {
            None => Some(Fate::Never),
            Some(verdict) => *verdict,
        }
    }
}

/// The verdicts on a region's packets by table: the borrowed tables of a plan, a row for each collecting process, and
/// lists of the aggregations that still matter, for some collecting processes or all.
#[derive(Drop)]
pub(crate) struct Verdicts<'a, 't> {
    pub(crate) tables: &'a Tables<'t>,
    pub(crate) rows: &'a [VerdictRow],
    pub(crate) region: &'a Region,
    pub(crate) matches: &'a [ProcessMatches<'t>],
    ghost listed: { of_remaining.AreAggregations tables.now.net.processes matches.now },
}

impl<'a, 't> Verdicts<'a, 't> {
    /// Returns those aggregations of a collecting process, which is at this index, whose matches may accept packets of
    /// the region.
    pub(crate) fn remaining(&self, index: usize, process: &'t Process) -> Remaining<'a, 't>
        requires there { slice_get self.now.tables.now.net.processes index ≡ Some process.now }
        requires entries { AllByRecursion HasEntries process.now.aggregations }
        ensures remain { of_remaining.AreRemaining self.now.region.now process.now.aggregations
            result }
        ensures entries { AllByRecursion HasEntries result }
    {
        let Some(matches) = self.matches.get(index) else {
            return Remaining::of_all(process.aggregations());
        };
        matches.remaining(self.region)
    }
}

impl Verdicts<'_, '_> {
    /// Returns the entry for a collecting process and the layout with this number, each 0-based.
    pub(crate) fn entry(&self, process: usize, layout: usize) -> Option<Fate>
        ensures { result ≡ by_table.entry self.now.rows.now process layout }
    {
        match self.rows.get(process) {
            None => Some(Fate::Never),
            Some(row) => row.at(layout),
        }
    }
}

/// Room for what the fate of a leaf is computed from: a verdict for each collecting process and each layout, and marks
/// of those that are needed.
#[derive(Debug, Drop)]
pub struct Scratch {
    pub(crate) rows: Vec<VerdictRow>,
    pub(crate) marks: Vec<u64>,
    ghost sized: { length marks.items ≡ length rows.items },
}

impl Model for Scratch {
    ghost use Rattle.fx_leaf.specs.Tables.{Table};

    ghost Value = { Table };

    ghost view = { λ s. s.rows.items };
}

/// Returns `count` rows without any entries set.
///
/// Fails if out of memory.
pub(crate) fn empty_rows(alloc: Global, count: usize) -> Result<Vec<VerdictRow>, AllocError>
    ensures { IfOk result (λ rows. length rows.items ≡ count) }
{
    let mut rows: Vec<VerdictRow> = Vec::with_capacity(alloc, count)?;
    for _process in 0..count {
        rows.push(VerdictRow::new())?;
    }
    Ok(rows)
}

/// Returns marks of `count` processes, all empty.
///
/// Fails if out of memory.
pub(crate) fn no_marks(alloc: Global, count: usize) -> Result<Vec<u64>, AllocError>
    ensures { IfOk result (λ marks. length marks.items ≡ count) }
{
    let mut marks: Vec<u64> = Vec::with_capacity(alloc, count)?;
    for _process in 0..count {
        marks.push(0)?;
    }
    Ok(marks)
}

impl Scratch {
    /// Returns room for the collecting processes of these tables.
    ///
    /// Fails with 900, at no place, if out of memory.
    pub fn new(alloc: Global, tables: &Tables<'_>) -> Result<Scratch, Fault>
        ensures ok { IfOk result (λ scratch. length scratch ≡ length tables.now.net.processes) }
        ensures err { IfErr result IsMemory }
    {
        let count = tables.net().processes().len();
        let rows = empty_rows(alloc, count)?;
        let marks = no_marks(alloc, count)?;
        Ok(Scratch { rows, marks })
    }
}
