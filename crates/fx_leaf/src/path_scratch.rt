//! Judging the leaves of one path one after another: what depends only on the path is computed once.
ghost use Rattle.std.specs.Prelude.{◌≡◌, ◌≤◌, ◌<◌, ℕ, List, length, slice_index_or, [], IfOk, IfErr, OnOk, IsTrue};
ghost use Rattle.fx_base.specs.Fault.{IsMemory};
ghost use Rattle.fx_boxes.specs.Boxes.{Bounds};
ghost use Rattle.fx_tables.specs.declared.traffic.Crossing.{Crossing as OfCrossing};
ghost use Rattle.fx_leaf.specs.Judgements as judgements;
ghost use Rattle.fx_leaf.specs.Leaves as leaves;
ghost use Rattle.fx_leaf.specs.PathSelections as of_path;
ghost use Rattle.fx_leaf.specs.PathTables as path_tables;
ghost use Rattle.fx_leaf.specs.Reach as reach;
ghost use Rattle.fx_leaf.specs.Splits as splits;
ghost use Rattle.fx_leaf.specs.Tables as by_table;
ghost use Rattle.fx_leaf.specs.Tables.{Tables as TableView};
ghost use Rattle.fx_leaf.specs.Verdicts as verdicts;

use crate::balance::{CutBounds, halving_selections};
use crate::judgement::{Judgement, judgement_of};
use crate::leaf::{Counted, leaf_of, never_of};
use crate::path::{PathFate, PathReader};
use crate::path_selections::{PathSelections, count_on_path};
use crate::reach::mark;
use crate::regions::bounds_hold;
use crate::remaining::{ProcessMatches, enter_marked, matches_of};
use crate::rows::fill;
use crate::table::{VerdictRow, Verdicts, empty_rows, no_marks};
use crate::tables::Tables;
use fx_base::Fault;
use fx_boxes::Region;
use fx_elements::Axis;
use fx_tables::{Crossing, Process};
use std::alloc::{AllocError, Global};
use std::marker::Model;

/// Room for what the leaves of a path are judged by: a verdict for each collecting process and each layout, marks of
/// those that are needed, and the selection processes of the path. The marks depend only on the path, and if no
/// aggregation takes in records of its packets, so do the verdicts: then a leaf costs no more than the selection
/// processes that still matter for its region.
#[derive(Debug, Drop)]
pub struct PathScratch<'a> {
    rows: Vec<VerdictRow>,
    marks: Vec<u64>,
    steady: bool,
    selections: PathSelections<'a>,
    matches: Vec<ProcessMatches<'a>>,
}

impl<'a> Model for PathScratch<'a> {
    ghost use Rattle.fx_leaf.specs.PathTables.{PathTable};

    ghost Value = { PathTable };

    ghost view = { λ s. record {
      table = s.rows.items;
      marks = s.marks.items;
      steady = s.steady;
      selections = s.selections.items;
      room = s.selections.room;
      matches = s.matches.items;
    } };
}

/// Returns whether a collecting process has no mark or no aggregation.
fn takes_none_in(marks: u64, process: &Process) -> bool
    ensures { IsTrue result → path_tables.HasNoMarkOrAggregation marks process.now }
{
    marks == 0 || process.aggregations().is_empty()
}

/// Returns whether no aggregation takes in records at the marked collecting processes.
fn take_none_in(marks: &[u64], processes: &[Process]) -> bool
    requires { length marks.now ≡ length processes.now }
    ensures { IsTrue result → path_tables.TakeNoneIn processes.now marks.now }
{
    for index in 0..processes.len() {
        if !takes_none_in(marks[index], &processes[index]) {
            return false;
        }
    }
    true
}

impl<'a> PathScratch<'a> {
    /// Returns room for the collecting processes of these tables, and for no selection process.
    ///
    /// Fails with 900, at no place, if out of memory.
    pub fn new(alloc: Global, tables: &Tables<'a>) -> Result<PathScratch<'a>, Fault>
        requires { by_table.AreTables tables.now }
        ensures ok { IfOk result (path_tables.HasProcessRoom tables.now) }
        ensures err { IfErr result IsMemory }
    {
        let count = tables.net().processes().len();
        Ok(PathScratch {
            rows: empty_rows(alloc, count)?,
            marks: no_marks(alloc, count)?,
            steady: false,
            selections: PathSelections::new(alloc, 0)?,
            matches: matches_of(alloc, tables.net().processes())?,
        })
    }

    /// Reserves room for the selection processes of a path too.
    ///
    /// Fails with 900, at no place, if out of memory.
    pub fn reserve(&mut self, tables: &Tables<'_>, path: &[Crossing]) -> Result<(), Fault>
        requires room { path_tables.HasProcessRoom tables.now self.old }
        ensures path { OnOk result (path_tables.HasPathRoom tables.now path.now self.new) }
        ensures more { self.old.room ≤ self.new.room }
        ensures room { path_tables.HasProcessRoom tables.now self.new }
        ensures err { IfErr result IsMemory }
    {
        let Some(count) = count_on_path(tables.net(), path) else {
            return Err(Fault::from(AllocError));
        };
        self.selections.reserve(count)?;
        Ok(())
    }

    /// Marks what the verdict on a path is computed from, and computes the verdicts that hold for each region.
    fn mark_path(&mut self, tables: &Tables<'a>, path: &[Crossing])
        requires tables { by_table.AreTables tables.now }
        requires room { path_tables.HasProcessRoom tables.now self.old }
        ensures marked { path_tables.IsPathMarked tables.now path.now self.new }
        ensures room { path_tables.HasProcessRoom tables.now self.new }
        ensures more { self.new.room ≡ self.old.room }
    {
        mark(&mut self.marks, tables, path);
        self.steady = take_none_in(&self.marks, tables.net().processes());
        if self.steady {
            fill(
                &mut self.rows,
                &self.marks,
                tables,
                &Region::whole(),
                &self.matches,
            );
        }
    }

    /// Begins a path, whose leaves are judged from now on, and returns the number of selection processes that it meets.
    pub fn begin(&mut self, tables: &Tables<'a>, path: &[Crossing]) -> usize
        requires tables { by_table.AreTables tables.now }
        requires room { path_tables.HasProcessRoom tables.now self.old }
        requires path { path_tables.HasPathRoom tables.now path.now self.old }
        ensures begun { path_tables.IsPathBegun tables.now path.now self.new }
        ensures all { (region : Bounds) → of_path.IsNarrowed self.new.selections region result }
        ensures room { path_tables.HasProcessRoom tables.now self.new }
        ensures more { self.old.room ≤ self.new.room }
    {
        self.mark_path(tables, path);
        self.selections.fill(tables.net(), path);
        self.selections.len()
    }

    /// Enters a region that is split: lists the aggregations whose matches may accept its packets, unless the verdicts
    /// hold for each region. Its parts are then judged by these, until a region outside of it is entered. It changes no
    /// answer.
    pub fn enter(&mut self, region: &Region)
        ensures { self.new ≡ self.old }
    {
        if !self.steady {
            enter_marked(&mut self.matches, &self.marks, region);
        }
    }

    /// Moves those of the first `active` selection processes that count packets of the region before the others, and
    /// returns their number.
    fn narrow_selections(&mut self, region: &Region, active: usize) -> usize
        requires narrowed { of_path.IsNarrowed self.old.selections region.now active }
        ensures narrowed { of_path.IsNarrowed self.new.selections region.now result }
        ensures overlapping { (k : ℕ) (d : of_path.PathSelection) → k < result
            → of_path.IsApart region.now (slice_index_or self.new.selections k d).selection → ⊥ }
        ensures fewer { result ≤ active }
        ensures others { (other : Bounds) (more : ℕ) → active ≤ more
            → of_path.IsNarrowed self.old.selections other more
            → of_path.IsNarrowed self.new.selections other more }
        ensures begun { (t : TableView) (path : List OfCrossing)
            → path_tables.IsPathBegun t path self.old → path_tables.IsPathBegun t path self.new }
        ensures room { (t : TableView) → path_tables.HasProcessRoom t self.old
            → path_tables.HasProcessRoom t self.new }
        ensures more { self.old.room ≤ self.new.room }
    {
        let active = active.min(self.selections.len());
        self.selections.narrow(region, active)
    }

    /// Moves those of the first `active` selection processes that count packets of the region before the others, and
    /// returns their number. None after the first `active` counts a packet of the region, which is entered.
    pub fn narrow(&mut self, region: &Region, active: usize) -> usize
        requires narrowed { of_path.IsNarrowed self.old.selections region.now active }
        ensures narrowed { of_path.IsNarrowed self.new.selections region.now result }
        ensures overlapping { (k : ℕ) (d : of_path.PathSelection) → k < result
            → of_path.IsApart region.now (slice_index_or self.new.selections k d).selection → ⊥ }
        ensures fewer { result ≤ active }
        ensures others { (other : Bounds) (more : ℕ) → active ≤ more
            → of_path.IsNarrowed self.old.selections other more
            → of_path.IsNarrowed self.new.selections other more }
        ensures begun { (t : TableView) (path : List OfCrossing)
            → path_tables.IsPathBegun t path self.old → path_tables.IsPathBegun t path self.new }
        ensures room { (t : TableView) → path_tables.HasProcessRoom t self.old
            → path_tables.HasProcessRoom t self.new }
        ensures more { self.old.room ≤ self.new.room }
    {
        self.enter(region);
        self.narrow_selections(region, active)
    }

    /// Computes the verdicts on the packets of this region.
    fn fill_for(&mut self, tables: &Tables<'a>, path: &[Crossing], region: &Region)
        requires tables { by_table.AreTables tables.now }
        requires room { path_tables.HasProcessRoom tables.now self.old }
        requires begun { path_tables.IsPathBegun tables.now path.now self.old }
        ensures filled { reach.IsFilled tables.now.net tables.now.numbering region.now
            self.new.marks self.new.table }
        ensures begun { path_tables.IsPathBegun tables.now path.now self.new }
        ensures room { path_tables.HasProcessRoom tables.now self.new }
        ensures kept { self.new.selections ≡ self.old.selections }
        ensures more { self.old.room ≤ self.new.room }
    {
        if self.steady {
            return;
        }
        fill(&mut self.rows, &self.marks, tables, region, &self.matches);
    }

    /// Returns the verdict on the packets of a region that take the path, or a bound of what cuts the region.
    fn path_verdict(
        &mut self,
        tables: &Tables<'a>,
        path: &[Crossing],
        region: &Region,
        active: usize,
    ) -> Result<PathFate, (Axis, u128)>
        requires tables { by_table.AreTables tables.now }
        requires room { path_tables.HasProcessRoom tables.now self.old }
        requires begun { path_tables.IsPathBegun tables.now path.now self.old }
        requires narrowed { of_path.IsNarrowed self.old.selections region.now active }
        ensures ok { IfOk result (leaves.IsPathFate tables.now.net path.now region.now) }
        ensures err { IfErr result (λ s. splits.IsSplit tables.now.net path.now region.now s.0
            s.1) }
        ensures filled { reach.IsFilled tables.now.net tables.now.numbering region.now
            self.new.marks self.new.table }
        ensures begun { path_tables.IsPathBegun tables.now path.now self.new }
        ensures room { path_tables.HasProcessRoom tables.now self.new }
        ensures kept { self.new.selections ≡ self.old.selections }
        ensures more { self.old.room ≤ self.new.room }
    {
        // Only for the prover: the bounds of a region hold.
        bounds_hold(region);
        self.fill_for(tables, path, region);
        let verdicts = Verdicts {
            tables,
            rows: &self.rows,
            region,
            matches: &self.matches,
        };
        let reader = PathReader {
            verdicts,
            marks: &self.marks,
        };
        let active = active.min(self.selections.len());
        reader.known_of(&self.selections.as_slice()[..active])
    }

    /// Returns the leaf that is sound for the packets of a region that take the begun path, like [`fate`](crate::fate).
    /// Only the first `active` selection processes are looked at; the others count no packet of the region. It
    /// allocates nothing.
    ///
    /// Fails like [`fate`](crate::fate).
    pub fn fate(
        &mut self,
        tables: &Tables<'a>,
        path: &[Crossing],
        region: &Region,
        active: usize,
    ) -> Result<Counted, Fault>
        requires tables { by_table.AreTables tables.now }
        requires room { path_tables.HasProcessRoom tables.now self.old }
        requires begun { path_tables.IsPathBegun tables.now path.now self.old }
        requires narrowed { of_path.IsNarrowed self.old.selections region.now active }
        ensures answer { result ≡ leaves.path_leaf tables.now.net path.now region.now }
        ensures begun { path_tables.IsPathBegun tables.now path.now self.new }
        ensures room { path_tables.HasProcessRoom tables.now self.new }
        ensures kept { self.new.selections ≡ self.old.selections }
        ensures more { self.old.room ≤ self.new.room }
    {
        // Only for the prover: the bounds of a region hold.
        bounds_hold(region);
        leaf_of(self.path_verdict(tables, path, region, active))
    }

    /// Checks whether none of the packets of a region that take the begun path is counted, like
    /// [`never`](crate::never). Only the first `active` selection processes are looked at; the others count no packet
    /// of the region. It allocates nothing.
    ///
    /// Fails like [`never`](crate::never).
    pub fn never(
        &mut self,
        tables: &Tables<'a>,
        path: &[Crossing],
        region: &Region,
        active: usize,
    ) -> Result<(), Fault>
        requires tables { by_table.AreTables tables.now }
        requires room { path_tables.HasProcessRoom tables.now self.old }
        requires begun { path_tables.IsPathBegun tables.now path.now self.old }
        requires narrowed { of_path.IsNarrowed self.old.selections region.now active }
        ensures answer { result ≡ leaves.never_of
            (verdicts.path_verdict tables.now.net region.now path.now) }
        ensures begun { path_tables.IsPathBegun tables.now path.now self.new }
        ensures room { path_tables.HasProcessRoom tables.now self.new }
        ensures kept { self.new.selections ≡ self.old.selections }
        ensures more { self.old.room ≤ self.new.room }
    {
        // Only for the prover: the bounds of a region hold.
        bounds_hold(region);
        never_of(self.path_verdict(tables, path, region, active))
    }

    /// Judges the packets of a region that take the begun path, like [`judge`](crate::judge). Only the first `active`
    /// selection processes are looked at; the others count no packet of the region. It allocates nothing.
    pub fn judge(
        &mut self,
        tables: &Tables<'a>,
        path: &[Crossing],
        region: &Region,
        active: usize,
    ) -> Judgement
        requires tables { by_table.AreTables tables.now }
        requires room { path_tables.HasProcessRoom tables.now self.old }
        requires begun { path_tables.IsPathBegun tables.now path.now self.old }
        requires narrowed { of_path.IsNarrowed self.old.selections region.now active }
        ensures judged { judgements.IsJudged tables.now.net path.now region.now result }
        ensures filled { reach.IsFilled tables.now.net tables.now.numbering region.now
            self.new.marks self.new.table }
        ensures begun { path_tables.IsPathBegun tables.now path.now self.new }
        ensures room { path_tables.HasProcessRoom tables.now self.new }
        ensures kept { self.new.selections ≡ self.old.selections }
        ensures more { self.old.room ≤ self.new.room }
    {
        // Only for the prover: the bounds of a region hold.
        bounds_hold(region);
        judgement_of(self.path_verdict(tables, path, region, active))
    }

    /// Returns where to split a region that is cut at `other`, so that the split halves what cuts the region: at the
    /// middle bound on the axis that has the most. The bounds are those of the first `active` selection processes or,
    /// if none of these cuts the region, those of the matches that cut it at one collecting process. The verdicts on
    /// the region's packets must have been computed.
    ///
    /// Fails with 900, at no place, if out of memory.
    pub fn halving_bound(
        &self,
        bounds: &mut CutBounds,
        tables: &Tables<'a>,
        path: &[Crossing],
        region: &Region,
        active: usize,
        other: (Axis, u128),
    ) -> Result<(Axis, u128), Fault>
        requires tables { by_table.AreTables tables.now }
        requires begun { path_tables.IsPathBegun tables.now path.now self.now }
        requires room { path_tables.HasProcessRoom tables.now self.now }
        requires filled { reach.IsFilled tables.now.net tables.now.numbering region.now
            self.now.marks self.now.table }
        requires overlapping { (k : ℕ) (d : of_path.PathSelection) → k < active
            → of_path.IsApart region.now (slice_index_or self.now.selections k d).selection → ⊥ }
        ensures ok { IfOk result (λ s. splits.IsSplit tables.now.net path.now region.now
            other.0 other.1 → splits.IsSplit tables.now.net path.now region.now s.0 s.1) }
        ensures err { IfErr result IsMemory }
    {
        // Only for the prover: the bounds of a region hold.
        bounds_hold(region);
        let active = active.min(self.selections.len());
        let selections = &self.selections.as_slice()[..active];
        if let Some(split) = halving_selections(bounds, selections, region)? {
            return Ok(split);
        }
        let verdicts = Verdicts {
            tables,
            rows: &self.rows,
            region,
            matches: &self.matches,
        };
        let reader = PathReader {
            verdicts,
            marks: &self.marks,
        };
        Ok(reader.halving_match(bounds, selections, other)?)
    }
}
