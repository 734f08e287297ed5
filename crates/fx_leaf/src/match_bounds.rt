//! The bounds of the matches that cut a region at the processes that records of its packets reach, and the bound that
//! halves them.
ghost use Rattle.std.specs.Prelude.{◌≡◌, ℕ, List, Contains, IfOk, IfSome, OnOk};
ghost use Rattle.std.specs.List.{AllByRecursion};
ghost use Rattle.fx_elements.specs.declared.axis.Axis as of_axis;
ghost use Rattle.fx_tables.specs.Matches.{HasEntries, IsEntry};
ghost use Rattle.fx_tables.specs.declared.traffic.Crossing as of_crossing;
ghost use Rattle.fx_leaf.specs.declared.cause.Cause.TheVariants as cause;
ghost use Rattle.fx_leaf.specs.declared.regions.Overlap.TheVariants as overlap;
ghost use Rattle.fx_leaf.specs.Causes as by_cause;
ghost use Rattle.fx_leaf.specs.Overlaps as overlaps;
ghost use Rattle.fx_leaf.specs.PathSelections as of_path;
ghost use Rattle.fx_leaf.specs.Reach as reach;
ghost use Rattle.fx_leaf.specs.Splits as splits;
ghost use Rattle.fx_leaf.specs.Tables as by_table;

use crate::balance::{CutBounds, axis_with_most, count_bounds, median, push_bounds};
use crate::entry::layout_reads;
use crate::path::PathReader;
use crate::path_selections::PathSelection;
use crate::regions::{Overlap, bounds_hold, match_part, region_overlap, selection_overlap};
use crate::remaining::Remaining;
use crate::split::MatchCut;
use crate::table::Verdicts;
use fx_boxes::Region;
use fx_elements::{AXES, Axis};
use fx_layout::Layout;
use fx_tables::{AggregationEntry, MatchEntry, Selection};
use std::alloc::AllocError;

/// Returns the part of the region for which a match holds, all of its entries together, if the match cuts the region.
fn cut_part(region: &Region, entries: &[MatchEntry]) -> Option<Region>
    requires { AllByRecursion IsEntry entries.now }
    ensures { IfSome result (λ part.
        (overlaps.region_overlap region.now (overlaps.match_fields entries.now) ≡ overlap.Part)
        × ((axis : of_axis.Axis) (at : ℕ) → splits.IsSplitBy region.now part axis at
        → splits.IsSplitBy region.now (overlaps.match_fields entries.now) axis at)) }
{
    // Only for the prover: the bounds of a region hold.
    bounds_hold(region);
    let part = match_part(region, entries)?;
    // Only for the prover: both ends of the part are in it.
    let _ends = (part.corner(), part.far_corner());
    match region_overlap(region, &part) {
        Overlap::Part => Some(part),
        _ => None,
    }
}

impl Verdicts<'_, '_> {
    /// Returns the part of the region whose records of this layout an aggregation takes in, if its match cuts the
    /// region.
    fn part_taken(&self, layout: &Layout, aggregation: &AggregationEntry) -> Option<Region>
        requires { HasEntries aggregation.now }
        ensures { let t = self.now.tables.now in
            let table = self.now.rows.now in
            let region = self.now.region.now in
            IfSome result (λ part. (axis : of_axis.Axis) (at : ℕ)
            → splits.IsSplitBy region part axis at → by_cause.IsCauseInMatch t region table
            layout.now aggregation.now (cause.Split axis at)) }
    {
        if !layout_reads(self.tables.net(), layout, aggregation) {
            return None;
        }
        cut_part(self.region, aggregation.matches())
    }

    /// Returns, by axis, how many bounds of the matches that cut the region are strictly inside it.
    fn count_matches(&self, layout: &Layout, remaining: &Remaining<'_, '_>) -> [u64; AXES]
        requires { AllByRecursion HasEntries remaining.now }
    {
        let mut counts = [0; AXES];
        for index in 0..remaining.len() {
            let aggregation = remaining.at(index);
            if let Some(part) = self.part_taken(layout, aggregation) {
                count_bounds(&mut counts, self.region, &part);
            }
        }
        counts
    }

    /// Collects the bounds on an axis of the matches that cut the region that are strictly inside it.
    fn collect_matches(
        &self,
        values: &mut Vec<u128>,
        layout: &Layout,
        remaining: &Remaining<'_, '_>,
        axis: Axis,
    ) -> Result<(), AllocError>
        requires { AllByRecursion HasEntries remaining.now }
        ensures { let t = self.now.tables.now in
            let table = self.now.rows.now in
            let region = self.now.region.now in
            OnOk result ((at : ℕ) → Contains values.new.items at → by_cause.IsCauseInMatches t
            region table layout.now remaining.now (cause.Split axis at)) }
    {
        values.clear();
        for index in 0..remaining.len() {
            let aggregation = remaining.at(index);
            if let Some(part) = self.part_taken(layout, aggregation) {
                push_bounds(values, self.region, &part, axis)?;
            }
        }
        Ok(())
    }

    /// Returns the bound that halves those of the matches that cut the region, if one does.
    fn halving_among(
        &self,
        bounds: &mut CutBounds,
        layout: &Layout,
        remaining: &Remaining<'_, '_>,
    ) -> Result<Option<(Axis, u128)>, AllocError>
        requires { AllByRecursion HasEntries remaining.now }
        ensures { let t = self.now.tables.now in
            let table = self.now.rows.now in
            let region = self.now.region.now in
            IfOk result (λ o. IfSome o (λ s. by_cause.IsCauseInMatches t region table layout.now
            remaining.now (cause.Split s.0 s.1))) }
    {
        let axis = axis_with_most(&self.count_matches(layout, remaining));
        self.collect_matches(&mut bounds.values, layout, remaining, axis)?;
        match median(&mut bounds.values) {
            Some(at) => Ok(Some((axis, at))),
            None => Ok(None),
        }
    }

    /// Returns the bound that halves those of the matches that cut the region at the collecting process at this index,
    /// for records of the layout with this number, each 0-based.
    fn halving_at(
        &self,
        bounds: &mut CutBounds,
        process: usize,
        number: usize,
    ) -> Result<Option<(Axis, u128)>, AllocError>
        requires { by_table.AreTables self.now.tables.now }
        ensures { let t = self.now.tables.now in
            let table = self.now.rows.now in
            let region = self.now.region.now in
            IfOk result (λ o. IfSome o (λ s. by_cause.IsCauseAt t region table process number
            (cause.Split s.0 s.1))) }
    {
        let Some(layout) = self.tables.layouts().get(number) else {
            return Ok(None);
        };
        match self.tables.net().processes().get(process) {
            None => Ok(None),
            Some(found) => {
                let remaining = self.remaining(process, found);
                self.halving_among(bounds, layout, &remaining)
            }
        }
    }
}

impl PathReader<'_, '_> {
    /// Returns the match that cuts the region downstream of a selection process's cache.
    fn match_cut(&self, selection: &Selection) -> Option<MatchCut>
        requires tables { by_table.AreTables self.now.verdicts.tables.now }
        requires along { let t = self.now.verdicts.tables.now in
            reach.HoldsBehindSelection t.net t.numbering (reach.IsMarked self.now.marks.now)
            selection.now }
        ensures { let t = self.now.verdicts.tables.now in
            let region = self.now.verdicts.region.now in
            IfSome result (λ cut. (path : List of_crossing.Crossing)
            → splits.Meets t.net path selection.now → by_cause.IsCutBy t path region cut) }
    {
        let holder = selection.holder?;
        match selection_overlap(self.verdicts.region, &selection.region) {
            Overlap::Whole => self.middle_cut_behind_holder(holder),
            _ => None,
        }
    }

    /// Returns the match that cuts the region downstream of the first of these selection processes for which there is
    /// one.
    fn first_match_cut(&self, selections: &[PathSelection<'_>]) -> Option<MatchCut>
        requires tables { by_table.AreTables self.now.verdicts.tables.now }
        requires along { let t = self.now.verdicts.tables.now in
            (s : of_path.PathSelection) → Contains selections.now s
            → reach.HoldsBehindSelection t.net t.numbering (reach.IsMarked self.now.marks.now)
            s.selection }
        ensures { let t = self.now.verdicts.tables.now in
            let region = self.now.verdicts.region.now in
            IfSome result (λ cut. (path : List of_crossing.Crossing)
            → ((each : of_path.PathSelection) → Contains selections.now each
            → splits.Meets t.net path each.selection) → by_cause.IsCutBy t path region cut) }
    {
        for index in 0..selections.len() {
            let met = &selections[index];
            if let Some(cut) = self.match_cut(met.selection) {
                return Some(cut);
            }
        }
        None
    }

    /// Returns where to split a region that none of these selection processes cuts, and that is cut at `other`: at the
    /// middle one of the bounds of all matches that cut it at one collecting process, or at `other` if no match does.
    ///
    /// Fails if out of memory.
    pub(crate) fn halving_match(
        &self,
        bounds: &mut CutBounds,
        selections: &[PathSelection<'_>],
        other: (Axis, u128),
    ) -> Result<(Axis, u128), AllocError>
        requires tables { by_table.AreTables self.now.verdicts.tables.now }
        requires along { let t = self.now.verdicts.tables.now in
            (s : of_path.PathSelection) → Contains selections.now s
            → reach.HoldsBehindSelection t.net t.numbering (reach.IsMarked self.now.marks.now)
            s.selection }
        ensures { let net = self.now.verdicts.tables.now.net in
            let region = self.now.verdicts.region.now in
            IfOk result (λ s. (path : List of_crossing.Crossing)
            → ((each : of_path.PathSelection) → Contains selections.now each
            → splits.Meets net path each.selection)
            → splits.IsSplit net path region other.0 other.1
            → splits.IsSplit net path region s.0 s.1) }
    {
        let Some(cut) = self.first_match_cut(selections) else {
            return Ok(other);
        };
        match self.verdicts.halving_at(bounds, cut.process, cut.number)? {
            Some(split) => Ok(split),
            None => Ok(other),
        }
    }
}
