//! Splits of a region that is cut.
ghost use Rattle.std.specs.Prelude.{◌≡◌, ◌≤◌, ◌↔◌, ℕ, List, length, None, Err, IsSome, IfSome, IfNone};
ghost use Rattle.fx_base.specs.Fault.{fault_at};
ghost use Rattle.fx_base.specs.declared.fault.Place.TheVariants as places;
ghost use Rattle.fx_base.specs.Refusals.{cut_region};
ghost use Rattle.fx_boxes.specs.Boxes as boxes;
ghost use Rattle.fx_elements.specs.Axes as axes;
ghost use Rattle.fx_tables.specs.declared.traffic.Crossing as of_crossing;
ghost use Rattle.fx_leaf.specs.Answers as answers;
ghost use Rattle.fx_leaf.specs.Leaves as leaves;
ghost use Rattle.fx_leaf.specs.Causes as by_cause;
ghost use Rattle.fx_leaf.specs.Reach as reach;
ghost use Rattle.fx_leaf.specs.Splits as splits;
ghost use Rattle.fx_leaf.specs.Tables as by_table;
ghost use Rattle.fx_leaf.specs.Verdicts as verdicts;

use crate::bound::bound;
use crate::cause::Cause;
use crate::leaf::path_verdict;
use crate::path::PathReader;
use crate::regions::{Overlap, bounds_hold, selection_overlap};
use crate::table::Scratch;
use crate::tables::Tables;
use fx_boxes::Region;
use fx_elements::Axis;
use fx_tables::{Crossing, Selection};

/// A match that cuts a region.
#[derive(Clone, Copy)]
pub(crate) struct MatchCut {
    /// The 0-based index of its collecting process.
    pub(crate) process: usize,
    /// The 0-based number of the layout of the records that arrive there.
    pub(crate) number: usize,
    /// The axis of a bound of the match that is strictly inside the region.
    pub(crate) axis: Axis,
    /// That bound: the least value of the upper part.
    pub(crate) at: u128,
}

impl PathReader<'_, '_> {
    /// Returns the match that cuts the region downstream of a collecting process.
    pub(crate) fn cut_behind(&self, process: usize, number: usize) -> Option<MatchCut>
        requires tables { by_table.AreTables self.now.verdicts.tables.now }
        requires marked { reach.IsMarked self.now.marks.now process number }
        ensures some { let t = self.now.verdicts.tables.now in
            let region = self.now.verdicts.region.now in
            IfSome result (λ cut. (path : List of_crossing.Crossing)
            → by_cause.Starts t region path process number → by_cause.IsCutBy t path region cut) }
        ensures none { let t = self.now.verdicts.tables.now in
            let table = self.now.verdicts.rows.now in
            IfNone result (by_cause.HasNoVerdict t table process number → ⊥) }
    {
        let mut index = process;
        let mut layout = number;
        for _step in 0..self.verdicts.tables.net().processes().len() {
            match self.verdicts.cause_at(index, layout) {
                None => return None,
                Some(Cause::Split(axis, at)) => {
                    return Some(MatchCut {
                        process: index,
                        number: layout,
                        axis,
                        at,
                    });
                }
                Some(Cause::Behind(next, its)) => {
                    index = next;
                    layout = its;
                }
            }
        }
        None
    }

    /// Returns the match that cuts the region downstream of a cache.
    fn cut_behind_holder(&self, holder: usize) -> Option<MatchCut>
        requires tables { by_table.AreTables self.now.verdicts.tables.now }
        requires along { let t = self.now.verdicts.tables.now in
            reach.HoldsBehindHolder t.net t.numbering (reach.IsMarked self.now.marks.now) holder }
        ensures some { let t = self.now.verdicts.tables.now in
            let region = self.now.verdicts.region.now in
            IfSome result (λ cut. (path : List of_crossing.Crossing)
            → splits.HeldAlong t.net path region holder → by_cause.IsCutBy t path region cut) }
        ensures none { let net = self.now.verdicts.tables.now.net in
            let region = self.now.verdicts.region.now in
            IfNone result (verdicts.holder_verdict (verdicts.verdict net region) net holder ≡ None
            → ⊥) }
    {
        match self.verdicts.cause_by_holder(holder) {
            None => None,
            Some(Cause::Split(_, _)) => None,
            Some(Cause::Behind(process, number)) => self.cut_behind(process, number),
        }
    }

    /// Returns where a selection process, or what cuts the region downstream of its cache, splits it.
    fn split_at(&self, selection: &Selection) -> Option<(Axis, u128)>
        requires tables { by_table.AreTables self.now.verdicts.tables.now }
        requires along { let t = self.now.verdicts.tables.now in
            reach.HoldsBehindSelection t.net t.numbering (reach.IsMarked self.now.marks.now)
            selection.now }
        ensures some { let net = self.now.verdicts.tables.now.net in
            let region = self.now.verdicts.region.now in
            IfSome result (λ s. (path : List of_crossing.Crossing)
            → splits.Meets net path selection.now → splits.IsSplit net path region s.0 s.1) }
        ensures none { let net = self.now.verdicts.tables.now.net in
            let region = self.now.verdicts.region.now in
            IfNone result ((crossing point process : ℕ)
            → splits.joint_verdict (verdicts.selection_verdicts
            (verdicts.verdict net region) net region crossing point process selection.now.region
            selection.now.holder) ≡ None → ⊥) }
    {
        let Some(holder) = selection.holder else {
            return None;
        };
        match selection_overlap(self.verdicts.region, &selection.region) {
            Overlap::Whole => match self.cut_behind_holder(holder) {
                None => None,
                Some(cut) => Some((cut.axis, cut.at)),
            },
            Overlap::Nothing => None,
            Overlap::Part => match &selection.region {
                None => None,
                Some(other) => bound(self.verdicts.region, other),
            },
        }
    }

    /// Returns a bound of what cuts the region there, given that there is no verdict.
    pub(crate) fn bound_at(&self, selection: &Selection) -> (Axis, u128)
        requires tables { by_table.AreTables self.now.verdicts.tables.now }
        requires along { let t = self.now.verdicts.tables.now in
            reach.HoldsBehindSelection t.net t.numbering (reach.IsMarked self.now.marks.now)
            selection.now }
        requires cut { let net = self.now.verdicts.tables.now.net in
            let region = self.now.verdicts.region.now in
            (crossing point process : ℕ)
            → splits.joint_verdict (verdicts.selection_verdicts
            (verdicts.verdict net region) net region crossing point process selection.now.region
            selection.now.holder) ≡ None }
        ensures { let net = self.now.verdicts.tables.now.net in
            let region = self.now.verdicts.region.now in
            (path : List of_crossing.Crossing) → splits.Meets net path selection.now
            → splits.IsSplit net path region result.0 result.1 }
    {
        match self.split_at(selection) {
            Some(split) => split,
            None => unreachable!(),
        }
    }
}

/// Returns where to split a region that is cut on a path: into the values of the axis below this one, and those from it
/// on. It is strictly inside the region, and a bound of what cuts it: a low, or one above a high, of the region of a
/// selection process, or of the match of an aggregation that records of the packets reach. Returns None exactly if
/// `fate` doesn't fail with 406. It allocates nothing.
pub fn cut(
    scratch: &mut Scratch,
    tables: &Tables<'_>,
    path: &[Crossing],
    region: &Region,
) -> Option<(Axis, u128)>
    requires tables { by_table.AreTables tables.now }
    requires room { length tables.now.net.processes ≤ length scratch.old }
    // There is a split exactly if `fate` fails with 406, and so if something cuts the region.
    ensures exact { IsSome result ↔ (leaves.path_leaf tables.now.net path.now region.now
        ≡ Err (fault_at cut_region places.None)) }
    ensures cuts { IsSome result ↔ (answers.NothingCuts tables.now.net path.now region.now → ⊥) }
    ensures inside { IfSome result (λ s. boxes.IsStrictlyInside region.now
        (axes.axis_index s.0) s.1) }
    ensures bound { IfSome result (λ s. splits.IsSplit tables.now.net path.now region.now s.0 s.1) }
    ensures size { length scratch.new ≡ length scratch.old }
{
    // Only for the prover: the bounds of a region hold.
    bounds_hold(region);
    path_verdict(scratch, tables, path, region).err()
}
