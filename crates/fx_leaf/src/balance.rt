//! The split that halves what cuts a region.
ghost use Rattle.std.specs.Prelude.{◌≡◌, ◌⊎◌, ◌<◌, ℕ, List, Some, Contains, length, slice_index_or, IfOk, IfSome, OnOk};
ghost use Rattle.fx_tables.specs.Network.{Net};
ghost use Rattle.fx_tables.specs.declared.traffic.Crossing.{Crossing};
ghost use Rattle.fx_leaf.specs.PathSelections as of_path;
ghost use Rattle.fx_leaf.specs.Splits as splits;

use crate::path_selections::PathSelection;
use crate::regions::bounds_hold;
use fx_boxes::Region;
use fx_elements::{AXES, Axis, EVERY_AXIS};
use std::alloc::{AllocError, Global};

/// An axis is chosen by at most this many selection processes, and at least half as many if there are enough.
const SAMPLE: usize = 32;

/// Room for the bounds on one axis that cut a region.
#[derive(Debug, Drop)]
pub struct CutBounds {
    pub(crate) values: Vec<u128>,
}

impl CutBounds {
    /// Returns room that is empty.
    pub fn new(alloc: Global) -> CutBounds {
        CutBounds {
            values: Vec::new(alloc),
        }
    }
}

/// Returns the least value of the other region on an axis, if it is strictly inside the region.
fn low_bound(region: &Region, other: &Region, axis: Axis) -> Option<u128>
    ensures { IfSome result (λ at. splits.IsSplitBy region.now other.now axis at) }
{
    let at = other.corner().get(axis);
    if region.can_split(axis, at) {
        Some(at)
    } else {
        None
    }
}

/// Returns one above the greatest value of the other region on an axis, if it is strictly inside the region.
fn high_bound(region: &Region, other: &Region, axis: Axis) -> Option<u128>
    ensures { IfSome result (λ at. splits.IsSplitBy region.now other.now axis at) }
{
    let at = other.far_corner().get(axis).checked_add(1)?;
    if region.can_split(axis, at) {
        Some(at)
    } else {
        None
    }
}

/// Adds, by axis, the number of bounds of the other region, which overlaps the region, that are strictly inside the
/// region.
pub(crate) fn count_bounds(counts: &mut [u64; AXES], region: &Region, other: &Region) {
    let least = region.corner();
    let most = region.far_corner();
    let low = other.corner();
    let high = other.far_corner();
    for k in 0..AXES {
        let bounds = u64::from(least.value_at(k) < low.value_at(k))
            + u64::from(high.value_at(k) < most.value_at(k));
        counts[k] = counts[k].saturating_add(bounds);
    }
}

/// Counts, by axis, the bounds of selection processes that overlap the region that are strictly inside it, looking at
/// `many` at most and at every `step`th.
fn count_by_axis(
    selections: &[PathSelection<'_>],
    region: &Region,
    many: usize,
    step: usize,
) -> [u64; AXES] {
    let mut counts = [0; AXES];
    for k in 0..many {
        if let Some(met) = selections.get(k.saturating_mul(step)) {
            if let Some(other) = &met.selection.region {
                count_bounds(&mut counts, region, other);
            }
        }
    }
    counts
}

/// Returns the axis with the greatest count, the first of them if there are several.
pub(crate) fn axis_with_most(counts: &[u64; AXES]) -> Axis {
    let mut most = Axis::Source;
    for axis in EVERY_AXIS {
        if counts[axis.index()] > counts[most.index()] {
            most = axis;
        }
    }
    most
}

/// Returns the axis on which most bounds of these selection processes, which overlap the region, are strictly inside
/// it, by a sample of them, or by all of them if the sample has no such bounds.
fn axis_to_split(selections: &[PathSelection<'_>], region: &Region) -> Axis {
    let step = selections.len() / SAMPLE + 1;
    let counts = count_by_axis(selections, region, SAMPLE, step);
    let axis = axis_with_most(&counts);
    if counts[axis.index()] != 0 {
        return axis;
    }
    axis_with_most(&count_by_axis(selections, region, selections.len(), 1))
}

/// Adds a bound, if there is one.
fn push_bound(values: &mut Vec<u128>, bound: Option<u128>) -> Result<(), AllocError>
    ensures { OnOk result ((at : ℕ) → Contains values.new.items at
        → Contains values.old.items at ⊎ (bound ≡ Some at)) }
{
    if let Some(at) = bound {
        values.push(at)?;
    }
    Ok(())
}

/// Adds the bounds of the other region on an axis that are strictly inside the region.
pub(crate) fn push_bounds(
    values: &mut Vec<u128>,
    region: &Region,
    other: &Region,
    axis: Axis,
) -> Result<(), AllocError>
    ensures { OnOk result ((at : ℕ) → Contains values.new.items at
        → Contains values.old.items at ⊎ splits.IsSplitBy region.now other.now axis at) }
{
    push_bound(values, low_bound(region, other, axis))?;
    push_bound(values, high_bound(region, other, axis))
}

/// Collects the bounds on an axis of these selection processes, none of which is apart from the region, that are
/// strictly inside it.
fn collect_bounds(
    values: &mut Vec<u128>,
    selections: &[PathSelection<'_>],
    region: &Region,
    axis: Axis,
) -> Result<(), AllocError>
    requires { (k : ℕ) (d : of_path.PathSelection) → k < length selections.now
        → of_path.IsApart region.now (slice_index_or selections.now k d).selection → ⊥ }
    ensures { OnOk result ((net : Net) (path : List Crossing) (at : ℕ)
        → ((s : of_path.PathSelection) → Contains selections.now s
        → splits.Meets net path s.selection)
        → Contains values.new.items at → splits.IsSplit net path region.now axis at) }
{
    // Only for the prover: the bounds of a region hold.
    bounds_hold(region);
    values.clear();
    for index in 0..selections.len() {
        let met = &selections[index];
        if let Some(other) = &met.selection.region {
            push_bounds(values, region, other, axis)?;
        }
    }
    Ok(())
}

/// Returns the middle value in ascending order, if there are any values.
pub(crate) fn median(values: &mut [u128]) -> Option<u128>
    ensures { IfSome result (Contains values.old) }
{
    values.sort_unstable();
    values.get(values.len() / 2).copied()
}

/// Returns the bound that halves the bounds of these selection processes, none of which is apart from the region: the
/// middle one on the axis that has the most, or none if none of them cuts the region.
///
/// Fails if out of memory.
pub(crate) fn halving_selections(
    bounds: &mut CutBounds,
    selections: &[PathSelection<'_>],
    region: &Region,
) -> Result<Option<(Axis, u128)>, AllocError>
    requires { (k : ℕ) (d : of_path.PathSelection) → k < length selections.now
        → of_path.IsApart region.now (slice_index_or selections.now k d).selection → ⊥ }
    ensures { IfOk result (λ o. IfSome o (λ s. (net : Net) (path : List Crossing)
        → ((each : of_path.PathSelection) → Contains selections.now each
        → splits.Meets net path each.selection)
        → splits.IsSplit net path region.now s.0 s.1)) }
{
    let axis = axis_to_split(selections, region);
    collect_bounds(&mut bounds.values, selections, region, axis)?;
    match median(&mut bounds.values) {
        Some(at) => Ok(Some((axis, at))),
        None => Ok(None),
    }
}
