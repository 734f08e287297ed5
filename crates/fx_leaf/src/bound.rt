//! Bounds at which a region may be split.
ghost use Rattle.std.specs.Prelude.{◌≡◌, IfSome, IfNone};
ghost use Rattle.std.specs.List.{AllByRecursion};
ghost use Rattle.fx_tables.specs.Matches.{IsEntry};
ghost use Rattle.fx_leaf.specs.Splits as splits;
ghost use Rattle.fx_leaf.specs.Overlaps as overlaps;
ghost use Rattle.fx_leaf.specs.declared.regions.Overlap.TheVariants as overlap;

use crate::regions::{bounds_hold, match_part};
use fx_boxes::Region;
use fx_elements::{Axis, EVERY_AXIS};
use fx_tables::MatchEntry;

/// Returns a bound of the other region on this axis that is strictly inside the region.
fn bound_on(region: &Region, other: &Region, axis: Axis) -> Option<u128>
    ensures some { IfSome result (λ at. splits.IsSplitBy region.now other.now axis at) }
    ensures none { IfNone result (splits.NoSplitBy region.now other.now axis) }
{
    let least = region.corner().get(axis);
    let most = region.far_corner().get(axis);
    let low = other.corner().get(axis);
    let high = other.far_corner().get(axis);
    if least < low && low <= most {
        Some(low)
    } else if least <= high && high < most {
        Some(high + 1)
    } else {
        None
    }
}

/// Returns a bound of the other region, if it cuts the region.
pub(crate) fn bound(region: &Region, other: &Region) -> Option<(Axis, u128)>
    ensures some { IfSome result (λ s. splits.IsSplitBy region.now other.now s.0 s.1) }
    ensures none { IfNone result (overlaps.region_overlap region.now other.now ≡ overlap.Part → ⊥) }
{
    for axis in EVERY_AXIS {
        if let Some(at) = bound_on(region, other, axis) {
            return Some((axis, at));
        }
    }
    None
}

/// Returns a bound of a match, which all of its entries make together, if it cuts the region.
pub(crate) fn bound_of_match(region: &Region, entries: &[MatchEntry]) -> Option<(Axis, u128)>
    requires { AllByRecursion IsEntry entries.now }
    ensures some { IfSome result (λ s. splits.IsSplitBy region.now
        (overlaps.match_fields entries.now) s.0 s.1) }
    ensures none { IfNone result (overlaps.region_overlap region.now
        (overlaps.match_fields entries.now) ≡ overlap.Part → ⊥) }
{
    // Only for the prover: the bounds of a region hold.
    bounds_hold(region);
    match match_part(region, entries) {
        None => None,
        Some(left) => {
            // Only for the prover: both ends of what is left are in it.
            let _ends = (left.corner(), left.far_corner());
            bound(region, &left)
        }
    }
}
