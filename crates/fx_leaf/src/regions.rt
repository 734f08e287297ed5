//! How much of a region of packets passes a test: all of it, none, or only a part.
ghost use Rattle.std.specs.Prelude.{◌≡◌, ◌≤◌, ◌<◌, ◌↔◌, ◌^◌, ◌-◌, ℕ, List, true, false, slice_index, IfSome, IfNone};
ghost use Rattle.std.specs.List.{AllByRecursion};
ghost use Rattle.fx_boxes.specs.Boxes as boxes;
ghost use Rattle.fx_elements.specs.Axes as axes;
ghost use Rattle.fx_tables.specs.Matches.{IsEntry};
ghost use Rattle.fx_leaf.specs.SoundLeaves as leaves;
ghost use Rattle.fx_leaf.specs.Overlaps as overlaps;

use fx_boxes::Region;
use fx_elements::{Axis, top, width};
use fx_tables::MatchEntry;

/// How much of a region is in another, or passes a test.
#[derive(Clone, Copy, Debug, PartialEq, Eq)]
pub enum Overlap {
    /// All fields of the region.
    Whole,
    /// Some fields of the region, and not all: the other region, or the test, cuts it.
    Part,
    /// No fields of the region.
    Nothing,
}

/// Does nothing; called for the prover only. No low of the region is above its high, by the invariant of its type.
pub(crate) fn bounds_hold(region: &Region)
    ensures { boxes.IsRegion region.now }
{
    // Only for the prover: `far_corner` says it of the region.
    let _greatest = region.far_corner();
}

/// Returns how much of the region is also in the other.
pub fn region_overlap(region: &Region, other: &Region) -> Overlap
    ensures { result ≡ overlaps.region_overlap region.now other.now }
{
    // Only for the prover: the bounds of a region hold.
    bounds_hold(region);
    if region.inside(other) {
        Overlap::Whole
    } else if region.disjoint(other) {
        Overlap::Nothing
    } else {
        Overlap::Part
    }
}

/// Returns how much of the region is selected by a selection process that selects the fields of another region, or
/// none.
pub fn selection_overlap(region: &Region, selected: &Option<Region>) -> Overlap
    ensures { result ≡ overlaps.selection_overlap region.now selected.now }
{
    match selected {
        None => Overlap::Nothing,
        Some(other) => region_overlap(region, other),
    }
}

/// Returns the fields of the region whose value on the axis is this or more, if there are any.
fn part_from(region: &Region, axis: Axis, least: u128) -> Option<Region>
    ensures some { IfSome result (λ r. (f : List ℕ)
        → boxes.Holds r f ↔ (boxes.Holds region.now f
        × (least ≤ slice_index f (axes.axis_index axis)))) }
    ensures none { IfNone result ((f : List ℕ) → boxes.Holds region.now f
        → slice_index f (axes.axis_index axis) < least) }
{
    if let Some(parts) = region.split(axis, least) {
        return Some(parts.1);
    }
    if least <= region.corner().get(axis) {
        Some(*region)
    } else {
        None
    }
}

/// Returns the fields of the region whose value on the axis is this or less, if there are any.
fn part_up_to(region: &Region, axis: Axis, most: u128) -> Option<Region>
    ensures some { IfSome result (λ r. (f : List ℕ)
        → boxes.Holds r f ↔ (boxes.Holds region.now f
        × (slice_index f (axes.axis_index axis) ≤ most))) }
    ensures none { IfNone result ((f : List ℕ) → boxes.Holds region.now f
        → most < slice_index f (axes.axis_index axis)) }
{
    if region.far_corner().get(axis) <= most {
        return Some(*region);
    }
    match region.split(axis, most + 1) {
        Some(parts) => Some(parts.0),
        None => None,
    }
}

/// Returns how many values of its axis begin with the bits of an entry, which has at least one bit.
fn span(entry: MatchEntry) -> u128
    requires entry { IsEntry entry }
    requires some { 0 < entry.bits }
    ensures { result ≡ 2 ^ (axes.axis_width entry.axis - entry.bits) }
{
    1 << (width(entry.axis) - entry.bits)
}

/// Returns the least value that begins with the bits of an entry.
fn least_of(entry: MatchEntry) -> u128
    requires { IsEntry entry }
    ensures { result ≡ overlaps.entry_low entry }
{
    if entry.bits == 0 {
        return 0;
    }
    entry.value * span(entry)
}

/// Returns the greatest value that begins with the bits of an entry.
fn most_of(entry: MatchEntry) -> u128
    requires { IsEntry entry }
    ensures { result ≡ overlaps.entry_high entry }
{
    if entry.bits == 0 {
        return top(entry.axis);
    }
    least_of(entry) + (span(entry) - 1)
}

/// Returns the fields of the region that begin with the bits of an entry, if there are any.
fn entry_part(region: &Region, entry: MatchEntry) -> Option<Region>
    requires { IsEntry entry }
    ensures some { IfSome result (λ r. (f : List ℕ)
        → boxes.Holds r f ↔ (boxes.Holds region.now f × (overlaps.begins_with entry f ≡ true))) }
    ensures none { IfNone result ((f : List ℕ) → boxes.Holds region.now f
        → overlaps.begins_with entry f ≡ false) }
{
    match part_from(region, entry.axis, least_of(entry)) {
        None => None,
        Some(above) => part_up_to(&above, entry.axis, most_of(entry)),
    }
}

/// Returns the fields of the region for which all entries hold, if there are any.
pub(crate) fn match_part(region: &Region, entries: &[MatchEntry]) -> Option<Region>
    requires { AllByRecursion IsEntry entries.now }
    ensures some { IfSome result (λ r. (f : List ℕ)
        → boxes.Holds r f ↔ (boxes.Holds region.now f × (leaves.matches_packet entries.now f
        ≡ true))) }
    ensures none { IfNone result ((f : List ℕ) → boxes.Holds region.now f
        → leaves.matches_packet entries.now f ≡ false) }
{
    match entries {
        [] => Some(*region),
        [entry, rest @ ..] => match entry_part(region, *entry) {
            None => None,
            Some(left) => match_part(&left, rest),
        },
    }
}

/// Returns how much of the region a match holds for, all of its entries together.
pub fn match_overlap(region: &Region, entries: &[MatchEntry]) -> Overlap
    requires { AllByRecursion IsEntry entries.now }
    ensures { result ≡ overlaps.region_overlap region.now (overlaps.match_fields entries.now) }
{
    // Only for the prover: the bounds of a region hold.
    bounds_hold(region);
    match match_part(region, entries) {
        None => Overlap::Nothing,
        Some(left) => region_overlap(region, &left),
    }
}
