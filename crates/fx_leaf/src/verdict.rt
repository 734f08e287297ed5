//! Fates of packets, and verdicts on regions of packets.
ghost use Rattle.std.specs.Prelude.{◌≡◌};
ghost use Rattle.fx_leaf.specs.Fates as fates;
ghost use Rattle.fx_leaf.specs.Verdicts as verdicts;

use crate::regions::Overlap;

/// How often a packet, or a record with some key, is counted.
#[derive(Clone, Copy, Debug, PartialEq, Eq)]
pub enum Fate {
    /// It isn't counted.
    Never,
    /// It is counted once.
    Once,
    /// It is counted more than once.
    Many,
    /// How often depends on the chosen destinations.
    Differing,
    /// It can reach the report with a layout that doesn't refine the report's.
    Unassigned,
}

impl Fate {
    /// Returns the fate if both happen.
    pub fn both(self, other: Fate) -> Fate
        ensures { result ≡ fates.both self other }
    {
        match (self, other) {
            (Fate::Unassigned, _) | (_, Fate::Unassigned) => Fate::Unassigned,
            (Fate::Differing, _) | (_, Fate::Differing) => Fate::Differing,
            (Fate::Many, _) | (_, Fate::Many) | (Fate::Once, Fate::Once) => Fate::Many,
            (Fate::Never, fate) | (fate, Fate::Never) => fate,
        }
    }

    /// Returns the fate if one of the two happens.
    pub fn either(self, other: Fate) -> Fate
        ensures { result ≡ fates.either self other }
    {
        match (self, other) {
            (Fate::Unassigned, _) | (_, Fate::Unassigned) => Fate::Unassigned,
            (Fate::Never, Fate::Never) => Fate::Never,
            (Fate::Once, Fate::Once) => Fate::Once,
            (Fate::Many, Fate::Many) => Fate::Many,
            (_, _) => Fate::Differing,
        }
    }
}

/// Returns the verdict if both happen: none if either is cut.
pub fn verdict_of_both(one: Option<Fate>, other: Option<Fate>) -> Option<Fate>
    ensures { result ≡ verdicts.verdict_of_both one other }
{
    let one = one?;
    let other = other?;
    Some(one.both(other))
}

/// Returns the verdict if one of the two happens: none if either is cut.
pub fn verdict_of_either(one: Option<Fate>, other: Option<Fate>) -> Option<Fate>
    ensures { result ≡ verdicts.verdict_of_either one other }
{
    let one = one?;
    let other = other?;
    Some(one.either(other))
}

/// Returns the verdict on what happens if a test passes, by how much of a region passes it: none if it cuts the region.
pub fn overlap_verdict(overlap: Overlap, verdict: Option<Fate>) -> Option<Fate>
    ensures { result ≡ verdicts.overlap_verdict overlap verdict }
{
    match overlap {
        Overlap::Whole => verdict,
        Overlap::Nothing => Some(Fate::Never),
        Overlap::Part => None,
    }
}
