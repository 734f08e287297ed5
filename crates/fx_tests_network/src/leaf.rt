//! How fates are joined, and how much of a region is selected or matches.
use crate::meters::sources;
use fx_elements::Axis;
use fx_leaf::{
    Fate, Overlap, conservation, exactly_once, fates_along_ranks, match_overlap, overlap_verdict,
    region_overlap, selection_overlap, verdict_of_both, verdict_of_either, verdicts_judge_regions,
};
use fx_tables::MatchEntry;
use std::process::Abort;

#[test]
fn the_laws() {
    fates_along_ranks();
    conservation();
    exactly_once();
    verdicts_judge_regions();
}

#[test]
fn joins_fates(rt: HostRuntime) {
    assert!(rt;
        (Fate::Once.both(Fate::Once) == Fate::Many)
            & (Fate::Once.both(Fate::Never) == Fate::Once)
            & (Fate::Once.either(Fate::Never) == Fate::Differing)
            & verdict_of_both(Some(Fate::Never), None).is_none()
            & (overlap_verdict(Overlap::Nothing, Some(Fate::Once)) == Some(Fate::Never))
            & (verdict_of_either(Some(Fate::Once), Some(Fate::Once)) == Some(Fate::Once))
    );
}

/// Returns whether this much of the sources in a range is below 128.0.0.0.
fn is_below(rt: &impl Abort, low: u128, high: u128, expected: Overlap) -> bool {
    let region = sources(rt, low, high);
    let half = sources(rt, 0, 0x7fff_ffff);
    (region_overlap(&region, &half) == expected)
        & (selection_overlap(&region, &Some(half)) == expected)
}

#[test]
fn overlaps_with_selections(rt: HostRuntime) {
    let half = sources(&rt, 0, 0x7fff_ffff);
    assert!(rt;
        is_below(&rt, 5, 6, Overlap::Whole)
            & is_below(&rt, 0x7fff_ffff, 0x8000_0000, Overlap::Part)
            & is_below(&rt, 0x8000_0000, 0x8000_0001, Overlap::Nothing)
            & (selection_overlap(&half, &None) == Overlap::Nothing)
    );
}

/// The match of the sources from 10.1.2.0/24.
const MATCH: [MatchEntry; 1] = [MatchEntry {
    axis: Axis::Source,
    bits: 24,
    value: 0x0a_0102,
}];

#[test]
fn overlaps_with_matches(rt: HostRuntime) {
    let inside = sources(&rt, 0x0a01_0200, 0x0a01_02ff);
    let across = sources(&rt, 0x0a01_0200, 0x0a01_0300);
    assert!(rt;
        (match_overlap(&inside, &MATCH) == Overlap::Whole)
            & (match_overlap(&across, &MATCH) == Overlap::Part)
    );
}
