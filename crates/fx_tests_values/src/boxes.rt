//! Regions that are split, intersected and searched for fields.
use fx_boxes::{Fields, Region};
use fx_elements::Axis;

/// Returns whether a region and a part of it intersect within that part.
fn meet(whole: &Region, part: &Region) -> bool {
    match whole.meet(part) {
        Some(both) => both.inside(part),
        None => false,
    }
}

/// Returns whether two parts of a region are inside it and disjoint.
fn are_parts(below: &Region, above: &Region, whole: &Region) -> bool {
    below.inside(whole)
        & above.inside(whole)
        & !whole.inside(below)
        & below.disjoint(above)
        & !below.disjoint(whole)
        & below.meet(above).is_none()
        & meet(whole, above)
}

/// Returns whether the corners of two parts are on either side of the middle of the source addresses.
fn are_halves(below: &Region, above: &Region) -> bool {
    let corner = above.corner();
    (corner.get(Axis::Source) == 0x8000_0000)
        & above.holds(&corner)
        & !below.holds(&corner)
        & (below.far_corner().get(Axis::Source) == 0x7fff_ffff)
}

/// Returns the parts of a region that is split in place, if both are there.
fn parts(region: &Region, axis: Axis, at: u128) -> Option<(Region, Region)> {
    if !region.can_split(axis, at) {
        return None;
    }
    let mut below = *region;
    let above = below.split_off(axis, at);
    Some((below, above))
}

/// Returns whether a region is split at the middle of the source addresses, also in place.
fn is_split(whole: &Region) -> bool {
    let (axis, at) = (Axis::Source, 0x8000_0000);
    let Some((below, above)) = whole.split(axis, at) else {
        return false;
    };
    are_parts(&below, &above, whole)
        & are_halves(&below, &above)
        & (parts(whole, axis, at) == Some((below, above)))
}

/// Returns whether a region isn't split at this protocol.
fn is_kept(whole: &Region, at: u128) -> bool {
    whole.split(Axis::Protocol, at).is_none() & !whole.can_split(Axis::Protocol, at)
}

#[test]
fn splits_and_meets(rt: HostRuntime) {
    let whole = Region::whole();
    assert!(rt; is_split(&whole) & is_kept(&whole, 0) & is_kept(&whole, 256));
}

/// The least fields in 10.0.0.0/8.
const LOW: [u128; 9] = [0x0a00_0000, 0, 0, 0, 0, 0, 0, 0, 0];

/// The greatest fields in 10.0.0.0/8.
const HIGH: [u128; 9] = [
    0x0aff_ffff,
    0xffff_ffff,
    255,
    65535,
    65535,
    255,
    255,
    u128::MAX,
    u128::MAX,
];

/// Fields after 10.0.0.0/8.
const BEHIND: [u128; 9] = [0x0b00_0000, 0, 0, 0, 0, 0, 0, 0, 0];

/// Returns whether the region between two fields contains both, and not the fields after it.
fn is_bounded(low: &Fields, high: &Fields, behind: &Fields) -> bool {
    match Region::between(low, high) {
        Some(region) => region.holds(low) & region.holds(high) & !region.holds(behind),
        None => false,
    }
}

#[test]
fn bounds_a_region(rt: HostRuntime) {
    let (low, high, behind) = (Fields::of(LOW), Fields::of(HIGH), Fields::of(BEHIND));
    assert!(rt; is_bounded(&low, &high, &behind) & Region::between(&high, &low).is_none());
}

#[test]
fn holds_values_that_fit(rt: HostRuntime) {
    let low = Fields::of(LOW);
    assert!(rt;
        (low.value_at(0) == 0x0a00_0000)
            & (Fields::new(LOW) == Some(low))
            & Fields::new([0, 0, 256, 0, 0, 0, 0, 0, 0]).is_none()
            & (Fields::of([0; 9]).get(Axis::DestinationPort) == 0)
    );
}
