//! A meter at one interface, and the packets that enter it.
ghost use Rattle.std.specs.Prelude.{◌≡◌, All, [], ◌∷◌, Some};

use fx_base::{Fault, Name};
use fx_boxes::{Fields, Region};
use fx_elements::TOPS;
use fx_tables::{Crossing, DeviceEntry, Point, Selection};
use std::alloc::Global;
use std::process::Abort;

/// Returns the packets with sources in a range.
pub(crate) fn sources(rt: &impl Abort, low: u128, high: u128) -> Region {
    let low = Fields::new([low, 0, 0, 0, 0, 0, 0, 0, 0]).expect(rt, "low");
    let mut highs = TOPS;
    highs[0] = high;
    let high = Fields::new(highs).expect(rt, "high");
    Region::between(&low, &high).expect(rt, "a region")
}

/// Returns the interface `eth0`.
fn eth0(rt: &impl Abort, alloc: Global) -> Name {
    Name::read(alloc, "eth0").expect(rt, "a name")
}

/// Returns the point at `eth0` that selects the packets of a region into the cache at this index, either incoming and
/// outgoing ones, or only incoming ones.
fn point(rt: &impl Abort, alloc: Global, region: Region, cache: usize, outwards: bool) -> Point
    ensures { All (λ s. s.holder ≡ Some cache) result.selections }
{
    let selection = Selection {
        region: Some(region),
        holder: Some(cache),
    };
    let names = vec![in alloc; eth0(rt, alloc)].expect(rt, "memory");
    let selections = vec![in alloc; selection].expect(rt, "memory");
    Point::new(names, true, outwards, selections)
}

/// Returns a meter with only that point and that cache.
pub(crate) fn meter(
    rt: &impl Abort,
    alloc: Global,
    region: Region,
    cache: usize,
    outwards: bool,
) -> DeviceEntry
    ensures caches { result.caches ≡ cache ∷ [] }
    ensures points { All (λ p. All (λ s. s.holder ≡ Some cache) p.selections) result.points }
{
    let point = point(rt, alloc, region, cache, outwards);
    let points = vec![in alloc; point].expect(rt, "memory");
    let caches = vec![in alloc; cache].expect(rt, "memory");
    DeviceEntry::new(points, caches, Vec::new(alloc))
}

/// Returns the crossing into the meter that is the device with this number.
pub(crate) fn into(rt: &impl Abort, alloc: Global, device: u64) -> Crossing {
    Crossing {
        device,
        interface: eth0(rt, alloc),
        inwards: true,
    }
}

/// Returns the value, or the number of the fault, which is 0 if the fault has a place.
pub(crate) fn bare<T>(answer: Result<T, Fault>) -> Result<T, u16> {
    match answer {
        Ok(value) => Ok(value),
        Err(fault) => Err(if fault == Fault::bare(fault.number) {
            fault.number
        } else {
            0
        }),
    }
}

/// Returns the answer of both, or fails with 0 if they differ.
pub(crate) fn agreed<T: PartialEq + Drop>(
    one: Result<T, Fault>,
    other: Result<T, Fault>,
) -> Result<T, u16> {
    let one = bare(one);
    if one == bare(other) { one } else { Err(0) }
}
