//! Lists in a declaration of traffic.
ghost use Rattle.std.specs.Prelude.{ℕ, List, map};
ghost use Rattle.serde_json.specs.Data.{Data};
ghost use Rattle.serde_json.specs.View.{view};
ghost use Rattle.fx_walk.specs.Lists.{items_faults, items_of};
ghost use Rattle.fx_walk.specs.Pointer.{pointer};
ghost use Rattle.fx_walk.specs.Walk.{FoundFault, Reads};
ghost use Rattle.fx_traffic.specs.Lists.{list_faults};

use fx_base::{Fault, refusals};
use fx_walk::{DocumentPath, Named, Sequence, items_by};
use serde_json::Value;
use std::alloc::Global;

/// A type that can be read from a value that names devices.
pub trait FromValueAmong: Drop {
    /// The faults of a value at a pointer, given the names of the devices.
    ghost faults: { List (List ℕ) → List ℕ → Data → List FoundFault };

    /// What a value without faults means, given the names of the devices.
    ghost meaning: { List (List ℕ) → Data → Self };

    /// Reads the value at the path, or fails with its first fault.
    fn from_value_among<D: Named>(
        alloc: Global,
        path: &DocumentPath<'_>,
        value: &Value,
        devices: &[D],
    ) -> Result<Self, Fault>
        ensures { let names = map D.name devices.now in
            Reads (faults names (pointer path.now) (view value.now))
            (meaning names (view value.now)) result };
}

/// Reads the items of the list at the path, in order.
fn values_among<T: FromValueAmong, D: Named>(
    alloc: Global,
    path: &DocumentPath<'_>,
    items: &[Value],
    devices: &[D],
) -> Result<Sequence<T>, Fault>
    ensures { let names = map D.name devices.now in
        let faults = items_faults (T.faults names) (pointer path.now) 0 (map view items.now) in
        Reads faults (map (T.meaning names) (map view items.now)) result }
{
    let mut values = Vec::new(alloc);
    let mut index = 0;
    for item in items {
        let path = DocumentPath::Item(&*path, index);
        values.push(T::from_value_among(alloc, &path, item, devices)?)?;
        index += 1;
    }
    Ok(Sequence::from_vec(values))
}

/// Reads a list of `least` to `most` items. Fails with 104, 305 and 304 as for any list, or with the first fault of its
/// items.
pub fn list_among<T: FromValueAmong, D: Named>(
    alloc: Global,
    path: &DocumentPath<'_>,
    value: &Value,
    least: usize,
    most: usize,
    devices: &[D],
) -> Result<Sequence<T>, Fault>
    ensures { let names = map D.name devices.now in
        let faults = list_faults least most (λ up ds. items_faults (T.faults names) up 0 ds) in
        let meaning = map (T.meaning names) (items_of (view value.now)) in
        Reads (faults (pointer path.now) (view value.now)) meaning result }
{
    let items = items_by(
        alloc,
        path,
        value,
        least,
        most,
        refusals::NO_PATH,
        refusals::TOO_MUCH_TRAFFIC,
    )?;
    values_among(alloc, path, items, devices)
}
