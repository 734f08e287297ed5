//! The paths that the packets of a class take.
ghost use Rattle.std.specs.Prelude.{map};
ghost use Rattle.serde_json.specs.View.{view};
ghost use Rattle.fx_walk.specs.Pointer.{pointer};
ghost use Rattle.fx_walk.specs.Walk.{Reads};
ghost use Rattle.fx_walk.specs.Lists.{items_of};
ghost use Rattle.fx_traffic.specs.Crossings.{path_faults, path_of};
ghost use Rattle.fx_traffic.specs.Classes.{paths_faults};

use crate::limits::{CROSSINGS, PATHS};
use crate::list::{FromValueAmong, list_among};
use fx_base::Fault;
use fx_tables::{Crossing, Path};
use fx_walk::{DocumentPath, Named, Sequence};
use serde_json::Value;
use std::alloc::Global;

/// Reads a path, which is a list of crossings.
impl FromValueAmong for Path {
    ghost faults = { path_faults };

    ghost meaning = { path_of };

    fn from_value_among<D: Named>(
        alloc: Global,
        path: &DocumentPath<'_>,
        value: &Value,
        devices: &[D],
    ) -> Result<Path, Fault> {
        let crossings: Sequence<Crossing> = list_among(alloc, path, value, 0, CROSSINGS, devices)?;
        Ok(Path::new(crossings.into_vec()))
    }
}

/// Reads the paths of a class, a list of at least one.
pub fn read_paths<D: Named>(
    alloc: Global,
    path: &DocumentPath<'_>,
    value: &Value,
    devices: &[D],
) -> Result<Sequence<Path>, Fault>
    ensures { let names = map D.name devices.now in
        let meaning = map (path_of names) (items_of (view value.now)) in
        Reads (paths_faults names (pointer path.now) (view value.now)) meaning result }
{
    list_among(alloc, path, value, 1, PATHS, devices)
}
