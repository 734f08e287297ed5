//! The classes of the packets that cross a network.
ghost use Rattle.std.specs.Prelude.{◌≡◌, ◌++◌, ◌∷◌, ℕ, List, [], map, codes, is_some, OnOk};
ghost use Rattle.serde_json.specs.View.{view};
ghost use Rattle.serde_json.specs.Find.{get};
ghost use Rattle.fx_walk.specs.Pointer.{pointer};
ghost use Rattle.fx_walk.specs.Walk.{Reads, required_row, optional, member_of};
ghost use Rattle.fx_walk.specs.Lists.{entries_faults, items_of};
ghost use Rattle.fx_traffic.specs.Crossings.{path_of};
ghost use Rattle.fx_traffic.specs.Regions.{region_faults, region_given};
ghost use Rattle.fx_traffic.specs.Classes.{class_faults, exempt_faults, class_name, class_of, classes_faults_within, paths_faults};

use crate::path::read_paths;
use crate::region::{read_region, whole};
use fx_base::{Fault, refusals};
use fx_boxes::Region;
use fx_tables::{Class, Path};
use fx_walk::{
    DocumentPath, Named, Names, Sequence, is_empty_type, items_by, name_member_by, object_of,
    refusal,
};
use serde_json::Value;
use std::alloc::Global;

/// Reads the optional member `region`, by default the whole region.
fn region_member(alloc: Global, path: &DocumentPath<'_>, object: &Value) -> Result<Region, Fault>
    ensures { Reads ((optional (codes "region") region_faults).faults (pointer path.now)
        (view object.now)) (region_given (get (codes "region") (view object.now))) result }
{
    match object.get("region") {
        Some(value) => read_region(alloc, &DocumentPath::Member(path, "region"), value),
        None => Ok(whole()),
    }
}

fn paths_member<T: Named>(
    alloc: Global,
    path: &DocumentPath<'_>,
    object: &Value,
    devices: &[T],
) -> Result<Sequence<Path>, Fault>
    ensures { Reads ((required_row (codes "paths") (paths_faults (map T.name devices.now))).faults
        (pointer path.now) (view object.now))
        (map (path_of (map T.name devices.now))
        (items_of (member_of (codes "paths") (view object.now)))) result }
{
    match object.get("paths") {
        Some(value) => read_paths(alloc, &DocumentPath::Member(path, "paths"), value, devices),
        None => Err(refusal(alloc, refusals::MISSING_MEMBER, path)),
    }
}

/// Returns whether the optional member `exempt` is there.
fn exempt_member(alloc: Global, path: &DocumentPath<'_>, object: &Value) -> Result<bool, Fault>
    ensures { Reads ((optional (codes "exempt") exempt_faults).faults (pointer path.now)
        (view object.now)) (is_some (get (codes "exempt") (view object.now))) result }
{
    match object.get("exempt") {
        Some(value) => {
            if is_empty_type(value) {
                Ok(true)
            } else {
                Err(refusal(
                    alloc,
                    refusals::TRAFFIC_VALUE,
                    &DocumentPath::Member(path, "exempt"),
                ))
            }
        }
        None => Ok(false),
    }
}

/// Reads a class and adds its name to `earlier`, the names of the classes before it.
fn read_class<T: Named>(
    alloc: Global,
    path: &DocumentPath<'_>,
    value: &Value,
    devices: &[T],
    earlier: &mut Names,
) -> Result<Class, Fault>
    ensures reads { Reads (class_faults (map T.name devices.now) earlier.old (pointer path.now)
        (view value.now)) (class_of (map T.name devices.now) (view value.now)) result }
    ensures names { OnOk result (earlier.new ≡ earlier.old ++ class_name (view value.now) ∷ []) }
{
    object_of(alloc, path, value, &["name", "region", "paths", "exempt"])?;
    name_member_by(
        alloc,
        path,
        value,
        earlier,
        refusals::TRAFFIC_VALUE,
        refusals::CLASS_TWICE,
    )?;
    let region = region_member(alloc, path, value)?;
    let paths = paths_member(alloc, path, value, devices)?;
    let exempt = exempt_member(alloc, path, value)?;
    Ok(Class::new(region, paths.into_vec(), exempt))
}

/// Reads the classes of the list at the path, in order.
fn classes_of<T: Named>(
    alloc: Global,
    path: &DocumentPath<'_>,
    items: &[Value],
    devices: &[T],
) -> Result<Sequence<Class>, Fault>
    ensures { Reads (entries_faults (class_faults (map T.name devices.now)) class_name []
        (pointer path.now) 0 (map view items.now))
        (map (class_of (map T.name devices.now)) (map view items.now)) result }
{
    let mut names = Names::new(alloc);
    let mut classes = Vec::new(alloc);
    let mut index = 0;
    for item in items {
        let path = DocumentPath::Item(&*path, index);
        classes.push(read_class(alloc, &path, item, devices, &mut names)?)?;
        index += 1;
    }
    Ok(Sequence::from_vec(classes))
}

/// Reads the list of at most `most` classes.
pub fn read_list<T: Named>(
    alloc: Global,
    path: &DocumentPath<'_>,
    value: &Value,
    devices: &[T],
    most: usize,
) -> Result<Sequence<Class>, Fault>
    ensures { Reads (classes_faults_within most (map T.name devices.now) (pointer path.now)
        (view value.now)) (map (class_of (map T.name devices.now)) (items_of (view value.now)))
        result }
{
    let items = items_by(
        alloc,
        path,
        value,
        0,
        most,
        refusals::NO_PATH,
        refusals::TOO_MUCH_TRAFFIC,
    )?;
    classes_of(alloc, path, items, devices)
}
