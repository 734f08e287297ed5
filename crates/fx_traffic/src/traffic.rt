//! The declaration of the traffic of a network.
ghost use Rattle.std.specs.Prelude.{◌≡◌, ℕ, List, [], map, codes};
ghost use Rattle.serde_json.specs.View.{view};
ghost use Rattle.fx_walk.specs.Pointer.{pointer};
ghost use Rattle.fx_walk.specs.Walk.{Reads, required_row, member_of};
ghost use Rattle.fx_walk.specs.Lists.{items_of};
ghost use Rattle.fx_topology.specs.Networks.{device_names};
ghost use Rattle.fx_traffic.specs.Classes.{class_of, classes_faults_within, traffic_faults, traffic_faults_within, traffic_of};

use crate::class::read_list;
use crate::limits::CLASSES;
use fx_base::{Fault, entry_numbered, refusals};
use fx_plan::{NetworkDocument, Plan};
use fx_tables::{Class, Classes};
use fx_walk::{DocumentPath, Named, Sequence, object_of, refusal};
use serde_json::Value;
use std::alloc::{AllocError, Global};
use std::marker::Model;

/// The traffic of a network. Contracts see it as the list of its classes.
#[derive(Debug, Drop)]
pub struct Traffic {
    classes: Classes,
    names: Vec<String>,
}

impl Model for Traffic {
    ghost use Rattle.std.specs.Prelude.{List};
    ghost use Rattle.fx_tables.specs.Classes.{Class};

    ghost Value = { List Class };

    ghost view = { λ t. t.classes };
}

impl Traffic {
    /// Returns the classes of its packets, in document order.
    pub fn classes(&self) -> &Classes
        ensures { result.now ≡ self.now }
    {
        &self.classes
    }

    /// Returns the name of the class of this number, counted from 1, or `None` if there is no such class.
    pub fn class_name(&self, number: u64) -> Option<&str> {
        let name = entry_numbered(self.names.as_slice(), number)?;
        Some(name.as_str())
    }
}

/// Returns the name of a class, or an empty text if it has none.
fn name_of(class: &Value) -> &str {
    let Some(name) = class.get("name") else {
        return "";
    };
    name.as_str().unwrap_or("")
}

/// Returns the names of the classes of a declaration, in document order.
fn names_of(alloc: Global, object: &Value) -> Result<Vec<String>, AllocError> {
    let mut names = Vec::new(alloc);
    let Some(Value::Array(classes)) = object.get("classes") else {
        return Ok(names);
    };
    for class in classes {
        names.push(String::from_str(alloc, name_of(class))?)?;
    }
    Ok(names)
}

fn classes_member<T: Named>(
    alloc: Global,
    path: &DocumentPath<'_>,
    object: &Value,
    devices: &[T],
    most: usize,
) -> Result<Sequence<Class>, Fault>
    ensures { Reads ((required_row (codes "classes")
        (classes_faults_within most (map T.name devices.now))).faults (pointer path.now)
        (view object.now)) (map (class_of (map T.name devices.now))
        (items_of (member_of (codes "classes") (view object.now)))) result }
{
    match object.get("classes") {
        Some(value) => read_list(
            alloc,
            &DocumentPath::Member(path, "classes"),
            value,
            devices,
            most,
        ),
        None => Err(refusal(alloc, refusals::MISSING_MEMBER, path)),
    }
}

/// Reads the declaration at the path of at most `most` classes.
fn traffic_at<T: Named>(
    alloc: Global,
    path: &DocumentPath<'_>,
    value: &Value,
    devices: &[T],
    most: usize,
) -> Result<Traffic, Fault>
    ensures { Reads (traffic_faults_within most (map T.name devices.now) (pointer path.now)
        (view value.now))
        (traffic_of (map T.name devices.now) (view value.now)) result }
{
    object_of(alloc, path, value, &["classes"])?;
    let classes = classes_member(alloc, path, value, devices, most)?;
    let names = names_of(alloc, value)?;
    Ok(Traffic {
        classes: Classes::new(classes.into_vec()),
        names,
    })
}

/// Reads the declaration of at most `most` classes of the traffic that crosses these devices.
pub(crate) fn read_classes<T: Named>(
    alloc: Global,
    value: &Value,
    devices: &[T],
    most: usize,
) -> Result<Traffic, Fault>
    ensures { Reads (traffic_faults_within most (map T.name devices.now) [] (view value.now))
        (traffic_of (map T.name devices.now) (view value.now)) result }
{
    traffic_at(alloc, &DocumentPath::Root, value, devices, most)
}

/// Reads the declaration of the traffic that crosses a network. Fails with the first fault in the order of the walk, at
/// its JSON Pointer in the document (RFC 6901).
///
/// Devices are numbered from 1 in the network's order. An axis that a region does not name has all its values.
///
/// Fails with 102 for a member that is not allowed, 103 for a missing member, 104 for a value of the wrong kind, 301
/// for the name of an earlier class, 302 for a text that is not allowed, 303 for a name of no device, 304 for a class
/// without a path, 305 for too many entries, and 900, at no place, if out of memory.
pub fn read_traffic(alloc: Global, value: &Value, plan: &Plan) -> Result<Traffic, Fault>
    ensures { Reads (traffic_faults (device_names plan.now) [] (view value.now))
        (traffic_of (device_names plan.now) (view value.now)) result }
{
    read_classes(alloc, value, plan.network().devices.as_slice(), CLASSES)
}

/// Reads the declaration of at most `most` classes of the traffic that crosses a network of any size, as
/// [`read_traffic`] does.
pub fn read_traffic_within(
    alloc: Global,
    value: &Value,
    network: &NetworkDocument,
    most: usize,
) -> Result<Traffic, Fault>
    ensures { Reads (traffic_faults_within most (device_names network.now) [] (view value.now))
        (traffic_of (device_names network.now) (view value.now)) result }
{
    read_classes(alloc, value, network.devices.as_slice(), most)
}
