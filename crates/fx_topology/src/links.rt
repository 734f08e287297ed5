//! The list of links.
ghost use Rattle.std.specs.Prelude.{◌≡◌, ℕ, List, [], ◌∷◌, ◌++◌, OnOk, map, codes, not};
ghost use Rattle.serde_json.specs.View.{view};
ghost use Rattle.fx_walk.specs.Pointer.{pointer};
ghost use Rattle.fx_walk.specs.Walk.{Reads, fault_if, member_of, row_faults};
ghost use Rattle.fx_walk.specs.Lists.{items_of};
ghost use Rattle.fx_topology.specs.Links.{has_ends, name_rows, starts_there, link_faults, link_of, links_faults, links_row};
ghost use Rattle.fx_base.specs.Refusals.{linked_twice, unknown_link_end};

use crate::ends::has_ends;
use crate::link::NamedLink;
use crate::link_table::LinkTable;
use crate::network_device::NetworkDevice;
use fx_base::{Fault, Name, refusals};
use fx_walk::{DocumentPath, NameReader, items_in, object_of, refusal, refuse_if, required_member};
use serde_json::Value;
use std::alloc::Global;

/// Refuses a link at the path if one of its ends does not exist (201).
fn ends_are_there(
    alloc: Global,
    path: &DocumentPath<'_>,
    devices: &[NetworkDevice],
    link: &NamedLink,
) -> Result<(), Fault>
    ensures { Reads (fault_if (not (has_ends devices.now link.now)) unknown_link_end
        (pointer path.now)) tt
        result }
{
    refuse_if(
        alloc,
        path,
        refusals::UNKNOWN_LINK_END,
        !has_ends(devices, link),
    )
}

/// Appends a link at the path to the earlier ones. Refuses it if one of them leads from the same destination (202).
fn add_alone(
    alloc: Global,
    path: &DocumentPath<'_>,
    earlier: &mut LinkTable,
    link: NamedLink,
) -> Result<(), Fault>
    ensures reads { Reads (fault_if (starts_there earlier.old link) linked_twice (pointer path.now))
        tt
        result }
    ensures links { OnOk result (earlier.new ≡ earlier.old ++ link ∷ []) }
{
    let alone = earlier.add(link)?;
    refuse_if(alloc, path, refusals::LINKED_TWICE, !alone)
}

/// Reads the link given by the names in the object at the path.
fn read_link(alloc: Global, path: &DocumentPath<'_>, value: &Value) -> Result<NamedLink, Fault>
    ensures { Reads (row_faults name_rows (pointer path.now) (view value.now))
        (link_of (view value.now)) result }
{
    let device = required_member::<NameReader>(alloc, path, value, "device")?;
    let exporting = required_member::<NameReader>(alloc, path, value, "exportingProcess")?;
    let destination = required_member::<NameReader>(alloc, path, value, "destination")?;
    let to_device = required_member::<NameReader>(alloc, path, value, "toDevice")?;
    let to_process = required_member::<NameReader>(alloc, path, value, "toProcess")?;
    Ok(NamedLink {
        device,
        exporting_process: exporting,
        destination,
        to_device,
        to_process,
    })
}

/// Reads the link at the path and appends it to the earlier ones. Fails with 201 if one of its ends does not exist, and
/// with 202 if an earlier link leads from the same destination.
fn add_link(
    alloc: Global,
    path: &DocumentPath<'_>,
    value: &Value,
    devices: &[NetworkDevice],
    earlier: &mut LinkTable,
) -> Result<(), Fault>
    ensures reads { Reads (link_faults devices.now earlier.old (pointer path.now) (view value.now))
        tt result }
    ensures links { OnOk result (earlier.new ≡ earlier.old ++ link_of (view value.now) ∷ []) }
{
    object_of(
        alloc,
        path,
        value,
        &[
            "device",
            "exportingProcess",
            "destination",
            "toDevice",
            "toProcess",
        ],
    )?;
    let link = read_link(alloc, path, value)?;
    ends_are_there(alloc, path, devices, &link)?;
    add_alone(alloc, path, earlier, link)
}

/// Reads the links of the list at the path, in order.
fn links_of(
    alloc: Global,
    path: &DocumentPath<'_>,
    items: &[Value],
    devices: &[NetworkDevice],
) -> Result<LinkTable, Fault>
    ensures { Reads (links_faults devices.now [] (pointer path.now) 0 (map view items.now))
        (map link_of (map view items.now)) result }
{
    let mut links = LinkTable::new(alloc);
    let mut index = 0;
    for item in items {
        let path = DocumentPath::Item(&*path, index);
        add_link(alloc, &path, item, devices, &mut links)?;
        index += 1;
    }
    Ok(links)
}

/// Reads the network's links, of which there may be `most`. Fails with 103, at the object, if it has no list of links.
pub fn links_member(
    alloc: Global,
    path: &DocumentPath<'_>,
    object: &Value,
    devices: &[NetworkDevice],
    most: usize,
) -> Result<LinkTable, Fault>
    ensures { Reads ((links_row most devices.now).faults (pointer path.now) (view object.now))
        (map link_of (items_of (member_of (codes "links") (view object.now)))) result }
{
    match object.get("links") {
        Some(value) => {
            let path = DocumentPath::Member(path, "links");
            let items = items_in(alloc, &path, value, 0, most)?;
            links_of(alloc, &path, items, devices)
        }
        None => Err(refusal(alloc, refusals::MISSING_MEMBER, path)),
    }
}
