//! The container `ipfix`, with the five lists of a device.
ghost use Rattle.fx_walk.specs.Pointer.{pointer};
ghost use Rattle.fx_walk.specs.Walk.{Reads, row_faults};
ghost use Rattle.serde_json.specs.View.{view};
ghost use Rattle.std.specs.Prelude.{◌≡◌};
ghost use Rattle.fx_config.specs.References.{references_among};
ghost use Rattle.fx_config.specs.Devices.{ipfix_faults, ipfix_of, ipfix_rows, list_rows, lists_of, named_lists_of, referred_of, referred_rows, with_others};

use crate::cache::{Cache, CacheReader};
use crate::collecting_process::{CollectingProcess, CollectingProcessReader};
use crate::exporting_process::{ExportingProcess, ExportingProcessReader};
use crate::limits::ENTRIES;
use crate::observation_point::{ObservationPoint, ObservationPointReader};
use crate::selection_process::{SelectionProcess, SelectionProcessReader};
use fx_base::Fault;
use fx_walk::{
    DocumentPath, Entries, EntryNames, FromValue, Sequence, entries_member, items_refer,
    named_member, object_of,
};
use serde_json::Value;
use std::alloc::Global;

/// The configuration of one device. Each name that refers to something in the device is the name of an entry in its
/// list.
#[derive(Debug)]
pub struct Device {
    /// Its observation points. This list, like the others, is in document order.
    pub observation_points: Sequence<ObservationPoint>,
    /// Its selection processes.
    pub selection_processes: Sequence<SelectionProcess>,
    /// Its caches.
    pub caches: Sequence<Cache>,
    /// Its exporting processes.
    pub exporting_processes: Sequence<ExportingProcess>,
    /// Its collecting processes.
    pub collecting_processes: Sequence<CollectingProcess>,
}

impl Drop for Device {
    /// Drops its parts here, so that each drop elsewhere is one call.
    fn drop(self) {
        let Self {
            observation_points: _,
            selection_processes: _,
            caches: _,
            exporting_processes: _,
            collecting_processes: _,
        } = self;
    }
}

/// The names of a device's entries that others refer to.
#[derive(Drop)]
struct KnownNames {
    selecting: EntryNames,
    caches: EntryNames,
    exporting: EntryNames,
}

/// Refuses a name that refers to nothing in the device, whose container `ipfix` is at the path (107).
fn refers(
    alloc: Global,
    path: &DocumentPath<'_>,
    device: &Device,
    known: &KnownNames,
) -> Result<(), Fault>
    ensures { let names = known.now in
        let faults = references_among names.selecting names.caches names.exporting in
        Reads (faults (pointer path.now) device.now) tt result }
{
    let selecting = known.selecting.get();
    let caches = known.caches.get();
    let exporting = known.exporting.get();
    let points = &device.observation_points;
    let processes = &device.selection_processes;
    let collecting = &device.collecting_processes;
    items_refer(alloc, path, "observationPoint", points, selecting)?;
    items_refer(alloc, path, "selectionProcess", processes, caches)?;
    items_refer(alloc, path, "cache", &device.caches, exporting)?;
    items_refer(alloc, path, "collectingProcess", collecting, exporting)
}

/// The lists of a device whose entries others refer to.
#[derive(Drop)]
struct Referred {
    selecting: Entries<SelectionProcess>,
    caches: Entries<Cache>,
    exporting: Entries<ExportingProcess>,
}

/// Reads the lists, of the container `ipfix` at the path, whose entries others refer to.
fn read_referred(alloc: Global, path: &DocumentPath<'_>, value: &Value) -> Result<Referred, Fault>
    ensures { Reads (row_faults referred_rows (pointer path.now) (view value.now))
        (referred_of (view value.now)) result }
{
    let selecting = named_member::<SelectionProcessReader>(
        alloc,
        path,
        value,
        "selectionProcess",
        0,
        ENTRIES,
    )?;
    let caches = named_member::<CacheReader>(alloc, path, value, "cache", 0, ENTRIES)?;
    let exporting = named_member::<ExportingProcessReader>(
        alloc,
        path,
        value,
        "exportingProcess",
        0,
        ENTRIES,
    )?;
    Ok(Referred {
        selecting,
        caches,
        exporting,
    })
}

/// A device with the names of its entries that others refer to.
#[derive(Drop)]
struct Lists {
    device: Device,
    known: KnownNames,
}

impl Referred {
    /// Returns the device with these lists and the others.
    fn with(
        self,
        points: Sequence<ObservationPoint>,
        collecting: Sequence<CollectingProcess>,
    ) -> Lists
        ensures { result ≡ with_others points self collecting }
    {
        let Referred {
            selecting,
            caches,
            exporting,
        } = self;
        let device = Device {
            observation_points: points,
            selection_processes: selecting.items,
            caches: caches.items,
            exporting_processes: exporting.items,
            collecting_processes: collecting,
        };
        let known = KnownNames {
            selecting: selecting.names,
            caches: caches.names,
            exporting: exporting.names,
        };
        Lists { device, known }
    }
}

/// Reads all lists of the container `ipfix` at the path.
fn read_lists(alloc: Global, path: &DocumentPath<'_>, value: &Value) -> Result<Lists, Fault>
    ensures { Reads (row_faults list_rows (pointer path.now) (view value.now))
        (named_lists_of (view value.now)) result }
{
    let points = entries_member::<ObservationPointReader>(
        alloc,
        path,
        value,
        "observationPoint",
        0,
        ENTRIES,
    )?;
    let referred = read_referred(alloc, path, value)?;
    let collecting = entries_member::<CollectingProcessReader>(
        alloc,
        path,
        value,
        "collectingProcess",
        0,
        ENTRIES,
    )?;
    Ok(referred.with(points, collecting))
}

/// Reads the device from the container `ipfix` at the path. Refuses a name that refers to nothing in it.
fn device_at(alloc: Global, path: &DocumentPath<'_>, value: &Value) -> Result<Device, Fault>
    ensures { Reads (row_faults ipfix_rows (pointer path.now) (view value.now))
        (lists_of (view value.now)) result }
{
    let Lists { device, known } = read_lists(alloc, path, value)?;
    let answer = refers(alloc, path, &device, &known);
    drop(known);
    answer?;
    Ok(device)
}

/// The container `ipfix` (RFC 6728, section 6).
#[derive(Drop)]
pub struct Ipfix {
    /// The device that it configures.
    pub device: Device,
}

impl FromValue for Ipfix {
    type Read = Ipfix;

    ghost faults = { ipfix_faults };

    ghost meaning = { ipfix_of };

    fn from_value(alloc: Global, path: &DocumentPath<'_>, value: &Value) -> Result<Ipfix, Fault> {
        object_of(
            alloc,
            path,
            value,
            &[
                "observationPoint",
                "selectionProcess",
                "cache",
                "exportingProcess",
                "collectingProcess",
            ],
        )?;
        let device = device_at(alloc, path, value)?;
        Ok(Ipfix { device })
    }
}
