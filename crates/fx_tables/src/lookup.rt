//! Look-ups by number and by index.
ghost use Rattle.std.specs.Prelude.{◌≡◌, ◌↔◌, IsTrue, slice_get};
ghost use Rattle.fx_tables.specs.Classes as traffic;
ghost use Rattle.fx_tables.specs.Network as network;

use crate::aggregation::AggregationEntry;
use crate::device::DeviceEntry;
use crate::holder::Holder;
use crate::holder_name::HolderName;
use crate::net::Net;
use crate::observation::Point;
use crate::packet::Packet;
use crate::process::Process;
use crate::traffic::{Class, Classes, Crossing};
use fx_base::{entry_at, entry_numbered};
use fx_layout::Layout;

/// Returns the layout of the records of the holder at this index, or the empty one if there is no such holder.
pub(crate) fn layout_at(holders: &[Holder], index: usize) -> Layout
    ensures { result ≡ network.layout_of (slice_get holders.now index) }
{
    match entry_at(holders, index) {
        None => Layout::new(),
        Some(holder) => holder.layout.copy(),
    }
}

/// Returns the exporting processes that the holder at this index names.
fn named_by(holders: &[Holder], index: usize) -> &[usize]
    ensures { result.now ≡ network.named_by (slice_get holders.now index) }
{
    match entry_at(holders, index) {
        None => &[],
        Some(holder) => holder.exporters.as_slice(),
    }
}

/// Returns the observation points of the device with this number.
pub(crate) fn points_of(devices: &[DeviceEntry], number: u64) -> &[Point]
    ensures { result.now ≡ network.points_of (network.entry_numbered devices.now number) }
{
    match entry_numbered(devices, number) {
        None => &[],
        Some(device) => device.points.as_slice(),
    }
}

/// Returns the caches of the device with this number.
fn caches_of(devices: &[DeviceEntry], number: u64) -> &[usize]
    ensures { result.now ≡ network.caches_of (network.entry_numbered devices.now number) }
{
    match entry_numbered(devices, number) {
        None => &[],
        Some(device) => device.caches.as_slice(),
    }
}

/// Returns the collecting processes of the device with this number.
fn processes_of(devices: &[DeviceEntry], number: u64) -> &[usize]
    ensures { result.now ≡ network.processes_of (network.entry_numbered devices.now number) }
{
    match entry_numbered(devices, number) {
        None => &[],
        Some(device) => device.processes.as_slice(),
    }
}

/// Returns the aggregations of the collecting process at this index.
fn aggregations_at(processes: &[Process], index: Option<usize>) -> &[AggregationEntry]
    ensures { result.now ≡ network.aggregations_of (network.process_at processes.now index) }
{
    match index {
        None => &[],
        Some(index) => match entry_at(processes, index) {
            None => &[],
            Some(process) => process.aggregations.as_slice(),
        },
    }
}

/// Returns the index of the holder of the aggregation with this number.
fn holder_of(aggregations: &[AggregationEntry], number: u64) -> Option<usize>
    ensures { result ≡ network.held_at (network.entry_numbered aggregations.now number) }
{
    match entry_numbered(aggregations, number) {
        None => None,
        Some(aggregation) => Some(aggregation.holder),
    }
}

/// Returns the index of the holder with this name.
fn place_of_holder(
    devices: &[DeviceEntry],
    processes: &[Process],
    name: HolderName,
) -> Option<usize>
    ensures { result ≡ network.place_named devices.now processes.now name }
{
    match name {
        HolderName::Cache { device, cache } => entry_numbered(
            caches_of(devices, device),
            cache,
        ).copied(),
        HolderName::Aggregation {
            device,
            process,
            aggregation,
        } => {
            let index = entry_numbered(processes_of(devices, device), process).copied();
            holder_of(aggregations_at(processes, index), aggregation)
        }
    }
}

/// Returns the crossings that a packet makes.
fn path_of<'a>(classes: &'a [Class], packet: &Packet) -> &'a [Crossing]
    ensures { result.now ≡ traffic.path classes.now packet.now }
{
    match entry_numbered(classes, packet.class) {
        None => &[],
        Some(class) => match entry_numbered(class.paths(), packet.path) {
            None => &[],
            Some(path) => path.as_slice(),
        },
    }
}

impl Net {
    /// Returns the layout of the records of the holder at this 0-based index of the network's table, or the empty one
    /// if there is no such holder.
    pub fn layout_at(&self, index: usize) -> Layout
        ensures { result ≡ network.layout_of (slice_get self.now.holders index) }
    {
        layout_at(self.holders.as_slice(), index)
    }

    /// Returns the exporting processes, by their indices in the network's table, of the holder at this index, or none
    /// if there is no such holder.
    pub fn named_by(&self, index: usize) -> &[usize]
        ensures { result.now ≡ network.named_by (slice_get self.now.holders index) }
    {
        named_by(self.holders.as_slice(), index)
    }

    /// Returns the observation points of the device with this 1-based number, or none if there is no such device.
    pub fn points_of(&self, device: u64) -> &[Point]
        ensures { result.now ≡ network.points_of (network.entry_numbered self.now.devices device) }
    {
        points_of(self.devices.as_slice(), device)
    }

    /// Returns the 0-based index of the holder with this name in the network's table, if there is one.
    pub fn holder_place(&self, name: HolderName) -> Option<usize>
        ensures { result ≡ network.holder_place self.now name }
    {
        place_of_holder(self.devices.as_slice(), self.processes.as_slice(), name)
    }
}

impl Classes {
    /// Returns the crossings of a packet, by its 1-based numbers of a class and of a path, or none if there is no such
    /// class or path.
    pub fn path_of(&self, packet: &Packet) -> &[Crossing]
        ensures { result.now ≡ traffic.path self.now packet.now }
    {
        path_of(self.as_slice(), packet)
    }

    /// Returns whether a packet, by the 1-based number of its class, belongs to an exempt class and so must never be
    /// counted.
    pub fn exempts(&self, packet: &Packet) -> bool
        ensures { result ≡ traffic.exempts (network.entry_numbered self.now packet.now.class) }
    {
        match entry_numbered(self.as_slice(), packet.class) {
            None => false,
            Some(class) => class.exempt(),
        }
    }

    /// Returns whether a packet belongs to these classes: the classes have its class and path, by their 1-based
    /// numbers, and the region of the class holds its fields.
    pub fn contains(&self, packet: &Packet) -> bool
        ensures value { result ≡ traffic.is_of packet.now
            (network.entry_numbered self.now packet.now.class) }
        ensures meaning { IsTrue result
            ↔ traffic.IsOf packet.now (network.entry_numbered self.now packet.now.class) }
    {
        match entry_numbered(self.as_slice(), packet.class) {
            None => false,
            Some(class) => {
                class.holds(&packet.fields) && entry_numbered(class.paths(), packet.path).is_some()
            }
        }
    }
}
