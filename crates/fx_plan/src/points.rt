//! Observation points and the caches that their packets reach.
ghost use Rattle.std.specs.Prelude.{◌≡◌, ◌++◌, IfOk, map, option_map, option_and_then};
ghost use Rattle.fx_plan.specs.Labels as naming;
ghost use Rattle.fx_plan.specs.Tables as tables;
ghost use Rattle.fx_selectors.specs.Selection.{region_of};

use crate::labels::{Labels, place, places};
use fx_base::Name;
use fx_boxes::Region;
use fx_config::{Direction, ObservationPoint, SelectionProcess};
use fx_selectors::region_of;
use fx_tables::{DeviceEntry, Point, Selection};
use fx_topology::NetworkDevice;
use std::alloc::{AllocError, Global};

fn copy_of(alloc: Global, name: &Name) -> Result<Name, AllocError>
    ensures { IfOk result (λ n. n ≡ name.now) }
{
    match Name::read(alloc, name.as_str()) {
        Ok(copy) => Ok(copy),
        Err(_) => Err(AllocError),
    }
}

fn copies_of(alloc: Global, names: &[Name]) -> Result<Vec<Name>, AllocError>
    ensures { IfOk result (λ v. v.items ≡ names.now) }
{
    let mut copies = Vec::new(alloc);
    for name in names {
        let copy = copy_of(alloc, name)?;
        copies.push(copy)?;
    }
    Ok(copies)
}

fn process_named<'p>(processes: &'p [SelectionProcess], name: &Name) -> Option<&'p SelectionProcess>
    ensures { option_map (λ p. p.now) result ≡ tables.process_named processes.now name.now }
{
    match processes {
        [] => None,
        [process, rest @ ..] => {
            if process.name == *name {
                Some(process)
            } else {
                process_named(rest, name)
            }
        }
    }
}

/// Returns the place of the cache of a device's selection process of this name, if it has one.
fn cache_place(caches: &Labels<'_>, device: &NetworkDevice, name: &Name) -> Option<usize>
    ensures { result ≡ option_map (naming.place caches.now device.now.name)
        (option_and_then (λ p. p.cache) (tables.process_named device.now.config.selection_processes
        name.now)) }
{
    match process_named(device.config.selection_processes.as_slice(), name) {
        Some(process) => match &process.cache {
            Some(cache) => Some(place(caches, &device.name, cache)),
            None => None,
        },
        None => None,
    }
}

/// Returns the region of the packets that a device's selection process of this name selects, if it selects any.
fn region_named(device: &NetworkDevice, name: &Name) -> Option<Region>
    ensures { result ≡ option_and_then region_of
        (tables.process_named device.now.config.selection_processes name.now) }
{
    let process = process_named(device.config.selection_processes.as_slice(), name)?;
    region_of(process)
}

fn selections_of(
    alloc: Global,
    caches: &Labels<'_>,
    device: &NetworkDevice,
    names: &[Name],
) -> Result<Vec<Selection>, AllocError>
    ensures { IfOk result (λ v. v.items ≡ map (tables.selection_of caches.now device.now)
        names.now) }
{
    let mut selections = Vec::new(alloc);
    for name in names {
        let region = region_named(device, name);
        let holder = cache_place(caches, device, name);
        selections.push(Selection { region, holder })?;
    }
    Ok(selections)
}

/// Returns whether incoming packets are seen, and whether outgoing packets are.
fn sees(direction: Direction) -> (bool, bool)
    ensures incoming { result.0 ≡ tables.sees_in direction }
    ensures outgoing { result.1 ≡ tables.sees_out direction }
{
    match direction {
        Direction::Ingress => (true, false),
        Direction::Egress => (false, true),
        Direction::Both => (true, true),
    }
}

fn point_of(
    alloc: Global,
    caches: &Labels<'_>,
    device: &NetworkDevice,
    point: &ObservationPoint,
) -> Result<Point, AllocError>
    ensures { IfOk result (λ p. p ≡ tables.point_of caches.now device.now point.now) }
{
    let interfaces = copies_of(alloc, point.interfaces.as_slice())?;
    let named = point.selection_processes.as_slice();
    let selections = selections_of(alloc, caches, device, named)?;
    let (ingress, egress) = sees(point.direction);
    Ok(Point::new(interfaces, ingress, egress, selections))
}

fn points_of(
    alloc: Global,
    caches: &Labels<'_>,
    device: &NetworkDevice,
    points: &[ObservationPoint],
) -> Result<Vec<Point>, AllocError>
    ensures { IfOk result (λ v. v.items ≡ map (tables.point_of caches.now device.now) points.now) }
{
    let mut seen = Vec::new(alloc);
    for point in points {
        let point = point_of(alloc, caches, device, point)?;
        seen.push(point)?;
    }
    Ok(seen)
}

/// Returns the tables of a device, given the labels of all caches and of all collecting processes.
fn table_of(
    alloc: Global,
    caches: &Labels<'_>,
    collecting: &Labels<'_>,
    device: &NetworkDevice,
) -> Result<DeviceEntry, AllocError>
    ensures { IfOk result (λ t. t ≡ tables.table_of caches.now collecting.now device.now) }
{
    let points = points_of(
        alloc,
        caches,
        device,
        device.config.observation_points.as_slice(),
    )?;
    let held = places(alloc, caches, &device.name, device.config.caches.as_slice())?;
    let received = places(
        alloc,
        collecting,
        &device.name,
        device.config.collecting_processes.as_slice(),
    )?;
    Ok(DeviceEntry::new(points, held, received))
}

/// Returns the tables of all devices, in document order.
pub fn tables_of(
    alloc: Global,
    caches: &Labels<'_>,
    collecting: &Labels<'_>,
    devices: &[NetworkDevice],
) -> Result<Vec<DeviceEntry>, AllocError>
    ensures { IfOk result (λ v. v.items ≡ map (tables.table_of caches.now collecting.now)
        devices.now) }
{
    let mut tables = Vec::new(alloc);
    for device in devices {
        let table = table_of(alloc, caches, collecting, device)?;
        tables.push(table)?;
    }
    Ok(tables)
}
