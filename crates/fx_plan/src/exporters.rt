//! The table of exporting processes.
ghost use Rattle.std.specs.Prelude.{◌≡◌, ◌++◌, OnOk, IfOk, map};
ghost use Rattle.std.specs.List.{position};
ghost use Rattle.fx_plan.specs.Tables as tables;
ghost use Rattle.fx_topology.specs.Links.{leads_from};

use fx_base::Name;
use fx_config::{Destination, ExportMode, ExportingProcess};
use fx_tables::Exporter;
use fx_topology::{LinkTable, NetworkDevice};
use std::alloc::{AllocError, Global};

/// Returns, for each destination of an exporting process, the place of its link, if it has one.
fn link_places(
    alloc: Global,
    links: &LinkTable,
    device: &Name,
    process: &Name,
    destinations: &[Destination],
) -> Result<Vec<Option<usize>>, AllocError>
    ensures { IfOk result (λ v. v.items ≡ map
        (λ d. position (leads_from device.now process.now d.name) links.now) destinations.now) }
{
    let mut places = Vec::new(alloc);
    for destination in destinations {
        let index = links.place_of(device, process, &destination.name)?;
        places.push(index)?;
    }
    Ok(places)
}

/// Returns whether each record goes to all destinations.
fn is_parallel(mode: ExportMode) -> bool
    ensures { result ≡ tables.is_parallel mode }
{
    match mode {
        ExportMode::Parallel => true,
        ExportMode::LoadBalancing | ExportMode::Fallback => false,
    }
}

fn exporter_of(
    alloc: Global,
    links: &LinkTable,
    device: &Name,
    process: &ExportingProcess,
) -> Result<Exporter, AllocError>
    ensures { IfOk result (λ e. e ≡ tables.exporter_of links.now device.now process.now) }
{
    let destinations = process.destinations.as_slice();
    let places = link_places(alloc, links, device, &process.name, destinations)?;
    Ok(Exporter::new(is_parallel(process.mode), places))
}

/// Appends the exporting processes of a device.
fn push_exporters(
    alloc: Global,
    exporters: &mut Vec<Exporter>,
    links: &LinkTable,
    device: &Name,
    processes: &[ExportingProcess],
) -> Result<(), AllocError>
    ensures { OnOk result (exporters.new.items
        ≡ exporters.old.items ++ map (tables.exporter_of links.now device.now) processes.now) }
{
    for process in processes {
        let exporter = exporter_of(alloc, links, device, process)?;
        exporters.push(exporter)?;
    }
    Ok(())
}

/// Returns the exporting processes of all devices, in document order.
pub fn exporters_of(
    alloc: Global,
    links: &LinkTable,
    devices: &[NetworkDevice],
) -> Result<Vec<Exporter>, AllocError>
    ensures { IfOk result (λ v. v.items ≡ tables.exporters_of links.now devices.now) }
{
    let mut exporters = Vec::new(alloc);
    for device in devices {
        let processes = device.config.exporting_processes.as_slice();
        push_exporters(alloc, &mut exporters, links, &device.name, processes)?;
    }
    Ok(exporters)
}
