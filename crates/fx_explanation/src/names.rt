//! Entries of documents by number or name.
use fx_base::{Name, entry_numbered};
use fx_config::{Device, ObservationPoint, SelectionProcess};
use fx_plan::Plan;
use fx_topology::NamedLink;
use fx_walk::{Named, place_of};

/// Returns the entry with the given name.
pub fn entry_named<'a, T: Named>(entries: &'a [T], name: &Name) -> Option<&'a T> {
    let index = place_of(entries, name)?;
    entries.get(index)
}

/// Returns the name of a device by its 1-based number.
pub(crate) fn device_name(plan: &Plan, number: u64) -> Option<&str> {
    let device = entry_numbered(plan.network().devices.as_slice(), number)?;
    Some(device.name.as_str())
}

/// Returns the link from a destination of an exporting process of a device.
pub fn link_from<'a>(
    links: &'a [NamedLink],
    device: &Name,
    process: &Name,
    destination: &Name,
) -> Option<&'a NamedLink> {
    for link in links {
        if link.device == *device
            && link.exporting_process == *process
            && link.destination == *destination
        {
            return Some(link);
        }
    }
    None
}

/// Returns the selection process of an observation point by its 1-based number.
pub fn selection_process<'a>(
    device: &'a Device,
    point: &ObservationPoint,
    number: u64,
) -> Option<&'a SelectionProcess> {
    let name = entry_numbered(point.selection_processes.as_slice(), number)?;
    entry_named(device.selection_processes.as_slice(), name)
}
