//! What the names in links and reports refer to.
ghost use Rattle.std.specs.Prelude.{◌≡◌, option_map};
ghost use Rattle.fx_topology.specs.Links as links;

use crate::link::NamedLink;
use crate::network_device::NetworkDevice;
use fx_base::Name;
use fx_config::{Device, ExportingProcess};
use fx_walk::is_named;

/// Returns the configuration of the device of this name.
pub fn device_named<'d>(devices: &'d [NetworkDevice], name: &Name) -> Option<&'d Device>
    ensures { option_map (λ d. d.now) result ≡ links.device_named devices.now name.now }
{
    match devices {
        [] => None,
        [device, rest @ ..] => {
            if device.name == *name {
                Some(&device.config)
            } else {
                device_named(rest, name)
            }
        }
    }
}

/// Returns whether the exporting process has the name `process` and a destination of the name `destination`.
fn sends_to(exporting: &ExportingProcess, process: &Name, destination: &Name) -> bool
    ensures { result ≡ links.sends_to process.now destination.now exporting.now }
{
    exporting.name == *process && is_named(exporting.destinations.as_slice(), destination)
}

/// Returns whether the device has an exporting process of the name `process` with a destination of the name
/// `destination`.
fn has_destination(device: &Device, process: &Name, destination: &Name) -> bool
    ensures { result ≡ links.has_destination process.now destination.now (Some device.now) }
{
    device
        .exporting_processes
        .as_slice()
        .iter()
        .any(|exporting| sends_to(exporting, process, destination))
}

/// Returns whether the device of the name `device` has a collecting process of the name `process`.
pub fn has_collecting_process(devices: &[NetworkDevice], device: &Name, process: &Name) -> bool
    ensures { result ≡ links.has_collecting_process process.now
        (links.device_named devices.now device.now) }
{
    match device_named(devices, device) {
        Some(device) => is_named(device.collecting_processes.as_slice(), process),
        None => false,
    }
}

/// Returns whether the link leads from a destination of the network.
fn has_start(devices: &[NetworkDevice], link: &NamedLink) -> bool
    ensures { result ≡ links.has_destination link.now.exporting_process link.now.destination
        (links.device_named devices.now link.now.device) }
{
    match device_named(devices, &link.device) {
        Some(device) => has_destination(device, &link.exporting_process, &link.destination),
        None => false,
    }
}

/// Returns whether both ends of the link exist.
pub fn has_ends(devices: &[NetworkDevice], link: &NamedLink) -> bool
    ensures { result ≡ links.has_ends devices.now link.now }
{
    has_start(devices, link) && has_collecting_process(devices, &link.to_device, &link.to_process)
}
