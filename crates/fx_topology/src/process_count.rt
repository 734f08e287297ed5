//! The number of collecting processes of a network.
ghost use Rattle.std.specs.Prelude.{◌≡◌, nat_lt, codes};
ghost use Rattle.fx_walk.specs.Pointer.{below, pointer};
ghost use Rattle.fx_walk.specs.Walk.{Reads, fault_if};
ghost use Rattle.fx_topology.specs.NetworkDevices.{process_count};
ghost use Rattle.fx_base.specs.Refusals.{too_many_entries};

use crate::network_device::NetworkDevice;
use fx_base::{Fault, refusals};
use fx_walk::{DocumentPath, refuse_if};
use std::alloc::Global;

/// Returns whether the devices have more than `most` collecting processes.
fn are_too_many(devices: &[NetworkDevice], most: usize) -> bool
    ensures { result ≡ nat_lt most (process_count devices.now) }
{
    let mut room = most;
    for device in devices {
        let count = device.config.collecting_processes.as_slice().len();
        if room < count {
            return true;
        }
        room -= count;
    }
    false
}

/// Refuses the devices of the network at the path if they have more than `most` collecting processes (115).
pub fn processes_are_few(
    alloc: Global,
    path: &DocumentPath<'_>,
    devices: &[NetworkDevice],
    most: usize,
) -> Result<(), Fault>
    ensures { Reads (fault_if (nat_lt most (process_count devices.now)) too_many_entries
        (below (pointer path.now) (codes "devices"))) tt result }
{
    let path = DocumentPath::Member(path, "devices");
    refuse_if(
        alloc,
        &path,
        refusals::TOO_MANY_ENTRIES,
        are_too_many(devices, most),
    )
}
