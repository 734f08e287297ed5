//! The places of a part's collecting processes in the whole network. What is found here is only a guess: the join
//! judges it.

ghost use Rattle.std.specs.Prelude.{IfErr};
ghost use Rattle.fx_base.specs.Fault.{IsMemory};

use crate::explainer::ProcessName;
use fx_base::{Fault, Name};
use fx_config::CollectingProcess;
use fx_plan::{NetworkDevice, NetworkDocument};
use fx_tables::Net;
use fx_walk::Names;
use std::alloc::{AllocError, Global};

/// The collecting processes of a whole network, by the names of their devices and their own.
#[derive(Drop)]
pub(crate) struct WholeProcesses<'w> {
    network: &'w NetworkDocument,
    net: &'w Net,
    devices: Names,
}

/// The places of a part's collecting processes in the whole, or the first process that the whole doesn't have.
#[derive(Drop)]
pub(crate) enum Places<'n> {
    Found(Vec<usize>),
    Missing(ProcessName<'n>),
}

/// Returns the names of devices, in document order.
fn names_of(alloc: Global, devices: &[NetworkDevice]) -> Result<Names, Fault>
    ensures { IfErr result IsMemory }
{
    let mut names = Names::new(alloc);
    for device in devices {
        names.add(&device.name)?;
    }
    Ok(names)
}

/// Returns the 0-based index of the process with this name.
fn index_of(processes: &[CollectingProcess], name: &Name) -> Option<usize> {
    processes.iter().position(|process| process.name == *name)
}

impl<'w> WholeProcesses<'w> {
    /// Returns the collecting processes of a whole network. `net` is the network that the document describes.
    ///
    /// Fails with 900, at no place, if out of memory.
    pub(crate) fn new(
        alloc: Global,
        network: &'w NetworkDocument,
        net: &'w Net,
    ) -> Result<WholeProcesses<'w>, Fault>
        ensures { IfErr result IsMemory }
    {
        let devices = names_of(alloc, network.devices.as_slice())?;
        Ok(WholeProcesses {
            network,
            net,
            devices,
        })
    }

    /// Returns the place of the process with these names in the whole.
    fn place_of(&self, device: &Name, process: &Name) -> Option<usize> {
        let index = self.devices.place_of(device)?;
        let named = self.network.devices.as_slice().get(index)?;
        let place = index_of(named.config.collecting_processes.as_slice(), process)?;
        let entry = self.net.devices().get(index)?;
        entry.processes().get(place).copied()
    }

    /// Appends the places of a device's processes. Returns the first that the whole doesn't have.
    fn push_places<'n>(
        &self,
        places: &mut Vec<usize>,
        device: &'n NetworkDevice,
    ) -> Result<Option<ProcessName<'n>>, AllocError> {
        for process in device.config.collecting_processes.as_slice() {
            let Some(place) = self.place_of(&device.name, &process.name) else {
                return Ok(Some(ProcessName {
                    device: &device.name,
                    process: &process.name,
                }));
            };
            places.push(place)?;
        }
        Ok(None)
    }

    /// Returns the places of the collecting processes of a part.
    ///
    /// Fails if out of memory.
    pub(crate) fn places_of<'n>(
        &self,
        alloc: Global,
        part: &'n NetworkDocument,
    ) -> Result<Places<'n>, AllocError> {
        let mut places = Vec::new(alloc);
        for device in part.devices.as_slice() {
            if let Some(missing) = self.push_places(&mut places, device)? {
                return Ok(Places::Missing(missing));
            }
        }
        Ok(Places::Found(places))
    }
}
