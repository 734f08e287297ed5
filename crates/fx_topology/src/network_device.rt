//! The devices of a network document.
ghost use Rattle.fx_topology.specs.NetworkDevices.{network_device_faults, network_device_of};

use fx_base::{Fault, Name};
use fx_config::{Device, DeviceReader};
use fx_walk::{DocumentPath, Entry, Named, Names, name_member, object_of, required_member};
use serde_json::Value;
use std::alloc::Global;

/// A device of the network and its configuration.
#[derive(Debug, Drop)]
pub struct NetworkDevice {
    /// Its name, unique among the devices of the network.
    pub name: Name,
    /// Its configuration.
    pub config: Device,
}

impl Named for NetworkDevice {
    ghost name = { λ device. device.name };

    fn name(&self) -> &Name {
        &self.name
    }
}

/// A reader of the devices of a network.
pub(crate) struct NetworkDeviceReader;

impl Entry for NetworkDeviceReader {
    type Read = NetworkDevice;

    ghost faults = { network_device_faults };

    ghost meaning = { network_device_of };

    ghost name = { λ device. device.name };

    fn from_entry(
        alloc: Global,
        path: &DocumentPath<'_>,
        value: &Value,
        earlier: &mut Names,
    ) -> Result<NetworkDevice, Fault> {
        object_of(alloc, path, value, &["name", "config"])?;
        let name = name_member(alloc, path, value, earlier)?;
        let config = required_member::<DeviceReader>(alloc, path, value, "config")?;
        Ok(NetworkDevice { name, config })
    }
}
