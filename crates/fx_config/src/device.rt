//! The configuration document of a device.
ghost use Rattle.std.specs.Prelude.{[], IfOk};
ghost use Rattle.serde_json.specs.View.{view};
ghost use Rattle.fx_walk.specs.Walk.{Reads};
ghost use Rattle.fx_config.specs.References.{Resolves};
ghost use Rattle.fx_config.specs.Devices.{device_faults, device_of};

use crate::ipfix::{Device, Ipfix};
use fx_base::Fault;
use fx_walk::{DocumentPath, FromValue, document_of, required_member};
use serde_json::Value;
use std::alloc::Global;

/// A reader of configuration documents.
pub struct DeviceReader;

/// Reads a device's configuration document: an object with the container `ipfix`. Members of other modules are ignored.
impl FromValue for DeviceReader {
    type Read = Device;

    ghost faults = { device_faults };

    ghost meaning = { device_of };

    fn from_value(alloc: Global, path: &DocumentPath<'_>, value: &Value) -> Result<Device, Fault> {
        document_of(
            alloc,
            path,
            value,
            "ietf-ipfix-psamp",
            &["ietf-ipfix-psamp:ipfix"],
        )?;
        let ipfix = required_member::<Ipfix>(alloc, path, value, "ietf-ipfix-psamp:ipfix")?;
        Ok(ipfix.device)
    }
}

/// Reads the configuration document of one device. Fails with the first fault in the order of the walk, at its JSON
/// Pointer in the document.
///
/// Fails with 102 for a member that is not allowed, 103 for a missing member, 104 for a value of the wrong kind, 105
/// for a value that is not allowed, 106 for a duplicate name, 107 for a reference to nothing, 108 for a sampling
/// method, 109 for a hash filter, 110 for a counter that is not 8 octets long, 111 for a total counter, 112 for a flow
/// key that cannot distinguish packets, 113 for a file instead of a transport, 114 for a layout without both counters,
/// 115 for too many entries, and 900, at no place, if out of memory.
pub fn read_device(alloc: Global, value: &Value) -> Result<Device, Fault>
    ensures answer { Reads (device_faults [] (view value.now)) (device_of (view value.now)) result }
    ensures resolved { IfOk result Resolves }
{
    DeviceReader::from_value(alloc, &DocumentPath::Root, value)
}
