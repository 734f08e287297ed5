//! The document of a whole network.
ghost use Rattle.std.specs.Prelude.{[]};
ghost use Rattle.serde_json.specs.View.{view};
ghost use Rattle.fx_walk.specs.Pointer.{pointer};
ghost use Rattle.fx_walk.specs.Walk.{Reads};
ghost use Rattle.fx_topology.specs.Networks.{network_faults, network_faults_within, network_of};

use crate::limits::{COMMAND_SIZES, Sizes};
use crate::link_table::LinkTable;
use crate::links::links_member;
use crate::network_device::{NetworkDevice, NetworkDeviceReader};
use crate::process_count::processes_are_few;
use crate::report::{Report, report_member};
use fx_base::Fault;
use fx_walk::{DocumentPath, Sequence, object_of, required_entries};
use serde_json::Value;
use std::alloc::Global;

/// The contents of a network document. The ends of each link exist, no two links lead from the same destination, the
/// report's collecting process exists, and its key consists of axes and leading bits of addresses, each axis at most
/// once.
#[derive(Debug)]
pub struct NetworkDocument {
    /// The devices. This list, like the others, is in document order.
    pub devices: Sequence<NetworkDevice>,
    /// The links between them.
    pub links: LinkTable,
    /// The report that is requested.
    pub report: Report,
}

impl Drop for NetworkDocument {
    /// Drops its parts here, so that each drop elsewhere is one call.
    fn drop(self) {
        let Self {
            devices: _,
            links: _,
            report: _,
        } = self;
    }
}

/// Reads the document at the path of a network of at most these sizes.
fn network_at(
    alloc: Global,
    path: &DocumentPath<'_>,
    value: &Value,
    sizes: Sizes,
) -> Result<NetworkDocument, Fault>
    ensures { Reads (network_faults_within sizes (pointer path.now) (view value.now))
        (network_of (view value.now)) result }
{
    object_of(alloc, path, value, &["devices", "links", "report"])?;
    let devices = required_entries::<NetworkDeviceReader>(
        alloc,
        path,
        value,
        "devices",
        sizes.devices,
    )?;
    let known = devices.as_slice();
    processes_are_few(alloc, path, known, sizes.processes)?;
    let links = links_member(alloc, path, value, known, sizes.links)?;
    let report = report_member(alloc, path, value, known)?;
    Ok(NetworkDocument {
        devices,
        links,
        report,
    })
}

/// Reads a document of a network of at most these sizes, as [`read_network`] does.
pub fn read_network_within(
    alloc: Global,
    value: &Value,
    sizes: Sizes,
) -> Result<NetworkDocument, Fault>
    ensures { Reads (network_faults_within sizes [] (view value.now)) (network_of (view value.now))
        result }
{
    network_at(alloc, &DocumentPath::Root, value, sizes)
}

/// Reads a network document. Fails with the first fault in the order of the walk, at its JSON Pointer in the document.
/// Faults in the configuration of a device are below `/devices/i/config`.
///
/// Fails with 102 for a member that is not allowed, 103 for a missing member, 104 for a value of the wrong kind, 105
/// for a value that is not allowed, 106 for a duplicate name, 115 for too many entries or too many collecting processes
/// over all devices, and 107 to 114 as in the document of a single device. Fails with 201 for a link whose device,
/// exporting process, destination or collecting process does not exist, 202 for a second link from one destination, 205
/// for a report whose collecting process does not exist, and 206 for a report with a key field that is not part of an
/// axis or with an axis twice. Fails with 900, at no place, if out of memory.
pub fn read_network(alloc: Global, value: &Value) -> Result<NetworkDocument, Fault>
    ensures { Reads (network_faults [] (view value.now)) (network_of (view value.now)) result }
{
    read_network_within(alloc, value, COMMAND_SIZES)
}
