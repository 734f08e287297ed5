//! Destinations of exporting processes.
ghost use Rattle.std.specs.Prelude.{◌≡◌};
ghost use Rattle.serde_json.specs.View.{view};
ghost use Rattle.fx_walk.specs.Pointer.{pointer};
ghost use Rattle.fx_walk.specs.Walk.{Reads, row_faults};
ghost use Rattle.fx_config.specs.Destinations.{destination_faults, destination_of, transport_of, transport_rows};

use crate::entry_name::entry_name;
use fx_base::{Fault, Name, refusals};
use fx_walk::{DocumentPath, Entry, Named, Names, Refused, none_of, one_of};
use serde_json::Value;
use std::alloc::Global;

/// The transport of the messages sent to a destination (RFC 7011, section 10).
#[derive(Clone, Copy, Debug, PartialEq, Eq)]
pub enum Transport {
    /// The Transmission Control Protocol.
    Tcp,
    /// The Stream Control Transmission Protocol.
    Sctp,
    /// The User Datagram Protocol.
    Udp,
}

/// Returns the transport of a destination, given by its exporter.
fn transport_of(object: &Value) -> Transport
    ensures { result ≡ transport_of (view object.now) }
{
    if object.get("tcpExporter").is_some() {
        Transport::Tcp
    } else if object.get("sctpExporter").is_some() {
        Transport::Sctp
    } else {
        Transport::Udp
    }
}

/// Reads the transport of the destination at the path. Exactly one exporter must be given.
fn read_transport(alloc: Global, path: &DocumentPath<'_>, value: &Value) -> Result<Transport, Fault>
    ensures { Reads (row_faults transport_rows (pointer path.now) (view value.now))
        (transport_of (view value.now)) result }
{
    let files = Refused {
        name: "fileWriter",
        number: refusals::FILE_TRANSPORT,
    };
    none_of(alloc, path, value, &[files])?;
    one_of(
        alloc,
        path,
        value,
        &["tcpExporter", "sctpExporter", "udpExporter"],
    )?;
    Ok(transport_of(value))
}

/// A destination to which an exporting process sends records (RFC 6728, section 4.4).
#[derive(Debug, Drop)]
pub struct Destination {
    /// Its name, unique among the destinations of the process.
    pub name: Name,
    /// The transport of the messages sent there.
    pub transport: Transport,
}

impl Named for Destination {
    ghost name = { λ destination. destination.name };

    fn name(&self) -> &Name {
        &self.name
    }
}

/// A reader of destinations.
pub(crate) struct DestinationReader;

impl Entry for DestinationReader {
    type Read = Destination;

    ghost faults = { destination_faults };

    ghost meaning = { destination_of };

    ghost name = { λ destination. destination.name };

    fn from_entry(
        alloc: Global,
        path: &DocumentPath<'_>,
        value: &Value,
        earlier: &mut Names,
    ) -> Result<Destination, Fault> {
        let name = entry_name(
            alloc,
            path,
            value,
            &[
                "name",
                "fileWriter",
                "tcpExporter",
                "sctpExporter",
                "udpExporter",
            ],
            earlier,
        )?;
        let transport = read_transport(alloc, path, value)?;
        Ok(Destination { name, transport })
    }
}
