//! The protocol after the headers of IPv6, and its ports.
ghost use Rattle.std.specs.Prelude.{◌≡◌};
ghost use Rattle.fx_pcap.specs.Headers as rfc8200;

use crate::order::network16;
use crate::ports::{PORTS, begins_with_ports};

/// A protocol and its ports, which are 0 if it has none and in later fragments.
#[derive(Clone, Copy)]
pub(crate) struct TransportHeader {
    pub(crate) protocol: u8,
    pub(crate) source_port: u16,
    pub(crate) destination_port: u16,
}

impl TransportHeader {
    /// Returns the protocol without ports.
    pub(crate) fn without_ports(protocol: u8) -> TransportHeader
        ensures { result ≡ rfc8200.without_ports protocol }
    {
        TransportHeader {
            protocol,
            source_port: 0,
            destination_port: 0,
        }
    }
}

/// Returns the protocol with these octets, or none if they end before its ports.
pub(crate) fn read_transport(protocol: u8, octets: &[u8]) -> Option<TransportHeader>
    ensures { result ≡ rfc8200.transport_in protocol octets.now }
{
    if !begins_with_ports(protocol) {
        return Some(TransportHeader::without_ports(protocol));
    }
    if octets.len() < PORTS {
        return None;
    }
    Some(TransportHeader {
        protocol,
        source_port: network16(octets, 0),
        destination_port: network16(octets, 2),
    })
}
