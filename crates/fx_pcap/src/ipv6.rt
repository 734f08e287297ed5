//! IPv6 packets (RFC 8200, section 3).
ghost use Rattle.std.specs.Prelude.{◌≡◌, ◌≤◌, length};
ghost use Rattle.fx_pcap.specs.Ipv6 as rfc8200;

use crate::content::Content;
use crate::extension::read_payload;
use crate::order::{network16, network128};
use crate::transport::TransportHeader;
use fx_boxes::Fields;

/// The number of octets of the fixed header.
const HEADER: usize = 40;

/// Returns the fields of a packet with its fixed header at the front of these octets.
fn fields_with(octets: &[u8], transport: TransportHeader) -> Fields
    requires { 40 ≤ length octets.now }
    ensures { result ≡ rfc8200.fields_with octets.now transport }
{
    Fields::of([
        0,
        0,
        u128::from(transport.protocol),
        u128::from(transport.source_port),
        u128::from(transport.destination_port),
        u128::from(network16(octets, 0) / 16 % 256),
        6,
        network128(octets, 8),
        network128(octets, 24),
    ])
}

/// Returns whether the fixed header is complete and is one of IPv6.
fn is_header(octets: &[u8]) -> bool
    ensures { result ≡ rfc8200.is_header octets.now }
{
    octets.len() >= HEADER && octets[0] / 16 == 6
}

/// Returns the captured part of the payload.
fn payload(octets: &[u8]) -> &[u8]
    requires { 40 ≤ length octets.now }
    ensures { result.now ≡ rfc8200.payload octets.now }
{
    let behind = &octets[HEADER..];
    &behind[..usize::from(network16(octets, 4)).min(behind.len())]
}

/// Reads the packet at the front of these octets.
pub(crate) fn read_ipv6(octets: &[u8]) -> Content
    ensures { result ≡ rfc8200.ipv6 octets.now }
{
    if !is_header(octets) {
        return Content::Malformed;
    }
    match read_payload(octets[6], payload(octets)) {
        Some(transport) => Content::Packet(
            fields_with(octets, transport),
            40 + u32::from(network16(octets, 4)),
        ),
        None => Content::Malformed,
    }
}
