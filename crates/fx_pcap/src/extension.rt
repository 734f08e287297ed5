//! Extension headers (RFC 8200, section 4).
ghost use Rattle.std.specs.Prelude.{◌≡◌, ◌≤◌, length};
ghost use Rattle.fx_pcap.specs.Headers as rfc8200;

use crate::order::network16;
use crate::transport::{TransportHeader, read_transport};

/// The type of the fragment header.
const FRAGMENT: u8 = 44;

/// Returns whether a header of the type is an extension header: hop-by-hop options, routing, fragment or destination
/// options.
fn is_extension(header: u8) -> bool
    ensures { result ≡ rfc8200.is_extension header }
{
    header == FRAGMENT || header == 0 || header == 43 || header == 60
}

/// Returns how many octets of the header are read; the others are skipped.
fn octets_read(header: u8) -> usize
    ensures { result ≡ rfc8200.octets_read header }
{
    if header == FRAGMENT { 4 } else { 2 }
}

/// Returns the number of octets of the header.
fn header_length(header: u8, octets: &[u8]) -> usize
    requires { rfc8200.octets_read header ≤ length octets.now }
    ensures { result ≡ rfc8200.header_length header octets.now }
{
    if header == FRAGMENT {
        8
    } else {
        8 * (usize::from(octets[1]) + 1)
    }
}

/// Returns whether the header is that of a fragment that isn't the first of its packet.
fn is_later_fragment(header: u8, octets: &[u8]) -> bool
    requires { rfc8200.octets_read header ≤ length octets.now }
    ensures { result ≡ rfc8200.is_later_fragment header octets.now }
{
    header == FRAGMENT && network16(octets, 2) / 8 > 0
}

/// Returns the protocol after the extension headers of a payload whose first header has this type, or none if the
/// octets end before what is read.
pub(crate) fn read_payload(first: u8, octets: &[u8]) -> Option<TransportHeader>
    ensures { result ≡ rfc8200.transport_of first octets.now }
{
    let mut header = first;
    let mut at = 0;
    'headers: while is_extension(header) {
        let rest = &octets[at..];
        if rest.len() < octets_read(header) {
            return None;
        }
        if is_later_fragment(header, rest) {
            return Some(TransportHeader::without_ports(rest[0]));
        }
        at = (at + header_length(header, rest)).min(octets.len());
        header = rest[0];
    }
    read_transport(header, &octets[at..])
}
