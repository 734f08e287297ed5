//! IPv4 packets (RFC 791, section 3.1).
ghost use Rattle.std.specs.Prelude.{◌≡◌, ◌+◌, ◌*◌, ◌%◌, ◌≤◌, ◌∷◌, [], length};
ghost use Rattle.fx_pcap.specs.Ipv4 as rfc791;

use crate::content::Content;
use crate::order::{network16, network32};
use crate::ports::{PORTS, begins_with_ports};
use fx_boxes::Fields;

/// The least number of octets of a header.
const LEAST_HEADER: usize = 20;

/// Returns the fields of a packet with its header at the front of these octets.
fn fields_with(octets: &[u8], source_port: u16, destination_port: u16) -> Fields
    requires { 20 ≤ length octets.now }
    ensures { result ≡ rfc791.fields_with octets.now source_port destination_port }
{
    Fields::of([
        u128::from(network32(octets, 12)),
        u128::from(network32(octets, 16)),
        u128::from(octets[9]),
        u128::from(source_port),
        u128::from(destination_port),
        u128::from(octets[1]),
        4,
        0,
        0,
    ])
}

/// Returns whether the header is complete and can be one of IPv4.
fn is_header(octets: &[u8]) -> bool
    ensures { result ≡ rfc791.is_header octets.now }
{
    if octets.len() < LEAST_HEADER {
        return false;
    }
    let header = usize::from(octets[0] % 16) * 4;
    octets[0] / 16 == 4 && LEAST_HEADER <= header && header <= usize::from(network16(octets, 2))
}

/// Returns whether ports follow the header, because the protocol has them and it is a first fragment.
fn has_ports(octets: &[u8]) -> bool
    requires { 20 ≤ length octets.now }
    ensures { result ≡ rfc791.has_ports octets.now }
{
    begins_with_ports(octets[9]) && network16(octets, 6) % 8192 == 0
}

/// Reads the packet at the front of these octets.
pub(crate) fn read_ipv4(octets: &[u8]) -> Content
    ensures { result ≡ rfc791.ipv4 octets.now }
{
    if !is_header(octets) {
        return Content::Malformed;
    }
    let total = network16(octets, 2);
    if !has_ports(octets) {
        return Content::Packet(fields_with(octets, 0, 0), u32::from(total));
    }
    let header = usize::from(octets[0] % 16) * 4;
    if octets.len().min(usize::from(total)) < header + PORTS {
        return Content::Malformed;
    }
    let source_port = network16(octets, header);
    let destination_port = network16(octets, header + 2);
    Content::Packet(
        fields_with(octets, source_port, destination_port),
        u32::from(total),
    )
}
