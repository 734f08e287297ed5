//! Ethernet frames, with tags (IEEE 802.1Q and 802.1ad).
ghost use Rattle.std.specs.Prelude.{◌≡◌, ◌≤◌, length, drop};
ghost use Rattle.fx_pcap.specs.Frames as frames;
ghost use Rattle.fx_pcap.specs.Frames.{after_tags};

use crate::content::Content;
use crate::ipv4::read_ipv4;
use crate::ipv6::read_ipv6;
use crate::order::network16;

/// The number of octets of the two addresses.
const ADDRESSES: usize = 12;

/// The number of octets of a tag.
const TAG: usize = 4;

/// The EtherType of IPv4.
const IPV4: u16 = 0x0800;

/// The EtherType of IPv6.
const IPV6: u16 = 0x86dd;

/// Returns whether the EtherType is that of a tag, of a customer's or of a provider's network.
fn is_tag(ether_type: u16) -> bool
    ensures { result ≡ frames.is_tag ether_type }
{
    ether_type == 0x8100 || ether_type == 0x88a8
}

/// Returns the index of the first EtherType that isn't a tag's, or of the end of the tags' octets.
fn place_after_tags(octets: &[u8]) -> usize
    requires { 12 ≤ length octets.now }
    ensures bound { result ≤ length octets.now }
    ensures place { drop result octets.now ≡ after_tags (drop 12 octets.now) }
{
    let mut at = ADDRESSES;
    while octets.len() - at >= TAG && is_tag(network16(octets, at)) {
        at += TAG;
    }
    at
}

/// Reads what follows all tags: an EtherType, and what it names.
fn read_typed(octets: &[u8]) -> Content
    ensures { result ≡ frames.content_by_type octets.now }
{
    if octets.len() < 2 {
        return Content::Malformed;
    }
    let ether_type = network16(octets, 0);
    if is_tag(ether_type) {
        return Content::Malformed;
    }
    match ether_type {
        IPV4 => read_ipv4(&octets[2..]),
        IPV6 => read_ipv6(&octets[2..]),
        _ => Content::Other,
    }
}

/// Reads the content of an Ethernet frame.
pub(crate) fn read_ethernet(octets: &[u8]) -> Content
    ensures { result ≡ frames.content_by_type (after_tags (drop 12 octets.now)) }
{
    if octets.len() < ADDRESSES {
        return Content::Malformed;
    }
    read_typed(&octets[place_after_tags(octets)..])
}
