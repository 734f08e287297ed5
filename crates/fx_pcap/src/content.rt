//! The content of the captured octets of a frame.
ghost use Rattle.std.specs.Prelude.{◌≡◌};
ghost use Rattle.fx_pcap.specs.Frames.{content_of};

use crate::ethernet::read_ethernet;
use crate::ipv4::read_ipv4;
use crate::ipv6::read_ipv6;
use fx_boxes::Fields;

/// The first header of a capture's octets, by its link type.
#[derive(Clone, Copy)]
pub(crate) enum LinkType {
    Ethernet,
    Ip,
}

/// The content of a frame.
#[derive(Clone, Copy)]
pub(crate) enum Content {
    /// A packet: its value on each axis, and its number of octets.
    Packet(Fields, u32),
    Other,
    Malformed,
}

/// Reads the content of the captured octets of a frame.
pub(crate) fn read_content(link: LinkType, octets: &[u8]) -> Content
    ensures { result ≡ content_of link octets.now }
{
    match link {
        LinkType::Ethernet => read_ethernet(octets),
        LinkType::Ip => match octets {
            [] => Content::Malformed,
            [first, ..] => match *first / 16 {
                4 => read_ipv4(octets),
                6 => read_ipv6(octets),
                _ => Content::Other,
            },
        },
    }
}
