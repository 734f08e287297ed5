//! The file header of a capture.
ghost use Rattle.std.specs.Prelude.{◌≡◌, ◌+◌, ◌≤◌, length};
ghost use Rattle.fx_pcap.specs.Records as records;

use crate::content::LinkType;
use crate::order::Order;
use fx_base::{Fault, refusals};

/// The number of octets of the file header.
pub(crate) const FILE_HEADER: usize = 24;

/// The format of a capture.
#[derive(Clone, Copy)]
pub(crate) struct Format {
    pub(crate) order: Order,
    pub(crate) link: LinkType,
}

/// Returns whether the number is the magic of a capture, with microseconds or with nanoseconds.
fn is_magic(number: u32) -> bool
    ensures { result ≡ records.is_magic number }
{
    number == 0xa1b2_c3d4 || number == 0xa1b2_3c4d
}

/// Returns the byte order of the numbers of a capture.
fn order_of(octets: &[u8]) -> Option<Order>
    requires { 24 ≤ length octets.now }
    ensures { result ≡ records.order_of octets.now }
{
    if is_magic(Order::Big.read32(octets, 0)) {
        return Some(Order::Big);
    }
    if is_magic(Order::Little.read32(octets, 0)) {
        return Some(Order::Little);
    }
    None
}

/// Returns the link type with this number, if it is supported.
fn link_of(number: u32) -> Option<LinkType>
    ensures { result ≡ records.link_of number }
{
    match number {
        1 => Some(LinkType::Ethernet),
        101 => Some(LinkType::Ip),
        _ => None,
    }
}

/// Reads the format of a capture that begins with these octets.
///
/// Fails with 701 at octet 0 if the header is cut, or has another magic or version, and with 702, at no place, for
/// another link type.
pub(crate) fn read_format(octets: &[u8]) -> Result<Format, Fault>
    ensures { result ≡ records.format_of octets.now }
{
    if octets.len() < FILE_HEADER {
        return Err(Fault::at_octet(refusals::CAPTURE_FORMAT, 0));
    }
    let Some(order) = order_of(octets) else {
        return Err(Fault::at_octet(refusals::CAPTURE_FORMAT, 0));
    };
    if order.read16(octets, 4) != 2 || order.read16(octets, 6) != 4 {
        return Err(Fault::at_octet(refusals::CAPTURE_FORMAT, 0));
    }
    match link_of(order.read32(octets, 20)) {
        Some(link) => Ok(Format { order, link }),
        None => Err(Fault::bare(refusals::LINK_TYPE)),
    }
}
