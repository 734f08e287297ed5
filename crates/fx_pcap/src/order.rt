//! Numbers in octets, in either byte order.
ghost use Rattle.std.specs.Prelude.{◌≡◌, ◌+◌, ◌≤◌, length};
ghost use Rattle.fx_pcap.specs.Numbers.{number_in, network};

use byteorder::{BigEndian, ByteOrder, LittleEndian};

/// The byte order of a number: most significant or least significant octet first.
#[derive(Clone, Copy)]
pub(crate) enum Order {
    Big,
    Little,
}

impl Order {
    /// Returns the number in two octets from an index on.
    pub(crate) fn read16(self, octets: &[u8], at: usize) -> u16
        requires { at + 2 ≤ length octets.now }
        ensures { result ≡ number_in self 2 at octets.now }
    {
        match self {
            Order::Big => BigEndian::read_u16(&octets[at..]),
            Order::Little => LittleEndian::read_u16(&octets[at..]),
        }
    }

    /// Returns the number in four octets from an index on.
    pub(crate) fn read32(self, octets: &[u8], at: usize) -> u32
        requires { at + 4 ≤ length octets.now }
        ensures { result ≡ number_in self 4 at octets.now }
    {
        match self {
            Order::Big => BigEndian::read_u32(&octets[at..]),
            Order::Little => LittleEndian::read_u32(&octets[at..]),
        }
    }
}

/// Returns the number in two octets from an index on, in network order.
pub(crate) fn network16(octets: &[u8], at: usize) -> u16
    requires { at + 2 ≤ length octets.now }
    ensures { result ≡ network 2 at octets.now }
{
    Order::Big.read16(octets, at)
}

/// Returns the number in four octets from an index on, in network order.
pub(crate) fn network32(octets: &[u8], at: usize) -> u32
    requires { at + 4 ≤ length octets.now }
    ensures { result ≡ network 4 at octets.now }
{
    Order::Big.read32(octets, at)
}

/// Returns the number in sixteen octets from an index on, in network order.
pub(crate) fn network128(octets: &[u8], at: usize) -> u128
    requires { at + 16 ≤ length octets.now }
    ensures { result ≡ network 16 at octets.now }
{
    BigEndian::read_u128(&octets[at..])
}
