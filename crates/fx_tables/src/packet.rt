//! Packets.
use fx_boxes::Fields;

/// A packet: the values of its fields, its octets, its class and its path through the network.
#[derive(Clone, Copy, Debug, PartialEq, Eq)]
pub struct Packet {
    pub fields: Fields,
    /// The octets of the packet, IP header and payload.
    pub octets: u64,
    /// The 1-based number of its class.
    pub class: u64,
    /// The 1-based number of its path within its class.
    pub path: u64,
}
