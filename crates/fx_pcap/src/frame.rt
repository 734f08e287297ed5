use fx_boxes::Fields;

/// A frame of a capture, which borrows the octets of the reader's buffer.
#[derive(Clone, Copy, Debug)]
pub struct Frame<'a> {
    /// The octets that were captured, from the link header on.
    pub captured: &'a [u8],
    /// The value of the packet on each axis.
    pub fields: Fields,
    /// The number of octets of the packet, header and payload.
    pub octets: u32,
    /// The time when it was captured, in seconds since 1970-01-01 00:00 UTC.
    pub second: u32,
}
