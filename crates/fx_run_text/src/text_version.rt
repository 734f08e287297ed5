//! The versions of the text of a run.

/// A version of the text of a run.
#[derive(Clone, Copy, Debug, PartialEq, Eq)]
pub enum TextVersion {
    /// The line of a packet has the six axes of IPv4; the packet has version 4 and zeros on the axes of IPv6.
    One,
    /// The line of a packet has a value on each axis.
    Two,
}
