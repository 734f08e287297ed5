/// The numbers of skipped frames, each modulo 2 to the 64.
#[derive(Clone, Copy, Debug, PartialEq, Eq)]
pub struct Skipped {
    /// Those that are neither IPv4 nor IPv6.
    pub other: u64,
    /// Those whose octets end before what is read, or that have impossible lengths.
    pub malformed: u64,
}
