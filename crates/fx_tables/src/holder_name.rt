//! Names of holders of records in steps.

/// A holder of records by number: a device, what is on it, and what is in that. All numbers are 1-based.
#[derive(Clone, Copy, Debug, PartialEq, Eq)]
pub enum HolderName {
    /// A cache of a device (RFC 6728, section 4.3).
    Cache {
        device: u64,
        cache: u64,
    },
    /// An aggregation of a collecting process of a device.
    Aggregation {
        device: u64,
        process: u64,
        aggregation: u64,
    },
}
