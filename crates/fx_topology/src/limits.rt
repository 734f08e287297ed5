//! Limits on the size of a network document.

/// How many devices, links and collecting processes a network document may have.
#[derive(Clone, Copy, Debug)]
pub struct Sizes {
    /// The maximum number of devices.
    pub devices: usize,
    /// The maximum number of links.
    pub links: usize,
    /// The maximum number of collecting processes, over all devices.
    pub processes: usize,
}

/// The sizes of the documents of commands.
pub(crate) const COMMAND_SIZES: Sizes = Sizes {
    devices: 64,
    links: 1024,
    processes: 256,
};

/// The maximum number of fields in the report's key.
pub const KEY_FIELDS: usize = 32;
