//! The limit on the layouts of a network.

/// The greatest number of different layouts of a network's records: `layout_limit` of the definitions.
pub const LAYOUTS: usize = 64;
