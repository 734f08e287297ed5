//! Limits on the number of entries in lists.

/// The maximum number of entries in a list that has no other limit.
pub const ENTRIES: usize = 256;

/// The maximum number of selectors of a selection process.
pub const SELECTORS: usize = 16;

/// The maximum number of fields in the layout of a cache or in the key of an aggregation.
pub const FIELDS: usize = 32;
