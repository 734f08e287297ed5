//! Limits on the number of entries in lists.

/// The maximum number of classes.
pub const CLASSES: usize = 256;

/// The maximum number of paths of a class.
pub const PATHS: usize = 16;

/// The maximum number of crossings of a path.
pub const CROSSINGS: usize = 32;
