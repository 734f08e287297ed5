//! What the next line of a certificate must be.

use fx_boxes::Region;
use fx_cert::Version;
use fx_traffic::Target;

/// What the next line of a certificate must be.
#[derive(Clone, Copy, Drop)]
pub enum Due<'a> {
    /// The first line, which names the version.
    Header,
    /// The line `class CLASS PATH` of this target.
    Target(&'a Target<'a>),
    /// A leaf or a split: the first line of the tree of a region of this target.
    Tree {
        /// The version that the first line names.
        version: Version,
        /// The path of a class whose tree it belongs to.
        target: &'a Target<'a>,
        /// The packets that the line describes.
        region: &'a Region,
        /// The number of splits above the region, 0 for the whole region of the class.
        depth: u32,
    },
    /// The line `end`.
    End,
    /// Nothing: the line `end` was read.
    Nothing,
}
