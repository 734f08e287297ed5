//! The content of a line of a certificate.
use fx_elements::Axis;

/// The version of a certificate's form.
#[derive(Clone, Copy, Debug, PartialEq, Eq)]
pub enum Version {
    /// `1`, which has no `N`.
    One,
    /// `2`, which may have `N`.
    Two,
}

/// The content of a line of a certificate. Numbers that name something are 1-based.
#[derive(Clone, Copy, Debug, PartialEq, Eq)]
pub enum Item {
    /// The first line, `once-certificate 1` or `once-certificate 2`.
    Header(Version),
    /// `class CLASS path PATH`: a tree for this path of this class follows.
    Class {
        /// The number of the class.
        class: u64,
        /// The number of the path in its class.
        path: u64,
    },
    /// `S AXIS AT`: the tree of the values below `at` follows, then that of those from `at` on.
    Split {
        /// The axis, by its word: `source`, `destination`, `protocol`, `sport`, `dport`, `tos`, `version`, `source6` or
        /// `destination6`.
        axis: Axis,
        /// A value of the axis, in decimal even for an address.
        at: u128,
    },
    /// `L CROSSING POINT PROCESS`: the one occurrence that counts each packet of the region.
    Leaf {
        /// The number of the crossing on the path.
        crossing: u64,
        /// The number of the observation point on its device.
        point: u64,
        /// The number of the selection process at its point.
        process: u64,
    },
    /// `N`: no packet of the region is counted.
    Never,
    /// The last line, `end`.
    End,
}
