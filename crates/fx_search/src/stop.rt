//! Where a search stops before its certificate is complete.

use crate::growing::Ahead;
use crate::outcome::Limit;
use fx_leaf::Judgement;

/// Why a search stops at a region.
#[derive(Clone, Copy)]
pub(crate) enum Why {
    /// The packets of the region do not have the wanted fate.
    Wrong(Judgement),
    /// A certificate that continues there is too large.
    TooLarge(Limit),
}

/// A region at which a search stops.
#[derive(Drop)]
pub(crate) struct Stop<'a> {
    pub(crate) ahead: Ahead<'a>,
    pub(crate) why: Why,
}
