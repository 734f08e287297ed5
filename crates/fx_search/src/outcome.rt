//! The outcome of a search, with the reasons for it.

use fx_boxes::Region;
use fx_cert::Item;
use fx_leaf::Judgement;
use fx_refute::Refutation;

/// A run of one packet that shows a wrong total, and the region whose least packet it is.
#[derive(Drop)]
pub struct RefutedRegion {
    /// The run.
    pub refutation: Refutation,
    /// The number of the class, from 1 in document order.
    pub class: u64,
    /// The number of the path, from 1 among those of the class.
    pub path: u64,
    /// The region: the first one that nothing cuts and whose packets do not have the fate that the class wants.
    pub region: Region,
    /// The verdict on all packets of the region that take the path.
    pub judgement: Judgement,
}

/// The limit that ends a search.
#[derive(Clone, Copy, Debug, PartialEq, Eq)]
pub enum Limit {
    /// A certificate would need one more split or leaf line than it may have.
    Lines,
    /// A certificate would need a split at depth 512, where the first has depth 0.
    Depth,
    /// No run of at most 1,000,000 steps brings the least packet of the region to a fate other than the wanted one.
    Steps,
}

/// A limit that a search reaches, and where.
#[derive(Drop)]
pub struct ReachedLimit {
    /// The limit.
    pub limit: Limit,
    /// The number of the class, from 1 in document order.
    pub class: u64,
    /// The number of the path, from 1 among those of the class.
    pub path: u64,
    /// The region whose tree would come next.
    pub region: Region,
}

/// The outcome of a search.
#[derive(Drop)]
pub enum Outcome {
    /// The items, in order, of a certificate that the checker accepts: the declared traffic is counted exactly once.
    Certificate(Vec<Item>),
    /// A refutation: the declared traffic is not counted exactly once.
    Refuted(RefutedRegion),
    /// Neither was found within the limits.
    TooLarge(ReachedLimit),
}
