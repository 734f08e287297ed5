//! The result of a search.

use fx_cert::Item;
use fx_refute::Refutation;

/// The result of a search.
#[derive(Drop)]
pub enum Found {
    /// The items, in order, of a certificate that the checker accepts: the declared traffic is counted exactly once.
    Certificate(Vec<Item>),
    /// A run of one packet that shows a wrong total: the declared traffic is not counted exactly once.
    Refutation(Refutation),
}
