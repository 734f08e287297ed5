//! Stores of flows: finite maps from flow keys to counts, unbounded or bounded by least recent use.
#![tactic(auto)]

mod bounded;
mod list;
mod ordered;
mod store;

pub use bounded::BoundedStore;
pub use list::ListStore;
pub use store::FlowStore;
