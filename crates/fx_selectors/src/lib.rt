//! What selection processes select: regions of packets, and the processes of a device that a crossing feeds.
#![tactic(auto)]

mod feeding;
mod region;

pub use feeding::{FedPairs, feeds};
pub use region::region_of;
