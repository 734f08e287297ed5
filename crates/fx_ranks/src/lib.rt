//! The rank order of a network's collecting processes, in which each process follows all that feed it.
#![tactic(auto)]

mod feeders;
mod linked_processes;
mod order;

pub use order::{RankOrder, rank_order};
