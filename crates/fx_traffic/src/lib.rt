//! Declarations of traffic: the classes of the packets that cross a network, and the paths that they take.
#![tactic(auto)]

mod class;
mod crossing;
mod limits;
mod list;
mod path;
mod region;
mod targets;
mod text;
mod traffic;

pub use targets::Target;
pub use traffic::{Traffic, read_traffic, read_traffic_within};
