//! A running network.
#![tactic(auto)]

mod action;
mod arriving;
mod closing;
mod contents;
mod exporting;
mod finishing;
mod holding;
mod leaving;
mod metering;
mod network;
mod obeying;
mod opening;
mod running;
mod schedule;
mod stop;
mod store;
mod taking;

pub use action::Action;
pub use network::Network;
pub use running::run;
