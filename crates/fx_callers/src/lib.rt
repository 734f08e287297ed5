//! A caller of each crate that others may build on: the code that its CALLING.md quotes, proved.
#![tactic(auto)]

mod documents;
mod flows;
mod leaves;
mod searches;
mod streams;
#[cfg(test)]
mod tests;

pub use documents::{Site, SiteReader};
pub use flows::{count_packet, room_for};
pub use leaves::leaf_of;
pub use searches::counts_once;
pub use streams::records_of;
