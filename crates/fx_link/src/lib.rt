//! Writing of records to links, and reading from them.
#![tactic(auto)]

mod laws;
mod link;
mod links;
mod opened;
mod outlet;
mod records;
mod sender;
mod sinks;
mod stream;
mod templates;

pub use laws::{links_keep_records, records_are_read};
pub use link::Link;
pub use links::{Links, Nowhere};
pub use opened::{MakeSink, OpenedSinks};
pub use sinks::Sinks;
