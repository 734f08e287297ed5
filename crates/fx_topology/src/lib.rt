//! Network documents: devices with their configurations, the links between them, and the report.
#![tactic(auto)]

mod ends;
mod key_layout;
mod limits;
mod link;
mod link_table;
mod links;
mod network;
mod network_device;
mod process_count;
mod report;

pub use limits::Sizes;
pub use link::NamedLink;
pub use link_table::LinkTable;
pub use network::{NetworkDocument, read_network, read_network_within};
pub use network_device::NetworkDevice;
pub use report::Report;
