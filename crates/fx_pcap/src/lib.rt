//! Captures in the classic pcap format, read into frames that borrow the reader's buffer.
#![tactic(auto)]

mod capture;
mod content;
mod ethernet;
mod extension;
mod frame;
mod header;
mod ipv4;
mod ipv6;
mod laws;
mod order;
mod ports;
mod record;
mod skipped;
mod stop;
mod transport;

pub use capture::Capture;
pub use frame::Frame;
pub use laws::{headers_one_by_one, records_by_cases};
pub use skipped::Skipped;
