//! Explanations of documents: why one is refused, and what is doubtful in accepted ones.
#![tactic(auto)]

mod allowed;
mod counters;
mod cycles;
mod directions;
mod documents;
mod elements;
mod ends;
mod entries;
mod excluding;
mod interfaces;
mod joined_parts;
mod json;
mod json_faults;
mod kinds;
mod layouts;
mod lints;
mod members;
mod overlapping;
mod parts;
mod pointers;
mod prefixes;
mod scanning;
mod similar_names;
mod spelling;
mod unobserved;
mod unread;
mod unused;
mod values;

pub use documents::{put_refused_network, put_refused_traffic};
pub use joined_parts::{JoinFinding, put_join_finding};
pub use lints::{put_network_notes, put_traffic_notes};
