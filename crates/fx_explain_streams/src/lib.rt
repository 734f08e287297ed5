//! Explanations of captures and of IPFIX streams.
#![tactic(auto)]

mod captures;
mod collections;
mod declarations;
mod doubts;
mod key_fields;
mod refused_data;
mod refused_messages;
mod refused_templates;
mod stream_watch;
mod streams;

pub use captures::put_refused_capture;
pub use collections::put_left_out;
pub use stream_watch::StreamWatch;
pub use streams::put_refused_message;
