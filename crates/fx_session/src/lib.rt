//! Reading of IPFIX streams into flow records (RFC 7011), in pieces of any size.
#![tactic(auto)]

mod data_set;
mod domain;
mod field_numbers;
mod flow;
mod front;
mod key;
mod laws;
mod number;
mod places;
mod session;
mod sets;
mod stream_fault;
mod stream_state;
mod taken_records;
mod template;
mod template_set;
mod templates;
mod watch;

pub use front::remove_front;
pub use laws::sets_by_cases;
pub use session::{Session, pieces, waiting};
pub use stream_fault::StreamFault;
pub use template::Template;
pub use watch::{SessionWatch, Unwatched};
