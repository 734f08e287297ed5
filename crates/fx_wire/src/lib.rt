//! IPFIX messages in octets (RFC 7011): headers, sets, templates and data records, borrowed from the octets, and output
//! of messages. Nothing here allocates.
#![tactic(auto)]

mod field;
mod header;
mod malformed;
mod message;
mod number;
mod put;
mod set;
mod template;
mod value;

pub use field::{FieldSpecifier, FieldSpecifiers, can_have};
pub use header::Header;
pub use malformed::Malformed;
pub use message::{Message, Parsed, parse};
pub use put::{message_length, messages_are_read, put_message};
pub use set::{Set, Sets};
pub use template::{NewTemplate, TemplateHeading, TemplateKind, read_heading};
pub use value::{VARIABLE, cut_record, cut_value, shortest_record};
