//! Information elements: the axes that distinguish packets, the elements by name and number, and the spelling of
//! values.
#![tactic(auto)]

mod address6;
mod axis;
mod element;
mod groups;
mod put;
mod spelling;
mod values;
mod words;

pub use address6::{many_spellings, read_address6, read_prefix6};
pub use axis::{AXES, AXIS_NAMES, Axis, EVERY_AXIS, TOPS, top, width};
pub use element::{Element, by_id, by_name};
pub use groups::read_groups;
pub use put::put_value;
pub use spelling::{one_spelling, read_number, read_prefix, read_quad, read_u64, split_at_byte};
pub use values::{Range, read_on, read_value, read_written, values_fit};
pub use words::{Words, is_word};
