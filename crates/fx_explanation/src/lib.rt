//! What explanations share: text without control characters, names, crossings, regions and fields.
#![tactic(auto)]

mod accepted;
mod crossings;
mod explanation;
mod fields;
mod formats;
mod names;
mod other_files;
mod paths;
mod places;
mod regions;
mod sending;

pub use accepted::{Documents, class_name, unless_refused, value_of_document};
pub use crossings::{write_crossing, write_numbered};
pub use explanation::{Explanation, between};
pub use fields::{element_name, write_allowed_length, write_element, write_field};
pub use formats::{flow_format, format_of, is_pcapng, is_text, packed_format};
pub use names::{entry_named, link_from, selection_process};
pub use other_files::{foreign_words, write_other_file};
pub use paths::{write_class, write_path};
pub use places::{are_digits, number_in, number16, number32, octet_at, part, write_digits};
pub use regions::{axis_word, write_region, write_values};
pub use sending::{chooses, write_end, write_sending};
