//! Sums of totals that were collected apart: texts of totals read and added up, and the sum's own text.
#![tactic(auto)]

mod laws;
mod line_behind;
mod note;
mod notes;
mod notes_put;
mod record_line;
mod sum;
mod text_lines;

pub use laws::{sums_of_parts, totals_texts};
pub use sum::Sum;
