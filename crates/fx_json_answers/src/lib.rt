//! Answers as JSON: one object with what a command answers, prints and explains.
#![tactic(auto)]

mod answer;
mod buffer;
mod facts;
mod files;
mod members;
mod places;
mod reasons;
mod texts;
mod totals;

pub use answer::{Answered, Context, put_answer};
pub use buffer::TextBuffer;
pub use facts::{certificate_fact, refutation_fact};
