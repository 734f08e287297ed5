//! Refusals in words: what is wrong, the usual causes, what to do, and where to read more.
#![tactic(auto)]

mod captures;
mod certificates;
mod devices;
mod explain;
mod laws;
mod lookup;
mod machine;
mod networks;
mod refusal;
mod refutations;
mod runs;
mod streams;
mod traffic;

pub use explain::{put_explanation, put_reason, put_refusal_list};
pub use laws::each_number_has_its_words;
pub use lookup::refusal_of;
pub use refusal::Refusal;
