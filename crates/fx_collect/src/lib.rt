//! Totals: the counts of a collector under each key, and their text.
#![tactic(auto)]

mod laws;
mod report;
mod totals;

pub use laws::totals_of_runs;
pub use report::put_number_line;
pub use totals::Totals;
