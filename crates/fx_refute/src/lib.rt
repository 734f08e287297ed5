//! Refutations: a run of one packet that shows a wrong total, its text, and the check that it refutes.
#![tactic(auto)]

mod confirming;
mod laws;
mod put;
mod reading;
mod refutation;

pub use confirming::{confirm, confirm_watched};
pub use laws::{refutations_have_one_text, refutations_refute};
pub use put::put_refutation;
pub use reading::read_refutation;
pub use refutation::{Refutation, STEPS};
