//! The streaming checker of certificates.
#![tactic(auto)]

mod checker;
mod checking;
mod due;
mod judging;
mod laws;
mod line_fault;
mod progress;
mod stack;
mod tables;
mod watch;

pub use checker::Checker;
pub use checking::{check, check_watched};
pub use due::Due;
pub use laws::{
    certificates_are_accepted, certificates_count_once, certificates_join,
    wrong_leaves_are_reported,
};
pub use tables::tables_of;
pub use watch::{CheckWatch, Unwatched};
