//! Joins certified parts of a network of any size: from the octets of the whole's documents and of the parts to the
//! answer.
#![tactic(auto)]

mod class_names;
mod ending;
mod explainer;
mod join_command;
mod joining;
mod part_check;
mod part_reader;
mod places;
mod stream;
mod whole;

pub use explainer::{JoinExplainer, ProcessName};
pub use join_command::{join_bytes, join_explained};
