//! Runs of an abstract network that are continued over more packets and by more steps, and steps made with the
//! destinations in use.
#![tactic(auto)]

mod laws;

pub use laws::{puts_are_given, runs_go_on, steps_are_made};
