//! Tests of the program's arguments, last lines and statuses.
#![tactic(auto)]

#[cfg(test)]
mod checker;
#[cfg(test)]
mod endings;
#[cfg(test)]
mod words;
