//! Tests of the abstract network and of what it collects.
#![tactic(auto)]

#[cfg(test)]
mod answers;
#[cfg(test)]
mod collect;
#[cfg(test)]
mod covered;
#[cfg(test)]
mod leaf;
#[cfg(test)]
mod leaf_chain;
#[cfg(test)]
mod leaf_filters;
#[cfg(test)]
mod link;
#[cfg(test)]
mod machine;
#[cfg(test)]
mod machine_runs;
#[cfg(test)]
mod meters;
#[cfg(test)]
mod parts;
#[cfg(test)]
mod session;
#[cfg(test)]
mod session_addresses;
#[cfg(test)]
mod session_hostile;
#[cfg(test)]
mod session_watched;
#[cfg(test)]
mod words;
#[cfg(test)]
mod wrong_runs;
