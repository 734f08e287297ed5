//! Tests of the crates of values: what they read, write, contain and refuse.
#![tactic(auto)]

#[cfg(test)]
mod answers;
#[cfg(test)]
mod base;
#[cfg(test)]
mod boxes;
#[cfg(test)]
mod cert;
#[cfg(test)]
mod elements;
#[cfg(test)]
mod frames;
#[cfg(test)]
mod layout;
#[cfg(test)]
mod packets;
#[cfg(test)]
mod pcap;
#[cfg(test)]
mod store;
#[cfg(test)]
mod sums;
#[cfg(test)]
mod wire;
#[cfg(test)]
mod words;
