//! Layouts and keys: which leading bits of which axes distinguish flows, the values of packets there, and the hash that
//! is used to find keys.
#![tactic(auto)]

mod key;
mod layout;
mod seed;
mod values;

pub use key::{Key, leading_bits};
pub use layout::{Layout, Part};
pub use seed::{Seed, SeededHasher};
pub use values::Values;
