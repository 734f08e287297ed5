//! The lines of a certificate: reading and writing of the one spelling of each item. Nothing here allocates.
#![tactic(auto)]

mod item;
mod laws;
mod put;
mod reading;

pub use item::{Item, Version};
pub use laws::one_text;
pub use put::put_item;
pub use reading::read_item;
