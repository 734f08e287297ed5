//! Networks that are audited in parts: when certificates of the parts certify the whole.
#![tactic(auto)]

mod check;
mod classes;
mod join;
mod laws;
mod meters;
mod network;
mod part;

pub use check::is_part;
pub use classes::classes_alike;
pub use join::{Join, Located};
pub use laws::{fates_of_parts, leaves_of_parts, parts_count_once};
pub use meters::meters_the_same;
pub use network::is_network;
pub use part::Part;
