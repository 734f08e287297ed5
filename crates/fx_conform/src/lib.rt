//! Conformance: what a running network does are steps of the abstract one.
#![tactic(auto)]

mod closing;
mod links;
mod networks;
mod stores;
mod whole;

pub use closing::closing_leaves_nothing;
pub use links::{held_can_be_sent, links_are_carried};
pub use networks::plans_are_sound;
pub use stores::{
    holders_are_emptied, nothing_is_held, records_are_kept, stores_stay_usable, stores_take_in,
};
pub use whole::{calls_are_rows, declarations_have_paths, runs_are_complete};
