//! The search for certificates and for runs that refute.
#![tactic(auto)]

mod found;
mod growing;
mod outcome;
mod searching;
mod stop;
mod watch;

pub use found::Found;
pub use outcome::{Limit, Outcome, ReachedLimit, RefutedRegion};
pub use searching::{search, search_outcome};
pub use watch::{Unwatched, Watch};
