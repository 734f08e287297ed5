//! The least number of steps in which a packet comes to each outcome, and the run of one packet that takes them.
#![tactic(auto)]

mod building;
mod costs;
mod entry;
mod laws;
mod names;
mod path;
mod pending;
mod planning;
mod rows;
mod sends;
mod sharing;
mod stepping;
mod table;
mod waiting;
mod wrong;

pub use laws::packets_have_runs;
pub use wrong::wrong_run;
