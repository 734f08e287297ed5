//! Explanations of certificates, refutations, runs, schedules and totals.
#![tactic(auto)]

mod certificates;
mod choosing;
mod dead_ends;
mod due_items;
mod due_totals;
mod following;
mod holders;
mod leading;
mod leaves;
mod left_over;
mod line_forms;
mod lineage;
mod lines;
mod matches;
mod mending;
mod missing_fields;
mod nothing_there;
mod packets;
mod passing;
mod refused_steps;
mod refutations;
mod replays;
mod run_forms;
mod runs;
mod schedules;
mod steps;
mod total_lines;
mod totals;
mod unmetered;
mod watching;
mod ways;
mod wrong_lines;

pub use certificates::put_refused_certificate;
pub use refutations::{put_refutation_story, put_unconfirmed_refutation};
pub use replays::put_refused_replay;
pub use runs::{packet_in_line, put_refused_packet, put_refused_step, put_text_line};
pub use schedules::put_refused_metering;
pub use totals::put_refused_totals;
