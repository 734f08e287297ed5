//! The abstract network: what it holds, and its steps. Its parts (`fx_tables`) and the written form of its runs
//! (`fx_run_text`) can be named here too.
#![tactic(auto)]

mod coming;
mod effects;
mod handling;
mod holding;
mod intake;
mod laws;
mod records;
mod sending;
mod state;
mod store;
mod tallying;
mod watch;

pub use effects::{Effects, StepActs, TakenIn, Tally};
pub use fx_run_text::{
    Choices, Run, RunLine, Step, TextVersion, put_packet_line, put_step_line, read_run,
    read_run_line, run_lines_have_one_text, run_texts,
};
pub use fx_tables::{
    AggregationEntry, Class, Classes, Crossing, DeviceEntry, Exporter, Holder, HolderName, Holding,
    MatchEntry, Net, Occurrence, Packet, Path, Point, Process, Record, Selection,
};
pub use laws::{
    choices_are_free, complete_runs_exist, six_axes_suffice, unnamed_axes_mean_nothing,
};
pub use state::State;
pub use watch::{StepWatch, Unwatched};
