//! Runs in written form: packets, steps, and their text.
#![tactic(auto)]

mod laws;
mod run;
mod run_line;
mod run_put;
mod run_reading;
mod step;
mod text_version;

pub use laws::run_lines_have_one_text;
pub use run::Run;
pub use run_line::{RunLine, read_run_line};
pub use run_put::{put_packet_line, put_step_line};
pub use run_reading::{RunBeginning, read_next_step, read_packets, read_run, run_texts};
pub use step::{Choices, Step};
pub use text_version::TextVersion;
