//! The program's files, answers and statuses.
#![tactic(auto)]

mod advice;
mod answer_words;
mod argument_errors;
mod bundles;
mod commands;
mod drawing;
mod explained_answer;
mod explaining;
mod file_names;
mod file_words;
mod files;
mod gathering;
mod head;
mod in_json;
mod joining;
mod kept;
mod link_files;
mod notes;
mod option_flag;
mod progress;
mod running;
mod seeds;
mod sentences;

pub use argument_errors::finish_arguments;
pub use fx_checker::{finish, finish_unread};
pub use fx_command_line::{Call, read_words};
pub use running::run;
