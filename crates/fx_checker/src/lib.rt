//! The checker: reads a network document, a traffic declaration and a certificate, checks the certificate and writes
//! the answer.
#![tactic(auto)]

mod answer;
mod arguments;
mod check_command;
mod document;
mod ending;
mod explainer;
mod running;

pub use answer::{Answer, answer_refusal};
pub use arguments::{NO_CALL, all_arguments, asks_for_help, finish_unread};
pub use check_command::{check_bytes, check_explained};
pub use document::{AcceptedDocuments, network_from, read_documents};
pub use ending::{WRITE_FAILED, finish, finish_with, put_and_end};
pub use explainer::{CheckExplainer, Unexplained};
pub use running::{answer_arguments, run};
