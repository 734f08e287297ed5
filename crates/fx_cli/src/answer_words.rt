//! Words of JSON objects: commands, answers, and the roles of files.

use crate::explained_answer::Asked;
use crate::file_names::FileNames;
use fx_audit::Answer;
use fx_base::{Fault, refusals};

/// Returns the name of a command, or an empty text for a bundle that could not be read.
pub(crate) fn command_word(asked: Asked) -> &'static str {
    match asked {
        Asked::Audit => "audit",
        Asked::Check => "check",
        Asked::Confirm => "confirm",
        Asked::Replay => "replay",
        Asked::Run => "run",
        Asked::Collect => "collect",
        Asked::Lint => "lint",
        Asked::Draw => "draw",
        Asked::Sum => "sum",
        Asked::Join => "join",
        Asked::Explain => "explain",
        Asked::Nothing => "",
    }
}

/// Returns an answer of yes in a word.
fn yes_word(asked: Asked) -> &'static str {
    match asked {
        Asked::Audit => "certificate",
        Asked::Check | Asked::Join => "yes",
        Asked::Confirm => "refuted",
        Asked::Replay | Asked::Run | Asked::Collect | Asked::Sum => "totals",
        Asked::Draw => "graph",
        Asked::Explain => "explained",
        Asked::Lint | Asked::Nothing => "ok",
    }
}

/// Returns a refusal in a word.
fn refusal_word(fault: &Fault) -> &'static str {
    match fault.number {
        refusals::WANT_OF_MEMORY => "memory",
        refusals::FAILED_READ | refusals::FAILED_WRITE => "device",
        _ => "refused",
    }
}

/// Returns what is answered, in a word or two.
pub(crate) fn answer_word(asked: Asked, outcome: &Result<Answer, Fault>) -> &'static str {
    match (outcome, asked) {
        (Ok(Answer::Yes), _) => yes_word(asked),
        (Ok(Answer::No), Asked::Audit) => "refutation",
        (Ok(Answer::No), Asked::Explain) => "unknown number",
        (Ok(Answer::No), _) => "no",
        (Ok(Answer::Unknown), _) => "unknown",
        (Err(fault), _) => refusal_word(fault),
    }
}

/// Returns whether the answer prints totals.
pub(crate) fn has_totals(asked: Asked, outcome: &Result<Answer, Fault>) -> bool {
    matches!(outcome, Ok(Answer::Yes))
        && matches!(
            asked,
            Asked::Confirm | Asked::Replay | Asked::Run | Asked::Collect | Asked::Sum
        )
}

/// Returns the role of the file that a command reads after its documents.
fn last_role(asked: Asked) -> &'static str {
    match asked {
        Asked::Check => "certificate",
        Asked::Confirm => "refutation",
        Asked::Replay => "run",
        Asked::Run => "schedule",
        Asked::Collect => "stream",
        Asked::Sum => "totals",
        Asked::Join => "parts",
        _ => "answer",
    }
}

/// Returns the names of a command's files by their roles, empty for those that it does not have.
pub(crate) fn roles_of<'a>(asked: Asked, names: &FileNames<'a>) -> [(&'static str, &'a str); 4] {
    [
        ("network", names.network),
        ("traffic", names.traffic),
        ("capture", names.capture),
        (last_role(asked), names.last),
    ]
}
