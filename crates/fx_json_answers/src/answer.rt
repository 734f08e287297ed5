//! The JSON object of an answer.
ghost use Rattle.std.specs.Prelude.{◌≡◌, ◌⊎◌, IfErr, IfOk, OnOk};
ghost use Rattle.serde_json.specs.View.{view};
ghost use Rattle.fx_base.specs.Device.{IsWriteFault, KeepsGoing};
ghost use Rattle.fx_base.specs.Fault.{IsMemory};
ghost use Rattle.fx_json_answers.specs.Answers.{IsAnswerData, WritesAnswer};

use crate::files::files_value;
use crate::members::Members;
use crate::places::{number_value, place_value};
use crate::reasons::reason_value;
use crate::texts::{lines_of, string_of};
use crate::totals::add_totals;
use fx_base::{Fault, Place, Sink, put_text};
use fx_layout::Layout;
use serde_json::Value;
use std::alloc::{AllocError, Global};

/// The version of the format.
const FORMAT: &str = "once-answer/1";

/// An answer.
#[derive(Clone, Copy, Drop)]
pub struct Answered<'a> {
    /// The name of the command.
    pub command: &'a str,
    /// What is answered, in a word or two.
    pub answer: &'a str,
    /// The exit status.
    pub status: u8,
    /// The number of the refusal, if something is refused.
    pub number: Option<u16>,
    /// The place of what is refused.
    pub place: &'a Place,
    /// What the command prints as text.
    pub output: &'a [u8],
}

/// What is known about an answer beside it.
#[derive(Drop)]
pub struct Context<'a> {
    /// The names of the command's files by their roles, empty for one that it does not have.
    pub files: &'a [(&'static str, &'a str)],
    /// The key of the report, if the output has totals.
    pub totals_key: Option<&'a Layout>,
    /// Facts about the answer.
    pub facts: Vec<Value>,
    /// Sentences about the answer, one per line.
    pub explanation: &'a [u8],
    /// Sentences about what the documents say silently, one per line.
    pub notes: &'a [u8],
}

/// Adds what is known about an answer beside it.
fn add_context(
    members: &mut Members,
    alloc: Global,
    answered: &Answered<'_>,
    context: Context<'_>,
) {
    let Context {
        files,
        totals_key,
        facts,
        explanation,
        notes,
    } = context;
    members.add("files", files_value(alloc, files));
    members.add("facts", Ok(Value::Array(facts)));
    members.add("explanation", lines_of(alloc, explanation));
    members.add("notes", lines_of(alloc, notes));
    members.add("reason", reason_value(alloc, answered.number));
    if let Some(layout) = totals_key {
        add_totals(members, alloc, layout, answered.output);
    }
}

/// Returns the object of an answer.
fn object_of(
    alloc: Global,
    answered: &Answered<'_>,
    context: Context<'_>,
) -> Result<Value, AllocError>
    ensures { IfOk result (λ v. IsAnswerData answered.now.command.now answered.now.answer.now
        answered.now.status answered.now.number answered.now.place.now answered.now.output.now
        (view v)) }
{
    let mut members = Members::new(alloc);
    add_context(&mut members, alloc, answered, context);
    members.text("format", FORMAT);
    members.text("command", answered.command);
    members.text("answer", answered.answer);
    members.number("status", u64::from(answered.status));
    members.add("number", Ok(number_value(answered.number)));
    members.add("place", place_value(alloc, answered.place));
    members.add("output", string_of(alloc, answered.output));
    members.into_value()
}

/// Writes an answer as a JSON object in one line: the answer itself in the members `format`, `command`, `answer`,
/// `status`, `number`, `place` and `output`, and beside it `files`, `facts`, `totals` (for a confirmed refutation also
/// `plain`), `explanation`, `notes` and `reason`.
///
/// Fails with 900 if out of memory, and then nothing is written; with 902 if a write fails.
pub fn put_answer<S: Sink>(
    alloc: Global,
    answered: &Answered<'_>,
    context: Context<'_>,
    sink: &mut S,
) -> Result<(), Fault>
    ensures ok { OnOk result (WritesAnswer answered.now.command.now answered.now.answer.now
        answered.now.status answered.now.number answered.now.place.now answered.now.output.now
        (S.taken sink.old) (S.taken sink.new)) }
    ensures going { OnOk result (KeepsGoing (S.failed sink.old) (S.failed sink.new)) }
    ensures err { IfErr result (λ e. (IsMemory e × (sink.new ≡ sink.old))
        ⊎ IsWriteFault (S.failed sink.new) e) }
{
    let mut line = object_of(alloc, answered, context)?.to_vec(alloc)?;
    line.push(b'\n')?;
    put_text(sink, line.as_slice())
}
