//! The sentences after an answer: what it is about, by name, and for a refusal what is wrong and what to do.

use crate::file_words::{put_bundled_name, put_file_words, put_text_name};
use crate::gathering::Gathered;
use crate::notes::Extras;
use fx_audit::{Answer, Command};
use fx_base::{Fault, Place, refusals};
use fx_command_line::Call;
use fx_words::put_reason;
use std::rt::Files;

/// What a certificate shows.
const COUNTED_ONCE: &[u8] =
    b"In every complete run each packet of the declared classes is counted exactly once, and \
none of those of exempt classes.\n";

/// What a text is that is drawn as an answer and is none.
const NO_ANSWER: &[u8] =
    b"Its first line is neither that of a certificate nor that of a refutation: give what `once audit` printed.\n";

/// The forms of a replay's lines.
const REPLAYED: &[u8] =
    b"keys: how many keys of the report have totals, a line each. unassigned: records without the \
report's key. complete yes: no crossing is to come and nothing is held or on a link; complete no: the totals aren't the \
last ones.\n";

/// The forms of a collection's lines.
const COLLECTED: &[u8] =
    b"keys: how many keys of the report have totals, a line each. unassigned: records without the \
report's key. gaps: messages whose sequence number isn't the next one: some were lost, came out of order or came twice. skipped: \
records that lack a counter, which add nothing.\n";

/// The forms of a sum's lines.
const SUMMED: &[u8] =
    b"keys: how many keys of the report have totals, a line each, with the sums over all texts. unassigned: records \
without the report's key. Then what the texts noted, added up: complete yes, where no text says complete no; skipped frames; \
gaps and skipped records.\n";

/// The forms of a run's lines.
const METERED: &[u8] =
    b"keys: how many keys of the report have totals, a line each. unassigned: records without the \
report's key. skipped: frames that are no packets of IP (other), or that end before their header does (malformed).\n";

/// What a command was asked.
#[derive(Clone, Copy)]
pub(crate) enum Asked {
    Audit,
    Check,
    Confirm,
    Replay,
    Run,
    Collect,
    Lint,
    Draw,
    Sum,
    Join,
    Explain,
    /// Nothing that could be read.
    Nothing,
}

/// Returns what a call asks.
fn asked_by(call: &Call) -> Asked {
    match call {
        Call::Replay { .. } => Asked::Replay,
        Call::Check { .. } => Asked::Check,
        Call::Confirm { .. } => Asked::Confirm,
        Call::Audit { .. } => Asked::Audit,
        Call::Run { .. } => Asked::Run,
        Call::Collect { .. } => Asked::Collect,
        Call::Lint { .. } => Asked::Lint,
        Call::Draw { .. } => Asked::Draw,
        Call::Sum { .. } => Asked::Sum,
        Call::Join { .. } => Asked::Join,
        Call::Explain { .. } => Asked::Explain,
    }
}

/// Returns what a bundle asks.
fn asked_in_bundle(command: Option<Command>) -> Asked {
    match command {
        Some(Command::Audit) => Asked::Audit,
        Some(Command::Check) => Asked::Check,
        Some(Command::Confirm) => Asked::Confirm,
        Some(Command::Replay) => Asked::Replay,
        None => Asked::Nothing,
    }
}

/// Returns what a call asks, or the bundle that has this command.
pub(crate) fn asked_of(call: Option<&Call>, command: Option<Command>) -> Asked {
    match call {
        Some(call) => asked_by(call),
        None => asked_in_bundle(command),
    }
}

/// Returns the sentences after an answer or a refusal; none if there is no memory for them.
pub(crate) fn explanation_of<R: AllocGlobal + Files>(
    rt: &R,
    call: Option<&Call>,
    notes: &mut Extras<'_>,
    outcome: &Result<Answer, Fault>,
) -> Vec<u8> {
    let mut words = Gathered::new(rt.alloc());
    let asked = asked_of(call, notes.sentences.command);
    match outcome {
        Ok(Answer::Yes) => put_yes_words(asked, notes, &mut words),
        Ok(Answer::No) => put_no_words(rt, asked, notes, &mut words),
        Ok(Answer::Unknown) => put_reason_words(refusals::SEARCH_TOO_LARGE, notes, &mut words),
        Err(fault) => {
            put_file_words(rt, notes, fault, &mut words);
            put_refused_words(asked, notes, fault, &mut words);
            put_reason_words(fault.number, notes, &mut words);
        }
    }
    words.into_octets(rt.alloc())
}

/// Writes what a refusal of this number means, and what to do. A JSON object has this as a member of its own.
fn put_reason_words(number: u16, notes: &Extras<'_>, words: &mut Gathered) {
    if !notes.sentences.gathers_facts() {
        let written = put_reason(words.sink(), number);
        words.note(written);
    }
}

/// Writes what an answer of yes says.
fn put_yes_words(asked: Asked, notes: &mut Extras<'_>, words: &mut Gathered) {
    let sentences = &mut notes.sentences;
    match asked {
        Asked::Check | Asked::Audit => {
            words.text(COUNTED_ONCE);
            words.all_of(sentences.take_notes());
        }
        Asked::Join => words.text(COUNTED_ONCE),
        Asked::Lint => words.all_of(sentences.take_notes()),
        Asked::Confirm => words.all_of(sentences.take_words()),
        Asked::Replay => {
            words.text(REPLAYED);
            words.all_of(sentences.take_words());
        }
        Asked::Collect => {
            words.text(COLLECTED);
            words.all_of(sentences.take_words());
        }
        Asked::Run => words.text(METERED),
        Asked::Sum => words.text(SUMMED),
        // After a graph sentences would be no part of it.
        Asked::Draw | Asked::Explain | Asked::Nothing => {}
    }
}

/// Writes what an answer of no says: a refutation's run, or what is wrong with a certificate or a refutation.
fn put_no_words<R: AllocGlobal + Files>(
    rt: &R,
    asked: Asked,
    notes: &mut Extras<'_>,
    words: &mut Gathered,
) {
    if matches!(asked, Asked::Check | Asked::Confirm) {
        put_text_name(rt, notes, words);
    }
    let sentences = &mut notes.sentences;
    match asked {
        Asked::Explain => words.text(
            b"Write the number alone, as in `once explain 407`; `once explain all` lists the numbers.\n",
        ),
        Asked::Audit => {
            words.all_of(sentences.take_words());
            words.all_of(sentences.take_notes());
        }
        Asked::Check | Asked::Confirm | Asked::Join => {
            words.all_of(sentences.take_words());
            if let Some(number) = sentences.refused {
                put_reason_words(number, notes, words);
            }
            words.all_of(notes.sentences.take_notes());
        }
        _ => {}
    }
}

/// Writes what a refusal is about: a place of a document, a line or a step of a text, or what is in a stream.
fn put_refused_words(asked: Asked, notes: &mut Extras<'_>, fault: &Fault, words: &mut Gathered) {
    // A line that is too long can't be printed, and a failed read is no place.
    if fault.number >= refusals::WANT_OF_MEMORY {
        return;
    }
    match asked {
        Asked::Replay if fault.number >= refusals::CERTIFICATE_FIRST => {
            put_bundled_name(notes, words);
        }
        Asked::Draw if fault.number == refusals::REFUTATION_FORM && fault.place == Place::Line(1) =>
            {
                words.text(NO_ANSWER);
            }
        _ => {}
    }
    words.all_of(notes.sentences.take_words());
}
