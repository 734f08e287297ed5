//! Sentences that name the file that an answer is about.

use crate::gathering::Gathered;
use crate::notes::Extras;
use crate::sentences::Progressed;
use fx_base::{Fault, Place, refusals};
use std::fs;
use std::rt::Files;

/// The line for a bundle's third text, whose lines have numbers of their own.
const IN_BUNDLE: &[u8] =
    b"file: standard input, the third text in the bundle, whose lines are counted from 1\n";

/// Returns whether there is a directory of this name.
fn is_directory<R: Files>(rt: &R, path: &str) -> bool {
    match fs::metadata(rt, path) {
        Ok(metadata) => metadata.is_dir(),
        Err(_) => false,
    }
}

/// Returns whether a number is that of the refusal of a run's step, which has no place.
fn is_of_step(number: u16) -> bool {
    matches!(
        number,
        refusals::STEP_NOT_ENABLED | refusals::WRONG_CHOICES | refusals::NO_RECORD_THERE
    )
}

/// Returns whether a fault is in what a call reads after its documents.
fn is_behind_documents(fault: &Fault) -> bool {
    fault.number >= refusals::CERTIFICATE_FIRST
        && fault.number < refusals::WANT_OF_MEMORY
        && (!matches!(fault.place, Place::None) || is_of_step(fault.number))
}

/// Writes a file's name on a line of its own, and whether it is a directory.
fn put_file_name<R: Files>(rt: &R, file: &str, words: &mut Gathered) {
    words.text(b"file: ");
    words.text(file.as_bytes());
    if is_directory(rt, file) {
        words.text(b": it is a directory");
    }
    words.text(b"\n");
}

/// Writes which file couldn't be opened, read, made or written, or contains what is refused, and why it couldn't be
/// opened, made or read. A document that is refused is named by the explanation of its content instead.
pub(crate) fn put_file_words<R: Files>(
    rt: &R,
    notes: &Extras<'_>,
    fault: &Fault,
    words: &mut Gathered,
) {
    let names = &notes.sentences.names;
    let file = match (fault.number, notes.failed_file.description()) {
        (refusals::FAILED_READ | refusals::FAILED_WRITE, Some(file)) => file,
        (refusals::FAILED_READ, None) => unread_file(notes),
        (refusals::LONG_LINE, _) => names.last,
        (number, _) if is_behind_documents(fault) => {
            if number >= refusals::CAPTURE_FORMAT
                && number <= refusals::LONG_CAPTURE_RECORD
                && !names.capture.is_empty()
            {
                names.capture
            } else {
                names.last
            }
        }
        _ => "",
    };
    if !file.is_empty() {
        put_file_name(rt, file, words);
    }
}

/// Returns the name of the file whose last read failed: a document, or the file that is read after the documents.
fn unread_file<'a>(notes: &Extras<'a>) -> &'a str {
    let names = &notes.sentences.names;
    match notes.sentences.progressed {
        Progressed::Begun => "",
        Progressed::Opened => names.network,
        Progressed::Network if !names.traffic.is_empty() => names.traffic,
        _ if !names.capture.is_empty() => names.capture,
        _ => names.last,
    }
}

/// Writes the name of the file that contains the last text, or that the text is in a bundle.
pub(crate) fn put_text_name<R: Files>(rt: &R, notes: &Extras<'_>, words: &mut Gathered) {
    match notes.sentences.command {
        None => put_file_name(rt, notes.sentences.names.last, words),
        Some(_) => words.text(IN_BUNDLE),
    }
}

/// Writes that the last text is in a bundle, if it is. If it is in a file, its name is already written.
pub(crate) fn put_bundled_name(notes: &Extras<'_>, words: &mut Gathered) {
    if notes.sentences.command.is_some() {
        words.text(IN_BUNDLE);
    }
}
