//! The line of a note after totals.
ghost use Rattle.std.specs.Prelude.{◌≡◌};
ghost use Rattle.fx_sums.specs.SumLines.{last_number, number_behind, complete_of, frames_of, skipped_of, note_of_kind, note_of, word_first};

use crate::notes::SkippedFrames;
use fx_elements::{Words, is_word, read_u64};

/// A note that a line after totals gives.
#[derive(Clone, Copy)]
pub(crate) enum Note {
    /// Whether a replayed run was complete.
    Complete(bool),
    /// The numbers of skipped frames of a capture.
    Frames(SkippedFrames),
    /// The number of gaps of a stream.
    Gaps(u64),
    /// The number of records of a stream that were skipped.
    Skipped(u64),
}

/// Returns the words after this one, if it is the first.
pub(crate) fn behind_word<'a>(words: Words<'a>, word: &[u8]) -> Option<Words<'a>>
    ensures { result ≡ word_first word.now words.entry }
{
    let (first, words) = words.word()?;
    if is_word(first, word) {
        Some(words)
    } else {
        None
    }
}

/// Returns the number if the words are exactly one number.
pub(crate) fn read_last_number(words: Words<'_>) -> Option<u64>
    ensures { result ≡ last_number words.entry }
{
    let (number, words) = words.number()?;
    if words.is_empty() { Some(number) } else { None }
}

/// Returns the number of a line that consists of this word and a number.
#[tactic(auto, unfolding(crate::specs::SumLines::number_behind))]
pub(crate) fn read_number_line(word: &[u8], line: &[u8]) -> Option<u64>
    ensures { result ≡ number_behind word.now line.now }
{
    let words = behind_word(Words::new(line), word)?;
    read_last_number(words)
}

/// Reads whether a run was complete, from the words after `complete`.
#[tactic(auto, unfolding(crate::specs::SumLines::complete_of))]
fn read_complete(words: Words<'_>) -> Option<Note>
    ensures { result ≡ complete_of words.entry }
{
    let (word, words) = words.word()?;
    if is_word(word, b"yes") {
        words.is_empty().then_some(Note::Complete(true))
    } else if is_word(word, b"no") {
        words.is_empty().then_some(Note::Complete(false))
    } else {
        None
    }
}

/// Reads the numbers of frames after `skipped other`.
#[tactic(auto, unfolding(crate::specs::SumLines::frames_of))]
fn read_frames(words: Words<'_>) -> Option<Note>
    ensures { result ≡ frames_of words.entry }
{
    let (other, words) = words.number()?;
    let words = behind_word(words, b"malformed")?;
    let malformed = read_last_number(words)?;
    Some(Note::Frames(SkippedFrames { other, malformed }))
}

/// Reads what was skipped: frames of a capture, or records of a stream.
#[tactic(auto, unfolding(crate::specs::SumLines::skipped_of))]
fn read_skipped(words: Words<'_>) -> Option<Note>
    ensures { result ≡ skipped_of words.entry }
{
    let (first, rest) = words.word()?;
    if is_word(first, b"other") {
        return read_frames(rest);
    }
    let number = read_u64(first)?;
    rest.is_empty().then_some(Note::Skipped(number))
}

/// Reads the note of this kind from the words after the kind.
#[tactic(auto, unfolding(crate::specs::SumLines::note_of_kind))]
fn read_kind(kind: &[u8], words: Words<'_>) -> Option<Note>
    ensures { result ≡ note_of_kind kind.now words.entry }
{
    if is_word(kind, b"complete") {
        return read_complete(words);
    }
    if is_word(kind, b"skipped") {
        return read_skipped(words);
    }
    if is_word(kind, b"gaps") {
        return read_last_number(words).map(Note::Gaps);
    }
    None
}

/// Returns the note that a line gives, if it gives one.
#[tactic(auto, unfolding(crate::specs::SumLines::note_of))]
pub(crate) fn read_note(line: &[u8]) -> Option<Note>
    ensures { result ≡ note_of line.now }
{
    let (kind, words) = Words::new(line).word()?;
    read_kind(kind, words)
}
