//! Writing of the lines of notes.
ghost use Rattle.std.specs.Prelude.{Some};
ghost use Rattle.fx_base.specs.Device.{PutsText};
ghost use Rattle.fx_sums.specs.SumText.{complete_text, frames_text, number_text, notes_text};

use crate::notes::{Notes, SkippedFrames};
use fx_base::{Fault, Sink, put_number, put_text};
use fx_collect::put_number_line;

/// Writes whether runs were complete, if it is noted.
fn put_complete<S: Sink>(sink: &mut S, complete: Option<bool>) -> Result<(), Fault>
    ensures { PutsText S.taken S.failed (complete_text complete) sink.old sink.new result }
{
    match complete {
        None => put_text(sink, b""),
        Some(true) => put_text(sink, b"complete yes\n"),
        Some(false) => put_text(sink, b"complete no\n"),
    }
}

/// Writes the numbers of frames.
fn put_skipped_frames<S: Sink>(sink: &mut S, frames: SkippedFrames) -> Result<(), Fault>
    ensures { PutsText S.taken S.failed (frames_text (Some frames)) sink.old sink.new result }
{
    put_text(sink, b"skipped other ")?;
    put_number(sink, frames.other)?;
    put_number_line(sink, b" malformed ", frames.malformed)
}

/// Writes the numbers of frames, if they are noted.
fn put_frames<S: Sink>(sink: &mut S, frames: Option<SkippedFrames>) -> Result<(), Fault>
    ensures { PutsText S.taken S.failed (frames_text frames) sink.old sink.new result }
{
    match frames {
        None => put_text(sink, b""),
        Some(frames) => put_skipped_frames(sink, frames),
    }
}

/// Writes a line of a word and a number, if the number is noted.
fn put_noted<S: Sink>(sink: &mut S, word: &[u8], number: Option<u64>) -> Result<(), Fault>
    ensures { PutsText S.taken S.failed (number_text word.now number) sink.old sink.new result }
{
    match number {
        None => put_text(sink, b""),
        Some(number) => put_number_line(sink, word, number),
    }
}

/// Writes a line for each note.
pub(crate) fn put_notes<S: Sink>(sink: &mut S, notes: &Notes) -> Result<(), Fault>
    ensures { PutsText S.taken S.failed (notes_text notes.now) sink.old sink.new result }
{
    put_complete(sink, notes.complete)?;
    put_frames(sink, notes.frames)?;
    put_noted(sink, b"gaps ", notes.gaps)?;
    put_noted(sink, b"skipped ", notes.skipped)
}
