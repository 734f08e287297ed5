//! A line after the totals of a text: a note, or the first line of the next text.
ghost use Rattle.std.specs.Prelude.{◌≡◌};
ghost use Rattle.fx_sums.specs.SumLines.{notes_or_keys, line_behind};

use crate::note::read_number_line;
use crate::notes::Notes;

/// The meaning of a line after notes.
#[derive(Clone, Copy)]
pub(crate) enum LineBehind {
    /// One more note; these are the notes with it.
    Notes(Notes),
    /// The first line of the next text, with its number of keys.
    Keys(u64),
}

/// Returns the notes with that of a line which doesn't begin a text.
fn read_note_behind(notes: Notes, line: &[u8]) -> Option<LineBehind>
    ensures { result ≡ notes_or_keys notes line.now None }
{
    let notes = notes.with_line(line)?;
    Some(LineBehind::Notes(notes))
}

/// Returns the meaning of a line after these notes. The next text may begin only if they are whole.
#[tactic(auto, unfolding(crate::specs::SumLines::line_behind))]
pub(crate) fn read_line_behind(notes: Notes, line: &[u8]) -> Option<LineBehind>
    ensures { result ≡ line_behind notes line.now }
{
    match read_number_line(b"keys", line) {
        None => read_note_behind(notes, line),
        Some(keys) => notes.are_whole().then_some(LineBehind::Keys(keys)),
    }
}
