//! Notes that accompany totals.
ghost use Rattle.std.specs.Prelude.{◌≡◌, ◌&&◌, Bool};
ghost use Rattle.fx_sums.specs.Sums.{joined, no_notes, plus_numbers, plus_frames, plus_notes};
ghost use Rattle.fx_sums.specs.SumLines.{notes_with, with_note, are_whole};

use crate::note::{Note, read_note};

/// The numbers of skipped frames of a capture.
#[derive(Clone, Copy)]
pub(crate) struct SkippedFrames {
    /// Frames that have no IP packet.
    pub other: u64,
    /// Frames that are malformed.
    pub malformed: u64,
}

/// The notes that accompany totals, each present if its kind of totals was given.
#[derive(Clone, Copy)]
pub(crate) struct Notes {
    /// Whether all replayed runs were complete.
    pub complete: Option<bool>,
    /// How many frames of captures were skipped.
    pub frames: Option<SkippedFrames>,
    /// The number of gaps of streams, modulo 2 to the 64.
    pub gaps: Option<u64>,
    /// The number of records of streams that were skipped, modulo 2 to the 64.
    pub skipped: Option<u64>,
}

/// Returns the conjunction if both are present, or the one that is.
fn both(first: Option<bool>, second: Option<bool>) -> Option<bool>
    ensures { result ≡ joined (λ (a b : Bool). a && b) first second }
{
    match first {
        None => second,
        Some(a) => match second {
            None => Some(a),
            Some(b) => Some(a && b),
        },
    }
}

/// Returns the sum modulo 2 to the 64 if both are present, or the one that is.
fn sum_of(first: Option<u64>, second: Option<u64>) -> Option<u64>
    ensures { result ≡ joined plus_numbers first second }
{
    match first {
        None => second,
        Some(a) => match second {
            None => Some(a),
            Some(b) => Some(a.wrapping_add(b)),
        },
    }
}

/// Returns the sums modulo 2 to the 64 if both are present, or those that are.
fn frames_of(first: Option<SkippedFrames>, second: Option<SkippedFrames>) -> Option<SkippedFrames>
    ensures { result ≡ joined plus_frames first second }
{
    match first {
        None => second,
        Some(a) => match second {
            None => Some(a),
            Some(b) => Some(SkippedFrames {
                other: a.other.wrapping_add(b.other),
                malformed: a.malformed.wrapping_add(b.malformed),
            }),
        },
    }
}

impl Notes {
    /// Creates notes without any note.
    pub(crate) fn new() -> Notes
        ensures { result ≡ no_notes }
    {
        Notes {
            complete: None,
            frames: None,
            gaps: None,
            skipped: None,
        }
    }

    /// Returns the notes of both: complete if both are, and the sums of the numbers.
    pub(crate) fn plus(self, other: Notes) -> Notes
        ensures { result ≡ plus_notes self other }
    {
        Notes {
            complete: both(self.complete, other.complete),
            frames: frames_of(self.frames, other.frames),
            gaps: sum_of(self.gaps, other.gaps),
            skipped: sum_of(self.skipped, other.skipped),
        }
    }

    /// Returns the notes with one more, if it may follow these.
    fn with(self, note: Note) -> Option<Notes>
        ensures { result ≡ with_note self note }
    {
        let Notes {
            complete,
            frames,
            gaps,
            skipped,
        } = self;
        match note {
            Note::Complete(yes) => {
                if complete.is_some() || frames.is_some() || gaps.is_some() {
                    return None;
                }
                Some(Notes {
                    complete: Some(yes),
                    frames,
                    gaps,
                    skipped,
                })
            }
            Note::Frames(counted) => {
                if frames.is_some() || gaps.is_some() {
                    return None;
                }
                Some(Notes {
                    complete,
                    frames: Some(counted),
                    gaps,
                    skipped,
                })
            }
            Note::Gaps(number) => {
                if gaps.is_some() {
                    return None;
                }
                Some(Notes {
                    complete,
                    frames,
                    gaps: Some(number),
                    skipped,
                })
            }
            Note::Skipped(number) => {
                if gaps.is_none() || skipped.is_some() {
                    return None;
                }
                Some(Notes {
                    complete,
                    frames,
                    gaps,
                    skipped: Some(number),
                })
            }
        }
    }

    /// Returns the notes with that of a line, if the line gives one that may follow these.
    #[tactic(auto, unfolding(crate::specs::SumLines::notes_with))]
    pub(crate) fn with_line(self, line: &[u8]) -> Option<Notes>
        ensures { result ≡ notes_with self line.now }
    {
        let note = read_note(line)?;
        self.with(note)
    }

    /// Returns whether a note of gaps is accompanied by one of skipped records.
    pub(crate) fn are_whole(self) -> bool
        ensures { result ≡ are_whole self }
    {
        self.gaps.is_none() || self.skipped.is_some()
    }
}
