//! What is expected at a line of texts of totals.
use crate::wrong_lines::answer_words;
use fx_base::Line;
use fx_elements::Words;
use fx_explanation::Explanation;
use std::alloc::{AllocError, Global};

/// The maximum number of octets of a line that are kept.
const KEPT: usize = 200;

/// The kind of line that is expected in texts of totals.
#[derive(Clone, Copy)]
pub(crate) enum Due {
    /// The first line of the first text.
    First,
    Key,
    Unassigned,
    /// A note, or another text, after the last line of totals.
    BehindTotals,
    BehindComplete,
    BehindFrames,
    AfterGaps,
    BehindSkipped,
}

impl Due {
    /// Returns what may follow a line that is neither a key's nor the first of a text.
    fn after(line: &[u8]) -> Due {
        if line.starts_with(b"complete ") {
            Due::BehindComplete
        } else if line.starts_with(b"skipped other ") {
            Due::BehindFrames
        } else if line.starts_with(b"gaps ") {
            Due::AfterGaps
        } else if line.starts_with(b"skipped ") {
            Due::BehindSkipped
        } else {
            Due::BehindTotals
        }
    }

    /// Returns the forms of lines that are allowed there, except for that of a key's line.
    pub(crate) fn forms(self) -> &'static [&'static str] {
        match self {
            Due::First => &["keys COUNT"],
            Due::Key => &[],
            Due::Unassigned => &["unassigned COUNT"],
            Due::BehindTotals => &[
                "complete yes",
                "complete no",
                "skipped other OTHER malformed MALFORMED",
                "gaps GAPS",
                "keys COUNT",
            ],
            Due::BehindComplete => &[
                "skipped other OTHER malformed MALFORMED",
                "gaps GAPS",
                "keys COUNT",
            ],
            Due::BehindFrames => &["gaps GAPS", "keys COUNT"],
            Due::AfterGaps => &["skipped SKIPPED"],
            Due::BehindSkipped => &["keys COUNT"],
        }
    }

    /// Returns a description of what is allowed there.
    fn words(self) -> &'static str {
        match self {
            Due::First => "keys and a number, as keys 2: the first line of a text",
            Due::Key => "a key's line: KEY packets P octets O",
            Due::Unassigned => "unassigned and a number, after the last key line",
            Due::BehindTotals => {
                "complete yes or complete no, skipped other A malformed B, gaps G, the line keys N of another text, or the \
end of the octets"
            }
            Due::BehindComplete => {
                "skipped other A malformed B, gaps G, the line keys N of another text, or the end of the octets; each note occurs once, in the order complete, skipped other, gaps, skipped"
            }
            Due::BehindFrames => {
                "gaps G, the line keys N of another text, or the end of the octets; each note occurs once, in the order complete, skipped other, gaps, skipped"
            }
            Due::AfterGaps => "skipped and a number, which come after gaps",
            Due::BehindSkipped => {
                "the line keys N of another text, or the end of the octets; each note occurs once, in the order complete, skipped other, gaps, skipped"
            }
        }
    }
}

/// The position in texts of totals before a line, insofar as they are in order.
#[derive(Drop)]
pub(crate) struct Stand {
    /// The number of texts that began.
    texts: u64,
    /// The number of the line at which the last one began.
    begun: u64,
    /// The number of keys that this line announces.
    keys: u64,
    /// The number of lines that follow it so far.
    passed: u64,
    /// What may follow its last line when it has the lines of all its keys.
    after: Due,
    /// The first octets of the last line.
    pub(crate) last: Vec<u8>,
}

impl Stand {
    /// Returns the position before the first line.
    pub(crate) fn new(alloc: Global) -> Stand {
        Stand {
            texts: 0,
            begun: 0,
            keys: 0,
            passed: 0,
            after: Due::First,
            last: Vec::new(alloc),
        }
    }

    /// Returns what is expected at the next line.
    pub(crate) fn due(&self) -> Due {
        if self.texts == 0 {
            Due::First
        } else if self.passed < self.keys {
            Due::Key
        } else if self.passed == self.keys {
            Due::Unassigned
        } else {
            self.after
        }
    }

    /// Advances past a line.
    pub(crate) fn take(&mut self, alloc: Global, line: &Line<'_>) -> Result<(), AllocError> {
        if line.bytes.starts_with(b"keys ") {
            self.texts = self.texts.saturating_add(1);
            self.begun = line.number;
            self.keys = 0;
            if let Some((_first, words)) = Words::new(line.bytes).word() {
                if let Some((keys, _rest)) = words.number() {
                    self.keys = keys;
                }
            }
            self.passed = 0;
        } else {
            self.passed = self.passed.saturating_add(1);
        }
        self.after = Due::after(line.bytes);
        let end = line.bytes.len().min(KEPT);
        self.last = Vec::from_slice(alloc, &line.bytes[..end])?;
        Ok(())
    }

    /// Writes what is expected at the next line, and why.
    pub(crate) fn write_due(&self, out: &mut Explanation) {
        let due = self.due();
        if self.texts > 1 {
            out.text_number("text ", self.texts);
            out.text_number(" begins at line ", self.begun);
            out.end_line();
        }
        out.text("expected on this line: ");
        out.text(due.words());
        if due == Due::Key {
            out.text_number("; it is key line ", self.passed.saturating_add(1));
            out.text_number(" of ", self.keys);
        }
        if due == Due::Key || due == Due::Unassigned {
            out.text_number(", as line ", self.begun);
            out.text_number(" says keys ", self.keys);
        }
        if due == Due::Unassigned {
            out.text("; where one more key is right, mend that number");
        }
        out.end_line();
    }
}

/// Returns what a misplaced line is, if that is known.
pub(crate) fn misplaced_words(due: Due, octets: &[u8]) -> Option<&'static str> {
    let is_inside = due == Due::Key || due == Due::Unassigned;
    if octets.is_empty() {
        Some("the line is empty: remove it")
    } else if octets.starts_with(b"keys: ") {
        Some("it is a sentence of --explain: write totals without that")
    } else if octets.starts_with(b"once-") || octets.starts_with(b"{") {
        Some("it begins another text than totals")
    } else if is_inside && octets.starts_with(b"keys ") {
        Some("the next text begins there: the one before it is cut off")
    } else if due == Due::Key && octets.starts_with(b"unassigned ") {
        Some("key lines are missing before it, or the number after keys is too great")
    } else {
        answer_words(octets)
    }
}
