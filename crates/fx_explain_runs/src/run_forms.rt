//! What is wrong with the form of a line of a run, a refutation or a schedule.
ghost use Rattle.std.specs.Prelude.{◌≡◌};
ghost use Rattle.fx_explain_runs.specs.declared.run_forms.LineBefore.TheVariants.{Header};

use crate::line_forms::LineText;
use crate::lines::write_line;
use crate::wrong_lines::{write_wrong_header, write_wrong_line};
use fx_base::{Line, refusals};
use fx_explanation::Explanation;
use fx_run_text::TextVersion;

/// The kind of the line before the refused one.
#[derive(Clone, Copy, Debug, PartialEq, Eq)]
pub enum LineBefore {
    /// There is none.
    Nothing,
    Header,
    Packet,
    Step,
    End,
}

impl LineBefore {
    /// Returns the kind of a line of a run or a refutation, by its number or its first word.
    pub fn of(line: &Line<'_>) -> LineBefore
        ensures header { line.now.number ≡ 1 → result ≡ Header }
    {
        if line.number == 1 {
            LineBefore::Header
        } else if line.bytes.starts_with(b"packet ") {
            LineBefore::Packet
        } else if line.bytes.starts_with(b"end") {
            LineBefore::End
        } else {
            LineBefore::Step
        }
    }
}

/// Returns the version of a text by its first line.
pub(crate) fn version_of(line: &[u8]) -> TextVersion {
    if line.ends_with(b" 1") {
        TextVersion::One
    } else {
        TextVersion::Two
    }
}

/// Returns a description of what is expected after a line of this kind in a run, or in a refutation.
fn due_words(before: LineBefore, is_refutation: bool) -> &'static str {
    match before {
        LineBefore::Nothing => "",
        LineBefore::Header if is_refutation => "allowed there: the packet's line",
        LineBefore::Header => "allowed there: a packet's line, a step's, or end",
        LineBefore::Packet if is_refutation => {
            "allowed there: a step's line, or end; a refutation has one packet, which comes first"
        }
        LineBefore::Packet => "allowed there: another packet's line, a step's, or end",
        LineBefore::Step if is_refutation => {
            "allowed there: a step's line, or end; a refutation has at most 1,000,000 steps, and its packet comes before them"
        }
        LineBefore::Step =>
            "allowed there: a step's line, or end; all packets come before the steps",
        LineBefore::End => { "allowed there: nothing after the line end, not even an empty line" }
    }
}

/// Writes what is wrong with the form of a line after a line of this kind.
pub(crate) fn write_form(
    out: &mut Explanation,
    version: TextVersion,
    line: &Line<'_>,
    number: u16,
    before: LineBefore,
) {
    write_line(out, line);
    if number == refusals::SCHEDULE_OR_BUNDLE {
        let _otherwise = write_wrong_line(out, LineText::Schedule, line);
        return;
    }
    let is_refutation = number == refusals::REFUTATION_FORM;
    if line.number == 1 {
        let name = if is_refutation {
            "once-refutation"
        } else {
            "once-run"
        };
        write_wrong_header(out, name, "", line);
    } else if write_wrong_line(out, LineText::Run(version), line) {
        out.sentence(due_words(before, is_refutation));
    }
}

/// Writes that a text ends after a line of this kind, before its line `end`.
pub(crate) fn write_end(out: &mut Explanation, number: u16, before: LineBefore) {
    if before == LineBefore::Nothing {
        out.sentence("the text is empty");
        return;
    }
    out.sentence("the text ends before its line end");
    out.sentence(due_words(before, number == refusals::REFUTATION_FORM));
}
