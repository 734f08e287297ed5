//! The lines of a text that was kept.
ghost use Rattle.std.specs.Prelude.{◌≡◌, ◌<◌, true, Ok, IfErr};
ghost use Rattle.fx_base.specs.Lines.{line_budget};
ghost use Rattle.fx_explanation.specs.Explanations.{IsLineFault, IsUnexplained};

use fx_base::{Fault, Line, LineReader, Place, Source, refusals};
use fx_explanation::{Explanation, foreign_words};

/// The maximum number of octets of a line that are written.
const SHOWN: usize = 200;

/// Returns the fault of lines that can't be read: 903 at a line that is too long, and otherwise 901.
fn line_fault(fault: Fault) -> Fault
    ensures { IsLineFault result }
{
    match fault.place {
        Place::Line(line) => Fault::at_line(refusals::LONG_LINE, line),
        _ => Fault::bare(refusals::FAILED_READ),
    }
}

/// Advances to the next line, and returns whether there is one.
pub(crate) fn next_line<C: Source>(lines: &mut LineReader<C>) -> Result<bool, Fault>
    ensures smaller { result ≡ Ok true → line_budget lines.new < line_budget lines.old }
    ensures err { IfErr result IsLineFault }
{
    match lines.advance() {
        Ok(there) => Ok(there),
        Err(fault) => Err(line_fault(fault)),
    }
}

/// Writes a line: its number and its first octets, or which file of another kind they begin.
pub(crate) fn write_line(out: &mut Explanation, line: &Line<'_>) {
    let end = line.bytes.len().min(SHOWN);
    out.text_number("line ", line.number);
    out.text(": ");
    match foreign_words(line.bytes) {
        Some(words) => out.text(words),
        None => out.octets_of(&line.bytes[..end]),
    }
    out.end_line();
}
