//! Explaining why a text of totals is refused.
ghost use Rattle.std.specs.Prelude.{◌≡◌, ◌⊎◌, IfErr, OnOk};
ghost use Rattle.fx_base.specs.Device.{IsWriteFault, KeepsGoing};
ghost use Rattle.fx_explanation.specs.Explanations.{IsUnexplained, WritesExplanation};

use crate::due_totals::{Due, Stand, misplaced_words};
use crate::lines::{next_line, write_line};
use crate::total_lines::write_key_line;
use crate::wrong_lines::{nearest, write_forms, write_word};
use fx_base::{Fault, Line, LineReader, Octets, Place, Sink, put_text};
use fx_explanation::Explanation;
use fx_layout::Layout;
use std::alloc::Global;

/// Writes what is wrong with a line.
fn write_refused(out: &mut Explanation, key: Option<&Layout>, stand: &Stand, line: &Line<'_>) {
    let due = stand.due();
    let forms = due.forms();
    let fit = nearest(forms, line.bytes);
    if let Some(words) = misplaced_words(due, line.bytes) {
        out.sentence(words);
    } else if !line.ended {
        out.sentence(
            "no line feed ends the line: the text is cut off there, or was edited; where the line is whole, put a line feed after it",
        );
    } else if due != Due::Key {
        write_word(out, &fit, line.bytes);
        if fit.words > 0 {
            write_forms(out, forms, line.bytes, fit.words);
        }
    } else if let Some(key) = key {
        write_key_line(out, key, line.bytes, stand.last.as_slice());
    }
}

/// Explains a line of totals that is refused, under this key.
fn write_line_of(
    out: &mut Explanation,
    key: Option<&Layout>,
    lines: &mut LineReader<Octets<'_>>,
    number: u64,
) -> Result<(), Fault>
    ensures { IfErr result IsUnexplained }
{
    let mut stand = Stand::new(out.alloc);
    'lines: while next_line(lines)? {
        let line = lines.line();
        if line.number == number {
            write_line(out, &line);
            stand.write_due(out);
            write_refused(out, key, &stand, &line);
            return Ok(());
        }
        stand.take(out.alloc, &line)?;
    }
    out.sentence("the octets end before that line: the text is cut off, or there is none");
    stand.write_due(out);
    Ok(())
}

/// Returns the explanation of a refusal of totals.
fn explanation_of(
    alloc: Global,
    key: Option<&Layout>,
    totals: &[u8],
    fault: &Fault,
) -> Result<Explanation, Fault>
    ensures { IfErr result IsUnexplained }
{
    let number = match fault.place {
        Place::Line(number) => number,
        _ => 0,
    };
    let mut out = Explanation::new(alloc);
    let mut lines = LineReader::new(alloc, Octets::new(totals))?;
    write_line_of(&mut out, key, &mut lines, number)?;
    Ok(out)
}

/// Explains in sentences why totals aren't summed, with 861 at a line. Writes the line, at most 200 octets of it; which
/// of several texts it is in; what is expected at it; and its first wrong word, or what the line is, if that is known;
/// for a key's line also the fields of the report's key, if given, and whether its key occurs twice or is out of order.
/// The octets are those that were read. The text has no control characters but line feeds.
///
/// Fails with 900 if out of memory, with 903 at a line of more than 4,096 octets, and with 902 if a write fails. For
/// faults other than 902 nothing is written.
pub fn put_refused_totals<S: Sink>(
    alloc: Global,
    key: Option<&Layout>,
    totals: &[u8],
    fault: &Fault,
    sink: &mut S,
) -> Result<(), Fault>
    ensures ok { OnOk result (WritesExplanation (S.taken sink.old) (S.taken sink.new)) }
    ensures going { OnOk result (KeepsGoing (S.failed sink.old) (S.failed sink.new)) }
    ensures err { IfErr result (λ e. (IsUnexplained e × (sink.new ≡ sink.old))
        ⊎ IsWriteFault (S.failed sink.new) e) }
{
    let out = explanation_of(alloc, key, totals, fault)?;
    put_text(sink, out.octets()?)
}
