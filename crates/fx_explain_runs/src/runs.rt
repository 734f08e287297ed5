//! Explaining why a run or a refutation is refused.
ghost use Rattle.std.specs.Prelude.{◌≡◌, ◌⊎◌, IfErr, OnOk};
ghost use Rattle.fx_base.specs.Device.{IsWriteFault, KeepsGoing};
ghost use Rattle.fx_base.specs.Fault.{IsMemory};
ghost use Rattle.fx_explanation.specs.Explanations.{IsUnexplained, WritesExplanation};

use crate::lines::{next_line, write_line};
use crate::packets::{write_fields, write_named_class};
use crate::refused_steps::Unmade;
use crate::run_forms::{LineBefore, version_of, write_end, write_form};
use fx_base::{Fault, Line, LineReader, Octets, Sink, put_text, refusals};
use fx_explanation::{Documents, Explanation};
use fx_machine::State;
use fx_run_text::{RunLine, Step, TextVersion, read_run_line};
use fx_tables::Packet;
use std::alloc::Global;

/// Returns whether a refusal is about the form of a line.
fn is_form(number: u16) -> bool {
    matches!(
        number,
        refusals::RUN_HEADER
            | refusals::RUN_FORM
            | refusals::REFUTATION_FORM
            | refusals::SCHEDULE_OR_BUNDLE
    )
}

/// A line of a text that was searched by its number.
#[derive(Drop)]
struct FoundLine {
    version: TextVersion,
    before: LineBefore,
    is_there: bool,
}

/// Advances to the line with this number, or to the end of the text.
fn find_line(lines: &mut LineReader<Octets<'_>>, number: u64) -> Result<FoundLine, Fault>
    ensures { IfErr result IsUnexplained }
{
    let mut found = FoundLine {
        version: TextVersion::Two,
        before: LineBefore::Nothing,
        is_there: false,
    };
    'lines: while next_line(lines)? {
        let line = lines.line();
        if line.number == number {
            found.is_there = true;
            return Ok(found);
        }
        if line.number == 1 {
            found.version = version_of(line.bytes);
        }
        found.before = LineBefore::of(&line);
    }
    Ok(found)
}

/// Explains a refusal with this number at a line that was searched.
fn write_found(out: &mut Explanation, found: &FoundLine, line: &Line<'_>, number: u16) {
    match (is_form(number), found.is_there) {
        (true, true) => write_form(out, found.version, line, number, found.before),
        (true, false) => write_end(out, number, found.before),
        (false, true) => write_line(out, line),
        (false, false) => {}
    }
}

/// Returns the explanation of a refusal at the line with this number of a text.
fn explanation_of(alloc: Global, text: &[u8], line: u64, number: u16) -> Result<Explanation, Fault>
    ensures { IfErr result IsUnexplained }
{
    let mut out = Explanation::new(alloc);
    let mut lines = LineReader::new(alloc, Octets::new(text))?;
    let found = find_line(&mut lines, line)?;
    write_found(&mut out, &found, &lines.line(), number);
    Ok(out)
}

/// Explains in sentences a refusal at a line of a run, of a refutation or of a schedule, whose octets are given up to
/// where they were read. Writes that line, at most 200 octets of it; for a malformed line (501, 801, 854 and 855), the
/// first wrong word and the expected form. The text has no control characters but line feeds.
///
/// Fails with 900 if out of memory, with 903 at a line of more than 4,096 octets, and with 902 if a write fails. For
/// faults other than 902 nothing is written.
pub fn put_text_line<S: Sink>(
    alloc: Global,
    text: &[u8],
    line: u64,
    number: u16,
    sink: &mut S,
) -> Result<(), Fault>
    ensures ok { OnOk result (WritesExplanation (S.taken sink.old) (S.taken sink.new)) }
    ensures going { OnOk result (KeepsGoing (S.failed sink.old) (S.failed sink.new)) }
    ensures err { IfErr result (λ e. (IsUnexplained e × (sink.new ≡ sink.old))
        ⊎ IsWriteFault (S.failed sink.new) e) }
{
    let out = explanation_of(alloc, text, line, number)?;
    put_text(sink, out.octets()?)
}

/// Explains in sentences why the packet in the line with this 1-based number of a run or of a refutation isn't in its
/// class (502, 856): its number in the run, its fields, and which of them are outside the class's region. The text has
/// no control characters but line feeds.
///
/// Fails with 900 if out of memory, and then nothing is written, and with 902 if a write fails.
pub fn put_refused_packet<S: Sink>(
    alloc: Global,
    documents: &Documents<'_>,
    line: u64,
    packet: &Packet,
    sink: &mut S,
) -> Result<(), Fault>
    ensures ok { OnOk result (WritesExplanation (S.taken sink.old) (S.taken sink.new)) }
    ensures going { OnOk result (KeepsGoing (S.failed sink.old) (S.failed sink.new)) }
    ensures err { IfErr result (λ e. (IsMemory e × (sink.new ≡ sink.old))
        ⊎ IsWriteFault (S.failed sink.new) e) }
{
    let mut out = Explanation::new(alloc);
    // The first line is the header.
    out.text_number("packet ", line.saturating_sub(1));
    write_fields(&mut out, ": ", &packet.fields, packet.octets);
    write_named_class(
        &mut out,
        documents,
        packet.class,
        packet.path,
        &packet.fields,
    );
    put_text(sink, out.octets()?)
}

/// Returns the packet in a line that was read.
fn packet_of(read: &Option<RunLine>) -> Option<Packet> {
    match read {
        Some(RunLine::Packet(packet)) => Some(*packet),
        _ => None,
    }
}

/// Returns the packet in a line of a run's text, of either version.
pub fn packet_in_line(alloc: Global, line: &[u8]) -> Option<Packet> {
    let Ok(read) = read_run_line(alloc, TextVersion::Two, line) else {
        return None;
    };
    let packet = packet_of(&read);
    if packet.is_some() {
        return packet;
    }
    let Ok(read) = read_run_line(alloc, TextVersion::One, line) else {
        return None;
    };
    packet_of(&read)
}

/// Writes why a step is refused in the state before it.
fn write_unmade(
    out: &mut Explanation,
    documents: &Documents<'_>,
    state: &State<'_>,
    before: &[Step],
    line: u64,
    step: &Step,
    fault: &Fault,
) {
    let unmade = Unmade {
        documents,
        state,
        before,
        line,
        step,
        fault,
    };
    unmade.write(out);
}

/// Explains in sentences why a step is refused (503, or 851 to 853) in the state before it. Writes its line, which has
/// this number, what it refers to, and why it can't be made, with the position that a choice may have. From `before`,
/// which has the last steps before it insofar as they are known, writes the line of the step that made the crossing or
/// took the last record. The text has no control characters but line feeds.
///
/// Fails with 900 if out of memory, and then nothing is written, and with 902 if a write fails.
pub fn put_refused_step<S: Sink>(
    alloc: Global,
    documents: &Documents<'_>,
    state: &State<'_>,
    before: &[Step],
    line: u64,
    step: &Step,
    fault: &Fault,
    sink: &mut S,
) -> Result<(), Fault>
    ensures ok { OnOk result (WritesExplanation (S.taken sink.old) (S.taken sink.new)) }
    ensures going { OnOk result (KeepsGoing (S.failed sink.old) (S.failed sink.new)) }
    ensures err { IfErr result (λ e. (IsMemory e × (sink.new ≡ sink.old))
        ⊎ IsWriteFault (S.failed sink.new) e) }
{
    let mut out = Explanation::new(alloc);
    write_unmade(&mut out, documents, state, before, line, step, fault);
    put_text(sink, out.octets()?)
}
