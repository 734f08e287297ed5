//! Reading the text of a refutation.
ghost use Rattle.std.specs.Prelude.{◌≡◌, ◌⊎◌, ◌<◌, Ok, Err, None, IfOk, IfErr, OnOk};
ghost use Rattle.std.specs.Str.{bytes_eq};
ghost use Rattle.fx_base.specs.Fault.{IsMemory};
ghost use Rattle.fx_base.specs.Lines.{GoesOnToLines, line_budget, Fails};
ghost use Rattle.fx_refute.specs.ReadingOn.{Leads, NextIsWrong, Says};
ghost use Rattle.fx_refute.specs.RefutationReading.{MayGive, MayReadRefutation, end_of_lines, only, packet_behind, refutation_in, steps_behind};
ghost use Rattle.fx_refute.specs.Refutations as refutations;

use crate::refutation::{Refutation, STEPS};
use fx_base::{Fault, LineReader, Source, refusals};
use fx_run_text::{RunLine, Step, TextVersion, read_run_line};
use fx_tables::Packet;
use std::alloc::Global;

/// Returns whether two lines are the same.
fn is_line(line: &[u8], other: &[u8]) -> bool
    ensures { result ≡ bytes_eq line.now other.now }
{
    line == other
}

/// Reads the first line, which gives the version of the text.
fn read_first<R: Source>(lines: &mut LineReader<R>) -> Result<TextVersion, Fault>
    ensures going { OnOk result (lines.new.stopped ≡ None) }
    ensures on { OnOk result (GoesOnToLines lines.old lines.new) }
    ensures ok { IfOk result (λ version. Leads lines.old lines.new
        (refutation_in lines.old.number) (packet_behind version lines.new.number)) }
    ensures err { IfErr result (λ e. Fails lines.old lines.new e
        ⊎ MayReadRefutation lines.old (Err e)) }
{
    if !lines.advance()? {
        return Err(Fault::at_line(refusals::REFUTATION_FORM, lines.number().saturating_add(1)));
    }
    let line = lines.line();
    if line.ended && is_line(line.bytes, b"once-refutation 1") {
        Ok(TextVersion::One)
    } else if line.ended && is_line(line.bytes, b"once-refutation 2") {
        Ok(TextVersion::Two)
    } else {
        Err(Fault::at_line(refusals::REFUTATION_FORM, line.number))
    }
}

/// Reads the next line, which must exist.
fn read_next<R: Source>(
    alloc: Global,
    version: TextVersion,
    lines: &mut LineReader<R>,
) -> Result<RunLine, Fault>
    requires { lines.old.stopped ≡ None }
    ensures going { OnOk result (lines.new.stopped ≡ None) }
    ensures on { OnOk result (GoesOnToLines lines.old lines.new) }
    ensures ok { IfOk result (λ x. Says version lines.old lines.new x) }
    ensures smaller { OnOk result (line_budget lines.new < line_budget lines.old) }
    ensures err { IfErr result (λ e. IsMemory e
        ⊎ (Fails lines.old lines.new e ⊎ NextIsWrong version lines.old e)) }
{
    if !lines.advance()? {
        return Err(Fault::at_line(refusals::REFUTATION_FORM, lines.number().saturating_add(1)));
    }
    let line = lines.line();
    if !line.ended {
        return Err(Fault::at_line(refusals::REFUTATION_FORM, line.number));
    }
    match read_run_line(alloc, version, line.bytes)? {
        Some(x) => Ok(x),
        None => Err(Fault::at_line(refusals::REFUTATION_FORM, line.number)),
    }
}

/// Checks that the text ends after the last line.
fn read_end<R: Source>(lines: &mut LineReader<R>) -> Result<(), Fault>
    requires { lines.old.stopped ≡ None }
    ensures ok { OnOk result ((r : refutations.Refutation)
        → MayGive lines.old (end_of_lines lines.old.number r) (Ok r)) }
    ensures err { IfErr result (λ e. Fails lines.old lines.new e
        ⊎ ((r : refutations.Refutation) → MayGive lines.old (end_of_lines lines.old.number r)
        (Err e))) }
{
    if lines.advance()? {
        return Err(Fault::at_line(refusals::REFUTATION_FORM, lines.number()));
    }
    Ok(())
}

/// Reads the line of the packet.
fn read_packet<R: Source>(
    alloc: Global,
    version: TextVersion,
    lines: &mut LineReader<R>,
) -> Result<Packet, Fault>
    requires { lines.old.stopped ≡ None }
    ensures going { OnOk result (lines.new.stopped ≡ None) }
    ensures on { OnOk result (GoesOnToLines lines.old lines.new) }
    ensures ok { IfOk result (λ p. Leads lines.old lines.new
        (packet_behind version lines.old.number) (steps_behind version lines.new.number (only p))) }
    ensures err { IfErr result (λ e. IsMemory e
        ⊎ (Fails lines.old lines.new e
        ⊎ MayGive lines.old (packet_behind version lines.old.number) (Err e))) }
{
    match read_next(alloc, version, lines)? {
        RunLine::Packet(packet) => return Ok(packet),
        RunLine::Step(_) => return Err(Fault::at_line(refusals::REFUTATION_FORM, lines.number())),
        RunLine::End => return Err(Fault::at_line(refusals::REFUTATION_FORM, lines.number())),
    }
}

/// Reads the steps and the end.
fn read_steps<R: Source>(
    alloc: Global,
    version: TextVersion,
    packet: Packet,
    lines: &mut LineReader<R>,
) -> Result<Refutation, Fault>
    requires { lines.old.stopped ≡ None }
    ensures ok { IfOk result (λ r.
        MayGive lines.old (steps_behind version lines.old.number (only packet)) (Ok r)) }
    ensures err { IfErr result (λ e. IsMemory e
        ⊎ (Fails lines.old lines.new e
        ⊎ MayGive lines.old (steps_behind version lines.old.number (only packet)) (Err e))) }
{
    let mut steps: Vec<Step> = Vec::new(alloc);
    'lines: loop {
        match read_next(alloc, version, lines)? {
            RunLine::Step(step) => {
                if steps.len() >= STEPS {
                    return Err(Fault::at_line(refusals::REFUTATION_FORM, lines.number()));
                }
                steps.push(step)?;
            }
            RunLine::End => {
                read_end(lines)?;
                return Ok(Refutation::new(packet, steps));
            }
            RunLine::Packet(_) => return Err(Fault::at_line(
                refusals::REFUTATION_FORM,
                lines.number(),
            )),
        }
    }
}

/// Reads a refutation from its text, which begins with the next line and ends with the last.
///
/// The text is a line `once-refutation 2` or `once-refutation 1`, one packet line and up to 1,000,000 step lines as in
/// a run's text of that version ([`fx_machine::read_run`]), and a line `end`. It is not checked whether the packet is
/// of its class.
///
/// Fails with 501 at the first line whose form is wrong or that is missing; with the fault of the line reader at its
/// place; and with 900, at no place, if out of memory.
pub fn read_refutation<R: Source>(
    alloc: Global,
    lines: &mut LineReader<R>,
) -> Result<Refutation, Fault>
    ensures ok { IfOk result (λ r. MayReadRefutation lines.old (Ok r)) }
    ensures err { IfErr result (λ e. IsMemory e
        ⊎ (Fails lines.old lines.new e ⊎ MayReadRefutation lines.old (Err e))) }
{
    let version = read_first(lines)?;
    let packet = read_packet(alloc, version, lines)?;
    read_steps(alloc, version, packet, lines)
}
