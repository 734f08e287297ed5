//! Reading the text of a run.
ghost use Rattle.std.specs.Prelude.{◌≡◌, ◌⊎◌, ◌<◌, ℕ, List, [], All, Ok, Err, None, IfOk, IfErr, IfSome, OnOk, length};
ghost use Rattle.fx_base.specs.Entries.{entry_numbered};
ghost use Rattle.fx_base.specs.Fault.{IsMemory};
ghost use Rattle.fx_base.specs.Lines.{GoesOnToLines, text_lines, line_budget, Fails};
ghost use Rattle.fx_tables.specs.Classes.{Class, IsOf};
ghost use Rattle.fx_run_text.specs.declared.text_version.TextVersion.{TextVersion};
ghost use Rattle.fx_run_text.specs.RunText.{Run, run_text, run_lines, IsWritableRun, AreShort};
ghost use Rattle.fx_run_text.specs.RunReading.{run_in, MayEnd, MayReadRun, MayReadBehind, ReadsFirst, ReadsNextLine, ReadsNextStep, ReadsUpTo, line_with};

use crate::run::Run;
use crate::run_line::{ReadLine, blank_packet, read_line};
use crate::step::Step;
use crate::text_version::TextVersion;
use fx_base::{Fault, LineReader, Source, refusals};
use fx_elements::is_word;
use fx_tables::{Classes, Packet};
use std::alloc::Global;

/// The beginning of a run's text, up to its first step or its end.
#[derive(Debug, Drop)]
pub struct RunBeginning {
    /// The version given by the first line.
    pub version: TextVersion,
    /// The packets of the run, in order.
    pub packets: Vec<Packet>,
    /// The first step, or none if the run has no steps and its text was read to the end.
    pub first: Option<Step>,
}

/// Reads the first line, which gives the version of the text.
fn read_first<R: Source>(lines: &mut LineReader<R>) -> Result<TextVersion, Fault>
    ensures going { OnOk result (lines.new.stopped ≡ None) }
    ensures on { OnOk result (GoesOnToLines lines.old lines.new) }
    ensures ok { IfOk result (λ version. ReadsFirst version lines.old lines.new) }
    ensures err { IfErr result (λ e. Fails lines.old lines.new e
        ⊎ ((classes : List Class) → MayReadRun classes lines.old (Err e))) }
{
    if !lines.advance()? {
        return Err(Fault::at_line(refusals::RUN_FORM, lines.number().saturating_add(1)));
    }
    let line = lines.line();
    if line.ended && is_word(line.bytes, b"once-run 1") {
        Ok(TextVersion::One)
    } else if line.ended && is_word(line.bytes, b"once-run 2") {
        Ok(TextVersion::Two)
    } else {
        Err(Fault::at_line(refusals::RUN_HEADER, line.number))
    }
}

/// Reads the next line, a packet into the place for it.
#[inline(always)]
fn read_next<R: Source>(
    alloc: Global,
    version: TextVersion,
    lines: &mut LineReader<R>,
    packet: &mut Packet,
) -> Result<ReadLine, Fault>
    ensures going { OnOk result (lines.new.stopped ≡ None) }
    ensures on { OnOk result (GoesOnToLines lines.old lines.new) }
    ensures ok { IfOk result (λ x. ReadsNextLine version lines.old lines.new
        (line_with packet.new x)) }
    ensures smaller { OnOk result (line_budget lines.new < line_budget lines.old) }
    ensures err { IfErr result (λ e. IsMemory e ⊎ (Fails lines.old lines.new e
        ⊎ ((classes : List Class) (run : Run)
        → MayReadBehind version classes lines.old run (Err e)))) }
{
    if !lines.advance()? {
        return Err(Fault::at_line(refusals::RUN_FORM, lines.number().saturating_add(1)));
    }
    let line = lines.line();
    if !line.ended {
        return Err(Fault::at_line(refusals::RUN_FORM, line.number));
    }
    match read_line(alloc, version, line.bytes, packet)? {
        Some(x) => Ok(x),
        None => Err(Fault::at_line(refusals::RUN_FORM, line.number)),
    }
}

/// Reads the end of the text, which follows the last line.
fn read_end<R: Source>(lines: &mut LineReader<R>) -> Result<(), Fault>
    requires { lines.old.stopped ≡ None }
    ensures ok { OnOk result ((run : Run) → MayEnd lines.old run (Ok run)) }
    ensures err { IfErr result (λ e. Fails lines.old lines.new e
        ⊎ ((run : Run) → MayEnd lines.old run (Err e))) }
{
    if lines.advance()? {
        return Err(Fault::at_line(refusals::RUN_FORM, lines.number()));
    }
    Ok(())
}

/// Reads the beginning of a run's text (see [`read_run`]), starting at the next line: the first line and the packets'
/// lines, up to the first step or, in a run without steps, to the end of the text. The steps after the first are left
/// to [`read_next_step`].
///
/// Fails like [`read_run`] if the error is in these lines, and otherwise with 900, at no place, if out of memory.
pub fn read_packets<R: Source>(
    alloc: Global,
    classes: &Classes,
    lines: &mut LineReader<R>,
) -> Result<RunBeginning, Fault>
    ensures ok { IfOk result (λ run. ReadsUpTo run.version classes.now lines.old lines.new
        (record { packets = run.packets.items; steps = [] }) run.first) }
    ensures classes { IfOk result (λ run. All
        (λ packet. IsOf packet (entry_numbered classes.now packet.class)) run.packets.items) }
    ensures going { IfOk result (λ run. IfSome run.first (λ _. lines.new.stopped ≡ None)) }
    ensures on { IfOk result (λ run. IfSome run.first (λ _. GoesOnToLines lines.old lines.new)) }
    ensures err { IfErr result (λ e. IsMemory e
        ⊎ (Fails lines.old lines.new e ⊎ MayReadRun classes.now lines.old (Err e))) }
{
    let version = read_first(lines)?;
    let mut packets = Vec::new(alloc);
    let mut packet = blank_packet();
    'lines: loop {
        match read_next(alloc, version, lines, &mut packet)? {
            ReadLine::Packet => {
                if !classes.contains(&packet) {
                    return Err(Fault::at_line(refusals::RUN_PACKET, lines.number()));
                }
                packets.push(packet)?;
            }
            ReadLine::Step(step) => {
                return Ok(RunBeginning {
                    version,
                    packets,
                    first: Some(step),
                });
            }
            ReadLine::End => {
                read_end(lines)?;
                return Ok(RunBeginning {
                    version,
                    packets,
                    first: None,
                });
            }
        }
    }
}

/// Reads the next step of a run's text (see [`read_run`]) after an earlier step, or none at the line `end` followed by
/// the end of the text.
///
/// Fails like [`read_run`] if the error is in these lines, so with 855 at the line of a packet, and otherwise with 900,
/// at no place, if out of memory.
pub fn read_next_step<R: Source>(
    alloc: Global,
    version: TextVersion,
    lines: &mut LineReader<R>,
) -> Result<Option<Step>, Fault>
    ensures ok { IfOk result (λ next. ReadsNextStep version lines.old lines.new next) }
    ensures going { IfOk result (λ next. IfSome next (λ _. lines.new.stopped ≡ None)) }
    ensures on { IfOk result (λ next. IfSome next (λ _. GoesOnToLines lines.old lines.new)) }
    ensures smaller { IfOk result
        (λ next. IfSome next (λ _. line_budget lines.new < line_budget lines.old)) }
    ensures err { IfErr result (λ e. IsMemory e ⊎ (Fails lines.old lines.new e
        ⊎ ((classes : List Class) (run : Run) → 0 < length run.steps
        → MayReadBehind version classes lines.old run (Err e)))) }
{
    match read_next(alloc, version, lines, &mut blank_packet())? {
        ReadLine::Packet => Err(Fault::at_line(refusals::RUN_FORM, lines.number())),
        ReadLine::Step(step) => Ok(Some(step)),
        ReadLine::End => {
            read_end(lines)?;
            Ok(None)
        }
    }
}

/// Reads a run from its text, which begins with the next line and ends with the last.
///
/// The text is a line `once-run 2`; a line `packet CLASS PATH SOURCE DESTINATION PROTOCOL SOURCE-PORT DESTINATION-PORT
/// CLASS-OF-SERVICE VERSION SOURCE6 DESTINATION6 OCTETS` for each packet, with addresses as dotted quads or as eight
/// groups (lower case, no leading zeros, no `::`); a line for each step, which is `cross PACKET CROSSING CHOICES`,
/// `expire cache DEVICE CACHE POSITION CHOICES`, `expire aggregation DEVICE PROCESS AGGREGATION POSITION CHOICES` or
/// `arrive LINK POSITION CHOICES`; and a line `end`. One space separates two words, a line feed ends each line, and
/// numbers are decimal without leading zeros, below 2 to the 64 or within their axis. A choice is `n`, for a new
/// record, or a number.
///
/// If the first line is `once-run 1`, the line of a packet has the six values up to the class of service, and packets
/// are of IPv4, with version 4 and zeros as IPv6 addresses.
///
/// Fails at the first line with an error: with 854 if the first line is neither of these, with 855 if a later line
/// isn't well-formed, is a packet after a step, follows `end`, or is missing, and with 856 if the class or path of a
/// packet doesn't exist or its fields aren't in the region of the class. Fails like the reader of lines where that
/// fails, and with 900, at no place, if out of memory.
pub fn read_run<R: Source>(
    alloc: Global,
    classes: &Classes,
    lines: &mut LineReader<R>,
) -> Result<Run, Fault>
    ensures ok { IfOk result (λ run. MayReadRun classes.now lines.old (Ok run)) }
    ensures err { IfErr result (λ e. IsMemory e
        ⊎ (Fails lines.old lines.new e ⊎ MayReadRun classes.now lines.old (Err e))) }
{
    let RunBeginning {
        version,
        packets,
        first,
    } = read_packets(alloc, classes, lines)?;
    let mut run = Run::of_packets(alloc, packets);
    let mut next = first;
    'steps: loop {
        let Some(step) = next else {
            return Ok(run);
        };
        run.add_step(step)?;
        next = read_next_step(alloc, version, lines)?;
    }
}

/// The text of a run, in either version, whose lines have at most 4,096 bytes is read as that run, and no other text
/// is.
pub fn run_texts()
    ensures read { (version : TextVersion) (classes : List Class) (run : Run) (n : ℕ)
        → IsWritableRun version classes run → AreShort (run_lines version run)
        → run_in classes n (text_lines (run_text version run)) ≡ Ok run }
    ensures only { (classes : List Class) (text : List ℕ) (run : Run) (n : ℕ)
        → run_in classes n (text_lines text) ≡ Ok run
        → (version : TextVersion) × (text ≡ run_text version run)
        × IsWritableRun version classes run
        × AreShort (run_lines version run) }
{}
