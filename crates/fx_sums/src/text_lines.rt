//! Reading of a text of totals line by line.
ghost use Rattle.std.specs.Prelude.{◌≡◌, ◌⊎◌, ◌≤◌, ◌<◌, None, Some, Ok, Err, IfOk, IfErr, OnOk, option_map};
ghost use Rattle.fx_base.specs.Fault.{IsMemory};
ghost use Rattle.fx_base.specs.Lines.{GoesOnToLines, line_budget};
ghost use Rattle.fx_sums.specs.SumLines.{number_behind, record_behind};
ghost use Rattle.fx_sums.specs.SumReading.{next_line, in_line, tallied, totals_with, notes_of, missing, wrong, Gives, GivesText, RefusesTexts, GoesOnFrom, GoesOnToLine, GoesOnOrEnds};

use crate::line_behind::{LineBehind, read_line_behind};
use crate::note::read_number_line;
use crate::notes::Notes;
use crate::record_line::read_record_behind;
use fx_base::{Fault, LineReader, Source, refusals};
use fx_collect::Totals;
use fx_layout::{Key, Layout};
use fx_tables::Record;

/// Advances to the next line, which a line feed must end, and returns whether there is one.
fn go_on_or_end<R: Source>(lines: &mut LineReader<R>) -> Result<bool, Fault>
    ensures { GoesOnOrEnds lines.old lines.new result }
{
    if !lines.advance()? {
        return Ok(false);
    }
    let line = lines.line();
    if !line.ended {
        return Err(Fault::at_line(refusals::TOTALS_FORM, line.number));
    }
    Ok(true)
}

/// Returns the fault for a missing line after the last one.
fn missing_line<R: Source>(lines: &LineReader<R>) -> Fault
    ensures { result ≡ missing lines.now.number }
{
    Fault::at_line(refusals::TOTALS_FORM, lines.number().saturating_add(1))
}

/// Returns the fault for a line of the wrong form.
fn wrong_line<R: Source>(lines: &LineReader<R>) -> Fault
    ensures { result ≡ wrong lines.now.number }
{
    Fault::at_line(refusals::TOTALS_FORM, lines.number())
}

/// Advances to the next line, which must exist.
fn go_on<R: Source>(lines: &mut LineReader<R>) -> Result<(), Fault>
    ensures ok { OnOk result (GoesOnToLine lines.old lines.new) }
    ensures err { IfErr result (RefusesTexts next_line lines.old lines.new) }
{
    if !go_on_or_end(lines)? {
        return Err(missing_line(lines));
    }
    Ok(())
}

/// Reads the next line, which must be this word and a number.
pub(crate) fn read_number<R: Source>(lines: &mut LineReader<R>, word: &[u8]) -> Result<u64, Fault>
    ensures on { OnOk result (GoesOnToLine lines.old lines.new) }
    ensures ok { IfOk result (λ n.
        Gives (in_line (number_behind word.now)) lines.old lines.new n) }
    ensures err { IfErr result (RefusesTexts (in_line (number_behind word.now)) lines.old
        lines.new) }
{
    go_on(lines)?;
    match read_number_line(word, lines.line().bytes) {
        Some(number) => Ok(number),
        None => Err(wrong_line(lines)),
    }
}

/// Reads the next line, which must be that of a key after the last one.
fn read_record<R: Source>(
    lines: &mut LineReader<R>,
    layout: &Layout,
    last: &Option<Key>,
) -> Result<Record, Fault>
    ensures on { OnOk result (GoesOnToLine lines.old lines.new) }
    ensures ok { IfOk result (λ entry. Gives (in_line (record_behind layout.now
        (option_map (λ k. k.values) last.now))) lines.old lines.new entry) }
    ensures err { IfErr result (RefusesTexts (in_line (record_behind layout.now
        (option_map (λ k. k.values) last.now))) lines.old lines.new) }
{
    go_on(lines)?;
    match read_record_behind(layout, last, lines.line().bytes) {
        Some(entry) => Ok(entry),
        None => Err(wrong_line(lines)),
    }
}

/// Tallies the given number of records, each on its own line, in the order of their keys.
fn tally_records<R: Source>(
    totals: &mut Totals,
    layout: &Layout,
    lines: &mut LineReader<R>,
    count: u64,
) -> Result<(), Fault>
    requires { lines.old.stopped ≡ None }
    ensures going { OnOk result (lines.new.stopped ≡ None) }
    ensures layout { totals.new.layout ≡ totals.old.layout }
    ensures on { OnOk result (GoesOnToLines lines.old lines.new) }
    ensures smaller { OnOk result (line_budget lines.new ≤ line_budget lines.old) }
    ensures ok { OnOk result (Gives (tallied layout.now count None totals.old) lines.old lines.new
        totals.new) }
    ensures err { IfErr result (λ e. IsMemory e
        ⊎ RefusesTexts (tallied layout.now count None totals.old) lines.old lines.new e) }
{
    let mut last = None;
    let mut left = count;
    while left > 0 {
        let entry = read_record(lines, layout, &last)?;
        totals.tally(&entry)?;
        let Record { key, .. } = entry;
        last = Some(key);
        left -= 1;
    }
    Ok(())
}

/// Reads the totals of a text under the keys of this layout, after the line that gives their number, and adds them to
/// `totals`.
pub(crate) fn add_totals<R: Source>(
    totals: &mut Totals,
    layout: &Layout,
    lines: &mut LineReader<R>,
    keys: u64,
) -> Result<(), Fault>
    requires { lines.old.stopped ≡ None }
    ensures layout { totals.new.layout ≡ totals.old.layout }
    ensures on { OnOk result (GoesOnFrom lines.old lines.new) }
    ensures ok { OnOk result (Gives (totals_with layout.now keys totals.old) lines.old lines.new
        totals.new) }
    ensures err { IfErr result (λ e. IsMemory e
        ⊎ RefusesTexts (totals_with layout.now keys totals.old) lines.old lines.new e) }
{
    tally_records(totals, layout, lines, keys)?;
    let unassigned = read_number(lines, b"unassigned")?;
    totals.add_unassigned(unassigned);
    Ok(())
}

/// Reads notes up to the end, or up to the first line of the next text, and returns the number of keys of that text.
pub(crate) fn read_notes<R: Source>(
    lines: &mut LineReader<R>,
) -> Result<(Notes, Option<u64>), Fault>
    requires { lines.old.stopped ≡ None }
    ensures ok { IfOk result (λ r. GivesText notes_of lines.old lines.new r.0 r.1) }
    ensures err { IfErr result (RefusesTexts notes_of lines.old lines.new) }
{
    let mut notes = Notes::new();
    'notes: loop {
        if !go_on_or_end(lines)? {
            if notes.are_whole() {
                return Ok((notes, None));
            }
            return Err(missing_line(lines));
        }
        match read_line_behind(notes, lines.line().bytes) {
            Some(LineBehind::Notes(more)) => notes = more,
            Some(LineBehind::Keys(keys)) => return Ok((notes, Some(keys))),
            None => return Err(wrong_line(lines)),
        }
    }
}
