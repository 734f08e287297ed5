//! Writing refusals in words, without allocating.
ghost use Rattle.std.specs.Prelude.{◌≡◌, IfOk, map};
ghost use Rattle.fx_base.specs.Device.{PutsText};
ghost use Rattle.fx_base.specs.Refusals.{is_refusal_number};
ghost use Rattle.fx_words.specs.Words.{words_at, words_of};
ghost use Rattle.fx_words.specs.Table.{row_of, table};
ghost use Rattle.fx_words.specs.Texts.{explanation_of, explanation_text, line_behind, list_text, reason_of, reason_text};

use crate::lookup::refusal_of;
use crate::refusal::{Refusal, Row};
use crate::{
    captures, certificates, devices, machine, networks, refutations, runs, streams, traffic,
};
use fx_base::{Fault, Sink, put_number, put_text};

/// Writes a word and a text after it on a line of their own, or nothing if the text is empty.
fn put_line<S: Sink>(sink: &mut S, word: &[u8], text: &str) -> Result<(), Fault>
    ensures { PutsText S.taken S.failed (line_behind word.now text.now) sink.old sink.new result }
{
    if text.is_empty() {
        return Ok(());
    }
    put_text(sink, word)?;
    put_text(sink, text.as_bytes())?;
    put_text(sink, b"\n")
}

/// Writes a refusal's reason.
fn put_known_reason<S: Sink>(sink: &mut S, refusal: &Refusal) -> Result<(), Fault>
    ensures { PutsText S.taken S.failed (reason_text (words_of refusal.now))
        sink.old sink.new result }
{
    put_line(sink, b"wrong: ", refusal.wrong)?;
    put_line(sink, b"usually: ", refusal.cause)?;
    put_line(sink, b"what to do: ", refusal.cure)?;
    put_line(sink, b"see: ", refusal.section)
}

/// Writes what is wrong if a refusal has this number, its usual causes, what to do, and where to read more, each on a
/// line. Writes nothing if no refusal has this number.
///
/// Fails with 902, at no place, if a write fails.
pub fn put_reason<S: Sink>(sink: &mut S, number: u16) -> Result<(), Fault>
    ensures { PutsText S.taken S.failed (reason_of (row_of number table)) sink.old sink.new result }
{
    match refusal_of(number) {
        Some(refusal) => put_known_reason(sink, &refusal),
        None => Ok(()),
    }
}

/// Writes a refusal's number on a line, and its reason after it.
fn put_known<S: Sink>(sink: &mut S, refusal: &Refusal) -> Result<(), Fault>
    ensures { PutsText S.taken S.failed (explanation_text (words_of refusal.now))
        sink.old sink.new result }
{
    put_number(sink, u64::from(refusal.number))?;
    put_text(sink, b"\n")?;
    put_known_reason(sink, refusal)
}

/// Writes a number on a line, and its reason as [`put_reason`] does. Writes nothing if no refusal has this number.
/// Returns whether one has it.
///
/// Fails as [`put_reason`] does.
pub fn put_explanation<S: Sink>(sink: &mut S, number: u16) -> Result<bool, Fault>
    ensures written { PutsText S.taken S.failed (explanation_of (row_of number table))
        sink.old sink.new result }
    ensures known { IfOk result (λ known. known ≡ is_refusal_number number) }
{
    match refusal_of(number) {
        Some(refusal) => {
            put_known(sink, &refusal)?;
            Ok(true)
        }
        None => Ok(false),
    }
}

/// Writes each row on a line.
fn put_rows<S: Sink>(sink: &mut S, rows: &[Row]) -> Result<(), Fault>
    ensures { PutsText S.taken S.failed (list_text (map (λ r. words_at r.0 r.1.now r.2.now
        r.3.now r.4.now) rows.now)) sink.old sink.new result }
{
    for row in rows {
        put_number(sink, u64::from(row.0))?;
        put_text(sink, b"  ")?;
        put_text(sink, row.1.as_bytes())?;
        put_text(sink, b"\n")?;
    }
    Ok(())
}

/// Writes each number and what is wrong, one line per number, in the order of the numbers.
///
/// Fails as [`put_reason`] does.
pub fn put_refusal_list<S: Sink>(sink: &mut S) -> Result<(), Fault>
    ensures { PutsText S.taken S.failed (list_text table) sink.old sink.new result }
{
    put_rows(sink, devices::rows())?;
    put_rows(sink, networks::rows())?;
    put_rows(sink, traffic::rows())?;
    put_rows(sink, certificates::rows())?;
    put_rows(sink, refutations::rows())?;
    put_rows(sink, streams::rows())?;
    put_rows(sink, captures::rows())?;
    put_rows(sink, runs::rows())?;
    put_rows(sink, machine::rows())?;
    Ok(())
}
