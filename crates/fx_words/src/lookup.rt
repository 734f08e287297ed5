//! Looking up a refusal's words by its number.
ghost use Rattle.std.specs.Prelude.{◌≡◌, IfSome, is_some, map, option_map};
ghost use Rattle.std.specs.Option.{option_or};
ghost use Rattle.fx_base.specs.Refusals.{is_refusal_number};
ghost use Rattle.fx_words.specs.Table.{row_of, table};
ghost use Rattle.fx_words.specs.Words.{words_at, words_of};

use crate::refusal::{Refusal, Row, refusal_in};
use crate::{
    captures, certificates, devices, machine, networks, refutations, runs, streams, traffic,
};

/// Returns the words of a number if it is among some rows.
fn refusal_among(rows: &[Row], number: u16) -> Option<Refusal>
    ensures { option_map words_of result
        ≡ row_of number (map (λ r. words_at r.0 r.1.now r.2.now r.3.now r.4.now) rows.now) }
{
    for row in rows {
        if row.0 == number {
            return Some(refusal_in(row));
        }
    }
    None
}

/// Returns words that were already found, or else those of a number among some rows.
fn found_or_among(found: Option<Refusal>, rows: &[Row], number: u16) -> Option<Refusal>
    ensures { option_map words_of result ≡ option_or (option_map words_of found)
        (row_of number (map (λ r. words_at r.0 r.1.now r.2.now r.3.now r.4.now) rows.now)) }
{
    match found {
        Some(found) => Some(found),
        None => refusal_among(rows, number),
    }
}

/// Returns the words of a number, searching one table after another.
fn refusal_in_turn(number: u16) -> Option<Refusal>
    ensures { option_map words_of result ≡ row_of number table }
{
    let found = refusal_among(devices::rows(), number);
    let found = found_or_among(found, networks::rows(), number);
    let found = found_or_among(found, traffic::rows(), number);
    let found = found_or_among(found, certificates::rows(), number);
    let found = found_or_among(found, refutations::rows(), number);
    let found = found_or_among(found, streams::rows(), number);
    let found = found_or_among(found, captures::rows(), number);
    let found = found_or_among(found, runs::rows(), number);
    found_or_among(found, machine::rows(), number)
}

/// Returns the words of a refusal's number, or `None` if no refusal has it.
pub fn refusal_of(number: u16) -> Option<Refusal>
    ensures words { option_map words_of result ≡ row_of number table }
    ensures known { is_some result ≡ is_refusal_number number }
    ensures number { IfSome result (λ refusal. refusal.number ≡ number) }
{
    refusal_in_turn(number)
}
