//! Reading of the lines of a schedule.
ghost use Rattle.std.specs.Prelude.{◌≡◌};
ghost use Rattle.fx_net.specs.LineReading as reading;
ghost use Rattle.fx_net.specs.Schedule.{ReadsLine};

use crate::action::Action;
use fx_elements::{Words, is_word};

/// Reads the class and the path after `next`.
#[tactic(auto, unfolding(crate::specs::LineReading::next_of))]
fn read_next(words: Words<'_>) -> Option<Action>
    ensures { result ≡ reading.next_of words.entry }
{
    let (class, words) = words.number()?;
    let (path, words) = words.number()?;
    if !words.is_empty() {
        return None;
    }
    Some(Action::NextOf { class, path })
}

/// Reads the device and the cache after `expire`.
#[tactic(auto, unfolding(crate::specs::LineReading::expire_of))]
fn read_expire(words: Words<'_>) -> Option<Action>
    ensures { result ≡ reading.expire_of words.entry }
{
    let (device, words) = words.number()?;
    let (cache, words) = words.number()?;
    if !words.is_empty() {
        return None;
    }
    Some(Action::Expire { device, cache })
}

/// Reads the device, the collecting process and the aggregation after `emit`.
#[tactic(auto, unfolding(crate::specs::LineReading::emit_of))]
fn read_emit(words: Words<'_>) -> Option<Action>
    ensures { result ≡ reading.emit_of words.entry }
{
    let (device, words) = words.number()?;
    let (process, words) = words.number()?;
    let (aggregation, words) = words.number()?;
    if !words.is_empty() {
        return None;
    }
    Some(Action::Emit {
        device,
        process,
        aggregation,
    })
}

/// Reads the link and the number of octets after `carry`.
#[tactic(auto, unfolding(crate::specs::LineReading::carry_of))]
fn read_carry(words: Words<'_>) -> Option<Action>
    ensures { result ≡ reading.carry_of words.entry }
{
    let (link, words) = words.number()?;
    let (octets, words) = words.number()?;
    if octets == 0 || octets > 65_535 {
        return None;
    }
    if !words.is_empty() {
        return None;
    }
    Some(Action::Carry { link, octets })
}

/// Reads the device, the exporting process and the destination after `use`.
#[tactic(auto, unfolding(crate::specs::LineReading::use_of))]
fn read_use(words: Words<'_>) -> Option<Action>
    ensures { result ≡ reading.use_of words.entry }
{
    let (device, words) = words.number()?;
    let (exporter, words) = words.number()?;
    let (destination, words) = words.number()?;
    if !words.is_empty() {
        return None;
    }
    Some(Action::Use {
        device,
        exporter,
        destination,
    })
}

/// Returns what the words after a first word of this kind ask for.
#[tactic(auto, unfolding(crate::specs::LineReading::kind_of))]
fn read_kind(kind: &[u8], words: Words<'_>) -> Option<Action>
    ensures { result ≡ reading.kind_of kind.now words.entry }
{
    if is_word(kind, b"next") {
        return read_next(words);
    }
    if is_word(kind, b"expire") {
        return read_expire(words);
    }
    if is_word(kind, b"emit") {
        return read_emit(words);
    }
    if is_word(kind, b"carry") {
        return read_carry(words);
    }
    if is_word(kind, b"use") {
        return read_use(words);
    }
    None
}

/// Returns what the words of a line ask for.
#[tactic(auto, unfolding(crate::specs::LineReading::words_of))]
fn read_words(words: Words<'_>) -> Option<Action>
    ensures { result ≡ reading.words_of words.entry }
{
    let (kind, words) = words.word()?;
    read_kind(kind, words)
}

/// Returns what a line asks for.
fn read_line(line: &[u8]) -> Option<Action>
    ensures { result ≡ reading.action_of line.now }
{
    if is_word(line, b"next") {
        return Some(Action::Next);
    }
    read_words(Words::new(line))
}

/// Returns what a line of a schedule, without its line feed, asks for; `None` if it isn't a valid line.
pub(crate) fn read_action(line: &[u8]) -> Option<Action>
    ensures { ReadsLine line.now result }
{
    read_line(line)
}
