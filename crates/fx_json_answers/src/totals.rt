//! Totals, read from the text that a command prints.

use crate::members::{Items, Members};
use crate::texts::string_of;
use fx_elements::{Axis, Words, is_word, read_u64, width};
use fx_explanation::element_name;
use fx_layout::{Layout, Part};
use serde_json::Value;
use std::alloc::{AllocError, Global};

/// Returns the name of the information element that a part of a key is.
fn element_of(part: Part) -> &'static str {
    if part.bits == width(part.axis) {
        element_name(part.axis.element_number())
    } else {
        element_name(part.axis.prefix_number())
    }
}

/// Returns a word of a key: an address or a prefix as a string, anything else as a number.
fn key_value(alloc: Global, axis: Axis, word: &[u8]) -> Result<Value, AllocError> {
    if axis.is_address() {
        return string_of(alloc, word);
    }
    match read_u64(word) {
        Some(number) => Ok(Value::from(number)),
        None => string_of(alloc, word),
    }
}

/// Totals of a report under keys of this layout, of which some lines were read.
#[derive(Drop)]
struct Totals<'a> {
    alloc: Global,
    layout: &'a Layout,
    keys: Items,
    members: Members,
}

impl<'a> Totals<'a> {
    /// Returns totals of which no line was read.
    fn new(alloc: Global, layout: &'a Layout) -> Totals<'a> {
        Totals {
            alloc,
            layout,
            keys: Items::new(alloc),
            members: Members::new(alloc),
        }
    }

    /// Adds the line of a key: `KEY packets P octets O`, in which KEY is `all` if it has no fields.
    fn take_key(&mut self, line: &[u8]) -> Option<()> {
        let mut key = Members::new(self.alloc);
        let mut words = Words::new(line);
        for part in self.layout.parts() {
            let (word, rest) = words.word()?;
            key.add(element_of(*part), key_value(self.alloc, part.axis, word));
            words = rest;
        }
        if self.layout.parts().is_empty() {
            words = words.word()?.1;
        }
        let (packets, words) = words.word()?.1.number()?;
        let (octets, _words) = words.word()?.1.number()?;
        let mut entry = Members::new(self.alloc);
        entry.add("key", key.into_value());
        entry.number("packets", packets);
        entry.number("octets", octets);
        self.keys.add(entry.into_value());
        Some(())
    }

    /// Adds the line `skipped other A malformed B` of a run, or `skipped S` of a collection.
    fn take_skipped(&mut self, words: Words<'_>) -> Option<()> {
        let (word, rest) = words.word()?;
        if !is_word(word, b"other") {
            self.members.number("skipped", read_u64(word)?);
            return Some(());
        }
        let (other, rest) = rest.number()?;
        let (malformed, _rest) = rest.word()?.1.number()?;
        let mut frames = Members::new(self.alloc);
        frames.number("other", other);
        frames.number("malformed", malformed);
        self.members.add("skippedFrames", frames.into_value());
        Some(())
    }

    /// Adds a line.
    fn take(&mut self, line: &[u8]) -> Option<()> {
        let (first, rest) = Words::new(line).word()?;
        if is_word(first, b"unassigned") {
            self.members.number("unassigned", rest.number()?.0);
        } else if is_word(first, b"gaps") {
            self.members.number("gaps", rest.number()?.0);
        } else if is_word(first, b"complete") {
            let is_complete = is_word(rest.word()?.0, b"yes");
            self.members.add("complete", Ok(Value::Bool(is_complete)));
        } else if is_word(first, b"skipped") {
            return self.take_skipped(rest);
        } else if !is_word(first, b"keys") {
            return self.take_key(line);
        }
        Some(())
    }

    /// Returns the totals as an object.
    fn into_value(self) -> Result<Value, AllocError> {
        let Totals {
            alloc: _,
            layout: _,
            keys,
            mut members,
        } = self;
        members.add("keys", keys.into_value());
        members.into_value()
    }
}

/// Returns the totals in lines of a text, under keys of this layout.
fn totals_in(alloc: Global, layout: &Layout, text: &[u8]) -> Result<Value, AllocError> {
    let mut totals = Totals::new(alloc, layout);
    let mut begin = 0;
    for end in 0..text.len() {
        if text[end] == b'\n' {
            let line = text.get(begin..end).unwrap_or(&[]);
            let _known = totals.take(line);
            begin = end.saturating_add(1);
        }
    }
    totals.into_value()
}

/// The lines before the totals of a refuting run.
const REFUTED: &[u8] = b"refuted\nrun\n";

/// The line before the plain sums.
const PLAIN: &[u8] = b"plain\n";

/// Returns what two totals are between: the end of the first one's text, and the beginning of the second one's. Both
/// are the text's length if it has no line `plain`.
fn around_plain(text: &[u8]) -> (usize, usize) {
    for end in 0..text.len() {
        if text.get(end..).unwrap_or(&[]).starts_with(PLAIN) {
            return (end, end.saturating_add(PLAIN.len()));
        }
    }
    (text.len(), text.len())
}

/// Adds the totals that a command prints in this text to the members of its answer: `totals`, and for a confirmed
/// refutation `plain`, the plain sums over its packet.
pub(crate) fn add_totals(members: &mut Members, alloc: Global, layout: &Layout, text: &[u8]) {
    let Some(text) = text.strip_prefix(REFUTED) else {
        members.add("totals", totals_in(alloc, layout, text));
        return;
    };
    let (end, begin) = around_plain(text);
    let (ran, plain) = (text.get(..end), text.get(begin..));
    members.add("totals", totals_in(alloc, layout, ran.unwrap_or(&[])));
    members.add("plain", totals_in(alloc, layout, plain.unwrap_or(&[])));
}
