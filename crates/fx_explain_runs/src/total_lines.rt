//! What is wrong with a line of totals, by what is expected there.
use crate::line_forms::{Fit, fit_of};
use crate::wrong_lines::{value_words, write_due, write_word};
use fx_elements::{Axis, Element, is_word, read_value, read_written, split_at_byte, width};
use fx_explanation::{Explanation, axis_word};
use fx_layout::Layout;

/// The form of a key's line.
const KEY_LINE: &str = "KEY packets PACKETS octets OCTETS";

/// Returns whether a word is the value of a field of a key: the given number of leading bits on an axis.
fn is_value(axis: Axis, bits: u32, word: &[u8]) -> bool {
    if bits == width(axis) {
        return read_written(axis, word).is_some();
    }
    let Some((address, _length)) = split_at_byte(word, b'/') else {
        return false;
    };
    let Ok(text) = str::from_utf8(word) else {
        return false;
    };
    match read_value(Element::Prefix(axis), text) {
        Some(range) => range.bits == bits && read_written(axis, address) == Some(range.low),
        None => false,
    }
}

/// Returns the first word of the rest of a line, and the rest after it.
fn next_word(left: &[u8]) -> (&[u8], &[u8]) {
    match split_at_byte(left, b' ') {
        Some((word, rest)) => (word, rest),
        None => (left, b""),
    }
}

/// The extent to which a line is a key's line of a report.
#[derive(Clone, Copy, Drop)]
struct KeyFit<'a> {
    /// The number of its words that are values of the report's fields.
    fields: usize,
    /// The rest of the line.
    left: &'a [u8],
}

impl KeyFit<'_> {
    /// Returns how far a line is a key's line of the network's report.
    fn of<'a>(key: &Layout, line: &'a [u8]) -> KeyFit<'a> {
        let mut fields: usize = 0;
        let mut left = line;
        for part in key.parts() {
            let (word, rest) = next_word(left);
            if !is_value(part.axis, part.bits, word) {
                return KeyFit { fields, left };
            }
            fields = fields.saturating_add(1);
            left = rest;
        }
        KeyFit { fields, left }
    }
}

/// Writes an axis, with the number of its leading bits if not all are meant.
fn write_part(out: &mut Explanation, axis: Axis, bits: u32) {
    out.text(axis_word(axis));
    if bits < width(axis) {
        out.text_number("/", u64::from(bits));
    }
}

/// Writes the fields of the key of the network's report.
fn write_fields(out: &mut Explanation, key: &Layout) {
    let parts = key.parts();
    let mut separator = "the key of the network's report has these fields: ";
    for part in parts {
        out.text(separator);
        write_part(out, part.axis, part.bits);
        separator = ", ";
    }
    if parts.is_empty() {
        out.text("the key of the network's report has no field, and is written all");
    }
    out.sentence("; totals of another report have other fields, and aren't summed with these");
}

/// Writes the field of a key that is expected after the given number of fields, and its allowed values.
fn write_field_due(out: &mut Explanation, key: &Layout, fields: usize) {
    let Some(part) = key.parts().get(fields) else {
        return;
    };
    out.text("expected there: ");
    write_part(out, part.axis, part.bits);
    if part.bits < width(part.axis) {
        out.text_number(
            ", an address whose bits are 0 after its first ",
            u64::from(part.bits),
        );
        out.text_number(", and after it /", u64::from(part.bits));
        out.end_line();
        return;
    }
    out.sentence(value_words(part.axis));
}

/// Returns whether two lines have the same key, which has the given number of fields.
fn have_same_key(fields: usize, line: &[u8], other: &[u8]) -> bool {
    let mut left = line;
    let mut others = other;
    for _ in 0..fields {
        let (word, rest) = next_word(left);
        let (other_word, other_rest) = next_word(others);
        if !is_word(word, other_word) {
            return false;
        }
        left = rest;
        others = other_rest;
    }
    true
}

/// Writes what is wrong with the position of a well-formed key's line, after the given line.
fn write_order(out: &mut Explanation, fields: usize, line: &[u8], before: &[u8]) {
    out.text("the line before it: ");
    out.octets_of(before);
    out.end_line();
    out.sentence(if have_same_key(fields, line, before) {
        "that has the same key: each key occurs once, with the sum of its counts"
    } else {
        "the key is below that: keys ascend, by the first field that differs, each as a number"
    });
}

/// Writes what is wrong with a line for a key of the network's report, after the given line.
pub(crate) fn write_key_line(out: &mut Explanation, key: &Layout, line: &[u8], before: &[u8]) {
    let read = KeyFit::of(key, line);
    let parts = key.parts().len();
    let form = if parts == 0 {
        "all packets PACKETS octets OCTETS"
    } else {
        "packets PACKETS octets OCTETS"
    };
    let fit = fit_of(form, read.left);
    let is_key = read.fields == parts;
    if is_key && fit.is_whole() {
        write_order(out, read.fields.max(1), line, before);
        return;
    }
    let (word, _rest) = next_word(read.left);
    let shown = Fit {
        words: (read.fields as u64).saturating_add(if is_key { fit.words } else { 0 }),
        due: fit.due,
        word: if read.left.is_empty() {
            None
        } else if is_key {
            fit.word
        } else {
            Some(word)
        },
    };
    write_word(out, &shown, line);
    if is_key {
        write_due(out, KEY_LINE, &shown);
    } else {
        write_field_due(out, key, read.fields);
    }
    if !is_key || fit.words == 0 {
        write_fields(out, key);
    }
}
