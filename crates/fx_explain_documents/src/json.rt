//! Explaining why octets are no JSON text.
use crate::json_faults::write_fault;
use fx_explanation::{Explanation, number16, number32, octet_at, write_other_file};
use serde_json::{Error, Value};

/// The maximum number of octets before an error that are written.
const SHOWN: usize = 60;

/// Returns what is wrong with the beginning of a text, or that the text is empty.
fn beginning_words(octets: &[u8]) -> Option<&'static str> {
    if octets.is_empty() {
        return Some("the file is empty");
    }
    if octets.starts_with(b"\xef\xbb\xbf") {
        return Some("the text begins with a byte order mark (octets EF BB BF): remove it");
    }
    wide_words(octets)
}

/// Returns whether a text begins with a byte order mark of UTF-32, or with a document's bracket in four octets.
fn is_utf_32(octets: &[u8]) -> bool {
    octets.len() >= 4
        && matches!(
            number32(octets, 0),
            0xfffe_0000 | 0x7b00_0000 | 0x5b00_0000 | 0x7b | 0x5b
        )
}

/// Returns whether two octets are an ASCII character in UTF-16, the higher octet first, that a JSON text may contain.
fn is_ascii_pair(high: u8, low: u8) -> bool {
    high == 0 && (b'\t'..=b'~').contains(&low)
}

/// Returns whether a text begins with two ASCII characters in UTF-16, the lower octet first.
fn begins_low_first(octets: &[u8]) -> bool {
    octets.len() >= 4
        && is_ascii_pair(octet_at(octets, 1), octet_at(octets, 0))
        && is_ascii_pair(octet_at(octets, 3), octet_at(octets, 2))
}

/// Returns whether a text begins with three ASCII characters in UTF-16, the higher octet first, or consists of two. An
/// IPFIX stream begins with 0 and 10, as a line feed does.
fn begins_high_first(octets: &[u8]) -> bool {
    is_ascii_pair(octet_at(octets, 0), octet_at(octets, 1))
        && is_ascii_pair(octet_at(octets, 2), octet_at(octets, 3))
        && (octets.len() == 4 || is_ascii_pair(octet_at(octets, 4), octet_at(octets, 5)))
}

/// Returns the encoding of a text whose characters take several octets each, with what to do about it.
fn wide_words(octets: &[u8]) -> Option<&'static str> {
    if is_utf_32(octets) {
        Some("the text is in UTF-32: write it in UTF-8 (iconv -f UTF-32 -t UTF-8 OLD > NEW)")
    } else if matches!(number16(octets, 0), 0xfffe | 0xfeff) {
        Some("the text is in UTF-16: write it in UTF-8 (iconv -f UTF-16 -t UTF-8 OLD > NEW)")
    } else if begins_low_first(octets) {
        Some("the text is in UTF-16: write it in UTF-8 (iconv -f UTF-16LE -t UTF-8 OLD > NEW)")
    } else if begins_high_first(octets) {
        Some("the text is in UTF-16: write it in UTF-8 (iconv -f UTF-16BE -t UTF-8 OLD > NEW)")
    } else {
        None
    }
}

/// Returns the index at which a line of a text begins, by its 1-based number.
fn start_of_line(octets: &[u8], line: usize) -> usize {
    let mut number: usize = 1;
    let mut start: usize = 0;
    for index in 0..octets.len() {
        if number < line && octets[index] == b'\n' {
            number = number.saturating_add(1);
            start = index.saturating_add(1);
        }
    }
    start
}

/// Writes the octets of a line before a column, at most 60.
fn write_before(out: &mut Explanation, octets: &[u8], line: usize, column: usize) {
    let start = start_of_line(octets, line);
    let end = start.saturating_add(column).min(octets.len());
    let first = start.max(end.saturating_sub(SHOWN));
    let before = octets.get(first..end).unwrap_or(&[]);
    if !before.is_empty() {
        out.text("the text there, up to that place: ");
        out.octets_of(before);
        out.end_line();
    }
}

/// Returns the index of the octet at which an error occurs, by its line, its column and the reason.
fn place_of(octets: &[u8], line: usize, column: usize, reason: &str) -> usize {
    if reason.starts_with("EOF") {
        return octets.len();
    }
    start_of_line(octets, line).saturating_add(column.saturating_sub(1))
}

/// Returns a description of the limit on the nesting of JSON or on the size of numbers, if it was exceeded.
fn limit_words(reason: &str) -> &'static str {
    match reason {
        "recursion limit exceeded" => " (values may be nested in at most 127 others)",
        "number out of range" => " (numbers beyond 1.79e308 are refused; it is before this place)",
        _ => "",
    }
}

/// Returns the reason in an error's text, which precedes the position.
fn reason_in(text: &str) -> &str {
    match text.split_once(" at line ") {
        Some((reason, _)) => reason,
        None => text,
    }
}

/// Writes a reason, and its line and column.
fn write_reason(out: &mut Explanation, line: usize, column: usize, reason: &str) {
    out.text_number("line ", line as u64);
    out.text_number(", column ", column as u64);
    out.text(": ");
    out.text(reason);
    out.sentence(limit_words(reason));
}

/// Writes what is wrong with the beginning of a text that should be a network document or a traffic declaration.
/// Returns whether anything was written.
fn write_beginning(out: &mut Explanation, octets: &[u8], is_network: bool) -> bool {
    match beginning_words(octets) {
        Some(words) => {
            out.sentence(words);
            true
        }
        None => write_other_file(out, octets, is_network),
    }
}

/// Writes the position of an error, its reason, and what is wrong there.
fn write_error(out: &mut Explanation, octets: &[u8], error: &Error, is_network: bool) {
    let text = format!(in out.alloc; "{error}");
    let Some(text) = out.unless_short(text) else {
        return;
    };
    let reason = reason_in(text.as_str());
    write_reason(out, error.line(), error.column(), reason);
    if !write_beginning(out, octets, is_network) {
        write_before(out, octets, error.line(), error.column());
        let index = place_of(octets, error.line(), error.column(), reason);
        write_fault(out, octets, index);
    }
}

/// Writes why octets that should be a network document or a traffic declaration are no JSON text, if they aren't.
pub(crate) fn write_json(out: &mut Explanation, octets: &[u8], is_network: bool) {
    match Value::from_slice(out.alloc, octets) {
        Ok(_) => {}
        Err(error) if error.is_memory() => out.fall_short(),
        Err(error) => write_error(out, octets, &error, is_network),
    }
}
