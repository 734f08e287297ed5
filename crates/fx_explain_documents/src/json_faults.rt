//! What is wrong with a JSON text at the position of its error.
use fx_explanation::{Explanation, part};
use serde_json::Value;
use std::str;

/// The maximum nesting depth of values.
const DEEPEST: u64 = 127;

/// Returns whether an octet ends a value.
fn ends_value(octet: u8) -> bool {
    octet.is_ascii_alphanumeric() || matches!(octet, b'}' | b']' | b'"')
}

/// The state of a JSON text before a position.
#[derive(Clone, Copy, Drop)]
struct OpenBefore {
    /// The last octet that isn't white space, or 0 if there is none.
    last: u8,
    /// The number of open objects and lists.
    depth: u64,
    /// Whether a string is open.
    in_string: bool,
}

/// Returns what these octets leave open.
fn before_end(octets: &[u8]) -> OpenBefore {
    let mut before = OpenBefore {
        last: 0,
        depth: 0,
        in_string: false,
    };
    for octet in octets {
        match *octet {
            b'"' if before.last != b'\\' => before.in_string = !before.in_string,
            b'{' | b'[' if !before.in_string => before.depth = before.depth.saturating_add(1),
            b'}' | b']' if !before.in_string => before.depth = before.depth.saturating_sub(1),
            _ => {}
        }
        if !octet.is_ascii_whitespace() {
            before.last = *octet;
        }
    }
    before
}

/// Returns what is wrong with a terminated string that is an error after the octet `last`.
fn whole_string_words(string: &[u8], last: u8) -> &'static str {
    if ends_value(last) {
        "no comma precedes it, or no colon after a member's name"
    } else if str::from_utf8(string).is_err() {
        "the string that begins there is no UTF-8: the text is in another encoding"
    } else if string.contains(&b'\\') {
        "a backslash begins no escape in the string that begins there; for a backslash write \\\\"
    } else {
        "a member, with its name and a colon, belongs in an object, { }, not in a list, [ ]"
    }
}

/// Returns what is wrong with a string after the octet `last`. The octets exclude its opening quotation mark.
fn string_words(octets: &[u8], last: u8) -> &'static str {
    for index in 0..octets.len() {
        let is_escaped = index > 0 && octets[index - 1] == b'\\';
        match octets[index] {
            b'"' if !is_escaped => return whole_string_words(part(octets, 0, index), last),
            b'\n' | b'\r' => {
                return "a line ends inside of the string that begins there; its quotation mark is missing, or write \\n";
            }
            0..=31 => {
                return "a control character stands in the string that begins there; write \\t for a tab, or \\u and four hexadecimal digits";
            }
            _ => {}
        }
    }
    "the string that begins there has no quotation mark at its end"
}

/// Returns what is wrong with a bracket after the octet `last`.
fn bracket_words(octet: u8, last: u8) -> &'static str {
    match (octet, last) {
        (b'{' | b'[', b',' | b'{') => "a member's name is due there, which is a string",
        (b'{' | b'[', _) => "no comma precedes it, or no colon after a member's name",
        (_, b',') => "a comma stands before it, and nothing follows that comma",
        (_, b':') => "no value follows the colon",
        _ => "this bracket isn't the one that closes what is open there",
    }
}

/// Returns what is wrong with an octet after the octet `last`, which begins no string and is no bracket.
fn octet_words(octets: &[u8], last: u8) -> Option<&'static str> {
    Some(match octets {
        [b',', ..] => "a comma stands there where a value or a member's name is due",
        [b':', ..] =>
            "a colon stands there; it stands once after a member's name, which is a string",
        [b'\'', ..] => "names and texts stand in double quotation marks",
        [b'=', ..] => "a colon stands after a member's name, and no equals sign",
        [b';', ..] => "a comma stands between members and between values, and no semicolon",
        [b'/' | b'#', ..] => "JSON has no comments",
        [b'N', b'a', ..] | [b'I', b'n', ..] | [b'-', b'I', ..] => {
            "JSON has no NaN and no Infinity: write a number, or leave the member out"
        }
        [b'0'..=b'9' | b'+' | b'-' | b'.', ..] => {
            "no number is written so: it has no plus, no zeros in front, and digits around a point"
        }
        [0x80..=0xff, ..] => {
            "a character beyond ASCII stands there, as a curly quotation mark or a no-break space; such characters stand in strings alone, in UTF-8"
        }
        _ if last == b'"' => {
            "the string before it has ended: its closing quotation mark comes too early, or a comma is missing"
        }
        _ if last == 0 => "a document begins with {, and this file doesn't: is it another one?",
        [b'A'..=b'Z' | b'a'..=b'z' | b'_', ..] => {
            "no value begins like this: literals are true, false and null in lower case; names and texts are in quotation marks"
        }
        _ => return None,
    })
}

/// Adds that a text ends too early, with this still open.
fn write_open(out: &mut Explanation, open: &OpenBefore) {
    if open.last == 0 {
        out.sentence("the file has nothing but white space");
        return;
    }
    out.text_number(
        "the text ends too early: objects and lists that are open at its end: ",
        open.depth,
    );
    out.sentence(if open.in_string { ", and a string" } else { "" });
}

/// Adds what is wrong with a JSON text at an index, insofar as what is there and before shows it.
pub(crate) fn write_fault(out: &mut Explanation, octets: &[u8], index: usize) {
    let start = part(octets, 0, index);
    let before = before_end(start);
    let last = before.last;
    let rest = part(octets, index, octets.len());
    let words = match rest {
        [] => {
            write_open(out, &before_end(octets));
            None
        }
        _ if before.depth > DEEPEST => Some("values may be nested in at most 127 others"),
        _ if last != 0 && Value::from_slice(out.alloc, start).is_ok() => {
            Some("the document has ended before it: a file has one document, which is one object")
        }
        [b'"', string @ ..] => Some(string_words(string, last)),
        [octet @ (b'{' | b'[' | b'}' | b']'), ..] => Some(bracket_words(*octet, last)),
        _ => octet_words(rest, last),
    };
    if let Some(words) = words {
        out.sentence(words);
    }
}
