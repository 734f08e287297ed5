//! Explanations of texts from standard input that aren't bundles.

use crate::gathering::Gathered;

/// The line that ends each text of a bundle.
const MARK: &[u8] = b"%%\n";

/// Returns what precedes the first line `%%` and what follows it, if there is such a line.
fn first_text(octets: &[u8]) -> Option<(&[u8], &[u8])> {
    if let Some(rest) = octets.strip_prefix(MARK) {
        return Some((b"", rest));
    }
    for index in 0..octets.len() {
        let (text, rest) = octets.split_at(index);
        if text.ends_with(b"\n") {
            if let Some(behind) = rest.strip_prefix(MARK) {
                return Some((text, behind));
            }
        }
    }
    None
}

/// Returns the 0-based index of the first line feed, if there is one.
fn first_line_feed(octets: &[u8]) -> Option<usize> {
    for index in 0..octets.len() {
        if octets[index] == b'\n' {
            return Some(index);
        }
    }
    None
}

/// Returns the first line without its line feed, and what follows it.
fn first_line(octets: &[u8]) -> (&[u8], &[u8]) {
    match first_line_feed(octets) {
        Some(end) => match (octets.get(..end), octets.get(end.saturating_add(1)..)) {
            (Some(line), Some(rest)) => (line, rest),
            _ => (octets, b""),
        },
        None => (octets, b""),
    }
}

/// Returns the number of lines `%%`, and whether anything follows the last one.
fn texts_in(octets: &[u8]) -> (u64, bool) {
    let mut rest = octets;
    let mut count: u64 = 0;
    for _ in 0..octets.len() {
        let Some((_text, behind)) = first_text(rest) else {
            break;
        };
        rest = behind;
        count = count.saturating_add(1);
    }
    (count, !rest.is_empty())
}

/// Returns whether a line ends with `%%` without beginning with it (`at_end`), or begins with `%%` and goes on.
fn is_nearly_mark(line: &[u8], at_end: bool) -> bool {
    let begins = line.starts_with(b"%%");
    if at_end {
        line.ends_with(b"%%") && !begins
    } else {
        begins && line.len() > 2
    }
}

/// Returns the number of lines that only end with `%%` (`at_end`), or only begin with it, and the number of the first
/// of them. The octets begin with line 2 of the bundle.
fn nearly_marks(octets: &[u8], at_end: bool) -> (u64, u64) {
    let mut rest = octets;
    let mut count: u64 = 0;
    let mut first: u64 = 0;
    let mut number: u64 = 1;
    for _ in 0..octets.len() {
        let (line, behind) = first_line(rest);
        rest = behind;
        number = number.saturating_add(1);
        if is_nearly_mark(line, at_end) {
            count = count.saturating_add(1);
            if first == 0 {
                first = number;
            }
        }
        if rest.is_empty() {
            break;
        }
    }
    (count, first)
}

/// Writes how many lines only end with `%%` (`at_end`), or only begin with it, and what to do; nothing if there are
/// none.
fn put_nearly_marks(octets: &[u8], at_end: bool, words: &mut Gathered) {
    let (count, first) = nearly_marks(octets, at_end);
    if count == 0 {
        return;
    }
    words.text(if at_end {
        b"lines that end in %%, after something else: ".as_slice()
    } else {
        b"lines that begin with %% and go on: "
    });
    words.number(count);
    words.text(b" (the first is line ");
    words.number(first);
    words.text(if at_end {
        b"); put a line feed before each %%\n".as_slice()
    } else {
        b"); remove what follows each %%\n"
    });
}

/// Writes how many lines `%%` a bundle has and how many its command requires, and which lines are almost `%%`.
fn put_mark_words(octets: &[u8], count: u64, wanted: u64, words: &mut Gathered) {
    words.text(b"the bundle has ");
    words.number(count);
    words.text(b" lines %%; its command wants ");
    words.number(wanted);
    words.text(b", one after each text\n");
    put_nearly_marks(octets, true, words);
    put_nearly_marks(octets, false, words);
    if octets.ends_with(b"\n%%") {
        words.text(b"no line feed follows the last %%\n");
    }
}

/// Returns the number of texts that a bundle has after its first line, the command, or 0 if that isn't a command.
fn texts_of(command: &[u8]) -> u64 {
    match command {
        b"audit" => 2,
        b"check" | b"confirm" | b"replay" => 3,
        _ => 0,
    }
}

/// The number of octets of a line that are shown.
const SHOWN: usize = 40;

/// A byte order mark in UTF-8.
const ORDER_MARK: &[u8] = b"\xef\xbb\xbf";

/// Writes that the first line isn't a command, and shows it.
fn put_first_line(line: &[u8], words: &mut Gathered) {
    words.text(b"the first line of standard input is none of audit, check, confirm and replay: \"");
    for octet in line.get(..SHOWN).unwrap_or(line) {
        words.text(&[if octet.is_ascii_graphic() {
            *octet
        } else {
            b' '
        }]);
    }
    words.text(if line.starts_with(ORDER_MARK) {
        b"\"; a byte order mark is before it\n".as_slice()
    } else if line.ends_with(b" ") {
        b"\"; it ends with a space\n"
    } else {
        b"\"\n"
    });
}

/// Writes why the octets of standard input aren't a bundle.
pub(crate) fn put_bundle_words(octets: &[u8], words: &mut Gathered) {
    if octets.is_empty() {
        words.text(b"standard input is empty; without arguments a bundle is read from it\n");
        return;
    }
    let (command, rest) = first_line(octets);
    if command.ends_with(b"\r") {
        words.text(
            b"the first line ends in CR and LF: a bundle's lines end in LF alone, as `tr -d '\\r'` makes them\n",
        );
        return;
    }
    let wanted = texts_of(command);
    if wanted == 0 {
        put_first_line(command, words);
        return;
    }
    let (count, has_more) = texts_in(rest);
    if count != wanted {
        put_mark_words(rest, count, wanted, words);
    } else if has_more {
        words.text(b"something follows the bundle's last line %%\n");
    }
}
