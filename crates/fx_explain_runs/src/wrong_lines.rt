//! Which word of a line is wrong, and which form the line should have.
use crate::line_forms::{
    Fit, LineText, axis_of, fit_of, forms_of, is_literal, is_of_other_version,
};
use fx_base::Line;
use fx_elements::{Axis, is_word, read_u64};
use fx_explanation::{Explanation, are_digits, foreign_words};

/// Returns a description of the allowed values of an axis.
pub(crate) fn value_words(axis: Axis) -> &'static str {
    match axis {
        Axis::Source | Axis::Destination => ", an address of IPv4, as 192.0.2.1",
        Axis::Source6 | Axis::Destination6 => {
            ", an address of IPv6 in eight groups in lower case, as 2001:db8:0:0:0:0:0:1"
        }
        Axis::SourcePort | Axis::DestinationPort => ", a number from 0 to 65535",
        _ => ", a number from 0 to 255",
    }
}

/// Returns a description of what is allowed for a word of a form.
fn due_words(form: &str, due: &str) -> &'static str {
    match axis_of(form, due) {
        Some(axis) => value_words(axis),
        None => number_words(form, due),
    }
}

/// Returns a description of what is allowed for a word of a form that denotes no value of an axis.
fn number_words(form: &str, due: &str) -> &'static str {
    match due {
        "CHOICES" => ", each of which is n or a number",
        "AXIS" => {
            ", one of source, destination, protocol, sport, dport, tos, version, source6 and destination6"
        }
        "AT" => {
            ", a number in decimal digits, also for an address: up to 255 for protocol, tos and version, 65535 for ports, \
4294967295 for addresses of IPv4"
        }
        "OCTETS" if form.starts_with("carry ") => ", a number from 1 to 65535",
        "OCTETS" | "PACKETS" => ", a number from 0 to 18446744073709551615",
        _ if is_literal(due) => "",
        _ => ", a number in decimal digits",
    }
}

/// Returns what is strange about a word, wherever it is.
fn strange_word(word: &[u8]) -> Option<&'static str> {
    if word.is_empty() {
        Some("the line is empty")
    } else if word.contains(&b'\t') {
        Some("it contains a tab; words are separated by one space")
    } else if word.ends_with(b"\r") {
        Some("the line ends in CR and LF; lines end in LF alone")
    } else if word.starts_with(b"\xef\xbb\xbf") {
        Some("it begins with a byte order mark: remove it")
    } else if word.len() > 1 && word.starts_with(b"0") && are_digits(word) {
        Some("a number has no zeros in front")
    } else if are_digits(word) && read_u64(word).is_none() {
        Some(
            "it is too great: numbers are at most 18446744073709551615, which is 2 to the 64 less 1",
        )
    } else if word.starts_with(b"-") || word.starts_with(b"+") {
        Some("it contains a sign; numbers consist of decimal digits")
    } else if word.starts_with(b"#") {
        Some("this format has no comments: remove it")
    } else {
        None
    }
}

/// Returns how far a line fits the nearest of these forms.
pub(crate) fn nearest<'a>(forms: &[&'static str], line: &'a [u8]) -> Fit<'a> {
    // This form fits no line, since no line contains a line feed.
    let mut best = fit_of("\n", line);
    for form in forms {
        let fit = fit_of(form, line);
        if !form.is_empty() && (fit.is_whole() || (fit.words > best.words && !best.is_whole())) {
            best = fit;
        }
    }
    best
}

/// Returns what is strange about a line that has an empty word.
fn blank_words(line: &[u8]) -> &'static str {
    if line.is_empty() {
        "the line is empty"
    } else if line.ends_with(b" ") {
        "the line ends with a space: remove it"
    } else if line.starts_with(b" ") {
        "the line begins with a space: remove it"
    } else {
        "there are two spaces: words are separated by one"
    }
}

/// Writes the first wrong word of a line, unless the line begins a file of another kind.
pub(crate) fn write_word(out: &mut Explanation, fit: &Fit<'_>, line: &[u8]) {
    if foreign_words(line).is_some() {
        return;
    }
    let number = fit.words.saturating_add(1);
    match fit.word {
        Some(word) => {
            out.text_number("word ", number);
            out.text(" is \"");
            out.octets_of(word);
            out.text("\"");
        },
        None => out.text_number("the line ends before word ", number),
    }
    let strange = match fit.word {
        Some(word) if word.is_empty() => Some(blank_words(line)),
        Some(word) => strange_word(word),
        None => None,
    };
    if let Some(words) = strange {
        out.text(": ");
        out.text(words);
    }
    out.end_line();
}

/// Writes what may follow the words of a line that fit a form.
pub(crate) fn write_due(out: &mut Explanation, form: &'static str, fit: &Fit<'_>) {
    out.text("expected there: ");
    match fit.due {
        Some(due) => {
            out.text(due);
            out.text(due_words(form, due));
        },
        None => out.text("the end of the line"),
    }
    out.text("; the form of the line: ");
    out.sentence(form);
}

/// Writes the forms that a line may have that fit it up to the given number of words.
pub(crate) fn write_forms(out: &mut Explanation, forms: &[&'static str], line: &[u8], words: u64) {
    for form in forms {
        let fit = fit_of(form, line);
        if !form.is_empty() && fit.words == words {
            write_due(out, form, &fit);
        }
    }
}

/// Writes all forms of lines.
fn write_all_forms(out: &mut Explanation, forms: &[&'static str]) {
    let mut separator = "no line begins so; the forms of lines: ";
    for form in forms {
        if !form.is_empty() {
            out.text(separator);
            out.text(form);
            separator = "; ";
        }
    }
    out.end_line();
}

/// Returns what is wrong with a well-formed line.
fn misplaced_words(kind: LineText, line: &Line<'_>) -> &'static str {
    match kind {
        _ if !line.ended => "no line feed ends the line",
        LineText::Run(_) => {
            "the line is well-formed but misplaced: after the first line come packets (one in a refutation), then steps (at most 1,000,000 in a refutation), then end, and nothing after it"
        }
        _ => "the line is well-formed but misplaced",
    }
}

/// Writes the first wrong word of a line, and which form the line should have. Returns whether it may be another kind
/// of line that is expected, which is so if no word after the first is wrong.
pub(crate) fn write_wrong_line(out: &mut Explanation, kind: LineText, line: &Line<'_>) -> bool {
    let forms = forms_of(kind);
    let fit = nearest(&forms, line.bytes);
    if fit.is_whole() {
        out.sentence(misplaced_words(kind, line));
        return line.ended;
    }
    write_word(out, &fit, line.bytes);
    if fit.words == 0 {
        write_all_forms(out, &forms);
        write_text(out, line.bytes);
        return true;
    }
    write_forms(out, &forms, line.bytes, fit.words);
    if is_of_other_version(kind, line.bytes) {
        out.sentence("this is a packet's line of the other version than that of the first line");
    }
    false
}

/// Returns the kind of a text that begins with this line.
fn text_words(line: &[u8]) -> Option<&'static str> {
    if line.starts_with(b"once-certificate ") {
        Some("this is a certificate, for once check")
    } else if line.starts_with(b"once-refutation ") {
        Some(
            "this is a refutation, for once confirm; with once-run instead of once-refutation, once replay reads it",
        )
    } else if line.starts_with(b"once-run ") {
        Some("this is a run, for once replay")
    } else if line.starts_with(b"keys ") {
        Some("these are totals, for once sum")
    } else if line.starts_with(b"{") {
        Some("this is a document in JSON; documents come before the text")
    } else {
        answer_words(line)
    }
}

/// Returns which answer of the program begins with this line.
pub(crate) fn answer_words(line: &[u8]) -> Option<&'static str> {
    if line.starts_with(b"unknown ") {
        Some(
            "it is the answer of a once audit that found neither a certificate nor a refutation: there is nothing to be checked",
        )
    } else if line.starts_with(b"refused ")
        || line.starts_with(b"device ")
        || line.starts_with(b"memory ")
    {
        Some(
            "it is the refusal of an earlier call: mend what was refused there and call that again, or leave it out",
        )
    } else if line.starts_with(b"no ") {
        Some("it is the answer of once check or once confirm, which no command takes")
    } else if is_word(line, b"refuted") {
        Some("it is the answer of once confirm, which no command takes")
    } else {
        None
    }
}

/// Writes the kind of a text that begins with this line, if known.
fn write_text(out: &mut Explanation, line: &[u8]) {
    if let Some(words) = text_words(line) {
        out.sentence(words);
    }
}

/// Writes what the first line of a text should be, which begins with this name, and the kind of text that the given
/// line begins.
pub(crate) fn write_wrong_header(
    out: &mut Explanation,
    name: &'static str,
    condition: &'static str,
    line: &Line<'_>,
) {
    out.text("the first line has to be ");
    out.text(name);
    out.text(" 2, or ");
    out.text(name);
    out.text(" 1");
    out.sentence(condition);
    if foreign_words(line.bytes).is_some() {
        return;
    }
    if let Some(words) = strange_word(line.bytes) {
        out.sentence(words);
    } else if line.bytes.starts_with(b" ") || line.bytes.ends_with(b" ") {
        out.sentence(blank_words(line.bytes));
    } else if line.bytes.starts_with(name.as_bytes()) {
        out.sentence(
            "after the name come one space and the version, 2 or 1, and nothing else; this program knows no other versions",
        );
    } else {
        write_text(out, line.bytes);
    }
}
