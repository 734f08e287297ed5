//! The forms of lines, and how far a line has one of them.
use fx_elements::{Axis, EVERY_AXIS, Words, is_word, read_number, read_u64, read_written, top};
use fx_explanation::axis_word;
use fx_run_text::TextVersion;

/// The kind of a text of lines.
#[derive(Clone, Copy)]
pub(crate) enum LineText {
    Certificate,
    /// A run or a refutation.
    Run(TextVersion),
    Schedule,
}

/// The form of a packet's line of the first version.
const PACKET_ONE: &str = "packet CLASS PATH SOURCE DESTINATION PROTOCOL SPORT DPORT TOS OCTETS";

/// The form of a packet's line of the second version.
const PACKET_TWO: &str =
    "packet CLASS PATH SOURCE DESTINATION PROTOCOL SPORT DPORT TOS VERSION SOURCE6 DESTINATION6 OCTETS";

/// Returns the forms of the lines after the first.
pub(crate) fn forms_of(kind: LineText) -> [&'static str; 6] {
    match kind {
        LineText::Certificate => [
            "class CLASS path PATH",
            "S AXIS AT",
            "L CROSSING POINT PROCESS",
            "N",
            "end",
            "",
        ],
        LineText::Run(version) => [
            match version {
                TextVersion::One => PACKET_ONE,
                TextVersion::Two => PACKET_TWO,
            },
            "cross PACKET CROSSING CHOICES",
            "expire cache DEVICE CACHE POSITION CHOICES",
            "expire aggregation DEVICE PROCESS AGGREGATION POSITION CHOICES",
            "arrive LINK POSITION CHOICES",
            "end",
        ],
        LineText::Schedule => [
            "next",
            "next CLASS PATH",
            "expire DEVICE CACHE",
            "emit DEVICE PROCESS AGGREGATION",
            "carry LINK OCTETS",
            "use DEVICE EXPORTER DESTINATION",
        ],
    }
}

/// Returns whether a line is a packet's line of another version than its text.
pub(crate) fn is_of_other_version(kind: LineText, line: &[u8]) -> bool {
    match kind {
        LineText::Run(TextVersion::One) => fit_of(PACKET_TWO, line).is_whole(),
        LineText::Run(TextVersion::Two) => fit_of(PACKET_ONE, line).is_whole(),
        _ => false,
    }
}

/// The placeholders for values of the axes in forms, in the order of the axes.
const AXIS_WORDS: [&str; 9] = [
    "SOURCE",
    "DESTINATION",
    "PROTOCOL",
    "SPORT",
    "DPORT",
    "TOS",
    "VERSION",
    "SOURCE6",
    "DESTINATION6",
];

/// Returns the axis whose values a placeholder of a packet's form denotes.
pub(crate) fn axis_of(form: &str, word: &str) -> Option<Axis> {
    if !form.starts_with("packet ") {
        return None;
    }
    for index in 0..AXIS_WORDS.len() {
        if AXIS_WORDS[index] == word {
            return EVERY_AXIS.get(index).copied();
        }
    }
    None
}

/// Returns whether a word of a form is literal, and not a placeholder.
pub(crate) fn is_literal(word: &str) -> bool {
    for octet in word.as_bytes() {
        if octet.is_ascii_lowercase() {
            return true;
        }
    }
    word.len() == 1
}

/// Returns the axis with this name.
pub(crate) fn axis_named(word: &[u8]) -> Option<Axis> {
    for axis in EVERY_AXIS {
        if is_word(word, axis_word(axis).as_bytes()) {
            return Some(axis);
        }
    }
    None
}

/// Returns the greatest number that a placeholder of a form allows after the given word of a line.
fn greatest(form: &str, due: &str, before: &[u8]) -> u128 {
    match due {
        "AT" => match axis_named(before) {
            Some(axis) => top(axis),
            None => 0,
        },
        "OCTETS" if form.starts_with("carry ") => 65_535,
        _ => u128::from(u64::MAX),
    }
}

/// Returns whether a word of a line fits a word of its form, after the given word.
fn is_fitting(form: &str, due: &str, word: &[u8], before: &[u8]) -> bool {
    if is_literal(due) {
        return is_word(word, due.as_bytes());
    }
    if due == "AXIS" {
        return axis_named(word).is_some();
    }
    match axis_of(form, due) {
        Some(axis) => read_written(axis, word).is_some(),
        None => is_number(form, due, word, before),
    }
}

/// Returns whether a word of a line is a number that fits its form, after the given word.
fn is_number(form: &str, due: &str, word: &[u8], before: &[u8]) -> bool {
    let is_counted = form.starts_with("carry ") && due == "OCTETS";
    match read_number(word, greatest(form, due, before)) {
        Some(number) => number > 0 || !is_counted,
        None => false,
    }
}

/// The extent to which a line fits a form.
#[derive(Clone, Copy, Drop)]
pub(crate) struct Fit<'a> {
    /// The number of words that fit.
    pub(crate) words: u64,
    /// The next word of the form, or `None` at its end.
    pub(crate) due: Option<&'a str>,
    /// The next word of the line, or `None` at its end.
    pub(crate) word: Option<&'a [u8]>,
}

impl Fit<'_> {
    /// Returns whether the whole line fits the form.
    pub(crate) fn is_whole(&self) -> bool {
        self.due.is_none() && self.word.is_none()
    }
}

/// Returns how far the remaining words of a line are choices, given the number of words before them.
fn fit_choices<'a>(words: Words<'a>, before: u64) -> Fit<'a> {
    let mut left = words;
    let mut passed = before;
    'words: loop {
        let Some((word, rest)) = left.word() else {
            return Fit {
                words: passed,
                due: None,
                word: None,
            };
        };
        if !is_word(word, b"n") && read_u64(word).is_none() {
            return Fit {
                words: passed,
                due: Some("CHOICES"),
                word: Some(word),
            };
        }
        passed = passed.saturating_add(1);
        left = rest;
    }
}

/// Returns how far a line fits a form.
pub(crate) fn fit_of<'a>(form: &'static str, line: &'a [u8]) -> Fit<'a> {
    let (named, has_choices) = match form.strip_suffix(" CHOICES") {
        Some(named) => (named, true),
        None => (form, false),
    };
    let mut left = Words::new(line);
    let mut passed: u64 = 0;
    let mut before: &[u8] = b"";
    for due in named.split(' ') {
        let Some((word, rest)) = left.word() else {
            return Fit {
                words: passed,
                due: Some(due),
                word: None,
            };
        };
        if !is_fitting(form, due, word, before) {
            return Fit {
                words: passed,
                due: Some(due),
                word: Some(word),
            };
        }
        passed = passed.saturating_add(1);
        before = word;
        left = rest;
    }
    if has_choices {
        return fit_choices(left, passed);
    }
    Fit {
        words: passed,
        due: None,
        word: left.word().map(|(word, _rest)| word),
    }
}
