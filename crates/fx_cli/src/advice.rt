//! What to do about arguments that don't parse.

use clap::error::ErrorKind;
use std::alloc::{AllocError, Global};

/// The options, each with advice on where to write it.
const OPTIONS: [(&str, &str); 7] = [
    (
        "--explain",
        "Write --explain once, without a value and before any --, after which all arguments are files; it goes with each command.",
    ),
    (
        "--format",
        "Write --format json once, before any --, after which all arguments are files; it goes with each command, and without it the answer is text.",
    ),
    (
        "--progress",
        "Write --progress once, without a value and before any --, after which all arguments are files; it goes with audit, collect and run.",
    ),
    (
        "--limit",
        "--limit goes with audit alone, after that word and before any --: `once audit NETWORK TRAFFIC --limit N`.",
    ),
    (
        "--links",
        "--links goes with run alone, after that word and before any --: `once run NETWORK TRAFFIC CAPTURE SCHEDULE --links PREFIX`.",
    ),
    (
        "--help",
        "Write `once help COMMAND`, or --help after the command.",
    ),
    ("--version", "Write `once --version` alone."),
];

/// The advice about the number after --limit.
const LIMIT: &str =
    "Write --limit once, followed by a whole number from 1 to 1000000, as in --limit 20000.";

/// The advice about an unknown option.
const NO_OPTION: &str =
    "There is no such option. --explain and --format json go with each command, --progress with audit, collect and run, --limit with audit \
and --links with run. A file whose name begins with - is named after --, as in `once lint -- -file`.";

/// Returns how many octets at the start of both are equal, regardless of case.
fn same_in_front(a: &[u8], b: &[u8]) -> usize {
    let mut same: usize = 0;
    for (x, y) in a.iter().zip(b.iter()) {
        if !x.eq_ignore_ascii_case(y) {
            return same;
        }
        same = same.saturating_add(1);
    }
    same
}

/// Returns how many octets at the end of both are equal, regardless of case.
fn same_behind(a: &[u8], b: &[u8]) -> usize {
    let mut same: usize = 0;
    for (x, y) in a.iter().rev().zip(b.iter().rev()) {
        if !x.eq_ignore_ascii_case(y) {
            return same;
        }
        same = same.saturating_add(1);
    }
    same
}

/// Returns whether a word may be a misspelled option: apart from case, they differ in at most two adjacent letters,
/// which are wrong, added or missing.
fn is_near(word: &[u8], option: &[u8]) -> bool {
    let longest = word.len().max(option.len());
    same_in_front(word, option)
        .saturating_add(same_behind(word, option))
        .saturating_add(2)
        >= longest
}

/// Returns the advice about the option that a word may be meant for, if there is one.
fn option_advice(word: &str) -> Option<&'static str> {
    for (option, advice) in OPTIONS {
        if is_near(word.as_bytes(), option.as_bytes()) {
            return Some(advice);
        }
    }
    None
}

/// Returns the advice about an argument that the command doesn't accept.
fn unknown_word_advice(word: &str) -> &'static str {
    let Some(behind) = word.strip_prefix("-") else {
        return "Leave it out: the usage line has all that the command takes, in this order.";
    };
    if behind.parse::<u64>().is_ok() {
        return LIMIT;
    }
    option_advice(word).unwrap_or(NO_OPTION)
}

/// Returns the advice about an argument that isn't a command: the first, or one after `help` and a command.
fn unknown_command_advice(text: &str) -> &'static str {
    if text.contains(" <COMMAND>") {
        "The first word is a command: `once help` lists them."
    } else {
        "One command follows help, as in `once help check`; `once explain 407` says what a number means."
    }
}

/// Returns the argument that an error's text is about: the first between quotation marks, or an empty one.
fn named_word(text: &str) -> &str {
    match text.split_once("'") {
        Some((_, behind)) => match behind.split_once("'") {
            Some((word, _)) => word,
            None => "",
        },
        None => "",
    }
}

/// Returns the advice about an extra argument, if it is one that users often write.
fn extra_word_advice(text: &str) -> Option<&'static str> {
    if text.contains(" explain <") {
        Some("Write the number alone, as in `once explain 407`, or `once explain all`.")
    } else if text.contains(" sum <") && !named_word(text).starts_with("-") {
        Some("All totals come in one file: `cat FIRST SECOND | once sum NETWORK /dev/stdin`.")
    } else if text.contains(" audit [") && !named_word(text).starts_with("-") {
        Some(
            "An audit takes the network and the traffic; `once check` takes a certificate after them.",
        )
    } else if named_word(text) == "-o" || named_word(text) == "--output" {
        Some("The answer goes to standard output: write `> FILE` after the command.")
    } else {
        None
    }
}

/// Returns the advice about arguments that don't parse, given the kind of the error and its text.
fn advice_of(kind: ErrorKind, text: &str) -> Option<&'static str> {
    if text.contains("remove the '--' before it") {
        return None;
    }
    match kind {
        ErrorKind::UnknownArgument => {
            Some(extra_word_advice(text).unwrap_or(unknown_word_advice(named_word(text))))
        }
        ErrorKind::InvalidSubcommand => {
            Some(option_advice(named_word(text)).unwrap_or(unknown_command_advice(text)))
        }
        ErrorKind::MissingSubcommand => Some("Write a command: `once help` lists them."),
        ErrorKind::MissingRequiredArgument => Some(
            "Write what is missing, in the order of the usage line; `once help COMMAND` says what each is.",
        ),
        ErrorKind::ValueValidation | ErrorKind::InvalidValue | ErrorKind::ArgumentConflict => {
            value_advice(text)
        }
        _ => None,
    }
}

/// Returns the advice about the value of an option.
fn value_advice(text: &str) -> Option<&'static str> {
    if text.contains("--limit") {
        Some(
            "Write --limit once, followed by a whole number from 1 to 1000000, as in --limit 20000.",
        )
    } else if text.contains("--links") {
        Some(
            "Write --links once, followed by the beginning of the names of the links' files, as in --links link.",
        )
    } else {
        None
    }
}

/// Returns the parts of an error's text before and after the tip that an argument may be a file's name, which doesn't
/// help if an option is meant.
fn without_tip(text: &str) -> (&str, &str) {
    let Some((before, tip)) = text.split_once("\n\n  tip: to pass '") else {
        return (text, "");
    };
    match tip.split_once("\n") {
        Some((_, behind)) => (before, behind),
        None => (before, ""),
    }
}

/// Returns the text of an error, followed by what to do.
///
/// Fails if out of memory.
pub(crate) fn with_advice(
    alloc: Global,
    kind: ErrorKind,
    text: &str,
) -> Result<String, AllocError> {
    let Some(advice) = advice_of(kind, text) else {
        return String::from_str(alloc, text);
    };
    let (before, behind) = without_tip(text);
    let between = if behind.is_empty() { "" } else { "\n" };
    format!(in alloc; "{before}{between}{behind}\nwhat to do: {advice}\n")
}
