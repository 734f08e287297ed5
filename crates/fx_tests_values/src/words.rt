//! Refusals in words: found by number, written, and listed.
use crate::answers::ends;
use fx_base::{Fault, Room, Sink};
use fx_words::{put_explanation, put_reason, put_refusal_list, refusal_of};

/// Returns the number of numbers whose refusal was found under them.
fn known() -> u16 {
    let mut found = 0u16;
    for number in 0..1000u16 {
        if let Some(refusal) = refusal_of(number)
            && refusal.number == number
        {
            found = found.wrapping_add(1);
        }
    }
    found
}

/// Returns what is wrong according to the refusal with this number.
fn wrong(number: u16) -> &'static str {
    match refusal_of(number) {
        Some(refusal) => refusal.wrong,
        None => "",
    }
}

#[test]
fn finds_words_by_number(rt: HostRuntime) {
    assert!(rt;
        (known() == 79)
            & refusal_of(203).is_none()
            & (wrong(411) == "A line follows the line `end`.")
    );
}

/// The explanations of 411, a number that has words, and of 416, one that has none.
const WORDS: &[u8] = b"411
wrong: A line follows the line `end`.
usually: an empty line at the end of the text, two certificates in one file, or the sentences \
that `once audit --explain` writes after a certificate.
what to do: Remove what follows `end` and its line feed, or audit again without --explain.
see: FORMATS, a certificate
wrong: The program was refused memory.
usually: a limit of the system or of a container, or more flows, steps or documents at once than \
there is memory for.
what to do: Give the program more memory, or cut what it reads into parts.
";

/// Returns whether a number was explained, if it is known, or had no words.
fn is_explained(answer: Result<bool, Fault>, known: bool) -> bool {
    match answer {
        Ok(found) => found == known,
        Err(_) => false,
    }
}

/// Explains a number that has words and one that has none, and writes the reason of a number without a section. Returns
/// whether there was room, and only the first number was known.
fn puts_words<S: Sink>(sink: &mut S) -> bool {
    is_explained(put_explanation(sink, 411), true)
        & is_explained(put_explanation(sink, 416), false)
        & ends(put_reason(sink, 416), 0)
        & ends(put_reason(sink, 900), 0)
}

#[test]
fn writes_words_line_by_line(rt: HostRuntime) {
    let mut octets = [0u8; 1024];
    let mut room = Room::new(&mut octets);
    let is_put = puts_words(&mut room);
    assert!(rt; is_put & (room.octets() == WORDS));
}

/// Returns the number of lines in octets, each of which is ended.
fn lines_of(octets: &[u8]) -> u16 {
    let mut found = 0u16;
    for octet in octets {
        if *octet == b'\n' {
            found = found.wrapping_add(1);
        }
    }
    found
}

/// Returns whether the list has a line for each number, begins with the first and ends with the last.
fn is_listed() -> bool {
    let mut octets = [0u8; 8192];
    let mut room = Room::new(&mut octets);
    let is_put = ends(put_refusal_list(&mut room), 0);
    let list = room.octets();
    is_put
        & (lines_of(list) == 79)
        & list.starts_with(b"101  A document is no JSON text in UTF-8.\n102  ")
        & list.ends_with(b"\n903  A line has more than 4,096 octets.\n")
}

#[test]
fn lists_all_in_order(rt: HostRuntime) {
    let mut octets = [0u8; 64];
    assert!(rt; is_listed() & ends(put_refusal_list(&mut Room::new(&mut octets)), 902));
}
