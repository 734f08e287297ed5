//! Text that is collected before any of it is written.
ghost use Rattle.std.specs.Prelude.{◌≡◌, true, IfOk};
ghost use Rattle.fx_base.specs.Fault.{shown};
ghost use Rattle.fx_explanation.specs.Explanations.{IsPlainText, is_plain};

use fx_base::Room;
use fx_elements::{Axis, put_value, top, width};
use itoa::Buffer;
use std::alloc::{AllocError, Global};
use std::marker::Model;

/// Lines of text, in which each control character of a document is `?`. After a failed allocation further writes are
/// ignored, and [`Explanation::octets`] returns the error.
#[derive(Drop)]
pub struct Explanation {
    /// The allocator of its octets and of what is collected for it.
    pub alloc: Global,
    octets: Vec<u8>,
    is_short: bool,
}

impl Model for Explanation {
    ghost use Rattle.std.specs.Prelude.{List, ℕ};
    ghost use Rattle.fx_explanation.specs.Explanations.{IsPlainText};

    ghost Value = { List ℕ };

    ghost view = { λ s. s.octets.items };

    ghost invariant = { λ s. IsPlainText s.octets.items };
}

/// Returns the octet, or `?` if it is a control character.
fn shown_octet(octet: u8) -> u8
    ensures { result ≡ shown octet }
{
    if octet < 32 || octet == 127 {
        b'?'
    } else {
        octet
    }
}

/// Returns the separator if an item was shown before, and otherwise an empty text.
pub fn between(shown: bool, separator: &'static str) -> &'static str {
    if shown { separator } else { "" }
}

/// Returns the year, month and day of a day that is given in days since 1 January 1970.
fn date_of(days: u64) -> (u64, u64, u64) {
    // Years begin in March here, so that the leap day is the last day of a year; 719,468 days lie between the years 0
    // and 1970.
    let days = days.saturating_add(719_468);
    let (era, day) = (days / 146_097, days % 146_097);
    let leaps = (day / 1460)
        .saturating_sub(day / 36_524)
        .saturating_add(day / 146_096);
    let year = day.saturating_sub(leaps) / 365;
    let before = year
        .saturating_mul(365)
        .saturating_add(year / 4)
        .saturating_sub(year / 100);
    let day = day.saturating_sub(before);
    let month = day.saturating_mul(5).saturating_add(2) / 153;
    let first = month.saturating_mul(153).saturating_add(2) / 5;
    let day = day.saturating_sub(first).saturating_add(1);
    let is_next = month >= 10;
    let month = if is_next {
        month.saturating_sub(9)
    } else {
        month.saturating_add(3)
    };
    let year = era.saturating_mul(400).saturating_add(year);
    (
        if is_next {
            year.saturating_add(1)
        } else {
            year
        },
        month,
        day,
    )
}

impl Explanation {
    /// Returns an empty explanation.
    pub fn new(alloc: Global) -> Explanation {
        Explanation {
            alloc,
            octets: Vec::new(alloc),
            is_short: false,
        }
    }

    /// Returns its text.
    ///
    /// Fails if an allocation failed while it was written.
    pub fn octets(&self) -> Result<&[u8], AllocError>
        ensures plain { IfOk result (λ octets. IsPlainText octets.now) }
    {
        if self.is_short {
            return Err(AllocError);
        }
        Ok(self.octets.as_slice())
    }

    /// Notes that an allocation failed.
    pub fn fall_short(&mut self) {
        self.is_short = true;
    }

    /// Returns the value, or `None` after a failed allocation, which is noted.
    pub fn unless_short<T: Drop>(&mut self, made: Result<T, AllocError>) -> Option<T> {
        match made {
            Ok(made) => Some(made),
            Err(_) => {
                self.fall_short();
                None
            }
        }
    }

    /// Writes an octet that is a line feed or no control character.
    fn octet(&mut self, octet: u8)
        requires { is_plain octet ≡ true }
    {
        if !self.is_short && self.octets.push(octet).is_err() {
            self.is_short = true;
        }
    }

    /// Writes octets.
    pub fn octets_of(&mut self, octets: &[u8]) {
        for octet in octets {
            self.octet(shown_octet(*octet));
        }
    }

    /// Writes lines, each ended by a line feed.
    pub fn lines_of(&mut self, octets: &[u8]) {
        for octet in octets {
            if *octet == b'\n' {
                self.end_line();
            } else {
                self.octet(shown_octet(*octet));
            }
        }
    }

    /// Writes the text of another explanation.
    pub fn all_of(&mut self, other: &Explanation) {
        match other.octets() {
            Ok(octets) => self.lines_of(octets),
            Err(_) => self.fall_short(),
        }
    }

    /// Ends the line.
    pub fn end_line(&mut self) {
        self.octet(b'\n');
    }

    /// Writes a text.
    // It isn't inlined at its hundreds of callers: a run takes only a few of them, so inlining would cost more than
    // calls.
    #[cold]
    #[inline(never)]
    pub fn text(&mut self, text: &str) {
        self.octets_of(text.as_bytes());
    }

    /// Writes a name, in quotation marks.
    pub fn quoted(&mut self, name: &str) {
        self.text("\"");
        self.text(name);
        self.text("\"");
    }

    /// Writes a number in decimal.
    pub fn number(&mut self, number: u64) {
        let mut buffer = Buffer::new();
        self.octets_of(buffer.format(number).as_bytes());
    }

    /// Writes a number with at least two digits.
    fn two_digits(&mut self, number: u64) {
        if number < 10 {
            self.text("0");
        }
        self.number(number);
    }

    /// Writes a time, in seconds since 1970, as in `2026-11-30T15:10:43Z` (RFC 3339).
    pub fn time(&mut self, seconds: u32) {
        let (year, month, day) = date_of(u64::from(seconds) / 86_400);
        let of_day = u64::from(seconds) % 86_400;
        self.number(year);
        self.text("-");
        self.two_digits(month);
        self.text("-");
        self.two_digits(day);
        self.text("T");
        self.two_digits(of_day / 3600);
        self.text(":");
        self.two_digits(of_day / 60 % 60);
        self.text(":");
        self.two_digits(of_day % 60);
        self.text("Z");
    }

    /// Writes a value of an axis; an address is in the usual notation.
    pub fn value(&mut self, axis: Axis, value: u128) {
        if value > top(axis) {
            return;
        }
        let mut octets = [0; 64];
        let mut room = Room::new(&mut octets);
        // No value is longer than the array.
        let _written = put_value(&mut room, axis, width(axis), value);
        self.octets_of(room.octets());
    }

    /// Writes a text, and a name in quotation marks after it.
    #[cold]
    #[inline(never)]
    pub fn text_quoted(&mut self, text: &str, name: &str) {
        self.text(text);
        self.quoted(name);
    }

    /// Writes a text, and a number in decimal after it.
    #[cold]
    #[inline(never)]
    pub fn text_number(&mut self, text: &str, number: u64) {
        self.text(text);
        self.number(number);
    }

    /// Writes a text, and ends the line.
    #[cold]
    #[inline(never)]
    pub fn sentence(&mut self, text: &str) {
        self.text(text);
        self.end_line();
    }
}
