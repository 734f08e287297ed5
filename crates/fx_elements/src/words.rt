//! The words of a line.
ghost use Rattle.std.specs.Prelude.{◌≡◌, ◌≤◌, slice_index, IfSome, option_map};
ghost use Rattle.std.specs.Str.{bytes_eq};
ghost use Rattle.fx_elements.specs.Axes.{axis_index, tops};
ghost use Rattle.fx_elements.specs.Words.{words, none_left, first_word, number_first, value_first};

use crate::axis::Axis;
use crate::spelling::{read_u64, split_at_byte};
use crate::values::read_written;
use std::marker::Model;

/// The words of a line that are not yet read. One space separates two words.
#[derive(Drop)]
pub struct Words<'a> {
    rest: Option<&'a [u8]>,
}

impl<'a> Model for Words<'a> {
    ghost use Rattle.std.specs.Prelude.{List, ℕ};
    ghost use Rattle.fx_elements.specs.Words.{words_left};

    ghost Value = { List (List ℕ) };

    ghost view = { λ w. words_left w.rest };
}

impl<'a> Words<'a> {
    /// Returns the words of a line.
    pub fn new(line: &'a [u8]) -> Words<'a>
        ensures { result ≡ words line.now }
    {
        Words { rest: Some(line) }
    }

    /// Returns the first word and the words after it.
    #[inline(always)]
    pub fn word(self) -> Option<(&'a [u8], Words<'a>)>
        ensures { option_map (λ p. (p.0.now, p.1)) result ≡ first_word self.entry }
    {
        let text = self.rest?;
        match split_at_byte(text, b' ') {
            Some((word, rest)) => Some((word, Words { rest: Some(rest) })),
            None => Some((text, Words { rest: None })),
        }
    }

    /// Returns the number in the first word, below 2 to the 64, and the words after it.
    #[inline(always)]
    pub fn number(self) -> Option<(u64, Words<'a>)>
        ensures { result ≡ number_first self.entry }
    {
        let (word, rest) = self.word()?;
        let number = read_u64(word)?;
        Some((number, rest))
    }

    /// Returns the value on the axis with the first word as its written form, and the words after it.
    #[inline(always)]
    pub fn value(self, axis: Axis) -> Option<(u128, Words<'a>)>
        ensures value { result ≡ value_first axis self.entry }
        ensures bound { IfSome result (λ p. p.0 ≤ slice_index tops (axis_index axis)) }
    {
        let (word, rest) = self.word()?;
        let value = read_written(axis, word)?;
        Some((value, rest))
    }

    /// Returns whether no word is left.
    pub fn is_empty(self) -> bool
        ensures { result ≡ none_left self.entry }
    {
        self.rest.is_none()
    }
}

/// Returns whether two words are equal.
pub fn is_word(word: &[u8], other: &[u8]) -> bool
    ensures { result ≡ bytes_eq word.now other.now }
{
    word == other
}
