//! Texts as strings of JSON.
ghost use Rattle.std.specs.Prelude.{◌≡◌, IfOk};
ghost use Rattle.std.specs.Str.Lossy.{utf8_lossy};
ghost use Rattle.serde_json.specs.Data.{string};
ghost use Rattle.serde_json.specs.View.{view};

use crate::members::Items;
use serde_json::Value;
use std::alloc::{AllocError, Global};

/// Returns octets as a string. What is not UTF-8 in them is replaced by U+FFFD.
pub(crate) fn string_of(alloc: Global, octets: &[u8]) -> Result<Value, AllocError>
    ensures { IfOk result (λ v. view v ≡ string (utf8_lossy octets.now)) }
{
    Ok(Value::String(String::from_utf8_lossy(alloc, octets)?))
}

/// Returns the lines of a text as an array of strings, without their line feeds. Octets after the last line feed are no
/// line.
pub(crate) fn lines_of(alloc: Global, text: &[u8]) -> Result<Value, AllocError> {
    let mut lines = Items::new(alloc);
    let mut begin = 0;
    for end in 0..text.len() {
        if text[end] == b'\n' {
            let line = text.get(begin..end).unwrap_or(&[]);
            lines.add(string_of(alloc, line));
            begin = end.saturating_add(1);
        }
    }
    lines.into_value()
}
