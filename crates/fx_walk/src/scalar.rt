//! Values without parts: names, whole numbers, empty types.
ghost use Rattle.std.specs.Prelude.{◌≡◌, ℕ, ◌≤◌, ◌==◌, ◌∷◌, []};
ghost use Rattle.fx_walk.specs.Scalars.{is_empty_type, is_one_null, name_faults, whole_faults, empty_faults, text_faults, text_of, text_that, number_of};
ghost use Rattle.fx_walk.specs.Pointer.{pointer};
ghost use Rattle.serde_json.specs.View.{view, items_view};
ghost use Rattle.fx_walk.specs.Walk.{Reads, Refuses};
ghost use Rattle.fx_base.specs.Name.{is_name};
ghost use Rattle.fx_base.specs.Fault.{fault_at};
ghost use Rattle.fx_base.specs.declared.fault.Place.TheVariants as places;

use crate::member::FromValue;
use crate::path::{DocumentPath, refusal};
use fx_base::{Fault, Name, refusals};
use serde_json::Value;
use std::alloc::Global;
use std::marker::Model;

/// Reads a name. Fails with 104 if the value is no text, and with the given number if the text is no name.
pub fn read_name(
    alloc: Global,
    path: &DocumentPath<'_>,
    value: &Value,
    wrong: u16,
) -> Result<Name, Fault>
    ensures { Reads (text_that wrong is_name (pointer path.now) (view value.now))
        (text_of (view value.now)) result }
{
    let Some(text) = value.as_str() else {
        return Err(refusal(alloc, refusals::WRONG_KIND, path));
    };
    match Name::read(alloc, text) {
        Ok(name) => Ok(name),
        Err(fault) if fault.number == refusals::BAD_VALUE => Err(refusal(alloc, wrong, path)),
        Err(fault) => Err(fault),
    }
}

/// A reader of names.
pub struct NameReader;

/// Reads a name (`name-type` of the module). Fails with 104 if the value is no text, and with 105 if the text is no
/// name.
impl FromValue for NameReader {
    type Read = Name;

    ghost faults = { name_faults };

    ghost meaning = { text_of };

    fn from_value(alloc: Global, path: &DocumentPath<'_>, value: &Value) -> Result<Name, Fault> {
        read_name(alloc, path, value, refusals::BAD_VALUE)
    }
}

/// A text of any form; 104 if the value is of another kind.
#[derive(Debug, Drop)]
pub struct Text {
    text: String,
}

impl Model for Text {
    ghost use Rattle.std.specs.Prelude.{List, ℕ, string_bytes};

    ghost Value = { List ℕ };

    ghost view = { λ s. string_bytes s.text };
}

impl Text {
    /// Returns the text.
    pub fn as_str(&self) -> &str
        ensures { result.now ≡ self.now }
    {
        self.text.as_str()
    }
}

impl FromValue for Text {
    type Read = Text;

    ghost faults = { text_faults };

    ghost meaning = { text_of };

    fn from_value(alloc: Global, path: &DocumentPath<'_>, value: &Value) -> Result<Text, Fault> {
        let Some(text) = value.as_str() else {
            return Err(refusal(alloc, refusals::WRONG_KIND, path));
        };
        Ok(Text {
            text: String::from_str(alloc, text)?,
        })
    }
}

/// A whole number from `LOW` to `HIGH`; 104 if the value is no number, 105 if it has a fraction or an exponent, or is
/// out of range.
#[derive(Drop)]
pub struct Whole<const LOW: u32, const HIGH: u32> {
    number: u32,
}

impl<const LOW: u32, const HIGH: u32> Model for Whole<LOW, HIGH> {
    ghost use Rattle.std.specs.Prelude.{ℕ, ◌≤◌};

    ghost Value = { ℕ };

    ghost view = { λ s. s.number };

    ghost invariant = { λ s. (LOW ≤ s.number) × (s.number ≤ HIGH) };
}

impl<const LOW: u32, const HIGH: u32> Whole<LOW, HIGH> {
    /// Returns the number.
    pub fn number(&self) -> u32
        ensures value { result ≡ self.now }
        ensures low { LOW ≤ result }
        ensures high { result ≤ HIGH }
    {
        self.number
    }
}

impl<const LOW: u32, const HIGH: u32> FromValue for Whole<LOW, HIGH> {
    type Read = Whole<LOW, HIGH>;

    ghost faults = { whole_faults LOW HIGH };

    ghost meaning = { number_of };

    fn from_value(alloc: Global, path: &DocumentPath<'_>, value: &Value) -> Result<Self, Fault> {
        let Some(number) = value.as_number() else {
            return Err(refusal(alloc, refusals::WRONG_KIND, path));
        };
        let Some(number) = number.as_u64() else {
            return Err(refusal(alloc, refusals::BAD_VALUE, path));
        };
        if number < LOW as u64 || number > HIGH as u64 {
            return Err(refusal(alloc, refusals::BAD_VALUE, path));
        }
        Ok(Whole {
            number: number as u32,
        })
    }
}

/// A member of an empty type, which is present or not: `[null]` (RFC 7951, section 6.9) or `true`; 104 if it has any
/// other value.
#[derive(Clone, Copy, Debug, PartialEq, Eq)]
pub struct Empty;

fn is_one_null(items: &[Value]) -> bool
    ensures { result ≡ is_one_null (items_view items.now) }
{
    match items {
        [item] => item.is_null(),
        [] | [_, _, ..] => false,
    }
}

/// Returns whether the value is one of an empty type: `[null]` or `true`.
pub fn is_empty_type(value: &Value) -> bool
    ensures { result ≡ is_empty_type (view value.now) }
{
    match value {
        Value::Bool(there) => *there,
        Value::Array(items) => is_one_null(items.as_slice()),
        Value::Null | Value::Number(_) | Value::String(_) | Value::Object(_) => false,
    }
}

impl FromValue for Empty {
    type Read = Empty;

    ghost faults = { empty_faults };

    ghost meaning = { λ _. record {} };

    fn from_value(alloc: Global, path: &DocumentPath<'_>, value: &Value) -> Result<Empty, Fault> {
        if is_empty_type(value) {
            Ok(Empty)
        } else {
            Err(refusal(alloc, refusals::WRONG_KIND, path))
        }
    }
}
