//! Numbers and places of refusals.
ghost use Rattle.std.specs.Prelude.{◌≡◌, IfOk, option_map};
ghost use Rattle.serde_json.specs.View.{view};
ghost use Rattle.fx_json_answers.specs.Answers.{is_pointer, number_data, place_data, text_place};

use fx_base::Place;
use serde_json::{Value, json};
use std::alloc::{AllocError, Global};

/// Returns the number of a refusal, or null if nothing is refused.
pub(crate) fn number_value(number: Option<u16>) -> Value
    ensures { view result ≡ number_data number }
{
    match number {
        Some(number) => Value::from(u64::from(number)),
        None => Value::Null,
    }
}

/// Returns whether the text of a place is a JSON Pointer: it is empty or begins with a slash (RFC 6901, section 3).
fn is_pointer(text: &[u8]) -> bool
    ensures { result ≡ is_pointer text.now }
{
    match text {
        [] => true,
        [first, ..] => *first == b'/',
    }
}

/// Returns a place that is a text, by its kind.
fn text_value(alloc: Global, text: &str) -> Result<Value, AllocError>
    ensures { IfOk result (λ v. view v ≡ text_place text.now) }
{
    if is_pointer(text.as_bytes()) {
        json!(in alloc; {"kind": "pointer", "pointer": text})
    } else {
        json!(in alloc; {"kind": "text", "text": text})
    }
}

/// Returns the place of a refusal as an object with its kind, or null for no place.
pub(crate) fn place_value(alloc: Global, place: &Place) -> Result<Value, AllocError>
    ensures { IfOk result (λ v. view v ≡ place_data place.now) }
{
    match place {
        Place::None => Ok(Value::Null),
        Place::Line(line) => json!(in alloc; {"kind": "line", "line": *line}),
        Place::Octet(octet) => json!(in alloc; {"kind": "octet", "octet": *octet}),
        Place::Text(text) => text_value(alloc, text.as_str()),
    }
}
