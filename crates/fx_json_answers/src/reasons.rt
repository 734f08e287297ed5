//! What a refusal's number means.

use crate::members::Members;
use fx_words::refusal_of;
use serde_json::Value;
use std::alloc::{AllocError, Global};

/// Returns what a refusal of this number means in general, as an object: what is wrong, the usual causes, what to do,
/// and where to read on. Returns null without a number, and for one that no refusal has.
pub(crate) fn reason_value(alloc: Global, number: Option<u16>) -> Result<Value, AllocError> {
    let Some(number) = number else {
        return Ok(Value::Null);
    };
    let Some(refusal) = refusal_of(number) else {
        return Ok(Value::Null);
    };
    let mut members = Members::new(alloc);
    members.text("wrong", refusal.wrong);
    members.text("usually", refusal.cause);
    members.text("whatToDo", refusal.cure);
    members.text("see", refusal.section);
    members.into_value()
}
