//! The accepted documents that an explanation is about.
ghost use Rattle.std.specs.Prelude.{◌≡◌};

use crate::explanation::Explanation;
use fx_base::{Fault, refusals};
use fx_plan::Plan;
use fx_traffic::Traffic;
use serde_json::Value;

/// The documents of a command that were accepted.
#[derive(Clone, Copy, Drop)]
pub struct Documents<'a> {
    /// The network.
    pub plan: &'a Plan,
    /// The traffic.
    pub traffic: &'a Traffic,
}

impl<'a> Documents<'a> {
    /// Returns the documents that mean this network and this traffic.
    pub fn new(plan: &'a Plan, traffic: &'a Traffic) -> Documents<'a>
        ensures plan { result.plan.now ≡ plan.now }
        ensures traffic { result.traffic.now ≡ traffic.now }
    {
        Documents { plan, traffic }
    }
}

/// Parses octets as JSON. Returns `None` if they are no JSON text, or if out of memory, which the explanation notes.
pub fn value_of_document(out: &mut Explanation, octets: &[u8]) -> Option<Value> {
    match Value::from_slice(out.alloc, octets) {
        Ok(value) => Some(value),
        Err(error) => {
            if error.is_memory() {
                out.fall_short();
            }
            None
        }
    }
}

/// Returns the value, or `None` if it was refused. Notes a refusal for lack of memory.
pub fn unless_refused<T: Drop>(out: &mut Explanation, outcome: Result<T, Fault>) -> Option<T> {
    match outcome {
        Ok(value) => Some(value),
        Err(fault) => {
            if fault.number == refusals::WANT_OF_MEMORY {
                out.fall_short();
            }
            None
        }
    }
}

/// Returns the name of a class by its 1-based number, or an empty text if there is no such class.
pub fn class_name<'a>(documents: &Documents<'a>, number: u64) -> &'a str {
    documents.traffic.class_name(number).unwrap_or("")
}
