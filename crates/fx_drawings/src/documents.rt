//! Reading the documents that are drawn.
use fx_base::{Fault, entry_numbered, refusals};
use fx_plan::Plan;
use fx_traffic::{Traffic, read_traffic};
use serde_json::Value;
use std::alloc::Global;

/// The content of the two documents.
#[derive(Drop)]
pub(crate) struct DrawnDocuments {
    /// The network.
    pub(crate) plan: Plan,
    /// The traffic.
    pub(crate) traffic: Traffic,
    /// The JSON value of the traffic declaration, for the names of its classes.
    pub(crate) classes: Value,
}

/// Parses octets as a JSON text.
///
/// Fails with 101, at no place, if they are no JSON text, and with 900 if out of memory.
pub(crate) fn read_json(alloc: Global, octets: &[u8]) -> Result<Value, Fault> {
    match Value::from_slice(alloc, octets) {
        Ok(value) => Ok(value),
        Err(error) => {
            if error.is_memory() {
                return Err(Fault::bare(refusals::WANT_OF_MEMORY));
            }
            Err(Fault::bare(refusals::NOT_JSON))
        }
    }
}

/// Returns the content of both documents, given the network.
///
/// Fails with 101, and as [`read_traffic`] does.
pub(crate) fn with_traffic(
    alloc: Global,
    plan: Plan,
    traffic: &[u8],
) -> Result<DrawnDocuments, Fault> {
    let classes = read_json(alloc, traffic)?;
    let traffic = read_traffic(alloc, &classes, &plan)?;
    Ok(DrawnDocuments {
        plan,
        traffic,
        classes,
    })
}

/// Returns the name of the class with this 1-based number.
fn name_of_class(traffic: &Value, number: u64) -> Option<&str> {
    let classes = traffic.get("classes")?.as_array()?;
    entry_numbered(classes.as_slice(), number)?
        .get("name")?
        .as_str()
}

/// Returns the 1-based number of the class with this name.
///
/// Fails with 107 at `/classes` if there is none, and with 900 if out of memory.
pub(crate) fn class_number(
    alloc: Global,
    documents: &DrawnDocuments,
    name: &str,
) -> Result<u64, Fault> {
    for index in 0..documents.traffic.classes().as_slice().len() {
        let number = index as u64 + 1;
        if class_name(documents, number) == name {
            return Ok(number);
        }
    }
    let index = String::from_str(alloc, "/classes")?;
    Err(Fault::at_text(refusals::UNKNOWN_NAME, index))
}

/// Returns the name of the class with this 1-based number, or an empty text.
pub(crate) fn class_name(documents: &DrawnDocuments, number: u64) -> &str {
    name_of_class(&documents.classes, number).unwrap_or("")
}
