//! Selectors of selection processes.
ghost use Rattle.std.specs.Prelude.{◌≡◌};
ghost use Rattle.serde_json.specs.View.{view};
ghost use Rattle.fx_walk.specs.Pointer.{pointer};
ghost use Rattle.fx_walk.specs.Walk.{Reads, row_faults};
ghost use Rattle.fx_config.specs.Selectors.{all_faults, is_all, method_given, method_in, method_rows, selector_faults, selector_of};

use crate::entry_name::entry_name;
use crate::property_match::{PropertyMatch, PropertyMatchReader};
use fx_base::{Fault, Name, refusals};
use fx_walk::{
    DocumentPath, Entry, FromValue, Named, Names, Refused, is_empty_type, none_of, one_of,
    optional_member, refusal,
};
use serde_json::Value;
use std::alloc::Global;

/// The method that selects all packets: an empty container or an empty type. Fails with 104 for any other value.
#[derive(Clone, Copy)]
struct SelectAll;

fn is_all(value: &Value) -> bool
    ensures { result ≡ is_all (view value.now) }
{
    match value {
        Value::Object(members) => members.is_empty(),
        _ => is_empty_type(value),
    }
}

impl FromValue for SelectAll {
    type Read = SelectAll;

    ghost faults = { all_faults };

    ghost meaning = { λ _. record {} };

    fn from_value(
        alloc: Global,
        path: &DocumentPath<'_>,
        value: &Value,
    ) -> Result<SelectAll, Fault> {
        if is_all(value) {
            Ok(SelectAll)
        } else {
            Err(refusal(alloc, refusals::WRONG_KIND, path))
        }
    }
}

/// The method by which a selector selects packets.
#[derive(Clone, Copy, Debug, PartialEq, Eq)]
pub enum Method {
    /// Selects all packets.
    SelectAll,
    /// Selects the packets that match.
    FilterMatch(PropertyMatch),
}

/// Returns the given filter as the method, or the method that selects all packets if there is none.
fn method_given(filter: Option<PropertyMatch>) -> Method
    ensures { result ≡ method_given filter }
{
    match filter {
        Some(filter) => Method::FilterMatch(filter),
        None => Method::SelectAll,
    }
}

/// Methods that prevent an exact count: sampling, and filtering by a hash.
const INEXACT: [Refused<'static>; 5] = [
    Refused {
        name: "sampCountBased",
        number: refusals::SAMPLING_SELECTOR,
    },
    Refused {
        name: "sampTimeBased",
        number: refusals::SAMPLING_SELECTOR,
    },
    Refused {
        name: "sampRandOutOfN",
        number: refusals::SAMPLING_SELECTOR,
    },
    Refused {
        name: "sampUniProb",
        number: refusals::SAMPLING_SELECTOR,
    },
    Refused {
        name: "filterHash",
        number: refusals::HASH_FILTER,
    },
];

/// Reads the method of the selector at the path. Exactly one must be given.
fn read_method(alloc: Global, path: &DocumentPath<'_>, value: &Value) -> Result<Method, Fault>
    ensures { Reads (row_faults method_rows (pointer path.now) (view value.now))
        (method_in (view value.now)) result }
{
    none_of(alloc, path, value, &INEXACT)?;
    one_of(alloc, path, value, &["selectAll", "filterMatch"])?;
    let _all = optional_member::<SelectAll>(alloc, path, value, "selectAll")?;
    let filter = optional_member::<PropertyMatchReader>(alloc, path, value, "filterMatch")?;
    Ok(method_given(filter))
}

/// A step in the selection of packets (RFC 6728, section 4.2.1).
#[derive(Debug, Drop)]
pub struct Selector {
    /// Its name, unique among the selectors of the process.
    pub name: Name,
    /// Which packets pass it.
    pub method: Method,
}

impl Named for Selector {
    ghost name = { λ selector. selector.name };

    fn name(&self) -> &Name {
        &self.name
    }
}

/// A reader of selectors.
pub(crate) struct SelectorReader;

impl Entry for SelectorReader {
    type Read = Selector;

    ghost faults = { selector_faults };

    ghost meaning = { selector_of };

    ghost name = { λ selector. selector.name };

    fn from_entry(
        alloc: Global,
        path: &DocumentPath<'_>,
        value: &Value,
        earlier: &mut Names,
    ) -> Result<Selector, Fault> {
        let name = entry_name(
            alloc,
            path,
            value,
            &[
                "name",
                "sampCountBased",
                "sampTimeBased",
                "sampRandOutOfN",
                "sampUniProb",
                "filterHash",
                "selectAll",
                "filterMatch",
            ],
            earlier,
        )?;
        let method = read_method(alloc, path, value)?;
        Ok(Selector { name, method })
    }
}
