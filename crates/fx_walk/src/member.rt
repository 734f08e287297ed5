//! The members of an object.
ghost use Rattle.std.specs.Prelude.{◌≡◌, ℕ, List, [], ◌∷◌, ◌++◌, option_map};
ghost use Rattle.serde_json.specs.Data.{Data};
ghost use Rattle.serde_json.specs.View.{view};
ghost use Rattle.serde_json.specs.Find.{get};
ghost use Rattle.fx_walk.specs.Pointer.{pointer};
ghost use Rattle.fx_walk.specs.Walk.{FoundFault, Reads, required_row, optional, member_of};

use crate::path::{DocumentPath, refusal};
use fx_base::{Fault, refusals};
use serde_json::Value;
use std::alloc::Global;

/// A reader of a value of a document.
///
/// A public type has a separate reader. An impl of the type itself would go with the type to each library that holds
/// such values, and so would JSON's values and all that they are made of.
pub trait FromValue {
    /// The type that a value is read as.
    type Read: Drop;

    /// The faults of a value at a pointer, in the order of the walk.
    ghost faults: { List ℕ → Data → List FoundFault };

    /// The meaning of a value without faults.
    ghost meaning: { Data → Self.Read };

    /// Reads the value at the path. Fails with its first fault.
    fn from_value(
        alloc: Global,
        path: &DocumentPath<'_>,
        value: &Value,
    ) -> Result<Self::Read, Fault>
        ensures { Reads (faults (pointer path.now) (view value.now)) (meaning (view value.now))
            result };
}

/// Reads a required member of an object. Fails with 103 at the object if it is missing.
pub fn required_member<T: FromValue>(
    alloc: Global,
    path: &DocumentPath<'_>,
    object: &Value,
    name: &str,
) -> Result<T::Read, Fault>
    ensures { Reads ((required_row name.now T.faults).faults (pointer path.now) (view object.now))
        (T.meaning (member_of name.now (view object.now))) result }
{
    match object.get(name) {
        Some(value) => T::from_value(alloc, &DocumentPath::Member(path, name), value),
        None => Err(refusal(alloc, refusals::MISSING_MEMBER, path)),
    }
}

/// Reads an optional member of an object.
pub fn optional_member<T: FromValue>(
    alloc: Global,
    path: &DocumentPath<'_>,
    object: &Value,
    name: &str,
) -> Result<Option<T::Read>, Fault>
    ensures { Reads ((optional name.now T.faults).faults (pointer path.now) (view object.now))
        (option_map T.meaning (get name.now (view object.now))) result }
{
    match object.get(name) {
        Some(value) => Ok(Some(T::from_value(alloc, &DocumentPath::Member(path, name), value)?)),
        None => Ok(None),
    }
}
