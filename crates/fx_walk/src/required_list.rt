//! Lists that may be empty but are required.
ghost use Rattle.std.specs.Prelude.{◌≡◌, ℕ, List, [], ◌∷◌, map};
ghost use Rattle.serde_json.specs.View.{view};
ghost use Rattle.fx_walk.specs.Pointer.{pointer};
ghost use Rattle.fx_walk.specs.Walk.{Reads, member_of};
ghost use Rattle.fx_walk.specs.Lists.{items_of};
ghost use Rattle.fx_walk.specs.RequiredLists.{required_items, required_entries};

use crate::entries::{Entry, entries_member};
use crate::list::items_member;
use crate::member::FromValue;
use crate::path::{DocumentPath, refusal};
use crate::sequence::Sequence;
use fx_base::{Fault, refusals};
use serde_json::Value;
use std::alloc::Global;

/// Reads a required member that is a list of at most `most` items. Fails with 103 at the object if it is missing.
pub fn required_items<T: FromValue>(
    alloc: Global,
    path: &DocumentPath<'_>,
    object: &Value,
    name: &str,
    most: usize,
) -> Result<Sequence<T::Read>, Fault>
    ensures { Reads ((required_items most name.now T.faults).faults (pointer path.now)
        (view object.now)) (map T.meaning (items_of (member_of name.now (view object.now))))
        result }
{
    match object.get(name) {
        Some(_) => items_member::<T>(alloc, path, object, name, 0, most),
        None => Err(refusal(alloc, refusals::MISSING_MEMBER, path)),
    }
}

/// Reads a required member that is a list of at most `most` entries with distinct names. Fails with 103 at the object
/// if it is missing.
pub fn required_entries<T: Entry>(
    alloc: Global,
    path: &DocumentPath<'_>,
    object: &Value,
    name: &str,
    most: usize,
) -> Result<Sequence<T::Read>, Fault>
    ensures { Reads ((required_entries most name.now T.faults (λ d. T.name (T.meaning d))).faults
        (pointer path.now) (view object.now))
        (map T.meaning (items_of (member_of name.now (view object.now)))) result }
{
    match object.get(name) {
        Some(_) => entries_member::<T>(alloc, path, object, name, 0, most),
        None => Err(refusal(alloc, refusals::MISSING_MEMBER, path)),
    }
}
