//! Lists in documents.
ghost use Rattle.std.specs.Prelude.{◌≡◌, ℕ, List, [], ◌∷◌, ◌++◌, map};
ghost use Rattle.serde_json.specs.View.{view};
ghost use Rattle.fx_walk.specs.Pointer.{pointer};
ghost use Rattle.fx_walk.specs.Walk.{Reads, member_of};
ghost use Rattle.fx_walk.specs.Lists.{IsListBy, IsListOf, IsMemberList, items, items_faults, items_of};

use crate::member::FromValue;
use crate::path::{DocumentPath, refusal};
use crate::sequence::Sequence;
use fx_base::{Fault, refusals};
use serde_json::Value;
use std::alloc::Global;

/// Returns the items of a list. Fails with 104 if the value is of another kind, with `many` if there are more than
/// `most`, and with `few` if there are fewer than `least`.
pub fn items_by<'v>(
    alloc: Global,
    path: &DocumentPath<'_>,
    value: &'v Value,
    least: usize,
    most: usize,
    few: u16,
    many: u16,
) -> Result<&'v [Value], Fault>
    ensures { IsListBy few many least most (pointer path.now) (view value.now) result }
{
    let Value::Array(items) = value else {
        return Err(refusal(alloc, refusals::WRONG_KIND, path));
    };
    if items.len() > most {
        return Err(refusal(alloc, many, path));
    }
    if items.len() < least {
        return Err(refusal(alloc, few, path));
    }
    Ok(items.as_slice())
}

/// Returns the items of a list. Fails with 104 if the value is of another kind, with 115 if there are more than `most`,
/// and with 103 if there are fewer than `least`.
pub fn items_in<'v>(
    alloc: Global,
    path: &DocumentPath<'_>,
    value: &'v Value,
    least: usize,
    most: usize,
) -> Result<&'v [Value], Fault>
    ensures { IsListOf least most (pointer path.now) (view value.now) result }
{
    items_by(
        alloc,
        path,
        value,
        least,
        most,
        refusals::MISSING_MEMBER,
        refusals::TOO_MANY_ENTRIES,
    )
}

/// Returns the items of a member that is a list of `least` to `most` items. If the list may be empty, the member may be
/// missing and has no items; otherwise a missing member is refused with 103 at the object.
pub fn member_items<'v>(
    alloc: Global,
    path: &DocumentPath<'_>,
    object: &'v Value,
    name: &str,
    least: usize,
    most: usize,
) -> Result<&'v [Value], Fault>
    ensures { IsMemberList least most (pointer path.now) name.now (view object.now) result }
{
    match object.get(name) {
        Some(value) => items_in(alloc, &DocumentPath::Member(path, name), value, least, most),
        None if least > 0 => Err(refusal(alloc, refusals::MISSING_MEMBER, path)),
        None => Ok(&[]),
    }
}

/// Returns the meanings of the items of the list at the path, in order.
fn values_of<T: FromValue>(
    alloc: Global,
    path: &DocumentPath<'_>,
    items: &[Value],
) -> Result<Sequence<T::Read>, Fault>
    ensures { Reads (items_faults T.faults (pointer path.now) 0 (map view items.now))
        (map T.meaning (map view items.now)) result }
{
    let mut values = Vec::new(alloc);
    let mut index = 0;
    for item in items {
        values.push(T::from_value(alloc, &DocumentPath::Item(path, index), item)?)?;
        index += 1;
    }
    Ok(Sequence::from_vec(values))
}

/// Reads a member that is a list of `least` to `most` items. If the list may be empty, the member may be missing;
/// otherwise a missing member is refused with 103 at the object.
pub fn items_member<T: FromValue>(
    alloc: Global,
    path: &DocumentPath<'_>,
    object: &Value,
    name: &str,
    least: usize,
    most: usize,
) -> Result<Sequence<T::Read>, Fault>
    ensures { Reads ((items least most name.now T.faults).faults (pointer path.now)
        (view object.now)) (map T.meaning (items_of (member_of name.now (view object.now))))
        result }
{
    let items = member_items(alloc, path, object, name, least, most)?;
    values_of::<T>(alloc, &DocumentPath::Member(path, name), items)
}
