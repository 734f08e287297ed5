//! Members of which exactly one must be there, and members that are refused with a number of their own.
ghost use Rattle.std.specs.Prelude.{◌≡◌, ℕ, [], ◌∷◌, is_some, map, option_map, count_by};
ghost use Rattle.std.specs.List.{find};
ghost use Rattle.serde_json.specs.View.{view};
ghost use Rattle.serde_json.specs.Find.{get};
ghost use Rattle.fx_walk.specs.Pointer.{pointer};
ghost use Rattle.fx_walk.specs.Walk.{Reads};
ghost use Rattle.fx_walk.specs.Choice.{one_of, none_of, numbered_row};

use crate::path::{DocumentPath, refusal};
use fx_base::{Fault, refusals};
use serde_json::Value;
use std::alloc::Global;

fn how_many(value: &Value, names: &[&str]) -> usize
    ensures { result ≡ count_by (λ n. is_some (get n.now (view value.now))) names.now }
{
    names
        .iter()
        .filter(|name| value.get(**name).is_some())
        .count()
}

fn how_many_named(value: &Value, names: &[&str]) -> usize
    ensures { result ≡ count_by (λ n. is_some (get n (view value.now)))
        (map (λ n. n.now) names.now) }
{
    how_many(value, names)
}

/// Refuses an object with none of these members (103), or with several (105).
pub fn one_of(
    alloc: Global,
    path: &DocumentPath<'_>,
    object: &Value,
    names: &[&str],
) -> Result<(), Fault>
    ensures { Reads ((one_of (map (λ n. n.now) names.now)).faults (pointer path.now)
        (view object.now)) tt result }
{
    match how_many_named(object, names) {
        0 => Err(refusal(alloc, refusals::MISSING_MEMBER, path)),
        1 => Ok(()),
        _ => Err(refusal(alloc, refusals::BAD_VALUE, path)),
    }
}

/// A member that is refused with a number of its own.
#[derive(Clone, Copy)]
pub struct Refused<'a> {
    /// The name of the member.
    pub name: &'a str,
    /// The number of the fault.
    pub number: u16,
}

fn first_refused<'a>(object: &Value, rows: &[Refused<'a>]) -> Option<Refused<'a>>
    ensures { result ≡ find (λ r. is_some (get r.name.now (view object.now))) rows.now }
{
    rows.iter()
        .copied()
        .find(|row| object.get(row.name).is_some())
}

/// Refuses an object with one of these members, at the first present member in the order of the rows.
pub fn none_of(
    alloc: Global,
    path: &DocumentPath<'_>,
    object: &Value,
    rows: &[Refused<'_>],
) -> Result<(), Fault>
    ensures { Reads ((none_of (map numbered_row rows.now)).faults (pointer path.now)
        (view object.now)) tt result }
{
    match first_refused(object, rows) {
        Some(row) => Err(refusal(alloc, row.number, &DocumentPath::Member(path, row.name))),
        None => Ok(()),
    }
}
