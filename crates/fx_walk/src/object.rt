//! Objects, and the members that they may have.
ghost use Rattle.std.specs.Prelude.{◌≡◌, ℕ, ◌==◌, ◌&&◌, ◌||◌, Bool, true, List, [], ◌∷◌, ◌++◌, string_bytes, map, not, option_map};
ghost use Rattle.serde_json.specs.View.{view, members_view};
ghost use Rattle.std.specs.List.{find, list_any};
ghost use Rattle.std.specs.Str.{bytes_eq};
ghost use Rattle.std.specs.Map.{keys_of};
ghost use Rattle.fx_walk.specs.Pointer.{pointer};
ghost use Rattle.fx_walk.specs.Walk.{IsObject, object_faults, open_object_faults, is_foreign, is_listed};

use crate::path::{DocumentPath, refusal};
use fx_base::{Fault, refusals};
use serde_json::{Map, Value};
use std::alloc::Global;

fn is_one_of(listed: &[&str], name: &str) -> bool
    ensures { result ≡ list_any (λ t. bytes_eq t.now name.now) listed.now }
{
    listed.iter().any(|text| *text == name)
}

fn is_listed(listed: &[&str], name: &str) -> bool
    ensures { result ≡ is_listed (map (λ t. t.now) listed.now) name.now }
{
    is_one_of(listed, name)
}

fn first_other<'v>(members: &'v Map<String, Value>, listed: &[&str]) -> Option<&'v String>
    ensures { option_map (λ k. k.now) result
        ≡ find (λ k. not (is_listed (map (λ t. t.now) listed.now) (string_bytes k)))
        (keys_of members.now.entries) }
{
    members
        .keys()
        .find(|name| !is_listed(listed, name.as_str()))
}

/// Refuses a value that is no object (104), and an object with a member that isn't listed (102 at the first such member
/// in byte order).
pub fn object_of(
    alloc: Global,
    path: &DocumentPath<'_>,
    value: &Value,
    listed: &[&str],
) -> Result<(), Fault>
    ensures { IsObject object_faults (map (λ t. t.now) listed.now) (pointer path.now)
        (view value.now) result }
{
    let Value::Object(members) = value else {
        return Err(refusal(alloc, refusals::WRONG_KIND, path));
    };
    match first_other(members, listed) {
        Some(name) => Err(refusal(
            alloc,
            refusals::UNKNOWN_MEMBER,
            &DocumentPath::Member(path, name.as_str()),
        )),
        None => Ok(()),
    }
}

fn is_foreign(home: &str, name: &str) -> bool
    ensures { result ≡ is_foreign home.now name.now }
{
    match name.split_once(':') {
        Some((prefix, _)) => !prefix.is_empty() && prefix != home,
        None => false,
    }
}

fn first_refused<'v>(
    members: &'v Map<String, Value>,
    home: &str,
    listed: &[&str],
) -> Option<&'v String>
    ensures { option_map (λ k. k.now) result
        ≡ find (λ k. not (is_listed (map (λ t. t.now) listed.now) (string_bytes k)
        || is_foreign home.now (string_bytes k))) (keys_of members.now.entries) }
{
    members.keys().find(|name| !(is_listed(listed, name.as_str())
        || is_foreign(home, name.as_str())))
}

/// Reads an object like [`object_of`], but leaves members with the prefix of a module other than this one unread (RFC
/// 7951, section 4).
pub fn document_of(
    alloc: Global,
    path: &DocumentPath<'_>,
    value: &Value,
    home: &str,
    listed: &[&str],
) -> Result<(), Fault>
    ensures { IsObject (open_object_faults home.now) (map (λ t. t.now) listed.now)
        (pointer path.now) (view value.now) result }
{
    let Value::Object(members) = value else {
        return Err(refusal(alloc, refusals::WRONG_KIND, path));
    };
    match first_refused(members, home, listed) {
        Some(name) => Err(refusal(
            alloc,
            refusals::UNKNOWN_MEMBER,
            &DocumentPath::Member(path, name.as_str()),
        )),
        None => Ok(()),
    }
}
