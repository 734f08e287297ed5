//! Names of list entries.
ghost use Rattle.std.specs.Prelude.{◌≡◌, ◌++◌, ◌∷◌, [], OnOk, codes, map};
ghost use Rattle.serde_json.specs.View.{view};
ghost use Rattle.fx_walk.specs.Pointer.{pointer};
ghost use Rattle.fx_walk.specs.Scalars.{text_of};
ghost use Rattle.fx_walk.specs.Walk.{member_of};
ghost use Rattle.fx_config.specs.EntryNames.{IsEntryName};

use fx_base::{Fault, Name};
use fx_walk::{DocumentPath, Names, name_member, object_of};
use serde_json::Value;
use std::alloc::Global;

/// Reads the name of the entry at the path, an object that may have only the listed members, and adds it to `earlier`,
/// the names of the entries before it.
pub fn entry_name(
    alloc: Global,
    path: &DocumentPath<'_>,
    value: &Value,
    listed: &[&str],
    earlier: &mut Names,
) -> Result<Name, Fault>
    ensures reads { IsEntryName (map (λ t. t.now) listed.now) earlier.old (pointer path.now)
        (view value.now) result }
    ensures names { OnOk result (earlier.new
        ≡ earlier.old ++ text_of (member_of (codes "name") (view value.now)) ∷ []) }
{
    object_of(alloc, path, value, listed)?;
    name_member(alloc, path, value, earlier)
}
