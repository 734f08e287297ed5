//! References by name.
ghost use Rattle.std.specs.Prelude.{◌≡◌, ℕ, List, [], ◌∷◌, map};
ghost use Rattle.std.specs.List.{position};
ghost use Rattle.std.specs.Str.{bytes_eq};
ghost use Rattle.fx_walk.specs.Pointer.{pointer};
ghost use Rattle.fx_walk.specs.Walk.{FoundFault, Reads};
ghost use Rattle.fx_walk.specs.Lists.{is_among, items_faults, place_in};
ghost use Rattle.fx_walk.specs.KnownNames.{member_references, unknown};

use crate::entries::Named;
use crate::names::Names;
use crate::path::{DocumentPath, refusal};
use crate::sequence::Sequence;
use fx_base::{Fault, Name, refusals};
use std::alloc::Global;

/// A thing that refers to other things by their names.
pub trait Refers {
    /// The faults of such a thing at a pointer, given the names of all things that it may refer to.
    ghost faults: { List (List ℕ) → List ℕ → Self → List FoundFault };

    /// Refuses the first name in the thing at the path that is not a known one (107).
    fn refers(&self, alloc: Global, path: &DocumentPath<'_>, known: &Names) -> Result<(), Fault>
        ensures { Reads (faults known.now (pointer path.now) self.now) tt result };
}

impl Refers for Name {
    ghost faults = { unknown };

    fn refers(&self, alloc: Global, path: &DocumentPath<'_>, known: &Names) -> Result<(), Fault> {
        if known.contains(self) {
            Ok(())
        } else {
            Err(refusal(alloc, refusals::UNKNOWN_NAME, path))
        }
    }
}

/// Refuses the first name in an item of the list at the path that is not a known one (107).
fn each_refers<T: Refers>(
    alloc: Global,
    path: &DocumentPath<'_>,
    items: &[T],
    known: &Names,
) -> Result<(), Fault>
    ensures { Reads (items_faults (T.faults known.now) (pointer path.now) 0 items.now) tt result }
{
    let mut index = 0;
    for item in items {
        item.refers(alloc, &DocumentPath::Item(&*path, index), known)?;
        index += 1;
    }
    Ok(())
}

/// Refuses the first name in an item of the list `name`, a member of the object at the path, that is not a known one
/// (107).
pub fn items_refer<T: Refers>(
    alloc: Global,
    path: &DocumentPath<'_>,
    name: &str,
    items: &Sequence<T>,
    known: &Names,
) -> Result<(), Fault>
    ensures { let faults = member_references (T.faults known.now) in
        Reads (faults (pointer path.now) name.now items.now) tt result }
{
    each_refers(
        alloc,
        &DocumentPath::Member(path, name),
        items.as_slice(),
        known,
    )
}

/// Returns whether an entry has the name.
pub fn is_named<T: Named>(entries: &[T], name: &Name) -> bool
    ensures { result ≡ is_among (map T.name entries.now) name.now }
{
    match entries {
        [] => false,
        [entry, rest @ ..] => entry.name() == name || is_named(rest, name),
    }
}

fn position_of<T: Named>(named: &[T], name: &Name) -> Option<usize>
    ensures { result ≡ position (λ one. bytes_eq (T.name one) name.now) named.now }
{
    named.iter().position(|one| one.name() == name)
}

/// Returns the 0-based index of the first of these that has the name.
pub fn place_of<T: Named>(named: &[T], name: &Name) -> Option<usize>
    ensures { result ≡ place_in (map T.name named.now) name.now }
{
    position_of(named, name)
}
