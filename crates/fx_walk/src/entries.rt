//! Lists whose entries have distinct names.
ghost use Rattle.std.specs.Prelude.{◌≡◌, ℕ, List, [], ◌∷◌, ◌++◌, map, codes, IfOk, OnErr, OnOk};
ghost use Rattle.serde_json.specs.Data.{Data};
ghost use Rattle.serde_json.specs.View.{view};
ghost use Rattle.fx_walk.specs.Pointer.{pointer};
ghost use Rattle.fx_walk.specs.Walk.{FoundFault, Reads, member_of, required_row};
ghost use Rattle.fx_walk.specs.Lists.{entries, entries_faults, items_of, name_once, name_once_by};
ghost use Rattle.fx_walk.specs.NamedEntries.{named_entries};
ghost use Rattle.fx_walk.specs.Scalars.{text_of};

use crate::list::member_items;
use crate::names::Names;
use crate::path::{DocumentPath, refusal};
use crate::scalar::{NameReader, read_name};
use crate::sequence::Sequence;
use fx_base::{Fault, Name, refusals};
use serde_json::Value;
use std::alloc::{AllocError, Global};
use std::marker::Model;

/// A thing with a name.
pub trait Named: Drop {
    /// The bytes of its name.
    ghost name: { Self → List ℕ };

    /// Returns its name.
    fn name(&self) -> &Name
        ensures { result.now ≡ name self.now };
}

/// A reader of an entry of a list, whose name differs from those of the entries before it. A public type has a separate
/// reader, as with [`crate::FromValue`].
pub trait Entry {
    /// The type that an entry is read as.
    type Read: Drop;

    /// The faults of a value at a pointer, after entries with these names.
    ghost faults: { List (List ℕ) → List ℕ → Data → List FoundFault };

    /// The meaning of a value without faults.
    ghost meaning: { Data → Self.Read };

    /// The bytes of the name of what is read.
    ghost name: { Self.Read → List ℕ };

    /// Reads the value at the path after entries with these names, and appends its own name to them. Fails with its
    /// first fault.
    fn from_entry(
        alloc: Global,
        path: &DocumentPath<'_>,
        value: &Value,
        earlier: &mut Names,
    ) -> Result<Self::Read, Fault>
        ensures reads { Reads (faults earlier.old (pointer path.now) (view value.now))
            (meaning (view value.now)) result }
        ensures names { OnOk result (earlier.new
            ≡ earlier.old ++ Self.name (meaning (view value.now)) ∷ []) };
}

/// Reads a name that differs from those of earlier entries. Fails with 104 if the value is no text, with `wrong` if the
/// text is no name, and with `twice` if the name is one of those.
pub fn unique_name_by(
    alloc: Global,
    path: &DocumentPath<'_>,
    value: &Value,
    earlier: &mut Names,
    wrong: u16,
    twice: u16,
) -> Result<Name, Fault>
    ensures reads { Reads (name_once_by wrong twice earlier.old (pointer path.now) (view value.now))
        (text_of (view value.now)) result }
    ensures names { OnOk result (earlier.new ≡ earlier.old ++ text_of (view value.now) ∷ []) }
    ensures same { OnErr result (earlier.new ≡ earlier.old) }
{
    let name = read_name(alloc, path, value, wrong)?;
    if !earlier.add(&name)? {
        return Err(refusal(alloc, twice, path));
    }
    Ok(name)
}

/// Reads a name that differs from those of earlier entries. Fails with 104 and 105 as for any name, and with 106 if the
/// name is one of those.
pub fn unique_name(
    alloc: Global,
    path: &DocumentPath<'_>,
    value: &Value,
    earlier: &mut Names,
) -> Result<Name, Fault>
    ensures reads { Reads (name_once earlier.old (pointer path.now) (view value.now))
        (text_of (view value.now)) result }
    ensures names { OnOk result (earlier.new ≡ earlier.old ++ text_of (view value.now) ∷ []) }
    ensures same { OnErr result (earlier.new ≡ earlier.old) }
{
    unique_name_by(
        alloc,
        path,
        value,
        earlier,
        refusals::BAD_VALUE,
        refusals::NAME_TWICE,
    )
}

/// Reads the member `name` of an object, which differs from those of earlier entries. Fails with 103 at the object if
/// it is missing, with 104 if it is no text, with `wrong` if the text is no name, and with `twice` if the name is one
/// of those.
pub fn name_member_by(
    alloc: Global,
    path: &DocumentPath<'_>,
    object: &Value,
    earlier: &mut Names,
    wrong: u16,
    twice: u16,
) -> Result<Name, Fault>
    ensures reads { Reads ((required_row (codes "name")
        (name_once_by wrong twice earlier.old)).faults
        (pointer path.now) (view object.now)) (text_of (member_of (codes "name") (view object.now)))
        result }
    ensures names { OnOk result (earlier.new
        ≡ earlier.old ++ text_of (member_of (codes "name") (view object.now)) ∷ []) }
    ensures same { OnErr result (earlier.new ≡ earlier.old) }
{
    match object.get("name") {
        Some(value) => {
            let path = DocumentPath::Member(path, "name");
            unique_name_by(alloc, &path, value, earlier, wrong, twice)
        }
        None => Err(refusal(alloc, refusals::MISSING_MEMBER, path)),
    }
}

/// Reads the member `name` of an entry, which differs from those of earlier entries.
pub fn name_member(
    alloc: Global,
    path: &DocumentPath<'_>,
    object: &Value,
    earlier: &mut Names,
) -> Result<Name, Fault>
    ensures reads { Reads ((required_row (codes "name") (name_once earlier.old)).faults
        (pointer path.now) (view object.now)) (text_of (member_of (codes "name") (view object.now)))
        result }
    ensures names { OnOk result (earlier.new
        ≡ earlier.old ++ text_of (member_of (codes "name") (view object.now)) ∷ []) }
    ensures same { OnErr result (earlier.new ≡ earlier.old) }
{
    name_member_by(
        alloc,
        path,
        object,
        earlier,
        refusals::BAD_VALUE,
        refusals::NAME_TWICE,
    )
}

impl Named for Name {
    ghost name = { λ n. n };

    fn name(&self) -> &Name {
        self
    }
}

/// Reads a name that differs from those before it in a list of names.
impl Entry for NameReader {
    type Read = Name;

    ghost faults = { name_once };

    ghost meaning = { text_of };

    ghost name = { λ n. n };

    fn from_entry(
        alloc: Global,
        path: &DocumentPath<'_>,
        value: &Value,
        earlier: &mut Names,
    ) -> Result<Name, Fault> {
        unique_name(alloc, path, value, earlier)
    }
}

/// The names of a list's entries, in a box, so that a function that holds them drops them by one call.
#[derive(Drop)]
pub struct EntryNames {
    names: Box<Names>,
}

impl Model for EntryNames {
    ghost use Rattle.std.specs.Prelude.{List, ℕ};

    ghost Value = { List (List ℕ) };

    ghost view = { λ n. n.names.value };
}

impl EntryNames {
    /// Returns these names.
    fn new(alloc: Global, names: Names) -> Result<EntryNames, AllocError>
        ensures { IfOk result (λ kept. kept ≡ names) }
    {
        Ok(EntryNames {
            names: Box::new(alloc, names)?,
        })
    }

    /// Returns the names.
    pub fn get(&self) -> &Names
        ensures { result.now ≡ self.now }
    {
        &self.names
    }
}

/// A list's entries in order, with their names, which are distinct.
#[derive(Drop)]
pub struct Entries<T> {
    /// The entries.
    pub items: Sequence<T>,
    /// The name of each.
    pub names: EntryNames,
}

/// Returns the meanings of the entries of the list at the path, in order.
fn entries_of<T: Entry>(
    alloc: Global,
    path: &DocumentPath<'_>,
    items: &[Value],
) -> Result<Entries<T::Read>, Fault>
    ensures { Reads (entries_faults T.faults (λ d. T.name (T.meaning d)) [] (pointer path.now) 0
        (map view items.now)) (named_entries T.name (map T.meaning (map view items.now))) result }
{
    let mut values = Vec::new(alloc);
    let mut names = Names::new(alloc);
    let mut index = 0;
    for item in items {
        values.push(T::from_entry(alloc, &DocumentPath::Item(&*path, index), item, &mut names)?)?;
        index += 1;
    }
    let names = EntryNames::new(alloc, names)?;
    Ok(Entries {
        items: Sequence::from_vec(values),
        names,
    })
}

/// Reads a member that is a list of `least` to `most` entries with distinct names. If the list may be empty, the member
/// may be missing; otherwise a missing member is refused with 103 at the object.
pub fn named_member<T: Entry>(
    alloc: Global,
    path: &DocumentPath<'_>,
    object: &Value,
    name: &str,
    least: usize,
    most: usize,
) -> Result<Entries<T::Read>, Fault>
    ensures { Reads ((entries least most name.now T.faults (λ d. T.name (T.meaning d))).faults
        (pointer path.now) (view object.now))
        (named_entries T.name (map T.meaning (items_of (member_of name.now (view object.now)))))
        result }
{
    let items = member_items(alloc, path, object, name, least, most)?;
    entries_of::<T>(alloc, &DocumentPath::Member(path, name), items)
}

/// Reads a member that is a list of entries like [`named_member`], without their names.
pub fn entries_member<T: Entry>(
    alloc: Global,
    path: &DocumentPath<'_>,
    object: &Value,
    name: &str,
    least: usize,
    most: usize,
) -> Result<Sequence<T::Read>, Fault>
    ensures { Reads ((entries least most name.now T.faults (λ d. T.name (T.meaning d))).faults
        (pointer path.now) (view object.now))
        (map T.meaning (items_of (member_of name.now (view object.now)))) result }
{
    Ok(named_member::<T>(alloc, path, object, name, least, most)?.items)
}
