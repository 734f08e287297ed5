//! Reading of a JSON document by one walk.
//!
//! A document is walked depth first: at each value its kind, at a list its length, at an object first the members that
//! aren't allowed and then the others in the order of the table that defines it. Definitions that can be compared with
//! a YANG module list all faults in that order. A reader returns the first of them, at its JSON Pointer (RFC 6901), or
//! the value that the document means.
#![tactic(auto)]

mod choice;
mod entries;
mod list;
mod member;
mod names;
mod object;
mod path;
mod reference;
mod refuse;
mod required_list;
mod scalar;
mod sequence;
mod word;

pub use choice::{Refused, none_of, one_of};
pub use entries::{
    Entries, Entry, EntryNames, Named, entries_member, name_member, name_member_by, named_member,
    unique_name, unique_name_by,
};
pub use list::{items_by, items_in, items_member};
pub use member::{FromValue, optional_member, required_member};
pub use names::Names;
pub use object::{document_of, object_of};
pub use path::{DocumentPath, refusal};
pub use reference::{Refers, is_named, items_refer, place_of};
pub use refuse::refuse_if;
pub use required_list::{required_entries, required_items};
pub use scalar::{Empty, NameReader, Text, Whole, is_empty_type, read_name};
pub use sequence::Sequence;
pub use word::{Word, word_member};
