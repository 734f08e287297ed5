//! Positions of values in a document.
ghost use Rattle.fx_walk.specs.Pointer.{below, escaped_char, escaped_name, pointer};
ghost use Rattle.fx_walk.specs.Walk.{Refuses};
ghost use Rattle.fx_base.specs.Fault.{fault_at};
ghost use Rattle.fx_base.specs.declared.fault.Place.TheVariants as places;
ghost use Rattle.std.specs.Prelude.{◌≡◌, ◌∷◌, [], ◌++◌, ◌==◌, OnOk, IfOk, string_bytes, if◌then◌else◌};

use fx_base::{Fault, Place};
use std::alloc::{AllocError, Global};

/// The position of a value: the root, or below another value.
#[derive(Clone, Copy)]
pub enum DocumentPath<'a> {
    /// The whole document.
    Root,
    /// The member of an object with this name.
    Member(&'a DocumentPath<'a>, &'a str),
    /// The item of a list at this 0-based index.
    Item(&'a DocumentPath<'a>, usize),
}

/// Writes a character of a name: `~` as `~0`, and `/` as `~1`.
fn push_escaped_char(out: &mut String, c: char) -> Result<(), AllocError>
    ensures { OnOk result (string_bytes out.new ≡ string_bytes out.old ++ escaped_char c) }
{
    match c {
        '~' => out.push_str("~0"),
        '/' => out.push_str("~1"),
        _ => out.push(c),
    }
}

/// Writes a name so that it has no `/` (RFC 6901, section 3).
fn push_escaped(out: &mut String, name: &str) -> Result<(), AllocError>
    ensures { OnOk result (string_bytes out.new ≡ string_bytes out.old ++ escaped_name name.now) }
{
    for c in name.chars() {
        push_escaped_char(out, c)?;
    }
    Ok(())
}

/// Writes the step to a member: `/` and its name.
fn push_member(out: &mut String, name: &str) -> Result<(), AllocError>
    ensures { OnOk result (string_bytes out.new ≡ below (string_bytes out.old) name.now) }
{
    out.push_str("/")?;
    push_escaped(out, name)
}

/// Writes the pointer to the position that the path describes.
fn push_pointer(out: &mut String, path: &DocumentPath<'_>) -> Result<(), AllocError>
    ensures { OnOk result (string_bytes out.new ≡ string_bytes out.old ++ pointer path.now) }
{
    match path {
        DocumentPath::Root => Ok(()),
        DocumentPath::Member(up, name) => {
            push_pointer(out, up)?;
            push_member(out, name)
        }
        DocumentPath::Item(up, place) => {
            push_pointer(out, up)?;
            write!(out, "/{place}")
        }
    }
}

fn pointer_text(alloc: Global, path: &DocumentPath<'_>) -> Result<String, AllocError>
    ensures { IfOk result (λ s. string_bytes s ≡ pointer path.now) }
{
    let mut text = String::new(alloc);
    push_pointer(&mut text, path)?;
    Ok(text)
}

/// Returns a refusal with this number at the path, or with 900 if out of memory for its pointer.
pub fn refusal(alloc: Global, number: u16, path: &DocumentPath<'_>) -> Fault
    ensures { Refuses result ((number, pointer path.now) ∷ []) }
{
    match pointer_text(alloc, path) {
        Ok(text) => Fault {
            number,
            place: Place::Text(text),
        },
        Err(error) => Fault::from(error),
    }
}
