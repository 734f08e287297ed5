//! Keys by which records are aggregated.
ghost use Rattle.std.specs.Prelude.{◌≡◌, ℕ, List, [], ◌∷◌, map, codes};
ghost use Rattle.serde_json.specs.View.{view};
ghost use Rattle.fx_walk.specs.Pointer.{pointer};
ghost use Rattle.fx_walk.specs.Walk.{Reads, member_of};
ghost use Rattle.fx_walk.specs.Lists.{items_of};
ghost use Rattle.fx_config.specs.KeyFields.{key_field_of};
ghost use Rattle.fx_config.specs.Keys.{add_field, field_check, fields_faults, key_row, with_field, with_fields};

use crate::key_field::{KeyField, KeyFieldReader, part_of};
use crate::limits::FIELDS;
use fx_base::{Fault, refusals};
use fx_layout::Layout;
use fx_walk::{DocumentPath, FromValue, items_in, refusal};
use serde_json::Value;
use std::alloc::Global;

/// Returns the layout with the part that the field denotes added, or `None` if the field denotes none or its axis is
/// already there.
fn with_field(layout: &Layout, field: &KeyField) -> Option<Layout>
    ensures { result ≡ with_field layout.now field.now }
{
    let part = part_of(field)?;
    layout.with(part.axis, part.bits)
}

/// Returns the layout with the part that the field at the path denotes added. Fails with 105 if it cannot be added.
fn add_field(
    alloc: Global,
    path: &DocumentPath<'_>,
    layout: &Layout,
    field: &KeyField,
) -> Result<Layout, Fault>
    ensures { Reads (field_check layout.now field.now (pointer path.now))
        (add_field layout.now field.now) result }
{
    match with_field(layout, field) {
        Some(layout) => Ok(layout),
        None => Err(refusal(alloc, refusals::BAD_VALUE, path)),
    }
}

/// Reads the layout of the fields in the list at the path.
fn fields_of(alloc: Global, path: &DocumentPath<'_>, items: &[Value]) -> Result<Layout, Fault>
    ensures { Reads (fields_faults [] (pointer path.now) 0 (map view items.now))
        (with_fields [] (map view items.now)) result }
{
    let mut layout = Layout::new();
    let mut index = 0;
    for item in items {
        let path = DocumentPath::Item(&*path, index);
        let field = KeyFieldReader::from_value(alloc, &path, item)?;
        layout = add_field(alloc, &path, &layout, &field)?;
        index += 1;
    }
    Ok(layout)
}

/// Reads the optional member `key`, a list of fields. Without it the key has no fields.
pub fn key_member(alloc: Global, path: &DocumentPath<'_>, object: &Value) -> Result<Layout, Fault>
    ensures { Reads (key_row.faults (pointer path.now) (view object.now))
        (with_fields [] (items_of (member_of (codes "key") (view object.now)))) result }
{
    match object.get("key") {
        Some(value) => {
            let path = DocumentPath::Member(path, "key");
            let items = items_in(alloc, &path, value, 0, FIELDS)?;
            fields_of(alloc, &path, items)
        }
        None => Ok(Layout::new()),
    }
}
