//! The layout of the report's key.
ghost use Rattle.std.specs.Prelude.{◌≡◌};
ghost use Rattle.fx_config.specs.Keys.{with_field};
ghost use Rattle.fx_topology.specs.Reports.{key_layout};

use fx_config::{KeyField, part_of};
use fx_layout::Layout;

/// Returns the layout with the part that the field denotes added, or `None` if the field denotes none or its axis is
/// already there.
fn with_field(layout: &Layout, field: &KeyField) -> Option<Layout>
    ensures { result ≡ with_field layout.now field.now }
{
    let part = part_of(field)?;
    layout.with(part.axis, part.bits)
}

/// Returns the layout of these fields, or `None` if one denotes no part of an axis or an axis appears twice.
pub fn layout_of(fields: &[KeyField]) -> Option<Layout>
    ensures { result ≡ key_layout fields.now }
{
    let mut layout = Layout::new();
    for field in fields {
        layout = with_field(&layout, field)?;
    }
    Some(layout)
}
