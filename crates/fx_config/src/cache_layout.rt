//! Layouts of the records of caches.
ghost use Rattle.std.specs.Prelude.{◌≡◌, ℕ, codes};
ghost use Rattle.serde_json.specs.View.{view};
ghost use Rattle.fx_walk.specs.Pointer.{pointer};
ghost use Rattle.fx_walk.specs.Walk.{Reads, member_of, required_row};
ghost use Rattle.fx_config.specs.CacheLayouts.{add_axis, add_key, cache_layout_faults, cache_layout_of, counter_faults, counts_octets, counts_packets, layout_of};

use crate::cache_field::{CacheField, fields_member};
use fx_base::{Fault, refusals};
use fx_elements::{Element, width};
use fx_layout::Layout;
use fx_walk::{DocumentPath, object_of, refusal};
use serde_json::Value;
use std::alloc::Global;

fn counts_octets(fields: &[CacheField]) -> bool
    ensures { result ≡ counts_octets fields.now }
{
    fields
        .iter()
        .any(|field| field.element == Element::OctetDeltaCount)
}

fn counts_packets(fields: &[CacheField]) -> bool
    ensures { result ≡ counts_packets fields.now }
{
    fields
        .iter()
        .any(|field| field.element == Element::PacketDeltaCount)
}

/// Refuses records that do not count both octets and packets (114).
fn has_counters(alloc: Global, path: &DocumentPath<'_>, fields: &[CacheField]) -> Result<(), Fault>
    ensures { Reads (counter_faults fields.now (pointer path.now)) tt result }
{
    if counts_octets(fields) && counts_packets(fields) {
        Ok(())
    } else {
        Err(refusal(alloc, refusals::MISSING_COUNTER, path))
    }
}

/// Returns the layout with the field's axis added if the field is a flow key.
fn with_field(layout: Layout, field: &CacheField) -> Layout
    ensures { result ≡ add_key layout field.now }
{
    if !field.is_flow_key {
        return layout;
    }
    match field.element {
        Element::OnAxis(axis) => layout.with(axis, width(axis)).unwrap_or(layout),
        _ => layout,
    }
}

/// Returns the layout of the flow keys among the fields.
fn layout_of(fields: &[CacheField]) -> Layout
    ensures { result ≡ layout_of fields.now }
{
    let mut layout = Layout::new();
    for field in fields {
        layout = with_field(layout, field);
    }
    layout
}

/// Reads the flow keys of a cache's records from the container `cacheLayout` at the path (RFC 6728, section 4.3.3).
fn read_layout(
    alloc: Global,
    path: &DocumentPath<'_>,
    value: &Value,
    immediate: bool,
) -> Result<Layout, Fault>
    ensures { Reads (cache_layout_faults immediate (pointer path.now) (view value.now))
        (cache_layout_of immediate (view value.now)) result }
{
    object_of(alloc, path, value, &["cacheField"])?;
    let fields = fields_member(alloc, path, value, immediate)?;
    let fields = fields.as_slice();
    has_counters(alloc, path, fields)?;
    Ok(layout_of(fields))
}

/// Reads the required member `cacheLayout`.
pub fn layout_member(
    alloc: Global,
    path: &DocumentPath<'_>,
    object: &Value,
    immediate: bool,
) -> Result<Layout, Fault>
    ensures { Reads ((required_row (codes "cacheLayout") (cache_layout_faults immediate)).faults
        (pointer path.now) (view object.now))
        (cache_layout_of immediate (member_of (codes "cacheLayout") (view object.now))) result }
{
    match object.get("cacheLayout") {
        Some(value) => read_layout(
            alloc,
            &DocumentPath::Member(path, "cacheLayout"),
            value,
            immediate,
        ),
        None => Err(refusal(alloc, refusals::MISSING_MEMBER, path)),
    }
}
