//! Keys of flow records.
ghost use Rattle.std.specs.Prelude.{◌≡◌, suc, ◌≤◌, ◌++◌, true, Ok, Err, Option, Some, None, map, slice_index};
ghost use Rattle.fx_elements.specs.Axes.{axis_index, tops};
ghost use Rattle.fx_elements.specs.Axes as every;
ghost use Rattle.fx_layout.specs.Keys as keys;
ghost use Rattle.fx_session.specs.Flows as flows;
ghost use Rattle.fx_session.specs.Parts as parts;

use crate::stream_fault::StreamFault;
use fx_boxes::Fields;
use fx_elements::{AXES, Axis, EVERY_AXIS, top, width};
use fx_layout::{Key, Layout};
use std::marker::Model;

/// What is known of the value on an axis: the number of its known leading bits, and a value that has these bits.
#[derive(Clone, Copy)]
pub(crate) struct Leading {
    pub bits: u32,
    pub value: u128,
}

/// Returns what is known of an address from a prefix and its length in bits.
///
/// Fails if the prefix is longer than the address.
pub(crate) fn prefix_part(
    axis: Axis,
    prefix: Option<u128>,
    bits: Option<u128>,
) -> Result<Option<Leading>, StreamFault>
    ensures part { result ≡ flows.prefix_part axis prefix bits }
    ensures stands { every.is_address axis ≡ true → parts.PartStands axis result }
{
    let (Some(value), Some(bits)) = (prefix, bits) else {
        return Ok(None);
    };
    if bits == 0 {
        return Ok(None);
    }
    if bits > u128::from(width(axis)) {
        return Err(StreamFault::PrefixLength);
    }
    Ok(Some(Leading {
        bits: bits as u32,
        value,
    }))
}

/// Returns the value on an axis, 0 if none is known.
pub(crate) fn value_of(axis: Axis, found: Option<Leading>) -> u128
    ensures value { result ≡ flows.value_of axis found }
    ensures bound { result ≤ slice_index tops (axis_index axis) }
{
    let most = top(axis);
    match found {
        Some(leading) if leading.value <= most => leading.value,
        Some(leading) => leading.value % (most + 1),
        None => 0,
    }
}

/// Returns how many leading bits are known on an axis, 0 if none are.
pub(crate) fn bits_of(found: &Option<Leading>) -> u32
    ensures { result ≡ parts.bits_of found.now }
{
    match found {
        None => 0,
        Some(leading) => leading.bits,
    }
}

/// Returns the layout with the given number of leading bits of a later axis added; adds no part if there are none.
fn add_part(layout: &Layout, axis: Axis, bits: u32) -> Layout
    requires later { parts.AllBefore layout.now (axis_index axis) }
    requires stands { parts.BitsStand axis bits }
    ensures value { result ≡ layout.now ++ parts.part_by axis bits }
    ensures before { parts.AllBefore result (suc (axis_index axis)) }
{
    if bits == 0 {
        return layout.copy();
    }
    match layout.with(axis, bits) {
        Some(next) => next,
        None => unreachable!(),
    }
}

/// Returns the layout with the given number of leading bits on each axis.
pub(crate) fn layout_of(bits: &[u32; AXES]) -> Layout
    requires { parts.AllStand bits.now }
    ensures { result ≡ parts.layout_by bits.now }
{
    let mut layout = Layout::new();
    for axis in EVERY_AXIS {
        layout = add_part(&layout, axis, bits[axis.index()]);
    }
    layout
}

/// The layout of the last key that was made, with its bits on each axis: the next record under a template mostly has
/// the same one.
#[derive(Drop)]
pub(crate) struct LastLayout {
    bits: [u32; AXES],
    layout: Layout,
}

impl Model for LastLayout {
    ghost use Rattle.std.specs.Prelude.{◌≡◌, List, ℕ};
    ghost use Rattle.fx_session.specs.Parts as parts;

    ghost Value = { List ℕ };

    ghost view = { λ l. l.bits };

    ghost invariant = { λ l. l.layout ≡ parts.layout_by l.bits };
}

impl LastLayout {
    /// Returns the layout without parts.
    pub fn new() -> LastLayout
        ensures { result ≡ map (λ axis. 0) every.axes }
    {
        LastLayout {
            bits: [0; AXES],
            layout: Layout::new(),
        }
    }

    /// Returns the key of these fields with the given number of leading bits on each axis.
    pub fn key_of(&mut self, bits: &[u32; AXES], fields: &Fields) -> Key
        requires { parts.AllStand bits.now }
        ensures { result ≡ keys.key_of (parts.layout_by bits.now) fields.now }
    {
        if self.bits != *bits {
            self.layout = layout_of(bits);
            self.bits = *bits;
        }
        self.layout.key_of(fields)
    }
}
