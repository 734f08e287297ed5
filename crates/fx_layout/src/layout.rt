//! Layouts: the leading bits of axes that make up a key.
ghost use Rattle.std.specs.Prelude.{◌≡◌, ℕ, ◌-◌, ◌/◌, ◌^◌, ◌<◌, ◌≤◌, ◌&&◌, not, Bool, true, false, List, [], IsSome, IfSome, is_some, length, nat_lt};
ghost use Rattle.std.specs.List.{position_or_len};
ghost use Rattle.fx_layout.specs.Keys as keys;
ghost use Rattle.fx_elements.specs.Axes as axes;

use crate::key::Key;
use arrayvec::ArrayVec;
use fx_boxes::Fields;
use fx_elements::{AXES, Axis, width};
use std::marker::Model;

/// An axis and the number of its leading bits, at least one.
#[derive(Clone, Copy, Debug, Default, PartialEq, Eq)]
pub struct Part {
    pub axis: Axis,
    pub bits: u32,
}

/// The leading bits of axes that make up a key: each axis at most once, in axis order. An address may have any number
/// of its bits, any other axis all of them.
#[derive(Debug, Drop)]
pub struct Layout {
    parts: ArrayVec<Part, AXES>,
}

impl Model for Layout {
    ghost use Rattle.fx_layout.specs.Keys as keys;

    ghost Value = { keys.Layout };

    ghost view = { λ l. l.parts.items };

    ghost invariant = { λ l. keys.IsLayout l.parts.items };
}

/// Returns whether a layout may have the part.
fn can_stand(part: Part) -> bool
    ensures { result ≡ keys.can_stand part }
{
    let bits = width(part.axis);
    part.bits >= 1 && (part.bits == bits || (part.axis.is_address() && part.bits <= bits))
}

/// Returns whether the parts have the axis with at least this many bits.
fn parts_read(parts: &[Part], axis: Axis, bits: u32) -> bool
    ensures { result ≡ keys.reads parts.now axis bits }
{
    match parts {
        [] => false,
        [part, rest @ ..] => {
            if part.axis.index() == axis.index() {
                bits <= part.bits
            } else {
                parts_read(rest, axis, bits)
            }
        }
    }
}

/// Returns the index of the first part of a later axis, or the number of parts if there is none.
fn place_for(parts: &[Part], axis: Axis) -> usize
    ensures bound { result ≤ length parts.now }
    ensures place { result ≡ position_or_len
        (λ part. nat_lt (axes.axis_index axis) (axes.axis_index part.axis)) parts.now }
{
    for (place, part) in parts.iter().enumerate() {
        if axis.index() < part.axis.index() {
            return place;
        }
    }
    parts.len()
}

/// Replaces the parts in `into` by these.
fn copy_parts(into: &mut ArrayVec<Part, AXES>, parts: &[Part])
    requires { length parts.now ≤ AXES }
    ensures { into.new.items ≡ parts.now }
{
    into.clear();
    for part in parts {
        into.push(*part);
    }
}

impl Layout {
    /// Returns the layout without parts, under which all packets have one key.
    pub fn new() -> Layout
        ensures { result ≡ [] }
    {
        Layout {
            parts: ArrayVec::new(),
        }
    }

    /// Returns the layout with one more part, or None if it has the axis already or the axis can't have this many bits.
    pub fn with(&self, axis: Axis, bits: u32) -> Option<Layout>
        ensures exact { is_some result ≡ (keys.can_stand (record { axis = axis; bits = bits })
            && not (is_some (keys.part_at self.now axis))) }
        ensures value { IfSome result (λ layout. layout
            ≡ keys.with_part self.now (record { axis = axis; bits = bits })) }
    {
        let new = Part { axis, bits };
        if !can_stand(new) || parts_read(self.parts.as_slice(), axis, 0) {
            return None;
        }
        let mut parts = self.copy().parts;
        parts.insert(place_for(self.parts.as_slice(), axis), new);
        Some(Layout { parts })
    }

    /// Returns the parts, in axis order.
    pub fn parts(&self) -> &[Part]
        ensures value { result.now ≡ self.now }
        ensures kept { keys.IsLayout result.now }
    {
        self.parts.as_slice()
    }

    /// Returns whether the layout has the axis with at least this many bits.
    pub fn reads(&self, axis: Axis, bits: u32) -> bool
        ensures { result ≡ keys.reads self.now axis bits }
    {
        parts_read(self.parts.as_slice(), axis, bits)
    }

    /// Returns whether the layout reads all parts of the other.
    pub fn refines(&self, other: &Layout) -> bool
        ensures { result ≡ keys.refines self.now other.now }
    {
        let parts = self.parts.as_slice();
        for part in other.parts.as_slice() {
            if !parts_read(parts, part.axis, part.bits) {
                return false;
            }
        }
        true
    }

    /// Returns whether the two layouts are the same.
    pub fn same(&self, other: &Layout) -> bool
        ensures { result ≡ keys.same_layout self.now other.now }
    {
        same_parts(self.parts.as_slice(), other.parts.as_slice())
    }

    /// Returns a copy of the layout.
    pub fn copy(&self) -> Layout
        ensures { result ≡ self.now }
    {
        let mut parts: ArrayVec<Part, AXES> = ArrayVec::new();
        copy_parts(&mut parts, self.parts.as_slice());
        Layout { parts }
    }

    /// Makes this layout equal to the other, in its own memory.
    pub(crate) fn become_copy_of(&mut self, other: &Layout)
        ensures { self.new ≡ other.now }
    {
        // It is usually the same already.
        if !self.same(other) {
            copy_parts(&mut self.parts, other.parts.as_slice());
        }
    }

    /// Returns the key of a packet with these fields.
    pub fn key_of(&self, fields: &Fields) -> Key
        ensures { result ≡ keys.key_of self.now fields.now }
    {
        Key::of_packet(self, fields)
    }
}

fn same_parts(a: &[Part], b: &[Part]) -> bool
    ensures { result ≡ keys.same_layout a.now b.now }
{
    match a {
        [] => match b {
            [] => true,
            [_, ..] => false,
        },
        [p, ps @ ..] => match b {
            [] => false,
            [q, qs @ ..] => {
                p.axis.index() == q.axis.index() && p.bits == q.bits && same_parts(ps, qs)
            }
        },
    }
}
