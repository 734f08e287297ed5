//! Keys: the values of packets under a layout.
ghost use Rattle.std.specs.Prelude.{◌≡◌, ◌↔◌, ℕ, ◌-◌, ◌/◌, ◌^◌, ◌<◌, ◌≤◌, ◌&&◌, Bool, true, false, [], IfSome, is_some, length, bytes_eq};
ghost use Rattle.fx_layout.specs.Keys as keys;
ghost use Rattle.fx_elements.specs.Axes as axes;

use crate::layout::{Layout, Part};
use crate::values::Values;
use arrayvec::ArrayVec;
use fx_boxes::Fields;
use fx_elements::{AXES, Axis, width};
use std::marker::Model;

/// A layout and a value for each of its parts: the leading bits of an axis, as a number.
#[derive(Debug, Drop)]
pub struct Key {
    layout: Layout,
    values: Values,
}

impl Model for Key {
    ghost use Rattle.fx_layout.specs.Keys as keys;

    ghost Value = { keys.Key };

    ghost view = { λ k. record { layout = k.layout; values = k.values } };

    ghost invariant = { λ k. keys.HasBits k.layout k.values };
}

/// Returns the leading `bits` of a value of `width` bits.
pub fn leading_bits(width: u32, bits: u32, value: u128) -> u128
    requires { width ≤ 128 }
    ensures { result ≡ keys.leading_bits width bits value }
{
    let cut = width.saturating_sub(bits);
    if cut >= 128 {
        return 0;
    }
    value >> cut
}

/// Returns the leading bits of the value for an axis, or 0 if there is none.
fn cut_part(parts: &[Part], values: &[u128], axis: Axis, bits: u32) -> u128
    requires { keys.Fits parts.now }
    ensures { result ≡ keys.cut_in parts.now values.now axis bits }
{
    match parts {
        [] => 0,
        [part, parts @ ..] => match values {
            [] => 0,
            [value, values @ ..] => {
                if part.axis.index() == axis.index() {
                    leading_bits(part.bits, bits, *value)
                } else {
                    cut_part(parts, values, axis, bits)
                }
            }
        },
    }
}

/// Replaces the values in `into` by these.
fn copy_values(into: &mut ArrayVec<u128, AXES>, values: &[u128])
    requires { length values.now ≤ AXES }
    ensures { into.new.items ≡ values.now }
{
    if into.len() == values.len() {
        into.as_mut_slice().copy_from_slice(values);
        return;
    }
    into.clear();
    for value in values {
        into.push(*value);
    }
}

/// Returns whether the values are equal.
fn same_values(a: &[u128], b: &[u128]) -> bool
    ensures { result ≡ bytes_eq a.now b.now }
{
    a == b
}

/// Returns whether the first values precede the second, by the first value that differs.
fn values_before(a: &[u128], b: &[u128]) -> bool
    ensures { result ≡ keys.comes_before a.now b.now }
{
    match a {
        [] => match b {
            [] => false,
            [_, ..] => true,
        },
        [v, vs @ ..] => match b {
            [] => false,
            [w, ws @ ..] => *v < *w || (*v == *w && values_before(vs, ws)),
        },
    }
}

/// Replaces the values in `into` by those of a packet with these fields under a layout.
fn read_values(into: &mut ArrayVec<u128, AXES>, layout: &Layout, fields: &Fields)
    ensures value { into.new.items ≡ (keys.key_of layout.now fields.now).values }
    ensures bits { keys.HasBits layout.now into.new.items }
{
    // Only for the prover: each value is within its axis.
    let _first = fields.value_at(0);
    into.clear();
    for part in layout.parts() {
        into.push(leading_bits(width(part.axis), part.bits, fields.get(part.axis)));
    }
}

impl Key {
    /// Returns the key of a packet with these fields.
    pub(crate) fn of_packet(layout: &Layout, fields: &Fields) -> Key
        ensures { result ≡ keys.key_of layout.now fields.now }
    {
        let mut values: ArrayVec<u128, AXES> = ArrayVec::new();
        read_values(&mut values, layout, fields);
        Key {
            layout: layout.copy(),
            values: Values { items: values },
        }
    }

    /// Replaces this key, in its own memory, by that of a packet with these fields: see [`Layout::key_of`].
    pub fn become_of_packet(&mut self, layout: &Layout, fields: &Fields)
        ensures { self.new ≡ keys.key_of layout.now fields.now }
    {
        self.layout.become_copy_of(layout);
        read_values(&mut self.values.items, layout, fields);
    }

    /// Returns the key with these values, one for each part of the layout.
    pub fn of_values(layout: &Layout, values: &Values) -> Key
        requires { keys.HasBits layout.now values.now }
        ensures { result ≡ record { layout = layout.now; values = values.now } }
    {
        Key {
            layout: layout.copy(),
            values: values.copy(),
        }
    }

    /// Returns the key under the layout without parts, which all packets have.
    pub fn of_all() -> Key
        ensures { result ≡ record { layout = []; values = [] } }
    {
        Key {
            layout: Layout::new(),
            values: Values::new(),
        }
    }

    /// Replaces this key, in its own memory, by the one that [`of_values`](Key::of_values) returns.
    pub fn become_of_values(&mut self, layout: &Layout, values: &Values)
        requires { keys.HasBits layout.now values.now }
        ensures { self.new ≡ record { layout = layout.now; values = values.now } }
    {
        self.layout.become_copy_of(layout);
        copy_values(&mut self.values.items, values.items.as_slice());
    }

    /// Returns the layout of the key.
    pub fn layout(&self) -> &Layout
        ensures { result.now ≡ self.now.layout }
    {
        &self.layout
    }

    /// Returns a value for each part of the layout; each is below 2 to the power of its part's bits.
    pub fn values(&self) -> &[u128]
        ensures value { result.now ≡ self.now.values }
        ensures bits { keys.HasBits self.now.layout result.now }
        ensures room { length result.now ≤ AXES }
    {
        self.values.items.as_slice()
    }

    /// Returns the values alone, for looking up what is stored under the key.
    pub fn own_values(&self) -> &Values
        ensures value { result.now ≡ self.now.values }
        ensures bits { keys.HasBits self.now.layout result.now }
    {
        &self.values
    }

    /// Returns whether the two keys are the same: equal layouts and equal values.
    pub fn same(&self, other: &Key) -> bool
        ensures { result ≡ keys.same_key self.now other.now }
    {
        self.layout.same(&other.layout)
            && same_values(self.values.as_slice(), other.values.as_slice())
    }

    /// Returns whether the values of the key precede those of the other, in axis order.
    pub fn comes_before(&self, other: &Key) -> bool
        ensures { result ≡ keys.comes_before self.now.values other.now.values }
    {
        values_before(self.values.as_slice(), other.values.as_slice())
    }

    /// Returns the leading bits of the key's value for an axis, or 0 if it has none.
    pub fn bits_on(&self, axis: Axis, bits: u32) -> u128
        ensures { result ≡ keys.bits_on self.now axis bits }
    {
        cut_part(self.layout.parts(), self.values.as_slice(), axis, bits)
    }

    /// Returns a copy of the key.
    pub fn copy(&self) -> Key
        ensures { result ≡ self.now }
    {
        Key {
            layout: self.layout.copy(),
            values: self.values.copy(),
        }
    }

    /// Returns the key under a coarser layout, or None if the key's own layout doesn't refine it.
    pub fn project(&self, layout: &Layout) -> Option<Key>
        ensures exact { is_some result ≡ keys.refines self.now.layout layout.now }
        ensures value { IfSome result (λ key. key ≡ keys.project self.now layout.now) }
    {
        if !self.layout.refines(layout) {
            return None;
        }
        let mut values: ArrayVec<u128, AXES> = ArrayVec::new();
        for part in layout.parts() {
            values.push(self.bits_on(part.axis, part.bits));
        }
        Some(Key {
            layout: layout.copy(),
            values: Values { items: values },
        })
    }

    /// Projects only the values of the key: `values` become those of the key that [`project`](Key::project) returns.
    /// Returns false and leaves `values` unchanged if the key's own layout doesn't refine the other.
    pub fn project_values(&self, layout: &Layout, values: &mut Values) -> bool
        ensures exact { result ≡ keys.refines self.now.layout layout.now }
        ensures value { result ≡ true → values.new ≡ (keys.project self.now layout.now).values }
        ensures bits { result ≡ true → keys.HasBits layout.now values.new }
        ensures same { result ≡ false → values.new ≡ values.old }
    {
        if !self.layout.refines(layout) {
            return false;
        }
        values.items.clear();
        for part in layout.parts() {
            values.items.push(self.bits_on(part.axis, part.bits));
        }
        true
    }
}

/// The laws of keys: projecting a packet's key gives its key under the coarser layout, projections compose, and the
/// test for the same key decides equality.
pub fn keys_project()
    ensures packet { (layout : keys.Layout) (other : keys.Layout) (fields : axes.Fields)
        → keys.Fits layout → keys.refines layout other ≡ true
        → keys.project (keys.key_of layout fields) other ≡ keys.key_of other fields }
    ensures again { (key : keys.Key) (layout : keys.Layout) (other : keys.Layout)
        → keys.refines key.layout layout ≡ true → keys.refines layout other ≡ true
        → keys.project (keys.project key layout) other ≡ keys.project key other }
    ensures same { (a : keys.Key) (b : keys.Key) → (keys.same_key a b ≡ true) ↔ (a ≡ b) }
{}
