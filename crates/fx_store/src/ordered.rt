//! Flow keys with their order.
ghost use Rattle.std.specs.Prelude.{◌≡◌, [], Some, refl};
ghost use Rattle.std.specs.Cmp.{partial_equiv_from_equiv, po};
ghost use Rattle.fx_layout.specs.Keys.{key_of, same_key};
ghost use Rattle.fx_store.specs.Order.{key_cmp, layout_cmp, part_cmp};
ghost use Rattle.fx_store.specs.KeyOrder.{key_cmp_total, same_key_equiv, same_key_ties, hash_writes, hashes_alike};

use fx_boxes::Fields;
use fx_layout::{Key, Layout, Part};
use std::cmp::Ordering;
use std::hash::{Hash, Hasher};
use std::marker::Model;

/// A flow key that is compared by all of its parts: its values and its layout.
#[derive(Drop)]
pub(crate) struct Ordered {
    key: Key,
}

impl Model for Ordered {
    ghost use Rattle.fx_layout.specs.Keys as keys;

    ghost Value = { keys.Key };

    ghost view = { λ k. k.key };

    ghost inverse = { λ k. record { key = k } };
}

/// Compares two parts: by the axis, then by the bits.
fn compare_part(p: Part, q: Part) -> Ordering
    ensures { result ≡ part_cmp p q }
{
    match p.axis.index().cmp(&q.axis.index()) {
        Ordering::Less => Ordering::Less,
        Ordering::Equal => p.bits.cmp(&q.bits),
        Ordering::Greater => Ordering::Greater,
    }
}

/// Compares two lists of parts: by the first part that differs.
fn compare_parts(a: &[Part], b: &[Part]) -> Ordering
    ensures { result ≡ layout_cmp a.now b.now }
{
    match a {
        [] => match b {
            [] => Ordering::Equal,
            [_, ..] => Ordering::Less,
        },
        [p, ps @ ..] => match b {
            [] => Ordering::Greater,
            [q, qs @ ..] => match compare_part(*p, *q) {
                Ordering::Less => Ordering::Less,
                Ordering::Equal => compare_parts(ps, qs),
                Ordering::Greater => Ordering::Greater,
            },
        },
    }
}

impl Ordered {
    /// Wraps a key, to compare it in this order.
    pub(crate) fn new(key: Key) -> Ordered
        ensures { result ≡ key }
    {
        Ordered { key }
    }

    /// Returns the key under the layout without parts.
    pub(crate) fn of_all() -> Ordered
        ensures { result ≡ record { layout = []; values = [] } }
    {
        Ordered { key: Key::of_all() }
    }

    /// Replaces this key by the one that a packet with these fields has under the layout.
    pub(crate) fn become_of_packet(&mut self, layout: &Layout, fields: &Fields)
        ensures { self.new ≡ key_of layout.now fields.now }
    {
        self.key.become_of_packet(layout, fields);
    }

    /// Returns the key.
    pub(crate) fn into_key(self) -> Key
        ensures { result ≡ self }
    {
        self.key
    }

    /// Returns a copy of the key.
    pub(crate) fn copy(&self) -> Ordered
        ensures { result ≡ self.now }
    {
        Ordered {
            key: self.key.copy(),
        }
    }
}

impl PartialEq for Ordered {
    ghost eq = { λ a b. same_key a b };

    ghost laws = { partial_equiv_from_equiv same_key_equiv };

    fn eq(&self, other: &Self) -> bool {
        self.key.same(&other.key)
    }
}

impl Eq for Ordered {
    ghost laws = { same_key_equiv };
}

impl PartialOrd for Ordered {
    ghost partial_cmp = { λ a b. Some (key_cmp a b) };

    ghost laws = { po key_cmp_total same_key_ties };

    fn partial_cmp(&self, other: &Self) -> Option<Ordering> {
        Some(self.cmp(other))
    }
}

impl Ord for Ordered {
    ghost cmp = { λ a b. key_cmp a b };

    ghost total = { key_cmp_total };

    ghost matches_partial_cmp = { λ a b. refl };

    ghost matches_eq = { same_key_ties };

    fn cmp(&self, other: &Self) -> Ordering {
        match self.key.values().cmp(other.key.values()) {
            Ordering::Less => Ordering::Less,
            Ordering::Equal => compare_parts(self.key.layout().parts(), other.key.layout().parts()),
            Ordering::Greater => Ordering::Greater,
        }
    }
}

impl Hash for Ordered {
    ghost hash_input = { hash_writes };

    ghost respects_eq = { hashes_alike };

    fn hash<H: Hasher>(&self, state: &mut H) {
        self.key.values().hash(state);
    }
}
