//! The values of a key alone, for looking up and ordering keys of one layout.
ghost use Rattle.std.specs.Prelude.{◌≡◌, [], length, ◌++◌, ◌∷◌, ◌<◌, ◌≤◌, Some, nat_eq, refl};
ghost use Rattle.std.specs.Ordering.{nat_cmp};
ghost use Rattle.std.specs.Cmp.{on_equiv, on_total, on_po, on_per, partial_equiv_from_equiv};
ghost use Rattle.std.specs.Cmp.Lexicographic.{pointwise, slice_cmp, nat_list_eq_equiv, nat_list_cmp_total, texts_po, texts_ties};
ghost use Rattle.std.specs.Cmp.Rules.{hashing};
ghost use Rattle.std.specs.Hash as fed;
ghost use Rattle.std.proofs.Common.{rules};

use crate::key::Key;
use arrayvec::ArrayVec;
use fx_elements::AXES;
use std::cmp::Ordering;
use std::hash::{Hash, Hasher};
use std::marker::Model;

/// The values of a key without its layout. They distinguish keys of one layout, and order them by the first value that
/// differs, in axis order.
#[derive(Debug, Drop)]
pub struct Values {
    pub(crate) items: ArrayVec<u128, AXES>,
}

impl Model for Values {
    ghost use Rattle.std.specs.Prelude.{List, ℕ};

    ghost Value = { List ℕ };

    ghost view = { λ v. v.items.items };
}

impl Values {
    /// Returns no values.
    pub fn new() -> Values
        ensures { result ≡ [] }
    {
        Values {
            items: ArrayVec::new(),
        }
    }

    /// Returns the values of the key.
    pub fn of(key: &Key) -> Values
        ensures { result ≡ key.now.values }
    {
        key.own_values().copy()
    }

    /// Removes all values.
    pub fn clear(&mut self)
        ensures { self.new ≡ [] }
    {
        self.items.clear();
    }

    /// Appends a value, for which there must be room: there are no more values than axes.
    pub fn push(&mut self, value: u128)
        requires { length self.old < AXES }
        ensures { self.new ≡ self.old ++ value ∷ [] }
    {
        self.items.push(value);
    }

    /// Returns a copy of the values.
    pub fn copy(&self) -> Values
        ensures { result ≡ self.now }
    {
        let mut items: ArrayVec<u128, AXES> = ArrayVec::new();
        for value in self.items.as_slice() {
            items.push(*value);
        }
        Values { items }
    }

    /// Returns the values, in axis order.
    pub fn as_slice(&self) -> &[u128]
        ensures { result.now ≡ self.now }
    {
        self.items.as_slice()
    }
}

impl PartialEq for Values {
    ghost eq = { λ s t. pointwise nat_eq s t };

    ghost laws = { partial_equiv_from_equiv nat_list_eq_equiv };

    fn eq(&self, other: &Self) -> bool {
        self.as_slice() == other.as_slice()
    }
}

impl Eq for Values {
    ghost laws = { nat_list_eq_equiv };
}

impl PartialOrd for Values {
    ghost partial_cmp = { λ s t. Some (slice_cmp nat_cmp s t) };

    ghost laws = { texts_po };

    fn partial_cmp(&self, other: &Self) -> Option<Ordering> {
        Some(self.cmp(other))
    }
}

impl Ord for Values {
    ghost cmp = { λ s t. slice_cmp nat_cmp s t };

    ghost total = { nat_list_cmp_total };

    ghost matches_partial_cmp = { λ s t. refl };

    ghost matches_eq = { λ s t. texts_ties s t };

    fn cmp(&self, other: &Self) -> Ordering {
        self.as_slice().cmp(other.as_slice())
    }
}

impl Hash for Values {
    ghost hash_input = { λ s. fed.slice fed.u128 s };

    ghost respects_eq = { Prim.search (hashing, rules) };

    fn hash<H: Hasher>(&self, state: &mut H) {
        self.as_slice().hash(state);
    }
}
