//! A store from which no entry leaves by itself.
ghost use Rattle.std.specs.Prelude.{◌≡◌, [], None, OnOk, OnErr, IfOk, IfErr, IsOk, IsSome};
ghost use Rattle.std.specs.FinMap as map;
ghost use Rattle.fx_base.specs.Fault.{IsMemory};
ghost use Rattle.fx_layout.specs.Keys.{key_of};
ghost use Rattle.fx_store.specs.Flows.{Adds, flows_of, least, without};
ghost use Rattle.fx_store.specs.Recent.{counts_at};

use crate::ordered::Ordered;
use crate::store::FlowStore;
use fx_base::{Counts, Fault};
use fx_boxes::Fields;
use fx_layout::{Key, Layout, Seed};
use indexmap::IndexMap;
use std::alloc::Global;
use std::collections::BTreeSet;
use std::marker::Model;

/// A store without a bound, seen as the list of its entries, in no particular order.
///
/// Keys are found by a hash with its seed, and the least one by their order.
#[derive(Drop)]
pub struct ListStore {
    flows: IndexMap<Ordered, Counts, Seed>,
    order: BTreeSet<Ordered>,
    /// Space for a packet's key, which is used to look it up.
    probe: Ordered,
}

impl Model for ListStore {
    ghost use Rattle.std.specs.Prelude.{List};
    ghost use Rattle.fx_store.specs.Flows.{Entry, flows_of};
    ghost use Rattle.fx_store.specs.Recent.{AreKeysOf};

    ghost Value = { List Entry };

    ghost view = { λ s. s.flows.entries };

    ghost invariant = { λ s. AreKeysOf (flows_of s.flows.entries) s.order.keys };
}

impl ListStore {
    /// Creates an empty store, which hashes keys with the seed.
    pub fn new(alloc: Global, seed: Seed) -> ListStore
        ensures { result ≡ [] }
    {
        ListStore {
            flows: IndexMap::with_hasher(alloc, seed),
            order: BTreeSet::new(alloc),
            probe: Ordered::of_all(),
        }
    }

    /// Adds the counts at a key that isn't in the store. Fails with 900 if out of memory.
    fn add_new(&mut self, key: Ordered, counts: Counts) -> Result<(), Fault>
        requires { counts_at self.old key ≡ None }
        ensures ok { OnOk result (Adds (flows_of self.old) (flows_of self.new) key counts None) }
        ensures err { IfErr result (λ e. IsMemory e × (self.new ≡ self.old)) }
    {
        self.order.insert(key.copy())?;
        match self.flows.insert(key, counts) {
            Ok(_) => Ok(()),
            Err(refused) => {
                self.order.remove(&refused.value.0);
                Err(Fault::from(refused))
            }
        }
    }
}

impl FlowStore for ListStore {
    ghost flows = { λ s. flows_of s };

    /// Adds the counts at the key; no entry leaves.
    fn add(&mut self, key: Key, counts: Counts) -> Result<Option<(Key, Counts)>, Fault>
        ensures ok { IfOk result (λ left. Adds (flows_of self.old) (flows_of self.new) key counts
            left) }
        ensures err { IfErr result (λ e. IsMemory e
            × (flows_of self.new ≡ flows_of self.old)) }
        ensures held { IsSome (map.get (flows_of self.old) key) → IsOk result }
        ensures stays { IfOk result (λ left. left ≡ None) }
        ensures unchanged { OnErr result (self.new ≡ self.old) }
    {
        let key = Ordered::new(key);
        match self.flows.get_mut(&key) {
            Some(held) => *held = held.add(&counts),
            None => self.add_new(key, counts)?,
        }
        Ok(None)
    }

    /// Adds the counts at the key of a packet; no entry leaves.
    fn add_packet(
        &mut self,
        layout: &Layout,
        fields: &Fields,
        counts: Counts,
    ) -> Result<Option<(Key, Counts)>, Fault>
        ensures ok { IfOk result (λ left. Adds (flows_of self.old) (flows_of self.new)
            (key_of layout.now fields.now) counts left) }
        ensures err { IfErr result (λ e. IsMemory e
            × (flows_of self.new ≡ flows_of self.old)) }
        ensures held { IsSome (map.get (flows_of self.old) (key_of layout.now fields.now))
            → IsOk result }
        ensures stays { IfOk result (λ left. left ≡ None) }
        ensures unchanged { OnErr result (self.new ≡ self.old) }
    {
        self.probe.become_of_packet(layout, fields);
        match self.flows.get_mut(&self.probe) {
            Some(held) => *held = held.add(&counts),
            None => {
                let key = self.probe.copy();
                self.add_new(key, counts)?;
            }
        }
        Ok(None)
    }

    fn take(&mut self, key: &Key) -> Option<Counts> {
        let key = Ordered::new(key.copy());
        self.order.remove(&key);
        self.flows.swap_remove(&key)
    }

    fn take_least(&mut self) -> Option<(Key, Counts)> {
        let key = self.order.pop_first()?;
        let counts = self.flows.swap_remove(&key)?;
        Some((key.into_key(), counts))
    }

    fn len(&self) -> usize {
        self.flows.len()
    }
}
