//! A store with a bound, which evicts the least recently updated entry.
ghost use Rattle.std.specs.Prelude.{◌≡◌, ◌≤◌, ◌<◌, [], None, Some, length, option_map, OnOk, OnErr, IfOk, IfErr, IfSome, IfNone, IsOk, IsSome};
ghost use Rattle.std.specs.FinMap as map;
ghost use Rattle.fx_base.specs.Fault.{IsMemory};
ghost use Rattle.fx_layout.specs.Keys.{key_of};
ghost use Rattle.fx_store.specs.Flows.{Adds, flows_of, least, without};
ghost use Rattle.fx_store.specs.Recent.{after_add, counts_at, pushed_out, without_key};

use crate::ordered::Ordered;
use crate::store::FlowStore;
use fx_base::{Counts, Fault};
use fx_boxes::Fields;
use fx_layout::{Key, Layout, Seed};
use lru::LruCache;
use std::alloc::Global;
use std::collections::BTreeSet;
use std::marker::Model;
use std::num::NonZeroUsize;

/// A store of at most the given number of entries, seen as the list of its entries, the most recently updated first.
///
/// If it is full and a new key is added, the least recently updated entry leaves. Keys are found by a hash with its
/// seed.
#[derive(Drop)]
pub struct BoundedStore {
    recent: LruCache<Ordered, Counts, Seed>,
    order: BTreeSet<Ordered>,
    /// Space for a packet's key, which is used to look it up.
    probe: Ordered,
}

impl Model for BoundedStore {
    ghost use Rattle.fx_store.specs.Recent.{Recent, AreKeysOf};
    ghost use Rattle.fx_store.specs.Flows.{flows_of};

    ghost Value = { Recent };

    ghost view = { λ s. record { entries = s.recent.entries; capacity = s.recent.cap } };

    ghost invariant = { λ s. AreKeysOf (flows_of s.recent.entries) s.order.keys };
}

impl BoundedStore {
    /// Creates an empty store with room for the given number of entries, which hashes keys with the seed.
    ///
    /// Fails with 900, at no place, if out of memory.
    pub fn new(alloc: Global, seed: Seed, capacity: usize) -> Result<BoundedStore, Fault>
        requires { 1 ≤ capacity }
        ensures ok { IfOk result (λ s. s ≡ record { entries = []; capacity = capacity }) }
        ensures err { IfErr result IsMemory }
    {
        let capacity = NonZeroUsize::new(capacity).unwrap();
        let mut recent = LruCache::unbounded_with_hasher(alloc, seed)?;
        recent.resize(capacity);
        Ok(BoundedStore {
            recent,
            order: BTreeSet::new(alloc),
            probe: Ordered::of_all(),
        })
    }

    /// Adds the counts at a key that isn't in the store. Fails with 900 if out of memory.
    fn add_new(&mut self, key: Ordered, counts: Counts) -> Result<Option<(Key, Counts)>, Fault>
        requires { counts_at self.old.entries key ≡ None }
        ensures recent { OnOk result (self.new ≡ after_add self.old key counts) }
        ensures leaves { IfOk result (λ left. left ≡ pushed_out self.old key counts) }
        ensures err { IfErr result (λ e. IsMemory e × (self.new ≡ self.old)) }
    {
        // This line and similar ones below are only for the prover: `len` gives it that keys are distinct and fit,
        // which the other calls don't.
        let _held = self.recent.len();
        self.order.insert(key.copy())?;
        match self.recent.push(key, counts) {
            Ok(None) => Ok(None),
            Ok(Some((oldest, counts))) => {
                self.order.remove(&oldest);
                Ok(Some((oldest.into_key(), counts)))
            }
            Err(refused) => {
                self.order.remove(&refused.value.0);
                Err(Fault::from(refused))
            }
        }
    }
}

impl FlowStore for BoundedStore {
    ghost flows = { λ s. flows_of s.entries };

    /// Adds the counts at the key. If the store is full and the key is new, the least recently updated entry leaves.
    fn add(&mut self, key: Key, counts: Counts) -> Result<Option<(Key, Counts)>, Fault>
        ensures ok { IfOk result (λ left. Adds (flows_of self.old.entries)
            (flows_of self.new.entries) key counts left) }
        ensures err { IfErr result (λ e. IsMemory e
            × (flows_of self.new.entries ≡ flows_of self.old.entries)) }
        ensures held { IsSome (map.get (flows_of self.old.entries) key) → IsOk result }
        ensures recent { OnOk result (self.new ≡ after_add self.old key counts) }
        ensures leaves { IfOk result (λ left. left ≡ pushed_out self.old key counts) }
        ensures unchanged { OnErr result (self.new ≡ self.old) }
    {
        let key = Ordered::new(key);
        let _held = self.recent.len();
        match self.recent.peek(&key).copied() {
            Some(before) => {
                self.recent.put(key, before.add(&counts))?;
                Ok(None)
            }
            None => self.add_new(key, counts),
        }
    }

    /// Adds the counts at the key of a packet. If the store is full and the key is new, the least recently updated
    /// entry leaves.
    fn add_packet(
        &mut self,
        layout: &Layout,
        fields: &Fields,
        counts: Counts,
    ) -> Result<Option<(Key, Counts)>, Fault>
        ensures ok { IfOk result (λ left. Adds (flows_of self.old.entries)
            (flows_of self.new.entries) (key_of layout.now fields.now) counts left) }
        ensures err { IfErr result (λ e. IsMemory e
            × (flows_of self.new.entries ≡ flows_of self.old.entries)) }
        ensures held { IsSome (map.get (flows_of self.old.entries)
            (key_of layout.now fields.now)) → IsOk result }
        ensures recent { OnOk result (self.new
            ≡ after_add self.old (key_of layout.now fields.now) counts) }
        ensures leaves { IfOk result (λ left. left
            ≡ pushed_out self.old (key_of layout.now fields.now) counts) }
        ensures unchanged { OnErr result (self.new ≡ self.old) }
    {
        self.probe.become_of_packet(layout, fields);
        let _held = self.recent.len();
        match self.recent.get_mut(&self.probe) {
            Some(held) => *held = held.add(&counts),
            None => {
                let key = self.probe.copy();
                return self.add_new(key, counts);
            }
        }
        Ok(None)
    }

    fn take(&mut self, key: &Key) -> Option<Counts>
        ensures value { result ≡ map.get (flows_of self.old.entries) key.now }
        ensures rest { flows_of self.new.entries ≡ map.remove (flows_of self.old.entries) key.now }
        ensures recent { self.new ≡ record self.old
            { entries = without_key self.old.entries key.now } }
    {
        let key = Ordered::new(key.copy());
        let _held = self.recent.len();
        self.order.remove(&key);
        self.recent.pop(&key)
    }

    fn take_least(&mut self) -> Option<(Key, Counts)>
        ensures value { result ≡ least (flows_of self.old.entries) }
        ensures rest { flows_of self.new.entries ≡ without (flows_of self.old.entries) result }
        ensures recent { IfSome result (λ e. self.new
            ≡ record self.old { entries = without_key self.old.entries e.0 }) }
        ensures none { IfNone result (self.new ≡ self.old) }
    {
        let _held = self.recent.len();
        let key = self.order.pop_first()?;
        let (key, counts) = self.recent.pop_entry(&key)?;
        Some((key.into_key(), counts))
    }

    fn len(&self) -> usize
        ensures len { result ≡ map.len (flows_of self.now.entries) }
        ensures listed { result ≡ length self.now.entries }
        ensures room { result ≤ self.now.capacity }
    {
        self.recent.len()
    }
}
