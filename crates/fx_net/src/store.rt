//! The stores of caches and aggregations, with a bound or without one.
ghost use Rattle.std.specs.Prelude.{◌≡◌, ◌==◌, [], Some, None, OnOk, OnErr, IfOk, IfErr, IfSome, IfNone, IsOk, IsSome};
ghost use Rattle.std.specs.FinMap as map;
ghost use Rattle.fx_base.specs.Fault.{IsMemory};
ghost use Rattle.fx_layout.specs.Keys.{key_of};
ghost use Rattle.fx_store.specs.Flows.{Adds, least, without};
ghost use Rattle.fx_net.specs.Stores.{flows_in, makes_room, new_store, with_counts, without_entry};

use fx_base::{Counts, Fault};
use fx_boxes::Fields;
use fx_layout::{Key, Layout, Seed};
use fx_store::{BoundedStore, FlowStore, ListStore};
use std::alloc::Global;
use std::marker::Model;

/// The most records of a cache with a bound, whatever its bound is.
const MOST_FLOWS: u32 = 65_536;

#[derive(Drop)]
enum StoreKind {
    Unbounded(ListStore),
    Bounded(BoundedStore),
}

/// The store of a cache or of an aggregation.
#[derive(Drop)]
pub(crate) struct HolderStore {
    kind: StoreKind,
}

impl Model for HolderStore {
    ghost use Rattle.fx_net.specs.Stores.{Stored};
    ghost use Rattle.fx_net.specs.Kinds.{stored_of};
    ghost use Rattle.std.specs.Coded.{codes};
    ghost use Rattle.std.specs.FinMap.{code};

    ghost Value = { Stored };

    ghost coded = { Prim.hlevel (codes, code) };

    ghost view = { λ s. stored_of s.kind };
}

impl HolderStore {
    /// Creates an empty store that holds at most `max_flows` records, where 0 means no bound and more than 65,536 means
    /// 65,536. It hashes keys with the seed.
    ///
    /// Fails with 900, at no place, if out of memory.
    pub(crate) fn new(alloc: Global, seed: Seed, max_flows: u32) -> Result<HolderStore, Fault>
        ensures ok { IfOk result (λ s. s ≡ new_store max_flows) }
        ensures err { IfErr result IsMemory }
    {
        if max_flows == 0 {
            return Ok(HolderStore {
                kind: StoreKind::Unbounded(ListStore::new(alloc, seed)),
            });
        }
        let capacity = max_flows.min(MOST_FLOWS) as usize;
        Ok(HolderStore {
            kind: StoreKind::Bounded(BoundedStore::new(alloc, seed, capacity)?),
        })
    }
}

impl FlowStore for HolderStore {
    ghost flows = { λ s. flows_in s };

    /// Adds the counts at the key. If there is a bound, the store is full and the key is new, the least recently
    /// updated entry leaves.
    fn add(&mut self, key: Key, counts: Counts) -> Result<Option<(Key, Counts)>, Fault>
        ensures ok { IfOk result (λ left. Adds (flows_in self.old) (flows_in self.new) key counts
            left) }
        ensures err { IfErr result (λ e. IsMemory e
            × (flows_in self.new ≡ flows_in self.old)) }
        ensures held { IsSome (map.get (flows_in self.old) key) → IsOk result }
        ensures stored { OnOk result (self.new ≡ with_counts self.old key counts) }
        ensures leaves { IfOk result (λ left. left ≡ makes_room self.old key counts) }
    {
        match &mut self.kind {
            StoreKind::Unbounded(store) => store.add(key, counts),
            StoreKind::Bounded(store) => store.add(key, counts),
        }
    }

    /// Adds the counts at the key of a packet. If there is a bound, the store is full and the key is new, the least
    /// recently updated entry leaves.
    fn add_packet(
        &mut self,
        layout: &Layout,
        fields: &Fields,
        counts: Counts,
    ) -> Result<Option<(Key, Counts)>, Fault>
        ensures ok { IfOk result (λ left. Adds (flows_in self.old) (flows_in self.new)
            (key_of layout.now fields.now) counts left) }
        ensures err { IfErr result (λ e. IsMemory e
            × (flows_in self.new ≡ flows_in self.old)) }
        ensures held { IsSome (map.get (flows_in self.old) (key_of layout.now fields.now))
            → IsOk result }
        ensures stored { OnOk result (self.new
            ≡ with_counts self.old (key_of layout.now fields.now) counts) }
        ensures leaves { IfOk result (λ left. left
            ≡ makes_room self.old (key_of layout.now fields.now) counts) }
    {
        match &mut self.kind {
            StoreKind::Unbounded(store) => store.add_packet(layout, fields, counts),
            StoreKind::Bounded(store) => store.add_packet(layout, fields, counts),
        }
    }

    fn take(&mut self, key: &Key) -> Option<Counts>
        ensures value { result ≡ map.get (flows_in self.old) key.now }
        ensures rest { flows_in self.new ≡ map.remove (flows_in self.old) key.now }
        ensures stored { self.new ≡ without_entry self.old key.now }
    {
        match &mut self.kind {
            StoreKind::Unbounded(store) => store.take(key),
            StoreKind::Bounded(store) => store.take(key),
        }
    }

    fn take_least(&mut self) -> Option<(Key, Counts)>
        ensures value { result ≡ least (flows_in self.old) }
        ensures rest { flows_in self.new ≡ without (flows_in self.old) result }
        ensures stored { IfSome result (λ e. self.new ≡ without_entry self.old e.0) }
        ensures none { IfNone result (self.new ≡ self.old) }
    {
        match &mut self.kind {
            StoreKind::Unbounded(store) => store.take_least(),
            StoreKind::Bounded(store) => store.take_least(),
        }
    }

    fn len(&self) -> usize {
        match &self.kind {
            StoreKind::Unbounded(store) => store.len(),
            StoreKind::Bounded(store) => store.len(),
        }
    }
}
