//! Flows counted in a store with a bound.
ghost use Rattle.std.specs.Prelude.{◌≡◌, ◌≤◌, [], IfOk};
ghost use Rattle.fx_store.specs.Flows.{Adds};

use fx_base::{Counts, Fault};
use fx_layout::{Key, Seed};
use fx_store::{BoundedStore, FlowStore};
use std::alloc::Global;

/// Returns an empty store with room for the given number of flows. Its seed should be random, so that nobody can choose
/// keys that are slow to find.
///
/// Fails with 900, at no place, if out of memory.
pub fn room_for(alloc: Global, seed: Seed, count: usize) -> Result<BoundedStore, Fault>
    requires { 1 ≤ count }
    ensures { IfOk result (λ store. store ≡ record { entries = []; capacity = count }) }
{
    BoundedStore::new(alloc, seed, count)
}

/// Counts a packet with the given number of octets under a key, and returns the flow that left to make room for it, if
/// one did.
///
/// Fails with 900, at no place, if out of memory.
pub fn count_packet<S: FlowStore>(
    store: &mut S,
    key: Key,
    octets: u64,
) -> Result<Option<(Key, Counts)>, Fault>
    ensures { IfOk result (λ left. Adds (S.flows store.old) (S.flows store.new) key
        (record { packets = 1; octets = octets }) left) }
{
    store.add(key, Counts { packets: 1, octets })
}
