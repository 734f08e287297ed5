//! Opening of a running network, before anything is read.
ghost use Rattle.std.specs.Prelude.{◌≡◌, ◌++◌, map, IfOk, IfErr, OnOk};
ghost use Rattle.std.specs.List.{flat_map};
ghost use Rattle.fx_base.specs.Fault.{IsMemory};
ghost use Rattle.fx_plan.specs.Tables.{net_of};
ghost use Rattle.fx_net.specs.Opening as opening;

use crate::contents::Contents;
use crate::store::HolderStore;
use fx_base::Fault;
use fx_collect::Totals;
use fx_config::{Cache, CacheKind};
use fx_layout::Seed;
use fx_link::Link;
use fx_plan::Plan;
use fx_tables::{Exporter, Holder, Net};
use fx_topology::{NetworkDevice, NetworkDocument};
use std::alloc::Global;

/// Returns the store of a cache, `None` if it is immediate. Fails with 900, at no place, if out of memory.
fn store_of(alloc: Global, seed: Seed, cache: &Cache) -> Result<Option<HolderStore>, Fault>
    ensures ok { IfOk result (λ store. store ≡ opening.store_of cache.now) }
    ensures err { IfErr result IsMemory }
{
    if cache.kind == CacheKind::Immediate {
        return Ok(None);
    }
    Ok(Some(HolderStore::new(alloc, seed, cache.max_flows)?))
}

/// Appends the stores of these caches. Fails with 900, at no place, if out of memory.
fn push_caches(
    alloc: Global,
    seed: Seed,
    stores: &mut Vec<Option<HolderStore>>,
    caches: &[Cache],
) -> Result<(), Fault>
    ensures ok { OnOk result (stores.new.items
        ≡ stores.old.items ++ map opening.store_of caches.now) }
    ensures err { IfErr result IsMemory }
{
    for cache in caches {
        stores.push(store_of(alloc, seed, cache)?)?;
    }
    Ok(())
}

/// Returns the stores of the caches of all devices. Fails with 900, at no place, if out of memory.
fn cache_stores(
    alloc: Global,
    seed: Seed,
    devices: &[NetworkDevice],
) -> Result<Vec<Option<HolderStore>>, Fault>
    ensures ok { IfOk result (λ stores. stores.items
        ≡ map opening.store_of (flat_map (λ device. device.config.caches) devices.now)) }
    ensures err { IfErr result IsMemory }
{
    let mut stores: Vec<Option<HolderStore>> = Vec::new(alloc);
    for device in devices {
        push_caches(alloc, seed, &mut stores, device.config.caches.as_slice())?;
    }
    Ok(stores)
}

/// Appends a store without a bound for each of these aggregations. Fails with 900, at no place, if out of memory.
fn push_aggregations(
    alloc: Global,
    seed: Seed,
    stores: &mut Vec<Option<HolderStore>>,
    aggregations: &[Holder],
) -> Result<(), Fault>
    ensures ok { OnOk result (stores.new.items
        ≡ stores.old.items ++ opening.aggregation_stores aggregations.now) }
    ensures err { IfErr result IsMemory }
{
    for _aggregation in aggregations {
        stores.push(Some(HolderStore::new(alloc, seed, 0)?))?;
    }
    Ok(())
}

/// Returns the stores of all caches, followed by those of all aggregations. Fails with 900, at no place, if out of
/// memory.
fn stores_of(alloc: Global, seed: Seed, plan: &Plan) -> Result<Vec<Option<HolderStore>>, Fault>
    ensures ok { IfOk result (λ stores. stores.items ≡ opening.stores_of plan.now) }
    ensures err { IfErr result IsMemory }
{
    let mut stores = cache_stores(alloc, seed, plan.network().devices.as_slice())?;
    let holders = plan.net().holders();
    let caches = stores.len().min(holders.len());
    push_aggregations(alloc, seed, &mut stores, &holders[caches..])?;
    Ok(stores)
}

/// Returns a new link, which nothing was put on, for each of these. Fails with 900, at no place, if out of memory.
fn links_of(alloc: Global, processes: &[usize]) -> Result<Vec<Link>, Fault>
    ensures ok { IfOk result (λ links. links.items ≡ opening.new_links processes.now) }
    ensures err { IfErr result IsMemory }
{
    let mut links: Vec<Link> = Vec::new(alloc);
    for _process in processes {
        links.push(Link::new(alloc)?)?;
    }
    Ok(links)
}

/// Returns the number of the destination that each exporting process uses at the beginning. Fails with 900, at no
/// place, if out of memory.
fn first_destinations(alloc: Global, exporters: &[Exporter]) -> Result<Vec<u64>, Fault>
    ensures ok { IfOk result (λ chosen. chosen.items ≡ opening.first_chosen exporters.now) }
    ensures err { IfErr result IsMemory }
{
    let mut chosen: Vec<u64> = Vec::new(alloc);
    for _exporter in exporters {
        chosen.push(1)?;
    }
    Ok(chosen)
}

impl Contents {
    /// Returns the contents of a network with these stores and with links that nothing was put on. Fails with 900, at
    /// no place, if out of memory.
    fn on(
        alloc: Global,
        seed: Seed,
        net: &Net,
        stores: Vec<Option<HolderStore>>,
    ) -> Result<Contents, Fault>
        ensures ok { IfOk result (λ contents. contents ≡ opening.opened_on net.now stores.items) }
        ensures err { IfErr result IsMemory }
    {
        Ok(Contents {
            stores,
            links: links_of(alloc, net.links())?,
            chosen: first_destinations(alloc, net.exporters())?,
            totals: Totals::new(alloc, seed, net.report_layout().copy())?,
            second: 0,
        })
    }

    /// Returns what a network holds before anything is read.
    ///
    /// Fails with 900, at no place, if out of memory.
    pub(crate) fn open(alloc: Global, seed: Seed, plan: &Plan) -> Result<Contents, Fault>
        ensures ok { IfOk result (λ contents. contents ≡ opening.opening_contents plan.now) }
        ensures err { IfErr result IsMemory }
    {
        let stores = stores_of(alloc, seed, plan)?;
        Contents::on(alloc, seed, plan.net(), stores)
    }
}
