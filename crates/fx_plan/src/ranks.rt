//! The ranks of a network's collecting processes.
ghost use Rattle.std.specs.Prelude.{◌≡◌, ◌⊎◌, ◌∷◌, [], Bool, IfErr, IfOk, reverse};
ghost use Rattle.std.specs.List.{list_all};
ghost use Rattle.fx_base.specs.Fault.{IsMemory};
ghost use Rattle.fx_plan.specs.Plans.{IsCycle, IsResolved};
ghost use Rattle.fx_ranks.specs.Ranks.{IsWhole};
ghost use Rattle.fx_plan.specs.Tables as tables;

use crate::cycle::cycle;
use fx_base::Fault;
use fx_ranks::rank_order;
use fx_tables::Net;
use fx_topology::NetworkDocument;
use std::alloc::{AllocError, Global};

/// The collecting processes of a network in two orders.
#[derive(Debug, Drop)]
pub struct Ranks {
    /// The places in rank order.
    pub ranked: Vec<usize>,
    /// The places in reverse rank order.
    pub order: Vec<usize>,
}

fn all_have_come(come: &[bool]) -> bool
    ensures { result ≡ list_all (λ c. c) come.now }
{
    come.iter().all(|there| *there)
}

fn reverse_of(alloc: Global, ranked: &[usize]) -> Result<Vec<usize>, AllocError>
    ensures { IfOk result (λ v. v.items ≡ reverse ranked.now) }
{
    let mut order: Vec<usize> = Vec::new(alloc);
    order.extend_from_slice(ranked)?;
    order.reverse();
    Ok(order)
}

/// Returns the ranks of a network's collecting processes, if links lead only to processes that exist.
///
/// Fails with 204 if there are none because links form a cycle, and with 900 if out of memory.
pub fn ranks_of(alloc: Global, network: &NetworkDocument, net: &Net) -> Result<Ranks, Fault>
    requires net_is { net.now ≡ tables.net_of network.now }
    requires resolved { IsResolved net.now }
    ensures whole { IfOk result (λ r. IsWhole net.now r.ranked.items) }
    ensures order { IfOk result (λ r. r.order.items ≡ reverse r.ranked.items) }
    ensures err { IfErr result (λ e. IsMemory e ⊎ IsCycle network.now e) }
{
    let coming = rank_order(alloc, net)?;
    if !all_have_come(coming.come.as_slice()) {
        return Err(cycle(alloc, network.devices.as_slice(), coming.come.as_slice()));
    }
    let order = reverse_of(alloc, coming.order.as_slice())?;
    Ok(Ranks {
        ranked: coming.order,
        order,
    })
}
