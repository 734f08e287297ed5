//! Checks whether tables are those of a network: records only go forward, and no layout has more bits than its axes.
ghost use Rattle.std.specs.Prelude.{◌≡◌, ℕ, ◌&&◌, length, nat_lt, slice_get, IfOk};
ghost use Rattle.std.specs.Bool.{OnTrue};
ghost use Rattle.std.specs.List.{list_all};
ghost use Rattle.fx_layout.specs.Keys.{Fits};
ghost use Rattle.fx_tables.specs.Network.{layout_of};
ghost use Rattle.fx_tables.specs.Ranks.{IsNetwork};

use fx_layout::Layout;
use fx_ranks::rank_order;
use fx_tables::{Holder, Net};
use std::alloc::{AllocError, Global};

/// Proves that no part of a layout has more bits than its axis.
fn fits(layout: &Layout)
    ensures { Fits layout.now }
{
    // The prover needs this call: it shows that the parts of a layout fit their axes.
    let _parts = layout.parts();
}

/// Proves that no part of a holder's layout has more bits than its axis.
fn all_fit(holders: &[Holder])
    ensures { (k : ℕ) → Fits (layout_of (slice_get holders.now k)) }
{
    for holder in holders {
        fits(holder.layout());
    }
}

fn all_come(come: &[bool]) -> bool
    ensures { result ≡ list_all (λ c. c) come.now }
{
    come.iter().all(|there| *there)
}

/// Returns whether all places are below `end`.
fn all_below(places: &[usize], end: usize) -> bool
    ensures { result ≡ list_all (λ index. nat_lt index end) places.now }
{
    places.iter().all(|index| *index < end)
}

fn judged(net: &Net, come: &[bool]) -> bool
    ensures { result ≡ (list_all (λ c. c) come.now
        && (list_all (λ place. nat_lt place (length net.now.processes)) net.now.links
        && nat_lt net.now.report (length net.now.processes))) }
{
    let end = net.processes().len();
    all_come(come) && (all_below(net.links(), end) && net.report() < end)
}

/// Returns whether the tables are those of a network, of any size.
///
/// Fails if an allocation fails.
pub fn is_network(alloc: Global, net: &Net) -> Result<bool, AllocError>
    ensures { IfOk result (λ b. OnTrue b (IsNetwork net.now)) }
{
    all_fit(net.holders());
    let coming = rank_order(alloc, net)?;
    let found = judged(net, coming.come.as_slice());
    Ok(found)
}
