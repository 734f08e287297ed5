//! The rank order, in which each collecting process follows all that feed it.
ghost use Rattle.std.specs.Prelude.{◌≡◌, ◌≤◌, not, ◌&&◌, IfOk, length, map, position, zip};
ghost use Rattle.fx_ranks.specs.Feeding.{have_come, places_of};
ghost use Rattle.fx_ranks.specs.Ranks.{IsRankOrder, is_in};

use crate::feeders::all_feeders;
use fx_tables::Net;
use std::alloc::{AllocError, Global};

/// The processes that have a place in the rank order.
#[derive(Drop)]
pub struct RankOrder {
    /// The places of these processes, in rank order.
    pub order: Vec<usize>,
    /// For each process of the network, whether it is among them.
    pub come: Vec<bool>,
}

/// Returns whether all feeders are already in the order.
fn have_come(feeders: &[bool], come: &[bool]) -> bool
    ensures { result ≡ have_come feeders.now come.now }
{
    feeders
        .iter()
        .zip(come)
        .all(|(feeds, come)| !*feeds || *come)
}

/// Returns the place of the first process that is not yet in the order and whose feeders all are.
fn first_ready(feeders: &[Vec<bool>], come: &[bool]) -> Option<usize>
    ensures { result ≡ position (λ x. not x.1
        && have_come x.0.items come.now) (zip feeders.now come.now) }
{
    feeders.iter().zip(come).position(|(feeders, there)| !*there
        && have_come(feeders.as_slice(), come))
}

/// Returns the processes of the network that have a place in the rank order.
pub fn rank_order(alloc: Global, net: &Net) -> Result<RankOrder, AllocError>
    ensures order { IfOk result (λ coming. IsRankOrder net.now coming.order.items) }
    ensures come { IfOk result (λ coming. coming.come.items
        ≡ map (is_in coming.order.items) (places_of net.now)) }
    ensures short { IfOk result (λ coming. length coming.order.items ≤ length net.now.processes) }
{
    let feeders = all_feeders(alloc, net)?;
    let mut come = vec![in alloc; false; net.processes().len()]?;
    let mut order = Vec::new(alloc);
    while let Some(index) = first_ready(feeders.as_slice(), come.as_slice()) {
        come[index] = true;
        order.push(index)?;
    }
    Ok(RankOrder { order, come })
}
