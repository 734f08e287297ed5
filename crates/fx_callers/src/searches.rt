//! Deciding whether declared traffic is counted exactly once.
ghost use Rattle.std.specs.Prelude.{◌≡◌, true, false, IfOk};
ghost use Rattle.fx_machine.specs.Claim.{ExactlyOnce};
ghost use Rattle.fx_plan.specs.Tables.{net_of};

use fx_base::Fault;
use fx_plan::Plan;
use fx_search::{Found, Unwatched, search};
use fx_traffic::Traffic;
use std::alloc::Global;

/// Returns whether each packet of the traffic is counted exactly once in the network.
///
/// Fails with 601 if the search needs too much, and with 900 if out of memory.
pub fn counts_once(alloc: Global, plan: &Plan, traffic: &Traffic) -> Result<bool, Fault>
    ensures { IfOk result (λ once. (once ≡ true → ExactlyOnce (net_of plan.now) traffic.now)
        × (once ≡ false → ExactlyOnce (net_of plan.now) traffic.now → ⊥)) }
{
    match search(alloc, plan, traffic, 1_000_000, &mut Unwatched)? {
        Found::Certificate(_) => Ok(true),
        Found::Refutation(_) => Ok(false),
    }
}
