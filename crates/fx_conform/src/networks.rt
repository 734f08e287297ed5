//! Laws of the tables of a plan's network.
ghost use Rattle.fx_plan.specs.Tables.{net_of};
ghost use Rattle.fx_conform.specs.Conforming.{IsSound};
ghost use Rattle.fx_conform.specs.Sendable.{HaveLayouts};

use fx_plan::Plan;
use fx_tables::Holder;

/// Shows that each holder has a layout.
fn have_layouts(holders: &[Holder])
    ensures { HaveLayouts holders.now }
{
    for holder in holders {
        // This gives the prover what a layout keeps.
        let _parts = holder.layout().parts();
    }
}

/// Shows that the network of a plan has what the law of whole runs requires: ranks, layouts that fit, no record that is
/// stuck, and no link that leads nowhere.
pub fn plans_are_sound(plan: &Plan)
    ensures { IsSound (net_of plan.now) }
{
    let net = plan.net();
    // This gives the prover what a plan's order of ranks is.
    let _ranked = plan.upwards();
    have_layouts(net.holders());
}
