//! Tables of a plan for judging leaves.
ghost use Rattle.std.specs.Prelude.{◌≡◌};
ghost use Rattle.fx_leaf.specs.Tables.{AreTables};
ghost use Rattle.fx_plan.specs.Tables.{net_of};

use fx_leaf::Tables;
use fx_plan::Plan;

/// Returns the network of a plan, with its layouts by number and the order in which its collecting processes are
/// judged, as [`fate`](fx_leaf::fate) and [`cut`](fx_leaf::cut) need them.
pub fn tables_of(plan: &Plan) -> Tables<'_>
    ensures tables { AreTables result }
    ensures net { result.net ≡ net_of plan.now }
{
    Tables::new(
        plan.net(),
        plan.downwards(),
        plan.layouts(),
        plan.layout_numbers(),
    )
}
