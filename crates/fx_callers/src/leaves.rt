//! Where the packets of a region are counted.
ghost use Rattle.std.specs.Prelude.{◌≡◌, IfOk};
ghost use Rattle.fx_leaf.specs.SoundLeaves.{SoundLeaf};
ghost use Rattle.fx_plan.specs.Tables.{net_of};

use fx_base::Fault;
use fx_boxes::Region;
use fx_check::tables_of;
use fx_leaf::{Counted, Scratch, fate};
use fx_plan::Plan;
use fx_tables::Crossing;
use std::alloc::Global;

/// Returns the one occurrence at which each packet of a region that takes a path is counted.
///
/// Fails as [`fate`] does, and with 900 if out of memory.
pub fn leaf_of(
    alloc: Global,
    plan: &Plan,
    path: &[Crossing],
    region: &Region,
) -> Result<Counted, Fault>
    ensures { IfOk result (λ c. SoundLeaf (net_of plan.now) path.now region.now
        c.crossing c.point c.process) }
{
    let tables = tables_of(plan);
    let mut scratch = Scratch::new(alloc, &tables)?;
    fate(&mut scratch, &tables, path, region)
}
