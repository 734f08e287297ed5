//! The judgement on the packets of a region.
ghost use Rattle.std.specs.Prelude.{◌≡◌, ◌≤◌, List, length, IfOk, IfErr};
ghost use Rattle.fx_boxes.specs.Boxes.{Bounds, IsRegion};
ghost use Rattle.fx_tables.specs.Network.{Net};
ghost use Rattle.fx_tables.specs.Ranks.{IsNetwork};
ghost use Rattle.fx_tables.specs.declared.traffic.Crossing as of_crossing;
ghost use Rattle.fx_leaf.specs.Judgements as judgements;
ghost use Rattle.fx_leaf.specs.Leaves as leaves;
ghost use Rattle.fx_leaf.specs.Splits as splits;
ghost use Rattle.fx_leaf.specs.Tables as by_table;

use crate::leaf::{Counted, path_verdict};
use crate::path::PathFate;
use crate::regions::bounds_hold;
use crate::table::Scratch;
use crate::tables::Tables;
use crate::verdict::Fate;
use fx_boxes::Region;
use fx_elements::Axis;
use fx_tables::Crossing;

/// The judgement on the packets of a region that take a path.
#[derive(Clone, Copy, Debug, PartialEq, Eq)]
pub enum Judgement {
    /// A selection process, or the match of an aggregation that records of the packets reach, holds for only some of
    /// the packets. It has this bound strictly inside the region: values of the axis below `at`, and from `at` on.
    Cut {
        /// The axis on which the region may be split.
        axis: Axis,
        /// The least value of the upper part.
        at: u128,
    },
    /// Each packet is counted once, by exactly this selection process.
    Once(Counted),
    /// No packet is counted.
    Never,
    /// Each packet is counted more than once.
    Many,
    /// How often a packet is counted depends on the chosen destinations.
    Differing,
    /// Records of each packet can reach the report with a layout that doesn't refine the report's.
    Unassigned,
}

/// Judges the packets of a region that take a path: returns where to split the region, if something cuts it, or how
/// often each packet is counted. It combines `fate`, `never` and `cut` in one call, allocates nothing, and returns the
/// same whatever the scratch contained.
pub fn judge(
    scratch: &mut Scratch,
    tables: &Tables<'_>,
    path: &[Crossing],
    region: &Region,
) -> Judgement
    requires tables { by_table.AreTables tables.now }
    requires room { length tables.now.net.processes ≤ length scratch.old }
    ensures judged { judgements.IsJudged tables.now.net path.now region.now result }
    ensures size { length scratch.new ≡ length scratch.old }
{
    // Only for the prover: the bounds of a region hold.
    bounds_hold(region);
    judgement_of(path_verdict(scratch, tables, path, region))
}

/// Returns the judgement that follows from what is known.
pub(crate) fn judgement_of(known: Result<PathFate, (Axis, u128)>) -> Judgement
    ensures { (net : Net) (path : List of_crossing.Crossing) (region : Bounds) → IsNetwork net
        → IsRegion region → IfOk known (leaves.IsPathFate net path region)
        → IfErr known (λ s. splits.IsSplit net path region s.0 s.1)
        → judgements.IsJudged net path region result }
{
    let known = match known {
        Ok(known) => known,
        Err((axis, at)) => return Judgement::Cut { axis, at },
    };
    match known.fate {
        Fate::Once => match known.counted {
            Some(counted) => Judgement::Once(counted),
            // Packets that are counted once have a counter.
            None => Judgement::Never,
        },
        Fate::Never => Judgement::Never,
        Fate::Many => Judgement::Many,
        Fate::Differing => Judgement::Differing,
        Fate::Unassigned => Judgement::Unassigned,
    }
}
