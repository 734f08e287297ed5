//! Judging of leaves.
ghost use Rattle.std.specs.Prelude.{◌≡◌, ◌≤◌, Some, None};
ghost use Rattle.fx_leaf.specs.PathSelections.{IsNarrowed};
ghost use Rattle.fx_leaf.specs.PathTables.{HasProcessRoom, IsPathBegun};
ghost use Rattle.fx_leaf.specs.Tables.{AreTables};
ghost use Rattle.fx_check.specs.Judging as of_judging;

use crate::stack::WaitingRegion;
use fx_base::refusals;
use fx_leaf::{Counted, PathScratch, Tables};
use fx_traffic::Target;

fn same_leaf(one: &Counted, other: &Counted) -> bool
    ensures { result ≡ of_judging.same_leaf one.now other.now }
{
    one.crossing == other.crossing && one.point == other.point && one.process == other.process
}

/// Returns the number of what is wrong with a leaf for a region of a target, if anything is: why no leaf is sound
/// there, or 410 if another one is.
pub(crate) fn leaf_fault<'t>(
    scratch: &mut PathScratch<'t>,
    tables: &Tables<'t>,
    target: &Target<'_>,
    here: &WaitingRegion,
    leaf: &Counted,
) -> Option<u16>
    requires tables { AreTables tables.now }
    requires room { HasProcessRoom tables.now scratch.old }
    requires narrowed { IsNarrowed scratch.old.selections here.now.region here.now.active }
    requires begun { IsPathBegun tables.now target.now.crossings scratch.old }
    ensures fault { result ≡ of_judging.judge_of tables.now.net target.now here.now.region
        (Some leaf.now) }
    ensures room { HasProcessRoom tables.now scratch.new }
    ensures kept { scratch.new.selections ≡ scratch.old.selections }
    ensures more { scratch.old.room ≤ scratch.new.room }
    ensures begun { IsPathBegun tables.now target.now.crossings scratch.new }
{
    match scratch.fate(tables, target.crossings, &here.region, here.active) {
        Err(e) => Some(e.number),
        Ok(counted) => {
            if same_leaf(&counted, leaf) {
                None
            } else {
                Some(refusals::COUNTED_ELSEWHERE)
            }
        }
    }
}

/// Returns the number of what is wrong with a leaf which says that no packet of a region of a target is counted, if
/// anything is.
pub(crate) fn never_fault<'t>(
    scratch: &mut PathScratch<'t>,
    tables: &Tables<'t>,
    target: &Target<'_>,
    here: &WaitingRegion,
) -> Option<u16>
    requires tables { AreTables tables.now }
    requires room { HasProcessRoom tables.now scratch.old }
    requires narrowed { IsNarrowed scratch.old.selections here.now.region here.now.active }
    requires begun { IsPathBegun tables.now target.now.crossings scratch.old }
    ensures fault { result ≡ of_judging.judge_of tables.now.net target.now here.now.region None }
    ensures room { HasProcessRoom tables.now scratch.new }
    ensures kept { scratch.new.selections ≡ scratch.old.selections }
    ensures more { scratch.old.room ≤ scratch.new.room }
    ensures begun { IsPathBegun tables.now target.now.crossings scratch.new }
{
    match scratch.never(tables, target.crossings, &here.region, here.active) {
        Err(e) => Some(e.number),
        Ok(()) => None,
    }
}
