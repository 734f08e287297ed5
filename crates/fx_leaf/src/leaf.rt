//! The leaf that is sound for a region on a path.
ghost use Rattle.std.specs.Prelude.{◌≡◌, ◌≤◌, ℕ, length, IfOk, IfErr, OnOk, Ok, Err, Some, None};
ghost use Rattle.fx_leaf.specs.Leaves as leaves;
ghost use Rattle.fx_leaf.specs.SoundLeaves as sound_leaves;
ghost use Rattle.fx_leaf.specs.Splits as splits;
ghost use Rattle.fx_leaf.specs.Tables as by_table;
ghost use Rattle.fx_leaf.specs.Verdicts as verdicts;

use crate::path::{PathFate, PathReader};
use crate::regions::bounds_hold;
use crate::rows::prepare;
use crate::table::{Scratch, VerdictRow, Verdicts};
use crate::tables::Tables;
use crate::verdict::Fate;
use fx_base::{Fault, refusals};
use fx_boxes::Region;
use fx_elements::Axis;
use fx_tables::Crossing;

/// The selection process that counts the packets of a leaf, by 1-based numbers: of its crossing on the path, of its
/// observation point on the crossing's device, and of the process at the point.
#[derive(Clone, Copy, Debug, PartialEq, Eq)]
pub struct Counted {
    /// The number of the crossing on the path.
    pub crossing: u64,
    /// The number of the observation point on the crossing's device.
    pub point: u64,
    /// The number of the selection process at its point.
    pub process: u64,
}

/// Returns the fault of packets that must be counted once and have this fate instead.
fn fault_of(fate: Fate) -> Fault
    ensures { result ≡ leaves.fault_of (Some fate) }
{
    match fate {
        Fate::Unassigned => Fault::bare(refusals::UNASSIGNED_RECORD),
        Fate::Differing => Fault::bare(refusals::DESTINATIONS_DIFFER),
        Fate::Many => Fault::bare(refusals::COUNTED_MORE_THAN_ONCE),
        Fate::Never | Fate::Once => Fault::bare(refusals::NEVER_COUNTED),
    }
}

/// Returns the leaf that is sound by what is known, or why there is none.
pub(crate) fn leaf_of(known: Result<PathFate, (Axis, u128)>) -> Result<Counted, Fault>
    ensures ok { IfOk known (λ t. result ≡ leaves.leaf_of (Some t.fate) t.counted) }
    ensures err { IfErr known (λ s. result ≡ Err (leaves.fault_of None)) }
{
    match known {
        Ok(known) => match known.fate {
            Fate::Once => known.counted.ok_or(Fault::bare(refusals::NEVER_COUNTED)),
            fate => Err(fault_of(fate)),
        },
        Err(_) => Err(Fault::bare(refusals::CUT_REGION)),
    }
}

/// Checks whether no packet is counted by what is known, and fails with the reason otherwise.
pub(crate) fn never_of(known: Result<PathFate, (Axis, u128)>) -> Result<(), Fault>
    ensures ok { IfOk known (λ t. result ≡ leaves.never_of (Some t.fate)) }
    ensures err { IfErr known (λ s. result ≡ Err (leaves.fault_of None)) }
{
    match known {
        Ok(known) => match known.fate {
            Fate::Never => Ok(()),
            Fate::Once => Err(Fault::bare(refusals::EXEMPT_COUNTED)),
            fate => Err(fault_of(fate)),
        },
        Err(_) => Err(Fault::bare(refusals::CUT_REGION)),
    }
}

/// Returns the verdict on the packets of a region that take a path, or a bound of what cuts the region, given room for
/// exactly the collecting processes of these tables.
fn path_verdict_in_room(
    rows: &mut [VerdictRow],
    marks: &mut [u64],
    tables: &Tables<'_>,
    path: &[Crossing],
    region: &Region,
) -> Result<PathFate, (Axis, u128)>
    requires tables { by_table.AreTables tables.now }
    requires size { length rows.old ≡ length tables.now.net.processes }
    requires marks { length marks.old ≡ length tables.now.net.processes }
    ensures ok { IfOk result (leaves.IsPathFate tables.now.net path.now region.now) }
    ensures err { IfErr result (λ s. splits.IsSplit tables.now.net path.now region.now s.0 s.1) }
{
    // Only for the prover: the bounds of a region hold.
    bounds_hold(region);
    prepare(rows, marks, tables, path, region);
    let verdicts = Verdicts {
        tables,
        rows,
        region,
        matches: &[],
    };
    let reader = PathReader { verdicts, marks };
    reader.path(path)
}

/// Returns the verdict on the packets of a region that take a path, or a bound of what cuts it, given any room that is
/// large enough.
fn path_verdict_in_larger_room(
    rows: &mut Vec<VerdictRow>,
    marks: &mut Vec<u64>,
    tables: &Tables<'_>,
    path: &[Crossing],
    region: &Region,
) -> Result<PathFate, (Axis, u128)>
    requires tables { by_table.AreTables tables.now }
    requires size { length tables.now.net.processes ≤ length rows.old.items }
    requires marks { length tables.now.net.processes ≤ length marks.old.items }
    ensures ok { IfOk result (leaves.IsPathFate tables.now.net path.now region.now) }
    ensures err { IfErr result (λ s. splits.IsSplit tables.now.net path.now region.now s.0 s.1) }
    ensures size { length rows.new.items ≡ length rows.old.items }
    ensures marks { length marks.new.items ≡ length marks.old.items }
{
    let count = tables.net().processes().len();
    path_verdict_in_room(
        &mut rows[..count],
        &mut marks[..count],
        tables,
        path,
        region,
    )
}

/// Returns the verdict on the packets of a region that take a path, or a bound of what cuts it, computed in a scratch.
pub(crate) fn path_verdict(
    scratch: &mut Scratch,
    tables: &Tables<'_>,
    path: &[Crossing],
    region: &Region,
) -> Result<PathFate, (Axis, u128)>
    requires tables { by_table.AreTables tables.now }
    requires room { length tables.now.net.processes ≤ length scratch.old }
    ensures ok { IfOk result (leaves.IsPathFate tables.now.net path.now region.now) }
    ensures err { IfErr result (λ s. splits.IsSplit tables.now.net path.now region.now s.0 s.1) }
    ensures size { length scratch.new ≡ length scratch.old }
{
    path_verdict_in_larger_room(&mut scratch.rows, &mut scratch.marks, tables, path, region)
}

/// Returns the leaf that is sound for the packets of a region that take a path: the one selection process that counts
/// each of them. It allocates nothing, and returns the same whatever the scratch contained.
///
/// Fails with 406 if a selection process, or the match of an aggregation that records of the packets reach, holds for
/// only some of the packets; else with 413 if records can reach the report under a layout that doesn't refine the
/// report's, with 409 if the destinations of a choice differ, with 408 if packets are counted more than once, and with
/// 407 if they aren't counted.
pub fn fate(
    scratch: &mut Scratch,
    tables: &Tables<'_>,
    path: &[Crossing],
    region: &Region,
) -> Result<Counted, Fault>
    requires tables { by_table.AreTables tables.now }
    requires room { length tables.now.net.processes ≤ length scratch.old }
    // The leaf is sound.
    ensures sound { IfOk result (λ c. sound_leaves.SoundLeaf tables.now.net path.now region.now
        c.crossing c.point c.process) }
    // A leaf is returned whenever one is sound, and no other leaf is sound.
    ensures every { (crossing point process : ℕ)
        → sound_leaves.SoundLeaf tables.now.net path.now region.now crossing point process
        → result ≡ Ok (record { crossing = crossing; point = point; process = process }) }
    ensures none { IfErr result (λ e. leaves.NoneIsSound tables.now.net path.now region.now e) }
    ensures answer { result ≡ leaves.path_leaf tables.now.net path.now region.now }
    ensures size { length scratch.new ≡ length scratch.old }
{
    // Only for the prover: the bounds of a region hold.
    bounds_hold(region);
    leaf_of(path_verdict(scratch, tables, path, region))
}

/// Checks whether none of the packets of a region that take a path is counted, as is required of exempt packets. It
/// allocates nothing, and returns the same whatever the scratch contained.
///
/// Fails with 406, 413, 409 and 408 like `fate`, and with 415 if each packet is counted once.
pub fn never(
    scratch: &mut Scratch,
    tables: &Tables<'_>,
    path: &[Crossing],
    region: &Region,
) -> Result<(), Fault>
    requires tables { by_table.AreTables tables.now }
    requires room { length tables.now.net.processes ≤ length scratch.old }
    // It is Ok exactly if the leaf that says so is sound.
    ensures sound { OnOk result (sound_leaves.SoundNever tables.now.net path.now region.now) }
    ensures every { sound_leaves.SoundNever tables.now.net path.now region.now → result ≡ Ok tt }
    ensures none { IfErr result (λ e. leaves.NeverIsUnsound tables.now.net path.now region.now e) }
    ensures answer { result ≡ leaves.never_of
        (verdicts.path_verdict tables.now.net region.now path.now) }
    ensures size { length scratch.new ≡ length scratch.old }
{
    // Only for the prover: the bounds of a region hold.
    bounds_hold(region);
    never_of(path_verdict(scratch, tables, path, region))
}
