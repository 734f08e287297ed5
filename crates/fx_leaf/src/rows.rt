//! Filling the marked rows, starting at the collecting processes of highest rank.
ghost use Rattle.std.specs.Prelude.{◌≡◌, ◌≢◌, ◌<◌, ℕ, length, slice_get};
ghost use Rattle.std.specs.Int.{bit_at};
ghost use Rattle.fx_leaf.specs.Reach as reach;
ghost use Rattle.fx_leaf.specs.Remaining.{AreAggregations};
ghost use Rattle.fx_leaf.specs.Tables as by_table;

use crate::reach::{mark, marks_at};
use crate::remaining::ProcessMatches;
use crate::table::{VerdictRow, Verdicts};
use crate::tables::Tables;
use crate::verdict::Fate;
use fx_boxes::Region;
use fx_tables::{Crossing, LAYOUTS};

/// Sets the entry for the collecting process at this index and the layout with this number.
fn set_entry(rows: &mut [VerdictRow], process: usize, number: usize, verdict: Option<Fate>)
    requires there { process < length rows.old }
    requires within { number < LAYOUTS }
    ensures set { by_table.entry rows.new process number ≡ verdict }
    ensures others { (q k : ℕ) → (q ≡ process → k ≡ number → ⊥)
        → by_table.entry rows.new q k ≡ by_table.entry rows.old q k }
{
    rows[process].set(number, verdict);
}

/// Fills the entries for these layouts, from the rows of the processes that this one feeds.
fn fill_row<'t>(
    rows: &mut [VerdictRow],
    layouts: u64,
    tables: &Tables<'t>,
    region: &Region,
    matches: &[ProcessMatches<'t>],
    process: usize,
)
    requires tables { by_table.AreTables tables.now }
    requires size { length rows.old ≡ length tables.now.net.processes }
    requires there { process < length rows.old }
    requires listed { AreAggregations tables.now.net.processes matches.now }
    requires right { let t = tables.now in
        let right = reach.IsVerdict t.net t.numbering region.now rows.old in
        (number : ℕ) → bit_at layouts number ≡ 1
        → reach.HoldsBehind t.net t.numbering right number (slice_get t.net.processes process) }
    ensures filled { let t = tables.now in
        (number : ℕ) → bit_at layouts number ≡ 1
        → reach.IsVerdict t.net t.numbering region.now rows.new process number }
    ensures others { (q number : ℕ) → q ≢ process
        → by_table.entry rows.new q number ≡ by_table.entry rows.old q number }
{
    let every = tables.layouts();
    for number in 0..every.len() {
        if (layouts >> number) & 1 == 1 {
            let verdicts = Verdicts {
                tables: &*tables,
                rows: &*rows,
                region: &*region,
                matches: &*matches,
            };
            let verdict = verdicts.entry_from(process, number, &every[number]);
            set_entry(rows, process, number, verdict);
        }
    }
}

/// Fills each marked entry after those of the processes that its own process feeds.
pub(crate) fn fill<'t>(
    rows: &mut [VerdictRow],
    marks: &[u64],
    tables: &Tables<'t>,
    region: &Region,
    matches: &[ProcessMatches<'t>],
)
    requires tables { by_table.AreTables tables.now }
    requires size { length rows.old ≡ length tables.now.net.processes }
    requires marks { length marks.now ≡ length tables.now.net.processes }
    requires closed { reach.IsClosed tables.now.net tables.now.numbering marks.now }
    requires listed { AreAggregations tables.now.net.processes matches.now }
    ensures { let t = tables.now in
        reach.IsFilled t.net t.numbering region.now marks.now rows.new }
{
    for process in tables.order() {
        let layouts = marks_at(marks, *process);
        if layouts != 0 {
            fill_row(rows, layouts, tables, region, matches, *process);
        }
    }
}

/// Marks and fills what the verdict on the packets that take a path is computed from.
pub(crate) fn prepare(
    rows: &mut [VerdictRow],
    marks: &mut [u64],
    tables: &Tables<'_>,
    path: &[Crossing],
    region: &Region,
)
    requires tables { by_table.AreTables tables.now }
    requires size { length rows.old ≡ length tables.now.net.processes }
    requires marks { length marks.old ≡ length tables.now.net.processes }
    ensures along { let t = tables.now in
        reach.HoldsAlongPath t.net t.numbering (reach.IsMarked marks.new) path.now }
    ensures filled { let t = tables.now in
        reach.IsFilled t.net t.numbering region.now marks.new rows.new }
{
    mark(marks, tables, path);
    fill(rows, marks, tables, region, &[]);
}
