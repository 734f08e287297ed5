//! Tallying of records.
ghost use Rattle.std.specs.Prelude.{◌≡◌, ◌%◌, ◌^◌, ℕ, length, IfSome, IfNone, OnOk, OnErr};
ghost use Rattle.fx_machine.specs.Places as places;
ghost use Rattle.fx_machine.specs.Sends as sends;
ghost use Rattle.fx_machine.specs.States as states;
ghost use Rattle.fx_machine.specs.Tallies as sums;

use crate::records::Records;
use crate::sending::{put_all, take_all_back};
use fx_base::Counts;
use fx_layout::{Key, Layout};
use fx_tables::Record;
use std::alloc::AllocError;

/// Returns the first index of the key.
fn place_of(totals: &[Record], key: &Key) -> Option<usize>
    ensures some { IfSome result (λ n. places.FirstAt n totals.now key.now) }
    ensures none { IfNone result (places.NoneBefore (length totals.now) totals.now key.now) }
{
    for index in 0..totals.len() {
        if totals[index].key.same(key) {
            return Some(index);
        }
    }
    None
}

/// Adds the counts at the key, or appends the key with them if it is new.
fn add_at(totals: &mut Vec<Record>, key: Key, counts: &Counts) -> Result<(), AllocError>
    ensures ok { OnOk result (totals.new.items ≡ states.add_at totals.old.items key counts.now) }
    ensures err { OnErr result (totals.new.items ≡ totals.old.items) }
{
    if let Some(index) = place_of(totals, &key) {
        let total = &mut totals[index];
        total.counts = total.counts.add(counts);
        return Ok(());
    }
    totals.push(Record {
        key,
        counts: *counts,
    })?;
    Ok(())
}

/// Tallies a record under the projected key, or counts it as unassigned if its layout doesn't refine the report's.
pub fn tally(
    totals: &mut Vec<Record>,
    unassigned: &mut u64,
    layout: &Layout,
    entry: &Record,
) -> Result<(), AllocError>
    ensures ok { OnOk result ((totals.new.items
        ≡ sums.totals_with layout.now entry.now.key entry.now.counts totals.old.items)
        × ((u : ℕ) → unassigned.old ≡ u % 2 ^ 64
        → unassigned.new ≡ sums.unassigned_with layout.now entry.now.key u % 2 ^ 64)) }
    ensures err { OnErr result ((totals.new.items ≡ totals.old.items)
        × (unassigned.new ≡ unassigned.old)) }
{
    match entry.key.project(layout) {
        Some(key) => add_at(totals, key, &entry.counts)?,
        None => *unassigned = unassigned.wrapping_add(1),
    }
    Ok(())
}

/// Tallies a record, if it is to be tallied.
pub fn tally_if(
    tallies: bool,
    totals: &mut Vec<Record>,
    unassigned: &mut u64,
    layout: &Layout,
    entry: &Record,
) -> Result<(), AllocError>
    ensures ok { OnOk result ((totals.new.items
        ≡ sums.totals_when tallies layout.now entry.now.key entry.now.counts totals.old.items)
        × ((u : ℕ) → unassigned.old ≡ u % 2 ^ 64
        → unassigned.new ≡ sums.unassigned_when tallies layout.now entry.now.key u % 2 ^ 64)) }
    ensures err { OnErr result ((totals.new.items ≡ totals.old.items)
        × (unassigned.new ≡ unassigned.old)) }
{
    if tallies {
        tally(totals, unassigned, layout, entry)?;
    }
    Ok(())
}

/// Appends a record to each of these links and tallies it, if it is to be tallied, or does neither.
pub fn send_and_tally(
    carried: &mut Vec<Records>,
    totals: &mut Vec<Record>,
    unassigned: &mut u64,
    links: &[usize],
    tallies: bool,
    layout: &Layout,
    entry: &Record,
) -> Result<(), AllocError>
    ensures ok { OnOk result ((carried.new.items
        ≡ sends.put_all links.now entry.now carried.old.items)
        × (totals.new.items ≡ sums.totals_when tallies layout.now entry.now.key entry.now.counts
        totals.old.items)
        × ((u : ℕ) → unassigned.old ≡ u % 2 ^ 64
        → unassigned.new ≡ sums.unassigned_when tallies layout.now entry.now.key u % 2 ^ 64)) }
    ensures err { OnErr result ((carried.new.items ≡ carried.old.items)
        × (totals.new.items ≡ totals.old.items) × (unassigned.new ≡ unassigned.old)) }
{
    put_all(carried, links, entry)?;
    if let Err(error) = tally_if(tallies, totals, unassigned, layout, entry) {
        take_all_back(carried, links, entry);
        return Err(error);
    }
    Ok(())
}
