//! The aggregations of a collecting process that take in a record.
ghost use Rattle.std.specs.Prelude.{◌≡◌, ◌++◌, ◌&&◌, ◌==◌, IfOk, OnOk};
ghost use Rattle.std.specs.List.{list_all};
ghost use Rattle.fx_layout.specs.Keys as keys;
ghost use Rattle.fx_tables.specs.Takers.{intake_of, intakes};

use crate::aggregation::{AggregationEntry, MatchEntry};
use crate::holder::Holder;
use crate::holding::Holding;
use crate::lookup::layout_at;
use crate::net::Net;
use crate::process::Process;
use fx_layout::Key;
use std::alloc::{AllocError, Global};

/// Returns whether the key's leading bits have the value of this entry.
fn matches_entry(key: &Key, entry: &MatchEntry) -> bool
    ensures { result ≡ (keys.reads key.now.layout entry.now.axis entry.now.bits
        && keys.bits_on key.now entry.now.axis entry.now.bits == entry.now.value) }
{
    key.layout().reads(entry.axis, entry.bits) && key.bits_on(entry.axis, entry.bits) == entry.value
}

/// Returns whether the key's leading bits have the values of all these entries.
fn matches(key: &Key, entries: &[MatchEntry]) -> bool
    ensures { result ≡ list_all (λ e. keys.reads key.now.layout e.axis e.bits
        && keys.bits_on key.now e.axis e.bits == e.value) entries.now }
{
    for entry in entries {
        if !matches_entry(key, entry) {
            return false;
        }
    }
    true
}

/// Appends the aggregation with the projected key, if it takes the key.
fn push_intake(
    holdings: &mut Vec<Holding>,
    holders: &[Holder],
    key: &Key,
    aggregation: &AggregationEntry,
) -> Result<(), AllocError>
    ensures { OnOk result (holdings.new.items
        ≡ holdings.old.items ++ intake_of holders.now key.now aggregation.now) }
{
    if let Some(projected) = key.project(&layout_at(holders, aggregation.holder)) {
        if matches(key, aggregation.matches.as_slice()) {
            holdings.push(Holding {
                holder: aggregation.holder,
                key: projected,
            })?;
        }
    }
    Ok(())
}

/// Returns the aggregations that take the key, with the projected keys.
fn intakes_of(
    alloc: Global,
    holders: &[Holder],
    key: &Key,
    aggregations: &[AggregationEntry],
) -> Result<Vec<Holding>, AllocError>
    ensures { IfOk result (λ holdings. holdings.items
        ≡ intakes holders.now key.now aggregations.now) }
{
    let mut holdings: Vec<Holding> = Vec::new(alloc);
    for aggregation in aggregations {
        push_intake(&mut holdings, holders, key, aggregation)?;
    }
    Ok(holdings)
}

impl Net {
    /// Returns the aggregations of a collecting process that take in a record with this key, each with the record's key
    /// there, in the order of the process (RFC 7015). Fails only if out of memory.
    pub fn takers(
        &self,
        alloc: Global,
        process: &Process,
        key: &Key,
    ) -> Result<Vec<Holding>, AllocError>
        ensures { IfOk result (λ holdings. holdings.items
            ≡ intakes self.now.holders key.now process.now.aggregations) }
    {
        intakes_of(alloc, self.holders(), key, process.aggregations())
    }
}
