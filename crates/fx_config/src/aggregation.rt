//! Aggregations of collecting processes.
ghost use Rattle.fx_config.specs.Aggregations.{aggregation_faults, aggregation_of};

use crate::entry_name::entry_name;
use crate::key::key_member;
use crate::limits::ENTRIES;
use crate::property_match::{PropertyMatch, PropertyMatchReader};
use fx_base::{Fault, Name};
use fx_layout::Layout;
use fx_walk::{
    DocumentPath, Entry, NameReader, Named, Names, Sequence, entries_member, items_member,
};
use serde_json::Value;
use std::alloc::Global;

/// An aggregation of received records by a coarser key (RFC 7015), which sums their counters.
#[derive(Debug, Drop)]
pub struct Aggregation {
    /// Its name, unique among the aggregations of the process.
    pub name: Name,
    /// The key of its records.
    pub key: Layout,
    /// The values that a record must have to be aggregated, all of them.
    pub matches: Sequence<PropertyMatch>,
    /// The names of the exporting processes that are given its records, each once.
    pub exporting_processes: Sequence<Name>,
}

impl Named for Aggregation {
    ghost name = { λ aggregation. aggregation.name };

    fn name(&self) -> &Name {
        &self.name
    }
}

/// A reader of aggregations.
pub(crate) struct AggregationReader;

impl Entry for AggregationReader {
    type Read = Aggregation;

    ghost faults = { aggregation_faults };

    ghost meaning = { aggregation_of };

    ghost name = { λ aggregation. aggregation.name };

    fn from_entry(
        alloc: Global,
        path: &DocumentPath<'_>,
        value: &Value,
        earlier: &mut Names,
    ) -> Result<Aggregation, Fault> {
        let name = entry_name(
            alloc,
            path,
            value,
            &["name", "key", "match", "exportingProcess"],
            earlier,
        )?;
        let key = key_member(alloc, path, value)?;
        let matches = items_member::<PropertyMatchReader>(alloc, path, value, "match", 0, ENTRIES)?;
        let processes = entries_member::<NameReader>(
            alloc,
            path,
            value,
            "exportingProcess",
            0,
            ENTRIES,
        )?;
        Ok(Aggregation {
            name,
            key,
            matches,
            exporting_processes: processes,
        })
    }
}
