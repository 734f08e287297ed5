//! Collecting processes.
ghost use Rattle.fx_config.specs.CollectingProcesses.{collecting_process_faults, collecting_process_of};

use crate::aggregation::{Aggregation, AggregationReader};
use crate::entry_name::entry_name;
use crate::limits::ENTRIES;
use fx_base::{Fault, Name, refusals};
use fx_walk::{
    DocumentPath, Entry, NameReader, Named, Names, Refused, Sequence, entries_member, none_of,
};
use serde_json::Value;
use std::alloc::Global;

/// A process that receives records (RFC 6728, section 4.5).
#[derive(Debug, Drop)]
pub struct CollectingProcess {
    /// Its name, unique among the collecting processes of the device.
    pub name: Name,
    /// The names of the exporting processes that are given all records, each once.
    pub exporting_processes: Sequence<Name>,
    /// Its aggregations, in document order.
    pub aggregations: Sequence<Aggregation>,
}

impl Named for CollectingProcess {
    ghost name = { λ process. process.name };

    fn name(&self) -> &Name {
        &self.name
    }
}

/// A reader of collecting processes.
pub(crate) struct CollectingProcessReader;

impl Entry for CollectingProcessReader {
    type Read = CollectingProcess;

    ghost faults = { collecting_process_faults };

    ghost meaning = { collecting_process_of };

    ghost name = { λ process. process.name };

    fn from_entry(
        alloc: Global,
        path: &DocumentPath<'_>,
        value: &Value,
        earlier: &mut Names,
    ) -> Result<CollectingProcess, Fault> {
        let name = entry_name(
            alloc,
            path,
            value,
            &[
                "name",
                "fileReader",
                "tcpCollector",
                "sctpCollector",
                "udpCollector",
                "exportingProcess",
                "once-audit:aggregation",
            ],
            earlier,
        )?;
        let files = Refused {
            name: "fileReader",
            number: refusals::FILE_TRANSPORT,
        };
        none_of(alloc, path, value, &[files])?;
        let processes = entries_member::<NameReader>(
            alloc,
            path,
            value,
            "exportingProcess",
            0,
            ENTRIES,
        )?;
        let aggregations = entries_member::<AggregationReader>(
            alloc,
            path,
            value,
            "once-audit:aggregation",
            0,
            ENTRIES,
        )?;
        Ok(CollectingProcess {
            name,
            exporting_processes: processes,
            aggregations,
        })
    }
}
