//! Exporting processes.
ghost use Rattle.fx_config.specs.ExportingProcesses.{export_mode_named, exporting_process_faults, exporting_process_of};
ghost use Rattle.fx_config.specs.declared.exporting_process.ExportMode.TheVariants.{Parallel};

use crate::destination::{Destination, DestinationReader};
use crate::entry_name::entry_name;
use crate::limits::ENTRIES;
use fx_base::{Fault, Name};
use fx_walk::{DocumentPath, Entry, Named, Names, Sequence, Word, entries_member, word_member};
use serde_json::Value;
use std::alloc::Global;

/// Which of its destinations an exporting process sends a record to (RFC 6728, section 4.4).
#[derive(Clone, Copy, Debug, PartialEq, Eq)]
pub enum ExportMode {
    /// All of them.
    Parallel,
    /// Any one of them.
    LoadBalancing,
    /// Any one of them: the first that works.
    Fallback,
}

/// Reads a mode by its name, with or without the prefix of the module. The default is parallel.
impl Word for ExportMode {
    ghost meaning_of = { export_mode_named };

    ghost meaning_unsaid = { Parallel };

    fn meaning_of(text: &str) -> Option<ExportMode> {
        match text {
            "parallel" | "ietf-ipfix-psamp:parallel" => Some(ExportMode::Parallel),
            "loadBalancing" | "ietf-ipfix-psamp:loadBalancing" => Some(ExportMode::LoadBalancing),
            "fallback" | "ietf-ipfix-psamp:fallback" => Some(ExportMode::Fallback),
            _ => None,
        }
    }

    fn meaning_unsaid() -> ExportMode {
        ExportMode::Parallel
    }
}

/// A process that sends the records it is given to its destinations (RFC 6728, section 4.4).
#[derive(Debug, Drop)]
pub struct ExportingProcess {
    /// Its name, unique among the exporting processes of the device.
    pub name: Name,
    /// Which of its destinations it sends a record to.
    pub mode: ExportMode,
    /// Its destinations, in document order, at least one.
    pub destinations: Sequence<Destination>,
}

impl Named for ExportingProcess {
    ghost name = { λ process. process.name };

    fn name(&self) -> &Name {
        &self.name
    }
}

/// A reader of exporting processes.
pub(crate) struct ExportingProcessReader;

impl Entry for ExportingProcessReader {
    type Read = ExportingProcess;

    ghost faults = { exporting_process_faults };

    ghost meaning = { exporting_process_of };

    ghost name = { λ process. process.name };

    fn from_entry(
        alloc: Global,
        path: &DocumentPath<'_>,
        value: &Value,
        earlier: &mut Names,
    ) -> Result<ExportingProcess, Fault> {
        let name = entry_name(
            alloc,
            path,
            value,
            &["name", "exportMode", "destination", "options"],
            earlier,
        )?;
        let mode = word_member(alloc, path, value, "exportMode")?;
        let destinations = entries_member::<DestinationReader>(
            alloc,
            path,
            value,
            "destination",
            1,
            ENTRIES,
        )?;
        Ok(ExportingProcess {
            name,
            mode,
            destinations,
        })
    }
}
