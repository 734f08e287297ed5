//! Selection processes.
ghost use Rattle.fx_config.specs.SelectionProcesses.{selection_process_faults, selection_process_of};

use crate::entry_name::entry_name;
use crate::limits::SELECTORS;
use crate::selector::{Selector, SelectorReader};
use fx_base::{Fault, Name};
use fx_walk::{
    DocumentPath, Entry, NameReader, Named, Names, Sequence, entries_member, optional_member,
};
use serde_json::Value;
use std::alloc::Global;

/// A process that selects packets and passes them to a cache (RFC 6728, section 4.2).
#[derive(Debug, Drop)]
pub struct SelectionProcess {
    /// Its name, unique among the selection processes of the device.
    pub name: Name,
    /// The steps that a packet has to pass, in order, at least one.
    pub selectors: Sequence<Selector>,
    /// The name of the cache that is given the selected packets. Without a cache they go nowhere.
    pub cache: Option<Name>,
}

impl Named for SelectionProcess {
    ghost name = { λ process. process.name };

    fn name(&self) -> &Name {
        &self.name
    }
}

/// A reader of selection processes.
pub(crate) struct SelectionProcessReader;

impl Entry for SelectionProcessReader {
    type Read = SelectionProcess;

    ghost faults = { selection_process_faults };

    ghost meaning = { selection_process_of };

    ghost name = { λ process. process.name };

    fn from_entry(
        alloc: Global,
        path: &DocumentPath<'_>,
        value: &Value,
        earlier: &mut Names,
    ) -> Result<SelectionProcess, Fault> {
        let name = entry_name(alloc, path, value, &["name", "selector", "cache"], earlier)?;
        let selectors = entries_member::<SelectorReader>(
            alloc, path, value, "selector", 1, SELECTORS,
        )?;
        let cache = optional_member::<NameReader>(alloc, path, value, "cache")?;
        Ok(SelectionProcess {
            name,
            selectors,
            cache,
        })
    }
}
