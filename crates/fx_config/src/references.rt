//! References within a device's configuration.
ghost use Rattle.fx_walk.specs.Pointer.{pointer};
ghost use Rattle.fx_walk.specs.Walk.{Reads};
ghost use Rattle.fx_config.specs.References.{aggregation_references, cache_references, collecting_references, exporting_references, point_references, process_references};

use crate::aggregation::Aggregation;
use crate::cache::Cache;
use crate::collecting_process::CollectingProcess;
use crate::observation_point::ObservationPoint;
use crate::selection_process::SelectionProcess;
use fx_base::{Fault, Name};
use fx_walk::{DocumentPath, Names, Refers, Sequence, items_refer};
use std::alloc::Global;

/// An observation point names selection processes.
impl Refers for ObservationPoint {
    ghost faults = { point_references };

    fn refers(
        &self,
        alloc: Global,
        path: &DocumentPath<'_>,
        processes: &Names,
    ) -> Result<(), Fault> {
        let names = &self.selection_processes;
        items_refer(alloc, path, "selectionProcess", names, processes)
    }
}

/// A selection process may name a cache.
impl Refers for SelectionProcess {
    ghost faults = { process_references };

    fn refers(&self, alloc: Global, path: &DocumentPath<'_>, caches: &Names) -> Result<(), Fault> {
        match &self.cache {
            Some(cache) => cache.refers(alloc, &DocumentPath::Member(path, "cache"), caches),
            None => Ok(()),
        }
    }
}

/// Refuses the first exporting process that the object at the path names and that does not exist (107).
fn exporting_refer(
    alloc: Global,
    path: &DocumentPath<'_>,
    names: &Sequence<Name>,
    exporters: &Names,
) -> Result<(), Fault>
    ensures { Reads (exporting_references exporters.now (pointer path.now) names.now) tt result }
{
    items_refer(alloc, path, "exportingProcess", names, exporters)
}

/// A cache names exporting processes.
impl Refers for Cache {
    ghost faults = { cache_references };

    fn refers(
        &self,
        alloc: Global,
        path: &DocumentPath<'_>,
        exporters: &Names,
    ) -> Result<(), Fault> {
        exporting_refer(alloc, path, &self.exporting_processes, exporters)
    }
}

/// An aggregation names exporting processes.
impl Refers for Aggregation {
    ghost faults = { aggregation_references };

    fn refers(
        &self,
        alloc: Global,
        path: &DocumentPath<'_>,
        exporters: &Names,
    ) -> Result<(), Fault> {
        exporting_refer(alloc, path, &self.exporting_processes, exporters)
    }
}

/// A collecting process names exporting processes, and its aggregations, checked next, do so too.
impl Refers for CollectingProcess {
    ghost faults = { collecting_references };

    fn refers(
        &self,
        alloc: Global,
        path: &DocumentPath<'_>,
        exporters: &Names,
    ) -> Result<(), Fault> {
        exporting_refer(alloc, path, &self.exporting_processes, exporters)?;
        let items = &self.aggregations;
        items_refer(alloc, path, "once-audit:aggregation", items, exporters)
    }
}
