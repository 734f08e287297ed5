//! The place, in the table of exporting processes, of one that is given by numbers.
ghost use Rattle.std.specs.Prelude.{◌≡◌, IfOk};
ghost use Rattle.fx_plan.specs.ExporterPlaces.{exporter_place};

use crate::labels::{labels_of, place};
use crate::plan::Plan;
use fx_base::entry_numbered;
use fx_config::ExportingProcess;
use std::alloc::{AllocError, Global};

impl Plan {
    /// Returns the 0-based place of an exporting process in the network's table, given its number on its device and the
    /// number of the device, both 1-based in document order. Returns `None` if there is no such device or process.
    /// Fails if out of memory.
    pub fn exporter_place(
        &self,
        alloc: Global,
        device: u64,
        exporter: u64,
    ) -> Result<Option<usize>, AllocError>
        ensures { IfOk result (λ place. place ≡ exporter_place self.now device exporter) }
    {
        let devices = self.network().devices.as_slice();
        let Some(named) = entry_numbered(devices, device) else {
            return Ok(None);
        };
        let processes = named.config.exporting_processes.as_slice();
        let Some(process) = entry_numbered(processes, exporter) else {
            return Ok(None);
        };
        let labels = labels_of::<ExportingProcess>(alloc, devices)?;
        Ok(Some(place(&labels, &named.name, &process.name)))
    }
}
