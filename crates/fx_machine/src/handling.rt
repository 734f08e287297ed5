//! Handling of records by collecting processes.
ghost use Rattle.std.specs.Prelude.{◌≡◌, IfOk, slice_get};
ghost use Rattle.fx_machine.specs.Handling as handling;
ghost use Rattle.fx_machine.specs.Steps as steps;

use fx_base::entry_at;
use fx_layout::Key;
use fx_tables::{Holding, Net};
use std::alloc::{AllocError, Global};

/// How a collecting process handles a record: whether it is tallied, the indices of the exporting processes that send
/// it, and the aggregations that take it in.
#[derive(Drop)]
pub struct Handling<'a> {
    pub tallies: bool,
    pub exporters: &'a [usize],
    pub holdings: Vec<Holding>,
}

/// Returns how a record with this key that leaves the link at this index is handled.
pub fn handling_at<'a>(
    alloc: Global,
    net: &'a Net,
    link: usize,
    key: &Key,
) -> Result<Handling<'a>, AllocError>
    ensures { IfOk result (λ h. steps.acts_of_arrival net.now key.now (slice_get net.now.links link)
        ≡ handling.handling_acts net.now key.now h.tallies h.exporters.now h.holdings.items) }
{
    let Some(index) = entry_at(net.links(), link) else {
        return Ok(Handling {
            tallies: false,
            exporters: &[],
            holdings: Vec::new(alloc),
        });
    };
    let tallies = *index == net.report();
    let Some(process) = entry_at(net.processes(), *index) else {
        return Ok(Handling {
            tallies,
            exporters: &[],
            holdings: Vec::new(alloc),
        });
    };
    let holdings = net.takers(alloc, process, key)?;
    Ok(Handling {
        tallies,
        exporters: process.exporters(),
        holdings,
    })
}
