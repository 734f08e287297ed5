//! The parts of networks: layouts, exporting and collecting processes, and holders of records.
ghost use Rattle.std.specs.Prelude.{◌≡◌, [], ◌∷◌, true, Some};
ghost use Rattle.fx_elements.specs.declared.axis.Axis.TheVariants as axis;

use fx_elements::Axis;
use fx_layout::Layout;
use fx_tables::{DeviceEntry, Exporter, Holder, Process};
use std::alloc::Global;
use std::process::Abort;

/// Returns the layout of this many leading bits of the source.
pub(crate) fn by_source(rt: &impl Abort, bits: u32) -> Layout
    ensures { result ≡ record { axis = axis.Source; bits = bits } ∷ [] }
{
    Layout::new()
        .with(Axis::Source, bits)
        .expect(rt, "a layout")
}

/// Returns an exporting process that sends everything to one destination.
pub(crate) fn exporter(rt: &impl Abort, alloc: Global, link: usize) -> Exporter
    ensures { result ≡ record { parallel = true; destinations = Some link ∷ [] } }
{
    Exporter::new(true, vec![in alloc; Some(link)].expect(rt, "memory"))
}

/// Returns a holder of records with this layout, which the exporting process at this index sends.
pub(crate) fn holder(rt: &impl Abort, alloc: Global, layout: &Layout, exporter: usize) -> Holder
    ensures { result ≡ record { layout = layout.now; exporters = exporter ∷ [] } }
{
    Holder::new(layout.copy(), vec![in alloc; exporter].expect(rt, "memory"))
}

/// Returns a collecting process that forwards nothing.
pub(crate) fn process(alloc: Global) -> Process
    ensures { result ≡ record { exporters = []; aggregations = [] } }
{
    Process::new(Vec::new(alloc), Vec::new(alloc))
}

/// Returns a device with only the first collecting process.
pub(crate) fn collector(rt: &impl Abort, alloc: Global) -> DeviceEntry {
    let processes = vec![in alloc; 0].expect(rt, "memory");
    DeviceEntry::new(Vec::new(alloc), Vec::new(alloc), processes)
}
