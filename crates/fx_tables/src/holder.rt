//! Holders of records.
ghost use Rattle.std.specs.Prelude.{◌≡◌};

use fx_layout::Layout;
use std::marker::Model;

/// A cache or an aggregation: the layout of the records that it holds, and the 0-based indices of its exporting
/// processes in the network's table.
#[derive(Debug, Drop)]
pub struct Holder {
    pub(crate) layout: Layout,
    pub(crate) exporters: Vec<usize>,
}

impl Model for Holder {
    ghost use Rattle.fx_tables.specs.Network as network;

    ghost Value = { network.Holder };

    ghost view = { λ h. record { layout = h.layout; exporters = h.exporters.items } };
}

impl Holder {
    /// Returns a holder of records of this layout that names these exporting processes.
    pub fn new(layout: Layout, exporters: Vec<usize>) -> Holder
        ensures { result ≡ record { layout = layout; exporters = exporters.items } }
    {
        Holder { layout, exporters }
    }

    /// Returns the layout of the records that it holds.
    pub fn layout(&self) -> &Layout
        ensures { result.now ≡ self.now.layout }
    {
        &self.layout
    }

    /// Returns the indices of the exporting processes that it names.
    pub fn exporters(&self) -> &[usize]
        ensures { result.now ≡ self.now.exporters }
    {
        self.exporters.as_slice()
    }
}
