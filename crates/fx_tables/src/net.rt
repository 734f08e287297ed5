//! The tables of a network.
ghost use Rattle.std.specs.Prelude.{◌≡◌};
ghost use Rattle.fx_layout.specs.Keys.{IsLayout};

use crate::device::DeviceEntry;
use crate::exporter::Exporter;
use crate::holder::Holder;
use crate::process::Process;
use fx_layout::Layout;
use std::marker::Model;

/// A network: its devices, and the tables of what they name by 0-based index.
#[derive(Debug)]
pub struct Net {
    pub(crate) devices: Vec<DeviceEntry>,
    pub(crate) exporters: Vec<Exporter>,
    pub(crate) holders: Vec<Holder>,
    pub(crate) processes: Vec<Process>,
    pub(crate) links: Vec<usize>,
    pub(crate) report: usize,
    pub(crate) report_layout: Layout,
}

impl Drop for Net {
    /// Drops its parts here, so that each drop elsewhere is one call.
    fn drop(self) {
        let Self {
            devices: _,
            exporters: _,
            holders: _,
            processes: _,
            links: _,
            report: _,
            report_layout: _,
        } = self;
    }
}

impl Model for Net {
    ghost use Rattle.fx_tables.specs.Network as network;

    ghost Value = { network.Net };

    ghost view = { λ n. record {
      devices = n.devices.items;
      exporters = n.exporters.items;
      holders = n.holders.items;
      processes = n.processes.items;
      links = n.links.items;
      report = n.report;
      report_layout = n.report_layout;
    } };
}

impl Net {
    /// Returns the network with these tables. `links` has the index of the collecting process that each link leads to;
    /// `report` is the index of the collecting process that tallies, under the layout `report_layout`.
    pub fn new(
        devices: Vec<DeviceEntry>,
        exporters: Vec<Exporter>,
        holders: Vec<Holder>,
        processes: Vec<Process>,
        links: Vec<usize>,
        report: usize,
        report_layout: Layout,
    ) -> Net
        ensures { result ≡ record {
          devices = devices.items;
          exporters = exporters.items;
          holders =
              holders.items;
          processes = processes.items;
          links = links.items;
          report = report;
          report_layout = report_layout;
        } }
    {
        Net {
            devices,
            exporters,
            holders,
            processes,
            links,
            report,
            report_layout,
        }
    }

    /// Returns the devices.
    pub fn devices(&self) -> &[DeviceEntry]
        ensures { result.now ≡ self.now.devices }
    {
        self.devices.as_slice()
    }

    /// Returns the exporting processes.
    pub fn exporters(&self) -> &[Exporter]
        ensures { result.now ≡ self.now.exporters }
    {
        self.exporters.as_slice()
    }

    /// Returns the caches and aggregations.
    pub fn holders(&self) -> &[Holder]
        ensures { result.now ≡ self.now.holders }
    {
        self.holders.as_slice()
    }

    /// Returns the collecting processes.
    pub fn processes(&self) -> &[Process]
        ensures { result.now ≡ self.now.processes }
    {
        self.processes.as_slice()
    }

    /// Returns the index of the collecting process that each link leads to.
    pub fn links(&self) -> &[usize]
        ensures { result.now ≡ self.now.links }
    {
        self.links.as_slice()
    }

    /// Returns the index of the collecting process that tallies.
    pub fn report(&self) -> usize
        ensures { result ≡ self.now.report }
    {
        self.report
    }

    /// Returns the layout under which it tallies.
    pub fn report_layout(&self) -> &Layout
        ensures value { result.now ≡ self.now.report_layout }
        ensures layout { IsLayout self.now.report_layout }
    {
        // Only for the prover: the invariant of a layout.
        let _parts = self.report_layout.parts();
        &self.report_layout
    }
}
