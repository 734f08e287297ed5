//! Network documents and the networks that they describe.
ghost use Rattle.std.specs.Prelude.{◌≡◌, ◌⊎◌, ◌==◌, ◌<◌, ◌≤◌, IfErr, IfOk, length, map, position};
ghost use Rattle.serde_json.specs.View.{view};
ghost use Rattle.fx_tables.specs.Limits.{layout_limit};
ghost use Rattle.fx_tables.specs.Matches.{AreEntries};
ghost use Rattle.fx_tables.specs.Ranks.{IsNetwork};
ghost use Rattle.fx_tables.specs.Runnable.{IsRunnable};
ghost use Rattle.fx_base.specs.Entries.{now_of};
ghost use Rattle.fx_base.specs.Fault.{IsMemory};
ghost use Rattle.fx_plan.specs.Labels.{cache_labels, collecting_labels};
ghost use Rattle.fx_plan.specs.Layouts.{AreNumbers, layouts_of};
ghost use Rattle.fx_topology.specs.Networks.{device_numbered};
ghost use Rattle.fx_plan.specs.Plans.{IsPlan, IsResolved, ReadsPlan, RefusesNetwork};
ghost use Rattle.fx_ranks.specs.Ranks.{IsDescending, IsRank, IsRankOrder, IsWhole};
ghost use Rattle.fx_plan.specs.Tables as tables;

use crate::exporters::exporters_of;
use crate::holders::cache_holders;
use crate::labels::{Labels, labels_of, place};
use crate::layouts::{Numbering, numbering_of};
use crate::points::tables_of;
use crate::processes::{link_ends, processes_in};
use crate::ranks::{Ranks, ranks_of};
use fx_base::{Fault, entry_numbered};
use fx_config::{Cache, CollectingProcess, Device, ExportingProcess};
use fx_layout::Layout;
use fx_tables::{DeviceEntry, Holder, Net, Process};
use fx_topology::{NetworkDevice, NetworkDocument, read_network};
use serde_json::Value;
use std::alloc::{AllocError, Global};
use std::marker::Model;

fn report_layout_of(network: &NetworkDocument) -> Layout
    ensures { result ≡ tables.report_layout_of network.now }
{
    match network.report.layout() {
        Some(layout) => layout,
        None => Layout::new(),
    }
}

/// Returns the tables of all devices, given the labels of all collecting processes.
fn device_tables(
    alloc: Global,
    collecting: &Labels<'_>,
    devices: &[NetworkDevice],
) -> Result<Vec<DeviceEntry>, AllocError>
    ensures { IfOk result (λ v. v.items
        ≡ map (tables.table_of (cache_labels devices.now) collecting.now) devices.now) }
{
    let caches = labels_of::<Cache>(alloc, devices)?;
    tables_of(alloc, &caches, collecting, devices)
}

/// Returns the holders of records and the collecting processes. They are made together because the holders of
/// aggregations follow those of caches.
fn holders_and_processes(
    alloc: Global,
    devices: &[NetworkDevice],
) -> Result<(Vec<Holder>, Vec<Process>), AllocError>
    ensures holders { IfOk result (λ r. r.0.items ≡ tables.holders_of devices.now) }
    ensures processes { IfOk result (λ r. r.1.items ≡ tables.processes_of devices.now) }
{
    let exporting = labels_of::<ExportingProcess>(alloc, devices)?;
    let mut holders = cache_holders(alloc, &exporting, devices)?;
    let processes = processes_in(alloc, &mut holders, &exporting, devices)?;
    Ok((holders, processes))
}

/// Returns the network that a document describes, given the labels of its collecting processes.
fn net_labelled(
    alloc: Global,
    network: &NetworkDocument,
    collecting: &Labels<'_>,
) -> Result<Net, AllocError>
    requires { collecting.now ≡ collecting_labels network.now.devices }
    ensures { IfOk result (λ net. net ≡ tables.net_of network.now) }
{
    let devices = network.devices.as_slice();
    let tables = device_tables(alloc, collecting, devices)?;
    let exporters = exporters_of(alloc, &network.links, devices)?;
    let ends = link_ends(alloc, collecting, network.links.as_slice())?;
    let (holders, processes) = holders_and_processes(alloc, devices)?;
    let report = &network.report;
    let report_place = place(collecting, &report.device, &report.collecting_process);
    let layout = report_layout_of(network);
    Ok(Net::new(
        tables,
        exporters,
        holders,
        processes,
        ends,
        report_place,
        layout,
    ))
}

/// Returns the network that a document describes, of any size. It may have cycles, and more layouts than a [`Plan`].
///
/// Fails if out of memory.
pub fn net_of(alloc: Global, network: &NetworkDocument) -> Result<Net, AllocError>
    ensures { IfOk result (λ net. net ≡ tables.net_of network.now) }
{
    let collecting = labels_of::<CollectingProcess>(alloc, network.devices.as_slice())?;
    net_labelled(alloc, network, &collecting)
}

/// A network document and the network that it describes. Contracts see it as the contents of the document.
///
/// Each link leads to a collecting process of higher rank than each process that feeds it.
#[derive(Debug)]
pub struct Plan {
    parts: Box<Parts>,
}

impl Drop for Plan {
    /// Drops its parts here, so that each drop elsewhere is one call.
    fn drop(self) {
        let Self { parts: _ } = self;
    }
}

/// The parts of a plan, in a box so that moving a plan moves one pointer.
#[derive(Debug, Drop)]
struct Parts {
    network: NetworkDocument,
    net: Net,
    ranks: Ranks,
    numbering: Numbering,
}

impl Model for Plan {
    ghost use Rattle.fx_plan.specs.Plans.{IsPlan};
    ghost use Rattle.fx_topology.specs.declared.network.NetworkDocument as of_network;

    ghost Value = { of_network.NetworkDocument };

    ghost view = { λ p. p.parts.value.network };

    ghost invariant = { λ p. IsPlan p.parts.value.network p.parts.value.net
        p.parts.value.ranks.ranked.items p.parts.value.ranks.order.items
        p.parts.value.numbering.layouts.items p.parts.value.numbering.numbers.items };
}

impl Plan {
    /// Returns the network that the document describes.
    pub fn net(&self) -> &Net
        ensures value { result.now ≡ tables.net_of self.now }
        ensures network { IsNetwork result.now }
        ensures report { result.now.report < length result.now.processes }
        ensures entries { AreEntries result.now }
        ensures runnable { IsRunnable result.now }
    {
        &self.parts.net
    }

    /// Returns the contents of the document.
    pub fn network(&self) -> &NetworkDocument
        ensures { result.now ≡ self.now }
    {
        &self.parts.network
    }

    /// Returns the configuration of the device of this number, 1-based in document order, or `None` if there is no such
    /// device.
    pub fn device(&self, number: u64) -> Option<&Device>
        ensures { now_of result ≡ device_numbered self.now number }
    {
        let device = entry_numbered(self.parts.network.devices.as_slice(), number)?;
        Some(&device.config)
    }

    /// Returns the places of all collecting processes in rank order. Each is the first in document order, of those
    /// left, whose feeders all precede it.
    pub fn upwards(&self) -> &[usize]
        ensures order { IsRankOrder (tables.net_of self.now) result.now }
        ensures whole { IsWhole (tables.net_of self.now) result.now }
    {
        self.parts.ranks.ranked.as_slice()
    }

    /// Returns the 0-based rank of the collecting process at this place, which is its position in the rank order, or
    /// `None` if there is no such process.
    pub fn rank(&self, process: usize) -> Option<usize>
        ensures { IsRank (tables.net_of self.now) process result }
    {
        rank_in(self.parts.ranks.ranked.as_slice(), process)
    }

    /// Returns the places of all collecting processes, each after all of higher rank.
    pub fn downwards(&self) -> &[usize]
        ensures { IsDescending (tables.net_of self.now) result.now }
    {
        self.parts.ranks.order.as_slice()
    }

    /// Returns the layouts of the network, each once: those of its caches, of its aggregations and of the report, in
    /// that order. There are at most 64.
    pub fn layouts(&self) -> &[Layout]
        ensures value { result.now ≡ layouts_of (tables.net_of self.now) }
        ensures few { length result.now ≤ layout_limit }
    {
        self.parts.numbering.layouts.as_slice()
    }

    /// Returns, for each cache and aggregation of the network, the 0-based number of its layout.
    pub fn layout_numbers(&self) -> &[usize]
        ensures { AreNumbers (layouts_of (tables.net_of self.now)) (tables.net_of self.now).holders
            result.now }
    {
        self.parts.numbering.numbers.as_slice()
    }
}

/// What a network document describes: all parts of a plan except the document, which is added last.
#[derive(Drop)]
struct Meaning {
    net: Net,
    ranks: Ranks,
    numbering: Numbering,
}

/// Returns what a document describes. Fails with the first fault that appears only in the network: 207 for its layouts,
/// otherwise 204 for its links, and with 900 if out of memory.
fn meaning_of(alloc: Global, network: &NetworkDocument) -> Result<Meaning, Fault>
    requires resolved { IsResolved (tables.net_of network.now) }
    requires entries { AreEntries (tables.net_of network.now) }
    requires runnable { IsRunnable (tables.net_of network.now) }
    ensures plan { IfOk result (λ m. IsPlan network.now m.net m.ranks.ranked.items
        m.ranks.order.items m.numbering.layouts.items m.numbering.numbers.items) }
    ensures err { IfErr result (λ e. IsMemory e ⊎ RefusesNetwork network.now e) }
{
    let net = net_of(alloc, network)?;
    let numbering = numbering_of(alloc, &net)?;
    let ranks = ranks_of(alloc, network, &net)?;
    Ok(Meaning {
        net,
        ranks,
        numbering,
    })
}

/// Returns a plan of a document and of what it describes.
fn plan_of_parts(
    alloc: Global,
    network: NetworkDocument,
    meaning: Meaning,
) -> Result<Plan, AllocError>
    requires { IsPlan network meaning.net meaning.ranks.ranked.items meaning.ranks.order.items
        meaning.numbering.layouts.items meaning.numbering.numbers.items }
    ensures { IfOk result (λ plan. plan ≡ network) }
{
    let parts = Box::new(
        alloc,
        Parts {
            network,
            net: meaning.net,
            ranks: meaning.ranks,
            numbering: meaning.numbering,
        },
    )?;
    Ok(Plan { parts })
}

fn rank_in(ranked: &[usize], process: usize) -> Option<usize>
    ensures { result ≡ position (λ index. index == process) ranked.now }
{
    ranked.iter().position(|index| *index == process)
}

/// Reads a network document and the network that it describes.
///
/// Fails with the first fault of [`read_network`], or else with 207, at no place, if caches, aggregations and the
/// report have more than 64 different layouts; with 204 if links form a cycle, at the numbers, of device and process as
/// in `1.1 2.1`, of all collecting processes that cannot follow all that feed them, in document order; or with 900, at
/// no place, if out of memory.
pub fn read_plan(alloc: Global, value: &Value) -> Result<Plan, Fault>
    ensures { ReadsPlan (view value.now) result }
{
    let network = read_network(alloc, value)?;
    let meaning = meaning_of(alloc, &network)?;
    let plan = plan_of_parts(alloc, network, meaning)?;
    Ok(plan)
}
