//! The table of collecting processes, and the ends of links.
ghost use Rattle.std.specs.Prelude.{◌≡◌, [], ◌∷◌, ◌++◌, OnOk, IfOk, length, map};
ghost use Rattle.fx_plan.specs.Labels as naming;
ghost use Rattle.fx_plan.specs.Tables as tables;

use crate::holders::holder_with;
use crate::labels::{Labels, place, places};
use fx_base::Name;
use fx_config::{Aggregation, CollectingProcess, PropertyMatch};
use fx_elements::width;
use fx_layout::leading_bits;
use fx_tables::{Holder, MatchEntry, Process};
use fx_topology::{NamedLink, NetworkDevice};
use std::alloc::{AllocError, Global};

/// Returns the leading bits that a match fixes.
fn match_entry(fixed: &PropertyMatch) -> MatchEntry
    ensures { result ≡ tables.match_entry fixed.now }
{
    let axis = fixed.axis;
    let bits = fixed.range.bits;
    MatchEntry {
        axis,
        bits,
        value: leading_bits(width(axis), bits, fixed.range.low),
    }
}

fn match_entries(alloc: Global, matches: &[PropertyMatch]) -> Result<Vec<MatchEntry>, AllocError>
    ensures { IfOk result (λ v. v.items ≡ map tables.match_entry matches.now) }
{
    let mut entries = Vec::new(alloc);
    for fixed in matches {
        entries.push(match_entry(fixed))?;
    }
    Ok(entries)
}

/// Appends an aggregation to `taken`, and the holder of its records to `holders`.
fn push_aggregation(
    alloc: Global,
    taken: &mut Vec<fx_tables::AggregationEntry>,
    holders: &mut Vec<Holder>,
    exporting: &Labels<'_>,
    device: &Name,
    aggregation: &Aggregation,
) -> Result<(), AllocError>
    ensures held { OnOk result (holders.new.items
        ≡ holders.old.items ++ tables.aggregation_holder exporting.now device.now aggregation.now
        ∷ []) }
    ensures tables { OnOk result (taken.new.items
        ≡ taken.old.items ++ tables.aggregations_from (length holders.old.items)
        (aggregation.now ∷ [])) }
{
    let matches = match_entries(alloc, aggregation.matches.as_slice())?;
    taken.push(fx_tables::AggregationEntry::new(holders.len(), matches))?;
    let names = aggregation.exporting_processes.as_slice();
    holders.push(holder_with(alloc, exporting, device, &aggregation.key, names)?)?;
    Ok(())
}

/// Returns the aggregations of a collecting process, and appends the holders of their records to `holders`.
fn push_aggregations(
    alloc: Global,
    holders: &mut Vec<Holder>,
    exporting: &Labels<'_>,
    device: &Name,
    aggregations: &[Aggregation],
) -> Result<Vec<fx_tables::AggregationEntry>, AllocError>
    ensures held { OnOk result (holders.new.items
        ≡ holders.old.items ++ map (tables.aggregation_holder exporting.now device.now)
        aggregations.now) }
    ensures tables { IfOk result (λ v. v.items
        ≡ tables.aggregations_from (length holders.old.items) aggregations.now) }
{
    let mut taken = Vec::new(alloc);
    for aggregation in aggregations {
        push_aggregation(alloc, &mut taken, holders, exporting, device, aggregation)?;
    }
    Ok(taken)
}

fn process_from(
    alloc: Global,
    holders: &mut Vec<Holder>,
    exporting: &Labels<'_>,
    device: &Name,
    process: &CollectingProcess,
) -> Result<Process, AllocError>
    ensures held { OnOk result (holders.new.items
        ≡ holders.old.items ++ map (tables.aggregation_holder exporting.now device.now)
        process.now.aggregations) }
    ensures table { IfOk result (λ p. p ≡ tables.process_from exporting.now device.now
        (length holders.old.items) process.now) }
{
    let named = process.exporting_processes.as_slice();
    let exporters = places(alloc, exporting, device, named)?;
    let aggregations = process.aggregations.as_slice();
    let aggregations = push_aggregations(alloc, holders, exporting, device, aggregations)?;
    Ok(Process::new(exporters, aggregations))
}

/// Appends the collecting processes of a device, and the holders of the records of their aggregations.
fn push_processes(
    alloc: Global,
    processes: &mut Vec<Process>,
    holders: &mut Vec<Holder>,
    exporting: &Labels<'_>,
    device: &Name,
    collecting: &[CollectingProcess],
) -> Result<(), AllocError>
    ensures held { OnOk result (holders.new.items
        ≡ holders.old.items ++ tables.held_by exporting.now device.now collecting.now) }
    ensures tables { OnOk result (processes.new.items
        ≡ processes.old.items ++ tables.processes_from exporting.now device.now
        (length holders.old.items) collecting.now) }
{
    for process in collecting {
        let process = process_from(alloc, holders, exporting, device, process)?;
        processes.push(process)?;
    }
    Ok(())
}

/// Returns the collecting processes of all devices, in document order, and appends the holders of the records of their
/// aggregations to `holders`.
pub fn processes_in(
    alloc: Global,
    holders: &mut Vec<Holder>,
    exporting: &Labels<'_>,
    devices: &[NetworkDevice],
) -> Result<Vec<Process>, AllocError>
    ensures held { OnOk result (holders.new.items
        ≡ holders.old.items ++ tables.aggregation_holders exporting.now devices.now) }
    ensures tables { IfOk result (λ v. v.items
        ≡ tables.processes_in exporting.now (length holders.old.items) devices.now) }
{
    let mut processes = Vec::new(alloc);
    for device in devices {
        let collecting = device.config.collecting_processes.as_slice();
        push_processes(
            alloc,
            &mut processes,
            holders,
            exporting,
            &device.name,
            collecting,
        )?;
    }
    Ok(processes)
}

/// Returns the places of the collecting processes that the links lead to.
pub fn link_ends(
    alloc: Global,
    collecting: &Labels<'_>,
    links: &[NamedLink],
) -> Result<Vec<usize>, AllocError>
    ensures { IfOk result (λ v. v.items ≡ map
        (λ link. naming.place collecting.now link.to_device link.to_process) links.now) }
{
    let mut ends = Vec::new(alloc);
    for link in links {
        ends.push(place(collecting, &link.to_device, &link.to_process))?;
    }
    Ok(ends)
}
