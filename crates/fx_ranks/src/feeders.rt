//! Which collecting processes feed which.
ghost use Rattle.std.specs.Prelude.{◌≡◌, ◌<◌, IfOk, length, map, slice_get};
ghost use Rattle.std.specs.List.{list_any};
ghost use Rattle.fx_tables.specs.Network as machine;
ghost use Rattle.fx_ranks.specs.Feeding as feeding;

use crate::linked_processes::LinkedProcesses;
use fx_tables::{AggregationEntry, Net};
use std::alloc::{AllocError, Global};

fn any_leads(linked: &LinkedProcesses<'_>, process: usize, places: &[usize]) -> bool
    requires { process < length linked.now.processes }
    ensures { result ≡ list_any (λ index. feeding.leads_at linked.now process
        (slice_get linked.now.exporters index)) places.now }
{
    for index in places {
        if linked.leads_at(process, *index) {
            return true;
        }
    }
    false
}

/// Returns whether one of the exporting processes at these places has a destination linked to the process.
fn lead_to(linked: &LinkedProcesses<'_>, process: usize, places: &[usize]) -> bool
    requires { process < length linked.now.processes }
    ensures { result ≡ feeding.lead_to linked.now process
        (machine.at_places linked.now.exporters places.now) }
{
    any_leads(linked, process, places)
}

/// Returns whether records of the aggregation can be carried to the process.
fn aggregation_leads(
    linked: &LinkedProcesses<'_>,
    process: usize,
    aggregation: &AggregationEntry,
) -> bool
    requires { process < length linked.now.processes }
    ensures { result ≡ feeding.lead_to linked.now process
        (machine.exporters_of linked.now (slice_get linked.now.holders aggregation.now.holder)) }
{
    match linked.net().holders().get(aggregation.holder()) {
        Some(holder) => lead_to(linked, process, holder.exporters()),
        None => false,
    }
}

fn any_aggregation_leads(
    linked: &LinkedProcesses<'_>,
    process: usize,
    aggregations: &[AggregationEntry],
) -> bool
    requires { process < length linked.now.processes }
    ensures { result ≡ list_any (λ a. feeding.lead_to linked.now process
        (machine.exporters_of linked.now (slice_get linked.now.holders a.holder)))
        aggregations.now }
{
    for aggregation in aggregations {
        if aggregation_leads(linked, process, aggregation) {
            return true;
        }
    }
    false
}

/// Returns whether records sent by the process `from`, or by one of its aggregations, can be carried to the process
/// `to`.
fn feeds(linked: &LinkedProcesses<'_>, from: usize, to: usize) -> bool
    requires { to < length linked.now.processes }
    ensures { result ≡ feeding.feeds linked.now from to }
{
    match linked.net().processes().get(from) {
        Some(process) => {
            lead_to(linked, to, process.exporters())
                || any_aggregation_leads(linked, to, process.aggregations())
        }
        None => false,
    }
}

/// Returns, for each process, whether it feeds this one.
fn feeders_of(
    alloc: Global,
    linked: &LinkedProcesses<'_>,
    process: usize,
) -> Result<Vec<bool>, AllocError>
    requires { process < length linked.now.processes }
    ensures { IfOk result (λ v. v.items ≡ feeding.feeders linked.now process) }
{
    let mut feeders = Vec::new(alloc);
    for from in 0..linked.net().processes().len() {
        feeders.push(feeds(linked, from, process))?;
    }
    Ok(feeders)
}

/// Returns, for each process, which processes feed it.
pub fn all_feeders(alloc: Global, net: &Net) -> Result<Vec<Vec<bool>>, AllocError>
    ensures { IfOk result (λ v. map (λ row. row.items) v.items
        ≡ map (feeding.feeders net.now) (feeding.places_of net.now)) }
{
    let linked = LinkedProcesses::of(alloc, net)?;
    let mut rows = Vec::new(alloc);
    for process in 0..net.processes().len() {
        rows.push(feeders_of(alloc, &linked, process)?)?;
    }
    Ok(rows)
}
