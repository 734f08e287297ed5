//! Which collecting processes the exporting processes of a network send to.
ghost use Rattle.std.specs.Prelude.{◌≡◌, ◌<◌, IfOk, length, map, slice_get, slice_index_or, false};
ghost use Rattle.fx_ranks.specs.Feeding as feeding;

use fx_tables::{Exporter, Net};
use std::alloc::{AllocError, Global};
use std::marker::Model;

/// Returns the place of the process that a destination is linked to, if it is linked.
fn end_of(net: &Net, destination: Option<usize>) -> Option<usize>
    ensures { result ≡ feeding.end_of net.now destination }
{
    match destination {
        Some(link) => net.links().get(link).copied(),
        None => None,
    }
}

/// Sets the flag at the index, if there is one.
fn set_flag(flags: &mut [bool], index: Option<usize>)
    ensures { flags.new ≡ feeding.with_flag flags.old index }
{
    if let Some(index) = index {
        if index < flags.len() {
            flags[index] = true;
        }
    }
}

fn flag_at(flags: &[bool], index: usize) -> bool
    ensures { result ≡ slice_index_or flags.now index false }
{
    match flags.get(index) {
        Some(flag) => *flag,
        None => false,
    }
}

/// Returns, for each process, whether the exporting process has a destination linked to it.
fn linked_processes_of(
    alloc: Global,
    net: &Net,
    exporter: &Exporter,
) -> Result<Vec<bool>, AllocError>
    ensures { IfOk result (λ v. v.items ≡ feeding.linked_processes net.now exporter.now) }
{
    let mut flags = vec![in alloc; false; net.processes().len()]?;
    for destination in exporter.destinations() {
        set_flag(flags.as_mut_slice(), end_of(net, *destination));
    }
    Ok(flags)
}

/// Returns, for each exporting process and each collecting process, whether a destination of the first is linked to the
/// second.
fn all_linked_processes(alloc: Global, net: &Net) -> Result<Vec<Vec<bool>>, AllocError>
    ensures { IfOk result (λ v. map (λ row. row.items) v.items
        ≡ map (feeding.linked_processes net.now) net.now.exporters) }
{
    let mut rows = Vec::new(alloc);
    for exporter in net.exporters() {
        rows.push(linked_processes_of(alloc, net, exporter)?)?;
    }
    Ok(rows)
}

/// A network with the collecting processes that each of its exporting processes sends to. Contracts see the network.
#[derive(Drop)]
pub struct LinkedProcesses<'n> {
    net: &'n Net,
    rows: Vec<Vec<bool>>,
}

impl<'n> Model for LinkedProcesses<'n> {
    ghost use Rattle.std.specs.Prelude.{◌≡◌, map};
    ghost use Rattle.fx_tables.specs.Network as machine;
    ghost use Rattle.fx_ranks.specs.Feeding as feeding;

    ghost Value = { machine.Net };

    ghost view = { λ t. t.net.now };

    ghost invariant = { λ t. map (λ row. row.items) t.rows.items
        ≡ map (feeding.linked_processes t.net.now) t.net.now.exporters };
}

impl<'n> LinkedProcesses<'n> {
    /// Finds the linked processes of this network.
    pub fn of(alloc: Global, net: &'n Net) -> Result<LinkedProcesses<'n>, AllocError>
        ensures { IfOk result (λ linked. linked ≡ net.now) }
    {
        let rows = all_linked_processes(alloc, net)?;
        Ok(LinkedProcesses { net, rows })
    }

    /// Returns the network.
    pub fn net(&self) -> &Net
        ensures { result.now ≡ self.now }
    {
        self.net
    }

    /// Returns whether the exporting process at the place, if there is one, has a destination linked to the process.
    pub fn leads_at(&self, process: usize, index: usize) -> bool
        requires { process < length self.now.processes }
        ensures { result ≡ feeding.leads_at self.now process (slice_get self.now.exporters index) }
    {
        match self.rows.as_slice().get(index) {
            Some(row) => flag_at(row.as_slice(), process),
            None => false,
        }
    }
}
