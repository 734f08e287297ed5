//! Arrival of records at collecting processes.
ghost use Rattle.std.specs.Prelude.{◌≡◌, ◌≤◌, None, OnOk, IfErr, slice_get};
ghost use Rattle.fx_base.specs.Fault.{IsMemory};
ghost use Rattle.fx_base.specs.Entries.{now_of};
ghost use Rattle.fx_link.specs.Ongoing as ongoing;
ghost use Rattle.fx_net.specs.Arriving as arriving;
ghost use Rattle.fx_net.specs.Contents as contents;

use crate::contents::Contents;
use fx_base::{Fault, refusals};
use fx_link::Link;
use fx_tables::{Net, Process, Record};
use std::alloc::Global;

/// Returns the collecting process to which the link at this place leads, if there is such a link.
fn process_behind(net: &Net, link: usize) -> Option<&Process>
    ensures { now_of result ≡ arriving.process_behind net.now link }
{
    match net.links().get(link) {
        None => None,
        Some(process) => net.processes().get(*process),
    }
}

/// Returns whether the link at this place leads to the collecting process that tallies.
fn leads_to_report(net: &Net, link: usize) -> bool
    ensures { result ≡ arriving.leads_to_report net.now (slice_get net.now.links link) }
{
    match net.links().get(link) {
        None => false,
        Some(process) => *process == net.report(),
    }
}

/// Removes and returns the first record that the receiver of the link at this place has read, if there is one.
fn next_record(links: &mut Vec<Link>, link: usize) -> Option<Record>
    ensures { arriving.IsNext link links.old.items links.new.items result }
{
    match links.get_mut(link) {
        None => None,
        Some(link) => link.next_record(),
    }
}

/// Returns how many octets of the link at this place wait to be carried, if there is such a link.
pub(crate) fn queue_length_of(links: &[Link], link: usize) -> Option<usize>
    ensures { result ≡ arriving.queued_at links.now link }
{
    let link = links.get(link)?;
    Some(link.queue_length())
}

/// Carries the given number of octets of the link at this place to its end, if there is such a link. Fails with 900, at
/// no place, if out of memory.
fn carry_on(links: &mut Vec<Link>, link: usize, count: usize) -> Result<(), Fault>
    requires { count ≤ arriving.queued_on (slice_get links.old.items link) }
    ensures ok { OnOk result (links.new.items
        ≡ contents.with_changed (ongoing.after_carry count) links.old.items link) }
    ensures err { IfErr result IsMemory }
{
    let Some(link) = links.get_mut(link) else {
        return Ok(());
    };
    // The octets are those that were written for this link, which its receiver reads without a fault, so the only
    // possible failure is being out of memory.
    match link.carry(count) {
        Ok(()) => Ok(()),
        Err(_fault) => Err(Fault::bare(refusals::WANT_OF_MEMORY)),
    }
}

impl Contents {
    /// Tallies a record if its link leads to the report's process. Fails with 900, at no place, if out of memory.
    fn tally(&mut self, net: &Net, link: usize, flow: &Record) -> Result<(), Fault>
        ensures ok { OnOk result (self.new ≡ arriving.after_tally net.now link flow.now self.old) }
        ensures err { IfErr result IsMemory }
    {
        if leads_to_report(net, link) {
            self.totals.tally(flow)?;
        }
        Ok(())
    }

    /// Handles a record that arrives at the end of a link: it is tallied, sent on and taken in. Fails with 900, at no
    /// place, if out of memory.
    fn arrive(&mut self, alloc: Global, net: &Net, link: usize, flow: &Record) -> Result<(), Fault>
        ensures ok { OnOk result (self.new ≡ arriving.after_arrive net.now link flow.now self.old) }
        ensures err { IfErr result IsMemory }
    {
        self.tally(net, link, flow)?;
        let Some(process) = process_behind(net, link) else {
            return Ok(());
        };
        self.send(net, process.exporters(), flow)?;
        let takers = net.takers(alloc, process, &flow.key)?;
        self.take_in(alloc, net, takers, flow.counts)
    }

    /// Handles all records that the receiver of a link has read, in order. Fails with 900, at no place, if out of
    /// memory.
    fn handle(&mut self, alloc: Global, net: &Net, link: usize) -> Result<(), Fault>
        ensures ok { OnOk result (self.new ≡ arriving.after_handling net.now link self.old) }
        ensures err { IfErr result IsMemory }
    {
        while let Some(flow) = next_record(&mut self.links, link) {
            self.arrive(alloc, net, link, &flow)?;
        }
        Ok(())
    }

    /// Carries the given number of octets of the link at this place to its end, and immediately handles every record of
    /// the messages that they complete, in order.
    ///
    /// Fails with 900, at no place, if out of memory.
    pub(crate) fn carry(
        &mut self,
        alloc: Global,
        net: &Net,
        link: usize,
        count: usize,
    ) -> Result<(), Fault>
        requires { count ≤ arriving.queued_on (slice_get self.old.links link) }
        ensures ok { OnOk result (self.new ≡ arriving.after_carrying net.now link count self.old) }
        ensures err { IfErr result IsMemory }
    {
        carry_on(&mut self.links, link, count)?;
        self.handle(alloc, net, link)
    }
}
