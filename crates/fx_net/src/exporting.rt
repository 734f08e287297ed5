//! Sending of records by exporting processes.
ghost use Rattle.std.specs.Prelude.{◌≡◌, OnOk, IfErr};
ghost use Rattle.fx_base.specs.Fault.{IsMemory};
ghost use Rattle.fx_base.specs.declared.fault.Place.TheVariants as places;
ghost use Rattle.fx_machine.specs.Sends as sends;
ghost use Rattle.fx_runs.specs.Destinations as in_use;
ghost use Rattle.fx_net.specs.Contents as contents;
ghost use Rattle.fx_net.specs.Exporting as exporting;

use crate::contents::Contents;
use fx_base::{Fault, refusals};
use fx_link::Link;
use fx_tables::{Exporter, Net, Record};

/// Adds a record to those waiting for their message on the link at this place, if there is such a link.
///
/// Fails with 900, at no place, if out of memory or out of template ids: a link has 65,280 of them, and a network at
/// most 64 layouts.
fn put(links: &mut Vec<Link>, link: usize, time: u32, flow: &Record) -> Result<(), Fault>
    ensures ok { OnOk result (links.new.items
        ≡ contents.with_changed (exporting.with_waiting time flow.now) links.old.items link) }
    ensures err { IfErr result IsMemory }
{
    let Some(link) = links.get_mut(link) else {
        return Ok(());
    };
    if !link.has_room() {
        return Err(Fault::bare(refusals::WANT_OF_MEMORY));
    }
    link.put(time, flow.copy())?;
    Ok(())
}

/// Sends a record to a destination; without a link it leaves the network.
fn put_to(
    links: &mut Vec<Link>,
    destination: Option<usize>,
    time: u32,
    flow: &Record,
) -> Result<(), Fault>
    ensures ok { OnOk result (links.new.items
        ≡ exporting.put_each time flow.now (sends.link_list destination) links.old.items) }
    ensures err { IfErr result IsMemory }
{
    match destination {
        None => Ok(()),
        Some(link) => put(links, link, time, flow),
    }
}

/// Sends a record to all these destinations.
fn put_to_all(
    links: &mut Vec<Link>,
    destinations: &[Option<usize>],
    time: u32,
    flow: &Record,
) -> Result<(), Fault>
    ensures ok { OnOk result (links.new.items
        ≡ exporting.put_each time flow.now (sends.links_of destinations.now) links.old.items) }
    ensures err { IfErr result IsMemory }
{
    for destination in destinations {
        put_to(links, *destination, time, flow)?;
    }
    Ok(())
}

/// Sends a record to the destination of this 1-based number, if there is one.
fn put_to_one(
    links: &mut Vec<Link>,
    destinations: &[Option<usize>],
    number: u64,
    time: u32,
    flow: &Record,
) -> Result<(), Fault>
    ensures ok { OnOk result (links.new.items
        ≡ exporting.put_each time flow.now (in_use.link_numbered destinations.now number)
        links.old.items) }
    ensures err { IfErr result IsMemory }
{
    if number == 0 {
        return Ok(());
    }
    match destinations.get((number - 1) as usize) {
        None => Ok(()),
        Some(destination) => put_to(links, *destination, time, flow),
    }
}

/// Sends a record from an exporting process: to all its destinations, or to the one of this number.
fn export(
    links: &mut Vec<Link>,
    exporter: &Exporter,
    number: u64,
    time: u32,
    flow: &Record,
) -> Result<(), Fault>
    ensures ok { OnOk result (links.new.items
        ≡ exporting.put_each time flow.now (in_use.links_of_exporter exporter.now number)
        links.old.items) }
    ensures err { IfErr result IsMemory }
{
    if exporter.parallel() {
        put_to_all(links, exporter.destinations(), time, flow)
    } else {
        put_to_one(links, exporter.destinations(), number, time, flow)
    }
}

/// Returns the number of the destination that the exporting process at this place uses, 0 if there is no such process.
fn number_in_use(chosen: &[u64], index: usize) -> u64
    ensures { result ≡ in_use.number_in_use chosen.now index }
{
    match chosen.get(index) {
        None => 0,
        Some(number) => *number,
    }
}

/// Sends a record from the exporting process at this place, if there is one.
fn export_at(
    links: &mut Vec<Link>,
    net: &Net,
    chosen: &[u64],
    index: usize,
    time: u32,
    flow: &Record,
) -> Result<(), Fault>
    ensures ok { OnOk result (links.new.items
        ≡ exporting.put_each time flow.now (in_use.used_at net.now chosen.now index)
        links.old.items) }
    ensures err { IfErr result IsMemory }
{
    match net.exporters().get(index) {
        None => Ok(()),
        Some(exporter) => export(links, exporter, number_in_use(chosen, index), time, flow),
    }
}

/// Sends a record from the exporting processes at these places, one after another.
fn export_all(
    links: &mut Vec<Link>,
    net: &Net,
    chosen: &[u64],
    exporters: &[usize],
    time: u32,
    flow: &Record,
) -> Result<(), Fault>
    ensures ok { OnOk result (links.new.items
        ≡ exporting.put_each time flow.now (in_use.links_used net.now chosen.now exporters.now)
        links.old.items) }
    ensures err { IfErr result IsMemory }
{
    for exporter in exporters {
        export_at(links, net, chosen, *exporter, time, flow)?;
    }
    Ok(())
}

impl Contents {
    /// Sends a record from the exporting processes at these places, one after another.
    ///
    /// Fails with 900, at no place, if out of memory.
    pub(crate) fn send(
        &mut self,
        net: &Net,
        exporters: &[usize],
        flow: &Record,
    ) -> Result<(), Fault>
        ensures ok { OnOk result (self.new ≡ exporting.after_send net.now exporters.now flow.now
            self.old) }
        ensures err { IfErr result IsMemory }
    {
        let time = self.second;
        export_all(
            &mut self.links,
            net,
            self.chosen.as_slice(),
            exporters,
            time,
            flow,
        )
    }
}
