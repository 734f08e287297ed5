//! The closing phase, in which the rest of the capture is read and everything that is held is counted.
ghost use Rattle.std.specs.Prelude.{◌≡◌, ◌⊎◌, map, false, Some, None, OnOk, IfErr, slice_get};
ghost use Rattle.std.specs.List.{flat_map};
ghost use Rattle.fx_tables.specs.Network as network;
ghost use Rattle.fx_ranks.specs.Ranks.{IsWhole};
ghost use Rattle.fx_plan.specs.Tables.{net_of};
ghost use Rattle.fx_net.specs.declared.stop.Stop.TheVariants as stop;
ghost use Rattle.fx_net.specs.Arriving.{queued_on};
ghost use Rattle.fx_net.specs.Doings as doings;
ghost use Rattle.fx_net.specs.Running as running;
ghost use Rattle.fx_base.specs.Device.{KeepsGoing};
ghost use Rattle.fx_base.specs.Refusals.{in_no_class};

use crate::arriving::queue_length_of;
use crate::contents::Contents;
use crate::network::Network;
use crate::stop::Stop;
use fx_base::{Fault, Source, refusals};
use fx_link::{Link, Links};
use fx_pcap::Capture;
use fx_tables::{AggregationEntry, DeviceEntry, Net, Occurrence, Process};
use std::alloc::Global;

/// Returns how many octets of the link at this place wait to be carried.
fn queued_whole(links: &[Link], link: usize) -> usize
    ensures { result ≡ queued_on (slice_get links.now link) }
{
    match queue_length_of(links, link) {
        None => 0,
        Some(queued) => queued,
    }
}

/// Returns whether the link at this place leads to this collecting process.
fn leads_to(net: &Net, link: usize, process: usize) -> bool
    ensures { result ≡ doings.leads_to (slice_get net.now.links link) process }
{
    match net.links().get(link) {
        None => false,
        Some(to) => *to == process,
    }
}

/// Returns the aggregations of the collecting process at this place.
fn aggregations_of(net: &Net, process: usize) -> &[AggregationEntry]
    ensures { result.now ≡ network.aggregations_of (slice_get net.now.processes process) }
{
    match net.processes().get(process) {
        None => &[],
        Some(process) => process.aggregations(),
    }
}

impl Contents {
    /// Lets all records of the holder at this place leave, the least key first, and puts them on the links.
    fn empty_out<L: Links>(&mut self, net: &Net, index: usize, links: &mut L) -> Result<(), Fault>
        ensures ok { OnOk result (doings.Ended (doings.Empties net.now index)
            (L.put_on links.old) self.old (L.put_on links.new) self.new) }
        ensures going { OnOk result (KeepsGoing (L.failed links.old) (L.failed links.new)) }
        ensures err { IfErr result (running.FailsOutside (L.failed links.new)) }
    {
        self.empty(net, index)?;
        self.finish(links)
    }

    /// Empties the holders at these places one after another, and puts what leaves each on the links.
    fn empty_all<L: Links>(
        &mut self,
        net: &Net,
        places: &[usize],
        links: &mut L,
    ) -> Result<(), Fault>
        ensures ok { OnOk result (doings.EmptiesAll net.now places.now
            (L.put_on links.old) self.old (L.put_on links.new) self.new) }
        ensures going { OnOk result (KeepsGoing (L.failed links.old) (L.failed links.new)) }
        ensures err { IfErr result (running.FailsOutside (L.failed links.new)) }
    {
        for index in places {
            self.empty_out(net, *index, links)?;
        }
        Ok(())
    }

    /// Empties the caches of these devices in order, and puts what leaves each on the links.
    fn empty_caches<L: Links>(
        &mut self,
        net: &Net,
        devices: &[DeviceEntry],
        links: &mut L,
    ) -> Result<(), Fault>
        ensures ok { OnOk result (doings.EmptiesAll net.now
            (flat_map (λ (d : network.DeviceEntry). d.caches) devices.now)
            (L.put_on links.old) self.old (L.put_on links.new) self.new) }
        ensures going { OnOk result (KeepsGoing (L.failed links.old) (L.failed links.new)) }
        ensures err { IfErr result (running.FailsOutside (L.failed links.new)) }
    {
        for device in devices {
            self.empty_all(net, device.caches(), links)?;
        }
        Ok(())
    }

    /// Empties these aggregations in order, and puts what leaves each on the links.
    fn empty_aggregations<L: Links>(
        &mut self,
        net: &Net,
        aggregations: &[AggregationEntry],
        links: &mut L,
    ) -> Result<(), Fault>
        ensures ok { OnOk result (doings.EmptiesAll net.now
            (map (λ (a : network.AggregationEntry). a.holder) aggregations.now)
            (L.put_on links.old) self.old (L.put_on links.new) self.new) }
        ensures going { OnOk result (KeepsGoing (L.failed links.old) (L.failed links.new)) }
        ensures err { IfErr result (running.FailsOutside (L.failed links.new)) }
    {
        for aggregation in aggregations {
            self.empty_out(net, aggregation.holder(), links)?;
        }
        Ok(())
    }

    /// Carries all octets of the link at this place to its end, and puts what is sent for the records that they
    /// complete on the links.
    fn carry_out<L: Links>(
        &mut self,
        alloc: Global,
        net: &Net,
        link: usize,
        links: &mut L,
    ) -> Result<(), Fault>
        ensures ok { OnOk result (doings.Ended (doings.CarriesWhole net.now link)
            (L.put_on links.old) self.old (L.put_on links.new) self.new) }
        ensures going { OnOk result (KeepsGoing (L.failed links.old) (L.failed links.new)) }
        ensures err { IfErr result (running.FailsOutside (L.failed links.new)) }
    {
        let count = queued_whole(self.links.as_slice(), link);
        self.carry(alloc, net, link, count)?;
        self.finish(links)
    }

    /// Carries all octets of the link at this place, if it leads to this collecting process.
    fn carry_into<L: Links>(
        &mut self,
        alloc: Global,
        net: &Net,
        link: usize,
        process: usize,
        links: &mut L,
    ) -> Result<(), Fault>
        ensures ok { OnOk result (doings.CarriesInto net.now process link
            (L.put_on links.old) self.old (L.put_on links.new) self.new) }
        ensures going { OnOk result (KeepsGoing (L.failed links.old) (L.failed links.new)) }
        ensures err { IfErr result (running.FailsOutside (L.failed links.new)) }
    {
        if !leads_to(net, link, process) {
            return Ok(());
        }
        self.carry_out(alloc, net, link, links)?;
        Ok(())
    }

    /// Carries all octets of the links into a collecting process, in order.
    fn carry_all_into<L: Links>(
        &mut self,
        alloc: Global,
        net: &Net,
        process: usize,
        links: &mut L,
    ) -> Result<(), Fault>
        ensures ok { OnOk result (doings.Each (doings.CarriesInto net.now process)
            (doings.link_places net.now)
            (L.put_on links.old) self.old (L.put_on links.new) self.new) }
        ensures going { OnOk result (KeepsGoing (L.failed links.old) (L.failed links.new)) }
        ensures err { IfErr result (running.FailsOutside (L.failed links.new)) }
    {
        for link in 0..net.links().len() {
            self.carry_into(alloc, net, link, process, links)?;
        }
        Ok(())
    }

    /// Carries all octets of the links into a collecting process, in order, and then empties its aggregations.
    fn finish_process<L: Links>(
        &mut self,
        alloc: Global,
        net: &Net,
        process: usize,
        links: &mut L,
    ) -> Result<(), Fault>
        ensures ok { OnOk result (doings.Finishes net.now process
            (L.put_on links.old) self.old (L.put_on links.new) self.new) }
        ensures going { OnOk result (KeepsGoing (L.failed links.old) (L.failed links.new)) }
        ensures err { IfErr result (running.FailsOutside (L.failed links.new)) }
    {
        self.carry_all_into(alloc, net, process, links)?;
        self.empty_aggregations(net, aggregations_of(net, process), links)?;
        Ok(())
    }

    /// Finishes these collecting processes one after another: first the links into each, and then its aggregations.
    fn finish_processes<L: Links>(
        &mut self,
        alloc: Global,
        net: &Net,
        ranked: &[usize],
        links: &mut L,
    ) -> Result<(), Fault>
        ensures ok { OnOk result (doings.Each (doings.Finishes net.now) ranked.now
            (L.put_on links.old) self.old (L.put_on links.new) self.new) }
        ensures going { OnOk result (KeepsGoing (L.failed links.old) (L.failed links.new)) }
        ensures err { IfErr result (running.FailsOutside (L.failed links.new)) }
    {
        for process in ranked {
            self.finish_process(alloc, net, *process, links)?;
        }
        Ok(())
    }

    /// Empties all caches in document order, and then finishes the collecting processes in the given order.
    fn empty_network<L: Links>(
        &mut self,
        alloc: Global,
        net: &Net,
        ranked: &[usize],
        links: &mut L,
    ) -> Result<(), Fault>
        ensures ok { OnOk result (doings.EmptiesNetwork net.now ranked.now
            (L.put_on links.old) self.old (L.put_on links.new) self.new) }
        ensures going { OnOk result (KeepsGoing (L.failed links.old) (L.failed links.new)) }
        ensures err { IfErr result (running.FailsOutside (L.failed links.new)) }
    {
        self.empty_caches(net, net.devices(), links)?;
        self.finish_processes(alloc, net, ranked, links)?;
        Ok(())
    }
}

impl<'a> Network<'a> {
    /// Meters a frame's packet, of the first class that holds it and with that class's first path, at all its
    /// crossings, and puts what is sent on the links.
    fn read_one<R: Source, L: Links>(
        &mut self,
        capture: &Capture<R>,
        links: &mut L,
        met: &mut Vec<Occurrence>,
    ) -> Result<(), Stop>
        ensures ok { OnOk result (running.ReadsOne self.old self.new capture.now.seen
            (L.put_on links.old) (L.put_on links.new)) }
        ensures going { OnOk result (KeepsGoing (L.failed links.old) (L.failed links.new)) }
        ensures err { IfErr result (λ s. running.FailsOutside (L.failed links.new)
            (running.fault_of s)
            ⊎ ((s ≡ stop.Bare in_no_class) × running.IsOfNone self.old.classes capture.now.seen)) }
    {
        if !self.meter_first(capture, met)? {
            return Err(Stop::Bare {
                number: refusals::IN_NO_CLASS,
            });
        }
        self.contents.finish(links)?;
        Ok(())
    }

    /// Reads the remaining packets, one after another.
    fn read_rest<R: Source, L: Links>(
        &mut self,
        capture: &mut Capture<R>,
        links: &mut L,
    ) -> Result<(), Stop>
        ensures ok { OnOk result (running.ReadsRest self.old self.new capture.old capture.new
            (L.put_on links.old) (L.put_on links.new)) }
        ensures going { OnOk result (KeepsGoing (L.failed links.old) (L.failed links.new)) }
        ensures err { IfErr result (λ s. running.FailsOutside (L.failed links.new)
            (running.fault_of s)
            ⊎ running.RefusesClose self.old capture.old capture.new (running.fault_of s)) }
    {
        let mut met: Vec<Occurrence> = Vec::new(self.alloc);
        while capture.advance()? {
            self.read_one(capture, links, &mut met)?;
        }
        Ok(())
    }

    /// Goes through the closing phase, whatever was returned before.
    fn try_close<R: Source, L: Links>(
        &mut self,
        capture: &mut Capture<R>,
        links: &mut L,
    ) -> Result<(), Stop>
        ensures ok { OnOk result (running.Closes self.old self.new capture.old capture.new
            (L.put_on links.old) (L.put_on links.new)) }
        ensures going { OnOk result (KeepsGoing (L.failed links.old) (L.failed links.new)) }
        ensures err { IfErr result (λ s. running.FailsOutside (L.failed links.new)
            (running.fault_of s)
            ⊎ running.RefusesClose self.old capture.old capture.new (running.fault_of s)) }
    {
        self.read_rest(capture, links)?;
        let plan = self.plan;
        self.contents
            .empty_network(self.alloc, plan.net(), plan.upwards(), links)?;
        Ok(())
    }

    /// Goes through the closing phase: the remaining packets are read as by `next`; every cache is emptied, in document
    /// order, the least key first; then, for each collecting process in the order of ranks, all octets of the links
    /// into it are carried, in order, and its aggregations are emptied.
    ///
    /// Fails with 804, at no place, if no class holds a packet, and as the capture does; with 902 if the links fail and
    /// with 900 if out of memory. From then on each call returns the same fault and changes nothing.
    pub fn close<R: Source, L: Links>(
        &mut self,
        capture: &mut Capture<R>,
        links: &mut L,
    ) -> Result<(), Fault>
        ensures ok { OnOk result (running.Closes self.old self.new capture.old capture.new
            (L.put_on links.old) (L.put_on links.new)) }
        ensures going { OnOk result (KeepsGoing (L.failed links.old) (L.failed links.new)) }
        ensures err { self.old.fault ≡ None → IfErr result
            (λ e. running.FailsOutside (L.failed links.new) e
            ⊎ running.RefusesClose self.old capture.old capture.new e) }
        ensures stopped { IfErr result (λ e. self.new.fault ≡ Some e) }
        ensures again { running.AnswersAgain self.old self.new result }
        ensures untouched { running.LeavesBoth self.old capture.old capture.new links.old
            links.new }
    {
        if let Some(stop) = self.stopped {
            return Err(stop.fault());
        }
        match self.try_close(capture, links) {
            Ok(()) => Ok(()),
            Err(stop) => {
                self.stopped = Some(stop);
                Err(stop.fault())
            }
        }
    }
}
