//! The contents of a network.
ghost use Rattle.std.specs.Prelude.{◌≡◌, ◌⊎◌, ◌&&◌, [], Ok, Err, OnOk, OnErr, IfOk, IfErr, map, replicate, is_some, IsTrue, ◌↔◌};
ghost use Rattle.fx_base.specs.declared.fault.Place.TheVariants as faults;
ghost use Rattle.fx_base.specs.Refusals.{want_of_memory};
ghost use Rattle.fx_machine.specs.Comings as comings;
ghost use Rattle.fx_machine.specs.Holds as holds;
ghost use Rattle.fx_tables.specs.Classes as traffic;
ghost use Rattle.fx_tables.specs.Holdings.{met_holdings};
ghost use Rattle.fx_tables.specs.Network as network;
ghost use Rattle.fx_machine.specs.States as states;
ghost use Rattle.fx_machine.specs.Steps as steps;
ghost use Rattle.fx_machine.specs.Stores as stores;

use crate::coming::{Marks, all_crossed, clear, is_to_come};
use crate::handling::handling_at;
use crate::holding::{Taking, give_all_back, hold_all, hold_met};
use crate::records::Records;
use crate::sending::{choices_from, chosen_links, put_all};
use crate::tallying::send_and_tally;
use fx_base::{Fault, entry_at, entry_numbered, refusals};
use fx_tables::{Classes, HolderName, Net, Occurrence, Packet, Record};
use std::alloc::{AllocError, Global};
use std::marker::Model;

/// What a network holds: the pending crossings, the records at each holder and on each link, the totals, and the number
/// of unassigned records modulo 2 to the 64.
///
/// The lists of where a packet is metered and of what holders take in are used within one step only; they are kept to
/// reuse their memory.
#[derive(Debug, Drop)]
pub struct Store {
    to_come: Vec<Marks>,
    held: Vec<Records>,
    carried: Vec<Records>,
    totals: Vec<Record>,
    unassigned: u64,
    met: Vec<Occurrence>,
    log: Vec<Taking>,
}

impl Model for Store {
    ghost use Rattle.fx_machine.specs.Comings as comings;
    ghost use Rattle.fx_machine.specs.States as states;

    ghost Value = { states.State };

    ghost view = { λ s. record {
      coming = comings.coming_of 1 s.to_come.items;
      held = s.held.items;
      carried = s.carried.items;
      totals = s.totals.items;
      unassigned = s.unassigned;
    } };
}

/// Returns this many empty lists.
fn empty_lists(alloc: Global, count: usize) -> Result<Vec<Records>, AllocError>
    ensures { IfOk result (λ lists. lists.items ≡ replicate count []) }
{
    let mut lists: Vec<Records> = Vec::new(alloc);
    for _place in 0..count {
        lists.push(Records::new(alloc))?;
    }
    Ok(lists)
}

/// Returns whether all these lists are empty.
fn all_empty(lists: &[Records]) -> bool
    ensures { result ≡ states.all_empty lists.now }
{
    for records in lists {
        if !records.is_empty() {
            return false;
        }
    }
    true
}

/// Returns whether nothing is pending, held or carried.
fn nothing_left(to_come: &[Marks], held: &[Records], carried: &[Records]) -> bool
    ensures { result ≡ (comings.all_crossed to_come.now && states.all_empty held.now
        && states.all_empty carried.now) }
{
    all_crossed(to_come) && all_empty(held) && all_empty(carried)
}

/// Returns all crossings of these packets, pending.
fn all_to_come(
    alloc: Global,
    classes: &Classes,
    packets: &[Packet],
) -> Result<Vec<Marks>, AllocError>
    ensures { IfOk result (λ to_come. comings.coming_of 1 to_come.items
        ≡ states.coming_from classes.now 1 packets.now) }
{
    let mut to_come: Vec<Marks> = Vec::with_capacity(alloc, packets.len())?;
    for packet in packets {
        to_come.push(Marks::new(alloc, classes.path_of(packet).len())?)?;
    }
    Ok(to_come)
}

/// Returns the index of the link with this 1-based number.
pub fn link_place(link: u64) -> Option<usize>
    ensures { result ≡ steps.link_place link }
{
    if link == 0 {
        return None;
    }
    Some((link - 1) as usize)
}

/// Removes the record with this number from the list at this index.
fn take_out_at(lists: &mut Vec<Records>, index: usize, number: u64)
    ensures { lists.new.items ≡ stores.taken_out lists.old.items index number }
{
    if index < lists.len() {
        let records = &mut lists[index];
        records.take_out(number);
    }
}

/// Sets the list to where a packet is metered at a crossing of its path.
fn meet(
    met: &mut Vec<Occurrence>,
    net: &Net,
    classes: &Classes,
    packet: &Packet,
    crossing: u64,
) -> Result<(), AllocError>
    ensures { OnOk result (map holds.hold_act
        (met_holdings net.now.holders packet.now.fields met.new.items)
        ≡ steps.crossing_acts net.now packet.now.fields
        (network.entry_numbered (traffic.path classes.now packet.now) crossing)) }
{
    met.clear();
    match entry_numbered(classes.path_of(packet), crossing) {
        None => Ok(()),
        Some(found) => net.push_occurrences(met, found, &packet.fields),
    }
}

impl Store {
    /// Returns a store in which all crossings are pending, and that is otherwise empty.
    pub fn open(
        alloc: Global,
        net: &Net,
        classes: &Classes,
        packets: &[Packet],
    ) -> Result<Store, AllocError>
        ensures { IfOk result (λ store. store ≡ states.opening net.now classes.now packets.now) }
    {
        Ok(Store {
            to_come: all_to_come(alloc, classes, packets)?,
            held: empty_lists(alloc, net.holders().len())?,
            carried: empty_lists(alloc, net.links().len())?,
            totals: Vec::new(alloc),
            unassigned: 0,
            met: Vec::new(alloc),
            log: Vec::new(alloc),
        })
    }

    /// Returns whether no crossing is pending, nothing is held and nothing is on a link.
    pub fn complete(&self) -> bool
        ensures { IsTrue result ↔ states.Complete self.now }
    {
        nothing_left(
            self.to_come.as_slice(),
            self.held.as_slice(),
            self.carried.as_slice(),
        )
    }

    /// Returns the totals.
    pub fn totals(&self) -> &[Record]
        ensures { result.now ≡ self.now.totals }
    {
        self.totals.as_slice()
    }

    /// Returns the number of unassigned records, modulo 2 to the 64.
    pub fn unassigned(&self) -> u64
        ensures { result ≡ self.now.unassigned }
    {
        self.unassigned
    }

    /// Returns whether a crossing of a packet is pending, by their 1-based numbers.
    pub fn is_to_come(&self, packet: u64, crossing: u64) -> bool
        ensures { result ≡ is_some (steps.place self.now.coming packet crossing) }
    {
        is_to_come(self.to_come.as_slice(), packet, crossing)
    }

    /// Returns the records of each holder.
    pub fn held(&self) -> &[Records]
        ensures { result.now ≡ self.now.held }
    {
        self.held.as_slice()
    }

    /// Returns the records on each link.
    pub fn carried(&self) -> &[Records]
        ensures { result.now ≡ self.now.carried }
    {
        self.carried.as_slice()
    }

    /// Makes a crossing of a packet, which the caches there meter.
    pub fn cross(
        &mut self,
        net: &Net,
        classes: &Classes,
        packets: &[Packet],
        packet: u64,
        crossing: u64,
        choices: &[Option<u64>],
    ) -> Result<(), Fault>
        ensures ok { OnOk result ((s : states.State) → self.old ≡ states.wrapped_state s
            → (next : states.State)
            × (steps.after_cross net.now classes.now (network.entry_numbered packets.now packet)
            (steps.place s.coming packet crossing) crossing s choices.now ≡ Ok next)
            × (self.new ≡ states.wrapped_state next)) }
        ensures same { OnErr result (self.new ≡ self.old) }
        ensures err { IfErr result (λ e. (e.place ≡ faults.None)
            × ((e.number ≡ want_of_memory) ⊎ ((s : states.State) → self.old ≡ states.wrapped_state s
            → steps.after_cross net.now classes.now (network.entry_numbered packets.now packet)
            (steps.place s.coming packet crossing) crossing s choices.now ≡ Err e.number))) }
    {
        if !is_to_come(self.to_come.as_slice(), packet, crossing) {
            return Err(Fault::bare(refusals::STEP_NOT_ENABLED));
        }
        let Some(found) = entry_numbered(packets, packet) else {
            return Err(Fault::bare(refusals::STEP_NOT_ENABLED));
        };
        meet(&mut self.met, net, classes, found, crossing)?;
        hold_met(
            &mut self.held,
            &mut self.log,
            net,
            self.met.as_slice(),
            found,
            choices,
        )?;
        clear(&mut self.to_come, packet, crossing);
        Ok(())
    }

    /// Removes a record from a holder and exports it.
    pub fn expire(
        &mut self,
        alloc: Global,
        net: &Net,
        holder: HolderName,
        number: u64,
        choices: &[Option<u64>],
    ) -> Result<(), Fault>
        ensures ok { OnOk result ((s : states.State) → self.old ≡ states.wrapped_state s
            → (next : states.State)
            × (steps.expire_at net.now (network.holder_place net.now holder) number s choices.now
            ≡ Ok next)
            × (self.new ≡ states.wrapped_state next)) }
        ensures same { OnErr result (self.new ≡ self.old) }
        ensures err { IfErr result (λ e. (e.place ≡ faults.None)
            × ((e.number ≡ want_of_memory) ⊎ ((s : states.State) → self.old ≡ states.wrapped_state s
            → steps.expire_at net.now (network.holder_place net.now holder) number s choices.now
            ≡ Err e.number))) }
    {
        let Some(index) = net.holder_place(holder) else {
            return Err(Fault::bare(refusals::STEP_NOT_ENABLED));
        };
        let Some(records) = entry_at(self.held.as_slice(), index) else {
            return Err(Fault::bare(refusals::STEP_NOT_ENABLED));
        };
        let Some(found) = records.record_numbered(number) else {
            return Err(Fault::bare(refusals::NO_RECORD_THERE));
        };
        let entry = found.copy();
        let exporters = net.named_by(index);
        let (links, used) = chosen_links(alloc, net.exporters(), exporters, choices)?;
        if used < choices.len() {
            return Err(Fault::bare(refusals::WRONG_CHOICES));
        }
        if let Err(_) = put_all(&mut self.carried, links.as_slice(), &entry) {
            return Err(Fault::bare(refusals::WANT_OF_MEMORY));
        }
        take_out_at(&mut self.held, index, number);
        Ok(())
    }

    /// Removes a record from a link and has it handled by the collecting process that the link leads to.
    pub fn arrive(
        &mut self,
        alloc: Global,
        net: &Net,
        link: u64,
        number: u64,
        choices: &[Option<u64>],
    ) -> Result<(), Fault>
        ensures ok { OnOk result ((s : states.State) → self.old ≡ states.wrapped_state s
            → (next : states.State)
            × (steps.arrive_at net.now (steps.link_place link) number s choices.now ≡ Ok next)
            × (self.new ≡ states.wrapped_state next)) }
        ensures same { OnErr result (self.new ≡ self.old) }
        ensures err { IfErr result (λ e. (e.place ≡ faults.None)
            × ((e.number ≡ want_of_memory) ⊎ ((s : states.State) → self.old ≡ states.wrapped_state s
            → steps.arrive_at net.now (steps.link_place link) number s choices.now
            ≡ Err e.number))) }
    {
        let Some(index) = link_place(link) else {
            return Err(Fault::bare(refusals::STEP_NOT_ENABLED));
        };
        let Some(records) = entry_at(self.carried.as_slice(), index) else {
            return Err(Fault::bare(refusals::STEP_NOT_ENABLED));
        };
        let Some(found) = records.record_numbered(number) else {
            return Err(Fault::bare(refusals::NO_RECORD_THERE));
        };
        let entry = found.copy();
        let handling = handling_at(alloc, net, index, &entry.key)?;
        let (links, used) = chosen_links(alloc, net.exporters(), handling.exporters, choices)?;
        let left = choices_from(choices, used);
        hold_all(
            &mut self.held,
            &mut self.log,
            handling.holdings.as_slice(),
            &entry.counts,
            left,
        )?;
        if let Err(_) = send_and_tally(
            &mut self.carried,
            &mut self.totals,
            &mut self.unassigned,
            links.as_slice(),
            handling.tallies,
            net.report_layout(),
            &entry,
        ) {
            give_all_back(&mut self.held, self.log.as_slice());
            return Err(Fault::bare(refusals::WANT_OF_MEMORY));
        }
        take_out_at(&mut self.carried, index, number);
        Ok(())
    }
}
