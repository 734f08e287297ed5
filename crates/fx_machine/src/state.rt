//! The state of a run.
ghost use Rattle.std.specs.Prelude.{◌≡◌, ◌⊎◌, ◌↔◌, [], All, Ok, Err, Some, OnOk, OnErr, IfOk, IfErr, IsTrue, is_some, length, slice_get};
ghost use Rattle.fx_base.specs.Entries.{now_of, entry_numbered};
ghost use Rattle.fx_base.specs.Fault.{fault_at, IsMemory};
ghost use Rattle.fx_base.specs.declared.fault.Place.TheVariants as faults;
ghost use Rattle.fx_base.specs.Refusals.{run_packet, want_of_memory};
ghost use Rattle.fx_tables.specs.Classes as traffic;
ghost use Rattle.fx_tables.specs.Network as network;
ghost use Rattle.fx_machine.specs.Effects as effects;
ghost use Rattle.fx_machine.specs.States as states;
ghost use Rattle.fx_machine.specs.Steps as steps;
ghost use Rattle.fx_tables.specs.declared.packet.Packet as of_packet;

use crate::effects::{Effects, StepActs, step_acts, step_effects};
use crate::records::records_at;
use crate::store::Store;
use fx_base::{Fault, entry_numbered, refusals};
use fx_run_text::Step;
use fx_tables::{Classes, Net, Packet, Record};
use std::alloc::Global;
use std::marker::Model;

/// A network in a run: what it holds, and what it runs on.
#[derive(Debug)]
pub struct State<'a> {
    alloc: Global,
    net: &'a Net,
    classes: &'a Classes,
    packets: Vec<Packet>,
    store: Store,
}

impl Drop for State<'_> {
    /// Drops its parts here, so that each drop elsewhere is one call.
    fn drop(self) {
        let Self {
            alloc: _,
            net: _,
            classes: _,
            packets: _,
            store: _,
        } = self;
    }
}

impl<'a> Model for State<'a> {
    ghost use Rattle.fx_machine.specs.Stores as stores;

    ghost Value = { stores.LoadedNetwork };

    ghost view = { λ s. record {
      net = s.net.now;
      classes = s.classes.now;
      packets = s.packets.items;
      state = s.store;
    } };
}

/// Returns whether all packets belong to their classes.
fn all_of(classes: &Classes, packets: &[Packet]) -> bool
    ensures { IsTrue result ↔ All (λ packet. traffic.IsOf packet
        (network.entry_numbered classes.now packet.class)) packets.now }
{
    packets.iter().all(|packet| classes.contains(packet))
}

impl<'a> State<'a> {
    /// Opens a run over these packets: all their crossings are pending, and nothing is held or on a link.
    ///
    /// Fails with 856, at no place, if a packet isn't in its class: its class or path doesn't exist, or the region of
    /// the class doesn't hold its fields; and with 900 if out of memory.
    pub fn open(
        alloc: Global,
        net: &'a Net,
        classes: &'a Classes,
        packets: Vec<Packet>,
    ) -> Result<State<'a>, Fault>
        ensures ok { IfOk result (λ run. (run
            ≡ record {
              net = net.now;
              classes = classes.now;
              packets = packets.items;
              state =
                  states.opening net.now classes.now packets.items;
            })
            × All (λ packet. traffic.IsOf packet (network.entry_numbered classes.now packet.class))
            packets.items) }
        ensures err { IfErr result (λ e. ((e ≡ fault_at run_packet faults.None)
            × (All (λ packet. traffic.IsOf packet (network.entry_numbered classes.now packet.class))
            packets.items → ⊥))
            ⊎ (IsMemory e × All
            (λ packet. traffic.IsOf packet (network.entry_numbered classes.now packet.class))
            packets.items)) }
    {
        if !all_of(classes, packets.as_slice()) {
            return Err(Fault::bare(refusals::RUN_PACKET));
        }
        State::open_classed(alloc, net, classes, packets)
    }

    /// Opens a run over packets that belong to their classes, such as those from [`fx_run_text::read_packets`]; they
    /// aren't checked again.
    ///
    /// Fails with 900, at no place, if out of memory.
    pub fn open_classed(
        alloc: Global,
        net: &'a Net,
        classes: &'a Classes,
        packets: Vec<Packet>,
    ) -> Result<State<'a>, Fault>
        requires { All
            (λ packet. traffic.IsOf packet (network.entry_numbered classes.now packet.class))
            packets.items }
        ensures ok { IfOk result (λ run. run
            ≡ record {
              net = net.now;
              classes = classes.now;
              packets = packets.items;
              state =
                  states.opening net.now classes.now packets.items;
            }) }
        ensures err { IfErr result IsMemory }
    {
        let store = Store::open(alloc, net, classes, packets.as_slice())?;
        Ok(State {
            alloc,
            net,
            classes,
            packets,
            store,
        })
    }

    /// Returns the network that it runs over.
    pub fn net(&self) -> &Net
        ensures { result.now ≡ self.now.net }
    {
        self.net
    }

    /// Returns the classes of its packets.
    pub fn classes(&self) -> &Classes
        ensures { result.now ≡ self.now.classes }
    {
        self.classes
    }

    /// Returns its packets.
    pub fn packets(&self) -> &[Packet]
        ensures { result.now ≡ self.now.packets }
    {
        self.packets.as_slice()
    }

    /// Returns whether a crossing of a packet is pending, by their 1-based numbers.
    pub fn is_to_come(&self, packet: u64, crossing: u64) -> bool
        ensures { result ≡ is_some (steps.place self.now.state.coming packet crossing) }
    {
        self.store.is_to_come(packet, crossing)
    }

    /// Returns the number of records held at a 0-based index of the network's table of holders.
    pub fn records_held(&self, index: usize) -> u64
        ensures { result ≡ length (network.entries (slice_get self.now.state.held index)) }
    {
        records_at(self.store.held(), index).len() as u64
    }

    /// Returns the record at a 1-based position of the holder at a 0-based index of the network's table.
    pub fn record_held(&self, index: usize, position: u64) -> Option<&Record>
        ensures { now_of result ≡ entry_numbered
            (network.entries (slice_get self.now.state.held index)) position }
    {
        entry_numbered(records_at(self.store.held(), index), position)
    }

    /// Returns the number of records on the link at this 0-based index.
    pub fn records_on(&self, link: usize) -> u64
        ensures { result ≡ length (network.entries (slice_get self.now.state.carried link)) }
    {
        records_at(self.store.carried(), link).len() as u64
    }

    /// Returns the record at a 1-based position of the link at this 0-based index.
    pub fn record_on(&self, link: usize, position: u64) -> Option<&Record>
        ensures { now_of result ≡ entry_numbered
            (network.entries (slice_get self.now.state.carried link)) position }
    {
        entry_numbered(records_at(self.store.carried(), link), position)
    }

    /// Returns what a step requires before its choices.
    ///
    /// Fails like [`State::step`], except with 852, since it doesn't look at the choices.
    pub fn acts(&self, step: &Step) -> Result<StepActs<'a>, Fault>
        ensures ok { IfOk result (λ a. (s : states.State)
            → self.now.state ≡ states.wrapped_state s
            → effects.IsHandled self.now.net self.now.classes self.now.packets step.now s a.tally
            a.exporters.now a.holdings.items) }
        ensures err { IfErr result (λ e. (e.place ≡ faults.None)
            × ((e.number ≡ want_of_memory) ⊎ ((s : states.State)
            → self.now.state ≡ states.wrapped_state s
            → steps.after self.now.net self.now.classes self.now.packets step.now s
            ≡ Err e.number))) }
    {
        step_acts(
            self.alloc,
            self.net,
            self.classes,
            self.packets.as_slice(),
            &self.store,
            step,
        )
    }

    /// Returns the effects of a step, besides removing its crossing or its record from where it is.
    ///
    /// Fails like [`State::step`], at no place, with 851, 853, 852 and 900.
    pub fn effects(&self, step: &Step) -> Result<Effects, Fault>
        ensures ok { IfOk result (λ e. (s : states.State)
            → self.now.state ≡ states.wrapped_state s
            → ((next : states.State)
            × (steps.after self.now.net self.now.classes self.now.packets step.now s ≡ Ok next))
            × (effects.effects_of self.now.net self.now.classes self.now.packets step.now s
            ≡ Some e)) }
        ensures err { IfErr result (λ e. (e.place ≡ faults.None)
            × ((e.number ≡ want_of_memory) ⊎ ((s : states.State)
            → self.now.state ≡ states.wrapped_state s
            → steps.after self.now.net self.now.classes self.now.packets step.now s
            ≡ Err e.number))) }
    {
        step_effects(
            self.alloc,
            self.net,
            self.classes,
            self.packets.as_slice(),
            &self.store,
            step,
        )
    }

    /// Makes a step, with its choices.
    ///
    /// Fails, at no place, with 851 if there is no such packet, crossing, holder or link, or the crossing was made;
    /// else with 853 if there is no record at that position; else with 852 if the number of choices is wrong, or a
    /// chosen destination or held record doesn't exist or has another key; and with 900 if out of memory. After a fault
    /// the state is unchanged.
    pub fn step(&mut self, step: &Step) -> Result<(), Fault>
        ensures ok { OnOk result ((s : states.State) → self.old.state ≡ states.wrapped_state s
            → (next : states.State)
            × (steps.after self.old.net self.old.classes self.old.packets step.now s ≡ Ok next)
            × (self.new.state ≡ states.wrapped_state next)) }
        ensures tables { (self.new.net ≡ self.old.net) × (self.new.classes ≡ self.old.classes)
            × (self.new.packets ≡ self.old.packets) }
        ensures same { OnErr result (self.new ≡ self.old) }
        ensures err { IfErr result (λ e. (e.place ≡ faults.None)
            × ((e.number ≡ want_of_memory) ⊎ ((s : states.State)
            → self.old.state ≡ states.wrapped_state s
            → steps.after self.old.net self.old.classes self.old.packets step.now s
            ≡ Err e.number))) }
    {
        match step {
            Step::Cross {
                packet,
                crossing,
                choices,
            } => self.store.cross(
                self.net,
                self.classes,
                self.packets.as_slice(),
                *packet,
                *crossing,
                choices.as_slice(),
            ),
            Step::Expire {
                holder,
                position,
                choices,
            } => self.store.expire(self.alloc, self.net, *holder, *position, choices.as_slice()),
            Step::Arrive {
                link,
                position,
                choices,
            } => self
                .store
                .arrive(self.alloc, self.net, *link, *position, choices.as_slice()),
        }
    }

    /// Returns whether the run is complete: no crossing is pending, nothing is held, and nothing is on a link.
    pub fn complete(&self) -> bool
        ensures { IsTrue result ↔ states.Complete self.now.state }
    {
        self.store.complete()
    }

    /// Returns the totals of the keys tallied so far under the report's layout, in the order of their first tallies.
    pub fn totals(&self) -> &[Record]
        ensures { result.now ≡ self.now.state.totals }
    {
        self.store.totals()
    }

    /// Returns the number of records that couldn't be tallied, modulo 2 to the 64.
    pub fn unassigned(&self) -> u64
        ensures { result ≡ self.now.state.unassigned }
    {
        self.store.unassigned()
    }
}
