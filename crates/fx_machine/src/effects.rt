//! The effects of a step, computed without making it.
ghost use Rattle.std.specs.Prelude.{◌≡◌, ◌⊎◌, ◌++◌, List, length, map, true, Some, Ok, Err, IfOk, IfErr, is_some, slice_get};
ghost use Rattle.fx_base.specs.Entries.{now_of, entry_numbered};
ghost use Rattle.fx_base.specs.Fault.{fault_at, IsMemory};
ghost use Rattle.fx_base.specs.declared.counts.Counts as of_counts;
ghost use Rattle.fx_base.specs.declared.fault.Place.TheVariants as faults;
ghost use Rattle.fx_base.specs.Refusals.{want_of_memory, wrong_choices};
ghost use Rattle.fx_machine.specs.Acts as acts;
ghost use Rattle.fx_machine.specs.Effects as effects;
ghost use Rattle.fx_machine.specs.Holds as holds;
ghost use Rattle.fx_machine.specs.States as states;
ghost use Rattle.fx_machine.specs.Steps as steps;
ghost use Rattle.fx_tables.specs.Classes as traffic;
ghost use Rattle.fx_tables.specs.Network as network;
ghost use Rattle.fx_tables.specs.declared.packet.Packet as of_packet;
ghost use Rattle.fx_tables.specs.declared.record.Record as of_record;
ghost use Rattle.fx_run_text.specs.declared.step.Step.TheVariants as of_step;

use crate::handling::handling_at;
use crate::records::{Records, records_at};
use crate::sending::{choices_from, chosen_links};
use crate::store::{Store, link_place};
use fx_base::{Fault, entry_at, entry_numbered, refusals};
use fx_layout::Key;
use fx_run_text::Step;
use fx_tables::{Classes, HolderName, Holding, Net, Packet, Record};
use std::alloc::{AllocError, Global};
use std::marker::Model;

/// Whether a record is counted at the report.
#[derive(Clone, Copy, Debug, PartialEq, Eq)]
pub enum Tally {
    /// It doesn't reach the report.
    Untallied,
    /// It is counted under its projected key.
    Counted,
    /// It reaches the report, but its layout doesn't refine the report's.
    Unassigned,
}

/// A record that a holder takes in: the 0-based index of the holder in the network's table, and the 1-based position of
/// the held record that it joins, or none for a new record, which is appended.
#[derive(Clone, Copy, Debug)]
pub struct TakenIn {
    pub holder: usize,
    pub joined: Option<u64>,
}

/// The effects of a step, besides removing a crossing or a record from where it was.
#[derive(Debug)]
pub struct Effects {
    links: Vec<usize>,
    taken: Vec<TakenIn>,
    tally: Tally,
}

impl Drop for Effects {
    /// Takes it apart in one place.
    fn drop(self) {
        let Self {
            links: _,
            taken: _,
            tally: _,
        } = self;
    }
}

impl Model for Effects {
    ghost use Rattle.fx_machine.specs.Effects as effects;

    ghost Value = { effects.Effects };

    ghost view = { λ e. record { links = e.links.items; taken = e.taken.items; tally = e.tally } };
}

impl Effects {
    /// Returns the 0-based indices of the links on which the record is put, in order.
    pub fn links(&self) -> &[usize]
        ensures { result.now ≡ self.now.links }
    {
        self.links.as_slice()
    }

    /// Returns what holders take in, in order.
    pub fn taken(&self) -> &[TakenIn]
        ensures { result.now ≡ self.now.taken }
    {
        self.taken.as_slice()
    }

    /// Returns whether the record is counted at the report.
    pub fn tally(&self) -> Tally
        ensures { result ≡ self.now.tally }
    {
        self.tally
    }
}

/// What a step requires before its choices: whether the record is counted at the report, the 0-based indices of the
/// exporting processes that send it, and what holders take in. Each exporting process that isn't parallel takes a
/// choice, followed by each holder.
#[derive(Drop)]
pub struct StepActs<'a> {
    pub tally: Tally,
    pub exporters: &'a [usize],
    pub holdings: Vec<Holding>,
}

/// Returns the key of the record with this 1-based number among those that are new at a holder, if holders take in
/// records by these choices.
fn new_key<'a>(
    holder: usize,
    holdings: &'a [Holding],
    choices: &[Option<u64>],
    number: u64,
) -> Option<&'a Key>
    requires { length holdings.now ≡ length choices.now }
    ensures { now_of result
        ≡ entry_numbered (effects.new_keys holder holdings.now choices.now) number }
{
    if number == 0 {
        return None;
    }
    let mut left = number;
    for index in 0..holdings.len() {
        if choices[index].is_none() && holdings[index].holder == holder {
            if left == 1 {
                return Some(&holdings[index].key);
            }
            left -= 1;
        }
    }
    None
}

/// Returns the key of the record at a 1-based position of a holder after holders took in records by these choices.
fn key_behind<'a>(
    held: &'a [Records],
    holdings: &'a [Holding],
    choices: &[Option<u64>],
    holder: usize,
    position: u64,
) -> Option<&'a Key>
    requires { length holdings.now ≡ length choices.now }
    ensures { now_of result ≡ entry_numbered
        (effects.keys_in (network.entries (slice_get held.now holder))
        ++ effects.new_keys holder holdings.now choices.now) position }
{
    let records = records_at(held, holder);
    let count = records.len() as u64;
    if position > count {
        return new_key(holder, holdings, choices, position - count);
    }
    match entry_numbered(records, position) {
        None => None,
        Some(found) => Some(&found.key),
    }
}

/// Returns whether a holder can take in a record by a choice after other holders took in records by theirs.
fn can_take(
    held: &[Records],
    before: &[Holding],
    chosen: &[Option<u64>],
    holding: &Holding,
    choice: Option<u64>,
) -> bool
    requires { length before.now ≡ length chosen.now }
    ensures { (counts : of_counts.Counts) (now : List (List of_record.Record))
        → holds.hold_all counts before.now held.now chosen.now ≡ Some now
        → result ≡ is_some (holds.held_with now counts holding.now choice) }
{
    if holding.holder >= held.len() {
        return false;
    }
    let Some(position) = choice else {
        return true;
    };
    match key_behind(held, before, chosen, holding.holder, position) {
        None => false,
        Some(key) => key.same(&holding.key),
    }
}

/// Returns whether each of these holders in turn can take in a record by the next choice, and no choice is left.
fn can_take_all(held: &[Records], holdings: &[Holding], choices: &[Option<u64>]) -> bool
    ensures exact { (counts : of_counts.Counts) → result
        ≡ is_some (holds.hold_all counts holdings.now held.now choices.now) }
    ensures same { result ≡ true → length holdings.now ≡ length choices.now }
{
    if holdings.len() != choices.len() {
        return false;
    }
    for index in 0..holdings.len() {
        if !can_take(
            held,
            &holdings[..index],
            &choices[..index],
            &holdings[index],
            choices[index],
        ) {
            return false;
        }
    }
    true
}

/// Returns what each of these holders takes in by the next choice.
fn taken_by(
    alloc: Global,
    holdings: &[Holding],
    choices: &[Option<u64>],
) -> Result<Vec<TakenIn>, AllocError>
    requires { length holdings.now ≡ length choices.now }
    ensures { IfOk result (λ taken. taken.items
        ≡ effects.taken_by (map (λ h. h.holder) holdings.now) choices.now) }
{
    let mut taken: Vec<TakenIn> = Vec::new(alloc);
    for index in 0..holdings.len() {
        taken.push(TakenIn {
            holder: holdings[index].holder,
            joined: choices[index],
        })?;
    }
    Ok(taken)
}

/// Returns what holders take in where a packet makes a crossing of its path.
fn met_holdings(
    alloc: Global,
    net: &Net,
    classes: &Classes,
    packet: &Packet,
    crossing: u64,
) -> Result<Vec<Holding>, AllocError>
    ensures { IfOk result (λ holdings. map holds.hold_act holdings.items
        ≡ steps.crossing_acts net.now packet.now.fields
        (entry_numbered (traffic.path classes.now packet.now) crossing)) }
{
    match entry_numbered(classes.path_of(packet), crossing) {
        None => Ok(Vec::new(alloc)),
        Some(found) => {
            let met = net.occurrences(alloc, found, &packet.fields)?;
            let holdings = net.holdings(alloc, met.as_slice(), &packet.fields)?;
            Ok(holdings)
        }
    }
}

/// Returns what a step requires at which a packet makes a crossing.
fn crossing_acts<'a>(
    alloc: Global,
    net: &'a Net,
    classes: &Classes,
    packets: &[Packet],
    store: &Store,
    packet: u64,
    crossing: u64,
) -> Result<StepActs<'a>, Fault>
    ensures ok { IfOk result (λ a. (s : states.State) → store.now ≡ states.wrapped_state s
        → (choices : acts.Choices) → effects.IsHandled net.now classes.now packets.now
        (of_step.Cross packet crossing choices) s a.tally a.exporters.now a.holdings.items) }
    ensures err { IfErr result (λ e. (e.place ≡ faults.None)
        × ((e.number ≡ want_of_memory) ⊎ ((s : states.State) → store.now ≡ states.wrapped_state s
        → (choices : acts.Choices)
        → steps.after_cross net.now classes.now (network.entry_numbered packets.now packet)
        (steps.place s.coming packet crossing) crossing s choices ≡ Err e.number))) }
{
    if !store.is_to_come(packet, crossing) {
        return Err(Fault::bare(refusals::STEP_NOT_ENABLED));
    }
    let Some(found) = entry_numbered(packets, packet) else {
        return Err(Fault::bare(refusals::STEP_NOT_ENABLED));
    };
    let holdings = met_holdings(alloc, net, classes, found, crossing)?;
    Ok(StepActs {
        tally: Tally::Untallied,
        exporters: &[],
        holdings,
    })
}

/// Returns what a step requires at which a record leaves a holder.
fn leaving_acts<'a>(
    alloc: Global,
    net: &'a Net,
    store: &Store,
    holder: HolderName,
    position: u64,
) -> Result<StepActs<'a>, Fault>
    ensures ok { IfOk result (λ a. (s : states.State) → store.now ≡ states.wrapped_state s
        → (classes : List traffic.Class) → (packets : List of_packet.Packet)
        → (choices : acts.Choices) → effects.IsHandled net.now classes packets
        (of_step.Expire holder position choices) s a.tally a.exporters.now a.holdings.items) }
    ensures err { IfErr result (λ e. (e.place ≡ faults.None)
        × ((s : states.State) → store.now ≡ states.wrapped_state s → (choices : acts.Choices)
        → steps.expire_at net.now (network.holder_place net.now holder) position s choices
        ≡ Err e.number)) }
{
    let Some(index) = net.holder_place(holder) else {
        return Err(Fault::bare(refusals::STEP_NOT_ENABLED));
    };
    let Some(records) = entry_at(store.held(), index) else {
        return Err(Fault::bare(refusals::STEP_NOT_ENABLED));
    };
    let Some(_found) = records.record_numbered(position) else {
        return Err(Fault::bare(refusals::NO_RECORD_THERE));
    };
    Ok(StepActs {
        tally: Tally::Untallied,
        exporters: net.named_by(index),
        holdings: Vec::new(alloc),
    })
}

/// Returns whether a record with this key is counted at the report, given whether it is tallied.
fn tally_when(net: &Net, tallies: bool, key: &Key) -> Tally
    ensures { result ≡ effects.tally_when net.now tallies key.now }
{
    if !tallies {
        Tally::Untallied
    } else if key.layout().refines(net.report_layout()) {
        Tally::Counted
    } else {
        Tally::Unassigned
    }
}

/// Returns what a step requires at which a record leaves a link.
fn arrival_acts<'a>(
    alloc: Global,
    net: &'a Net,
    store: &Store,
    link: u64,
    position: u64,
) -> Result<StepActs<'a>, Fault>
    ensures ok { IfOk result (λ a. (s : states.State) → store.now ≡ states.wrapped_state s
        → (classes : List traffic.Class) → (packets : List of_packet.Packet)
        → (choices : acts.Choices) → effects.IsHandled net.now classes packets
        (of_step.Arrive link position choices) s a.tally a.exporters.now a.holdings.items) }
    ensures err { IfErr result (λ e. (e.place ≡ faults.None)
        × ((e.number ≡ want_of_memory) ⊎ ((s : states.State) → store.now ≡ states.wrapped_state s
        → (choices : acts.Choices)
        → steps.arrive_at net.now (steps.link_place link) position s choices
        ≡ Err e.number))) }
{
    let Some(index) = link_place(link) else {
        return Err(Fault::bare(refusals::STEP_NOT_ENABLED));
    };
    let Some(records) = entry_at(store.carried(), index) else {
        return Err(Fault::bare(refusals::STEP_NOT_ENABLED));
    };
    let Some(found) = records.record_numbered(position) else {
        return Err(Fault::bare(refusals::NO_RECORD_THERE));
    };
    let handling = handling_at(alloc, net, index, &found.key)?;
    Ok(StepActs {
        tally: tally_when(net, handling.tallies, &found.key),
        exporters: handling.exporters,
        holdings: handling.holdings,
    })
}

/// Returns what a step requires, as [`State::acts`](crate::State::acts) does.
pub fn step_acts<'a>(
    alloc: Global,
    net: &'a Net,
    classes: &Classes,
    packets: &[Packet],
    store: &Store,
    step: &Step,
) -> Result<StepActs<'a>, Fault>
    ensures ok { IfOk result (λ a. (s : states.State) → store.now ≡ states.wrapped_state s
        → effects.IsHandled net.now classes.now packets.now step.now s a.tally a.exporters.now
        a.holdings.items) }
    ensures err { IfErr result (λ e. (e.place ≡ faults.None)
        × ((e.number ≡ want_of_memory) ⊎ ((s : states.State) → store.now ≡ states.wrapped_state s
        → steps.after net.now classes.now packets.now step.now s ≡ Err e.number))) }
{
    match step {
        Step::Cross {
            packet,
            crossing,
            ..
        } => crossing_acts(alloc, net, classes, packets, store, *packet, *crossing),
        Step::Expire {
            holder,
            position,
            ..
        } => leaving_acts(alloc, net, store, *holder, *position),
        Step::Arrive { link, position, .. } => arrival_acts(alloc, net, store, *link, *position),
    }
}

/// Returns the effects of what a step requires by these choices.
fn effects_by(
    alloc: Global,
    net: &Net,
    held: &[Records],
    asked: &StepActs<'_>,
    choices: &[Option<u64>],
) -> Result<Effects, Fault>
    ensures ok { IfOk result (λ e. effects.AreChosen net.now held.now asked.now.tally
        asked.now.exporters.now asked.now.holdings.items choices.now e) }
    ensures err { IfErr result (λ e. IsMemory e ⊎ ((e ≡ fault_at wrong_choices faults.None)
        × effects.CannotBeChosen net.now held.now asked.now.exporters.now
        asked.now.holdings.items choices.now)) }
{
    let (links, used) = chosen_links(alloc, net.exporters(), asked.exporters, choices)?;
    let rest = choices_from(choices, used);
    if !can_take_all(held, asked.holdings.as_slice(), rest) {
        return Err(Fault::bare(refusals::WRONG_CHOICES));
    }
    let taken = taken_by(alloc, asked.holdings.as_slice(), rest)?;
    Ok(Effects {
        links,
        taken,
        tally: asked.tally,
    })
}

/// Returns the choices of a step.
fn choices_of(step: &Step) -> &[Option<u64>]
    ensures { result.now ≡ effects.choices_of step.now }
{
    match step {
        Step::Cross { choices, .. } | Step::Expire { choices, .. } | Step::Arrive { choices, .. } =>
            { choices.as_slice() }
    }
}

/// Returns the effects of a step, as [`State::effects`](crate::State::effects) does.
pub fn step_effects(
    alloc: Global,
    net: &Net,
    classes: &Classes,
    packets: &[Packet],
    store: &Store,
    step: &Step,
) -> Result<Effects, Fault>
    ensures ok { IfOk result (λ e. (s : states.State) → store.now ≡ states.wrapped_state s
        → ((next : states.State)
        × (steps.after net.now classes.now packets.now step.now s ≡ Ok next))
        × (effects.effects_of net.now classes.now packets.now step.now s ≡ Some e)) }
    ensures err { IfErr result (λ e. (e.place ≡ faults.None)
        × ((e.number ≡ want_of_memory) ⊎ ((s : states.State) → store.now ≡ states.wrapped_state s
        → steps.after net.now classes.now packets.now step.now s ≡ Err e.number))) }
{
    let asked = step_acts(alloc, net, classes, packets, store, step)?;
    effects_by(alloc, net, store.held(), &asked, choices_of(step))
}
