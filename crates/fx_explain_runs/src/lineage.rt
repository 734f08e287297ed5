//! The fate of the records of a packet that is the only one of a run, step by step.
use crate::ways::{Event, Ways, is_some_at};
use fx_base::entry_numbered;
use fx_explanation::{Documents, Explanation, unless_refused};
use fx_machine::{Effects, State, TakenIn, Tally};
use fx_run_text::Step;
use fx_tables::{Crossing, HolderName, Net, Occurrence, Packet};
use std::alloc::{AllocError, Global};

/// A packet is metered at a crossing and counted in a record.
#[derive(Clone, Copy)]
pub(crate) struct Sighting {
    /// The 1-based number of the crossing on the packet's path.
    pub(crate) crossing: u64,
    /// Where it is metered there.
    pub(crate) occurrence: Occurrence,
    /// The 0-based number of the record.
    pub(crate) record: usize,
}

/// A record that a step handled: the 0-based index of the step, and the cache or the aggregation that the record left
/// last.
#[derive(Clone, Copy)]
pub(crate) struct Handled {
    pub(crate) step: usize,
    pub(crate) holder: HolderName,
}

/// The records that are held and on links, given the effects of the steps so far.
struct Places {
    /// The 0-based numbers of the records of each holder, by position.
    held: Vec<Vec<usize>>,
    /// For each link, the steps that sent its records, by position.
    carried: Vec<Vec<Handled>>,
    /// The number of records that were held so far.
    count: usize,
}

impl Drop for Places {
    /// Drops its parts in one place.
    fn drop(self) {
        let Self {
            held: _,
            carried: _,
            count: _,
        } = self;
    }
}

/// Returns the given number of empty lists.
fn empty_lists<T: Drop>(alloc: Global, count: usize) -> Result<Vec<Vec<T>>, AllocError> {
    let mut lists = Vec::new(alloc);
    for _place in 0..count {
        lists.push(Vec::new(alloc))?;
    }
    Ok(lists)
}

/// Removes the entry at a 1-based position from the list at a 0-based index, and returns it, if it is there.
fn take_out<T: Copy + Drop>(lists: &mut [Vec<T>], index: usize, position: u64) -> Option<T> {
    let list = lists.get_mut(index)?;
    let entry = entry_numbered(list.as_slice(), position).copied()?;
    let _entry = list.remove(position.saturating_sub(1) as usize);
    Some(entry)
}

impl Places {
    /// Returns the number of the record that takes something in, which is a new or an existing one.
    fn take_in(&mut self, taken: &TakenIn) -> Result<usize, AllocError> {
        let record = self.count;
        let Some(records) = self.held.get_mut(taken.holder) else {
            return Ok(record);
        };
        if let Some(joined) = entry_numbered(records.as_slice(), taken.joined.unwrap_or(0)) {
            return Ok(*joined);
        }
        records.push(record)?;
        self.count = record.saturating_add(1);
        Ok(record)
    }

    /// Adds a record to each of these links.
    fn send(&mut self, links: &[usize], sent: Handled) -> Result<(), AllocError> {
        for link in links {
            if let Some(records) = self.carried.get_mut(*link) {
                records.push(sent)?;
            }
        }
        Ok(())
    }
}

/// The run of a packet that is the only one in it, and the fate of its records so far.
pub(crate) struct Lineage<'a> {
    alloc: Global,
    net: &'a Net,
    packet: &'a Packet,
    path: &'a [Crossing],
    state: State<'a>,
    places: Places,
    events: Vec<Event>,
    /// Where the packet was metered.
    pub(crate) sightings: Vec<Sighting>,
    /// The holders that the records that reached the report left last.
    pub(crate) reported: Vec<HolderName>,
    /// The steps after which a record of it was lost.
    pub(crate) lost: Vec<Handled>,
    /// The number of steps that were made.
    made: usize,
}

impl Drop for Lineage<'_> {
    /// Drops its parts in one place.
    fn drop(self) {
        let Self {
            alloc: _,
            net: _,
            packet: _,
            path: _,
            state: _,
            places: _,
            events: _,
            sightings: _,
            reported: _,
            lost: _,
            made: _,
        } = self;
    }
}

/// Returns the records of a network that holds and carries nothing.
fn no_records(alloc: Global, net: &Net) -> Result<Places, AllocError> {
    Ok(Places {
        held: empty_lists(alloc, net.holders().len())?,
        carried: empty_lists(alloc, net.links().len())?,
        count: 0,
    })
}

impl<'a> Lineage<'a> {
    /// Returns the lineage before the first step of a run of this packet. Returns `None` if the packet isn't of its
    /// class, or if out of memory, which the explanation notes.
    pub(crate) fn new(
        out: &mut Explanation,
        documents: &Documents<'a>,
        packet: &'a Packet,
    ) -> Option<Lineage<'a>> {
        let alloc = out.alloc;
        let net = documents.plan.net();
        let classes = documents.traffic.classes();
        let packets = out.unless_short(Vec::from_slice(alloc, &[*packet]))?;
        let opened = State::open(alloc, net, classes, packets);
        let state = unless_refused(out, opened)?;
        let places = out.unless_short(no_records(alloc, net))?;
        Some(Lineage {
            alloc,
            net,
            packet,
            path: classes.path_of(packet),
            state,
            places,
            events: Vec::new(alloc),
            sightings: Vec::new(alloc),
            reported: Vec::new(alloc),
            lost: Vec::new(alloc),
            made: 0,
        })
    }

    /// Returns the record at a 1-based position of the link with this 1-based number.
    pub(crate) fn sent(&self, link: u64, position: u64) -> Option<Handled> {
        let records = entry_numbered(self.places.carried.as_slice(), link)?;
        entry_numbered(records.as_slice(), position).copied()
    }

    /// Notes where the packet is metered at the crossing with this 1-based number.
    fn cross(&mut self, number: u64, effects: &Effects) -> Result<(), AllocError> {
        let Some(crossing) = entry_numbered(self.path, number) else {
            return Ok(());
        };
        let occurrences = self
            .net
            .occurrences(self.alloc, crossing, &self.packet.fields)?;
        let taken = effects.taken();
        for index in 0..occurrences.len().min(taken.len()) {
            let record = self.places.take_in(&taken[index])?;
            self.sightings.push(Sighting {
                crossing: number,
                occurrence: occurrences[index],
                record,
            })?;
        }
        Ok(())
    }

    /// Notes a step after which a record is lost.
    fn note_lost(&mut self, effects: &Effects, handled: Handled) -> Result<(), AllocError> {
        if effects.links().is_empty()
            && effects.taken().is_empty()
            && effects.tally() == Tally::Untallied
        {
            self.lost.push(handled)?;
        }
        Ok(())
    }

    /// Notes the fate of a record that leaves a holder.
    fn expire(
        &mut self,
        holder: HolderName,
        position: u64,
        effects: &Effects,
    ) -> Result<(), AllocError> {
        let step = self.made;
        let index = self.net.holder_place(holder).unwrap_or(usize::MAX);
        if let Some(record) = take_out(self.places.held.as_mut_slice(), index, position) {
            let handled = Handled { step, holder };
            self.events.push(Event::Left { step, record })?;
            self.places.send(effects.links(), handled)?;
            self.note_lost(effects, handled)?;
        }
        Ok(())
    }

    /// Notes the fate of a record that arrives by the link with this 1-based number.
    fn arrive(&mut self, link: u64, position: u64, effects: &Effects) -> Result<(), AllocError> {
        let step = self.made;
        let index = link.saturating_sub(1) as usize;
        let Some(sent) = take_out(self.places.carried.as_mut_slice(), index, position) else {
            return Ok(());
        };
        let is_reported = effects.tally() != Tally::Untallied;
        self.events.push(Event::Arrived {
            step,
            sent: sent.step,
            is_reported,
        })?;
        if is_reported {
            self.reported.push(sent.holder)?;
        }
        let handled = Handled {
            step,
            holder: sent.holder,
        };
        self.places.send(effects.links(), handled)?;
        for taken in effects.taken() {
            let into = self.places.take_in(taken)?;
            self.events.push(Event::Taken { step, into })?;
        }
        self.note_lost(effects, handled)
    }

    /// Notes the effects of a step.
    fn note(&mut self, step: &Step, effects: &Effects) -> Result<(), AllocError> {
        match step {
            Step::Cross { crossing, .. } => self.cross(*crossing, effects),
            Step::Expire {
                holder,
                position,
                ..
            } => self.expire(*holder, *position, effects),
            Step::Arrive { link, position, .. } => self.arrive(*link, *position, effects),
        }
    }

    /// Makes a step, unless it is refused.
    pub(crate) fn take(&mut self, out: &mut Explanation, step: &Step) {
        let read = self.state.effects(step);
        if let Some(effects) = unless_refused(out, read) {
            let noted = self.note(step, &effects);
            let _noted = out.unless_short(noted);
            let made = self.state.step(step);
            let _made = unless_refused(out, made);
        }
        self.made = self.made.saturating_add(1);
    }

    /// Returns the ways by which records reached the report.
    pub(crate) fn ways(&self) -> Result<Ways, AllocError> {
        Ways::of(
            self.alloc,
            self.events.as_slice(),
            self.made,
            self.places.count,
        )
    }

    /// Returns where the packet was metered in records that reached the report.
    pub(crate) fn reported_sightings(&self, ways: &Ways) -> Result<Vec<Sighting>, AllocError> {
        let mut found = Vec::new(self.alloc);
        for sighting in self.sightings.as_slice() {
            if is_some_at(ways.records.as_slice(), sighting.record) {
                found.push(*sighting)?;
            }
        }
        Ok(found)
    }
}
