//! What a session knows of its stream between messages.
ghost use Rattle.std.specs.Prelude.{◌≡◌, ◌≢◌, ◌+◌, ◌++◌, ◌%◌, ◌^◌, [], ◌∷◌, Ok, Err, OnErr, Some, None};
ghost use Rattle.fx_session.specs.Calls.{Does, Grows};
ghost use Rattle.fx_session.specs.Messages as messages;
ghost use Rattle.fx_session.specs.Streams as streams;

use crate::domain::{Domain, put_domain, take_domain};
use crate::sets::take_sets;
use crate::stream_fault::StreamFault;
use crate::taken_records::TakenRecords;
use crate::watch::SessionWatch;
use fx_tables::Record;
use fx_wire::Message;
use std::alloc::Global;
use std::collections::BTreeMap;
use std::marker::Model;

/// What a session knows of its stream: its domains, the waiting records, and the numbers of gaps and of skipped
/// records, modulo 2 to the 64.
#[derive(Drop)]
pub(crate) struct StreamState {
    domains: BTreeMap<u32, Domain>,
    taken: TakenRecords,
    gaps: u64,
}

impl Model for StreamState {
    ghost use Rattle.fx_session.specs.Messages as messages;

    ghost Value = { messages.Known };

    ghost view = { λ k. record {
      domains = k.domains.entries;
      waiting = k.taken.waiting;
      gaps =
          k.gaps;
      skipped = k.taken.skipped;
    } };
}

/// Returns the number of gaps after a message with this sequence number, if `next` is due, and reports a gap.
fn gaps_after<W: SessionWatch>(gaps: u64, next: Option<u32>, sequence: u32, watch: &mut W) -> u64
    ensures { result ≡ messages.gaps_after gaps next sequence }
{
    match next {
        None => gaps,
        Some(next) => {
            if next == sequence {
                gaps
            } else {
                watch.on_gap(next);
                gaps.wrapping_add(1)
            }
        }
    }
}

/// Reads a message: its domain, the taken records and the number of gaps change.
///
/// Fails with the fault of the first set that is refused, or if out of memory.
#[tactic(auto, unfolding(crate::specs::Messages::message_read))]
fn read_message<W: SessionWatch>(
    alloc: Global,
    domains: &mut BTreeMap<u32, Domain>,
    taken: &mut TakenRecords,
    gaps: &mut u64,
    message: &Message<'_>,
    watch: &mut W,
) -> Result<(), StreamFault>
    ensures done { Does result
        (messages.message_read (record {
          domains = domains.old.entries;
          waiting = taken.old.waiting;
          gaps = gaps.old;
          skipped = taken.old.skipped;
        }) message.now)
        (record {
          domains = domains.new.entries;
          waiting = taken.new.waiting;
          gaps = gaps.new;
          skipped = taken.new.skipped;
        }) }
    ensures grows { Grows taken.old.waiting taken.new.waiting }
    ensures gaps_stay { OnErr result (gaps.new ≡ gaps.old) }
{
    let header = message.header();
    let number = header.observation_domain;
    let sequence = header.sequence_number;
    let domain = take_domain(alloc, domains, number);
    let next = domain.next;
    let mut templates = domain.templates;
    taken.start();
    take_sets(alloc, &mut templates, taken, message.sets(), watch)?;
    let read = Domain {
        templates,
        next: Some(sequence.wrapping_add(taken.count())),
    };
    put_domain(domains, number, read)?;
    *gaps = gaps_after(*gaps, next, sequence, watch);
    Ok(())
}

impl StreamState {
    /// Creates a state that knows nothing.
    pub fn new(alloc: Global) -> StreamState
        ensures { result ≡ record { domains = []; waiting = []; gaps = 0; skipped = 0 } }
    {
        StreamState {
            domains: BTreeMap::new(alloc),
            taken: TakenRecords::new(alloc),
            gaps: 0,
        }
    }

    /// Forgets all domains.
    pub fn forget(&mut self)
        ensures { self.new ≡ messages.without_domains self.old }
    {
        self.domains.clear();
    }

    /// Reads a message. If it is refused, nothing of it is kept and all domains are forgotten.
    ///
    /// Fails with the fault of its first set that is refused, or if out of memory.
    pub fn take_message<W: SessionWatch>(
        &mut self,
        alloc: Global,
        message: &Message<'_>,
        watch: &mut W,
    ) -> Result<(), StreamFault>
        ensures done { Does result (messages.message_read self.old message.now) self.new }
        ensures forgets { OnErr result (self.new ≡ messages.without_domains self.old) }
    {
        let waiting = self.taken.waiting();
        let skipped = self.taken.skipped();
        match read_message(
            alloc,
            &mut self.domains,
            &mut self.taken,
            &mut self.gaps,
            message,
            watch,
        ) {
            Ok(()) => Ok(()),
            Err(fault) => {
                self.taken.cut_back(waiting, skipped);
                self.forget();
                Err(fault)
            }
        }
    }

    /// Removes and returns the first waiting record, if there is one.
    pub fn next_record(&mut self) -> Option<Record>
        ensures { streams.FirstLeaves self.old self.new result }
    {
        self.taken.next()
    }

    /// Returns the waiting records, in order: those of the first slice, then those of the second.
    pub fn records(&self) -> (&[Record], &[Record])
        ensures { self.now.waiting ≡ result.0.now ++ result.1.now }
    {
        self.taken.records()
    }

    /// Removes all waiting records.
    pub fn clear_records(&mut self)
        ensures { self.new ≡ streams.known_without_waiting self.old }
    {
        self.taken.clear();
    }

    /// Returns the number of gaps, modulo 2 to the 64.
    pub fn gaps(&self) -> u64
        ensures { result ≡ self.now.gaps }
    {
        self.gaps
    }

    /// Returns the number of skipped records, modulo 2 to the 64.
    pub fn skipped(&self) -> u64
        ensures { result ≡ self.now.skipped }
    {
        self.taken.skipped()
    }
}
