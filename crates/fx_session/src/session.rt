//! Sessions, which read a stream in pieces.
ghost use Rattle.std.specs.Prelude.{◌≡◌, ◌≢◌, ◌≤◌, ◌++◌, ℕ, List, length, take, Ok, Err, Some, None, IsSome};
ghost use Rattle.fx_tables.specs.declared.record.Record.{Record};
ghost use Rattle.fx_session.specs.StreamFaults.{number_of};
ghost use Rattle.fx_session.specs.Streams as streams;
ghost use Rattle.fx_session.specs.declared.stream_fault.StreamFault.TheVariants as faults;
ghost use Rattle.fx_base.specs.Refusals.{want_of_memory};

use crate::front::remove_front;
use crate::stream_fault::StreamFault;
use crate::stream_state::StreamState;
use crate::watch::{SessionWatch, Unwatched};
use fx_base::{Fault, refusals};
use fx_tables::Record;
use fx_wire::{Parsed, parse};
use std::alloc::Global;
use std::marker::Model;

/// Reads the whole messages at the front. Returns how many octets they have, and the fault that stopped the reading, if
/// any.
fn take_messages<W: SessionWatch>(
    alloc: Global,
    known: &mut StreamState,
    place: &mut u64,
    octets: &[u8],
    watch: &mut W,
) -> (usize, Option<StreamFault>)
    ensures read { result.1 ≢ Some faults.OutOfMemory
        → streams.read_all known.old place.old octets.now
        ≡ streams.left_by known.new place.new octets.now result }
    ensures bound { result.0 ≤ length octets.now }
    ensures stops { streams.Stops known.old place.old (take result.0 octets.now) result.1 known.new
        place.new }
{
    let mut at: usize = 0;
    'each: loop {
        let rest = octets.split_at(at).1;
        match parse(rest) {
            Parsed::NeedsMore => return (at, None),
            Parsed::Refused(why) => {
                known.forget();
                watch.on_malformed(*place, rest, why);
                return (at, Some(StreamFault::Malformed(why)));
            }
            Parsed::Message(message) => {
                let count = message.octets();
                watch.on_message(*place, &message);
                match known.take_message(alloc, &message, watch) {
                    Ok(()) => {
                        at += count;
                        *place = place.saturating_add(count as u64);
                    }
                    Err(fault) => return (at, Some(fault)),
                }
            }
        }
    }
}

/// A reader of a stream of messages, which arrives in pieces, into flow records.
///
/// A session is seen as what it knows (each domain's templates and next sequence number, the waiting records, the
/// numbers of gaps and of skipped records), the place of the first octet of the unfinished message, that message's
/// octets, and the number of the fault that it returns from then on.
pub struct Session {
    alloc: Global,
    known: StreamState,
    place: u64,
    octets: Vec<u8>,
    fault: Option<StreamFault>,
}

impl Drop for Session {
    /// Drops its parts here, so that each drop elsewhere is one call.
    fn drop(self) {
        let Self {
            alloc: _,
            known: _,
            place: _,
            octets: _,
            fault: _,
        } = self;
    }
}

impl Model for Session {
    ghost use Rattle.std.specs.Prelude.{option_map};
    ghost use Rattle.fx_session.specs.StreamFaults.{number_of};
    ghost use Rattle.fx_session.specs.Streams as streams;

    ghost Value = { streams.SessionState };

    ghost view = { λ s. record {
      known = s.known;
      place = s.place;
      rest = s.octets.items;
      fault = option_map number_of s.fault;
    } };
}

/// Returns the fault for a refused message whose first octet is at this place.
fn fault_of(place: u64, fault: StreamFault) -> Fault
    ensures { result ≡ streams.fault_of place (number_of fault) }
{
    match fault {
        StreamFault::OutOfMemory => Fault::bare(refusals::WANT_OF_MEMORY),
        _ => Fault::at_octet(fault.number(), place),
    }
}

impl Session {
    /// Creates a session that has read nothing. It allocates no memory yet, so it doesn't fail.
    pub fn new(alloc: Global) -> Result<Session, Fault>
        ensures { result ≡ Ok streams.start }
    {
        Ok(Session {
            alloc,
            known: StreamState::new(alloc),
            place: 0,
            octets: Vec::new(alloc),
            fault: None,
        })
    }

    /// Continues reading with a piece of the stream: each message that it completes is read, and its records wait.
    ///
    /// Fails at the first octet of the first message that is refused: with 611 for a version other than 10, 612 for a
    /// message length below 16, 613 for a set's length, 615 for a reserved set id; then, in the order of the sets, with
    /// 614 for a template's form, 618 for a counter of flows of another length than 8 octets, 616 for another template
    /// under a live id, 617 for a data set without a template, 619 for a record that passes its set's end, 620 for a
    /// prefix length above 32, or above 128 for IPv6. Fails with 900, at no place, if out of memory; some of the first
    /// messages may have been read then. Each later call returns the same fault; the records of the messages before it
    /// still wait, and there are none of the refused message.
    pub fn feed(&mut self, piece: &[u8]) -> Result<(), Fault>
        ensures answer { result ≡ streams.answer_of self.new.place self.new.fault }
        ensures fed { self.new.fault ≢ Some want_of_memory
            → self.new ≡ streams.after_piece self.old piece.now }
        ensures again { IsSome self.old.fault → self.new ≡ self.old }
        ensures starves { self.old.fault ≡ None → self.new.fault ≡ Some want_of_memory
            → streams.Starves self.old piece.now self.new }
    {
        self.feed_watched(piece, &mut Unwatched)
    }

    /// Continues reading with a piece of the stream like [`Session::feed`], and reports the contents of the messages to
    /// `watch`. The result is the same for every observer.
    pub fn feed_watched<W: SessionWatch>(
        &mut self,
        piece: &[u8],
        watch: &mut W,
    ) -> Result<(), Fault>
        ensures answer { result ≡ streams.answer_of self.new.place self.new.fault }
        ensures fed { self.new.fault ≢ Some want_of_memory
            → self.new ≡ streams.after_piece self.old piece.now }
        ensures again { IsSome self.old.fault → self.new ≡ self.old }
        ensures starves { self.old.fault ≡ None → self.new.fault ≡ Some want_of_memory
            → streams.Starves self.old piece.now self.new }
    {
        if let Some(fault) = self.fault {
            return Err(fault_of(self.place, fault));
        }
        if let Err(_) = self.octets.extend_from_slice(piece) {
            self.fault = Some(StreamFault::OutOfMemory);
            self.octets.clear();
            self.known.forget();
            return Err(fault_of(self.place, StreamFault::OutOfMemory));
        }
        let (at, fault) = take_messages(
            self.alloc,
            &mut self.known,
            &mut self.place,
            self.octets.as_slice(),
            watch,
        );
        self.fault = fault;
        match fault {
            None => {
                remove_front(&mut self.octets, at);
                Ok(())
            }
            Some(fault) => {
                self.octets.clear();
                Err(fault_of(self.place, fault))
            }
        }
    }

    /// Removes and returns the first waiting record; `None` if there is none.
    pub fn next_record(&mut self) -> Option<Record>
        ensures { streams.IsNextRecord self.old self.new result }
    {
        self.known.next_record()
    }

    /// Returns the waiting records, in order: those of the first slice, then those of the second.
    pub fn records(&self) -> (&[Record], &[Record])
        ensures { self.now.known.waiting ≡ result.0.now ++ result.1.now }
    {
        self.known.records()
    }

    /// Removes all waiting records.
    pub fn clear_records(&mut self)
        ensures { self.new ≡ streams.without_waiting self.old }
    {
        self.known.clear_records();
    }

    /// Returns how many messages had another sequence number than the one expected in their domain, modulo 2 to the 64.
    pub fn gaps(&self) -> u64
        ensures { result ≡ self.now.known.gaps }
    {
        self.known.gaps()
    }

    /// Returns how many data records gave no flow record because their template lacks a counter, modulo 2 to the 64.
    /// Records under options templates aren't counted.
    pub fn skipped(&self) -> u64
        ensures { result ≡ self.now.known.skipped }
    {
        self.known.skipped()
    }

    /// Returns the place in the stream of the first octet of the unfinished message, or of the refused one; 2 to the 64
    /// minus 1 if it is further on.
    pub fn place(&self) -> u64
        ensures { result ≡ self.now.place }
    {
        self.place
    }

    /// Returns the octets of the unfinished message that were fed so far; none after a fault.
    pub fn unfinished(&self) -> &[u8]
        ensures { result.now ≡ self.now.rest }
    {
        self.octets.as_slice()
    }

    /// Returns how many octets of an unfinished message there are.
    pub fn left(&self) -> usize
        ensures { result ≡ length self.now.rest }
    {
        self.octets.len()
    }
}

/// States that feeding one piece and then another is the same as feeding both as one, for every session: it doesn't
/// matter how a stream is cut.
pub fn pieces()
    ensures { (st : streams.SessionState) (a : List ℕ) (b : List ℕ)
        → streams.after_piece (streams.after_piece st a) b ≡ streams.after_piece st (a ++ b) }
{}

/// States that waiting records precede those that a piece adds, and change nothing else, for every session: it doesn't
/// matter when they are taken out.
pub fn waiting()
    ensures { (before : List Record) (st : streams.SessionState) (piece : List ℕ)
        → streams.after_piece (streams.behind before st) piece
        ≡ streams.behind before (streams.after_piece st piece) }
{}
