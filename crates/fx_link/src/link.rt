//! A link: what is being sent on it, the octets that weren't carried yet, and its receiver.
ghost use Rattle.std.specs.Prelude.{◌≡◌, ◌⊎◌, ◌≤◌, ◌++◌, [], true, length, Ok, Some, None, OnOk, OnErr, IfErr, IsSome};
ghost use Rattle.fx_base.specs.Fault.{IsMemory};
ghost use Rattle.fx_session.specs.Streams as streams;
ghost use Rattle.fx_link.specs.Links.{Puts};
ghost use Rattle.fx_link.specs.Ongoing as ongoing;
ghost use Rattle.fx_link.specs.Outgoing as outgoing;
ghost use Rattle.fx_link.specs.Sending as sending;
ghost use Rattle.fx_link.specs.Wires.{new_wire};
ghost use Rattle.fx_base.specs.Device.{IsWriteFault, KeepsGoing};

use crate::links::Links;
use crate::outlet::Outlet;
use crate::stream::Stream;
use fx_base::Fault;
use fx_session::{Session, remove_front};
use fx_tables::Record;
use std::alloc::Global;
use std::marker::Model;

/// A link in use: what is being sent, the octets that were written and weren't carried yet, and what its receiver has
/// read.
pub struct Link {
    outlet: Outlet,
    stream: Stream,
    queue: Vec<u8>,
    session: Session,
}

impl Drop for Link {
    /// Drops its parts here, so that each drop elsewhere is one call.
    fn drop(self) {
        let Self {
            outlet: _,
            stream: _,
            queue: _,
            session: _,
        } = self;
    }
}

impl Model for Link {
    ghost use Rattle.fx_link.specs.Ongoing.{Ongoing};
    ghost use Rattle.fx_link.specs.Outgoing.{with_octets};

    ghost Value = { Ongoing };

    ghost view = { λ l. record {
      outgoing = with_octets l.outlet l.stream.octets.items;
      queue = l.queue.items;
      receiver = l.session;
    } };
}

impl Link {
    /// Creates a link that nothing was put on.
    pub fn new(alloc: Global) -> Result<Link, Fault>
        ensures { result ≡ Ok (ongoing.at_rest new_wire) }
    {
        Ok(Link {
            outlet: Outlet::new(alloc),
            stream: Stream::new(alloc),
            queue: Vec::new(alloc),
            session: Session::new(alloc)?,
        })
    }

    /// Returns whether two more layouts on the link can have template ids: that of the waiting records, and another.
    pub fn has_room(&self) -> bool
        ensures { result ≡ sending.has_room 2 self.now.outgoing.sender }
    {
        self.outlet.has_room()
    }

    /// Puts a record on the link, where it waits for its message. The caller ensures that there are ids, as
    /// [`Link::has_room`] reports.
    ///
    /// Fails with 900, at no place, if out of memory. What is being sent is unspecified then.
    pub fn put(&mut self, time: u32, flow: Record) -> Result<(), Fault>
        requires room { sending.has_room 2 self.old.outgoing.sender ≡ true }
        ensures ok { OnOk result (self.new
            ≡ record self.old { outgoing = outgoing.with_one time self.old.outgoing flow }) }
        ensures err { IfErr result IsMemory }
    {
        self.outlet.put(time, flow, &mut self.stream)
    }

    /// Writes the message of the waiting records.
    ///
    /// Fails with 900, at no place, if out of memory.
    fn flush(&mut self, time: u32) -> Result<(), Fault>
        ensures ok { OnOk result (self.new
            ≡ record self.old { outgoing = outgoing.after_flush time self.old.outgoing }) }
        ensures room { sending.has_room_for self.old.outgoing.batch self.old.outgoing.sender
            ≡ true }
        ensures err { IfErr result IsMemory }
    {
        self.outlet.flush(time, &mut self.stream)
    }

    /// Writes the message of the waiting records, and puts what was written on the link. There is an id for their
    /// layout.
    ///
    /// Fails with 900, at no place, if out of memory, and with the fault of writing the link's octets. What is being
    /// sent, and what was written of it, is unspecified then.
    pub fn finish<L: Links>(&mut self, time: u32, number: u64, links: &mut L) -> Result<(), Fault>
        ensures ok { OnOk result (self.new ≡ ongoing.after_finish time self.old) }
        ensures put { OnOk result (Puts (L.put_on links.old) (L.put_on links.new) number
            (ongoing.to_put time self.old)) }
        ensures room { sending.has_room_for self.old.outgoing.batch self.old.outgoing.sender
            ≡ true }
        ensures going { OnOk result (KeepsGoing (L.failed links.old) (L.failed links.new)) }
        ensures err { IfErr result (λ e. IsMemory e
            ⊎ IsWriteFault (L.failed links.new) e) }
    {
        self.flush(time)?;
        let octets = self.stream.as_slice();
        if !octets.is_empty() {
            links.put(number, octets)?;
            self.queue.extend_from_slice(octets)?;
        }
        self.stream.clear();
        Ok(())
    }

    /// Passes the first `count` octets of the queue to the receiver.
    ///
    /// If the octets of the link are messages without a fault, this fails only with 900, at no place, if out of memory.
    /// After a failure the receiver returns the fault from then on, and nothing else changes.
    pub fn carry(&mut self, count: usize) -> Result<(), Fault>
        requires queue { count ≤ length self.old.queue }
        ensures ok { OnOk result (self.new ≡ ongoing.after_carry count self.old) }
        ensures err { (streams.after_piece self.old.receiver self.old.queue).fault ≡ None
            → IfErr result IsMemory }
        ensures fault { OnErr result (IsSome self.new.receiver.fault) }
        ensures rest { OnErr result (self.new ≡ record self.old { receiver = self.new.receiver }) }
    {
        match self.session.feed(&self.queue.as_slice()[..count]) {
            Ok(()) => {}
            Err(fault) => return Err(fault),
        }
        remove_front(&mut self.queue, count);
        Ok(())
    }

    /// Returns how many octets were written and weren't carried yet.
    pub fn queue_length(&self) -> usize
        ensures { result ≡ length self.now.queue }
    {
        self.queue.len()
    }

    /// Removes and returns the first record that the receiver has read, if there is one.
    pub fn next_record(&mut self) -> Option<Record>
        ensures receiver { streams.IsNextRecord self.old.receiver self.new.receiver result }
        ensures rest { self.new ≡ record self.old { receiver = self.new.receiver } }
    {
        self.session.next_record()
    }
}
