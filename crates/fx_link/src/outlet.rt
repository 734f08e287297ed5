//! Outlets, which gather records into messages.
ghost use Rattle.std.specs.Prelude.{◌≡◌, ◌&&◌, ◌<◌, ◌+◌, ◌++◌, [], ◌∷◌, true, OnOk, IfErr};
ghost use Rattle.std.specs.List.{AllByRecursion};
ghost use Rattle.fx_base.specs.Fault.{IsMemory};
ghost use Rattle.fx_link.specs.Outgoing as outgoing;
ghost use Rattle.fx_link.specs.Sending as sending;

use crate::sender::Sender;
use crate::stream::Stream;
use fx_base::Fault;
use fx_tables::Record;
use std::alloc::Global;
use std::marker::Model;

/// The most records of a message.
const MOST: usize = 64;

/// The sending side of a link: its sender, and the records waiting for their message, which have one layout.
#[derive(Drop)]
pub(crate) struct Outlet {
    sender: Sender,
    batch: Vec<Record>,
}

impl Model for Outlet {
    ghost use Rattle.fx_link.specs.Outgoing.{Waiting, IsWaiting};

    ghost Value = { Waiting };

    ghost view = { λ o. record { sender = o.sender; batch = o.batch.items } };

    ghost invariant = { λ o. IsWaiting (record { sender = o.sender; batch = o.batch.items }) };
}

impl Outlet {
    /// Creates an outlet to a link that nothing was put on.
    pub fn new(alloc: Global) -> Outlet
        ensures { result ≡ record { sender = sending.new_sender; batch = [] } }
    {
        Outlet {
            sender: Sender::new(alloc),
            batch: Vec::new(alloc),
        }
    }

    /// Returns whether two more layouts can have ids: that of the waiting records, and another.
    pub fn has_room(&self) -> bool
        ensures { result ≡ sending.has_room 2 self.now.sender }
    {
        self.sender.has_room()
    }

    /// Returns whether a record can share the message of the waiting ones.
    fn joins(&self, flow: &Record) -> bool
        ensures { result ≡ sending.joins self.now.batch flow.now }
    {
        match self.batch.as_slice() {
            [] => true,
            [first, ..] => flow.layout().same(first.layout()) && self.batch.len() < MOST,
        }
    }

    /// Appends the message of the waiting records, if there are any, to the octets of the link. There is an id for
    /// their layout.
    ///
    /// Fails with 900, at no place, if out of memory.
    pub fn flush(&mut self, time: u32, stream: &mut Stream) -> Result<(), Fault>
        ensures ok { OnOk result (outgoing.with_octets self.new stream.new.octets.items
            ≡ outgoing.after_flush time (outgoing.with_octets self.old stream.old.octets.items)) }
        ensures room { sending.has_room_for self.old.batch self.old.sender ≡ true }
        ensures err { IfErr result IsMemory }
    {
        if self.batch.is_empty() {
            return Ok(());
        }
        self.sender.send(time, self.batch.as_slice(), stream)?;
        self.batch.clear();
        Ok(())
    }

    /// Adds a record to those waiting for their message. If it can't share their message, theirs is written first.
    ///
    /// Fails with 900, at no place, if out of memory.
    pub fn put(&mut self, time: u32, flow: Record, stream: &mut Stream) -> Result<(), Fault>
        requires { sending.has_room 2 self.old.sender ≡ true }
        ensures ok { OnOk result (outgoing.with_octets self.new stream.new.octets.items
            ≡ outgoing.with_one time (outgoing.with_octets self.old stream.old.octets.items) flow) }
        ensures err { IfErr result IsMemory }
    {
        // These lines give the prover what the types of layouts, keys and counts keep.
        let _parts = flow.layout().parts();
        let _values = flow.key.values();
        let _packets = flow.counts.packets;
        let _octets = flow.counts.octets;
        if !self.joins(&flow) {
            self.flush(time, stream)?;
        }
        self.batch.push(flow)?;
        Ok(())
    }
}
