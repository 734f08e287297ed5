//! Senders, which write records in messages.
ghost use Rattle.std.specs.Prelude.{◌≡◌, ◌≤◌, ◌<◌, ◌+◌, ◌++◌, ◌^◌, [], ◌∷◌, length, nat_lt, map, Some, OnOk, OnErr, IfErr, true};
ghost use Rattle.std.specs.List.{position_or_len};
ghost use Rattle.fx_base.specs.Fault.{IsMemory};
ghost use Rattle.fx_layout.specs.Keys.{same_layout};
ghost use Rattle.fx_wire.specs.Sets.{set_parts};
ghost use Rattle.fx_wire.specs.Writing.{message_length, message_octets};
ghost use Rattle.fx_link.specs.Records.{records_octets, template_octets};
ghost use Rattle.fx_link.specs.Sending as sending;

use crate::records::put_records;
use crate::stream::Stream;
use crate::templates::put_template;
use fx_base::{Fault, refusals};
use fx_layout::Layout;
use fx_tables::Record;
use fx_wire::{Header, Set, put_message};
use std::alloc::Global;
use std::marker::Model;

/// The state of the sender on a link: the layouts of the records that it has sent, in the order of first use, and the
/// number of records that it has put on the link, modulo 2 to the 32.
#[derive(Drop)]
pub(crate) struct Sender {
    alloc: Global,
    layouts: Vec<Layout>,
    sent: u32,
}

impl Model for Sender {
    ghost use Rattle.fx_link.specs.Sending as sending;

    ghost Value = { sending.Sender };

    ghost view = { λ s. record { layouts = s.layouts.items; sent = s.sent } };

    ghost invariant = { λ s. sending.IsSender (record {
      layouts = s.layouts.items;
      sent = s.sent;
    }) };
}

/// Returns the 0-based place of a layout among these, or their number if it isn't one of them.
fn place_of(layouts: &[Layout], layout: &Layout) -> usize
    ensures place { result ≡ position_or_len (same_layout layout.now) layouts.now }
    ensures bound { result ≤ length layouts.now }
    ensures known { sending.knows layouts.now layout.now ≡ nat_lt result (length layouts.now) }
{
    match layouts {
        [] => 0,
        [used, layouts @ ..] => {
            if layout.same(used) {
                0
            } else {
                1 + place_of(layouts, layout)
            }
        }
    }
}

/// Appends a message to the octets of a link. Fails with 900, at no place, if out of memory.
fn put_sets(stream: &mut Stream, header: &Header, sets: &[Set<'_>]) -> Result<(), Fault>
    requires { message_length (map set_parts sets.now) ≤ 65535 }
    ensures ok { OnOk result (stream.new.octets.items
        ≡ stream.old.octets.items ++ message_octets header.now (map set_parts sets.now)) }
    ensures err { IfErr result IsMemory }
{
    match put_message(stream, header, sets) {
        Ok(()) => Ok(()),
        Err(_) => Err(Fault::bare(refusals::WANT_OF_MEMORY)),
    }
}

impl Sender {
    /// Creates a sender on a link that nothing was put on.
    pub fn new(alloc: Global) -> Sender
        ensures { result ≡ sending.new_sender }
    {
        Sender {
            alloc,
            layouts: Vec::new(alloc),
            sent: 0,
        }
    }

    /// Returns whether two more layouts can have ids.
    pub fn has_room(&self) -> bool
        ensures { result ≡ sending.has_room 2 self.now }
    {
        256 + 2 + self.layouts.len() < 1 << 16
    }

    /// Returns the header of the next message.
    fn header(&self, time: u32) -> Header
        ensures { result ≡ sending.header_at time self.now }
    {
        Header {
            export_time: time,
            sequence_number: self.sent,
            observation_domain: 0,
        }
    }

    /// Writes a message with this header and these records, which have one layout. The layout's template precedes them
    /// if the link hasn't used it yet.
    fn put_batch(
        &mut self,
        header: &Header,
        batch: &[Record],
        stream: &mut Stream,
    ) -> Result<(), Fault>
        requires room { sending.has_room 1 self.old ≡ true }
        requires batch { sending.IsBatch batch.now }
        ensures octets { OnOk result (stream.new.octets.items ≡ stream.old.octets.items
            ++ message_octets header.now (sending.message_sets self.old.layouts batch.now)) }
        ensures sender { OnOk result (self.new ≡ record self.old {
          layouts = sending.layouts_with self.old.layouts (sending.layout_of batch.now);
        }) }
        ensures kept { OnErr result (self.new ≡ self.old) }
        ensures err { IfErr result IsMemory }
    {
        let layout = batch[0].layout();
        let mut content: Vec<u8> = Vec::new(self.alloc);
        put_records(&mut content, batch)?;
        let index = place_of(self.layouts.as_slice(), layout);
        let data = Set {
            id: 256 + index as u16,
            content: content.as_slice(),
        };
        if index < self.layouts.len() {
            return put_sets(stream, header, &[data]);
        }
        let mut template: Vec<u8> = Vec::new(self.alloc);
        put_template(&mut template, data.id, layout)?;
        let declaration = Set {
            id: 2,
            content: template.as_slice(),
        };
        put_sets(stream, header, &[declaration, data])?;
        self.layouts.push(layout.copy())?;
        Ok(())
    }

    /// Appends a message with these records, which have one layout, to the octets of the link.
    ///
    /// Fails with 900, at no place, if out of memory, and is unchanged then.
    #[tactic(auto, unfolding(crate::specs::Sending::batch_octets))]
    pub fn send(&mut self, time: u32, batch: &[Record], stream: &mut Stream) -> Result<(), Fault>
        requires room { sending.has_room 1 self.old ≡ true }
        requires batch { sending.IsBatch batch.now }
        ensures octets { OnOk result (stream.new.octets.items
            ≡ stream.old.octets.items ++ sending.batch_octets time self.old batch.now) }
        ensures sender { OnOk result (self.new ≡ sending.after_batch self.old batch.now) }
        ensures kept { OnErr result (self.new ≡ self.old) }
        ensures err { IfErr result IsMemory }
    {
        let header = self.header(time);
        self.put_batch(&header, batch, stream)?;
        self.sent = self.sent.wrapping_add(batch.len() as u32);
        Ok(())
    }
}
