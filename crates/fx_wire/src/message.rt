//! Messages, borrowed from their octets.
ghost use Rattle.std.specs.Prelude.{◌≡◌, ◌+◌, ◌≤◌, length, true, is_ok};
ghost use Rattle.fx_wire.specs.Sets.{sets_of, sets_or_none};
ghost use Rattle.fx_wire.specs.Messages as messages;
ghost use Rattle.fx_wire.specs.MessageReading as reading;

use crate::header::Header;
use crate::malformed::Malformed;
use crate::number::u16_at;
use crate::set::{Sets, check_sets};
use std::marker::Model;

/// A message, borrowed from its octets (RFC 7011, section 3). Its sets are well formed.
#[derive(Drop)]
pub struct Message<'a> {
    header: Header,
    body: &'a [u8],
}

impl<'a> Model for Message<'a> {
    ghost use Rattle.std.specs.Prelude.{◌≡◌, ◌+◌, length, true, is_ok};
    ghost use Rattle.fx_wire.specs.Sets.{sets_of, sets_or_none};
    ghost use Rattle.fx_wire.specs.Messages as messages;

    ghost Value = { messages.Message };

    ghost view = { λ m. record {
      octets = 16
          + length m.body.now;
      header = m.header;
      sets = sets_or_none (sets_of m.body.now);
    } };

    ghost invariant = { λ m. is_ok (sets_of m.body.now) ≡ true };
}

/// The result of parsing the front of a stream.
#[derive(Drop)]
pub enum Parsed<'a> {
    /// The octets are not yet a whole message.
    NeedsMore,
    /// A whole message.
    Message(Message<'a>),
    /// The reason why there is no message: its version, its length, a set's length or a set's id.
    Refused(Malformed),
}

impl<'a> Message<'a> {
    /// Returns the header.
    pub fn header(&self) -> Header
        ensures { result ≡ self.now.header }
    {
        self.header
    }

    /// Returns the number of octets of the message, at least 16.
    pub fn octets(&self) -> usize
        ensures { result ≡ self.now.octets }
    {
        16 + self.body.len()
    }

    /// Returns the sets, in order.
    pub fn sets(&self) -> Sets<'a>
        ensures { result ≡ self.now.sets }
    {
        Sets::new(self.body)
    }
}

/// Parses the message at the front of the octets.
///
/// Needs more octets if there are fewer than 16, or fewer than the length given by a correct header. Refuses, in this
/// order, with 611 a version other than 10 and with 612 a length below 16; then along the sets with 613 a set's length
/// below four or past the message, or fewer than four octets left, and with 615 a reserved set id.
pub fn parse(octets: &[u8]) -> Parsed<'_>
    ensures { reading.front_of result ≡ messages.front octets.now }
{
    if octets.len() < 16 {
        return Parsed::NeedsMore;
    }
    if u16_at(octets, 0) != 10 {
        return Parsed::Refused(Malformed::Version);
    }
    let length = u16_at(octets, 2) as usize;
    if length < 16 {
        return Parsed::Refused(Malformed::MessageLength);
    }
    if octets.len() < length {
        return Parsed::NeedsMore;
    }
    let body = octets.split_at(length).0.split_at(16).1;
    if let Err(why) = check_sets(body) {
        return Parsed::Refused(why);
    }
    Parsed::Message(Message {
        header: Header::read(octets),
        body,
    })
}
