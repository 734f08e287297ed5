//! Sets of a message.
ghost use Rattle.std.specs.Prelude.{◌≡◌, ◌-◌, ◌&&◌, not, ◌==◌, nat_lt, length, Ok, Err, true, is_ok};
ghost use Rattle.std.specs.Iterator.{YieldsFirstBy, item_count};
ghost use Rattle.fx_wire.specs.Parsing.{IsSetAt, SetsStand};
ghost use Rattle.fx_wire.specs.Sets.{set_parts, sets_of, sets_or_none, is_reserved};

use crate::malformed::Malformed;
use crate::number::u16_at;
use std::marker::Model;

/// A set, borrowed from its message (RFC 7011, section 3.3).
#[derive(Clone, Copy, Debug, Drop)]
pub struct Set<'a> {
    /// 2 for template sets, 3 for options template sets, and from 256 on the id of a template.
    pub id: u16,
    /// The records, followed by octets of padding.
    pub content: &'a [u8],
}

/// Returns whether no set may have this id.
fn is_reserved_id(id: u16) -> bool
    ensures { result ≡ is_reserved id }
{
    id < 256 && id != 2 && id != 3
}

/// Returns the set at the front and the octets after it.
///
/// Fails with [`Malformed::SetLength`] if there are fewer than four octets, or the set's length is below four or past
/// them, and otherwise with [`Malformed::SetId`] if its id is reserved.
pub(crate) fn read_set(octets: &[u8]) -> Result<(Set<'_>, &[u8]), Malformed>
    ensures { IsSetAt octets.now result }
{
    if octets.len() < 4 {
        return Err(Malformed::SetLength);
    }
    let length = u16_at(octets, 2) as usize;
    if length < 4 || octets.len() < length {
        return Err(Malformed::SetLength);
    }
    let id = u16_at(octets, 0);
    if is_reserved_id(id) {
        return Err(Malformed::SetId);
    }
    let (set, rest) = octets.split_at(length);
    let content = set.split_at(4).1;
    Ok((Set { id, content }, rest))
}

/// Checks whether the octets are sets, and fails at the first that isn't.
pub(crate) fn check_sets(octets: &[u8]) -> Result<(), Malformed>
    ensures { SetsStand octets.now result }
{
    let mut rest = octets;
    while !rest.is_empty() {
        rest = read_set(rest)?.1;
    }
    Ok(())
}

/// The sets of a message, in order.
#[derive(Drop)]
pub struct Sets<'a> {
    rest: &'a [u8],
}

impl<'a> Model for Sets<'a> {
    ghost use Rattle.std.specs.Prelude.{◌≡◌, List, true, is_ok};
    ghost use Rattle.fx_wire.specs.Sets.{SetParts, sets_of, sets_or_none};

    ghost Value = { List SetParts };

    ghost view = { λ s. sets_or_none (sets_of s.rest.now) };

    ghost invariant = { λ s. is_ok (sets_of s.rest.now) ≡ true };
}

impl<'a> Sets<'a> {
    /// Returns the sets in these octets, which are well formed.
    pub(crate) fn new(octets: &'a [u8]) -> Sets<'a>
        requires { is_ok (sets_of octets.now) ≡ true }
        ensures { result ≡ sets_or_none (sets_of octets.now) }
    {
        Sets { rest: octets }
    }
}

impl<'a> Iterator for Sets<'a> {
    type Item = Set<'a>;

    ghost next_gives = { YieldsFirstBy set_parts (λ s. s) };

    ghost remaining = { item_count (λ s. s) };

    fn next(&mut self) -> Option<Set<'a>> {
        if self.rest.is_empty() {
            return None;
        }
        match read_set(self.rest) {
            Ok((set, behind)) => {
                self.rest = behind;
                Some(set)
            }
            Err(_) => unreachable!(),
        }
    }
}
