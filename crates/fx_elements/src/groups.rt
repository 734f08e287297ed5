//! The written form of IPv6 addresses: eight groups in lower case, without leading zeros.
ghost use Rattle.std.specs.Prelude.{◌≡◌, ◌<◌, ◌+◌, ◌*◌, ◌^◌, ◌==◌, ◌&&◌, length, nat_lt, slice_index, IfSome, option_and_then, option_map};
ghost use Rattle.fx_elements.specs.Groups.{hex_of, group_of, groups_of};

use crate::spelling::split_at_byte;

/// Returns the value of a lower-case hexadecimal digit.
#[tactic(auto, unfolding(crate::specs::Groups::hex_of))]
pub fn read_hex(digit: u8) -> Option<u128>
    ensures value { result ≡ hex_of digit }
    ensures bound { IfSome result (λ v. v < 16) }
{
    match digit {
        b'0'..=b'9' => Some((digit - b'0') as u128),
        b'a'..=b'f' => Some((digit - b'a') as u128 + 10),
        _ => None,
    }
}

/// Returns the number that two lower-case hexadecimal digits spell.
#[inline(always)]
fn read_pair(high: u8, low: u8) -> Option<u128>
    ensures value { result ≡ option_and_then
        (λ x. option_map (λ y. x * 16 + y) (hex_of low)) (hex_of high) }
    ensures bound { IfSome result (λ v. v < 256) }
{
    Some(read_hex(high)? * 16 + read_hex(low)?)
}

/// Returns whether a zero precedes other digits.
#[inline(always)]
fn has_leading_zero(text: &[u8]) -> bool
    ensures { result ≡ (nat_lt 1 (length text.now) && slice_index text.now 0 == 48) }
{
    text.len() > 1 && text[0] == b'0'
}

/// Returns the number that this hexadecimal text of one to four digits spells.
fn read_group(text: &[u8]) -> Option<u128>
    ensures value { result ≡ group_of text.now }
    ensures bound { IfSome result (λ v. v < 65536) }
{
    if has_leading_zero(text) {
        return None;
    }
    match text {
        [a] => read_hex(*a),
        [a, b] => read_pair(*a, *b),
        [a, b, c] => Some(read_pair(*a, *b)? * 16 + read_hex(*c)?),
        [a, b, c, d] => Some(read_pair(*a, *b)? * 256 + read_pair(*c, *d)?),
        _ => None,
    }
}

/// The number of colons between the eight groups of an address.
const COLONS: usize = 7;

/// Returns the IPv6 address with these eight groups.
pub fn read_groups(text: &[u8]) -> Option<u128>
    ensures value { result ≡ groups_of text.now }
    ensures bound { IfSome result (λ v. v < 2 ^ 128) }
{
    let mut address: u128 = 0;
    let mut rest = text;
    for _index in 0..COLONS {
        let (group, behind) = split_at_byte(rest, b':')?;
        address = address * 0x1_0000 + read_group(group)?;
        rest = behind;
    }
    Some(address * 0x1_0000 + read_group(rest)?)
}
