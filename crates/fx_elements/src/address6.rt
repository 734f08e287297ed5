//! IPv6 addresses in all of their spellings (RFC 4291, section 2.2).
ghost use Rattle.std.specs.Prelude.{◌≡◌, ◌<◌, ◌≤◌, ◌+◌, ◌*◌, ◌^◌, ◌⊎◌, ℕ, List, Some, IfSome, option_and_then, option_map};
ghost use Rattle.fx_elements.specs.Groups.{groups};
ghost use Rattle.fx_elements.specs.Address6.{any_hex_of, any_group_of, last_of, side_of, cut_at_zeros, address6_of, prefix6_of, IsUncompressed, IsCompressed, no_groups, side_with};

use crate::groups::read_hex;
use crate::spelling::{read_number, read_quad, split_at_byte};

/// Returns the value of a hexadecimal digit of either case.
#[tactic(auto, unfolding(crate::specs::Address6::any_hex_of, crate::specs::Groups::hex_of))]
fn read_any_hex(digit: u8) -> Option<u128>
    ensures value { result ≡ any_hex_of digit }
    ensures bound { IfSome result (λ v. v < 16) }
{
    match digit {
        b'A'..=b'F' => Some((digit - b'A') as u128 + 10),
        _ => read_hex(digit),
    }
}

/// Returns the number that two hexadecimal digits of either case spell.
#[inline(always)]
fn read_any_pair(high: u8, low: u8) -> Option<u128>
    ensures value { result ≡ option_and_then
        (λ x. option_map (λ y. x * 16 + y) (any_hex_of low)) (any_hex_of high) }
    ensures bound { IfSome result (λ v. v < 256) }
{
    Some(read_any_hex(high)? * 16 + read_any_hex(low)?)
}

/// Returns the group that one to four hexadecimal digits of either case spell.
fn read_any_group(text: &[u8]) -> Option<u128>
    ensures value { result ≡ any_group_of text.now }
    ensures bound { IfSome result (λ v. v < 65536) }
{
    match text {
        [a] => read_any_hex(*a),
        [a, b] => read_any_pair(*a, *b),
        [a, b, c] => Some(read_any_pair(*a, *b)? * 16 + read_any_hex(*c)?),
        [a, b, c, d] => Some(read_any_pair(*a, *b)? * 256 + read_any_pair(*c, *d)?),
        _ => None,
    }
}

/// Consecutive groups: their number, at most 8, and their combined value, 16 bits each.
#[derive(Clone, Copy)]
struct Side {
    count: u32,
    value: u128,
}

/// Appends the last piece to the side: a group or, at the end of the address, a dotted quad, which is two groups.
#[tactic(auto, unfolding(crate::specs::Address6::last_of, crate::specs::Address6::side_with))]
fn read_last(side: Side, ends: bool, text: &[u8]) -> Option<Side>
    requires few { side.count ≤ 7 }
    requires fits { side.value < 2 ^ 112 }
    requires short { side.count < 7 → side.value < 2 ^ 96 }
    ensures { result ≡ side_with side (last_of ends text.now) }
{
    if let Some(group) = read_any_group(text) {
        return Some(Side {
            count: side.count + 1,
            value: side.value * 0x1_0000 + group,
        });
    }
    if !ends {
        return None;
    }
    let quad = read_quad(text)?;
    if side.count == 7 {
        return None;
    }
    Some(Side {
        count: side.count + 2,
        value: side.value * 0x1_0000_0000 + quad,
    })
}

/// Returns the groups of one side of `::`, or of an address without it, or None if the text spells none or more than
/// eight.
fn read_side(text: &[u8], ends: bool) -> Option<Side>
    ensures { result ≡ side_with no_groups (side_of ends text.now) }
{
    let mut side = Side { count: 0, value: 0 };
    if text.is_empty() {
        return Some(side);
    }
    let mut rest = text;
    while side.count < 8 {
        let Some((piece, behind)) = split_at_byte(rest, b':') else {
            return read_last(side, ends, rest);
        };
        let group = read_any_group(piece)?;
        side = Side {
            count: side.count + 1,
            value: side.value * 0x1_0000 + group,
        };
        rest = behind;
    }
    None
}

/// Returns the parts before and after the first `::`.
fn cut_zeros(text: &[u8]) -> Option<(&[u8], &[u8])>
    ensures { option_map (λ p. (p.0.now, p.1.now)) result ≡ cut_at_zeros text.now }
{
    for i in 1..text.len() {
        if text[i - 1] == b':' && text[i] == b':' {
            return Some((text.split_at(i - 1).0, text.split_at(i + 1).1));
        }
    }
    None
}

/// Returns the IPv6 address that the text spells: eight groups, with zero groups replaced once by `::`, and optionally
/// a dotted quad at the end (RFC 4291, section 2.2). Zones, brackets and white space are not accepted.
pub fn read_address6(text: &[u8]) -> Option<u128>
    ensures value { result ≡ address6_of text.now }
    ensures bound { IfSome result (λ v. v < 2 ^ 128) }
{
    let Some((front, back)) = cut_zeros(text) else {
        let side = read_side(text, true)?;
        if side.count != 8 {
            return None;
        }
        return Some(side.value);
    };
    let before = read_side(front, false)?;
    let after = read_side(back, true)?;
    if before.count + after.count > 7 {
        return None;
    }
    let one_zero = before.value * 0x1_0000;
    Some(one_zero * 0x1_0000u128.pow(7 - before.count) + after.value)
}

/// Returns the IPv6 address and the number of leading bits of `address/n`.
#[tactic(auto, unfolding(crate::specs::Address6::prefix6_of))]
pub fn read_prefix6(text: &[u8]) -> Option<(u128, u128)>
    ensures value { result ≡ prefix6_of text.now }
    ensures bound { IfSome result (λ p. (p.0 < 2 ^ 128) × (0 < p.1) × (p.1 ≤ 128)) }
{
    let (address, bits) = split_at_byte(text, b'/')?;
    let address = read_address6(address)?;
    let bits = read_number(bits, 128)?;
    if bits == 0 {
        return None;
    }
    Some((address, bits))
}

/// An IPv6 address is spelled either in full by eight groups, or compressed by groups before and after a `::` that
/// denotes one or more zero groups, and in no other way (RFC 4291, section 2.2). So each text spells at most one
/// address. The written form is one of the spellings.
pub fn many_spellings()
    ensures uncompressed { (text : List ℕ) (v : ℕ)
        → IsUncompressed text v → address6_of text ≡ Some v }
    ensures compressed { (text : List ℕ) (v : ℕ)
        → IsCompressed text v → address6_of text ≡ Some v }
    ensures only { (text : List ℕ) (v : ℕ)
        → address6_of text ≡ Some v → IsUncompressed text v ⊎ IsCompressed text v }
    ensures written { (v : ℕ) → v < 2 ^ 128 → address6_of (groups v) ≡ Some v }
    ensures fits { (text : List ℕ) (v : ℕ) → address6_of text ≡ Some v → v < 2 ^ 128 }
{}
