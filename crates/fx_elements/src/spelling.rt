//! The spelling of numbers, addresses and prefixes, and how texts are read as such.
ghost use Rattle.std.specs.Prelude.{◌≡◌, ◌<◌, ◌≤◌, ◌^◌, ◌-◌, ◌+◌, ℕ, List, length, IfSome, IfNone, option_and_then, option_map, Some, ◌↔◌, slice_index};
ghost use Rattle.std.specs.Fmt.{decimal};
ghost use Rattle.fx_elements.specs.Spelling.{cut_at, digits_of, largest, number_of, quad_of, prefix_of, quad, prefix};
ghost use Rattle.fx_elements.specs.Groups.{groups, groups_of};
ghost use Rattle.fx_elements.specs.Axes.{axis_index, tops};
ghost use Rattle.fx_elements.specs.Values.{written_on, value_text};
ghost use Rattle.fx_elements.specs.declared.axis.Axis.{Axis};

/// Returns the parts before and after the first byte equal to `at`.
#[inline(always)]
pub fn split_at_byte(text: &[u8], at: u8) -> Option<(&[u8], &[u8])>
    ensures { option_map (λ p. (p.0.now, p.1.now)) result ≡ cut_at at text.now }
{
    for (i, b) in text.iter().enumerate() {
        if *b == at {
            return Some((text.split_at(i).0, text.split_at(i + 1).1));
        }
    }
    None
}

/// A number up to this one can take another digit within 64 bits.
const ROOMY: u64 = (u64::MAX - 9) / 10;

/// Returns the number of at most `top` that these digits spell, however many there are.
fn read_wide_digits(text: &[u8], top: u128) -> Option<u128>
    ensures value { result ≡ digits_of top text.now }
    ensures bound { IfSome result (λ n. n ≤ top) }
{
    let mut n: u128 = 0;
    for b in text {
        if !b.is_ascii_digit() {
            return None;
        }
        let digit = (*b - b'0') as u128;
        if top < digit || (top - digit) / 10 < n {
            return None;
        }
        n = n * 10 + digit;
    }
    Some(n)
}

/// Returns the number of at most `top` that these digits spell.
#[inline(always)]
fn read_digits(text: &[u8], top: u128) -> Option<u128>
    ensures value { result ≡ digits_of top text.now }
    ensures bound { IfSome result (λ n. n ≤ top) }
{
    // Numbers of 64 bits take a few instructions per digit, wider ones a division.
    let mut n: u64 = 0;
    for b in text {
        if !b.is_ascii_digit() {
            return None;
        }
        if n > ROOMY {
            return read_wide_digits(text, top);
        }
        n = n * 10 + (*b - b'0') as u64;
    }
    let number = n as u128;
    if number > top {
        return None;
    }
    Some(number)
}

/// Returns the number of at most `top` with this decimal text.
#[tactic(auto, unfolding(crate::specs::Spelling::number_of))]
#[inline(always)]
pub fn read_number(text: &[u8], top: u128) -> Option<u128>
    ensures value { result ≡ number_of top text.now }
    ensures bound { IfSome result (λ n. n ≤ top) }
{
    match text {
        [] => None,
        [b'0', _, ..] => None,
        _ => read_digits(text, top),
    }
}

/// Returns the number below 2 to the 64 with this decimal text.
#[inline(always)]
pub fn read_u64(text: &[u8]) -> Option<u64>
    ensures { result ≡ number_of largest text.now }
{
    Some(read_number(text, u64::MAX as u128)? as u64)
}

/// Returns the number of at most 255 that these digits spell.
#[inline(always)]
fn read_few_digits(text: &[u8]) -> Option<u64>
    ensures value { result ≡ digits_of 255 text.now }
    ensures bound { IfSome result (λ n. n ≤ 255) }
{
    let mut n: u64 = 0;
    for b in text {
        if !b.is_ascii_digit() {
            return None;
        }
        n = n * 10 + (*b - b'0') as u64;
        if n > 255 {
            return None;
        }
    }
    Some(n)
}

/// Returns the number of at most 255 with this decimal text.
#[tactic(auto, unfolding(crate::specs::Spelling::number_of))]
#[inline(always)]
fn read_octet(text: &[u8]) -> Option<u64>
    ensures value { result ≡ number_of 255 text.now }
    ensures bound { IfSome result (λ n. n ≤ 255) }
{
    match text {
        [] => None,
        [b'0', _, ..] => None,
        _ => read_few_digits(text),
    }
}

/// Returns the number of at most 255 before the first full stop, and the text after the full stop.
#[inline(always)]
fn read_first_octet(text: &[u8]) -> Option<(u64, &[u8])>
    ensures value { option_map {U = ℕ × List ℕ} (λ p. (p.0, p.1.now)) result
        ≡ option_and_then (λ p. option_map {U = ℕ × List ℕ} (λ n. (n, p.1)) (number_of 255 p.0))
        (cut_at 46 text.now) }
    ensures bound { IfSome result (λ p. p.0 ≤ 255) }
{
    let (octet, rest) = split_at_byte(text, b'.')?;
    let octet = read_octet(octet)?;
    Some((octet, rest))
}

/// Returns the address with this dotted quad.
pub fn read_quad(text: &[u8]) -> Option<u128>
    ensures value { result ≡ quad_of text.now }
    ensures bound { IfSome result (λ v. v < 2 ^ 32) }
{
    let (a, rest) = read_first_octet(text)?;
    let (b, rest) = read_first_octet(rest)?;
    let (c, rest) = read_first_octet(rest)?;
    let d = read_octet(rest)?;
    Some((((a * 256 + b) * 256 + c) * 256 + d) as u128)
}

/// Returns the address and the number of leading bits of `a.b.c.d/n`.
#[tactic(auto, unfolding(crate::specs::Spelling::prefix_of))]
pub fn read_prefix(text: &[u8]) -> Option<(u128, u128)>
    ensures value { result ≡ prefix_of text.now }
    ensures bound { IfSome result (λ p. (p.0 < 2 ^ 32) × (0 < p.1) × (p.1 ≤ 32)) }
{
    let (address, bits) = split_at_byte(text, b'/')?;
    let address = read_quad(address)?;
    let bits = read_number(bits, 32)?;
    if bits == 0 {
        return None;
    }
    Some((address, bits))
}

/// Numbers, addresses and values in written form, and IPv4 prefixes, each have exactly one spelling, and nothing else
/// is read as them.
pub fn one_spelling()
    ensures number { (top n : ℕ) → top < 2 ^ 128 → n ≤ top → number_of top (decimal n) ≡ Some n }
    ensures only_number { (top n : ℕ) (text : List ℕ) → top < 2 ^ 128 → number_of top text ≡ Some n
        → (text ≡ decimal n) × (n ≤ top) }
    ensures address { (v : ℕ) → v < 2 ^ 32 → quad_of (quad v) ≡ Some v }
    ensures only_address { (v : ℕ) (text : List ℕ) → quad_of text ≡ Some v
        → (text ≡ quad v) × (v < 2 ^ 32) }
    ensures wide { (v : ℕ) → v < 2 ^ 128 → groups_of (groups v) ≡ Some v }
    ensures only_wide { (v : ℕ) (text : List ℕ) → groups_of text ≡ Some v
        → (text ≡ groups v) × (v < 2 ^ 128) }
    ensures written { (axis : Axis) (v : ℕ) → v ≤ slice_index tops (axis_index axis)
        → written_on axis (value_text axis v) ≡ Some v }
    ensures only_written { (axis : Axis) (text : List ℕ) (v : ℕ) → written_on axis text ≡ Some v
        → (text ≡ value_text axis v) × (v ≤ slice_index tops (axis_index axis)) }
    ensures leading { (v n : ℕ) → v < 2 ^ 32 → 0 < n → n ≤ 32
        → prefix_of (prefix v n) ≡ Some (v, n) }
    ensures only_leading { (p : ℕ × ℕ) (text : List ℕ) → prefix_of text ≡ Some p
        → (text ≡ prefix p.0 p.1) × (p.0 < 2 ^ 32) × (0 < p.1) × (p.1 ≤ 32) }
{}
