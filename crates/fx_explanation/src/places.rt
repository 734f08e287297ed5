//! Octets and the numbers that they encode.
use crate::explanation::Explanation;

/// The hexadecimal digits.
const DIGITS: [&str; 16] = [
    "0", "1", "2", "3", "4", "5", "6", "7", "8", "9", "a", "b", "c", "d", "e", "f",
];

/// Writes octets in hexadecimal, each after a space.
pub fn write_digits(out: &mut Explanation, octets: &[u8]) {
    for octet in octets {
        out.text(" ");
        out.text(DIGITS[usize::from(*octet / 16)]);
        out.text(DIGITS[usize::from(*octet % 16)]);
    }
}

/// Returns the octet at an index, or 0 beyond the end.
pub fn octet_at(octets: &[u8], index: usize) -> u8 {
    octets.get(index).copied().unwrap_or(0)
}

/// Returns the 16-bit big-endian number at an index. Octets beyond the end count as 0.
pub fn number16(octets: &[u8], index: usize) -> u16 {
    u16::from_be_bytes([
        octet_at(octets, index),
        octet_at(octets, index.saturating_add(1)),
    ])
}

/// Returns the 32-bit big-endian number at an index. Octets beyond the end count as 0.
pub fn number32(octets: &[u8], index: usize) -> u32 {
    u32::from_be_bytes([
        octet_at(octets, index),
        octet_at(octets, index.saturating_add(1)),
        octet_at(octets, index.saturating_add(2)),
        octet_at(octets, index.saturating_add(3)),
    ])
}

/// Returns the big-endian number of all octets, or 2^64 - 1 if it is larger.
pub fn number_in(octets: &[u8]) -> u64 {
    let mut number: u64 = 0;
    for octet in octets {
        number = number.saturating_mul(256).saturating_add(u64::from(*octet));
    }
    number
}

/// Returns whether all octets are decimal digits.
pub fn are_digits(octets: &[u8]) -> bool {
    for octet in octets {
        if !octet.is_ascii_digit() {
            return false;
        }
    }
    true
}

/// Returns the octets of a range, or an empty slice if it exceeds the octets.
pub fn part(octets: &[u8], start: usize, end: usize) -> &[u8] {
    match octets.get(start..end) {
        Some(part) => part,
        None => &[],
    }
}
