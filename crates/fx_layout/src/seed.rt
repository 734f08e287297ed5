//! A hash of keys that senders of packets can't predict.
ghost use Rattle.std.specs.Prelude.{◌≡◌, ◌+◌, ◌≤◌, length};
ghost use Rattle.fx_layout.specs.Seeds as seeds;

use std::hash::{BuildHasher, Hasher};

/// The number of octets that are hashed at once.
const WORD: usize = 8;

/// Two numbers that seed the hash of keys.
///
/// Stores and totals look keys up by a hash, and search keys with the same hash one after another. Whoever knows the
/// numbers can choose such keys, so a program that reads what others send takes random numbers. The results don't
/// depend on them.
#[derive(Clone, Copy)]
pub struct Seed {
    first: u64,
    second: u64,
}

impl Seed {
    /// Returns the seed of two numbers.
    pub fn new(first: u64, second: u64) -> Seed
        ensures { result ≡ record { first = first; second = second } }
    {
        Seed { first, second }
    }
}

impl BuildHasher for Seed {
    type Hasher = SeededHasher;

    ghost build_hasher = { seeds.first_hasher };

    fn build_hasher(&self) -> SeededHasher {
        SeededHasher {
            state: self.first,
            second: self.second,
        }
    }
}

/// The hash of the octets so far, under a [`Seed`].
#[derive(Clone, Copy)]
pub struct SeededHasher {
    state: u64,
    second: u64,
}

/// Returns the exclusive or of the halves of the product.
fn folded_product(a: u64, b: u64) -> u64
    ensures { result ≡ seeds.folded_product a b }
{
    let product = a as u128 * b as u128;
    (product & 0xFFFF_FFFF_FFFF_FFFF) as u64 ^ (product >> 64) as u64
}

/// Returns the number of eight octets, lowest first.
fn read_word(octets: &[u8], at: usize) -> u64
    requires { at + 8 ≤ length octets.now }
    ensures { result ≡ seeds.word octets.now at }
{
    u64::from_le_bytes([
        octets[at],
        octets[at + 1],
        octets[at + 2],
        octets[at + 3],
        octets[at + 4],
        octets[at + 5],
        octets[at + 6],
        octets[at + 7],
    ])
}

impl Hasher for SeededHasher {
    ghost write = { seeds.with_octets };

    ghost finish = { λ h. h.state };

    fn finish(&self) -> u64 {
        self.state
    }

    fn write(&mut self, bytes: &[u8]) {
        let mut state = self.state;
        let mut at = 0;
        while bytes.len() - at >= WORD {
            state = folded_product(read_word(bytes, at) ^ state, self.second);
            at += WORD;
        }
        for octet in &bytes[at..] {
            state = folded_product(*octet as u64 ^ state, self.second);
        }
        self.state = state;
    }

    // The numbers of keys are hashed without being written as octets first.
    fn write_usize(&mut self, i: usize) {
        self.state = folded_product(i as u64 ^ self.state, self.second);
    }

    fn write_u128(&mut self, i: u128) {
        let low = folded_product((i & 0xFFFF_FFFF_FFFF_FFFF) as u64 ^ self.state, self.second);
        self.state = folded_product((i >> 64) as u64 ^ low, self.second);
    }
}
