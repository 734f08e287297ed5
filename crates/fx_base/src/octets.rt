//! Octets in memory as a source.
ghost use Rattle.std.specs.Prelude.{◌≡◌, false, Some};

use crate::fault::Fault;
use crate::source::Source;

/// A source of octets in memory, read from the front. No read fails.
#[derive(Drop)]
pub struct Octets<'a> {
    rest: &'a [u8],
    calls: u64,
}

impl<'a> Octets<'a> {
    /// Returns a source of these octets.
    pub fn new(octets: &'a [u8]) -> Octets<'a>
        ensures octets { result.rest.now ≡ octets.now }
        ensures calls { result.calls ≡ 0 }
    {
        Octets {
            rest: octets,
            calls: 0,
        }
    }
}

impl Source for Octets<'_> {
    ghost left = { λ s. Some s.rest.now };

    ghost failed = { λ _. false };

    ghost calls = { λ s. s.calls };

    fn read(&mut self, buffer: &mut [u8]) -> Result<usize, Fault> {
        self.calls = self.calls.wrapping_add(1);
        let n = buffer.len().min(self.rest.len());
        let (now, later) = self.rest.split_at(n);
        buffer[..n].copy_from_slice(now);
        self.rest = later;
        Ok(n)
    }
}
