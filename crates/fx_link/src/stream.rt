//! Octets of a link.
ghost use Rattle.std.specs.Prelude.{◌≡◌, [], Some, false};

use fx_base::{Fault, Sink, refusals};
use std::alloc::Global;

/// Octets in memory, to which writes append. A write fails only if out of memory.
#[derive(Drop)]
pub(crate) struct Stream {
    octets: Vec<u8>,
    failed: bool,
}

impl Stream {
    /// Creates a stream without octets.
    pub fn new(alloc: Global) -> Stream
        ensures octets { result.octets.items ≡ [] }
        ensures going { result.failed ≡ false }
    {
        Stream {
            octets: Vec::new(alloc),
            failed: false,
        }
    }

    /// Removes all octets.
    pub fn clear(&mut self)
        ensures { self.new.octets.items ≡ [] }
    {
        self.octets.clear();
    }

    /// Returns the octets.
    pub fn as_slice(&self) -> &[u8]
        ensures { result.now ≡ self.now.octets.items }
    {
        self.octets.as_slice()
    }
}

impl Sink for Stream {
    ghost taken = { λ s. Some s.octets.items };

    ghost failed = { λ s. s.failed };

    ghost holds_back = { λ _. false };

    fn write(&mut self, octets: &[u8]) -> Result<usize, Fault> {
        match self.octets.extend_from_slice(octets) {
            Ok(()) => {
                self.failed = false;
                Ok(octets.len())
            }
            Err(_) => {
                self.failed = true;
                Err(Fault::bare(refusals::FAILED_WRITE))
            }
        }
    }

    fn flush(&mut self) -> Result<(), Fault> {
        self.failed = false;
        Ok(())
    }
}
