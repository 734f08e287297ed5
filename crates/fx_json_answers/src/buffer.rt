//! A text that grows in memory.
ghost use Rattle.std.specs.Prelude.{◌≡◌, [], Some, false};

use fx_base::{Fault, Sink, refusals};
use std::alloc::Global;

/// A sink that keeps all octets in memory. A write fails only if out of memory.
#[derive(Drop)]
pub struct TextBuffer {
    octets: Vec<u8>,
    failed: bool,
}

impl TextBuffer {
    /// Returns an empty buffer.
    pub fn new(alloc: Global) -> TextBuffer
        ensures empty { result.octets.items ≡ [] }
        ensures ok { result.failed ≡ false }
    {
        TextBuffer {
            octets: Vec::new(alloc),
            failed: false,
        }
    }

    /// Returns the octets that were written.
    pub fn octets(&self) -> &[u8]
        ensures { result.now ≡ self.now.octets.items }
    {
        self.octets.as_slice()
    }

    /// Returns whether the last write failed: the buffer is out of memory.
    pub fn has_failed(&self) -> bool
        ensures { result ≡ self.now.failed }
    {
        self.failed
    }
}

impl Sink for TextBuffer {
    ghost taken = { λ s. Some s.octets.items };

    ghost failed = { λ s. s.failed };

    ghost holds_back = { λ _. false };

    fn write(&mut self, octets: &[u8]) -> Result<usize, Fault> {
        match self.octets.extend_from_slice(octets) {
            Ok(()) => {
                self.failed = false;
                Ok(octets.len())
            }
            Err(_) => {
                self.failed = true;
                Err(Fault::bare(refusals::FAILED_WRITE))
            }
        }
    }

    fn flush(&mut self) -> Result<(), Fault> {
        self.failed = false;
        Ok(())
    }
}
