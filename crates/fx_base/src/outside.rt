//! Readers and writers of std as devices.
ghost use Rattle.std.specs.Prelude.{◌≡◌, false, None};

use crate::fault::Fault;
use crate::refusals;
use crate::sink::Sink;
use crate::source::Source;
use std::io;

/// A reader or writer of std. It is opaque: its octets are not known to the specification. A writer may hold back what
/// it has taken until it is flushed.
///
/// A call fails if the call of the reader or writer fails, or if a non-empty write takes no octets.
#[derive(Drop)]
pub struct Outside<D> {
    device: D,
    failed: bool,
    reads: u64,
    holds_back: bool,
}

impl<D> Outside<D> {
    /// Wraps a reader or writer.
    pub fn new(device: D) -> Outside<D>
        ensures device { result.device ≡ device }
        ensures ok { result.failed ≡ false }
    {
        Outside {
            device,
            failed: false,
            reads: 0,
            holds_back: false,
        }
    }

    /// Returns the reader or writer.
    pub fn into_inner(self) -> D
        ensures { result ≡ self.device }
    {
        let Outside {
            device,
            failed: _,
            reads: _,
            holds_back: _,
        } = self;
        device
    }
}

impl<D: io::Read + Drop> Source for Outside<D> {
    ghost left = { λ _. None };

    ghost failed = { λ s. s.failed };

    ghost calls = { λ s. s.reads };

    fn read(&mut self, buffer: &mut [u8]) -> Result<usize, Fault> {
        self.reads = self.reads.wrapping_add(1);
        match self.device.read(buffer) {
            Ok(n) => {
                self.failed = false;
                Ok(n)
            }
            Err(_) => {
                self.failed = true;
                Err(Fault::bare(refusals::FAILED_READ))
            }
        }
    }
}

impl<D: io::Write + Drop> Sink for Outside<D> {
    ghost taken = { λ _. None };

    ghost failed = { λ s. s.failed };

    ghost holds_back = { λ s. s.holds_back };

    fn write(&mut self, octets: &[u8]) -> Result<usize, Fault> {
        self.holds_back = true;
        match self.device.write(octets) {
            Ok(n) if n > 0 || octets.is_empty() => {
                self.failed = false;
                Ok(n)
            }
            _ => {
                self.failed = true;
                Err(Fault::bare(refusals::FAILED_WRITE))
            }
        }
    }

    fn flush(&mut self) -> Result<(), Fault> {
        match self.device.flush() {
            Ok(()) => {
                self.failed = false;
                self.holds_back = false;
                Ok(())
            }
            Err(_) => {
                self.failed = true;
                Err(Fault::bare(refusals::FAILED_WRITE))
            }
        }
    }
}
