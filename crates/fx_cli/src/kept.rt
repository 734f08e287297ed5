//! Sources that keep a copy of the octets they return.
ghost use Rattle.std.specs.Prelude.{◌≡◌};

use fx_base::{Fault, Source};
use std::alloc::Global;

/// A copy of octets, kept until memory runs out.
#[derive(Drop)]
pub struct OctetCopy {
    octets: Option<Vec<u8>>,
}

impl OctetCopy {
    /// Returns an empty copy, which keeps octets only if `keeps` is true.
    pub fn new(alloc: Global, keeps: bool) -> OctetCopy {
        OctetCopy {
            octets: if keeps { Some(Vec::new(alloc)) } else { None },
        }
    }

    /// Appends octets. If out of memory, drops the copy and keeps nothing from then on.
    fn keep(&mut self, octets: &[u8]) {
        let Some(kept) = &mut self.octets else {
            return;
        };
        if kept.extend_from_slice(octets).is_err() {
            self.octets = None;
        }
    }

    /// Returns the octets, if they were kept.
    pub fn octets(&self) -> Option<&[u8]> {
        self.octets.as_deref()
    }
}

/// A source with a copy of the octets it returns.
#[derive(Drop)]
pub struct KeptSource<R> {
    source: R,
    copy: OctetCopy,
}

impl<R: Source> KeptSource<R> {
    /// Returns the source, with `copy` to keep its octets in.
    pub fn new(source: R, copy: OctetCopy) -> KeptSource<R>
        ensures source { result.source ≡ source }
        ensures copy { result.copy ≡ copy }
    {
        KeptSource { source, copy }
    }

    /// Returns the copy.
    pub fn copy(&self) -> &OctetCopy {
        &self.copy
    }
}

impl<R: Source> Source for KeptSource<R> {
    ghost left = { λ s. R.left s.source };

    ghost failed = { λ s. R.failed s.source };

    ghost calls = { λ s. R.calls s.source };

    fn read(&mut self, buffer: &mut [u8]) -> Result<usize, Fault> {
        let count = self.source.read(buffer)?;
        self.copy.keep(&buffer[..count]);
        Ok(count)
    }
}
