//! Sinks for links.
ghost use Rattle.std.specs.Prelude.{◌≡◌, false, OnOk, IfErr};

use crate::links::Links;
use fx_base::{Fault, Sink, put_text};

/// Links with a sink each, in the order of the links. A link without a sink reports none of its octets.
#[derive(Drop)]
pub struct Sinks<S: Sink> {
    sinks: Vec<S>,
    failed: bool,
}

impl<S: Sink> Sinks<S> {
    /// Creates links whose octets go to these sinks.
    pub fn new(sinks: Vec<S>) -> Sinks<S>
        ensures sinks { result.sinks ≡ sinks }
        ensures going { result.failed ≡ false }
    {
        Sinks {
            sinks,
            failed: false,
        }
    }

    /// Returns the sinks by value, in the order of the links.
    pub fn into_sinks(self) -> Vec<S>
        ensures { result ≡ self.sinks }
    {
        self.sinks
    }

    /// Returns the sinks, in the order of the links.
    pub fn as_slice(&self) -> &[S]
        ensures { result.now ≡ self.now.sinks.items }
    {
        self.sinks.as_slice()
    }
}

impl<S: Sink> Links for Sinks<S> {
    ghost use Rattle.fx_base.specs.Entries.{entry_numbered};
    ghost use Rattle.fx_link.specs.Links.{octets_known};

    ghost put_on = { λ s link. octets_known S.taken (entry_numbered s.sinks.items link) };

    ghost failed = { λ s. s.failed };

    fn put(&mut self, link: u64, octets: &[u8]) -> Result<(), Fault> {
        if link == 0 || link > self.sinks.len() as u64 {
            self.failed = false;
            return Ok(());
        }
        let index = (link - 1) as usize;
        match put_text(&mut self.sinks[index], octets) {
            Ok(()) => {
                self.failed = false;
                Ok(())
            }
            Err(fault) => {
                self.failed = true;
                Err(fault)
            }
        }
    }
}
