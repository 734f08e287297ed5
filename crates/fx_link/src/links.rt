//! Destinations of the octets of links.
ghost use Rattle.std.specs.Prelude.{◌≡◌, ◌≢◌, ◌⊎◌, ℕ, List, Bool, false, true, Option, None, OnOk, IfErr, option_and_then};
ghost use Rattle.fx_base.specs.Fault.{fault_at, IsMemory};
ghost use Rattle.fx_base.specs.declared.fault.Place.TheVariants as places;
ghost use Rattle.fx_base.specs.Refusals.{failed_write};
ghost use Rattle.fx_link.specs.Links.{Put, Puts};

use fx_base::Fault;

/// The destination of the octets of a network's links, seen as the octets put on each link, by its 1-based number, if
/// it reports them, and as whether its last call failed.
pub trait Links: Drop {
    /// The octets put on each link, if it reports them.
    ghost put_on: { Self → Put };

    /// Whether the last call failed.
    ghost failed: { Self → Bool };

    /// Puts octets on a link, after those that were put on it before.
    ///
    /// Fails with 902, or with 900 if it is out of memory, at no place. How many of the octets it has taken is
    /// unspecified then.
    fn put(&mut self, link: u64, octets: &[u8]) -> Result<(), Fault>
        ensures ok { OnOk result (Puts (put_on self.old) (put_on self.new) link octets.now) }
        ensures going { OnOk result (failed self.old ≡ false → failed self.new ≡ false) }
        ensures err { IfErr result (λ e.
            ((e ≡ fault_at failed_write places.None) ⊎ IsMemory e)
            × (failed self.new ≡ true)) };
}

/// Links that discard their octets: it reports none of them, takes no memory and never fails.
#[derive(Clone, Copy, Debug)]
pub struct Nowhere;

impl Links for Nowhere {
    ghost put_on = { λ s link. None };

    ghost failed = { λ s. false };

    fn put(&mut self, _link: u64, _octets: &[u8]) -> Result<(), Fault> {
        Ok(())
    }
}
