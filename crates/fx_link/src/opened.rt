//! Sinks for links, each made when octets are first put on its link.
ghost use Rattle.std.specs.Prelude.{◌≡◌, ◌⊎◌, ℕ, List, Option, None, false, IfOk, OnOk, IfErr};
ghost use Rattle.std.specs.Ordering.{nat_cmp};
ghost use Rattle.std.specs.BTreeMap.{get};
ghost use Rattle.std.specs.Option.{option_copied};
ghost use Rattle.fx_base.specs.Fault.{fault_at, IsMemory};
ghost use Rattle.fx_base.specs.declared.fault.Place.TheVariants as places;
ghost use Rattle.fx_base.specs.Refusals.{failed_write};
ghost use Rattle.fx_link.specs.Links.{Puts, known_on};

use crate::links::Links;
use fx_base::{Fault, Sink, put_text};
use std::alloc::Global;
use std::collections::BTreeMap;

/// A maker of the sinks of links.
pub trait MakeSink<S: Sink>: Drop {
    /// The octets that a new sink has taken, if sinks report them.
    ghost begun: { Self → Option (List ℕ) };

    /// Makes the sink of the link of this number.
    ///
    /// Fails with 902, or with 900 if out of memory, at no place.
    fn make(&mut self, link: u64) -> Result<S, Fault>
        ensures made { IfOk result (λ sink. S.taken sink ≡ begun self.old) }
        ensures same { begun self.new ≡ begun self.old }
        ensures err { IfErr result (λ e. (e ≡ fault_at failed_write places.None)
            ⊎ IsMemory e) };

    /// Notes that octets could not be put on the link of this number.
    fn note_failure(&mut self, link: u64)
        ensures { begun self.new ≡ begun self.old };
}

/// Links with a sink each, made when octets are first put on the link and kept from then on.
#[derive(Drop)]
pub struct OpenedSinks<S: Sink, M: MakeSink<S>> {
    maker: M,
    sinks: BTreeMap<u64, S>,
    failed: bool,
}

impl<S: Sink, M: MakeSink<S>> OpenedSinks<S, M> {
    /// Creates links without sinks. `maker` makes the sinks.
    pub fn new(alloc: Global, maker: M) -> OpenedSinks<S, M>
        ensures maker { result.maker ≡ maker }
        ensures none { (link : ℕ) → get nat_cmp result.sinks link ≡ None }
        ensures going { result.failed ≡ false }
    {
        OpenedSinks {
            maker,
            sinks: BTreeMap::new(alloc),
            failed: false,
        }
    }

    /// Returns the sink of the link of this number, if octets were put on it.
    pub fn sink(&self, link: u64) -> Option<&S>
        ensures { option_copied result ≡ get nat_cmp self.now.sinks link }
    {
        self.sinks.get(&link)
    }

    /// Returns what made the sinks, which are closed.
    pub fn into_maker(self) -> M
        ensures { result ≡ self.maker }
    {
        let OpenedSinks {
            maker,
            sinks: _,
            failed: _,
        } = self;
        maker
    }

    /// Makes the sink of a link that has none, and writes the link's first octets to it.
    fn begin(&mut self, link: u64, octets: &[u8]) -> Result<(), Fault>
        requires { get nat_cmp self.old.sinks link ≡ None }
        ensures ok { OnOk result (Puts
            (λ n. known_on (M.begun self.old.maker) S.taken (get nat_cmp self.old.sinks n))
            (λ n. known_on (M.begun self.new.maker) S.taken (get nat_cmp self.new.sinks n))
            link octets.now) }
        ensures err { IfErr result (λ e. (e ≡ fault_at failed_write places.None)
            ⊎ IsMemory e) }
    {
        let mut sink = self.maker.make(link)?;
        put_text(&mut sink, octets)?;
        self.sinks.insert(link, sink)?;
        Ok(())
    }

    /// Writes octets after those that were put on the link before.
    fn append(&mut self, link: u64, octets: &[u8]) -> Result<(), Fault>
        ensures ok { OnOk result (Puts
            (λ n. known_on (M.begun self.old.maker) S.taken (get nat_cmp self.old.sinks n))
            (λ n. known_on (M.begun self.new.maker) S.taken (get nat_cmp self.new.sinks n))
            link octets.now) }
        ensures err { IfErr result (λ e. (e ≡ fault_at failed_write places.None)
            ⊎ IsMemory e) }
    {
        match self.sinks.get_mut(&link) {
            Some(sink) => put_text(sink, octets),
            None => self.begin(link, octets),
        }
    }
}

impl<S: Sink, M: MakeSink<S>> Links for OpenedSinks<S, M> {
    ghost use Rattle.std.specs.Ordering.{nat_cmp};
    ghost use Rattle.std.specs.BTreeMap.{get};
    ghost use Rattle.fx_link.specs.Links.{known_on};

    ghost put_on = { λ s link. known_on (M.begun s.maker) S.taken (get nat_cmp s.sinks link) };

    ghost failed = { λ s. s.failed };

    fn put(&mut self, link: u64, octets: &[u8]) -> Result<(), Fault> {
        match self.append(link, octets) {
            Ok(()) => {
                self.failed = false;
                Ok(())
            }
            Err(fault) => {
                self.failed = true;
                self.maker.note_failure(link);
                Err(fault)
            }
        }
    }
}
