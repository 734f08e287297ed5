//! The counts of a collector under each key.
ghost use Rattle.std.specs.Prelude.{◌≡◌, ℕ, ◌+◌, ◌%◌, ◌^◌, None, Some, IsPermutation, IfOk, IfErr, OnOk, length};
ghost use Rattle.fx_base.specs.Fault.{IsMemory};
ghost use Rattle.fx_layout.specs.Keys.{HasBits};
ghost use Rattle.fx_machine.specs.States.{add_at};
ghost use Rattle.fx_machine.specs.Sums.{total_at};
ghost use Rattle.fx_collect.specs.Totals.{nothing, with_record, with_records, with_unassigned, totals_of};
ghost use Rattle.fx_collect.specs.Report.{KeysAscend};

use fx_base::{Counts, Fault};
use fx_layout::{Key, Layout, Seed, Values};
use fx_machine::State;
use fx_tables::Record;
use indexmap::IndexMap;
use std::alloc::Global;
use std::marker::Model;

/// The counts under each key of one layout, and the number of records that have no key under it.
pub struct Totals {
    pub(crate) layout: Layout,
    pub(crate) counts: IndexMap<Values, Counts, Seed>,
    pub(crate) unassigned: u64,
}

impl Drop for Totals {
    /// Drops its parts here, so that each drop elsewhere is one call.
    fn drop(self) {
        let Self {
            layout: _,
            counts: _,
            unassigned: _,
        } = self;
    }
}

impl Model for Totals {
    ghost use Rattle.fx_collect.specs.Totals as totals;

    ghost Value = { totals.Totals };

    ghost view = { λ t. record {
      layout = t.layout;
      entries = totals.records_of t.layout
          t.counts.entries;
      unassigned = t.unassigned;
    } };

    ghost invariant = { λ t. totals.AllHaveBits t.layout t.counts.entries };
}

impl Totals {
    /// Returns empty totals under the keys of this layout, which hash keys by the seed.
    ///
    /// Fails with 900, at no place, if out of memory.
    pub fn new(alloc: Global, seed: Seed, layout: Layout) -> Result<Totals, Fault>
        ensures ok { IfOk result (λ totals. totals ≡ nothing layout) }
        ensures err { IfErr result IsMemory }
    {
        Ok(Totals {
            layout,
            counts: IndexMap::with_hasher(alloc, seed),
            unassigned: 0,
        })
    }

    /// Adds the counts at these values under the layout of these totals.
    ///
    /// Fails if out of memory; the totals are then unchanged.
    fn add_counts_at(&mut self, values: &Values, counts: &Counts) -> Result<(), Fault>
        requires { HasBits self.old.layout values.now }
        ensures ok { OnOk result (self.new ≡ record self.old {
          entries = add_at self.old.entries
              (record { layout = self.old.layout; values = values.now }) counts.now;
        }) }
        ensures err { IfErr result (λ e. IsMemory e × (self.new ≡ self.old)) }
    {
        match self.counts.get_index_of(values) {
            Some(index) => {
                let total = &mut self.counts[index];
                *total = total.add(counts);
            }
            None => {
                self.counts.insert(values.copy(), *counts)?;
            }
        }
        Ok(())
    }

    /// Adds the counts of the record like [`tally`](Totals::tally). The values of its key are assembled in `values` if
    /// it has another layout.
    fn tally_by(&mut self, entry: &Record, values: &mut Values) -> Result<(), Fault>
        ensures ok { OnOk result (self.new ≡ with_record self.old entry.now) }
        ensures err { IfErr result (λ e. IsMemory e × (self.new ≡ self.old)) }
    {
        // Only for the prover: the axes of the layout are in order.
        let _parts = self.layout.parts();
        if self.layout.same(entry.key.layout()) {
            return self.add_counts_at(entry.key.own_values(), &entry.counts);
        }
        if !entry.key.project_values(&self.layout, values) {
            self.unassigned = self.unassigned.wrapping_add(1);
            return Ok(());
        }
        self.add_counts_at(values, &entry.counts)
    }

    /// Adds the counts of the record at its key under the layout of these totals. A record whose layout doesn't refine
    /// that layout is counted as unassigned, modulo 2 to the 64.
    ///
    /// Fails with 900, at no place, if out of memory; the totals are then unchanged.
    pub fn tally(&mut self, entry: &Record) -> Result<(), Fault>
        ensures ok { OnOk result (self.new ≡ with_record self.old entry.now) }
        ensures err { IfErr result (λ e. IsMemory e × (self.new ≡ self.old)) }
    {
        self.tally_by(entry, &mut Values::new())
    }

    /// Adds to the number of records without a key under the layout, modulo 2 to the 64.
    pub fn add_unassigned(&mut self, records: u64)
        ensures { self.new ≡ with_unassigned self.old records }
    {
        self.unassigned = self.unassigned.wrapping_add(records);
    }

    /// Returns what a network has counted so far: its totals under the keys of its report, and the number of its
    /// records without one.
    ///
    /// Fails with 900, at no place, if out of memory.
    pub fn of(alloc: Global, seed: Seed, state: &State<'_>) -> Result<Totals, Fault>
        ensures ok { IfOk result (λ totals. totals
            ≡ totals_of state.now.net.report_layout state.now.state) }
        ensures err { IfErr result IsMemory }
    {
        let mut totals = Totals::new(alloc, seed, state.net().report_layout().copy())?;
        totals.tally_all(state.totals())?;
        totals.unassigned = state.unassigned();
        Ok(totals)
    }

    /// Adds one record after another. Fails with 900, at no place, if out of memory.
    pub fn tally_all(&mut self, entries: &[Record]) -> Result<(), Fault>
        ensures ok { OnOk result (self.new ≡ with_records self.old entries.now) }
        ensures err { IfErr result IsMemory }
    {
        let mut values = Values::new();
        for entry in entries {
            self.tally_by(entry, &mut values)?;
        }
        Ok(())
    }

    /// Returns the counts under the key, if there are any.
    pub fn get(&self, key: &Key) -> Option<Counts>
        ensures { result ≡ total_at self.now.entries key.now }
    {
        if !self.layout.same(key.layout()) {
            return None;
        }
        self.counts.get(&Values::of(key)).copied()
    }

    /// Returns the number of keys.
    pub fn len(&self) -> usize
        ensures { result ≡ length self.now.entries }
    {
        self.counts.len()
    }

    /// Returns the number of records without a key under the layout, modulo 2 to the 64.
    pub fn unassigned(&self) -> u64
        ensures { result ≡ self.now.unassigned }
    {
        self.unassigned
    }

    /// Sorts the keys by the first value that differs.
    ///
    /// Fails with 900, at no place, if out of memory; the totals are then unchanged.
    pub fn sort(&mut self) -> Result<(), Fault>
        ensures sorted { OnOk result (KeysAscend self.new.entries) }
        ensures same { OnOk result (IsPermutation self.old.entries self.new.entries
            × (self.new.layout ≡ self.old.layout) × (self.new.unassigned ≡ self.old.unassigned)) }
        ensures err { IfErr result (λ e. IsMemory e × (self.new ≡ self.old)) }
    {
        self.counts.sort_keys()?;
        Ok(())
    }
}
