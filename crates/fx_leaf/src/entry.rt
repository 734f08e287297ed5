//! The verdict on records that reach a collecting process, from the verdicts at the processes that it feeds.
ghost use Rattle.std.specs.Prelude.{◌≡◌, map, slice_get, Some};
ghost use Rattle.std.specs.List.{AllByRecursion, list_all};
ghost use Rattle.fx_layout.specs.Keys as keys;
ghost use Rattle.fx_tables.specs.Matches.{HasEntries};
ghost use Rattle.fx_tables.specs.Network as network;
ghost use Rattle.fx_leaf.specs.Remaining as of_remaining;
ghost use Rattle.fx_leaf.specs.Tables as by_table;
ghost use Rattle.fx_leaf.specs.Verdicts as verdicts;

use crate::regions::{bounds_hold, match_overlap};
use crate::remaining::Remaining;
use crate::table::Verdicts;
use crate::verdict::{Fate, overlap_verdict, verdict_of_both};
use fx_layout::Layout;
use fx_tables::{AggregationEntry, MatchEntry, Net, Process};

/// Returns whether all of these entries can be read from a layout.
fn reads_entries(layout: &Layout, entries: &[MatchEntry]) -> bool
    ensures { result ≡ list_all (λ e. keys.reads layout.now e.axis e.bits) entries.now }
{
    entries.iter().all(|e| layout.reads(e.axis, e.bits))
}

/// Returns whether an aggregation's key and match can be read from a layout.
pub(crate) fn layout_reads(net: &Net, layout: &Layout, aggregation: &AggregationEntry) -> bool
    ensures { result ≡ verdicts.layout_reads net.now layout.now aggregation.now }
{
    layout.refines(&net.layout_at(aggregation.holder()))
        && reads_entries(layout, aggregation.matches())
}

/// Returns the verdict on what is counted of records that reach the collecting process at this index.
fn tally_verdict(net: &Net, layout: &Layout, process: usize) -> Option<Fate>
    ensures { result ≡ verdicts.tally_verdict net.now layout.now process }
{
    if process != net.report() {
        Some(Fate::Never)
    } else if layout.refines(net.report_layout()) {
        Some(Fate::Once)
    } else {
        Some(Fate::Unassigned)
    }
}

impl Verdicts<'_, '_> {
    /// Returns the verdict on records of the holder at this index.
    pub(crate) fn holder_verdict(&self, holder: usize) -> Option<Fate>
        ensures { let t = self.now.tables.now in
            let table = self.now.rows.now in
            result ≡ verdicts.sent_verdict (by_table.entry table) t.net
            (by_table.number_of_layout t.numbering holder) (network.exporters_of t.net
            (slice_get t.net.holders holder)) }
    {
        let named = self.tables.net().named_by(holder);
        self.sent_verdict(self.tables.number_of_layout(holder), named)
    }

    /// Returns the verdict on what an aggregation takes in from records of this layout: never, if it can't read them.
    fn taken_verdict(&self, layout: &Layout, aggregation: &AggregationEntry) -> Option<Fate>
        requires { HasEntries aggregation.now }
        ensures { let t = self.now.tables.now in
            let table = self.now.rows.now in
            let region = self.now.region.now in
            result ≡ by_table.taken_entry table t.net t.numbering region layout.now
            aggregation.now }
    {
        if !layout_reads(self.tables.net(), layout, aggregation) {
            return Some(Fate::Never);
        }
        let passes = match_overlap(self.region, aggregation.matches());
        overlap_verdict(passes, self.holder_verdict(aggregation.holder()))
    }

    /// Returns the verdict on what all of these aggregations take in.
    fn all_taken_verdict(&self, layout: &Layout, remaining: &Remaining<'_, '_>) -> Option<Fate>
        requires { AllByRecursion HasEntries remaining.now }
        ensures { let t = self.now.tables.now in
            let table = self.now.rows.now in
            let region = self.now.region.now in
            result ≡ verdicts.verdict_of_all
            (map (by_table.taken_entry table t.net t.numbering region layout.now)
            remaining.now) }
    {
        let mut joined = Some(Fate::Never);
        for index in 0..remaining.len() {
            let aggregation = remaining.at(index);
            joined = verdict_of_both(joined, self.taken_verdict(layout, aggregation));
        }
        joined
    }

    /// Returns the verdict on what a collecting process does with records of the layout with this number, given those
    /// aggregations whose matches may accept packets of the region.
    fn handled_verdict(
        &self,
        number: usize,
        layout: &Layout,
        process: &Process,
        remaining: &Remaining<'_, '_>,
    ) -> Option<Fate>
        requires remain { of_remaining.AreRemaining self.now.region.now process.now.aggregations
            remaining.now }
        requires entries { AllByRecursion HasEntries remaining.now }
        ensures { let t = self.now.tables.now in
            let table = self.now.rows.now in
            let region = self.now.region.now in
            result ≡ by_table.handled_entry table t.net t.numbering region number layout.now
            (Some process.now) }
    {
        // Only for the prover: the bounds of a region hold.
        bounds_hold(self.region);
        let forwarded = self.sent_verdict(number, process.exporters());
        let taken = self.all_taken_verdict(layout, remaining);
        verdict_of_both(forwarded, taken)
    }

    /// Returns the verdict on what the collecting process at this index does with such records: never, if there is no
    /// such process.
    fn handled_verdict_at(&self, number: usize, layout: &Layout, process: usize) -> Option<Fate>
        requires { by_table.AreTables self.now.tables.now }
        ensures { let t = self.now.tables.now in
            let table = self.now.rows.now in
            let region = self.now.region.now in
            result ≡ by_table.handled_entry table t.net t.numbering region number layout.now
            (slice_get t.net.processes process) }
    {
        match self.tables.net().processes().get(process) {
            None => Some(Fate::Never),
            Some(found) => {
                let remaining = self.remaining(process, found);
                self.handled_verdict(number, layout, found, &remaining)
            }
        }
    }

    /// Returns the entry for the collecting process at this index and the layout with this number, from the rows of the
    /// processes that it feeds.
    pub(crate) fn entry_from(&self, process: usize, number: usize, layout: &Layout) -> Option<Fate>
        requires { by_table.AreTables self.now.tables.now }
        ensures { let t = self.now.tables.now in
            let table = self.now.rows.now in
            let region = self.now.region.now in
            result ≡ by_table.entry_from table t.net t.numbering region process number layout.now }
    {
        let counted = tally_verdict(self.tables.net(), layout, process);
        verdict_of_both(counted, self.handled_verdict_at(number, layout, process))
    }
}
