//! The cause of a missing verdict: what cuts a region.
ghost use Rattle.std.specs.Prelude.{◌≡◌, map, slice_get, Some, None, [], ◌∷◌, IfSome, IfNone};
ghost use Rattle.std.specs.List.{AllByRecursion};
ghost use Rattle.fx_layout.specs.Keys as keys;
ghost use Rattle.fx_tables.specs.Matches.{HasEntries};
ghost use Rattle.fx_tables.specs.Network as network;
ghost use Rattle.fx_leaf.specs.Causes as by_cause;
ghost use Rattle.fx_leaf.specs.Remaining as of_remaining;
ghost use Rattle.fx_leaf.specs.Tables as by_table;
ghost use Rattle.fx_leaf.specs.Verdicts as verdicts;

use crate::bound::bound_of_match;
use crate::entry::layout_reads;
use crate::regions::{Overlap, bounds_hold, match_overlap};
use crate::remaining::Remaining;
use crate::table::Verdicts;
use fx_elements::Axis;
use fx_layout::Layout;
use fx_tables::{AggregationEntry, Process};

/// Why there is no verdict.
#[derive(Clone, Copy)]
pub(crate) enum Cause {
    /// Something cuts the region here and has this bound strictly inside it.
    Split(Axis, u128),
    /// There is no verdict at the collecting process at this index on records of the layout with this number, each
    /// 0-based.
    Behind(usize, usize),
}

impl Verdicts<'_, '_> {
    /// Returns the index of the collecting process that a destination leads to, if there is no verdict there.
    pub(crate) fn cause_at_destination(
        &self,
        number: usize,
        destination: Option<usize>,
    ) -> Option<usize>
        ensures some { let net = self.now.tables.now.net in
            let table = self.now.rows.now in
            IfSome result (λ process. by_cause.LeadsOn table net number
            (destination ∷ []) process) }
        ensures none { let net = self.now.tables.now.net in
            let table = self.now.rows.now in
            IfNone result (verdicts.destination_verdict
            (by_table.entry table) net number destination ≡ None → ⊥) }
    {
        let link = destination?;
        let Some(process) = self.tables.net().links().get(link) else {
            return None;
        };
        if self.entry(*process, number).is_none() {
            Some(*process)
        } else {
            None
        }
    }

    /// Returns the collecting process that one of these destinations leads to and that has no verdict.
    fn cause_among_destinations(
        &self,
        number: usize,
        destinations: &[Option<usize>],
    ) -> Option<usize>
        ensures some { let net = self.now.tables.now.net in
            let table = self.now.rows.now in
            IfSome result (λ process. by_cause.LeadsOn table net number destinations.now process) }
        ensures none { let net = self.now.tables.now.net in
            let table = self.now.rows.now in
            IfNone result (verdicts.verdict_of_all
            (map (verdicts.destination_verdict (by_table.entry table) net number) destinations.now)
            ≡ None → ⊥) }
    {
        for destination in destinations {
            if let Some(process) = self.cause_at_destination(number, *destination) {
                return Some(process);
            }
        }
        None
    }

    /// Returns the collecting process without a verdict that the exporting process at this index sends to.
    fn cause_at_exporter(&self, number: usize, index: usize) -> Option<usize>
        ensures some { let net = self.now.tables.now.net in
            let table = self.now.rows.now in
            IfSome result (λ process. by_cause.SendsOn table net number
            (network.before (slice_get net.exporters index) []) process) }
        ensures none { let net = self.now.tables.now.net in
            let table = self.now.rows.now in
            IfNone result (verdicts.sent_verdict (by_table.entry table) net number
            (network.before (slice_get net.exporters index) []) ≡ None → ⊥) }
    {
        match self.tables.net().exporters().get(index) {
            None => None,
            Some(exporter) => self.cause_among_destinations(number, exporter.destinations()),
        }
    }

    /// Returns the collecting process without a verdict that one of the exporting processes at these indices sends to.
    fn cause_by_exporters(&self, number: usize, places: &[usize]) -> Option<usize>
        ensures some { let net = self.now.tables.now.net in
            let table = self.now.rows.now in
            IfSome result (λ process. by_cause.SendsOn table net number
            (network.at_places net.exporters places.now) process) }
        ensures none { let net = self.now.tables.now.net in
            let table = self.now.rows.now in
            IfNone result (verdicts.sent_verdict (by_table.entry table) net number
            (network.at_places net.exporters places.now) ≡ None → ⊥) }
    {
        for index in places {
            if let Some(process) = self.cause_at_exporter(number, *index) {
                return Some(process);
            }
        }
        None
    }

    /// Returns the collecting process without a verdict downstream of a holder, with the number of the holder's layout.
    pub(crate) fn cause_by_holder(&self, holder: usize) -> Option<Cause>
        ensures some { let t = self.now.tables.now in
            let table = self.now.rows.now in
            IfSome result (λ cause. by_cause.IsCauseByHolder t table holder cause) }
        ensures none { let t = self.now.tables.now in
            let table = self.now.rows.now in
            IfNone result (verdicts.sent_verdict (by_table.entry table) t.net
            (by_table.number_of_layout t.numbering holder) (network.exporters_of t.net
            (slice_get t.net.holders holder)) ≡ None → ⊥) }
    {
        let number = self.tables.number_of_layout(holder);
        match self.cause_by_exporters(number, self.tables.net().named_by(holder)) {
            None => None,
            Some(process) => Some(Cause::Behind(process, number)),
        }
    }

    /// Returns why there is no verdict on what an aggregation takes in from records of this layout.
    fn cause_in_match(&self, layout: &Layout, aggregation: &AggregationEntry) -> Option<Cause>
        requires { HasEntries aggregation.now }
        ensures some { let t = self.now.tables.now in
            let table = self.now.rows.now in
            let region = self.now.region.now in
            IfSome result (λ cause. by_cause.IsCauseInMatch t region table layout.now
            aggregation.now cause) }
        ensures none { let t = self.now.tables.now in
            let table = self.now.rows.now in
            let region = self.now.region.now in
            IfNone result (by_table.taken_entry table t.net t.numbering region layout.now
            aggregation.now ≡ None → ⊥) }
    {
        if !layout_reads(self.tables.net(), layout, aggregation) {
            return None;
        }
        match match_overlap(self.region, aggregation.matches()) {
            Overlap::Whole => self.cause_by_holder(aggregation.holder()),
            Overlap::Nothing => None,
            Overlap::Part => match bound_of_match(self.region, aggregation.matches()) {
                None => None,
                Some((axis, at)) => Some(Cause::Split(axis, at)),
            },
        }
    }

    /// Returns why there is no verdict on what one of these aggregations takes in.
    fn cause_in_matches(&self, layout: &Layout, remaining: &Remaining<'_, '_>) -> Option<Cause>
        requires { AllByRecursion HasEntries remaining.now }
        ensures some { let t = self.now.tables.now in
            let table = self.now.rows.now in
            let region = self.now.region.now in
            IfSome result (λ cause. by_cause.IsCauseInMatches t region table layout.now
            remaining.now cause) }
        ensures none { let t = self.now.tables.now in
            let table = self.now.rows.now in
            let region = self.now.region.now in
            IfNone result (verdicts.verdict_of_all
            (map (by_table.taken_entry table t.net t.numbering region layout.now) remaining.now)
            ≡ None → ⊥) }
    {
        for index in 0..remaining.len() {
            let aggregation = remaining.at(index);
            if let Some(cause) = self.cause_in_match(layout, aggregation) {
                return Some(cause);
            }
        }
        None
    }

    /// Returns why there is no verdict on what a collecting process does with records of the layout with this number,
    /// given those aggregations whose matches may accept packets of the region.
    fn cause_in_process(
        &self,
        number: usize,
        layout: &Layout,
        process: &Process,
        remaining: &Remaining<'_, '_>,
    ) -> Option<Cause>
        requires remain { of_remaining.AreRemaining self.now.region.now process.now.aggregations
            remaining.now }
        requires entries { AllByRecursion HasEntries remaining.now }
        ensures some { let t = self.now.tables.now in
            let table = self.now.rows.now in
            let region = self.now.region.now in
            IfSome result (λ cause. by_cause.IsCauseIn t region table number layout.now process.now
            cause) }
        ensures none { let t = self.now.tables.now in
            let table = self.now.rows.now in
            let region = self.now.region.now in
            IfNone result (by_table.handled_entry table t.net t.numbering region number layout.now
            (Some process.now) ≡ None → ⊥) }
    {
        // Only for the prover: the bounds of a region hold.
        bounds_hold(self.region);
        match self.cause_by_exporters(number, process.exporters()) {
            Some(next) => Some(Cause::Behind(next, number)),
            None => self.cause_in_matches(layout, remaining),
        }
    }

    /// Returns why there is no verdict on what the collecting process at this index does with records of the layout
    /// with this number.
    pub(crate) fn cause_at(&self, process: usize, number: usize) -> Option<Cause>
        requires { by_table.AreTables self.now.tables.now }
        ensures some { let t = self.now.tables.now in
            let table = self.now.rows.now in
            let region = self.now.region.now in
            IfSome result (λ cause. by_cause.IsCauseAt t region table process number cause) }
        ensures none { let t = self.now.tables.now in
            let table = self.now.rows.now in
            let region = self.now.region.now in
            IfNone result ((layout : keys.Layout) → slice_get t.numbering.layouts number
            ≡ Some layout → by_table.handled_entry table t.net t.numbering region number layout
            (slice_get t.net.processes process) ≡ None → ⊥) }
    {
        let Some(layout) = self.tables.layouts().get(number) else {
            return None;
        };
        match self.tables.net().processes().get(process) {
            None => None,
            Some(found) => {
                let remaining = self.remaining(process, found);
                self.cause_in_process(number, layout, found, &remaining)
            }
        }
    }
}
