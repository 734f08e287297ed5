//! The middle one of the collecting processes that records are sent to and at which something cuts the region, so that
//! splits also halve what cuts it at several processes.
ghost use Rattle.std.specs.Prelude.{◌≡◌, List, slice_get, [], ◌∷◌, IfSome};
ghost use Rattle.fx_tables.specs.Network as network;
ghost use Rattle.fx_tables.specs.declared.traffic.Crossing as of_crossing;
ghost use Rattle.fx_leaf.specs.Causes as by_cause;
ghost use Rattle.fx_leaf.specs.Reach as reach;
ghost use Rattle.fx_leaf.specs.Splits as splits;
ghost use Rattle.fx_leaf.specs.Tables as by_table;

use crate::path::PathReader;
use crate::split::MatchCut;
use crate::table::Verdicts;

impl Verdicts<'_, '_> {
    /// Counts these destinations that lead to a collecting process without a verdict.
    fn count_destinations(&self, number: usize, destinations: &[Option<usize>]) -> usize {
        let mut count: usize = 0;
        for destination in destinations {
            if self.cause_at_destination(number, *destination).is_some() {
                count = count.saturating_add(1);
            }
        }
        count
    }

    /// Returns the collecting process without a verdict that a destination leads to, after `skipped` others.
    fn destination_after(
        &self,
        number: usize,
        destinations: &[Option<usize>],
        skipped: usize,
    ) -> Option<usize>
        ensures { let net = self.now.tables.now.net in
            let table = self.now.rows.now in
            IfSome result (λ process. by_cause.LeadsOn table net number destinations.now process) }
    {
        let mut left = skipped;
        for destination in destinations {
            if let Some(process) = self.cause_at_destination(number, *destination) {
                if left == 0 {
                    return Some(process);
                }
                left -= 1;
            }
        }
        None
    }

    /// Returns the middle one of the collecting processes without a verdict that the exporting process at this index
    /// sends to.
    fn middle_at_exporter(&self, number: usize, index: usize) -> Option<usize>
        ensures { let net = self.now.tables.now.net in
            let table = self.now.rows.now in
            IfSome result (λ process. by_cause.SendsOn table net number
            (network.before (slice_get net.exporters index) []) process) }
    {
        match self.tables.net().exporters().get(index) {
            None => None,
            Some(exporter) => {
                let destinations = exporter.destinations();
                let count = self.count_destinations(number, destinations);
                self.destination_after(number, destinations, count / 2)
            }
        }
    }

    /// Counts the exporting processes at these indices that send to a collecting process without a verdict.
    fn count_exporters(&self, number: usize, places: &[usize]) -> usize {
        let mut count: usize = 0;
        for index in places {
            if self.middle_at_exporter(number, *index).is_some() {
                count = count.saturating_add(1);
            }
        }
        count
    }

    /// Returns the middle collecting process of an exporting process, after `skipped` others that send to one without a
    /// verdict.
    fn exporter_after(&self, number: usize, places: &[usize], skipped: usize) -> Option<usize>
        ensures { let net = self.now.tables.now.net in
            let table = self.now.rows.now in
            IfSome result (λ process. by_cause.SendsOn table net number
            (network.at_places net.exporters places.now) process) }
    {
        let mut left = skipped;
        for index in places {
            if let Some(process) = self.middle_at_exporter(number, *index) {
                if left == 0 {
                    return Some(process);
                }
                left -= 1;
            }
        }
        None
    }
}

impl PathReader<'_, '_> {
    /// Returns the match that cuts the region downstream of a cache, if there are several at the middle collecting
    /// process.
    pub(crate) fn middle_cut_behind_holder(&self, holder: usize) -> Option<MatchCut>
        requires tables { by_table.AreTables self.now.verdicts.tables.now }
        requires along { let t = self.now.verdicts.tables.now in
            reach.HoldsBehindHolder t.net t.numbering (reach.IsMarked self.now.marks.now) holder }
        ensures { let t = self.now.verdicts.tables.now in
            let region = self.now.verdicts.region.now in
            IfSome result (λ cut. (path : List of_crossing.Crossing)
            → splits.HeldAlong t.net path region holder → by_cause.IsCutBy t path region cut) }
    {
        let number = self.verdicts.tables.number_of_layout(holder);
        let places = self.verdicts.tables.net().named_by(holder);
        let count = self.verdicts.count_exporters(number, places);
        match self.verdicts.exporter_after(number, places, count / 2) {
            None => None,
            Some(process) => self.cut_behind(process, number),
        }
    }
}
