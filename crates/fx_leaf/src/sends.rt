//! The verdict on records that are sent, from the verdicts at the processes that they reach.
ghost use Rattle.std.specs.Prelude.{◌≡◌, map, slice_get, [], ◌∷◌};
ghost use Rattle.fx_tables.specs.Network as network;
ghost use Rattle.fx_leaf.specs.Tables as by_table;
ghost use Rattle.fx_leaf.specs.Verdicts as verdicts;

use crate::table::Verdicts;
use crate::verdict::{Fate, verdict_of_both, verdict_of_either};
use fx_tables::Exporter;

impl Verdicts<'_, '_> {
    /// Returns the verdict on what is sent to a destination: never, if it leads outside the network.
    fn destination_verdict(&self, layout: usize, destination: Option<usize>) -> Option<Fate>
        ensures { let net = self.now.tables.now.net in
            let table = self.now.rows.now in
            result ≡ verdicts.destination_verdict (by_table.entry table) net layout destination }
    {
        match destination {
            None => Some(Fate::Never),
            Some(link) => match self.tables.net().links().get(link) {
                None => Some(Fate::Never),
                Some(process) => self.entry(*process, layout),
            },
        }
    }

    /// Returns the verdict on what is sent to all of these destinations.
    fn all_destinations_verdict(
        &self,
        layout: usize,
        destinations: &[Option<usize>],
    ) -> Option<Fate>
        ensures { let net = self.now.tables.now.net in
            let table = self.now.rows.now in
            result ≡ verdicts.verdict_of_all
            (map (verdicts.destination_verdict (by_table.entry table) net layout)
            destinations.now) }
    {
        let mut joined = Some(Fate::Never);
        for destination in destinations {
            joined = verdict_of_both(joined, self.destination_verdict(layout, *destination));
        }
        joined
    }

    /// Returns the verdict on what is sent to the first destination or to one of the others.
    fn first_or_other_verdict(
        &self,
        layout: usize,
        first: Option<usize>,
        others: &[Option<usize>],
    ) -> Option<Fate>
        ensures { let net = self.now.tables.now.net in
            let table = self.now.rows.now in
            result ≡ verdicts.verdict_of_one
            (map (verdicts.destination_verdict (by_table.entry table) net layout)
            (first ∷ others.now)) }
    {
        let mut joined = self.destination_verdict(layout, first);
        for other in others {
            joined = verdict_of_either(joined, self.destination_verdict(layout, *other));
        }
        joined
    }

    /// Returns the verdict on what is sent to one of these destinations.
    fn one_destination_verdict(&self, layout: usize, destinations: &[Option<usize>]) -> Option<Fate>
        ensures { let net = self.now.tables.now.net in
            let table = self.now.rows.now in
            result ≡ verdicts.verdict_of_one
            (map (verdicts.destination_verdict (by_table.entry table) net layout)
            destinations.now) }
    {
        match destinations {
            [] => Some(Fate::Never),
            [first, others @ ..] => self.first_or_other_verdict(layout, *first, others),
        }
    }

    /// Returns the verdict on what an exporting process sends.
    fn send_verdict(&self, layout: usize, exporter: &Exporter) -> Option<Fate>
        ensures { let net = self.now.tables.now.net in
            let table = self.now.rows.now in
            result ≡ verdicts.send_verdict (by_table.entry table) net layout exporter.now }
    {
        if exporter.parallel() {
            self.all_destinations_verdict(layout, exporter.destinations())
        } else {
            self.one_destination_verdict(layout, exporter.destinations())
        }
    }

    /// Returns the verdict on what the exporting process at an index of the network's table sends: never, if there is
    /// no such process.
    fn send_verdict_at(&self, layout: usize, index: usize) -> Option<Fate>
        ensures { let net = self.now.tables.now.net in
            let table = self.now.rows.now in
            result ≡ verdicts.sent_verdict (by_table.entry table) net layout
            (network.before (slice_get net.exporters index) []) }
    {
        match self.tables.net().exporters().get(index) {
            None => Some(Fate::Never),
            Some(exporter) => self.send_verdict(layout, exporter),
        }
    }

    /// Returns the verdict on records of the layout with this 0-based number that each of the exporting processes at
    /// these indices sends.
    pub(crate) fn sent_verdict(&self, layout: usize, places: &[usize]) -> Option<Fate>
        ensures { let net = self.now.tables.now.net in
            let table = self.now.rows.now in
            result ≡ verdicts.sent_verdict (by_table.entry table) net layout
            (network.at_places net.exporters places.now) }
    {
        let mut joined = Some(Fate::Never);
        for index in places {
            joined = verdict_of_both(joined, self.send_verdict_at(layout, *index));
        }
        joined
    }
}
