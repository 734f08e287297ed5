//! The least numbers of steps of records that are sent, from those at the processes where they arrive.
ghost use Rattle.std.specs.Prelude.{◌≡◌, slice_get, List};
ghost use Rattle.fx_tables.specs.Network as network;
ghost use Rattle.fx_steps.specs.CostTables as tabled;

use crate::costs::Costs;
use crate::table::PacketCosts;
use fx_tables::Exporter;

impl PacketCosts<'_, '_> {
    /// Returns the costs of what is sent to a destination.
    pub(crate) fn destination_costs(&self, layout: usize, destination: Option<usize>) -> Costs
        ensures { let c = self.now in
            result ≡ tabled.destination_costs c.table c.tables.net layout destination }
    {
        match destination {
            None => Costs::of_never(),
            Some(link) => match self.net().links().get(link) {
                None => Costs::of_never().one_step_more(),
                Some(process) => self.entry(*process, layout).one_step_more(),
            },
        }
    }

    /// Returns the costs of what is sent to all of these destinations.
    pub(crate) fn all_destinations_costs(
        &self,
        layout: usize,
        destinations: &[Option<usize>],
    ) -> Costs
        ensures { let c = self.now in
            result ≡ tabled.all_destinations_costs c.table c.tables.net layout destinations.now }
    {
        match destinations {
            [] => Costs::of_never(),
            [first, rest @ ..] => {
                let others = self.all_destinations_costs(layout, rest);
                self.destination_costs(layout, *first).both(others)
            }
        }
    }

    /// Returns the costs of what is sent to one of these destinations.
    pub(crate) fn one_destination_costs(
        &self,
        layout: usize,
        destinations: &[Option<usize>],
    ) -> Costs
        ensures { let c = self.now in
            result ≡ tabled.one_destination_costs c.table c.tables.net layout destinations.now }
    {
        match destinations {
            [] => Costs::of_no_way(),
            [first, rest @ ..] => {
                let others = self.one_destination_costs(layout, rest);
                self.destination_costs(layout, *first).either(others)
            }
        }
    }

    /// Returns the costs of what an exporting process sends.
    pub(crate) fn send_costs(&self, layout: usize, exporter: &Exporter) -> Costs
        ensures { let c = self.now in
            result ≡ tabled.send_costs c.table c.tables.net layout exporter.now }
    {
        if exporter.parallel() {
            self.all_destinations_costs(layout, exporter.destinations())
        } else {
            self.one_destination_costs(layout, exporter.destinations())
        }
    }

    /// Returns the costs of what the exporting process at a place sends, if there is one, together with `others`.
    fn with_send_costs(&self, layout: usize, index: usize, others: Costs) -> Costs
        ensures { let c = self.now in
            let net = c.tables.net in (es : List network.Exporter)
            → others ≡ tabled.sent_costs c.table net layout es
            → result ≡ tabled.sent_costs c.table net layout
            (network.before (slice_get net.exporters index) es) }
    {
        match self.net().exporters().get(index) {
            None => others,
            Some(exporter) => self.send_costs(layout, exporter).both(others),
        }
    }

    /// Returns the costs of what each of the exporting processes at these places sends.
    pub(crate) fn sent_costs(&self, layout: usize, places: &[usize]) -> Costs
        ensures { let c = self.now in
            let net = c.tables.net in result ≡ tabled.sent_costs c.table net layout
            (network.at_places net.exporters places.now) }
    {
        match places {
            [] => Costs::of_never(),
            [first, rest @ ..] => {
                let others = self.sent_costs(layout, rest);
                self.with_send_costs(layout, *first, others)
            }
        }
    }
}
