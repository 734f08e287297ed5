//! The result of a step, planned so that a wanted fate is reached at the least cost.
ghost use Rattle.std.specs.Prelude.{◌≡◌, ◌≤◌, length, [], ◌∷◌, IfOk, OnOk, slice_get, suc, Some, None};
ghost use Rattle.fx_leaf.specs.Tables as by_table;
ghost use Rattle.fx_tables.specs.Network as network;
ghost use Rattle.fx_base.specs.Entries as views;
ghost use Rattle.fx_steps.specs.CostTables as tabled;
ghost use Rattle.fx_steps.specs.Planning as planning;
ghost use Rattle.fx_steps.specs.Spread as spread;
ghost use Rattle.fx_steps.specs.declared.pending.Pending.TheVariants as of_pending;

use crate::costs::Costs;
use crate::entry::{takes, tally_costs};
use crate::pending::{Pending, StepPlan};
use crate::sharing::{cost_of, shares};
use crate::table::PacketCosts;
use fx_layout::{Key, Layout};
use fx_leaf::Fate;
use fx_tables::{AggregationEntry, Exporter, Net, Occurrence, Process};
use std::alloc::AllocError;

/// Returns the destination at this place.
fn destination_at(destinations: &[Option<usize>], index: usize) -> Option<Option<usize>>
    ensures { result ≡ slice_get destinations.now index }
{
    destinations.get(index).copied()
}

/// Returns the exporting process at this place.
fn exporter_at(net: &Net, index: usize) -> Option<&Exporter>
    ensures { views.now_of result ≡ slice_get net.now.exporters index }
{
    net.exporters().get(index)
}

/// Returns the collecting process at this place.
fn process_at(net: &Net, index: usize) -> Option<&Process>
    ensures { views.now_of result ≡ slice_get net.now.processes index }
{
    net.processes().get(index)
}

impl PacketCosts<'_, '_> {
    /// Returns the place of the first of these destinations that has this cost for the fate.
    fn cheapest_place(
        &self,
        layout: usize,
        destinations: &[Option<usize>],
        fate: Fate,
        cost: u32,
    ) -> usize
        ensures is { let c = self.now in
            result ≡ spread.cheapest_place c.table c.tables.net layout destinations.now fate cost }
        ensures few { result ≤ length destinations.now }
    {
        match destinations {
            [] => 0,
            [first, rest @ ..] => {
                if cost_of(self.destination_costs(layout, *first), fate) == cost {
                    0
                } else {
                    self.cheapest_place(layout, rest, fate, cost) + 1
                }
            }
        }
    }

    /// Returns the place of the cheapest of these destinations.
    fn choice_of(&self, layout: usize, destinations: &[Option<usize>], fate: Fate) -> usize
        ensures is { let c = self.now in
            result ≡ spread.choice_of c.table c.tables.net layout destinations.now fate }
        ensures few { result ≤ length destinations.now }
    {
        let cost = cost_of(self.one_destination_costs(layout, destinations), fate);
        self.cheapest_place(layout, destinations, fate, cost)
    }

    /// Returns the fate of what a collecting process sends of a record with this key, and that of what its aggregations
    /// take in.
    fn handling_shares(
        &self,
        number: usize,
        key: &Key,
        process: &Process,
        fate: Fate,
    ) -> (Fate, Fate)
        ensures { let c = self.now in
            result ≡ spread.shares (tabled.sent_costs c.table c.tables.net number
            (network.at_places c.tables.net.exporters process.now.exporters))
            (tabled.all_taken_costs c.table c.tables.net c.tables.numbering key.now
            process.now.aggregations) fate }
    {
        let forwarded = self.sent_costs(number, process.exporters());
        let taken = self.all_taken_costs(key, process.aggregations());
        shares(forwarded, taken, fate)
    }

    /// Returns the fate that is left after the tally of the report.
    fn fate_behind_tally(&self, number: usize, layout: &Layout, process: usize, fate: Fate) -> Fate
        ensures { let c = self.now in
            result ≡ planning.fate_behind_tally c.table c.tables.net c.tables.numbering
            c.packet.fields process number layout.now fate }
    {
        let here = tally_costs(self.net(), layout, process);
        let others = self.handled_costs_at(number, layout, process);
        shares(here, others, fate).1
    }
}

impl StepPlan {
    /// Appends a record on the link of a destination, if it has one.
    fn add_on_link(
        &mut self,
        layout: usize,
        destination: Option<usize>,
        fate: Fate,
    ) -> Result<(), AllocError>
        ensures { OnOk result (planning.AddsPlan self.old self.new
            (planning.pending_on_links layout (spread.records_to_destination destination fate))
            []) }
    {
        if let Some(link) = destination {
            self.pending.push(Pending::OnLink { link, layout, fate })?;
        }
        Ok(())
    }

    /// Appends records to all of these destinations.
    fn add_to_all(
        &mut self,
        costs: &PacketCosts<'_, '_>,
        layout: usize,
        destinations: &[Option<usize>],
        fate: Fate,
    ) -> Result<(), AllocError>
        ensures { let c = costs.now in
            OnOk result (planning.AddsPlan self.old self.new
            (planning.pending_on_links layout (spread.records_to_all c.table c.tables.net layout
            destinations.now fate)) []) }
    {
        match destinations {
            [] => Ok(()),
            [first, rest @ ..] => {
                let here = costs.destination_costs(layout, *first);
                let (one, other) = shares(here, costs.all_destinations_costs(layout, rest), fate);
                self.add_on_link(layout, *first, one)?;
                self.add_to_all(costs, layout, rest, other)
            }
        }
    }

    /// Appends a record to the destination at this place.
    fn add_to_place(
        &mut self,
        layout: usize,
        destinations: &[Option<usize>],
        index: usize,
        fate: Fate,
    ) -> Result<(), AllocError>
        ensures { OnOk result (planning.AddsPlan self.old self.new
            (planning.pending_on_links layout (spread.records_to_one
            (slice_get destinations.now index) fate)) []) }
    {
        match destination_at(destinations, index) {
            None => Ok(()),
            Some(destination) => self.add_on_link(layout, destination, fate),
        }
    }

    /// Appends a record to the cheapest of these destinations, and its choice.
    fn add_to_cheapest(
        &mut self,
        costs: &PacketCosts<'_, '_>,
        layout: usize,
        destinations: &[Option<usize>],
        fate: Fate,
    ) -> Result<(), AllocError>
        ensures { let c = costs.now in
            OnOk result (planning.AddsPlan self.old self.new
            (planning.pending_on_links layout (spread.records_to_one
            (slice_get destinations.now (spread.choice_of c.table c.tables.net layout
            destinations.now fate)) fate)) (Some
            (suc (spread.choice_of c.table c.tables.net layout destinations.now fate)) ∷ [])) }
    {
        let index = costs.choice_of(layout, destinations, fate);
        self.choices.push(Some(index as u64 + 1))?;
        self.add_to_place(layout, destinations, index, fate)
    }

    /// Appends what an exporting process sends and chooses.
    fn add_send(
        &mut self,
        costs: &PacketCosts<'_, '_>,
        layout: usize,
        exporter: &Exporter,
        fate: Fate,
    ) -> Result<(), AllocError>
        ensures { let c = costs.now in
            OnOk result (planning.AddsPlan self.old self.new
            (planning.pending_on_links layout (spread.records_by_exporter c.table c.tables.net
            layout exporter.now fate)) (spread.choices_by_exporter c.table c.tables.net layout
            exporter.now fate)) }
    {
        if exporter.parallel() {
            self.add_to_all(costs, layout, exporter.destinations(), fate)
        } else {
            self.add_to_cheapest(costs, layout, exporter.destinations(), fate)
        }
    }

    /// Appends what an exporting process sends and chooses, given the costs of the others. Returns the fate that is
    /// left for the others.
    fn add_send_before(
        &mut self,
        costs: &PacketCosts<'_, '_>,
        layout: usize,
        exporter: &Exporter,
        others: Costs,
        fate: Fate,
    ) -> Result<Fate, AllocError>
        ensures left { let c = costs.now in
            IfOk result (λ f. f ≡ planning.fate_left_by c.table c.tables.net layout
            (Some exporter.now) others fate) }
        ensures added { let c = costs.now in
            OnOk result (planning.AddsPlan self.old self.new
            (planning.first_pending c.table c.tables.net layout (Some exporter.now) others fate)
            (planning.first_choices c.table c.tables.net layout (Some exporter.now) others fate)) }
    {
        let here = costs.send_costs(layout, exporter);
        let (one, other) = shares(here, others, fate);
        self.add_send(costs, layout, exporter, one)?;
        Ok(other)
    }

    /// Appends what an exporting process, if there is one, sends and chooses, given the costs of the others. Returns
    /// the fate that is left for the others.
    fn add_send_at(
        &mut self,
        costs: &PacketCosts<'_, '_>,
        layout: usize,
        exporter: Option<&Exporter>,
        others: Costs,
        fate: Fate,
    ) -> Result<Fate, AllocError>
        ensures left { let c = costs.now in
            IfOk result (λ f. f ≡ planning.fate_left_by c.table c.tables.net layout
            (views.now_of exporter.entry) others fate) }
        ensures added { let c = costs.now in
            OnOk result (planning.AddsPlan self.old self.new
            (planning.first_pending c.table c.tables.net layout (views.now_of exporter.entry) others
            fate) (planning.first_choices c.table c.tables.net layout (views.now_of exporter.entry)
            others fate)) }
    {
        match exporter {
            None => Ok(fate),
            Some(exporter) => self.add_send_before(costs, layout, exporter, others, fate),
        }
    }

    /// Appends what the exporting processes at these places send and choose.
    pub(crate) fn add_sends(
        &mut self,
        costs: &PacketCosts<'_, '_>,
        layout: usize,
        places: &[usize],
        fate: Fate,
    ) -> Result<(), AllocError>
        ensures { let c = costs.now in
            OnOk result (planning.AddsPlan self.old self.new
            (planning.sent_pending c.table c.tables.net layout
            (network.at_places c.tables.net.exporters places.now) fate)
            (planning.sent_choices c.table c.tables.net layout
            (network.at_places c.tables.net.exporters places.now) fate)) }
    {
        match places {
            [] => Ok(()),
            [first, rest @ ..] => {
                let others = costs.sent_costs(layout, rest);
                let exporter = exporter_at(costs.net(), *first);
                let left = self.add_send_at(costs, layout, exporter, others, fate)?;
                self.add_sends(costs, layout, rest, left)
            }
        }
    }

    /// Appends a new record at a holder, given the costs of the others. Returns the fate that is left for the others.
    fn add_holding(
        &mut self,
        costs: &PacketCosts<'_, '_>,
        holder: usize,
        others: Costs,
        fate: Fate,
    ) -> Result<Fate, AllocError>
        ensures left { let c = costs.now in
            IfOk result (λ f. f ≡ (spread.shares
            (tabled.holder_costs c.table c.tables.net c.tables.numbering holder) others fate).1) }
        ensures added { let c = costs.now in
            OnOk result (planning.AddsPlan self.old self.new
            (of_pending.AtHolder holder (spread.shares
            (tabled.holder_costs c.table c.tables.net c.tables.numbering holder) others fate).0
            ∷ []) (None ∷ [])) }
    {
        let (one, other) = shares(costs.holder_costs(holder), others, fate);
        self.pending.push(Pending::AtHolder { holder, fate: one })?;
        self.choices.push(None)?;
        Ok(other)
    }

    /// Appends what these aggregations take in.
    fn add_takings(
        &mut self,
        costs: &PacketCosts<'_, '_>,
        key: &Key,
        aggregations: &[AggregationEntry],
        fate: Fate,
    ) -> Result<(), AllocError>
        ensures { let c = costs.now in
            OnOk result (planning.AddsPlan self.old self.new
            (planning.all_taken_pending c.table c.tables.net c.tables.numbering key.now
            aggregations.now fate) (planning.all_taken_choices c.table c.tables.net
            c.tables.numbering key.now aggregations.now)) }
    {
        match aggregations {
            [] => Ok(()),
            [first, rest @ ..] => {
                if !takes(costs.net(), key, first) {
                    return self.add_takings(costs, key, rest, fate);
                }
                let others = costs.all_taken_costs(key, rest);
                let left = self.add_holding(costs, first.holder(), others, fate)?;
                self.add_takings(costs, key, rest, left)
            }
        }
    }

    /// Appends what results from a record of the layout of this number that a collecting process handles.
    fn add_handling(
        &mut self,
        costs: &PacketCosts<'_, '_>,
        number: usize,
        layout: &Layout,
        process: &Process,
        fate: Fate,
    ) -> Result<(), AllocError>
        ensures { let c = costs.now in
            OnOk result (planning.AddsPlan self.old self.new
            (planning.handled_pending c.table c.tables.net c.tables.numbering c.packet.fields number
            layout.now (Some process.now) fate)
            (planning.handled_choices c.table c.tables.net c.tables.numbering c.packet.fields number
            layout.now (Some process.now) fate)) }
    {
        let key = costs.key_of(layout);
        let (one, other) = costs.handling_shares(number, &key, process, fate);
        self.add_sends(costs, number, process.exporters(), one)?;
        self.add_takings(costs, &key, process.aggregations(), other)
    }

    /// Appends what results from a record of the layout of this number that a collecting process, if there is one,
    /// handles.
    fn add_handling_at(
        &mut self,
        costs: &PacketCosts<'_, '_>,
        number: usize,
        layout: &Layout,
        process: Option<&Process>,
        fate: Fate,
    ) -> Result<(), AllocError>
        ensures { let c = costs.now in
            OnOk result (planning.AddsPlan self.old self.new
            (planning.handled_pending c.table c.tables.net c.tables.numbering c.packet.fields number
            layout.now (views.now_of process.entry) fate)
            (planning.handled_choices c.table c.tables.net c.tables.numbering c.packet.fields number
            layout.now (views.now_of process.entry) fate)) }
    {
        match process {
            None => Ok(()),
            Some(process) => self.add_handling(costs, number, layout, process, fate),
        }
    }

    /// Appends what results from a record of the layout of this number at the collecting process at this place.
    pub(crate) fn add_arrival(
        &mut self,
        costs: &PacketCosts<'_, '_>,
        number: usize,
        layout: &Layout,
        process: usize,
        fate: Fate,
    ) -> Result<(), AllocError>
        ensures { let c = costs.now in
            OnOk result (planning.AddsPlan self.old self.new
            (planning.handled_pending c.table c.tables.net c.tables.numbering c.packet.fields number
            layout.now (slice_get c.tables.net.processes process)
            (planning.fate_behind_tally c.table c.tables.net c.tables.numbering c.packet.fields
            process number layout.now fate)) (planning.handled_choices c.table c.tables.net
            c.tables.numbering c.packet.fields number layout.now
            (slice_get c.tables.net.processes process)
            (planning.fate_behind_tally c.table c.tables.net c.tables.numbering c.packet.fields
            process number layout.now fate))) }
    {
        let other = costs.fate_behind_tally(number, layout, process, fate);
        self.add_handling_at(
            costs,
            number,
            layout,
            process_at(costs.net(), process),
            other,
        )
    }

    /// Appends what results from a record that leaves the holder at this place.
    pub(crate) fn add_leaving(
        &mut self,
        costs: &PacketCosts<'_, '_>,
        holder: usize,
        fate: Fate,
    ) -> Result<(), AllocError>
        ensures { let c = costs.now in
            OnOk result (planning.AddsPlan self.old self.new
            (planning.sent_pending c.table c.tables.net
            (by_table.number_of_layout c.tables.numbering holder)
            (network.exporters_of c.tables.net (slice_get c.tables.net.holders holder)) fate)
            (planning.sent_choices c.table c.tables.net
            (by_table.number_of_layout c.tables.numbering holder)
            (network.exporters_of c.tables.net (slice_get c.tables.net.holders holder)) fate)) }
    {
        let net = costs.net();
        self.add_sends(
            costs,
            costs.number_of_layout(holder),
            net.named_by(holder),
            fate,
        )
    }

    /// Appends what the caches of these occurrences take in.
    pub(crate) fn add_meetings(
        &mut self,
        costs: &PacketCosts<'_, '_>,
        occurrences: &[Occurrence],
        fate: Fate,
    ) -> Result<(), AllocError>
        ensures { let c = costs.now in
            OnOk result (planning.AddsPlan self.old self.new
            (planning.occurrence_pending c.table c.tables.net c.tables.numbering occurrences.now
            fate) (planning.occurrence_choices occurrences.now)) }
    {
        match occurrences {
            [] => Ok(()),
            [first, rest @ ..] => {
                let others = costs.occurrence_costs(rest);
                let left = self.add_holding(costs, first.holder, others, fate)?;
                self.add_meetings(costs, rest, left)
            }
        }
    }
}
