//! The least numbers of steps of records that arrive at a collecting process, from those at the processes that it
//! feeds.
ghost use Rattle.std.specs.Prelude.{◌≡◌, ◌&&◌, ◌==◌, slice_get, Some};
ghost use Rattle.std.specs.List.{list_all};
ghost use Rattle.fx_layout.specs.Keys as keys;
ghost use Rattle.fx_tables.specs.Network as network;
ghost use Rattle.fx_steps.specs.CostTables as tabled;

use crate::costs::Costs;
use crate::table::PacketCosts;
use fx_layout::{Key, Layout};
use fx_tables::{AggregationEntry, MatchEntry, Net, Process};

/// Returns whether all of these entries can be read from the key and match it.
fn entries_hold(key: &Key, entries: &[MatchEntry]) -> bool
    ensures { result ≡ list_all (λ e. keys.reads key.now.layout e.axis e.bits
        && keys.bits_on key.now
        e.axis e.bits == e.value) entries.now }
{
    entries.iter().all(|e| key.layout().reads(e.axis, e.bits)
        && key.bits_on(e.axis, e.bits) == e.value)
}

/// Returns whether the aggregation takes the key.
pub(crate) fn takes(net: &Net, key: &Key, aggregation: &AggregationEntry) -> bool
    ensures { result ≡ network.takes net.now key.now aggregation.now }
{
    key.layout().refines(&net.layout_at(aggregation.holder()))
        && entries_hold(key, aggregation.matches())
}

/// Returns the costs of what is counted of records that arrive at the collecting process at this place.
pub(crate) fn tally_costs(net: &Net, layout: &Layout, process: usize) -> Costs
    ensures { result ≡ tabled.tally_costs net.now layout.now process }
{
    if process != net.report() {
        Costs::of_never()
    } else if layout.refines(net.report_layout()) {
        Costs::of_once()
    } else {
        Costs::of_unassigned()
    }
}

impl PacketCosts<'_, '_> {
    /// Returns the costs of a record that the holder at this place takes in.
    pub(crate) fn holder_costs(&self, holder: usize) -> Costs
        ensures { let c = self.now in
            result ≡ tabled.holder_costs c.table c.tables.net c.tables.numbering holder }
    {
        let named = self.net().named_by(holder);
        let number = self.number_of_layout(holder);
        self.sent_costs(number, named).one_step_more()
    }

    /// Returns the costs of what these aggregations take in.
    pub(crate) fn all_taken_costs(&self, key: &Key, aggregations: &[AggregationEntry]) -> Costs
        ensures { let c = self.now in
            result ≡ tabled.all_taken_costs c.table c.tables.net c.tables.numbering key.now
            aggregations.now }
    {
        match aggregations {
            [] => Costs::of_never(),
            [first, rest @ ..] => {
                let others = self.all_taken_costs(key, rest);
                if takes(self.net(), key, first) {
                    self.holder_costs(first.holder()).both(others)
                } else {
                    others
                }
            }
        }
    }

    /// Returns the packet's key in this layout.
    pub(crate) fn key_of(&self, layout: &Layout) -> Key
        ensures { result ≡ keys.key_of layout.now self.now.packet.fields }
    {
        layout.key_of(self.fields())
    }

    /// Returns the costs of what a collecting process does with records of the layout of this number.
    fn handled_costs(&self, number: usize, layout: &Layout, process: &Process) -> Costs
        ensures { let c = self.now in
            result ≡ tabled.handled_costs c.table c.tables.net c.tables.numbering c.packet.fields
            number layout.now (Some process.now) }
    {
        let key = self.key_of(layout);
        let forwarded = self.sent_costs(number, process.exporters());
        forwarded.both(self.all_taken_costs(&key, process.aggregations()))
    }

    /// Returns the costs of what the collecting process at this place does with them, or the costs of nothing if there
    /// is no such process.
    pub(crate) fn handled_costs_at(&self, number: usize, layout: &Layout, process: usize) -> Costs
        ensures { let c = self.now in
            result ≡ tabled.handled_costs c.table c.tables.net c.tables.numbering c.packet.fields
            number layout.now (slice_get c.tables.net.processes process) }
    {
        match self.net().processes().get(process) {
            None => Costs::of_never(),
            Some(process) => self.handled_costs(number, layout, process),
        }
    }

    /// Returns the entry for the collecting process at this place and the layout of this number, from the rows of the
    /// processes that it feeds.
    pub(crate) fn entry_from(&self, process: usize, number: usize, layout: &Layout) -> Costs
        ensures { let c = self.now in
            result ≡ tabled.cost_entry_from c.table c.tables.net c.tables.numbering c.packet.fields
            process number layout.now }
    {
        let counted = tally_costs(self.net(), layout, process);
        counted.both(self.handled_costs_at(number, layout, process))
    }
}
