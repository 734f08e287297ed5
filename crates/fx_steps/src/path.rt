//! The least numbers of steps of a packet that takes a path.
ghost use Rattle.std.specs.Prelude.{◌≡◌, ◌++◌, [], List, ℕ, length, if◌then◌else◌};
ghost use Rattle.fx_leaf.specs.Tables as by_table;
ghost use Rattle.fx_tables.specs.Occurrences as met;
ghost use Rattle.fx_tables.specs.Runnable.{IsRunnable};
ghost use Rattle.fx_tables.specs.declared.observation.Occurrence as of_occurrence;
ghost use Rattle.fx_steps.specs.Costs as costs;
ghost use Rattle.fx_steps.specs.CostTables as tabled;
ghost use Rattle.fx_steps.specs.UnderWay as under_way;
ghost use Rattle.fx_steps.specs.Ways as ways;

use crate::costs::Costs;
use crate::rows::fill;
use crate::table::{CostRow, PacketCosts};
use fx_boxes::{Fields, Region};
use fx_leaf::Tables;
use fx_tables::{Crossing, Occurrence, Packet, Point, Selection};

/// Returns whether a selection process with this region, if any, selects a packet with these fields.
fn selects(region: Option<Region>, fields: &Fields) -> bool
    ensures { result ≡ met.selects region fields.now }
{
    match region {
        None => false,
        Some(region) => region.holds(fields),
    }
}

impl PacketCosts<'_, '_> {
    /// Returns the costs of the packet at a selection process, if the process selects it and has a cache, together with
    /// `others`.
    fn with_selection(&self, selection: Selection, others: Costs) -> Costs
        ensures { let c = self.now in
            let costs = tabled.occurrence_costs c.table c.tables.net c.tables.numbering in
            (point : ℕ) (process : ℕ) (os : List of_occurrence.Occurrence) → others ≡ costs os
            → result ≡ costs ((if met.selects selection.region c.packet.fields
            then met.occurrence point process selection.holder else []) ++ os) }
    {
        if !selects(selection.region, self.fields()) {
            return others;
        }
        match selection.holder {
            None => others,
            Some(holder) => self.holder_costs(holder).both(others),
        }
    }

    /// Returns the costs of the packet at these selection processes of a point, together with `others`.
    fn with_selections(&self, selections: &[Selection], others: Costs) -> Costs
        ensures { let c = self.now in
            let costs = tabled.occurrence_costs c.table c.tables.net c.tables.numbering in
            (point : ℕ) (process : ℕ) (os : List of_occurrence.Occurrence) → others ≡ costs os
            → result ≡ costs (met.met_by point process selections.now c.packet.fields ++ os) }
    {
        match selections {
            [] => others,
            [first, rest @ ..] => {
                let behind = self.with_selections(rest, others);
                self.with_selection(*first, behind)
            }
        }
    }

    /// Returns the costs of the packet at a point of the crossing's device, if the point watches the crossing, together
    /// with `others`.
    fn with_point(&self, crossing: &Crossing, point: &Point, others: Costs) -> Costs
        ensures { let c = self.now in
            let costs = tabled.occurrence_costs c.table c.tables.net c.tables.numbering in
            (number : ℕ) (os : List of_occurrence.Occurrence) → others ≡ costs os
            → result ≡ costs ((if met.watches point.now crossing.now
            then met.met_by number 1 point.now.selections c.packet.fields else []) ++ os) }
    {
        if point.watches(crossing) {
            self.with_selections(point.selections(), others)
        } else {
            others
        }
    }

    /// Returns the costs of the packet at these points of the crossing's device.
    fn points_costs(&self, crossing: &Crossing, points: &[Point]) -> Costs
        ensures { let c = self.now in
            (number : ℕ) → result ≡ tabled.occurrence_costs c.table c.tables.net c.tables.numbering
            (met.met_at number points.now crossing.now c.packet.fields) }
    {
        match points {
            [] => Costs::of_never(),
            [first, rest @ ..] => {
                let others = self.points_costs(crossing, rest);
                self.with_point(crossing, first, others)
            }
        }
    }

    /// Returns the costs of the packet at a crossing.
    fn crossing_costs(&self, crossing: &Crossing) -> Costs
        ensures { let c = self.now in
            result ≡ tabled.occurrence_costs c.table c.tables.net c.tables.numbering
            (met.occurrences c.tables.net crossing.now c.packet.fields) }
    {
        let points = self.net().points_of(crossing.device);
        self.points_costs(crossing, points)
    }

    /// Returns the costs of what the caches of these occurrences take in.
    pub(crate) fn occurrence_costs(&self, occurrences: &[Occurrence]) -> Costs
        ensures { let c = self.now in
            result ≡ tabled.occurrence_costs c.table c.tables.net c.tables.numbering
            occurrences.now }
    {
        match occurrences {
            [] => Costs::of_never(),
            [first, rest @ ..] => {
                let others = self.occurrence_costs(rest);
                self.holder_costs(first.holder).both(others)
            }
        }
    }

    /// Returns the costs of the packet over these crossings.
    pub(crate) fn path_costs(&self, path: &[Crossing]) -> Costs
        ensures { let c = self.now in
            result ≡ tabled.path_costs c.table c.tables.net c.tables.numbering c.packet.fields
            path.now }
    {
        match path {
            [] => Costs::of_never(),
            [first, rest @ ..] => {
                let others = self.path_costs(rest);
                self.crossing_costs(first).one_step_more().both(others)
            }
        }
    }
}

/// Returns the least number of steps in which a packet on this path comes to each fate, insofar as it is at most
/// 1,000,000. The rows are filled for the packet, whatever they held before. Allocates no memory.
pub(crate) fn least_steps(
    rows: &mut [CostRow],
    tables: &Tables<'_>,
    packet: &Packet,
    path: &[Crossing],
) -> Costs
    requires tables { by_table.AreTables tables.now }
    requires runnable { IsRunnable tables.now.net }
    requires room { length rows.old ≡ length tables.now.net.processes }
    ensures filled { under_way.HasCosts tables.now packet.now.fields rows.new }
    ensures costs { result ≡ tabled.path_costs rows.new tables.now.net tables.now.numbering
        packet.now.fields path.now }
    ensures tells { costs.Tells result (ways.PacketComes tables.now.net packet.now.fields
        path.now) }
    ensures size { length rows.new ≡ length rows.old }
{
    fill(rows, tables, packet);
    let costs = PacketCosts {
        tables: &*tables,
        packet: &*packet,
        rows: &*rows,
    };
    costs.path_costs(path)
}
