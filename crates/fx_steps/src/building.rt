//! A run of one packet under construction.
ghost use Rattle.std.specs.Prelude.{◌≡◌, ◌≤◌, ◌<◌, ◌+◌, ◌++◌, ◌∷◌, [], List, length, take, drop, Some, IfOk, OnOk, slice_get};
ghost use Rattle.std.specs.List.{AllByRecursion};
ghost use Rattle.fx_leaf.specs.declared.verdict.Fate as of_fate;
ghost use Rattle.fx_machine.specs.Limits.{step_limit};
ghost use Rattle.fx_tables.specs.Classes as traffic;
ghost use Rattle.fx_leaf.specs.Fates.{both};
ghost use Rattle.fx_tables.specs.Network as network;
ghost use Rattle.fx_machine.specs.States as states;
ghost use Rattle.fx_tables.specs.Runnable.{IsHolder};
ghost use Rattle.fx_tables.specs.declared.observation.Occurrence as of_occurrence;
ghost use Rattle.fx_run_text.specs.declared.step.Step.TheVariants as of_step;
ghost use Rattle.fx_steps.specs.Costs as by_fate;
ghost use Rattle.fx_steps.specs.CostTables as tabled;
ghost use Rattle.fx_steps.specs.Names.{NameAll};
ghost use Rattle.fx_steps.specs.Planning as planning;
ghost use Rattle.fx_steps.specs.UnderWay as under_way;
ghost use Rattle.fx_steps.specs.Waiting.{Wait, HasPlace};
ghost use Rattle.fx_steps.specs.declared.pending.Pending.TheVariants as pendings;

use crate::pending::{Pending, StepPlan};
use crate::sharing::shares;
use crate::table::PacketCosts;
use crate::waiting::Waiting;
use fx_leaf::Fate;
use fx_run_text::{Choices, Step};
use fx_tables::{Crossing, HolderName, Net, Occurrence};
use std::alloc::{AllocError, Global};

/// The steps so far, the pending records, of which the last leaves first, and the number of records waiting at each
/// place.
#[derive(Drop)]
pub(crate) struct Building {
    steps: Vec<Step>,
    plan: StepPlan,
    waiting: Waiting,
}

/// Returns the name of the holder at this place.
fn name_at(names: &[HolderName], holder: usize) -> HolderName
    requires { holder < length names.now }
    ensures { slice_get names.now holder ≡ Some result }
{
    names[holder]
}

impl Building {
    /// Returns a run without steps or pending records.
    pub(crate) fn new(alloc: Global, net: &Net) -> Result<Building, AllocError>
        ensures { IfOk result (λ new. (new.steps.items ≡ []) × (new.plan.pending.items ≡ [])
            × Wait net.now [] new.waiting) }
    {
        Ok(Building {
            steps: Vec::new(alloc),
            plan: StepPlan::new(alloc),
            waiting: Waiting::new(alloc, net)?,
        })
    }

    /// Returns the step of a record that waits at this holder, after all pending records. The records that result are
    /// appended to the pending ones.
    fn leave_holder(
        &mut self,
        alloc: Global,
        costs: &PacketCosts<'_, '_>,
        names: &[HolderName],
        holder: usize,
        fate: Fate,
    ) -> Result<Step, AllocError>
        requires names { let c = costs.now in NameAll c.tables.net names.now }
        requires there { let c = costs.now in IsHolder c.tables.net holder }
        requires waiting { let c = costs.now in
            Wait c.tables.net (self.old.plan.pending.items
            ++ pendings.AtHolder holder fate ∷ []) self.old.waiting }
        ensures leaves { IfOk result (under_way.TopLeaves costs.now self.old self.new
            (pendings.AtHolder holder fate)) }
        ensures steps { self.new.steps.items ≡ self.old.steps.items }
    {
        let position = self.waiting.leave_holder(holder);
        self.plan.leave(alloc, costs, holder, fate, name_at(names, holder), position)
    }

    /// Returns the step of a record that waits on this link, after all pending records. The records that result are
    /// appended to the pending ones.
    fn leave_link(
        &mut self,
        alloc: Global,
        costs: &PacketCosts<'_, '_>,
        link: usize,
        layout: usize,
        fate: Fate,
    ) -> Result<Step, AllocError>
        requires there { let c = costs.now in link < length c.tables.net.links }
        requires waiting { let c = costs.now in
            Wait c.tables.net (self.old.plan.pending.items
            ++ pendings.OnLink link layout fate ∷ []) self.old.waiting }
        ensures leaves { IfOk result (under_way.TopLeaves costs.now self.old self.new
            (pendings.OnLink link layout fate)) }
        ensures steps { self.new.steps.items ≡ self.old.steps.items }
    {
        let position = self.waiting.leave_link(link);
        self.plan.arrive(alloc, costs, link, layout, fate, position)
    }

    /// Counts the pending records from index `from` on as waiting too.
    fn count_behind(&mut self, net: &Net, from: usize)
        requires behind { from ≤ length self.old.plan.pending.items }
        requires waiting { Wait net.now (take from self.old.plan.pending.items) self.old.waiting }
        requires there { AllByRecursion (HasPlace (length net.now.holders) (length net.now.links))
            (drop from self.old.plan.pending.items) }
        requires few { length self.old.plan.pending.items ≤ step_limit }
        ensures waiting { Wait net.now self.new.plan.pending.items self.new.waiting }
        ensures pending { self.new.plan.pending.items ≡ self.old.plan.pending.items }
        ensures steps { self.new.steps.items ≡ self.old.steps.items }
    {
        self.waiting.add_all(&self.plan.pending.as_slice()[from..]);
    }

    /// Returns the step of a record that waits after all pending records. The records that result are appended to the
    /// pending ones.
    fn step_of(
        &mut self,
        alloc: Global,
        costs: &PacketCosts<'_, '_>,
        names: &[HolderName],
        top: Pending,
    ) -> Result<Step, AllocError>
        requires names { let c = costs.now in NameAll c.tables.net names.now }
        requires there { let c = costs.now in planning.IsThere c.tables.net c.tables.numbering top }
        requires waiting { let c = costs.now in
            Wait c.tables.net (self.old.plan.pending.items ++ top ∷ []) self.old.waiting }
        ensures leaves { IfOk result (under_way.TopLeaves costs.now self.old self.new top) }
        ensures steps { self.new.steps.items ≡ self.old.steps.items }
    {
        match top {
            Pending::AtHolder { holder, fate } => {
                self.leave_holder(alloc, costs, names, holder, fate)
            }
            Pending::OnLink { link, layout, fate } => {
                self.leave_link(alloc, costs, link, layout, fate)
            }
        }
    }

    /// Makes the step by which the record `top`, the last of the pending ones, leaves.
    fn advance(
        &mut self,
        alloc: Global,
        costs: &PacketCosts<'_, '_>,
        names: &[HolderName],
        top: Pending,
    ) -> Result<(), AllocError>
        requires prepared { under_way.IsPrepared costs.now names.now }
        requires leaves { let c = costs.now in
            under_way.CanLeave c.table c.tables.net c.tables.numbering (length self.old.steps.items)
            (self.old.plan.pending.items ++ top ∷ []) self.old.waiting }
        ensures left { let c = costs.now in
            OnOk result (under_way.Leaves c.table c.tables.net c.tables.numbering c.packet.fields
            self.old.plan.pending.items top self.old.steps.items self.new.steps.items) }
        ensures pending { let c = costs.now in
            OnOk result (self.new.plan.pending.items
            ≡ self.old.plan.pending.items ++ planning.step_pending c.table c.tables.net
            c.tables.numbering c.packet.fields top) }
        ensures leaves { let c = costs.now in
            OnOk result (under_way.CanLeave c.table c.tables.net c.tables.numbering
            (length self.new.steps.items) self.new.plan.pending.items self.new.waiting) }
    {
        let from = self.plan.pending.as_slice().len();
        let step = self.step_of(alloc, costs, names, top)?;
        self.count_behind(costs.net(), from);
        self.steps.push(step)?;
        Ok(())
    }

    /// Makes the steps by which all pending records leave, and all records that result from them.
    pub(crate) fn finish(
        &mut self,
        alloc: Global,
        costs: &PacketCosts<'_, '_>,
        names: &[HolderName],
    ) -> Result<(), AllocError>
        requires prepared { under_way.IsPrepared costs.now names.now }
        requires leaves { let c = costs.now in
            under_way.CanLeave c.table c.tables.net c.tables.numbering (length self.old.steps.items)
            self.old.plan.pending.items self.old.waiting }
        ensures nothing { OnOk result (self.new.plan.pending.items ≡ []) }
        ensures waiting { let c = costs.now in OnOk result (Wait c.tables.net [] self.new.waiting) }
        ensures number { let c = costs.now in
            OnOk result (length self.new.steps.items
            ≡ length self.old.steps.items + planning.total_cost c.table c.tables.net
            c.tables.numbering self.old.plan.pending.items) }
        ensures way { let c = costs.now in
            OnOk result ((classes : List traffic.Class) (coming : List states.Coming)
            (f : of_fate.Fate) → under_way.UnderWay c.tables.net c.tables.numbering classes c.packet
            coming f self.old.steps.items self.old.plan.pending.items
            → under_way.UnderWay c.tables.net c.tables.numbering classes c.packet coming f
            self.new.steps.items []) }
    {
        while let Some(top) = self.plan.pending.pop() {
            self.advance(alloc, costs, names, top)?;
        }
        Ok(())
    }

    /// Makes the step by which the packet crosses at the crossing of this number, where it meets the caches of these
    /// occurrences.
    pub(crate) fn cross(
        &mut self,
        alloc: Global,
        costs: &PacketCosts<'_, '_>,
        number: u64,
        occurrences: &[Occurrence],
        fate: Fate,
    ) -> Result<(), AllocError>
        requires nothing { self.old.plan.pending.items ≡ [] }
        requires waiting { let c = costs.now in Wait c.tables.net [] self.old.waiting }
        requires there { let c = costs.now in
            AllByRecursion (λ (o : of_occurrence.Occurrence). IsHolder c.tables.net o.holder)
            occurrences.now }
        requires cheap { let c = costs.now in
            by_fate.cost_of (tabled.occurrence_costs c.table c.tables.net c.tables.numbering
            occurrences.now) fate ≤ step_limit }
        ensures pending { let c = costs.now in
            OnOk result (self.new.plan.pending.items
            ≡ planning.occurrence_pending c.table c.tables.net c.tables.numbering occurrences.now
            fate) }
        ensures waiting { let c = costs.now in
            OnOk result (Wait c.tables.net self.new.plan.pending.items self.new.waiting) }
        ensures steps { OnOk result (self.new.steps.items ≡ self.old.steps.items
            ++ of_step.Cross 1 number (planning.occurrence_choices occurrences.now) ∷ []) }
    {
        self.plan.begin();
        self.plan.add_meetings(costs, occurrences, fate)?;
        let choices = Choices::new(self.plan.take_choices(alloc));
        self.count_behind(costs.net(), 0);
        self.steps.push(Step::Cross {
            packet: 1,
            crossing: number,
            choices,
        })?;
        Ok(())
    }

    /// Makes the packet's crossing of this number, and the steps by which all records that result leave, so that
    /// together with the rest of the path the packet comes to the fate `left`. Returns the fate that is left for the
    /// rest of the path.
    pub(crate) fn make_crossing(
        &mut self,
        alloc: Global,
        costs: &PacketCosts<'_, '_>,
        names: &[HolderName],
        number: u64,
        crossing: &Crossing,
        rest: &[Crossing],
        left: Fate,
    ) -> Result<Fate, AllocError>
        requires prepared { under_way.IsPrepared costs.now names.now }
        requires nothing { self.old.plan.pending.items ≡ [] }
        requires waiting { let c = costs.now in Wait c.tables.net [] self.old.waiting }
        requires cheap { let c = costs.now in
            length self.old.steps.items + by_fate.cost_of
            (tabled.path_costs c.table c.tables.net c.tables.numbering c.packet.fields (crossing.now
            ∷ rest.now)) left ≤ step_limit }
        ensures nothing { OnOk result (self.new.plan.pending.items ≡ []) }
        ensures waiting { let c = costs.now in OnOk result (Wait c.tables.net [] self.new.waiting) }
        ensures number { let c = costs.now in
            IfOk result (λ later. length self.new.steps.items
            + by_fate.cost_of (tabled.path_costs c.table c.tables.net c.tables.numbering
            c.packet.fields rest.now) later ≡ length self.old.steps.items
            + by_fate.cost_of (tabled.path_costs c.table c.tables.net c.tables.numbering
            c.packet.fields (crossing.now ∷ rest.now)) left) }
        ensures way { let c = costs.now in
            IfOk result (λ later. (classes : List traffic.Class) (coming : List states.Coming)
            (f : of_fate.Fate) → network.entry_numbered (traffic.path classes c.packet) number
            ≡ Some crossing.now → under_way.UnderWay c.tables.net c.tables.numbering classes
            c.packet (record { packet = 1; crossing = number } ∷ coming) f self.old.steps.items []
            → (g : of_fate.Fate) × (both g later ≡ both f left)
            × under_way.UnderWay c.tables.net c.tables.numbering classes c.packet coming g
            self.new.steps.items []) }
    {
        let occurrences = costs.net().occurrences(alloc, crossing, costs.fields())?;
        let occurrences = occurrences.as_slice();
        let here = costs.occurrence_costs(occurrences).one_step_more();
        let others = costs.path_costs(rest);
        let (now, later) = shares(here, others, left);
        self.cross(alloc, costs, number, occurrences, now)?;
        self.finish(alloc, costs, names)?;
        Ok(later)
    }

    /// Returns the steps of the run.
    pub(crate) fn into_steps(self) -> Vec<Step>
        ensures { result.items ≡ self.steps.items }
    {
        self.steps
    }
}
