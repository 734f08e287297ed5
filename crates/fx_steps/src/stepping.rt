//! The step of a pending record.
ghost use Rattle.std.specs.Prelude.{◌≡◌, ◌<◌, ◌++◌, suc, length, IfOk, OnOk, slice_get};
ghost use Rattle.fx_run_text.specs.declared.step.Step.TheVariants as of_step;
ghost use Rattle.fx_steps.specs.Planning as planning;
ghost use Rattle.fx_steps.specs.declared.pending.Pending.TheVariants as of_pending;

use crate::pending::StepPlan;
use crate::table::PacketCosts;
use fx_layout::Layout;
use fx_leaf::Fate;
use fx_run_text::{Choices, Step};
use fx_tables::{HolderName, Net};
use std::alloc::{AllocError, Global};

/// Returns the layout of this number.
fn layout_in(layouts: &[Layout], number: usize) -> Layout
    ensures { result ≡ planning.layout_in (slice_get layouts.now number) }
{
    match layouts.get(number) {
        None => Layout::new(),
        Some(layout) => layout.copy(),
    }
}

/// Returns the place of the collecting process that a link leads to.
fn end_of(net: &Net, link: usize) -> Option<usize>
    ensures { result ≡ slice_get net.now.links link }
{
    net.links().get(link).copied()
}

impl StepPlan {
    /// Appends what results from a record at the end of a link, if it leads to a collecting process.
    fn add_end(
        &mut self,
        costs: &PacketCosts<'_, '_>,
        number: usize,
        layout: &Layout,
        process: Option<usize>,
        fate: Fate,
    ) -> Result<(), AllocError>
        ensures { let c = costs.now in
            OnOk result (planning.AddsPlan self.old self.new
            (planning.arrival_pending c.table c.tables.net c.tables.numbering c.packet.fields number
            layout.now process fate) (planning.arrival_choices c.table c.tables.net
            c.tables.numbering c.packet.fields number layout.now process fate)) }
    {
        match process {
            None => Ok(()),
            Some(process) => self.add_arrival(costs, number, layout, process, fate),
        }
    }

    /// Returns the step by which the record at this position leaves the holder of this name, and appends what results
    /// from it.
    pub(crate) fn leave(
        &mut self,
        alloc: Global,
        costs: &PacketCosts<'_, '_>,
        holder: usize,
        fate: Fate,
        name: HolderName,
        position: u64,
    ) -> Result<Step, AllocError>
        ensures pending { let c = costs.now in
            OnOk result (self.new.pending.items
            ≡ self.old.pending.items ++ planning.step_pending c.table c.tables.net
            c.tables.numbering c.packet.fields (of_pending.AtHolder holder fate)) }
        ensures step { let c = costs.now in
            IfOk result (λ step. step ≡ of_step.Expire name position
            (planning.step_choices c.table c.tables.net c.tables.numbering c.packet.fields
            (of_pending.AtHolder holder fate))) }
    {
        self.begin();
        self.add_leaving(costs, holder, fate)?;
        Ok(Step::Expire {
            holder: name,
            position,
            choices: Choices::new(self.take_choices(alloc)),
        })
    }

    /// Returns the step by which the record at this position leaves the link, and appends what results from it.
    pub(crate) fn arrive(
        &mut self,
        alloc: Global,
        costs: &PacketCosts<'_, '_>,
        link: usize,
        number: usize,
        fate: Fate,
        position: u64,
    ) -> Result<Step, AllocError>
        requires { link < length costs.now.tables.net.links }
        ensures pending { let c = costs.now in
            OnOk result (self.new.pending.items
            ≡ self.old.pending.items ++ planning.step_pending c.table c.tables.net
            c.tables.numbering c.packet.fields (of_pending.OnLink link number fate)) }
        ensures step { let c = costs.now in
            IfOk result (λ step. step ≡ of_step.Arrive (suc link) position
            (planning.step_choices c.table c.tables.net c.tables.numbering c.packet.fields
            (of_pending.OnLink link number fate))) }
    {
        let layout = layout_in(costs.layouts(), number);
        let process = end_of(costs.net(), link);
        let links = costs.net().links().len();
        prove!(link < links);
        self.begin();
        self.add_end(costs, number, &layout, process, fate)?;
        Ok(Step::Arrive {
            link: link as u64 + 1,
            position,
            choices: Choices::new(self.take_choices(alloc)),
        })
    }
}
