//! The run of one packet that shows a wrong total.
ghost use Rattle.std.specs.Prelude.{◌≡◌, ◌≢◌, ◌≤◌, ◌⊎◌, [], List, length, Ok, IfOk, IfErr, IfSome, IfNone};
ghost use Rattle.fx_base.specs.Fault.{IsMemory};
ghost use Rattle.fx_leaf.specs.Fates.{wanted_fate};
ghost use Rattle.fx_leaf.specs.Tables as by_table;
ghost use Rattle.fx_leaf.specs.declared.verdict.Fate as of_fate;
ghost use Rattle.fx_leaf.specs.declared.verdict.Fate.TheVariants as fates;
ghost use Rattle.fx_machine.specs.Limits.{step_limit};
ghost use Rattle.fx_tables.specs.Classes as traffic;
ghost use Rattle.fx_tables.specs.Network as network;
ghost use Rattle.fx_tables.specs.Runnable.{IsRunnable};
ghost use Rattle.fx_steps.specs.Costs as by_fate;
ghost use Rattle.fx_steps.specs.CostTables as tabled;
ghost use Rattle.fx_steps.specs.UnderWay as under_way;
ghost use Rattle.fx_steps.specs.WrongRun.{IsWrongRun, IsLeast, HasNoRun};

use crate::building::Building;
use crate::costs::{Costs, OVER_LIMIT};
use crate::names::names_of;
use crate::path::least_steps;
use crate::sharing::cost_of;
use crate::table::{PacketCosts, empty_rows};
use fx_base::Fault;
use fx_leaf::{Fate, Tables};
use fx_run_text::Step;
use fx_tables::{Classes, Crossing, HolderName, Packet};
use std::alloc::{AllocError, Global};

/// Returns the cheaper of two fates, or the first if they cost the same.
fn cheaper_fate(fate_costs: Costs, one: Fate, other: Fate) -> Fate
    ensures either { (result ≡ one) ⊎ (result ≡ other) }
    ensures one { by_fate.cost_of fate_costs result ≤ by_fate.cost_of fate_costs one }
    ensures other { by_fate.cost_of fate_costs result ≤ by_fate.cost_of fate_costs other }
{
    if cost_of(fate_costs, other) < cost_of(fate_costs, one) {
        other
    } else {
        one
    }
}

/// Returns a fate of least cost among all except the wanted one.
fn least_unwanted_fate(fate_costs: Costs, exempt: bool) -> Fate
    ensures unwanted { result ≢ wanted_fate exempt }
    ensures least { (f : of_fate.Fate) → f ≢ wanted_fate exempt → f ≢ fates.Differing
        → by_fate.cost_of fate_costs result ≤ by_fate.cost_of fate_costs f }
{
    let uncounted = if exempt { Fate::Once } else { Fate::Never };
    cheaper_fate(
        fate_costs,
        cheaper_fate(fate_costs, uncounted, Fate::Many),
        Fate::Unassigned,
    )
}

/// Returns the steps of a shortest run of this packet alone, on this path, that comes to the fate.
fn build(
    alloc: Global,
    costs: &PacketCosts<'_, '_>,
    names: &[HolderName],
    path: &[Crossing],
    fate: Fate,
) -> Result<Vec<Step>, AllocError>
    requires prepared { under_way.IsPrepared costs.now names.now }
    requires cheap { let c = costs.now in
        by_fate.cost_of (tabled.path_costs c.table c.tables.net c.tables.numbering c.packet.fields
        path.now) fate ≤ step_limit }
    ensures number { let c = costs.now in
        IfOk result (λ steps. length steps.items
        ≡ by_fate.cost_of (tabled.path_costs c.table c.tables.net c.tables.numbering c.packet.fields
        path.now) fate) }
    ensures few { IfOk result (λ steps. length steps.items ≤ step_limit) }
    ensures way { let c = costs.now in
        IfOk result (λ steps. (classes : List traffic.Class)
        → traffic.path classes c.packet ≡ path.now
        → under_way.UnderWay c.tables.net c.tables.numbering classes c.packet [] fate steps.items
        []) }
{
    let mut building = Building::new(alloc, costs.net())?;
    let mut left = fate;
    for number in 0..path.len() {
        left = building.make_crossing(
            alloc,
            costs,
            names,
            number as u64 + 1,
            &path[number],
            &path[number + 1..],
            left,
        )?;
    }
    Ok(building.into_steps())
}

/// Makes the names of the network's holders, and returns the steps of a shortest run of this packet alone, on this
/// path, that comes to the fate.
fn build_by_names(
    alloc: Global,
    costs: &PacketCosts<'_, '_>,
    path: &[Crossing],
    fate: Fate,
) -> Result<Vec<Step>, AllocError>
    requires tables { let c = costs.now in by_table.AreTables c.tables }
    requires runnable { let c = costs.now in IsRunnable c.tables.net }
    requires filled { let c = costs.now in under_way.HasCosts c.tables c.packet.fields c.table }
    requires cheap { let c = costs.now in
        by_fate.cost_of (tabled.path_costs c.table c.tables.net c.tables.numbering c.packet.fields
        path.now) fate ≤ step_limit }
    ensures number { let c = costs.now in
        IfOk result (λ steps. length steps.items
        ≡ by_fate.cost_of (tabled.path_costs c.table c.tables.net c.tables.numbering c.packet.fields
        path.now) fate) }
    ensures few { IfOk result (λ steps. length steps.items ≤ step_limit) }
    ensures way { let c = costs.now in
        IfOk result (λ steps. (classes : List traffic.Class)
        → traffic.path classes c.packet ≡ path.now
        → under_way.UnderWay c.tables.net c.tables.numbering classes c.packet [] fate steps.items
        []) }
{
    let names = names_of(alloc, costs.net())?;
    build(alloc, costs, names.as_slice(), path, fate)
}

/// Returns the steps of a run of this packet alone that shows a wrong total. It is shortest over all outcomes except
/// the wanted one. Returns `None` if each such run would take more than 1,000,000 steps. The wanted outcome is that the
/// packet is counted once, or never if its class is exempt. The packet need not be in its class: its path is the one
/// given by its numbers.
///
/// Fails with 900, at no place, if out of memory.
pub fn wrong_run(
    alloc: Global,
    tables: &Tables<'_>,
    classes: &Classes,
    packet: &Packet,
) -> Result<Option<Vec<Step>>, Fault>
    requires tables { by_table.AreTables tables.now }
    requires runnable { IsRunnable tables.now.net }
    ensures found { IfOk result (λ found. IfSome found (λ steps.
        IsWrongRun tables.now.net classes.now packet.now steps.items)) }
    ensures least { IfOk result (λ found. IfSome found (λ steps.
        IsLeast tables.now.net packet.now.fields (traffic.path classes.now packet.now)
        (traffic.exempts (network.entry_numbered classes.now packet.now.class))
        (length steps.items))) }
    ensures none { IfOk result (λ found. IfNone found
        (HasNoRun tables.now.net packet.now.fields (traffic.path classes.now packet.now)
        (traffic.exempts (network.entry_numbered classes.now packet.now.class)))) }
    ensures err { IfErr result IsMemory }
{
    let path = classes.path_of(packet);
    let mut rows = empty_rows(alloc, tables.net().processes().len())?;
    let fate_costs = least_steps(rows.as_mut_slice(), tables, packet, path);
    let fate = least_unwanted_fate(fate_costs, classes.exempts(packet));
    if cost_of(fate_costs, fate) >= OVER_LIMIT {
        return Ok(None);
    }
    let costs = PacketCosts {
        tables: &*tables,
        packet: &*packet,
        rows: rows.as_slice(),
    };
    let steps = build_by_names(alloc, &costs, path, fate)?;
    Ok(Some(steps))
}
