//! The search, region by region, in the order of the certificate that it builds.
ghost use Rattle.std.specs.Prelude.{◌≡◌, ◌≢◌, ◌⊎◌, ◌≤◌, ◌<◌, ◌+◌, ◌++◌, ℕ, List, ◌∷◌, [], true, map, min, if◌then◌else◌, Some, None, IfOk, IfErr, IfSome, OnOk};
ghost use Rattle.fx_base.specs.Fault.{fault_at, IsMemory};
ghost use Rattle.fx_base.specs.declared.fault.Place.TheVariants as places;
ghost use Rattle.fx_leaf.specs.PathSelections.{IsNarrowed};
ghost use Rattle.fx_leaf.specs.PathTables.{HasProcessRoom, IsPathBegun};
ghost use Rattle.fx_leaf.specs.Tables.{AreTables};
ghost use Rattle.fx_tables.specs.Ranks.{IsNetwork};
ghost use Rattle.fx_tables.specs.Runnable.{IsRunnable};
ghost use Rattle.fx_plan.specs.Tables.{net_of};
ghost use Rattle.fx_check.specs.Certificates.{IsWritable};
ghost use Rattle.fx_check.specs.FirstRefusal.{line_limit};
ghost use Rattle.fx_cert.specs.declared.item.Version.{Version};
ghost use Rattle.fx_traffic.specs.Targets.{Target as OfTarget, targets_of};
ghost use Rattle.fx_search.specs.Found as found;
ghost use Rattle.fx_search.specs.Fronts as fronts;
ghost use Rattle.fx_search.specs.Growing.{leaf_item, front, AreAhead, IsGrowing, IsGrown, IsTaken, IsStoppedAt, IsGivenUp};
ghost use Rattle.fx_search.specs.Outcomes as outcomes;
ghost use Rattle.fx_search.specs.declared.stop.Why.TheVariants as why;
ghost use Rattle.fx_tables.specs.Classes.{Class as OfClass};
ghost use Rattle.fx_tables.specs.Network.{Net};

use crate::found::Found;
use crate::growing::{Ahead, Growth, leaf};
use crate::outcome::{Limit, Outcome};
use crate::stop::{Stop, Why};
use crate::watch::Watch;
use fx_base::{Fault, refusals};
use fx_cert::{Item, Version};
use fx_check::{certificates_count_once, tables_of};
use fx_leaf::{CutBounds, Judgement, PathScratch, Tables};
use fx_plan::Plan;
use fx_refute::{Refutation, refutations_refute};
use fx_steps::wrong_run;
use fx_tables::{Class, Classes};
use fx_traffic::{Target, Traffic};
use std::alloc::Global;

/// The maximum number of split and leaf lines in a certificate.
const LINES: u64 = 1_000_000;

/// The bound on the depth of a split, which must be less. The first split has depth 0.
const DEPTHS: u32 = 512;

/// Returns the sound leaf, if it is of the wanted kind.
fn leaf_for(judgement: Judgement, exempt: bool) -> Option<Item>
    ensures is { result ≡ leaf_item judgement exempt }
    ensures writable { IfSome result IsWritable }
{
    match judgement {
        Judgement::Once(counted) => {
            if exempt {
                None
            } else {
                Some(leaf(counted.crossing, counted.point, counted.process))
            }
        }
        Judgement::Never => { if exempt { Some(Item::Never) } else { None } }
        _ => None,
    }
}

/// Completes a region by one more line of the certificate, or returns why the search stops there.
fn take<'a, 't>(
    scratch: &mut PathScratch<'t>,
    bounds: &mut CutBounds,
    tables: &Tables<'t>,
    most: u64,
    growth: &mut Growth<'a>,
    here: &Ahead<'a>,
    active: usize,
) -> Result<Option<Why>, Fault>
    requires tables { AreTables tables.now }
    requires room { HasProcessRoom tables.now scratch.old }
    requires begun { IsPathBegun tables.now here.now.target.crossings scratch.old }
    requires narrowed { IsNarrowed scratch.old.selections here.now.region active }
    requires most { most ≤ line_limit }
    ensures on { (targets : List OfTarget) (version : Version) (later : List fronts.RegionAhead)
        → IsGrowing tables.now.net targets version most growth.old.items.items growth.old.lines
        (here.now ∷ (front growth.old.ahead.items ++ later))
        → IfOk result (IsTaken tables.now.net targets version most growth.new.items.items
        growth.new.lines (front growth.new.ahead.items ++ later) here.now) }
    ensures lines { IfOk result (λ o. o ≡ None → (growth.new.lines ≡ growth.old.lines + 1)
        × (growth.new.lines ≤ most)) }
    ensures err { IfErr result IsMemory }
    ensures begun { IsPathBegun tables.now here.now.target.crossings scratch.new }
    ensures room { HasProcessRoom tables.now scratch.new }
    ensures narrowed { IfOk result (λ o. o ≡ None → AreAhead scratch.old.selections here.now.target
        (growth.old.ahead.items ++ record { ahead = here.now; active = active } ∷ [])
        → AreAhead scratch.new.selections here.now.target growth.new.ahead.items) }
{
    let active = here.narrow(scratch, active);
    let judgement = here.judge(scratch, tables, active);
    if let Judgement::Cut { axis, at } = judgement {
        if growth.lines >= most {
            return Ok(Some(Why::TooLarge(Limit::Lines)));
        }
        if here.depth >= DEPTHS {
            return Ok(Some(Why::TooLarge(Limit::Depth)));
        }
        let bound = here.halving_bound(scratch, bounds, tables, active, (axis, at))?;
        growth.split(here, active, bound.0, bound.1)?;
        return Ok(None);
    }
    let Some(item) = leaf_for(judgement, here.exempt()) else {
        return Ok(Some(Why::Wrong(judgement)));
    };
    if most <= growth.lines {
        return Ok(Some(Why::TooLarge(Limit::Lines)));
    }
    growth.add(here, item)?;
    Ok(None)
}

/// Continues until no region of the current target is ahead, or until the first region at which the search stops.
fn grow<'a, 't, W: Watch>(
    scratch: &mut PathScratch<'t>,
    bounds: &mut CutBounds,
    tables: &Tables<'t>,
    most: u64,
    growth: &mut Growth<'a>,
    target: &'a Target<'a>,
    watch: &mut W,
) -> Result<Option<Stop<'a>>, Fault>
    requires tables { AreTables tables.now }
    requires room { HasProcessRoom tables.now scratch.old }
    requires begun { IsPathBegun tables.now target.now.crossings scratch.old }
    requires ahead { AreAhead scratch.old.selections target.now growth.old.ahead.items }
    requires most { most ≤ line_limit }
    requires few { growth.old.lines ≤ most }
    ensures grown { (targets : List OfTarget) (version : Version) (later : List fronts.RegionAhead)
        → IsGrowing tables.now.net targets version most growth.old.items.items growth.old.lines
        (front growth.old.ahead.items ++ later)
        → IfOk result (IsGrown tables.now.net targets version most growth.new.items.items
        growth.new.lines later) }
    ensures err { IfErr result IsMemory }
    ensures room { HasProcessRoom tables.now scratch.new }
    ensures none { IfOk result (λ o. o ≡ None
        → (growth.new.ahead.items ≡ []) × (growth.new.lines ≤ most)) }
{
    'regions: loop {
        let Some(next) = growth.ahead.pop() else {
            return Ok(None);
        };
        let here = next.ahead;
        if let Some(why) = take(scratch, bounds, tables, most, growth, &here, next.active)? {
            return Ok(Some(Stop { ahead: here, why }));
        }
        watch.on_lines(growth.lines);
    }
}

/// Continues with one target after another until none is ahead, or until the first region at which the search stops.
fn grow_all<'a, 't, W: Watch>(
    scratch: &mut PathScratch<'t>,
    bounds: &mut CutBounds,
    tables: &Tables<'t>,
    most: u64,
    growth: &mut Growth<'a>,
    targets: &'a [Target<'a>],
    watch: &mut W,
) -> Result<Option<Stop<'a>>, Fault>
    requires tables { AreTables tables.now }
    requires room { HasProcessRoom tables.now scratch.old }
    requires empty { growth.old.ahead.items ≡ [] }
    requires most { most ≤ line_limit }
    requires few { growth.old.lines ≤ most }
    ensures grown { (all : List OfTarget) (version : Version)
        → IsGrowing tables.now.net all version most growth.old.items.items growth.old.lines
        (map fronts.root targets.now)
        → IfOk result (IsGrown tables.now.net all version most growth.new.items.items
        growth.new.lines []) }
    ensures err { IfErr result IsMemory }
{
    'targets: for index in 0..targets.len() {
        let target = &targets[index];
        scratch.reserve(tables, target.crossings)?;
        let active = scratch.begin(tables, target.crossings);
        growth.open(target, active)?;
        let stop = grow(scratch, bounds, tables, most, growth, target, watch)?;
        if stop.is_some() {
            return Ok(stop);
        }
    }
    Ok(None)
}

/// Returns the run of the least packet of a region whose packets do not have the wanted fate.
fn refute(
    alloc: Global,
    tables: &Tables<'_>,
    classes: &Classes,
    here: &Ahead<'_>,
    judgement: Judgement,
) -> Result<Outcome, Fault>
    requires tables { AreTables tables.now }
    requires runnable { IsRunnable tables.now.net }
    ensures right { (limit : ℕ) → IsStoppedAt tables.now.net (targets_of classes.now)
        (fronts.most_lines limit) here.now (why.Wrong judgement)
        → IfOk result (outcomes.IsOutcome tables.now.net classes.now limit) }
    ensures settles { (limit : ℕ) → IsStoppedAt tables.now.net (targets_of classes.now)
        (fronts.most_lines limit) here.now (why.Wrong judgement)
        → IfOk result (outcomes.Settles tables.now.net classes.now) }
    ensures err { IfErr result IsMemory }
{
    refutations_refute();
    let packet = here.least_packet();
    match wrong_run(alloc, tables, classes, &packet)? {
        Some(steps) => Ok(Outcome::Refuted(here.refuted(
            Refutation::new(packet, steps),
            judgement,
        ))),
        None => Ok(Outcome::TooLarge(here.reached(Limit::Steps))),
    }
}

/// Returns the outcome of a search that stops at a region.
fn stopped(
    alloc: Global,
    tables: &Tables<'_>,
    classes: &Classes,
    stop: &Stop<'_>,
) -> Result<Outcome, Fault>
    requires tables { AreTables tables.now }
    requires runnable { IsRunnable tables.now.net }
    ensures right { (limit : ℕ) → IsStoppedAt tables.now.net (targets_of classes.now)
        (fronts.most_lines limit) stop.now.ahead stop.now.why
        → IfOk result (outcomes.IsOutcome tables.now.net classes.now limit) }
    ensures settles { (limit : ℕ) → IsStoppedAt tables.now.net (targets_of classes.now)
        (fronts.most_lines limit) stop.now.ahead stop.now.why
        → IfOk result (outcomes.Settles tables.now.net classes.now) }
    ensures err { IfErr result IsMemory }
{
    match stop.why {
        Why::Wrong(judgement) => refute(alloc, tables, classes, &stop.ahead, judgement),
        Why::TooLarge(limit) => Ok(Outcome::TooLarge(stop.ahead.reached(limit))),
    }
}

/// Returns the version in which these classes have certificates.
fn version_for(classes: &[Class]) -> Version
    ensures { result ≡ found.version_for classes.now }
{
    'classes: for index in 0..classes.len() {
        if classes[index].exempt() {
            return Version::Two;
        }
    }
    Version::One
}

/// Returns the certificate, with its last line appended after the trees.
fn certificate(growth: Growth<'_>) -> Result<Outcome, Fault>
    ensures right { (net : Net) (classes : List OfClass) (limit : ℕ)
        → IsGrowing net (targets_of classes) (found.version_for classes)
        (fronts.most_lines limit) growth.entry.items.items growth.entry.lines []
        → IfOk result (outcomes.IsOutcome net classes limit) }
    ensures settles { (net : Net) (classes : List OfClass) (limit : ℕ) → IsNetwork net
        → IsGrowing net (targets_of classes) (found.version_for classes)
        (fronts.most_lines limit) growth.entry.items.items growth.entry.lines []
        → IfOk result (outcomes.Settles net classes) }
    ensures err { IfErr result IsMemory }
{
    certificates_count_once();
    let mut items = growth.items;
    items.push(Item::End)?;
    Ok(Outcome::Certificate(items))
}

/// Searches as [`search`] does, and also returns the reasons for the result: for a refutation, the region of its packet
/// and the verdict on all packets of that region; for a search that becomes too large, the limit that it reaches and
/// the region where.
///
/// Fails with 900, at no place, if out of memory.
pub fn search_outcome<W: Watch>(
    alloc: Global,
    plan: &Plan,
    traffic: &Traffic,
    limit: u64,
    watch: &mut W,
) -> Result<Outcome, Fault>
    ensures right { IfOk result (outcomes.IsOutcome (net_of plan.now) traffic.now limit) }
    // A certificate means that each packet is counted exactly once, and a run means that not every one is.
    ensures settles { IfOk result (outcomes.Settles (net_of plan.now) traffic.now) }
    ensures err { IfErr result IsMemory }
{
    // The prover needs this call: it shows that no record is stuck in a plan's network.
    let _runnable = plan.net();
    let tables = tables_of(plan);
    let most = limit.min(LINES);
    let classes = traffic.classes();
    let targets = traffic.targets(alloc)?;
    let mut scratch = PathScratch::new(alloc, &tables)?;
    let mut bounds = CutBounds::new(alloc);
    let version = version_for(classes.as_slice());
    let mut growth = Growth::new(alloc, version)?;
    let lent = targets.as_slice();
    match grow_all(
        &mut scratch,
        &mut bounds,
        &tables,
        most,
        &mut growth,
        lent,
        watch,
    )? {
        Some(stop) => stopped(alloc, &tables, classes, &stop),
        None => certificate(growth),
    }
}

/// Searches for a certificate of at most `limit` split and leaf lines (a limit above 1,000,000 counts as 1,000,000), or
/// for a run of one packet that refutes. Each split of the certificate is at a bound of a selection process's region,
/// or of a match, that cuts what is split.
///
/// If it finds a certificate, [`check`](fx_check::check) accepts it: each packet of the traffic is counted exactly
/// once, or never if its class is exempt. If it finds a run, [`confirm`](fx_refute::confirm) confirms it: this is not
/// so. `watch` is called for each line that is found.
///
/// Fails with 601, at no place, if a certificate built this way needs more lines or a split at depth 512 (the first has
/// depth 0), or if a region that nothing cuts has neither a sound leaf of the kind that its class wants nor a run of at
/// most 1,000,000 steps that brings its least packet to a fate other than the wanted one. Fails with 900, at no place,
/// if out of memory.
pub fn search<W: Watch>(
    alloc: Global,
    plan: &Plan,
    traffic: &Traffic,
    limit: u64,
    watch: &mut W,
) -> Result<Found, Fault>
    ensures right { IfOk result (found.IsRight (net_of plan.now) traffic.now limit) }
    // A certificate means that each packet is counted exactly once, and a run means that not every one is.
    ensures settles { IfOk result (found.Settles (net_of plan.now) traffic.now) }
    ensures err { IfErr result (IsGivenUp (net_of plan.now) (targets_of traffic.now)
        (fronts.most_lines limit)) }
{
    match search_outcome(alloc, plan, traffic, limit, watch)? {
        Outcome::Certificate(items) => Ok(Found::Certificate(items)),
        Outcome::Refuted(refuted) => Ok(Found::Refutation(refuted.refutation)),
        Outcome::TooLarge(_) => Err(Fault::bare(refusals::SEARCH_TOO_LARGE)),
    }
}
