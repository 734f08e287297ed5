//! Checking that a run refutes.
ghost use Rattle.std.specs.Prelude.{◌≡◌, ◌⊎◌, ◌≤◌, ◌↔◌, [], ◌∷◌, length, Ok, IfErr, IfOk, IsTrue, OnOk};
ghost use Rattle.fx_base.specs.Fault.{fault_at, IsMemory};
ghost use Rattle.fx_base.specs.declared.fault.Place.TheVariants as places;
ghost use Rattle.fx_base.specs.Refusals.{refutation_packet};
ghost use Rattle.fx_tables.specs.Classes as traffic;
ghost use Rattle.fx_machine.specs.Limits.{step_limit};
ghost use Rattle.fx_tables.specs.Network as network;
ghost use Rattle.fx_machine.specs.States as states;
ghost use Rattle.fx_machine.specs.Steps as stepping;
ghost use Rattle.fx_plan.specs.Tables.{net_of};
ghost use Rattle.fx_refute.specs.Confirming as confirming;
ghost use Rattle.fx_refute.specs.Refutations as refutations;

use crate::refutation::Refutation;
use fx_base::{Counts, Fault, Place, entry_at, refusals};
use fx_collect::Totals;
use fx_layout::{Key, Layout, Seed};
use fx_machine::{State, StepWatch, Unwatched};
use fx_plan::Plan;
use fx_run_text::Step;
use fx_tables::{Classes, Net, Packet, Record};
use fx_traffic::Traffic;
use std::alloc::Global;

/// Opens a run of this packet alone. Fails with 502, at line 2, if the packet is not of its class.
fn open<'a>(
    alloc: Global,
    net: &'a Net,
    classes: &'a Classes,
    packet: &Packet,
) -> Result<State<'a>, Fault>
    ensures ok { IfOk result (λ run. (run ≡ record {
      net = net.now;
      classes = classes.now;
      packets = packet.now ∷ [];
      state = states.opening net.now classes.now (packet.now ∷ []);
    })
        × traffic.IsOf packet.now (network.entry_numbered classes.now packet.now.class)) }
    ensures err { IfErr result (λ e. ((e ≡ fault_at refutation_packet (places.Line 2))
        × (traffic.IsOf packet.now (network.entry_numbered classes.now packet.now.class) → ⊥))
        ⊎ IsMemory e) }
{
    let packets = vec![in alloc; *packet]?;
    match State::open(alloc, net, classes, packets) {
        Ok(state) => Ok(state),
        Err(e) => {
            if e.number == refusals::RUN_PACKET {
                Err(Fault::at_line(refusals::REFUTATION_PACKET, 2))
            } else {
                Err(e)
            }
        }
    }
}

/// Makes the steps one after another. The first is at line 3 of a refutation's text.
fn make_steps(state: &mut State<'_>, steps: &[Step]) -> Result<(), Fault>
    requires few { length steps.now ≤ step_limit }
    ensures ok { OnOk result ((s : states.State) → state.old.state ≡ states.wrapped_state s
        → (last : states.State)
        × (stepping.run state.old.net state.old.classes state.old.packets steps.now s ≡ Ok last)
        × (state.new.state ≡ states.wrapped_state last)) }
    ensures net { OnOk result (state.new.net ≡ state.old.net) }
    ensures err { IfErr result (λ e. IsMemory e
        ⊎ ((s : states.State) → state.old.state ≡ states.wrapped_state s
        → confirming.IsStopped state.old.net state.old.classes state.old.packets steps.now s e)) }
{
    for index in 0..steps.len() {
        if let Err(e) = state.step(&steps[index]) {
            if e.number == refusals::WANT_OF_MEMORY {
                return Err(e);
            }
            return Err(Fault::at_line(refusals::REFUTATION_STEP, index as u64 + 3));
        }
    }
    Ok(())
}

/// Returns the record of one packet under a layout.
fn own_record(layout: &Layout, packet: &Packet) -> Record
    ensures { result ≡ confirming.own_record layout.now packet.now }
{
    Record {
        key: layout.key_of(&packet.fields),
        counts: Counts {
            packets: 1,
            octets: packet.octets,
        },
    }
}

/// Returns the seed for totals that have at most one key, like those over one packet. Any seed finds it at once.
fn of_one_key() -> Seed
    ensures { result ≡ record { first = 0; second = 0 } }
{
    Seed::new(0, 0)
}

/// Returns the plain sums over one packet, which are empty if its class is exempt.
fn plain_sums(alloc: Global, net: &Net, classes: &Classes, packet: &Packet) -> Result<Totals, Fault>
    ensures ok { IfOk result (λ t. t ≡ confirming.plain_totals net.now.report_layout
        (traffic.to_count classes.now (packet.now ∷ []))) }
    ensures err { IfErr result IsMemory }
{
    let layout = net.report_layout();
    let mut totals = Totals::new(alloc, of_one_key(), layout.copy())?;
    if !classes.exempts(packet) {
        totals.tally(&own_record(layout, packet))?;
    }
    Ok(totals)
}

/// Returns whether the totals are those of one packet with this key, with nothing unassigned.
fn agree(ran: &Totals, plain: &Totals, key: &Key) -> bool
    ensures { IsTrue result ↔ confirming.TotalsAgreeAt ran.now plain.now key.now }
{
    ran.unassigned() == 0 && ran.len() == plain.len() && ran.get(key) == plain.get(key)
}

/// Checks whether the run of a refutation's packet alone refutes, starting from the state that opens it. The state
/// belongs to the caller, so that no error path drops it.
fn confirm_run(
    alloc: Global,
    state: &mut State<'_>,
    net: &Net,
    classes: &Classes,
    refutation: &Refutation,
) -> Result<(Totals, Totals), Fault>
    requires opening { state.old ≡ record {
      net = net.now;
      classes = classes.now;
      packets = refutation.now.packet ∷ [];
      state = states.opening net.now classes.now (refutation.now.packet ∷ []);
    } }
    requires of_class { traffic.IsOf refutation.now.packet
        (network.entry_numbered classes.now refutation.now.packet.class) }
    ensures refutes { OnOk result (refutations.Refutes net.now classes.now refutation.now) }
    ensures totals { IfOk result (λ t.
        refutations.AreTotals net.now classes.now refutation.now t.0 t.1) }
    ensures err { IfErr result (λ e. IsMemory e
        ⊎ refutations.IsNoRefutation net.now classes.now refutation.now e) }
{
    make_steps(state, refutation.steps())?;
    if !state.complete() {
        return Err(Fault::bare(refusals::RUN_NOT_COMPLETE));
    }
    let layout = net.report_layout();
    let packet = refutation.packet();
    let ran = Totals::of(alloc, of_one_key(), state)?;
    let plain = plain_sums(alloc, net, classes, packet)?;
    if agree(&ran, &plain, &layout.key_of(&packet.fields)) {
        return Err(Fault::bare(refusals::TOTALS_AGREE));
    }
    Ok((ran, plain))
}

/// Shows an observer the state in which a refutation's run stops with this fault, if it stops at a refused step or
/// after the last step.
fn show_stop<W: StepWatch>(
    state: &State<'_>,
    refutation: &Refutation,
    fault: &Fault,
    watch: &mut W,
) {
    match (fault.number, &fault.place) {
        (refusals::REFUTATION_STEP, Place::Line(line)) => {
            let place = line.saturating_sub(3);
            if let Some(step) = entry_at(refutation.steps(), place as usize) {
                // This is the refusal of the step itself, because `step` left the state as it was.
                if let Err(why) = state.effects(step) {
                    watch.on_refused_step(state, step, place.saturating_add(1), &why);
                }
            }
        }
        (refusals::RUN_NOT_COMPLETE | refusals::TOTALS_AGREE, _) => watch.on_last_state(state),
        _ => {}
    }
}

/// Checks whether a run of one packet refutes, over the tables of a network.
fn confirm_over<W: StepWatch>(
    alloc: Global,
    net: &Net,
    classes: &Classes,
    refutation: &Refutation,
    watch: &mut W,
) -> Result<(Totals, Totals), Fault>
    ensures refutes { OnOk result (refutations.Refutes net.now classes.now refutation.now) }
    ensures totals { IfOk result (λ t.
        refutations.AreTotals net.now classes.now refutation.now t.0 t.1) }
    ensures err { IfErr result (λ e. IsMemory e
        ⊎ refutations.IsNoRefutation net.now classes.now refutation.now e) }
{
    let mut state = open(alloc, net, classes, refutation.packet())?;
    match confirm_run(alloc, &mut state, net, classes, refutation) {
        Ok(totals) => Ok(totals),
        Err(fault) => {
            show_stop(&state, refutation, &fault, watch);
            Err(fault)
        }
    }
}

/// Checks whether a run of one packet refutes that each packet is counted exactly once. Returns its totals and the
/// plain sums over the packet. They differ, or something is unassigned.
///
/// Fails with the first of: 502, at line 2, if the packet is not of its class; 503, at the step's number plus 2, if a
/// step is not enabled; 504, at no place, if the run is not complete; 505, at no place, if its totals are the plain
/// sums and nothing is unassigned. Fails with 900, at no place, if out of memory.
pub fn confirm(
    alloc: Global,
    plan: &Plan,
    traffic: &Traffic,
    refutation: &Refutation,
) -> Result<(Totals, Totals), Fault>
    ensures refutes { OnOk result (refutations.Refutes
        (net_of plan.now) traffic.now refutation.now) }
    ensures totals { IfOk result (λ t.
        refutations.AreTotals (net_of plan.now) traffic.now refutation.now t.0 t.1) }
    ensures err { IfErr result (λ e. IsMemory e
        ⊎ refutations.IsNoRefutation (net_of plan.now) traffic.now refutation.now e) }
{
    confirm_watched(alloc, plan, traffic, refutation, &mut Unwatched)
}

/// Returns what [`confirm`] does, and shows an observer the state before a step that is refused (503), or the one after
/// the last step (504, 505).
pub fn confirm_watched<W: StepWatch>(
    alloc: Global,
    plan: &Plan,
    traffic: &Traffic,
    refutation: &Refutation,
    watch: &mut W,
) -> Result<(Totals, Totals), Fault>
    ensures refutes { OnOk result (refutations.Refutes
        (net_of plan.now) traffic.now refutation.now) }
    ensures totals { IfOk result (λ t.
        refutations.AreTotals (net_of plan.now) traffic.now refutation.now t.0 t.1) }
    ensures err { IfErr result (λ e. IsMemory e
        ⊎ refutations.IsNoRefutation (net_of plan.now) traffic.now refutation.now e) }
{
    confirm_over(alloc, plan.net(), traffic.classes(), refutation, watch)
}
