//! Replaying a run over the tables of a network.
ghost use Rattle.std.specs.Prelude.{◌≡◌, ◌⊎◌, ◌++◌, None, Some, Ok, Err, OnOk, IfOk, IfErr, IfSome};
ghost use Rattle.fx_base.specs.Device.{IsWriteFault, PutsText};
ghost use Rattle.fx_base.specs.Fault.{IsMemory};
ghost use Rattle.fx_base.specs.Lines.{Fails};
ghost use Rattle.fx_base.specs.declared.fault.Place.TheVariants as places;
ghost use Rattle.fx_machine.specs.States as states;
ghost use Rattle.fx_machine.specs.Steps as stepping;
ghost use Rattle.fx_collect.specs.Totals.{Totals, totals_of, totals_in};
ghost use Rattle.fx_collect.specs.Report.{totals_text};
ghost use Rattle.fx_audit.specs.Confirms.{IsInOrder};
ghost use Rattle.fx_checker.specs.Outputs.{FailsQuietly, Prints};
ghost use Rattle.fx_audit.specs.Replay.{complete_line, CannotReplay, ComesTo, IsTextOf};
ghost use Rattle.fx_checker.specs.declared.answer.Answer.TheVariants.{Yes};

use crate::explainer::Explainer;
use fx_base::{Fault, LineReader, Sink, Source, put_text, refusals};
use fx_checker::{AcceptedDocuments, Answer};
use fx_collect::Totals;
use fx_layout::Seed;
use fx_machine::State;
use fx_run_text::{RunBeginning, Step, read_next_step, read_packets};
use fx_tables::{Classes, Net};
use std::alloc::Global;

/// Makes a step unless one before it was refused, and returns the first refusal, if any.
///
/// Fails with 900, at no place, if out of memory.
#[inline(always)]
fn make_step<E: Explainer>(
    documents: &AcceptedDocuments,
    state: &mut State<'_>,
    step: &Step,
    line: u64,
    refused: Option<Fault>,
    explainer: &mut E,
) -> Result<Option<Fault>, Fault>
    ensures tables { (state.new.net ≡ state.old.net) × (state.new.classes ≡ state.old.classes)
        × (state.new.packets ≡ state.old.packets) }
    ensures before { IfOk result (λ r. IfSome refused (λ e. r ≡ Some e)) }
    ensures made { IfOk result (λ r. refused ≡ None → r ≡ None → (s : states.State)
        → state.old.state ≡ states.wrapped_state s
        → (next : states.State)
        × (stepping.after state.old.net state.old.classes state.old.packets step.now s ≡ Ok next)
        × (state.new.state ≡ states.wrapped_state next)) }
    ensures refused { IfOk result (λ r. refused ≡ None → IfSome r (λ e. (e.place ≡ places.None)
        × ((s : states.State) → state.old.state ≡ states.wrapped_state s
        → stepping.after state.old.net state.old.classes state.old.packets step.now s
        ≡ Err e.number))) }
    ensures err { IfErr result IsMemory }
{
    if refused.is_some() {
        return Ok(refused);
    }
    explainer.on_step(step);
    match state.step(step) {
        Ok(()) => Ok(None),
        Err(fault) => {
            if fault.number == refusals::WANT_OF_MEMORY {
                Err(fault)
            } else {
                explainer.on_refused_step(documents, state, step, line, &fault);
                Ok(Some(fault))
            }
        }
    }
}

/// Makes the steps of the run in the lines, each when it is read, and returns the state after the last. After a refused
/// step the lines are read to their end, since an error in them precedes the refusal.
///
/// Fails as [`fx_run_text::read_run`] does if the lines are no run; otherwise, at no place, with the number of the
/// first refused step (851, 853, 852); and with 900 as soon as memory runs out.
fn last_state<'a, R: Source, E: Explainer>(
    alloc: Global,
    documents: &AcceptedDocuments,
    net: &'a Net,
    classes: &'a Classes,
    lines: &mut LineReader<R>,
    explainer: &mut E,
) -> Result<State<'a>, Fault>
    ensures ok { IfOk result (λ state. (state.net ≡ net.now) × ((last : states.State)
        × ComesTo net.now classes.now lines.old last
        × (state.state ≡ states.wrapped_state last))) }
    ensures err { IfErr result (λ e. IsMemory e
        ⊎ (Fails lines.old lines.new e ⊎ CannotReplay net.now classes.now lines.old e)) }
{
    let RunBeginning {
        version,
        packets,
        first,
    } = read_packets(alloc, classes, lines)?;
    let mut state = State::open_classed(alloc, net, classes, packets)?;
    let mut next = first;
    let mut refused = None;
    'steps: loop {
        let Some(step) = next else {
            break;
        };
        refused = make_step(
            documents,
            &mut state,
            &step,
            lines.number(),
            refused,
            explainer,
        )?;
        drop(step);
        next = read_next_step(alloc, version, lines)?;
    }
    match refused {
        Some(fault) => Err(fault),
        None => Ok(state),
    }
}

/// Does what [`last_state`] does, and passes to the explainer the state, or the last line that was read and the
/// refusal.
fn lent_state<'a, R: Source, E: Explainer>(
    alloc: Global,
    documents: &AcceptedDocuments,
    net: &'a Net,
    classes: &'a Classes,
    lines: &mut LineReader<R>,
    explainer: &mut E,
) -> Result<State<'a>, Fault>
    ensures ok { IfOk result (λ state. (state.net ≡ net.now) × ((last : states.State)
        × ComesTo net.now classes.now lines.old last
        × (state.state ≡ states.wrapped_state last))) }
    ensures err { IfErr result (λ e. IsMemory e
        ⊎ (Fails lines.old lines.new e ⊎ CannotReplay net.now classes.now lines.old e)) }
{
    let state = last_state(alloc, documents, net, classes, lines, explainer);
    match &state {
        Ok(state) => explainer.on_last_state(documents, state),
        Err(fault) => explainer.on_refused_line(documents, &lines.line(), fault),
    }
    state
}

/// Writes the line that says whether a run is complete.
fn put_complete<S: Sink>(sink: &mut S, complete: bool) -> Result<(), Fault>
    ensures { PutsText S.taken S.failed (complete_line complete) sink.old sink.new result }
{
    if complete {
        put_text(sink, b"complete yes\n")
    } else {
        put_text(sink, b"complete no\n")
    }
}

/// Writes totals with their keys in ascending order, and whether the run that led to them is complete.
fn put_totals<S: Sink>(totals: &mut Totals, complete: bool, sink: &mut S) -> Result<(), Fault>
    ensures ok { OnOk result (Prints (λ text. (sorted : Totals)
        × IsInOrder totals.old sorted × (text ≡ totals_text sorted ++ complete_line complete))
        (S.taken sink.old) (S.taken sink.new)) }
    ensures err { IfErr result (λ e. IsMemory e
        ⊎ IsWriteFault (S.failed sink.new) e) }
    ensures quiet { FailsQuietly S.failed sink.old sink.new result }
{
    totals.sort()?;
    totals.put_report(sink)?;
    put_complete(sink, complete)
}

/// Writes the text of the last state of a run: the totals of its report with their keys in ascending order, and whether
/// the run is complete. Nothing is written before everything that allocates is done.
///
/// Fails at no place: with 900 if out of memory, and with 902 if a write fails.
fn put_state<S: Sink>(
    alloc: Global,
    seed: Seed,
    state: &State<'_>,
    sink: &mut S,
) -> Result<(), Fault>
    requires own { totals_of state.now.net.report_layout state.now.state
        ≡ totals_in state.now.net.report_layout state.now.state }
    ensures ok { OnOk result (Prints (IsTextOf state.now.net.report_layout state.now.state)
        (S.taken sink.old) (S.taken sink.new)) }
    ensures err { IfErr result (λ e. IsMemory e
        ⊎ IsWriteFault (S.failed sink.new) e) }
    ensures quiet { FailsQuietly S.failed sink.old sink.new result }
{
    let mut totals = Totals::of(alloc, seed, state)?;
    put_totals(&mut totals, state.complete(), sink)
}

/// Replays the run in the lines over the tables of a network, and writes the collector's totals in its last state, then
/// whether the run is complete. Totals hash keys by the seed. The run's packets are kept, but no steps.
///
/// Fails as [`fx_run_text::read_run`] does if the lines are no run; otherwise, at no place, with the number of the
/// first refused step (851, 853, 852), with 900 if out of memory, and with 902 if a write fails. Nothing is written
/// before the last state is known and its totals are sorted.
pub fn replay<R: Source, E: Explainer, S: Sink>(
    alloc: Global,
    seed: Seed,
    documents: &AcceptedDocuments,
    net: &Net,
    classes: &Classes,
    lines: &mut LineReader<R>,
    explainer: &mut E,
    sink: &mut S,
) -> Result<Answer, Fault>
    ensures ok { IfOk result (λ answer. (answer ≡ Yes) × ((last : states.State)
        × ComesTo net.now classes.now lines.old last
        × Prints (IsTextOf net.now.report_layout (states.wrapped_state last))
        (S.taken sink.old) (S.taken sink.new))) }
    ensures err { IfErr result (λ e. IsMemory e
        ⊎ (Fails lines.old lines.new e
        ⊎ (IsWriteFault (S.failed sink.new) e
        ⊎ CannotReplay net.now classes.now lines.old e))) }
    ensures quiet { FailsQuietly S.failed sink.old sink.new result }
{
    let state = lent_state(alloc, documents, net, classes, lines, explainer)?;
    // For the prover only: the report's layout fits its axes.
    let _layout = net.report_layout();
    put_state(alloc, seed, &state, sink)?;
    Ok(Answer::Yes)
}
