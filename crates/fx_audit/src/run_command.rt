//! The command that runs a network over a capture, from octets to octets.
ghost use Rattle.std.specs.Prelude.{◌≡◌, ◌⊎◌, Err, OnOk, IfOk, IfErr, IfSome};
ghost use Rattle.fx_base.specs.Device.{IsWriteFault, KeepsGoing, MayHaveLeft, PutsText};
ghost use Rattle.fx_base.specs.Fault.{IsMemory};
ghost use Rattle.fx_base.specs.declared.fault.Fault.{Fault};
ghost use Rattle.fx_pcap.specs.Captures.{IsUnreadable};
ghost use Rattle.fx_pcap.specs.Records.{format_of};
ghost use Rattle.fx_net.specs.Running.{FailsOutside, RefusesRun, RunsTo, begun};
ghost use Rattle.fx_checker.specs.Documents.{BothMayHaveLeft, CannotRead, IfDocumentsRefused, IfNetworkRefused};
ghost use Rattle.fx_audit.specs.Metering.{IsMetered, IsMeteredIn, IsMeteredText, IsRun, skipped_line, IsRefusedOver, IsRefusedMetering, IsStateOfSource};
ghost use Rattle.fx_checker.specs.Outputs.{AnswersWith, FailsQuietly, Prints};
ghost use Rattle.fx_audit.specs.Texts.{IsRunText};
ghost use Rattle.fx_checker.specs.declared.answer.Answer.TheVariants.{Yes};

use crate::explainer::{Explainer, PacketAt};
use fx_base::{Fault, LineReader, Sink, Source, put_number, put_text};
use fx_checker::{AcceptedDocuments, Answer, Unexplained, read_documents};
use fx_collect::{Totals, put_number_line};
use fx_conform::plans_are_sound;
use fx_layout::Seed;
use fx_link::Links;
use fx_net::run;
use fx_pcap::{Capture, Skipped};
use std::alloc::Global;

/// The result of a run over a capture: what the collector has counted, and the frames that were skipped.
#[derive(Drop)]
struct Metered {
    totals: Totals,
    skipped: Skipped,
}

/// Runs a network over a capture, as [`run`] does. If the run is refused, passes where to the explainer.
fn run_lent<C: Source, Q: Source, L: Links, E: Explainer>(
    alloc: Global,
    seed: Seed,
    documents: &AcceptedDocuments,
    capture: &mut Capture<C>,
    schedule: &mut LineReader<Q>,
    links: &mut L,
    explainer: &mut E,
) -> Result<Totals, Fault>
    ensures ok { IfOk result (λ totals.
        RunsTo (begun documents.now.plan documents.now.traffic) capture.old capture.new
        schedule.old schedule.new (L.put_on links.old) (L.put_on links.new) totals) }
    ensures going { OnOk result (KeepsGoing (L.failed links.old) (L.failed links.new)) }
    ensures err { IfErr result (λ e. FailsOutside (L.failed links.new) e
        ⊎ RefusesRun (begun documents.now.plan documents.now.traffic) capture.old capture.new
        schedule.old schedule.new (L.put_on links.old) e) }
{
    let outcome = run(
        alloc,
        seed,
        &documents.plan,
        &documents.traffic,
        capture,
        schedule,
        links,
    );
    if let Err(fault) = &outcome {
        let at = PacketAt {
            frame: capture.frame(),
            packets: capture.packets(),
            skipped: capture.skipped(),
        };
        explainer.on_refused_metering(documents, &schedule.line(), &at, fault);
    }
    outcome
}

/// Opens a capture, and runs a network over it by the lines of a schedule.
fn meter<C: Source, Q: Source, L: Links, E: Explainer>(
    alloc: Global,
    seed: Seed,
    documents: &AcceptedDocuments,
    capture: C,
    schedule: &mut LineReader<Q>,
    links: &mut L,
    explainer: &mut E,
) -> Result<Metered, Fault>
    ensures ok { IfOk result (λ metered. IsRun documents.now.plan documents.now.traffic
        (C.left capture) (C.calls capture) schedule.old schedule.new (L.put_on links.old)
        (L.put_on links.new)
        metered.totals metered.skipped) }
    ensures going { OnOk result (KeepsGoing (L.failed links.old) (L.failed links.new)) }
    ensures err { IfErr result (λ e. FailsOutside (L.failed links.new) e
        ⊎ IsRefusedOver documents.now.plan documents.now.traffic (C.left capture) (C.calls capture)
        (IsUnreadable C.calls C.failed (C.left capture) (C.calls capture))
        (IsStateOfSource C.calls C.failed) schedule.old schedule.new (L.put_on links.old) e) }
    ensures untouched { IfSome (C.left capture) (λ c. (e : Fault)
        → format_of c ≡ Err e → (schedule.new ≡ schedule.old) × (links.new ≡ links.old)) }
{
    let mut capture = Capture::new(alloc, capture)?;
    let outcome = run_lent(
        alloc,
        seed,
        documents,
        &mut capture,
        schedule,
        links,
        explainer,
    );
    // For the prover only: the contract speaks of the source after the run.
    capture.get_ref();
    let totals = outcome?;
    Ok(Metered {
        totals,
        skipped: capture.skipped(),
    })
}

/// Writes the line with the number of skipped frames.
fn put_skipped<S: Sink>(sink: &mut S, skipped: Skipped) -> Result<(), Fault>
    ensures { PutsText S.taken S.failed (skipped_line skipped.other skipped.malformed) sink.old
        sink.new result }
{
    put_text(sink, b"skipped other ")?;
    put_number(sink, skipped.other)?;
    put_number_line(sink, b" malformed ", skipped.malformed)
}

/// Writes the result of a run over a capture: the totals with their keys in ascending order, and the number of skipped
/// frames. Nothing is written before everything that allocates is done.
///
/// Fails at no place: with 900 if out of memory, and with 902 if a write fails.
fn put_metered<S: Sink>(metered: Metered, sink: &mut S) -> Result<(), Fault>
    ensures ok { OnOk result (Prints
        (IsMeteredText metered.totals metered.skipped.other metered.skipped.malformed)
        (S.taken sink.old) (S.taken sink.new)) }
    ensures err { IfErr result (λ e. IsMemory e
        ⊎ IsWriteFault (S.failed sink.new) e) }
    ensures quiet { FailsQuietly S.failed sink.old sink.new result }
{
    let Metered {
        mut totals,
        skipped,
    } = metered;
    totals.sort()?;
    totals.put_report(sink)?;
    put_skipped(sink, skipped)
}

/// Runs a network over a capture, and writes the result.
fn run_capture<C: Source, Q: Source, L: Links, E: Explainer, S: Sink>(
    alloc: Global,
    seed: Seed,
    documents: &AcceptedDocuments,
    capture: C,
    schedule: &mut LineReader<Q>,
    links: &mut L,
    explainer: &mut E,
    sink: &mut S,
) -> Result<Answer, Fault>
    ensures ok { IfOk result (λ answer. (answer ≡ Yes)
        × Prints (IsMeteredIn documents.now.plan documents.now.traffic (C.left capture)
        (C.calls capture) schedule.old schedule.new (L.put_on links.old) (L.put_on links.new))
        (S.taken sink.old) (S.taken sink.new)) }
    ensures links_going { OnOk result (KeepsGoing (L.failed links.old) (L.failed links.new)) }
    ensures err { IfErr result (λ e. FailsOutside (L.failed links.new) e
        ⊎ (IsWriteFault (S.failed sink.new) e
        ⊎ IsRefusedOver documents.now.plan documents.now.traffic (C.left capture) (C.calls capture)
        (IsUnreadable C.calls C.failed (C.left capture) (C.calls capture))
        (IsStateOfSource C.calls C.failed) schedule.old schedule.new (L.put_on links.old) e)) }
    ensures untouched { IfSome (C.left capture) (λ c. (e : Fault)
        → format_of c ≡ Err e → (schedule.new ≡ schedule.old) × (links.new ≡ links.old)) }
    ensures quiet { FailsQuietly S.failed sink.old sink.new result }
{
    let metered = meter(alloc, seed, documents, capture, schedule, links, explainer)?;
    put_metered(metered, sink)?;
    Ok(Answer::Yes)
}

/// Reads a network document and a traffic declaration, opens a capture, and runs the network over it by the lines of a
/// schedule: meters the packets, sends what is exported on the links, mediates it, and writes the collector's totals,
/// then the number of skipped frames of the capture. Stores and totals hash keys by the seed.
///
/// Fails with the first refusal: for the network, 101 and the errors of [`fx_plan::read_plan`], before any of the
/// traffic is read; for the traffic, 101 and the errors of [`fx_traffic::read_traffic`]; for the capture's file header,
/// the errors of [`Capture::new`], before any of the schedule is read and anything is sent on the links; then the
/// errors of [`fx_net::run`]. Fails with 901 if a read fails or a reader hasn't ended after 4,294,967,296 calls, with
/// 900 if out of memory, and with 902 if a write fails. For faults other than 902 nothing is written to the sink. If a
/// document is refused, nothing is read of the capture and the schedule, and nothing is sent on the links.
pub fn run_bytes<N: Source, T: Source, C: Source, Q: Source, L: Links, S: Sink>(
    alloc: Global,
    seed: Seed,
    network: &mut N,
    traffic: &mut T,
    capture: &mut C,
    schedule: &mut LineReader<Q>,
    links: &mut L,
    sink: &mut S,
) -> Result<Answer, Fault>
    ensures ok { IfOk result (λ answer. (answer ≡ Yes)
        × BothMayHaveLeft (N.left network.old) (T.left traffic.old) (λ n t.
        Prints (IsMetered n t (C.left capture.old) (C.calls capture.old) schedule.old schedule.new
        (L.put_on links.old) (L.put_on links.new)) (S.taken sink.old) (S.taken sink.new))) }
    ensures links_going { OnOk result (KeepsGoing (L.failed links.old) (L.failed links.new)) }
    ensures err { IfErr result (λ e. FailsOutside (L.failed links.new) e
        ⊎ (CannotRead N.left N.calls N.failed network.old network.new e
        ⊎ (CannotRead T.left T.calls T.failed traffic.old traffic.new e
        ⊎ (IsWriteFault (S.failed sink.new) e
        ⊎ BothMayHaveLeft (N.left network.old) (T.left traffic.old) (λ n t. IsRefusedMetering n t
        (C.left capture.old) (C.calls capture.old) (IsUnreadable C.calls C.failed
        (C.left capture.old) (C.calls capture.old)) (IsStateOfSource C.calls C.failed)
        schedule.old schedule.new (L.put_on links.old) e))))) }
    ensures answers { AnswersWith S.taken S.failed IsRunText sink.old sink.new result }
    ensures order { IfNetworkRefused (N.left network.old) (traffic.new ≡ traffic.old) }
    ensures untouched { IfDocumentsRefused (N.left network.old) (T.left traffic.old)
        ((capture.new ≡ capture.old) × (schedule.new ≡ schedule.old) × (links.new ≡ links.old)) }
    ensures unopened { IfSome (C.left capture.old) (λ c. (e : Fault)
        → format_of c ≡ Err e → (schedule.new ≡ schedule.old) × (links.new ≡ links.old)) }
{
    run_explained(
        alloc,
        seed,
        network,
        traffic,
        capture,
        schedule,
        links,
        &mut Unexplained,
        sink,
    )
}

/// Does what [`run_bytes`] does, and passes what it knows to the explainer.
pub fn run_explained<N: Source, T: Source, C: Source, Q: Source, L: Links, E: Explainer, S: Sink>(
    alloc: Global,
    seed: Seed,
    network: &mut N,
    traffic: &mut T,
    capture: &mut C,
    schedule: &mut LineReader<Q>,
    links: &mut L,
    explainer: &mut E,
    sink: &mut S,
) -> Result<Answer, Fault>
    ensures ok { IfOk result (λ answer. (answer ≡ Yes)
        × BothMayHaveLeft (N.left network.old) (T.left traffic.old) (λ n t.
        Prints (IsMetered n t (C.left capture.old) (C.calls capture.old) schedule.old schedule.new
        (L.put_on links.old) (L.put_on links.new)) (S.taken sink.old) (S.taken sink.new))) }
    ensures links_going { OnOk result (KeepsGoing (L.failed links.old) (L.failed links.new)) }
    ensures err { IfErr result (λ e. FailsOutside (L.failed links.new) e
        ⊎ (CannotRead N.left N.calls N.failed network.old network.new e
        ⊎ (CannotRead T.left T.calls T.failed traffic.old traffic.new e
        ⊎ (IsWriteFault (S.failed sink.new) e
        ⊎ BothMayHaveLeft (N.left network.old) (T.left traffic.old) (λ n t. IsRefusedMetering n t
        (C.left capture.old) (C.calls capture.old) (IsUnreadable C.calls C.failed
        (C.left capture.old) (C.calls capture.old)) (IsStateOfSource C.calls C.failed)
        schedule.old schedule.new (L.put_on links.old) e))))) }
    ensures answers { AnswersWith S.taken S.failed IsRunText sink.old sink.new result }
    ensures order { IfNetworkRefused (N.left network.old) (traffic.new ≡ traffic.old) }
    ensures untouched { IfDocumentsRefused (N.left network.old) (T.left traffic.old)
        ((capture.new ≡ capture.old) × (schedule.new ≡ schedule.old) × (links.new ≡ links.old)) }
    ensures unopened { IfSome (C.left capture.old) (λ c. (e : Fault)
        → format_of c ≡ Err e → (schedule.new ≡ schedule.old) × (links.new ≡ links.old)) }
{
    let documents = read_documents(alloc, network, traffic, explainer)?;
    plans_are_sound(&documents.plan);
    run_capture(
        alloc, seed, &documents, capture, schedule, links, explainer, sink,
    )
}
