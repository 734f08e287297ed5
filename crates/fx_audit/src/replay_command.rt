//! The command that replays a run, from octets to octets.
ghost use Rattle.std.specs.Prelude.{◌≡◌, ◌⊎◌, IfOk, IfErr};
ghost use Rattle.fx_base.specs.Device.{IsWriteFault};
ghost use Rattle.fx_base.specs.Fault.{IsMemory};
ghost use Rattle.fx_base.specs.Lines.{Fails};
ghost use Rattle.fx_audit.specs.Commands.{IsRefusedReplay, IsRefusedRun, IsReplayed, IsReplayedIn};
ghost use Rattle.fx_checker.specs.Documents.{BothMayHaveLeft, CannotRead, IfDocumentsRefused, IfNetworkRefused};
ghost use Rattle.fx_checker.specs.Outputs.{AnswersWith, FailsBy, FailsQuietly, Prints};
ghost use Rattle.fx_audit.specs.Texts.{IsReplayText};
ghost use Rattle.fx_checker.specs.declared.answer.Answer.TheVariants.{Yes};

use crate::explainer::Explainer;
use crate::replaying::replay;
use fx_base::{Fault, LineReader, Sink, Source};
use fx_checker::{AcceptedDocuments, Answer, Unexplained, read_documents};
use fx_layout::Seed;
use std::alloc::Global;

/// Replays the run in a reader's lines, and writes the text of its last state.
fn replay_lines<R: Source, E: Explainer, S: Sink>(
    alloc: Global,
    seed: Seed,
    documents: &AcceptedDocuments,
    run: &mut LineReader<R>,
    explainer: &mut E,
    sink: &mut S,
) -> Result<Answer, Fault>
    ensures ok { IfOk result (λ answer. (answer ≡ Yes)
        × Prints (IsReplayedIn documents.now.plan documents.now.traffic run.old)
        (S.taken sink.old) (S.taken sink.new)) }
    ensures err { IfErr result (λ e. IsMemory e
        ⊎ (Fails run.old run.new e
        ⊎ (IsWriteFault (S.failed sink.new) e
        ⊎ IsRefusedRun documents.now.plan documents.now.traffic run.old e))) }
    ensures quiet { FailsQuietly S.failed sink.old sink.new result }
{
    let classes = documents.traffic.classes();
    replay(
        alloc,
        seed,
        documents,
        documents.plan.net(),
        classes,
        run,
        explainer,
        sink,
    )
}

/// Reads a network document, a traffic declaration and the text of a run, replays the run, and writes the collector's
/// totals in its last state, then whether the run is complete. Totals hash keys by the seed.
///
/// Fails with the first refusal: for the network, 101 and the errors of [`fx_plan::read_plan`], before any of the
/// traffic is read; for the traffic, 101 and the errors of [`fx_traffic::read_traffic`], before any of the run is read;
/// for the run, the errors of [`replay`]. Fails with 901 if a read fails or a reader hasn't ended after 4,294,967,296
/// calls, with 900 if out of memory, and with 902 if a write fails. For faults other than 902 nothing is written.
pub fn replay_bytes<N: Source, T: Source, R: Source, S: Sink>(
    alloc: Global,
    seed: Seed,
    network: &mut N,
    traffic: &mut T,
    run: &mut LineReader<R>,
    sink: &mut S,
) -> Result<Answer, Fault>
    ensures ok { IfOk result (λ answer. (answer ≡ Yes)
        × BothMayHaveLeft (N.left network.old) (T.left traffic.old) (λ n t.
        Prints (IsReplayed n t run.old) (S.taken sink.old) (S.taken sink.new))) }
    ensures err { IfErr result (FailsBy (CannotRead N.left N.calls N.failed network.old network.new)
        (CannotRead T.left T.calls T.failed traffic.old traffic.new)
        (Fails run.old run.new) (S.failed sink.new)
        (λ e. BothMayHaveLeft (N.left network.old) (T.left traffic.old)
        (λ n t. IsRefusedReplay n t run.old e))) }
    ensures answers { AnswersWith S.taken S.failed IsReplayText sink.old sink.new result }
    ensures order { IfNetworkRefused (N.left network.old) (traffic.new ≡ traffic.old) }
    ensures untouched { IfDocumentsRefused (N.left network.old) (T.left traffic.old)
        (run.new ≡ run.old) }
{
    replay_explained(alloc, seed, network, traffic, run, &mut Unexplained, sink)
}

/// Does what [`replay_bytes`] does, and passes what it knows to the explainer.
pub fn replay_explained<N: Source, T: Source, R: Source, E: Explainer, S: Sink>(
    alloc: Global,
    seed: Seed,
    network: &mut N,
    traffic: &mut T,
    run: &mut LineReader<R>,
    explainer: &mut E,
    sink: &mut S,
) -> Result<Answer, Fault>
    ensures ok { IfOk result (λ answer. (answer ≡ Yes)
        × BothMayHaveLeft (N.left network.old) (T.left traffic.old) (λ n t.
        Prints (IsReplayed n t run.old) (S.taken sink.old) (S.taken sink.new))) }
    ensures err { IfErr result (FailsBy (CannotRead N.left N.calls N.failed network.old network.new)
        (CannotRead T.left T.calls T.failed traffic.old traffic.new)
        (Fails run.old run.new) (S.failed sink.new)
        (λ e. BothMayHaveLeft (N.left network.old) (T.left traffic.old)
        (λ n t. IsRefusedReplay n t run.old e))) }
    ensures answers { AnswersWith S.taken S.failed IsReplayText sink.old sink.new result }
    ensures order { IfNetworkRefused (N.left network.old) (traffic.new ≡ traffic.old) }
    ensures untouched { IfDocumentsRefused (N.left network.old) (T.left traffic.old)
        (run.new ≡ run.old) }
{
    let documents = read_documents(alloc, network, traffic, explainer)?;
    replay_lines(alloc, seed, &documents, run, explainer, sink)
}
