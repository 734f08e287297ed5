//! The command that collects a stream, from octets to octets.
ghost use Rattle.std.specs.Prelude.{◌≡◌, ◌⊎◌, IfOk, IfErr};
ghost use Rattle.fx_base.specs.Device.{IsWriteFault};
ghost use Rattle.fx_base.specs.Fault.{IsMemory};
ghost use Rattle.fx_audit.specs.Commands.{IsCollected, IsRefusedCollect};
ghost use Rattle.fx_checker.specs.Documents.{BothMayHaveLeft, CannotRead, IfNetworkRefused};
ghost use Rattle.fx_checker.specs.Outputs.{AnswersWith, Prints};
ghost use Rattle.fx_audit.specs.Texts.{IsCollectText};
ghost use Rattle.fx_checker.specs.declared.answer.Answer.TheVariants.{Yes};

use crate::collecting::collect;
use crate::explainer::Explainer;
use fx_base::{Fault, Sink, Source};
use fx_checker::{Answer, Unexplained, network_from};
use fx_layout::Seed;
use fx_session::{SessionWatch, Unwatched};
use std::alloc::Global;

/// Reads a network document, collects an IPFIX stream at the network's report, and writes the totals of its flow
/// records, then `gaps` with the number of messages whose sequence number isn't the expected one, and `skipped` with
/// the number of data records that aren't flow records because their template lacks a counter. Totals hash keys by the
/// seed.
///
/// Fails with the first refusal: for the network, 101 and the errors of [`fx_plan::read_plan`], before any of the
/// stream is read; for the stream, the errors of [`collect`]. Fails with 901 if a read fails or a reader hasn't ended
/// after 4,294,967,296 calls, with 900 if out of memory, and with 902 if a write fails. For faults other than 902
/// nothing is written.
pub fn collect_bytes<N: Source, R: Source, S: Sink>(
    alloc: Global,
    seed: Seed,
    network: &mut N,
    stream: &mut R,
    sink: &mut S,
) -> Result<Answer, Fault>
    ensures ok { IfOk result (λ answer. (answer ≡ Yes)
        × BothMayHaveLeft (N.left network.old) (R.left stream.old) (λ n octets.
        Prints (IsCollected n octets) (S.taken sink.old) (S.taken sink.new))) }
    ensures err { IfErr result (λ e. IsMemory e
        ⊎ (CannotRead N.left N.calls N.failed network.old network.new e
        ⊎ (CannotRead R.left R.calls R.failed stream.old stream.new e
        ⊎ (IsWriteFault (S.failed sink.new) e
        ⊎ BothMayHaveLeft (N.left network.old) (R.left stream.old)
        (λ n octets. IsRefusedCollect n octets e))))) }
    ensures answers { AnswersWith S.taken S.failed IsCollectText sink.old sink.new result }
    ensures untouched { IfNetworkRefused (N.left network.old) (stream.new ≡ stream.old) }
{
    collect_explained(
        alloc,
        seed,
        network,
        stream,
        &mut Unexplained,
        &mut Unwatched,
        sink,
    )
}

/// Does what [`collect_bytes`] does, passes what it knows to the explainer, and reports to `watch` the content of the
/// stream's messages and the layout under which they are tallied.
pub fn collect_explained<N: Source, R: Source, E: Explainer, W: SessionWatch, S: Sink>(
    alloc: Global,
    seed: Seed,
    network: &mut N,
    stream: &mut R,
    explainer: &mut E,
    watch: &mut W,
    sink: &mut S,
) -> Result<Answer, Fault>
    ensures ok { IfOk result (λ answer. (answer ≡ Yes)
        × BothMayHaveLeft (N.left network.old) (R.left stream.old) (λ n octets.
        Prints (IsCollected n octets) (S.taken sink.old) (S.taken sink.new))) }
    ensures err { IfErr result (λ e. IsMemory e
        ⊎ (CannotRead N.left N.calls N.failed network.old network.new e
        ⊎ (CannotRead R.left R.calls R.failed stream.old stream.new e
        ⊎ (IsWriteFault (S.failed sink.new) e
        ⊎ BothMayHaveLeft (N.left network.old) (R.left stream.old)
        (λ n octets. IsRefusedCollect n octets e))))) }
    ensures answers { AnswersWith S.taken S.failed IsCollectText sink.old sink.new result }
    ensures untouched { IfNetworkRefused (N.left network.old) (stream.new ≡ stream.old) }
{
    let plan = network_from(alloc, network, explainer)?;
    collect(alloc, seed, plan.net(), stream, watch, sink)
}
