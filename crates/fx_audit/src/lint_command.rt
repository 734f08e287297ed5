//! The commands that check whether documents are valid, from octets to octets.
ghost use Rattle.std.specs.Prelude.{◌≡◌, ◌⊎◌, IfOk, IfErr};
ghost use Rattle.fx_base.specs.Device.{IsWriteFault, MayHaveLeft};
ghost use Rattle.fx_base.specs.Fault.{IsMemory};
ghost use Rattle.fx_audit.specs.Commands.{AreLinted, IsLinted};
ghost use Rattle.fx_checker.specs.Documents.{BothMayHaveLeft, CannotRead, IfNetworkRefused, IsRefusedByDocuments, IsRefusedNetwork};
ghost use Rattle.fx_checker.specs.Outputs.{AnswersWith, Prints};
ghost use Rattle.fx_audit.specs.Texts.{IsLintText};
ghost use Rattle.fx_checker.specs.declared.answer.Answer.TheVariants.{Yes};

use crate::explainer::Explainer;
use fx_base::{Fault, Sink, Source, put_text};
use fx_checker::{Answer, Unexplained, network_from, read_documents};
use std::alloc::Global;

/// Reads a network document, and writes the line `ok` if it describes a network, so that every other command would
/// accept it.
///
/// Fails with the first refusal: 101 and the errors of [`fx_plan::read_plan`]. Fails with 901 if a read fails or the
/// reader hasn't ended after 4,294,967,296 calls, with 900 if out of memory, and with 902 if a write fails. For faults
/// other than 902 nothing is written, nor is anything before the document is read to its end.
pub fn lint_bytes<N: Source, S: Sink>(
    alloc: Global,
    network: &mut N,
    sink: &mut S,
) -> Result<Answer, Fault>
    ensures ok { IfOk result (λ answer. (answer ≡ Yes)
        × MayHaveLeft (N.left network.old) (λ n.
        Prints (IsLinted n) (S.taken sink.old) (S.taken sink.new))) }
    ensures err { IfErr result (λ e. IsMemory e
        ⊎ (CannotRead N.left N.calls N.failed network.old network.new e
        ⊎ (IsWriteFault (S.failed sink.new) e
        ⊎ MayHaveLeft (N.left network.old) (λ n. IsRefusedNetwork n e)))) }
    ensures answers { AnswersWith S.taken S.failed IsLintText sink.old sink.new result }
{
    lint_explained(alloc, network, &mut Unexplained, sink)
}

/// Does what [`lint_bytes`] does, and passes what it knows to the explainer.
pub fn lint_explained<N: Source, E: Explainer, S: Sink>(
    alloc: Global,
    network: &mut N,
    explainer: &mut E,
    sink: &mut S,
) -> Result<Answer, Fault>
    ensures ok { IfOk result (λ answer. (answer ≡ Yes)
        × MayHaveLeft (N.left network.old) (λ n.
        Prints (IsLinted n) (S.taken sink.old) (S.taken sink.new))) }
    ensures err { IfErr result (λ e. IsMemory e
        ⊎ (CannotRead N.left N.calls N.failed network.old network.new e
        ⊎ (IsWriteFault (S.failed sink.new) e
        ⊎ MayHaveLeft (N.left network.old) (λ n. IsRefusedNetwork n e)))) }
    ensures answers { AnswersWith S.taken S.failed IsLintText sink.old sink.new result }
{
    network_from(alloc, network, explainer)?;
    put_text(sink, b"ok\n")?;
    Ok(Answer::Yes)
}

/// Reads a network document and a traffic declaration, and writes the line `ok` if both are valid, so that every other
/// command would accept them.
///
/// Fails with the first refusal: for the network, 101 and the errors of [`fx_plan::read_plan`], before any of the
/// traffic is read; for the traffic, 101 and the errors of [`fx_traffic::read_traffic`]. Fails with 901 if a read fails
/// or a reader hasn't ended after 4,294,967,296 calls, with 900 if out of memory, and with 902 if a write fails. For
/// faults other than 902 nothing is written, nor is anything before both documents are read to their ends.
pub fn lint_both_bytes<N: Source, T: Source, S: Sink>(
    alloc: Global,
    network: &mut N,
    traffic: &mut T,
    sink: &mut S,
) -> Result<Answer, Fault>
    ensures ok { IfOk result (λ answer. (answer ≡ Yes)
        × BothMayHaveLeft (N.left network.old) (T.left traffic.old) (λ n t.
        Prints (AreLinted n t) (S.taken sink.old) (S.taken sink.new))) }
    ensures err { IfErr result (λ e. IsMemory e
        ⊎ (CannotRead N.left N.calls N.failed network.old network.new e
        ⊎ (CannotRead T.left T.calls T.failed traffic.old traffic.new e
        ⊎ (IsWriteFault (S.failed sink.new) e
        ⊎ BothMayHaveLeft (N.left network.old) (T.left traffic.old)
        (λ n t. IsRefusedByDocuments n t e))))) }
    ensures answers { AnswersWith S.taken S.failed IsLintText sink.old sink.new result }
    ensures order { IfNetworkRefused (N.left network.old) (traffic.new ≡ traffic.old) }
{
    lint_both_explained(alloc, network, traffic, &mut Unexplained, sink)
}

/// Does what [`lint_both_bytes`] does, and passes what it knows to the explainer.
pub fn lint_both_explained<N: Source, T: Source, E: Explainer, S: Sink>(
    alloc: Global,
    network: &mut N,
    traffic: &mut T,
    explainer: &mut E,
    sink: &mut S,
) -> Result<Answer, Fault>
    ensures ok { IfOk result (λ answer. (answer ≡ Yes)
        × BothMayHaveLeft (N.left network.old) (T.left traffic.old) (λ n t.
        Prints (AreLinted n t) (S.taken sink.old) (S.taken sink.new))) }
    ensures err { IfErr result (λ e. IsMemory e
        ⊎ (CannotRead N.left N.calls N.failed network.old network.new e
        ⊎ (CannotRead T.left T.calls T.failed traffic.old traffic.new e
        ⊎ (IsWriteFault (S.failed sink.new) e
        ⊎ BothMayHaveLeft (N.left network.old) (T.left traffic.old)
        (λ n t. IsRefusedByDocuments n t e))))) }
    ensures answers { AnswersWith S.taken S.failed IsLintText sink.old sink.new result }
    ensures order { IfNetworkRefused (N.left network.old) (traffic.new ≡ traffic.old) }
{
    read_documents(alloc, network, traffic, explainer)?;
    put_text(sink, b"ok\n")?;
    Ok(Answer::Yes)
}
