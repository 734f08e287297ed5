//! The command that checks a certificate, from octets to octets.
ghost use Rattle.std.specs.Prelude.{◌≡◌, ◌⊎◌, IfOk, IfErr};
ghost use Rattle.fx_base.specs.Device.{IsWriteFault};
ghost use Rattle.fx_base.specs.Fault.{IsMemory};
ghost use Rattle.fx_base.specs.Lines.{Fails};
ghost use Rattle.fx_checker.specs.Checks.{IsAnswered, IsRefusedCertificate, IsUnanswered, IsChecked, IsRefusedCheck, IsCheckText};
ghost use Rattle.fx_checker.specs.Documents.{BothMayHaveLeft, CannotRead, IfDocumentsRefused, IfNetworkRefused};
ghost use Rattle.fx_checker.specs.Outputs.{AnswersWith, FailsBy, Prints};
ghost use Rattle.fx_checker.specs.declared.answer.Answer.TheVariants.{Yes, No};

use crate::answer::{Answer, answer_refusal};
use crate::document::{AcceptedDocuments, read_documents};
use crate::explainer::{CheckExplainer, Unexplained};
use fx_base::{Fault, Line, LineReader, Sink, Source, put_text, refusals};
use fx_check::{CheckWatch, Due, check_watched};
use std::alloc::Global;

/// An observer of a check that passes a refusal of the certificate to an explainer.
#[derive(Drop)]
struct Refusal<'a, E> {
    documents: &'a AcceptedDocuments,
    explainer: &'a mut E,
}

impl<E: CheckExplainer> CheckWatch for Refusal<'_, E> {
    fn on_refused(&mut self, due: &Due<'_>, line: Option<&Line<'_>>, fault: &Fault) {
        self.explainer
            .on_refused_certificate(self.documents, due, line, fault);
    }
}

/// Checks the certificate in a reader's lines, and writes the answer.
fn check_lines<C: Source, E: CheckExplainer, S: Sink>(
    alloc: Global,
    documents: &AcceptedDocuments,
    certificate: &mut LineReader<C>,
    explainer: &mut E,
    sink: &mut S,
) -> Result<Answer, Fault>
    ensures answer { IfOk result (λ answer. (answer ≡ Yes) ⊎ (answer ≡ No)) }
    ensures answers { AnswersWith S.taken S.failed
        (IsAnswered documents.now.plan documents.now.traffic certificate.old)
        sink.old sink.new result }
    ensures err { IfErr result (λ e. IsMemory e
        ⊎ (Fails certificate.old certificate.new e
        ⊎ (IsWriteFault (S.failed sink.new) e
        ⊎ IsRefusedCertificate documents.now.plan documents.now.traffic certificate.old e))) }
    ensures numbers { IfErr result (IsUnanswered certificate.old) }
{
    let mut refusal = Refusal {
        documents,
        explainer,
    };
    match check_watched(
        alloc,
        &documents.plan,
        &documents.traffic,
        certificate,
        &mut refusal,
    ) {
        Ok(()) => {
            put_text(sink, b"yes\n")?;
            Ok(Answer::Yes)
        }
        Err(fault) => answer_refusal(
            sink,
            fault,
            refusals::CERTIFICATE_FIRST,
            refusals::CERTIFICATE_LAST,
        ),
    }
}

/// Reads a network document, a traffic declaration and the text of a certificate, and checks the certificate. If it is
/// accepted, writes the line `yes`: each packet of the traffic is counted exactly once by every complete run of the
/// network. If it is refused with a number from 401 to 415, writes `no` with that number and its place.
///
/// Fails with the first other refusal: for the network, 101 and the errors of [`fx_plan::read_plan`], before any of the
/// traffic is read; for the traffic, 101 and the errors of [`fx_traffic::read_traffic`], before any of the certificate
/// is read; for the certificate, 903 at a line of more than 4,096 octets. Fails with 901 if a read fails or a reader
/// hasn't ended after 4,294,967,296 calls, with 900 if out of memory, and with 902 if a write fails. For faults other
/// than 902 nothing is written, nor is anything before the answer is known.
pub fn check_bytes<N: Source, T: Source, C: Source, S: Sink>(
    alloc: Global,
    network: &mut N,
    traffic: &mut T,
    certificate: &mut LineReader<C>,
    sink: &mut S,
) -> Result<Answer, Fault>
    ensures answer { IfOk result (λ answer. (answer ≡ Yes) ⊎ (answer ≡ No)) }
    // Yes: each packet is counted once.
    ensures ok { IfOk result (λ answer.
        BothMayHaveLeft (N.left network.old) (T.left traffic.old) (λ n t.
        Prints (IsChecked n t certificate.old answer) (S.taken sink.old) (S.taken sink.new))) }
    ensures err { IfErr result (FailsBy (CannotRead N.left N.calls N.failed network.old network.new)
        (CannotRead T.left T.calls T.failed traffic.old traffic.new)
        (Fails certificate.old certificate.new) (S.failed sink.new)
        (λ e. BothMayHaveLeft (N.left network.old) (T.left traffic.old)
        (λ n t. IsRefusedCheck n t certificate.old e))) }
    // For 401 to 415, with the line, the answer is no. Once the certificate is read, only 900 to 903 are errors.
    ensures numbers { IfErr result (λ e. (certificate.new ≡ certificate.old)
        ⊎ IsUnanswered certificate.old e) }
    ensures answers { AnswersWith S.taken S.failed IsCheckText sink.old sink.new result }
    ensures order { IfNetworkRefused (N.left network.old) (traffic.new ≡ traffic.old) }
    ensures untouched { IfDocumentsRefused (N.left network.old) (T.left traffic.old)
        (certificate.new ≡ certificate.old) }
{
    check_explained(alloc, network, traffic, certificate, &mut Unexplained, sink)
}

/// Does what [`check_bytes`] does, and passes what it knows to the explainer.
pub fn check_explained<N: Source, T: Source, C: Source, E: CheckExplainer, S: Sink>(
    alloc: Global,
    network: &mut N,
    traffic: &mut T,
    certificate: &mut LineReader<C>,
    explainer: &mut E,
    sink: &mut S,
) -> Result<Answer, Fault>
    ensures answer { IfOk result (λ answer. (answer ≡ Yes) ⊎ (answer ≡ No)) }
    // Yes: each packet is counted once.
    ensures ok { IfOk result (λ answer.
        BothMayHaveLeft (N.left network.old) (T.left traffic.old) (λ n t.
        Prints (IsChecked n t certificate.old answer) (S.taken sink.old) (S.taken sink.new))) }
    ensures err { IfErr result (FailsBy (CannotRead N.left N.calls N.failed network.old network.new)
        (CannotRead T.left T.calls T.failed traffic.old traffic.new)
        (Fails certificate.old certificate.new) (S.failed sink.new)
        (λ e. BothMayHaveLeft (N.left network.old) (T.left traffic.old)
        (λ n t. IsRefusedCheck n t certificate.old e))) }
    // For 401 to 415, with the line, the answer is no. Once the certificate is read, only 900 to 903 are errors.
    ensures numbers { IfErr result (λ e. (certificate.new ≡ certificate.old)
        ⊎ IsUnanswered certificate.old e) }
    ensures answers { AnswersWith S.taken S.failed IsCheckText sink.old sink.new result }
    ensures order { IfNetworkRefused (N.left network.old) (traffic.new ≡ traffic.old) }
    ensures untouched { IfDocumentsRefused (N.left network.old) (T.left traffic.old)
        (certificate.new ≡ certificate.old) }
{
    let documents = read_documents(alloc, network, traffic, explainer)?;
    check_lines(alloc, &documents, certificate, explainer, sink)
}
