//! The command that audits a network, from octets to octets.
ghost use Rattle.std.specs.Prelude.{◌≡◌, ◌⊎◌, IfOk, IfErr};
ghost use Rattle.fx_base.specs.Device.{IsWriteFault, PutsText, Writes};
ghost use Rattle.fx_base.specs.Fault.{IsMemory};
ghost use Rattle.fx_base.specs.Refusals.{search_too_large};
ghost use Rattle.fx_search.specs.Found.{certificate_text};
ghost use Rattle.fx_audit.specs.Audits.{IsAuditedIn, IsFoundText, unknown_line};
ghost use Rattle.fx_audit.specs.Commands.{IsAudited};
ghost use Rattle.fx_checker.specs.Documents.{BothMayHaveLeft, CannotRead, IfNetworkRefused, IsRefusedByDocuments};
ghost use Rattle.fx_checker.specs.Outputs.{AnswersWith, FailsQuietly, Prints};
ghost use Rattle.fx_audit.specs.Texts.{IsAuditText};
ghost use Rattle.fx_checker.specs.declared.answer.Answer.TheVariants.{Unknown};

use crate::explainer::Explainer;
use fx_base::{Fault, Sink, Source, put_text, refusals};
use fx_cert::{Item, put_item};
use fx_checker::{AcceptedDocuments, Answer, Unexplained, read_documents};
use fx_refute::put_refutation;
use fx_search::{Found, Watch, search};
use std::alloc::Global;

/// The default limit, and the largest, on the number of split and leaf lines in the certificate that an audit searches
/// for: the most that a certificate may have.
pub const AUDIT_LIMIT: u64 = 1_000_000;

/// Writes the lines of a certificate.
fn put_items<S: Sink>(sink: &mut S, items: &[Item]) -> Result<(), Fault>
    ensures { PutsText S.taken S.failed (certificate_text items.now) sink.old sink.new result }
{
    for item in items {
        put_item(sink, item)?;
    }
    Ok(())
}

/// Writes the result of a search, and returns the answer yes or no.
fn put_found<S: Sink>(sink: &mut S, found: &Found) -> Result<Answer, Fault>
    ensures answers { AnswersWith S.taken S.failed (IsFoundText found.now) sink.old sink.new
        result }
    ensures err { IfErr result (IsWriteFault (S.failed sink.new)) }
{
    match found {
        Found::Certificate(items) => {
            put_items(sink, items.as_slice())?;
            Ok(Answer::Yes)
        }
        Found::Refutation(refutation) => {
            put_refutation(sink, refutation)?;
            Ok(Answer::No)
        }
    }
}

/// Writes that nothing was found within the limits, and returns that answer, or fails as the search did.
fn answer_none<S: Sink>(sink: &mut S, fault: Fault) -> Result<Answer, Fault>
    ensures ok { IfOk result (λ answer. (answer ≡ Unknown) × (fault.number ≡ search_too_large)
        × Writes (S.taken sink.old) (S.taken sink.new) unknown_line) }
    ensures err { IfErr result (λ e. ((e ≡ fault) × (fault.number ≡ search_too_large → ⊥))
        ⊎ IsWriteFault (S.failed sink.new) e) }
    ensures quiet { FailsQuietly S.failed sink.old sink.new result }
{
    if fault.number != refusals::SEARCH_TOO_LARGE {
        return Err(fault);
    }
    put_text(sink, b"unknown 601\n")?;
    Ok(Answer::Unknown)
}

/// Passes the refutation that was found, if any, to the explainer.
fn lend_found<E: Explainer>(documents: &AcceptedDocuments, found: &Found, explainer: &mut E) {
    if let Found::Refutation(refutation) = found {
        explainer.on_refutation(documents, refutation);
    }
}

/// Audits the traffic of a network, and writes the answer.
fn audit<W: Watch, E: Explainer, S: Sink>(
    alloc: Global,
    documents: &AcceptedDocuments,
    limit: u64,
    watch: &mut W,
    explainer: &mut E,
    sink: &mut S,
) -> Result<Answer, Fault>
    ensures answers { AnswersWith S.taken S.failed
        (IsAuditedIn documents.now.plan documents.now.traffic limit) sink.old sink.new result }
    ensures err { IfErr result (λ e. IsMemory e
        ⊎ IsWriteFault (S.failed sink.new) e) }
{
    match search(alloc, &documents.plan, &documents.traffic, limit, watch) {
        Ok(found) => {
            lend_found(documents, &found, explainer);
            put_found(sink, &found)
        }
        Err(fault) => answer_none(sink, fault),
    }
}

/// Reads a network document and a traffic declaration, and audits them. Writes one of: the text of a certificate of at
/// most `limit` split and leaf lines (a limit above 1,000,000 counts as that), to which
/// [`check_bytes`](crate::check_bytes) answers yes; the text of a refutation, which is a run of one packet that ends in
/// a wrong total, as judged by [`confirm`](fx_refute::confirm); or, if what is needed is too large, as described at
/// [`search`], the line `unknown 601`. Each line that the search finds is reported to `watch`.
///
/// Fails with the first refusal: for the network, 101 and the errors of [`fx_plan::read_plan`], before any of the
/// traffic is read; for the traffic, 101 and the errors of [`fx_traffic::read_traffic`]. Fails with 901 if a read fails
/// or a reader hasn't ended after 4,294,967,296 calls, with 900 if out of memory, and with 902 if a write fails. For
/// faults other than 902 nothing is written, nor is anything before the answer is known.
pub fn audit_bytes<N: Source, T: Source, W: Watch, S: Sink>(
    alloc: Global,
    network: &mut N,
    traffic: &mut T,
    limit: u64,
    watch: &mut W,
    sink: &mut S,
) -> Result<Answer, Fault>
    // Yes: each packet is counted once. No: not every complete run counts each packet once.
    ensures ok { IfOk result (λ answer.
        BothMayHaveLeft (N.left network.old) (T.left traffic.old) (λ n t.
        Prints (IsAudited n t limit answer) (S.taken sink.old) (S.taken sink.new))) }
    ensures err { IfErr result (λ e. IsMemory e
        ⊎ (CannotRead N.left N.calls N.failed network.old network.new e
        ⊎ (CannotRead T.left T.calls T.failed traffic.old traffic.new e
        ⊎ (IsWriteFault (S.failed sink.new) e
        ⊎ BothMayHaveLeft (N.left network.old) (T.left traffic.old)
        (λ n t. IsRefusedByDocuments n t e))))) }
    ensures answers { AnswersWith S.taken S.failed IsAuditText sink.old sink.new result }
    ensures order { IfNetworkRefused (N.left network.old) (traffic.new ≡ traffic.old) }
{
    audit_explained(
        alloc,
        network,
        traffic,
        limit,
        watch,
        &mut Unexplained,
        sink,
    )
}

/// Does what [`audit_bytes`] does, and passes what it knows to the explainer.
pub fn audit_explained<N: Source, T: Source, W: Watch, E: Explainer, S: Sink>(
    alloc: Global,
    network: &mut N,
    traffic: &mut T,
    limit: u64,
    watch: &mut W,
    explainer: &mut E,
    sink: &mut S,
) -> Result<Answer, Fault>
    // Yes: each packet is counted once. No: not every complete run counts each packet once.
    ensures ok { IfOk result (λ answer.
        BothMayHaveLeft (N.left network.old) (T.left traffic.old) (λ n t.
        Prints (IsAudited n t limit answer) (S.taken sink.old) (S.taken sink.new))) }
    ensures err { IfErr result (λ e. IsMemory e
        ⊎ (CannotRead N.left N.calls N.failed network.old network.new e
        ⊎ (CannotRead T.left T.calls T.failed traffic.old traffic.new e
        ⊎ (IsWriteFault (S.failed sink.new) e
        ⊎ BothMayHaveLeft (N.left network.old) (T.left traffic.old)
        (λ n t. IsRefusedByDocuments n t e))))) }
    ensures answers { AnswersWith S.taken S.failed IsAuditText sink.old sink.new result }
    ensures order { IfNetworkRefused (N.left network.old) (traffic.new ≡ traffic.old) }
{
    let documents = read_documents(alloc, network, traffic, explainer)?;
    audit(alloc, &documents, limit, watch, explainer, sink)
}
