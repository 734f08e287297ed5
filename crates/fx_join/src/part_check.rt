//! The check of a part: of its documents and its certificate.
ghost use Rattle.std.specs.Prelude.{◌≡◌, ◌⊎◌, true, false, IfErr, IfOk, OnOk};
ghost use Rattle.fx_base.specs.Fault.{IsMemory};
ghost use Rattle.fx_base.specs.Lines.{text_lines};
ghost use Rattle.fx_check.specs.Certificates.{IsCertificate};
ghost use Rattle.fx_plan.specs.Tables.{net_of};
ghost use Rattle.fx_checker.specs.Documents.{IsNetworkDocument, IsTraffic};
ghost use Rattle.fx_join.specs.PartChecks.{IsAtPart, IsCertifiedAs, IsEndlessPart, IsFailure, IsPartFault, IsRefusedAt};
ghost use Rattle.fx_base.specs.Refusals.{part_refused};

use crate::ending::refusal_at_part;
use crate::explainer::JoinExplainer;
use crate::part_reader::PartText;
use fx_base::{Fault, LineReader, Octets, Place, refusals};
use fx_check::check;
use fx_checker::{AcceptedDocuments, Unexplained, read_documents};
use std::alloc::Global;

/// Reads the documents of a part.
///
/// Fails with the first fault of the two; with 901, at no place, if one has 4,294,967,296 octets or more; and with 900
/// if out of memory.
fn documents_of(alloc: Global, part: &PartText) -> Result<AcceptedDocuments, Fault>
    ensures network { IfOk result (λ documents.
        IsNetworkDocument part.now.network documents.plan) }
    ensures traffic { IfOk result (λ documents.
        IsTraffic documents.plan part.now.traffic documents.traffic) }
    ensures err { IfErr result (IsPartFault part.now) }
{
    let mut network = Octets::new(part.network.as_slice());
    let mut traffic = Octets::new(part.traffic.as_slice());
    read_documents(alloc, &mut network, &mut traffic, &mut Unexplained)
}

/// Proves that reading a text in memory doesn't fail.
fn never_fails(lines: &LineReader<Octets<'_>>)
    ensures { lines.now.failed ≡ false }
{
    // For the prover only: the invariant of the source's type.
    let _text = lines.get_ref();
}

/// Checks the certificate of a part.
///
/// Fails as [`check`] does; with 901, at no place, if the certificate has 4,294,967,296 octets or more; and with 900 if
/// out of memory.
fn check_certificate(
    alloc: Global,
    documents: &AcceptedDocuments,
    part: &PartText,
) -> Result<(), Fault>
    requires network { IsNetworkDocument part.now.network documents.now.plan }
    requires traffic { IsTraffic documents.now.plan part.now.traffic documents.now.traffic }
    ensures ok { OnOk result (IsCertificate (net_of documents.now.plan) documents.now.traffic
        (text_lines part.now.certificate)) }
    ensures err { IfErr result (IsPartFault part.now) }
{
    let mut lines = LineReader::new(alloc, Octets::new(part.certificate.as_slice()))?;
    let checked = check(alloc, &documents.plan, &documents.traffic, &mut lines);
    never_fails(&lines);
    checked
}

/// Returns whether a fault is 900 or 901 at no place, which no part is to blame for.
fn is_failure(fault: &Fault) -> bool
    ensures yes { result ≡ true → IsFailure fault.now }
    ensures no { result ≡ false → IsFailure fault.now → ⊥ }
{
    matches!(fault.place, Place::None)
        && matches!(
            fault.number,
            refusals::WANT_OF_MEMORY | refusals::FAILED_READ
        )
}

/// Returns the refusal of the part with this 1-based number, whose check has this fault, and reports it to the
/// explainer. Returns a fault that no part is to blame for as it is, and 900 if out of memory.
fn refusal_of_part<E: JoinExplainer>(
    alloc: Global,
    number: u64,
    fault: Fault,
    documents: Option<&AcceptedDocuments>,
    explainer: &mut E,
) -> Fault
    ensures { ((result ≡ fault) × IsFailure fault) ⊎ ((IsFailure fault → ⊥)
        × (IsMemory result ⊎ IsAtPart part_refused number result)) }
{
    if is_failure(&fault) {
        return fault;
    }
    explainer.on_refused_part(number, &fault, documents);
    refusal_at_part(alloc, refusals::PART_REFUSED, number)
}

/// Checks the part with this 1-based number, and returns its documents.
///
/// Fails with 421 at the part if the check refuses it; with 901, at no place, if one of its texts has 4,294,967,296
/// octets or more; and with 900 if out of memory.
pub(crate) fn certified_part<E: JoinExplainer>(
    alloc: Global,
    part: &PartText,
    number: u64,
    explainer: &mut E,
) -> Result<AcceptedDocuments, Fault>
    ensures ok { IfOk result (λ documents. IsCertifiedAs part.now documents.plan
        documents.traffic) }
    ensures err { IfErr result (λ e. IsMemory e
        ⊎ (IsEndlessPart part.now e ⊎ IsRefusedAt part.now number e)) }
{
    let documents = match documents_of(alloc, part) {
        Ok(documents) => documents,
        Err(fault) => return Err(refusal_of_part(alloc, number, fault, None, explainer)),
    };
    match check_certificate(alloc, &documents, part) {
        Ok(()) => Ok(documents),
        Err(fault) => Err(refusal_of_part(alloc, number, fault, Some(&documents), explainer)),
    }
}
