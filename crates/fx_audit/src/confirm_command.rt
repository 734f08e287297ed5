//! The command that confirms a refutation, from octets to octets.
ghost use Rattle.std.specs.Prelude.{◌≡◌, ◌⊎◌, Ok, Err, IfOk, IfErr, OnOk};
ghost use Rattle.fx_base.specs.Device.{IsWriteFault, PutsText, Writes};
ghost use Rattle.fx_base.specs.Fault.{IsMemory};
ghost use Rattle.fx_base.specs.Lines.{Fails};
ghost use Rattle.fx_collect.specs.Report.{KeysAscend};
ghost use Rattle.fx_plan.specs.Tables.{net_of};
ghost use Rattle.fx_refute.specs.RefutationReading.{MayReadRefutation};
ghost use Rattle.fx_refute.specs.Refutations.{AreTotals, IsNoRefutation, Refutes};
ghost use Rattle.fx_refute.specs.Refutations as refutations;
ghost use Rattle.fx_audit.specs.Commands.{IsConfirmed, IsRefusedConfirm};
ghost use Rattle.fx_audit.specs.Confirms.{IsConfirmedIn, IsInOrder, IsRefusedOtherwise, IsRefusedRefutation, IsRefuted, printed_refusal, refuted_text};
ghost use Rattle.fx_checker.specs.Documents.{BothMayHaveLeft, CannotRead, IfDocumentsRefused, IfNetworkRefused};
ghost use Rattle.fx_checker.specs.Outputs.{AnswersWith, FailsBy, FailsQuietly, Prints};
ghost use Rattle.fx_audit.specs.Texts.{IsConfirmText};
ghost use Rattle.fx_checker.specs.declared.answer.Answer.TheVariants.{Yes, No};

use crate::explainer::Explainer;
use fx_base::{Fault, LineReader, Sink, Source, put_text, refusals};
use fx_checker::{AcceptedDocuments, Answer, Unexplained, answer_refusal, read_documents};
use fx_collect::Totals;
use fx_machine::{State, StepWatch};
use fx_refute::{Refutation, confirm_watched, read_refutation};
use fx_run_text::Step;
use std::alloc::Global;

/// Reads the refutation in a reader's lines. If a line is refused, passes it to the explainer.
fn read_lent<C: Source, E: Explainer>(
    alloc: Global,
    documents: &AcceptedDocuments,
    lines: &mut LineReader<C>,
    explainer: &mut E,
) -> Result<Refutation, Fault>
    ensures ok { IfOk result (λ r. MayReadRefutation lines.old (Ok r)) }
    ensures err { IfErr result (λ e. IsMemory e
        ⊎ (Fails lines.old lines.new e ⊎ MayReadRefutation lines.old (Err e))) }
{
    let read = read_refutation(alloc, lines);
    if let Err(fault) = &read {
        explainer.on_refused_line(documents, &lines.line(), fault);
    }
    read
}

/// An observer of a confirmation that passes the state in which the run of a refutation stops to an explainer.
#[derive(Drop)]
struct Stop<'a, E> {
    documents: &'a AcceptedDocuments,
    refutation: &'a Refutation,
    explainer: &'a mut E,
}

impl<E: Explainer> StepWatch for Stop<'_, E> {
    fn on_refused_step(&mut self, state: &State<'_>, _step: &Step, number: u64, fault: &Fault) {
        self.explainer
            .on_refused_refutation(self.documents, self.refutation, state, number, fault);
    }

    fn on_last_state(&mut self, state: &State<'_>) {
        self.explainer
            .on_unconfirmed(self.documents, self.refutation, state);
    }
}

/// Confirms a refutation. Passes it to the explainer, and where its run stops if it refutes nothing.
fn confirm_lent<E: Explainer>(
    alloc: Global,
    documents: &AcceptedDocuments,
    refutation: &Refutation,
    explainer: &mut E,
) -> Result<(Totals, Totals), Fault>
    ensures refutes { OnOk result (Refutes
        (net_of documents.now.plan) documents.now.traffic refutation.now) }
    ensures totals { IfOk result (λ t.
        AreTotals (net_of documents.now.plan) documents.now.traffic refutation.now t.0 t.1) }
    ensures err { IfErr result (λ e. IsMemory e
        ⊎ IsNoRefutation (net_of documents.now.plan) documents.now.traffic refutation.now e) }
{
    let mut stop = Stop {
        documents,
        refutation,
        explainer: &mut *explainer,
    };
    let confirmed = confirm_watched(
        alloc,
        &documents.plan,
        &documents.traffic,
        refutation,
        &mut stop,
    );
    drop(stop);
    match &confirmed {
        Ok(_) => explainer.on_refutation(documents, refutation),
        Err(fault) => {
            if fault.number == refusals::REFUTATION_PACKET {
                explainer.on_refused_packet(documents, refutation);
            }
        }
    }
    confirmed
}

/// Returns the totals of the run of the refutation in a reader's lines, and the plain sums over its packet.
fn confirm_said<C: Source, E: Explainer>(
    alloc: Global,
    documents: &AcceptedDocuments,
    refutation: &mut LineReader<C>,
    explainer: &mut E,
) -> Result<(Totals, Totals), Fault>
    ensures ok { IfOk result (λ t. (said : refutations.Refutation)
        × MayReadRefutation refutation.old (Ok said)
        × Refutes (net_of documents.now.plan) documents.now.traffic said
        × AreTotals (net_of documents.now.plan) documents.now.traffic said t.0 t.1) }
    ensures err { IfErr result (λ e. IsMemory e
        ⊎ (Fails refutation.old refutation.new e
        ⊎ IsRefusedRefutation documents.now.plan documents.now.traffic refutation.old e)) }
{
    let said = read_lent(alloc, documents, refutation, explainer)?;
    confirm_lent(alloc, documents, &said, explainer)
}

/// Sorts the keys of both totals in ascending order.
fn sort_both(ran: &mut Totals, plain: &mut Totals) -> Result<(), Fault>
    ensures ran { OnOk result (IsInOrder ran.old ran.new) }
    ensures plain { OnOk result (IsInOrder plain.old plain.new) }
    ensures err { IfErr result IsMemory }
{
    ran.sort()?;
    plain.sort()?;
    Ok(())
}

/// Returns the totals of the run of the refutation in a reader's lines, and the plain sums over its packet, both with
/// their keys in ascending order.
fn totals_of_refutation<C: Source, E: Explainer>(
    alloc: Global,
    documents: &AcceptedDocuments,
    refutation: &mut LineReader<C>,
    explainer: &mut E,
) -> Result<(Totals, Totals), Fault>
    ensures ok { IfOk result (λ t.
        IsRefuted documents.now.plan documents.now.traffic refutation.old t.0 t.1) }
    ensures err { IfErr result (λ e. IsMemory e
        ⊎ (Fails refutation.old refutation.new e
        ⊎ IsRefusedRefutation documents.now.plan documents.now.traffic refutation.old e)) }
{
    let (mut ran, mut plain) = confirm_said(alloc, documents, refutation, explainer)?;
    sort_both(&mut ran, &mut plain)?;
    Ok((ran, plain))
}

/// Writes the totals of a refuting run, and the plain sums.
fn put_refuted<S: Sink>(sink: &mut S, ran: &Totals, plain: &Totals) -> Result<(), Fault>
    requires ran { KeysAscend ran.now.entries }
    requires plain { KeysAscend plain.now.entries }
    ensures { PutsText S.taken S.failed (refuted_text ran.now plain.now) sink.old sink.new result }
{
    put_text(sink, b"refuted\nrun\n")?;
    ran.put_report(sink)?;
    put_text(sink, b"plain\n")?;
    plain.put_report(sink)
}

/// Writes the totals of a refuting run and the plain sums, and returns the answer yes.
fn answer_refuted<S: Sink>(sink: &mut S, ran: &Totals, plain: &Totals) -> Result<Answer, Fault>
    requires ran { KeysAscend ran.now.entries }
    requires plain { KeysAscend plain.now.entries }
    ensures ok { IfOk result (λ answer. (answer ≡ Yes)
        × Writes (S.taken sink.old) (S.taken sink.new) (refuted_text ran.now plain.now)) }
    ensures err { IfErr result (IsWriteFault (S.failed sink.new)) }
    ensures quiet { FailsQuietly S.failed sink.old sink.new result }
{
    put_refuted(sink, ran, plain)?;
    Ok(Answer::Yes)
}

/// Returns the refusal as the answer prints it: 501 without its line.
fn without_place_of_form(fault: Fault) -> Fault
    ensures { result ≡ printed_refusal fault }
{
    if fault.number == refusals::REFUTATION_FORM {
        Fault::bare(fault.number)
    } else {
        fault
    }
}

/// Confirms the refutation in a reader's lines, and writes the answer.
fn confirm_lines<C: Source, E: Explainer, S: Sink>(
    alloc: Global,
    documents: &AcceptedDocuments,
    refutation: &mut LineReader<C>,
    explainer: &mut E,
    sink: &mut S,
) -> Result<Answer, Fault>
    ensures answer { IfOk result (λ answer. (answer ≡ Yes) ⊎ (answer ≡ No)) }
    ensures answers { AnswersWith S.taken S.failed
        (IsConfirmedIn documents.now.plan documents.now.traffic refutation.old)
        sink.old sink.new result }
    ensures err { IfErr result (λ e. IsMemory e
        ⊎ (Fails refutation.old refutation.new e
        ⊎ (IsWriteFault (S.failed sink.new) e
        ⊎ IsRefusedOtherwise documents.now.plan documents.now.traffic refutation.old e))) }
{
    match totals_of_refutation(alloc, documents, refutation, explainer) {
        Ok((ran, plain)) => answer_refuted(sink, &ran, &plain),
        Err(fault) => answer_refusal(
            sink,
            without_place_of_form(fault),
            refusals::REFUTATION_FIRST,
            refusals::REFUTATION_LAST,
        ),
    }
}

/// Reads a network document, a traffic declaration and the text of a refutation, and confirms the refutation. If its
/// run shows a wrong total, writes `refuted`, then the totals of the run after the line `run`, and the plain sums over
/// its packet after the line `plain`. If it is refused with a number from 501 to 505, writes `no` with that number, and
/// for 502 and 503 with the line.
///
/// Fails with the first other refusal: for the network, 101 and the errors of [`fx_plan::read_plan`], before any of the
/// traffic is read; for the traffic, 101 and the errors of [`fx_traffic::read_traffic`], before any of the refutation
/// is read; for the refutation, 903 at a line of more than 4,096 octets. Fails with 901 if a read fails or a reader
/// hasn't ended after 4,294,967,296 calls, with 900 if out of memory, and with 902 if a write fails. For faults other
/// than 902 nothing is written, nor is anything before the answer is known and both totals are sorted.
pub fn confirm_bytes<N: Source, T: Source, C: Source, S: Sink>(
    alloc: Global,
    network: &mut N,
    traffic: &mut T,
    refutation: &mut LineReader<C>,
    sink: &mut S,
) -> Result<Answer, Fault>
    ensures answer { IfOk result (λ answer. (answer ≡ Yes) ⊎ (answer ≡ No)) }
    // Yes: not every complete run counts each packet exactly once.
    ensures ok { IfOk result (λ answer.
        BothMayHaveLeft (N.left network.old) (T.left traffic.old) (λ n t.
        Prints (IsConfirmed n t refutation.old answer) (S.taken sink.old) (S.taken sink.new))) }
    ensures err { IfErr result (FailsBy (CannotRead N.left N.calls N.failed network.old network.new)
        (CannotRead T.left T.calls T.failed traffic.old traffic.new)
        (Fails refutation.old refutation.new) (S.failed sink.new)
        (λ e. BothMayHaveLeft (N.left network.old) (T.left traffic.old)
        (λ n t. IsRefusedConfirm n t refutation.old e))) }
    ensures answers { AnswersWith S.taken S.failed IsConfirmText sink.old sink.new result }
    ensures order { IfNetworkRefused (N.left network.old) (traffic.new ≡ traffic.old) }
    ensures untouched { IfDocumentsRefused (N.left network.old) (T.left traffic.old)
        (refutation.new ≡ refutation.old) }
{
    confirm_explained(alloc, network, traffic, refutation, &mut Unexplained, sink)
}

/// Does what [`confirm_bytes`] does, and passes what it knows to the explainer.
pub fn confirm_explained<N: Source, T: Source, C: Source, E: Explainer, S: Sink>(
    alloc: Global,
    network: &mut N,
    traffic: &mut T,
    refutation: &mut LineReader<C>,
    explainer: &mut E,
    sink: &mut S,
) -> Result<Answer, Fault>
    ensures answer { IfOk result (λ answer. (answer ≡ Yes) ⊎ (answer ≡ No)) }
    // Yes: not every complete run counts each packet exactly once.
    ensures ok { IfOk result (λ answer.
        BothMayHaveLeft (N.left network.old) (T.left traffic.old) (λ n t.
        Prints (IsConfirmed n t refutation.old answer) (S.taken sink.old) (S.taken sink.new))) }
    ensures err { IfErr result (FailsBy (CannotRead N.left N.calls N.failed network.old network.new)
        (CannotRead T.left T.calls T.failed traffic.old traffic.new)
        (Fails refutation.old refutation.new) (S.failed sink.new)
        (λ e. BothMayHaveLeft (N.left network.old) (T.left traffic.old)
        (λ n t. IsRefusedConfirm n t refutation.old e))) }
    ensures answers { AnswersWith S.taken S.failed IsConfirmText sink.old sink.new result }
    ensures order { IfNetworkRefused (N.left network.old) (traffic.new ≡ traffic.old) }
    ensures untouched { IfDocumentsRefused (N.left network.old) (T.left traffic.old)
        (refutation.new ≡ refutation.old) }
{
    let documents = read_documents(alloc, network, traffic, explainer)?;
    confirm_lines(alloc, &documents, refutation, explainer, sink)
}
