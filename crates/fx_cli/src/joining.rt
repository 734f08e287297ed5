//! The command that joins certified parts of a network, and the sentences about its answer.
ghost use Rattle.std.specs.Prelude.{◌≡◌, ◌⊎◌, IfErr};
ghost use Rattle.fx_base.specs.Device.{IsWriteFault};
ghost use Rattle.fx_checker.specs.Outputs.{AnswersWith};
ghost use Rattle.fx_checker.specs.Running.{IsRefusal};
ghost use Rattle.fx_cli.specs.Running.{IsJoinOutput, IsJoinRefusal};

use crate::files::open;
use crate::notes::Extras;
use crate::sentences::{Progressed, Sentences, is_explained};
use fx_audit::{AcceptedDocuments, Answer};
use fx_base::{Fault, Sink, refusals};
use fx_explain_documents::{
    JoinFinding, put_join_finding, put_refused_network, put_refused_traffic,
};
use fx_join::{JoinExplainer, ProcessName, join_explained};
use fx_plan::NetworkDocument;
use fx_traffic::Traffic;
use fx_words::put_reason;
use std::rt::Files;

/// Joins the certified parts of a network in the given files.
pub(crate) fn join<R: AllocGlobal + Files, S: Sink>(
    rt: &R,
    network: &str,
    traffic: &str,
    parts: &str,
    notes: &mut Extras<'_>,
    sink: &mut S,
) -> Result<Answer, Fault>
    ensures answers { AnswersWith S.taken S.failed IsJoinOutput sink.old sink.new result }
    ensures refused { IfErr result (λ e. IsWriteFault (S.failed sink.new) e
        ⊎ IsRefusal IsJoinRefusal e) }
{
    let mut network = open(rt, network, notes)?;
    let mut traffic = open(rt, traffic, notes)?;
    let mut parts = open(rt, parts, notes)?;
    notes.opened();
    join_explained(
        rt.alloc(),
        &mut network,
        &mut traffic,
        &mut parts,
        &mut notes.sentences,
        sink,
    )
}

impl Sentences<'_> {
    /// Notes the refusal for which a join answers no, at a part.
    fn note_refused_part(&mut self, refusal: u16, part: u64) {
        self.refused = Some(refusal);
        self.note_text_place(format!(in self.alloc; "part {part}"));
    }

    /// Explains what a join finds wrong.
    fn explain_finding(&mut self, finding: &JoinFinding<'_>) {
        if self.are_wanted() {
            let written = put_join_finding(self.alloc, finding, self.words.sink());
            self.words.note(written);
        }
    }

    /// Explains the refusal of a part by a check.
    fn explain_part_fault(&mut self, fault: &Fault) {
        if self.are_wanted() {
            let written = put_reason(self.words.sink(), fault.number);
            self.words.note(written);
        }
    }
}

impl JoinExplainer for Sentences<'_> {
    fn on_whole_network(&mut self, _octets: &[u8], _network: &NetworkDocument) {
        self.progressed = Progressed::Network;
    }

    fn on_refused_whole_network(&mut self, octets: &[u8], fault: &Fault) {
        if self.are_wanted() && is_explained(fault) {
            self.put_name(self.names.network);
            let written = put_refused_network(self.alloc, octets, fault, self.words.sink());
            self.words.note(written);
        }
    }

    fn on_whole_traffic(&mut self, _octets: &[u8], _network: &NetworkDocument, _traffic: &Traffic) {
        self.progressed = Progressed::Traffic;
    }

    fn on_refused_whole_traffic(
        &mut self,
        octets: &[u8],
        network: &NetworkDocument,
        fault: &Fault,
    ) {
        if self.are_wanted() && is_explained(fault) {
            self.put_name(self.names.traffic);
            let sink = self.words.sink();
            let written = put_refused_traffic(self.alloc, octets, network, fault, sink);
            self.words.note(written);
        }
    }

    fn on_no_part(&mut self, number: u64) {
        self.explain_finding(&JoinFinding::NoPart { part: number });
    }

    fn on_refused_part(
        &mut self,
        number: u64,
        fault: &Fault,
        documents: Option<&AcceptedDocuments>,
    ) {
        let finding = JoinFinding::Refused {
            part: number,
            certificate: documents.is_some(),
            fault,
        };
        self.note_refused_part(refusals::PART_REFUSED, number);
        self.explain_finding(&finding);
        self.explain_part_fault(fault);
    }

    fn on_foreign_part(
        &mut self,
        number: u64,
        _documents: &AcceptedDocuments,
        missing: Option<ProcessName<'_>>,
    ) {
        let finding = match missing {
            Some(missing) => JoinFinding::Missing {
                part: number,
                device: missing.device,
                process: missing.process,
            },
            None => JoinFinding::Different { part: number },
        };
        self.note_refused_part(refusals::NOT_A_PART, number);
        self.explain_finding(&finding);
    }

    fn on_uncovered_class(&mut self, index: usize, _network: &NetworkDocument, traffic: &Traffic) {
        self.refused = Some(refusals::CLASS_NOT_COVERED);
        self.note_text_place(format!(in self.alloc; "/classes/{index}"));
        self.explain_finding(&JoinFinding::Uncovered { index, traffic });
    }
}
