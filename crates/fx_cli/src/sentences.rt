//! Sentences that explain a command's answer, made from what the command lends.

use crate::bundles::put_bundle_words;
use crate::file_names::{BUNDLE, FileNames};
use crate::gathering::Gathered;
use fx_audit::{AcceptedDocuments, Answer, Command, Explainer, PacketAt};
use fx_base::{Fault, Line, Place, refusals};
use fx_check::Due;
use fx_checker::CheckExplainer;
use fx_command_line::Call;
use fx_explain_documents::{
    put_network_notes, put_refused_network, put_refused_traffic, put_traffic_notes,
};
use fx_explain_runs::{
    packet_in_line, put_refused_certificate, put_refused_metering, put_refused_packet,
    put_refused_replay, put_refused_step, put_refused_totals, put_refutation_story, put_text_line,
    put_unconfirmed_refutation,
};
use fx_explain_streams::{StreamWatch, put_left_out, put_refused_capture, put_refused_message};
use fx_json_answers::{certificate_fact, refutation_fact};
use fx_layout::Layout;
use fx_machine::State;
use fx_plan::Plan;
use fx_refute::Refutation;
use fx_run_text::{Choices, Step};
use fx_tables::Packet;
use fx_traffic::Traffic;
use serde_json::Value;
use std::alloc::{AllocError, Global};
use std::mem;

/// How far a command has come with its files.
#[derive(Clone, Copy)]
pub(crate) enum Progressed {
    /// They aren't open.
    Begun,
    /// They are open.
    Opened,
    /// The network was accepted.
    Network,
    /// The traffic was accepted too.
    Traffic,
}

/// Which sentences are asked for.
#[derive(Clone, Copy)]
pub(crate) enum Wanted {
    /// None.
    Nothing,
    /// Those about the answer.
    Answer,
    /// Those about the answer, and about what the documents say silently.
    AnswerAndNotes,
}

/// Returns which sentences a call wants that is to be explained.
pub(crate) fn wanted_of(call: &Call) -> Wanted {
    match call {
        Call::Audit { .. } | Call::Check { .. } | Call::Lint { .. } => Wanted::AnswerAndNotes,
        _ => Wanted::Answer,
    }
}

/// Explains the answer of a command in sentences.
pub(crate) struct Sentences<'a> {
    pub(crate) alloc: Global,
    wanted: Wanted,
    /// How far the command has come.
    pub(crate) progressed: Progressed,
    /// The names of its files.
    pub(crate) names: FileNames<'a>,
    /// The command of a bundle.
    pub(crate) command: Option<Command>,
    /// For what the last text was refused.
    pub(crate) refused: Option<u16>,
    /// The line of that.
    line: Option<u64>,
    /// The key of the report.
    pub(crate) key: Option<Layout>,
    /// Whether facts are gathered for a JSON object.
    gathers_facts: bool,
    /// Facts about the answer or the refusal.
    facts: Vec<Value>,
    /// The place for which the last text was refused, as the answer prints it.
    place: Place,
    /// The steps of a run that were tried, without their choices.
    steps: Vec<Step>,
    /// About the answer or the refusal.
    pub(crate) words: Gathered,
    /// About what the documents say silently.
    pub(crate) notes: Gathered,
}

impl Drop for Sentences<'_> {
    /// Drops its parts in one place.
    fn drop(self) {
        let Self {
            alloc: _,
            wanted: _,
            progressed: _,
            names: _,
            command: _,
            refused: _,
            line: _,
            key: _,
            gathers_facts: _,
            facts: _,
            place: _,
            steps: _,
            words: _,
            notes: _,
        } = self;
    }
}

impl<'a> Sentences<'a> {
    /// Returns sentences about files of these names, of which there are none yet.
    pub(crate) fn new(alloc: Global, wanted: Wanted, names: FileNames<'a>) -> Sentences<'a> {
        Sentences {
            alloc,
            wanted,
            progressed: Progressed::Begun,
            names,
            command: None,
            refused: None,
            line: None,
            key: None,
            gathers_facts: false,
            facts: Vec::new(alloc),
            place: Place::None,
            steps: Vec::new(alloc),
            words: Gathered::new(alloc),
            notes: Gathered::new(alloc),
        }
    }

    /// Returns whether any are asked for.
    pub(crate) fn are_wanted(&self) -> bool {
        !matches!(self.wanted, Wanted::Nothing)
    }

    /// Returns whether those about documents are asked for.
    fn wants_notes(&self) -> bool {
        matches!(self.wanted, Wanted::AnswerAndNotes)
    }

    /// Returns those about the answer, of which there are none from then on.
    pub(crate) fn take_words(&mut self) -> Gathered {
        mem::replace(&mut self.words, Gathered::new(self.alloc))
    }

    /// Returns those about what the documents say silently, of which there are none from then on.
    pub(crate) fn take_notes(&mut self) -> Gathered {
        mem::replace(&mut self.notes, Gathered::new(self.alloc))
    }

    /// Gathers facts for a JSON object from now on.
    pub(crate) fn gather_facts(&mut self) {
        self.gathers_facts = true;
    }

    /// Returns whether facts are gathered.
    pub(crate) fn gathers_facts(&self) -> bool {
        self.gathers_facts
    }

    /// Returns the facts about the answer, of which there are none from then on.
    pub(crate) fn take_facts(&mut self) -> Vec<Value> {
        mem::replace(&mut self.facts, Vec::new(self.alloc))
    }

    /// Returns the place for which the last text was refused; there is none from then on.
    pub(crate) fn take_place(&mut self) -> Place {
        mem::replace(&mut self.place, Place::None)
    }

    /// Notes a place that a text describes. If the text could not be made, there is no explanation.
    pub(crate) fn note_text_place(&mut self, made: Result<String, AllocError>) {
        match made {
            Ok(text) => self.place = Place::Text(text),
            Err(_) => self.words.fail(),
        }
    }

    /// Notes a fact. If it could not be made, there is no explanation.
    fn note_fact(&mut self, made: Result<Value, AllocError>) {
        match made {
            Ok(fact) => {
                if self.facts.push(fact).is_err() {
                    self.words.fail();
                }
            }
            Err(_) => self.words.fail(),
        }
    }

    /// Notes the line for which a text is refused, as the answer prints it: 501 has none.
    fn note_line(&mut self, fault: &Fault) {
        if let Place::Line(line) = &fault.place {
            if fault.number != refusals::REFUTATION_FORM {
                self.place = Place::Line(*line);
            }
        }
    }

    /// Writes the name of a file that is refused.
    pub(crate) fn put_name(&mut self, name: &str) {
        self.words.text(b"file: ");
        self.words.text(name.as_bytes());
        self.words.text(b"\n");
    }
}

impl Sentences<'_> {
    /// Explains a refusal of a capture, of which these are the first octets.
    pub(crate) fn explain_capture(&mut self, head: &[u8], answer: &Result<Answer, Fault>) {
        let Err(fault) = answer else {
            return;
        };
        let is_of_capture = (refusals::CAPTURE_FORMAT..=refusals::LONG_CAPTURE_RECORD).contains(
            &fault.number,
        );
        if self.are_wanted() && is_of_capture {
            let written = put_refused_capture(self.alloc, head, fault, self.words.sink());
            self.words.note(written);
        }
    }

    /// Notes for what the last text is refused.
    fn note_refusal(&mut self, fault: &Fault) {
        self.refused = Some(fault.number);
        self.note_line(fault);
        if let Place::Line(line) = &fault.place {
            self.line = Some(*line);
        }
    }

    /// Explains why a stream is refused, or what its totals leave out.
    pub(crate) fn explain_stream(&mut self, watch: &StreamWatch, answer: &Result<Answer, Fault>) {
        if !self.are_wanted() {
            return;
        }
        let written = match answer {
            Ok(_) => put_left_out(watch, self.words.sink()),
            Err(fault) if is_of_message(fault) => put_refused_message(watch, self.words.sink()),
            Err(_) => Ok(()),
        };
        self.words.note(written);
    }

    /// Explains why the packet in a line isn't in its class.
    fn put_packet(&mut self, documents: &AcceptedDocuments, line: u64, packet: &Packet) {
        let documents = lent(documents);
        let sink = self.words.sink();
        let written = put_refused_packet(self.alloc, &documents, line, packet, sink);
        self.words.note(written);
    }

    /// Explains a refusal at a line of a text whose octets were kept, before what was explained of it.
    pub(crate) fn explain_line(&mut self, text: Option<&[u8]>) {
        let (Some(number), Some(line), Some(text)) = (self.refused, self.line, text) else {
            return;
        };
        let more = mem::replace(&mut self.words, Gathered::new(self.alloc));
        let written = put_text_line(self.alloc, text, line, number, self.words.sink());
        self.words.note(written);
        self.words.all_of(more);
    }

    /// Explains a refusal of totals, whose octets were kept.
    pub(crate) fn explain_totals(&mut self, totals: Option<&[u8]>, answer: &Result<Answer, Fault>) {
        let (Err(fault), Some(totals)) = (answer, totals) else {
            return;
        };
        if fault.number == refusals::TOTALS_FORM {
            let key = self.key.as_ref();
            let written = put_refused_totals(self.alloc, key, totals, fault, self.words.sink());
            self.words.note(written);
        }
    }
}

/// Returns whether a refusal is that of a message of a stream.
fn is_of_message(fault: &Fault) -> bool {
    (refusals::MESSAGE_VERSION..=refusals::PREFIX_LENGTH).contains(&fault.number)
}

/// The line of a refutation's packet.
const PACKET_LINE: u64 = 2;

/// Returns a step without its choices, which is enough to find it again.
fn without_choices(alloc: Global, step: &Step) -> Step {
    let choices = Choices::new(Vec::new(alloc));
    match step {
        Step::Cross {
            packet,
            crossing,
            ..
        } => Step::Cross {
            packet: *packet,
            crossing: *crossing,
            choices,
        },
        Step::Expire {
            holder,
            position,
            ..
        } => Step::Expire {
            holder: *holder,
            position: *position,
            choices,
        },
        Step::Arrive { link, position, .. } => Step::Arrive {
            link: *link,
            position: *position,
            choices,
        },
    }
}

/// Returns these steps without the last one.
fn all_but_last(steps: &[Step]) -> &[Step] {
    match steps {
        [before @ .., _] => before,
        [] => steps,
    }
}

/// Lends two documents to what explains them.
fn lent(documents: &AcceptedDocuments) -> fx_explanation::Documents<'_> {
    fx_explanation::Documents {
        plan: &documents.plan,
        traffic: &documents.traffic,
    }
}

/// Returns whether a refusal is explained: not where memory runs out, nor where a file can't be read.
pub(crate) fn is_explained(fault: &Fault) -> bool {
    fault.number < refusals::WANT_OF_MEMORY
}

impl CheckExplainer for Sentences<'_> {
    fn on_network(&mut self, octets: &[u8], plan: &Plan) {
        self.progressed = Progressed::Network;
        if self.gathers_facts {
            self.key = Some(plan.net().report_layout().copy());
        }
        if self.wants_notes() {
            let written = put_network_notes(self.alloc, octets, plan, self.notes.sink());
            self.notes.note(written);
        }
    }

    fn on_refused_network(&mut self, octets: &[u8], fault: &Fault) {
        if self.are_wanted() && is_explained(fault) {
            self.put_name(self.names.network);
            let written = put_refused_network(self.alloc, octets, fault, self.words.sink());
            self.words.note(written);
        }
    }

    fn on_traffic(&mut self, octets: &[u8], plan: &Plan, traffic: &Traffic) {
        self.progressed = Progressed::Traffic;
        if self.wants_notes() {
            let documents = fx_explanation::Documents { plan, traffic };
            let sink = self.notes.sink();
            let written = put_traffic_notes(self.alloc, octets, &documents, sink);
            self.notes.note(written);
        }
    }

    fn on_refused_traffic(&mut self, octets: &[u8], plan: &Plan, fault: &Fault) {
        if self.are_wanted() && is_explained(fault) {
            self.put_name(self.names.traffic);
            let sink = self.words.sink();
            let written = put_refused_traffic(self.alloc, octets, plan.network(), fault, sink);
            self.words.note(written);
        }
    }

    fn on_refused_certificate(
        &mut self,
        documents: &AcceptedDocuments,
        due: &Due<'_>,
        line: Option<&Line<'_>>,
        fault: &Fault,
    ) {
        self.refused = Some(fault.number);
        self.note_line(fault);
        let documents = lent(documents);
        if self.gathers_facts {
            self.note_fact(certificate_fact(self.alloc, &documents, due, line));
        }
        if self.are_wanted() && is_explained(fault) {
            let sink = self.words.sink();
            let written = put_refused_certificate(self.alloc, &documents, due, line, fault, sink);
            self.words.note(written);
        }
    }
}

impl Explainer for Sentences<'_> {
    fn on_refutation(&mut self, documents: &AcceptedDocuments, refutation: &Refutation) {
        let documents = lent(documents);
        if self.gathers_facts {
            self.note_fact(refutation_fact(self.alloc, &documents, refutation));
        }
        if self.are_wanted() {
            let sink = self.words.sink();
            let written = put_refutation_story(self.alloc, &documents, refutation, sink);
            self.words.note(written);
        }
    }

    fn on_refused_line(&mut self, documents: &AcceptedDocuments, line: &Line<'_>, fault: &Fault) {
        self.note_refusal(fault);
        if !self.are_wanted() || fault.number != refusals::RUN_PACKET {
            return;
        }
        if let Some(packet) = packet_in_line(self.alloc, line.bytes) {
            self.put_packet(documents, line.number, &packet);
        }
    }

    fn on_refused_packet(&mut self, documents: &AcceptedDocuments, refutation: &Refutation) {
        self.refused = Some(refusals::REFUTATION_PACKET);
        self.line = Some(PACKET_LINE);
        self.place = Place::Line(PACKET_LINE);
        if self.are_wanted() {
            self.put_packet(documents, PACKET_LINE, refutation.packet());
        }
    }

    fn on_refused_refutation(
        &mut self,
        documents: &AcceptedDocuments,
        refutation: &Refutation,
        state: &State<'_>,
        number: u64,
        fault: &Fault,
    ) {
        self.refused = Some(refusals::REFUTATION_STEP);
        self.place = Place::Line(number.saturating_add(PACKET_LINE));
        let before = number.saturating_sub(1) as usize;
        let steps = refutation.steps();
        if let (true, Some(step)) = (self.are_wanted(), steps.get(before)) {
            let written = put_refused_step(
                self.alloc,
                &lent(documents),
                state,
                steps.get(..before).unwrap_or(&[]),
                number.saturating_add(PACKET_LINE),
                step,
                fault,
                self.words.sink(),
            );
            self.words.note(written);
        }
    }

    fn on_unconfirmed(
        &mut self,
        documents: &AcceptedDocuments,
        refutation: &Refutation,
        last: &State<'_>,
    ) {
        let number = if last.complete() {
            refusals::TOTALS_AGREE
        } else {
            refusals::RUN_NOT_COMPLETE
        };
        self.refused = Some(number);
        if self.are_wanted() {
            let documents = lent(documents);
            let sink = self.words.sink();
            let written = put_unconfirmed_refutation(
                self.alloc, &documents, refutation, number, last, sink,
            );
            self.words.note(written);
        }
    }

    fn on_step(&mut self, step: &Step) {
        if self.are_wanted() && self.steps.push(without_choices(self.alloc, step)).is_err() {
            self.words.fail();
        }
    }

    fn on_refused_step(
        &mut self,
        documents: &AcceptedDocuments,
        state: &State<'_>,
        step: &Step,
        line: u64,
        fault: &Fault,
    ) {
        if self.are_wanted() {
            let documents = lent(documents);
            let sink = self.words.sink();
            let before = all_but_last(self.steps.as_slice());
            let written = put_refused_step(
                self.alloc, &documents, state, before, line, step, fault, sink,
            );
            self.words.note(written);
        }
    }

    fn on_last_state(&mut self, documents: &AcceptedDocuments, state: &State<'_>) {
        if self.are_wanted() {
            let documents = lent(documents);
            let sink = self.words.sink();
            let written = put_refused_replay(self.alloc, &documents, state, sink);
            self.words.note(written);
        }
    }

    fn on_refused_metering(
        &mut self,
        documents: &AcceptedDocuments,
        line: &Line<'_>,
        at: &PacketAt<'_>,
        fault: &Fault,
    ) {
        if !self.are_wanted() {
            return;
        }
        match fault.number {
            refusals::NOTHING_THERE..=refusals::IN_NO_CLASS => {
                let documents = lent(documents);
                let sink = self.words.sink();
                let written = put_refused_metering(
                    self.alloc, &documents, line, &at.frame, at.packets, at.skipped, fault, sink,
                );
                self.words.note(written);
            }
            _ => self.on_refused_line(documents, line, fault),
        }
    }

    fn on_refused_totals(&mut self, key: &Layout, _line: &Line<'_>, _fault: &Fault) {
        self.key = Some(key.copy());
    }

    fn on_bundle(&mut self, command: Command) {
        self.command = Some(command);
        self.names = BUNDLE;
        self.progressed = Progressed::Opened;
        if self.are_wanted() && matches!(command, Command::Audit | Command::Check) {
            self.wanted = Wanted::AnswerAndNotes;
        }
    }

    fn on_answered_text(&mut self, text: &[u8]) {
        if self.are_wanted() {
            self.explain_line(Some(text));
        }
    }

    fn on_refused_bundle(&mut self, octets: &[u8], _fault: &Fault) {
        if self.are_wanted() {
            put_bundle_words(octets, &mut self.words);
        }
    }
}
