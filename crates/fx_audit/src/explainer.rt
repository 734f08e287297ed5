//! What a command passes to the explainer of its answer.

use crate::bundle::Command;
use fx_base::{Fault, Line};
use fx_checker::{AcceptedDocuments, CheckExplainer, Unexplained};
use fx_layout::Layout;
use fx_machine::State;
use fx_pcap::{Frame, Skipped};
use fx_refute::Refutation;
use fx_run_text::Step;

/// The position of a run over a capture: the last packet that was read.
#[derive(Clone, Copy, Drop)]
pub struct PacketAt<'a> {
    /// The packet.
    pub frame: Frame<'a>,
    /// The number of packets that were read, including this one. If it is 0, none was read.
    pub packets: u64,
    /// The frames that were skipped.
    pub skipped: Skipped,
}

/// A receiver of what a command knows when it answers or refuses: besides its documents and the refusal of a
/// certificate, a refutation, a run, a stream or a bundle.
pub trait Explainer: CheckExplainer {
    /// Receives the refutation that an audit found or a confirmation confirmed.
    fn on_refutation(&mut self, documents: &AcceptedDocuments, refutation: &Refutation);

    /// Receives the line at which the text of a run or of a refutation was refused, the last one that was read.
    fn on_refused_line(&mut self, documents: &AcceptedDocuments, line: &Line<'_>, fault: &Fault);

    /// Receives a refutation whose packet isn't in its class.
    fn on_refused_packet(&mut self, documents: &AcceptedDocuments, refutation: &Refutation);

    /// Receives the refutation of which a step was refused, and the state after the steps before it. Steps count from
    /// 1.
    fn on_refused_refutation(
        &mut self,
        documents: &AcceptedDocuments,
        refutation: &Refutation,
        state: &State<'_>,
        number: u64,
        fault: &Fault,
    );

    /// Receives the refutation whose run ended in this state, and isn't complete or has the plain sums.
    fn on_unconfirmed(
        &mut self,
        documents: &AcceptedDocuments,
        refutation: &Refutation,
        last: &State<'_>,
    );

    /// Receives each step of a run before it is made.
    fn on_step(&mut self, step: &Step);

    /// Receives the step of a run that was refused in this state. The line is that of the step, from 1.
    fn on_refused_step(
        &mut self,
        documents: &AcceptedDocuments,
        state: &State<'_>,
        step: &Step,
        line: u64,
        fault: &Fault,
    );

    /// Receives the state in which a replayed run ended.
    fn on_last_state(&mut self, documents: &AcceptedDocuments, state: &State<'_>);

    /// Receives the line at which a run over a capture was refused, the last one of the schedule that was read.
    fn on_refused_metering(
        &mut self,
        documents: &AcceptedDocuments,
        line: &Line<'_>,
        at: &PacketAt<'_>,
        fault: &Fault,
    );

    /// Receives the line at which a text of totals under this key was refused, the last one that was read.
    fn on_refused_totals(&mut self, key: &Layout, line: &Line<'_>, fault: &Fault);

    /// Receives the command of octets that are a bundle.
    fn on_bundle(&mut self, command: Command);

    /// Receives the text that a bundle's command has read, line by line, after the documents, once it has answered.
    fn on_answered_text(&mut self, text: &[u8]);

    /// Receives octets that are no bundle.
    fn on_refused_bundle(&mut self, octets: &[u8], fault: &Fault);
}

impl Explainer for Unexplained {
    fn on_refutation(&mut self, _documents: &AcceptedDocuments, _refutation: &Refutation) {}

    fn on_refused_line(
        &mut self,
        _documents: &AcceptedDocuments,
        _line: &Line<'_>,
        _fault: &Fault,
    ) {}

    fn on_refused_packet(&mut self, _documents: &AcceptedDocuments, _refutation: &Refutation) {}

    fn on_refused_refutation(
        &mut self,
        _documents: &AcceptedDocuments,
        _refutation: &Refutation,
        _state: &State<'_>,
        _number: u64,
        _fault: &Fault,
    ) {}

    fn on_unconfirmed(
        &mut self,
        _documents: &AcceptedDocuments,
        _refutation: &Refutation,
        _last: &State<'_>,
    ) {}

    fn on_step(&mut self, _step: &Step) {}

    fn on_refused_step(
        &mut self,
        _documents: &AcceptedDocuments,
        _state: &State<'_>,
        _step: &Step,
        _line: u64,
        _fault: &Fault,
    ) {}

    fn on_last_state(&mut self, _documents: &AcceptedDocuments, _state: &State<'_>) {}

    fn on_refused_metering(
        &mut self,
        _documents: &AcceptedDocuments,
        _line: &Line<'_>,
        _at: &PacketAt<'_>,
        _fault: &Fault,
    ) {}

    fn on_refused_totals(&mut self, _key: &Layout, _line: &Line<'_>, _fault: &Fault) {}

    fn on_bundle(&mut self, _command: Command) {}

    fn on_answered_text(&mut self, _text: &[u8]) {}

    fn on_refused_bundle(&mut self, _octets: &[u8], _fault: &Fault) {}
}
