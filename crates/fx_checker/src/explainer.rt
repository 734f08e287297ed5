//! What a check passes to the explainer of its answer.

use crate::document::AcceptedDocuments;
use fx_base::{Fault, Line};
use fx_check::Due;
use fx_plan::Plan;
use fx_traffic::Traffic;

/// A receiver of what a command knows about its two documents and about a refused certificate. Its methods take shared
/// references and return nothing, and no clause about an answer names the explainer, so an answer is the same whoever
/// explains it.
pub trait CheckExplainer: Drop {
    /// Receives the accepted network document.
    fn on_network(&mut self, octets: &[u8], plan: &Plan);

    /// Receives the refused network document.
    fn on_refused_network(&mut self, octets: &[u8], fault: &Fault);

    /// Receives the accepted traffic declaration.
    fn on_traffic(&mut self, octets: &[u8], plan: &Plan, traffic: &Traffic);

    /// Receives the traffic declaration that was refused for this network.
    fn on_refused_traffic(&mut self, octets: &[u8], plan: &Plan, fault: &Fault);

    /// Receives the refusal of a certificate: what the line had to be, and the line, which is `None` if the text ends
    /// before it.
    fn on_refused_certificate(
        &mut self,
        documents: &AcceptedDocuments,
        due: &Due<'_>,
        line: Option<&Line<'_>>,
        fault: &Fault,
    );
}

/// An explainer that explains nothing.
#[derive(Debug, Drop)]
pub struct Unexplained;

impl CheckExplainer for Unexplained {
    fn on_network(&mut self, _octets: &[u8], _plan: &Plan) {}

    fn on_refused_network(&mut self, _octets: &[u8], _fault: &Fault) {}

    fn on_traffic(&mut self, _octets: &[u8], _plan: &Plan, _traffic: &Traffic) {}

    fn on_refused_traffic(&mut self, _octets: &[u8], _plan: &Plan, _fault: &Fault) {}

    fn on_refused_certificate(
        &mut self,
        _documents: &AcceptedDocuments,
        _due: &Due<'_>,
        _line: Option<&Line<'_>>,
        _fault: &Fault,
    ) {}
}
