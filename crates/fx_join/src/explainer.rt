//! What a join passes to the explainer of its answer.

use fx_base::{Fault, Name};
use fx_checker::{AcceptedDocuments, Unexplained};
use fx_plan::NetworkDocument;
use fx_traffic::Traffic;

/// A collecting process, by the name of its device and its own.
#[derive(Clone, Copy)]
pub struct ProcessName<'n> {
    pub device: &'n Name,
    pub process: &'n Name,
}

/// A receiver of what a join knows about the whole and about a part that is refused. Its methods take shared references
/// and return nothing, and no clause about an answer names the explainer, so an answer is the same whoever explains it.
pub trait JoinExplainer: Drop {
    /// Receives the accepted network document of the whole.
    fn on_whole_network(&mut self, octets: &[u8], network: &NetworkDocument);

    /// Receives the refused network document of the whole.
    fn on_refused_whole_network(&mut self, octets: &[u8], fault: &Fault);

    /// Receives the accepted traffic declaration of the whole.
    fn on_whole_traffic(&mut self, octets: &[u8], network: &NetworkDocument, traffic: &Traffic);

    /// Receives the traffic declaration that was refused for the network of the whole.
    fn on_refused_whole_traffic(&mut self, octets: &[u8], network: &NetworkDocument, fault: &Fault);

    /// Receives the 1-based number at which the parts don't continue with a part.
    fn on_no_part(&mut self, number: u64);

    /// Receives a part that a check doesn't accept: its 1-based number, its fault, and its documents if only its
    /// certificate is refused.
    fn on_refused_part(
        &mut self,
        number: u64,
        fault: &Fault,
        documents: Option<&AcceptedDocuments>,
    );

    /// Receives a certified part whose network is not a part of the whole: its 1-based number, its documents, and the
    /// first of its collecting processes that the whole doesn't have. `None`: the whole has all of them, but what one
    /// does with a record differs, or the report.
    fn on_foreign_part(
        &mut self,
        number: u64,
        documents: &AcceptedDocuments,
        missing: Option<ProcessName<'_>>,
    );

    /// Receives the 0-based index of the first class of the whole that no part covers.
    fn on_uncovered_class(&mut self, index: usize, network: &NetworkDocument, traffic: &Traffic);
}

impl JoinExplainer for Unexplained {
    fn on_whole_network(&mut self, _octets: &[u8], _network: &NetworkDocument) {}

    fn on_refused_whole_network(&mut self, _octets: &[u8], _fault: &Fault) {}

    fn on_whole_traffic(
        &mut self,
        _octets: &[u8],
        _network: &NetworkDocument,
        _traffic: &Traffic,
    ) {}

    fn on_refused_whole_traffic(
        &mut self,
        _octets: &[u8],
        _network: &NetworkDocument,
        _fault: &Fault,
    ) {}

    fn on_no_part(&mut self, _number: u64) {}

    fn on_refused_part(
        &mut self,
        _number: u64,
        _fault: &Fault,
        _documents: Option<&AcceptedDocuments>,
    ) {}

    fn on_foreign_part(
        &mut self,
        _number: u64,
        _documents: &AcceptedDocuments,
        _missing: Option<ProcessName<'_>>,
    ) {}

    fn on_uncovered_class(
        &mut self,
        _index: usize,
        _network: &NetworkDocument,
        _traffic: &Traffic,
    ) {}
}
