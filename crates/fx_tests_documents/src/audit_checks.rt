//! Certificates that are checked over documents, a reader of one that fails, and what a check is made of.
use crate::audit_texts::{CERTIFICATE, NETWORK, TRAFFIC, ending};
use fx_audit::{Answer, check_bytes};
use fx_base::{Fault, Fuse, LineReader, Octets, Room};
use fx_checker::{Unexplained, answer_refusal, network_from, read_documents};
use std::alloc::Global;
use std::process::Abort;

/// Returns whether checking a certificate in the network has this outcome and writes this text. The certificate's
/// reader fails at a call, or at none for 0.
fn ends(
    rt: &impl Abort,
    alloc: Global,
    certificate: &[u8],
    call: u64,
    wanted: Result<Answer, u16>,
    text: &[u8],
) -> bool {
    let mut network = Octets::new(NETWORK.as_bytes());
    let mut traffic = Octets::new(TRAFFIC.as_bytes());
    let source = Fuse::new(Octets::new(certificate), call);
    let mut lines = LineReader::new(alloc, source).expect(rt, "memory");
    let mut octets = [0u8; 64];
    let mut room = Room::new(&mut octets);
    let outcome = check_bytes(alloc, &mut network, &mut traffic, &mut lines, &mut room);
    (ending(outcome) == wanted) & (room.octets() == text)
}

/// A certificate that names another selection process.
const OTHER: &[u8] = b"once-certificate 1\nclass 1 path 1\nL 1 1 2\nend\n";

/// Certificates, the call that fails, the outcome of checking them, and what is written.
const CHECKED: [(&[u8], u64, Result<Answer, u16>, &[u8]); 4] = [
    (CERTIFICATE, 0, Ok(Answer::Yes), b"yes\n"),
    (OTHER, 0, Ok(Answer::No), b"no 410 line 3\n"),
    (CERTIFICATE, 1, Err(901), b""),
    (CERTIFICATE, 2, Err(901), b""),
];

#[test]
fn checks_a_certificate(rt: HostRuntime) {
    for (certificate, call, wanted, text) in &CHECKED {
        assert!(rt; ends(&rt, rt.alloc(), *certificate, *call, *wanted, *text));
    }
}

/// Returns the number of the fault with which reading these octets as a network document fails, or 0.
fn network_fault(alloc: Global, octets: &[u8]) -> u16 {
    match network_from(alloc, &mut Octets::new(octets), &mut Unexplained) {
        Ok(_) => 0,
        Err(fault) => fault.number,
    }
}

/// Returns the number of the fault with which reading these documents fails, or 0.
fn documents_fault(alloc: Global, network: &[u8], traffic: &[u8]) -> u16 {
    let mut network = Octets::new(network);
    let mut traffic = Octets::new(traffic);
    match read_documents(alloc, &mut network, &mut traffic, &mut Unexplained) {
        Ok(_) => 0,
        Err(fault) => fault.number,
    }
}

#[test]
fn reads_documents(rt: HostRuntime) {
    assert!(rt; network_fault(rt.alloc(), NETWORK.as_bytes()) == 0);
    assert!(rt; network_fault(rt.alloc(), b"{") == 101);
    assert!(rt; documents_fault(rt.alloc(), NETWORK.as_bytes(), TRAFFIC.as_bytes()) == 0);
    assert!(rt; documents_fault(rt.alloc(), NETWORK.as_bytes(), b"{}") == 103);
}

/// Returns whether a refusal, answered no if its number is in 401 to 415, has this outcome and writes this text.
fn is_answered(fault: Fault, wanted: Result<Answer, u16>, text: &[u8]) -> bool {
    let mut octets = [0u8; 64];
    let mut room = Room::new(&mut octets);
    let outcome = answer_refusal(&mut room, fault, 401, 415);
    (ending(outcome) == wanted) & (room.octets() == text)
}

#[test]
fn answers_refusals(rt: HostRuntime) {
    assert!(rt; is_answered(Fault::at_line(415, 3), Ok(Answer::No), b"no 415 line 3\n"));
    assert!(rt; is_answered(Fault::bare(900), Err(900), b""));
}
