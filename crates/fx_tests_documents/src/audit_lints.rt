//! Network documents that are linted, and devices that fail.
use crate::audit_texts::{NETWORK, TRAFFIC, ending};
use fx_audit::{Answer, lint_both_bytes, lint_bytes};
use fx_base::{Fuse, Octets, Room};
use std::alloc::Global;

/// Returns whether linting a document has this outcome and writes this text. Reading it fails at a call, or at none for
/// 0.
fn ends(
    alloc: Global,
    network: &[u8],
    call: u64,
    wanted: Result<Answer, u16>,
    text: &[u8],
) -> bool {
    let mut network = Fuse::new(Octets::new(network), call);
    let mut octets = [0u8; 8];
    let mut room = Room::new(&mut octets);
    let outcome = lint_bytes(alloc, &mut network, &mut room);
    ending(outcome) == wanted && room.octets() == text
}

#[test]
fn lints_a_network(rt: HostRuntime) {
    assert!(rt; ends(rt.alloc(), NETWORK.as_bytes(), 0, Ok(Answer::Yes), b"ok\n"));
}

/// Documents that are no networks, the read that fails, which is used only for the last one, and the number of the
/// fault.
const REFUSED: [(&str, u64, u16); 3] = [("{", 0, 101), ("[]", 0, 104), (NETWORK, 1, 901)];

#[test]
fn refuses_documents_of_no_network(rt: HostRuntime) {
    for (network, call, number) in &REFUSED {
        assert!(rt; ends(rt.alloc(), network.as_bytes(), *call, Err(*number), b""));
    }
}

#[test]
fn fails_without_room(rt: HostRuntime) {
    let mut network = Octets::new(NETWORK.as_bytes());
    let mut octets = [0u8; 2];
    let mut room = Room::new(&mut octets);
    assert!(rt; ending(lint_bytes(rt.alloc(), &mut network, &mut room)) == Err(902));
}

/// Returns whether linting these two documents has this outcome. Reading the traffic fails at a call, or at none for 0.
fn ends_both(
    alloc: Global,
    network: &[u8],
    traffic: &[u8],
    call: u64,
    wanted: Result<Answer, u16>,
) -> bool {
    let mut network = Octets::new(network);
    let mut traffic = Fuse::new(Octets::new(traffic), call);
    let mut octets = [0u8; 8];
    let mut room = Room::new(&mut octets);
    let outcome = lint_both_bytes(alloc, &mut network, &mut traffic, &mut room);
    let text: &[u8] = if outcome.is_ok() { b"ok\n" } else { b"" };
    ending(outcome) == wanted && room.octets() == text
}

/// The traffic isn't read if the network is refused; in the last case its first read would fail.
#[test]
fn lints_traffic_too(rt: HostRuntime) {
    let (alloc, network, traffic) = (rt.alloc(), NETWORK.as_bytes(), TRAFFIC.as_bytes());
    assert!(rt;
        ends_both(alloc, network, traffic, 0, Ok(Answer::Yes))
            & ends_both(alloc, network, b"{\"classes\":7}", 0, Err(104))
            & ends_both(alloc, network, traffic, 1, Err(901))
            & ends_both(alloc, b"[]", traffic, 1, Err(104))
    );
}
