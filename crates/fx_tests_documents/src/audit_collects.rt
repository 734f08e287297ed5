//! Streams that are collected at the network's report, and devices that fail.
use crate::answers::is_refused;
use crate::audit_texts::{NETWORK, ending, seed};
use fx_audit::{Answer, collect_bytes};
use fx_base::{Fault, Fuse, Octets, Room};
use std::alloc::Global;

/// A template of a source address and the two counters, and a record: 10.0.0.1, 2 packets, 300 octets.
const FIRST: [u8; 60] = [
    0x00, 0x0a, 0x00, 0x3c, 0, 0, 0, 2, 0, 0, 0, 0, 0, 0, 0, 0, // the header
    0x00, 0x02, 0x00, 0x14, 0x01, 0x00, 0x00, 0x03, // the template
    0x00, 0x08, 0x00, 0x04, 0x00, 0x01, 0x00, 0x08, 0x00, 0x02, 0x00, 0x08, // its fields
    0x01, 0x00, 0x00, 0x18, 10, 0, 0, 1, 0, 0, 0, 0, 0, 0, 0x01, 0x2c, 0, 0, 0, 0, 0, 0, 0, 2,
];

/// The next message: 10.0.0.1, 1 packet, 300 octets.
const SECOND: [u8; 40] = [
    0x00, 0x0a, 0x00, 0x28, 0, 0, 0, 3, 0, 0, 0, 1, 0, 0, 0, 0, // the header
    0x01, 0x00, 0x00, 0x18, 10, 0, 0, 1, 0, 0, 0, 0, 0, 0, 0x01, 0x2c, 0, 0, 0, 0, 0, 0, 0, 1,
];

/// Returns the outcome of collecting a stream, with its text in this room. The stream fails at a call, or at none for
/// 0.
fn collected(
    alloc: Global,
    network: &[u8],
    stream: &[u8],
    call: u64,
    room: &mut Room<'_>,
) -> Result<Answer, Fault> {
    let mut network = Octets::new(network);
    let mut stream = Fuse::new(Octets::new(stream), call);
    collect_bytes(alloc, seed(), &mut network, &mut stream, room)
}

/// Returns whether collecting a stream at the network's report writes this text.
fn tells(alloc: Global, stream: &[u8], text: &[u8]) -> bool {
    let mut octets = [0u8; 256];
    let mut room = Room::new(&mut octets);
    let outcome = collected(alloc, NETWORK.as_bytes(), stream, 0, &mut room);
    (ending(outcome) == Ok(Answer::Yes)) & (room.octets() == text)
}

/// What is collected from two messages, and from one that arrives a hundred times and has a gap before each repetition.
const SHORT: &[u8] = b"keys 1\n10.0.0.1 packets 3 octets 600\nunassigned 0\ngaps 0\nskipped 0\n";

const LONG: &[u8] =
    b"keys 1\n10.0.0.1 packets 200 octets 30000\nunassigned 0\ngaps 99\nskipped 0\n";

#[test]
fn collects_streams(rt: HostRuntime) {
    let short = [FIRST.as_slice(), SECOND.as_slice()]
        .concat(rt.alloc())
        .expect(&rt, "memory");
    assert!(rt; tells(rt.alloc(), short.as_slice(), SHORT));
    let long = FIRST.repeat(rt.alloc(), 100).expect(&rt, "memory");
    assert!(rt; tells(rt.alloc(), long.as_slice(), LONG));
}

/// Returns whether collecting a stream is refused with this fault, and nothing is written.
fn refuses(alloc: Global, network: &[u8], stream: &[u8], call: u64, fault: &Fault) -> bool {
    let mut octets = [0u8; 256];
    let mut room = Room::new(&mut octets);
    is_refused(collected(alloc, network, stream, call, &mut room), fault) & room.octets().is_empty()
}

/// The network is refused before the stream. In the last case a read fails after the stream's first piece.
#[test]
fn refuses_what_is_wrong_first(rt: HostRuntime) {
    let (alloc, network) = (rt.alloc(), NETWORK.as_bytes());
    assert!(rt;
        refuses(alloc, b"{", &SECOND, 0, &Fault::bare(101))
            & refuses(alloc, network, &SECOND, 0, &Fault::at_octet(617, 0))
            & refuses(alloc, network, &FIRST[..59], 0, &Fault::at_octet(612, 0))
            & refuses(alloc, network, &FIRST, 2, &Fault::bare(901))
    );
}

#[test]
fn fails_without_room(rt: HostRuntime) {
    let mut octets = [0u8; 8];
    let mut room = Room::new(&mut octets);
    let outcome = collected(rt.alloc(), NETWORK.as_bytes(), &FIRST, 0, &mut room);
    assert!(rt; ending(outcome) == Err(902));
}
