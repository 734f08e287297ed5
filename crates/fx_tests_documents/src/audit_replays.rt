//! Runs that are replayed over documents, and devices that fail.
use crate::audit_texts::{NETWORK, RUN, TOTALS, TRAFFIC, ending, seed};
use fx_audit::{Answer, replay_bytes};
use fx_base::{Fuse, LineReader, Octets, Room};
use std::alloc::Global;
use std::process::Abort;

/// Returns the outcome of replaying three texts, with the answer in this room. The network's reader fails at a call, or
/// at none for 0.
fn replayed(
    rt: &impl Abort,
    alloc: Global,
    texts: [&[u8]; 3],
    call: u64,
    room: &mut Room<'_>,
) -> Result<Answer, u16> {
    let [network, traffic, run] = texts;
    let mut network = Fuse::new(Octets::new(network), call);
    let mut traffic = Octets::new(traffic);
    let mut lines = LineReader::new(alloc, Octets::new(run)).expect(rt, "memory");
    ending(replay_bytes(alloc, seed(), &mut network, &mut traffic, &mut lines, room))
}

/// Returns whether replaying three texts has this outcome and writes this text.
fn ends(
    rt: &impl Abort,
    alloc: Global,
    texts: [&[u8]; 3],
    wanted: Result<Answer, u16>,
    text: &[u8],
) -> bool {
    let mut octets = [0u8; 256];
    let mut room = Room::new(&mut octets);
    (replayed(rt, alloc, texts, 0, &mut room) == wanted) & (room.octets() == text)
}

/// A run whose record remains in the cache.
const OPEN: &[u8] = b"once-run 1\npacket 1 1 10.0.0.1 192.0.2.1 6 1000 80 0 1\ncross 1 1 n\nend\n";

#[test]
fn replays_runs(rt: HostRuntime) {
    let (network, traffic, yes) = (NETWORK.as_bytes(), TRAFFIC.as_bytes(), Ok(Answer::Yes));
    let nothing = b"keys 0\nunassigned 0\ncomplete no\n";
    assert!(rt;
        ends(&rt, rt.alloc(), [network, traffic, RUN], yes, TOTALS)
            & ends(&rt, rt.alloc(), [network, traffic, OPEN], yes, nothing)
    );
}

/// A network, traffic and a run, at least one of which is wrong, and the number of the first fault.
const REFUSED: [(&str, &str, &[u8], u16); 9] = [
    ("{", "{", b"", 101),
    ("{}", "{", b"", 103),
    (NETWORK, "7", b"", 104),
    (NETWORK, TRAFFIC, b"", 855),
    (NETWORK, TRAFFIC, b"once-run 1\narrive 1 1\nend\n", 853),
    (
        NETWORK,
        TRAFFIC,
        b"once-run 1\nexpire cache 2 1 1\nend\n",
        851,
    ),
    (
        NETWORK,
        TRAFFIC,
        b"once-run 1\narrive 1 1\nexpire cache 2 1 1\nend\n",
        853,
    ),
    (
        NETWORK,
        TRAFFIC,
        b"once-run 1\narrive 1 1\nexpire cache 2 1 01\nend\n",
        855,
    ),
    (
        NETWORK,
        TRAFFIC,
        b"once-run 1\narrive 1 1\narrive 1 1\n",
        855,
    ),
];

#[test]
fn refuses_the_first_wrong_text(rt: HostRuntime) {
    for (network, traffic, run, number) in &REFUSED {
        let texts = [network.as_bytes(), traffic.as_bytes(), *run];
        assert!(rt; ends(&rt, rt.alloc(), texts, Err(*number), b""));
    }
}

#[test]
fn refuses_traffic_that_is_no_text(rt: HostRuntime) {
    assert!(rt;
        ends(
            &rt,
            rt.alloc(),
            [NETWORK.as_bytes(), b"\xff", b""],
            Err(101),
            b""
        )
    );
}

#[test]
fn fails_with_its_devices(rt: HostRuntime) {
    let texts = [NETWORK.as_bytes(), TRAFFIC.as_bytes(), RUN];
    let mut octets = [0u8; 256];
    let unread = replayed(&rt, rt.alloc(), texts, 1, &mut Room::new(&mut octets));
    let mut octets = [0u8; 8];
    let unwritten = replayed(&rt, rt.alloc(), texts, 0, &mut Room::new(&mut octets));
    assert!(rt; (unread == Err(901)) & (unwritten == Err(902)));
}
