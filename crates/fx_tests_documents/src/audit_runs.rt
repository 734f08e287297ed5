//! Networks that run over captures, and what refuses them.
use crate::audit_texts::{NETWORK, TRAFFIC, ending, seed};
use fx_audit::{Answer, run_bytes};
use fx_base::{Fuse, LineReader, Octets, Room, Sink, Source};
use fx_link::{Links, Nowhere, Sinks};
use std::alloc::Global;
use std::process::Abort;

/// A capture (pcap) of three raw IP packets from 10.0.0.1: 100, 200 and 300 octets long, 1, 2 and 3 seconds after 1970.
pub(crate) const CAPTURE: [u8; 132] = [
    0xa1, 0xb2, 0xc3, 0xd4, 0, 2, 0, 4, 0, 0, 0, 0, 0, 0, 0, 0, 0, 4, 0, 0, 0, 0, 0, 0x65, // the file header
    0, 0, 0, 1, 0, 0, 0, 0, 0, 0, 0, 0x14, 0, 0, 0, 0x64, // the first record
    0x45, 0, 0, 0x64, 0, 0, 0, 0, 0x40, 1, 0, 0, 10, 0, 0, 1, 192, 0, 2, 1, // its packet
    0, 0, 0, 2, 0, 0, 0, 0, 0, 0, 0, 0x14, 0, 0, 0, 0xc8, // the second one
    0x45, 0, 0, 0xc8, 0, 0, 0, 0, 0x40, 1, 0, 0, 10, 0, 0, 1, 192, 0, 2, 1, // its packet
    0, 0, 0, 3, 0, 0, 0, 0, 0, 0, 0, 0x14, 0, 0, 1, 0x2c, // the third one
    0x45, 0, 1, 0x2c, 0, 0, 0, 0, 0x40, 1, 0, 0, 10, 0, 0, 1, 192, 0, 2, 1, // its packet
];

/// What is sent on the link: a message with a template and a record of 2 packets and 300 octets, which left the cache
/// after the second packet, and one with a record of 1 packet and 300 octets, which left it in the closing phase.
const ON_THE_LINK: [u8; 100] = [
    0x00, 0x0a, 0x00, 0x3c, 0, 0, 0, 2, 0, 0, 0, 0, 0, 0, 0, 0, // the first header
    0x00, 0x02, 0x00, 0x14, 0x01, 0x00, 0x00, 0x03, // the template
    0x00, 0x08, 0x00, 0x04, 0x00, 0x01, 0x00, 0x08, 0x00, 0x02, 0x00, 0x08, // its fields
    0x01, 0x00, 0x00, 0x18, 10, 0, 0, 1, 0, 0, 0, 0, 0, 0, 0x01, 0x2c, 0, 0, 0, 0, 0, 0, 0, 2,
    0x00, 0x0a, 0x00, 0x28, 0, 0, 0, 3, 0, 0, 0, 1, 0, 0, 0, 0, // the second header
    0x01, 0x00, 0x00, 0x18, 10, 0, 0, 1, 0, 0, 0, 0, 0, 0, 0x01, 0x2c, 0, 0, 0, 0, 0, 0, 0, 1,
];

/// A schedule under which the first two packets are exported before the third is read.
pub(crate) const SCHEDULE: &[u8] = b"next\nnext\nexpire 1 1\nnext\n";

/// What the collector has counted under this schedule.
const TOTALS: &[u8] =
    b"keys 1\n10.0.0.1 packets 3 octets 600\nunassigned 0\nskipped other 0 malformed 0\n";

/// Returns the outcome of running the network over this traffic, with this capture, schedule, links and sink.
fn ran<C: Source, Q: Source, L: Links, S: Sink>(
    rt: &impl Abort,
    alloc: Global,
    traffic: &[u8],
    mut capture: C,
    schedule: Q,
    links: &mut L,
    sink: &mut S,
) -> Result<Answer, u16> {
    let mut network = Octets::new(NETWORK.as_bytes());
    let mut traffic = Octets::new(traffic);
    let mut schedule = LineReader::new(alloc, schedule).expect(rt, "memory");
    ending(run_bytes(
        alloc,
        seed(),
        &mut network,
        &mut traffic,
        &mut capture,
        &mut schedule,
        links,
        sink,
    ))
}

#[test]
fn runs_over_a_capture(rt: HostRuntime) {
    let mut store = [0u8; 128];
    let mut rooms = Vec::new(rt.alloc());
    rooms.push(Room::new(&mut store)).expect(&rt, "memory");
    let mut links = Sinks::new(rooms);
    let mut octets = [0u8; 128];
    let mut room = Room::new(&mut octets);
    let ended = ran(
        &rt,
        rt.alloc(),
        TRAFFIC.as_bytes(),
        Octets::new(&CAPTURE),
        Octets::new(SCHEDULE),
        &mut links,
        &mut room,
    );
    let is_put = match links.as_slice() {
        [link] => link.octets() == ON_THE_LINK.as_slice(),
        _ => false,
    };
    assert!(rt; is_put & (ended == Ok(Answer::Yes)) & (room.octets() == TOTALS));
}

/// Returns whether a run over these octets is refused with this number and writes nothing. What it sends on links is
/// dropped.
fn refuses(
    rt: &impl Abort,
    alloc: Global,
    traffic: &[u8],
    capture: &[u8],
    schedule: &[u8],
    number: u16,
) -> bool {
    let mut octets = [0u8; 128];
    let mut room = Room::new(&mut octets);
    let ended = ran(
        rt,
        alloc,
        traffic,
        Octets::new(capture),
        Octets::new(schedule),
        &mut Nowhere,
        &mut room,
    );
    (ended == Err(number)) & room.octets().is_empty()
}

/// Faults of the documents precede those of the capture's header, which precede those of the schedule; those of a line
/// precede those of a later record.
#[test]
fn refuses_what_is_wrong_first(rt: HostRuntime) {
    let (alloc, traffic) = (rt.alloc(), TRAFFIC.as_bytes());
    assert!(rt;
        refuses(&rt, alloc, b"7", &CAPTURE[..23], b"last\n", 104)
            & refuses(&rt, alloc, traffic, &CAPTURE[..23], b"last\n", 701)
            & refuses(&rt, alloc, traffic, &CAPTURE[..131], b"last\n", 801)
            & refuses(&rt, alloc, traffic, &CAPTURE[..131], b"expire 1 1\n", 802)
            & refuses(&rt, alloc, traffic, &CAPTURE[..131], b"next\n", 703)
    );
}

/// Returns the outcome of the run if its devices fail at these calls: the capture, the schedule, the link and the
/// answer, or none for 0.
fn failing(rt: &impl Abort, alloc: Global, calls: [u64; 4]) -> Result<Answer, u16> {
    let [capture, schedule, link, answer] = calls;
    let mut store = [0u8; 128];
    let mut sinks = Vec::new(alloc);
    sinks
        .push(Fuse::new(Room::new(&mut store), link))
        .expect(rt, "memory");
    let mut octets = [0u8; 128];
    ran(
        rt,
        alloc,
        TRAFFIC.as_bytes(),
        Fuse::new(Octets::new(&CAPTURE), capture),
        Fuse::new(Octets::new(SCHEDULE), schedule),
        &mut Sinks::new(sinks),
        &mut Fuse::new(Room::new(&mut octets), answer),
    )
}

/// The calls at which devices fail, and the outcome of the run.
const FAILING: [([u64; 4], Result<Answer, u16>); 6] = [
    ([0, 0, 0, 0], Ok(Answer::Yes)),
    ([1, 0, 0, 0], Err(901)),
    ([0, 1, 0, 0], Err(901)),
    ([0, 0, 1, 0], Err(902)),
    ([0, 0, 2, 0], Err(902)),
    ([0, 0, 0, 1], Err(902)),
];

#[test]
fn fails_with_its_devices(rt: HostRuntime) {
    for (calls, wanted) in &FAILING {
        assert!(rt; failing(&rt, rt.alloc(), *calls) == *wanted);
    }
}
