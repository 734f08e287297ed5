//! Streams of messages in pieces of any length.
use crate::answers;
use fx_base::Fault;
use fx_elements::Axis;
use fx_session::{Session, pieces, remove_front, sets_by_cases, waiting};
use fx_tables::Record;
use std::alloc::Global;
use std::process::Abort;

/// A template of a source address and the two counters (id 256), and a record: 10.0.0.1, 2 packets, 300 octets.
pub(crate) const FIRST: [u8; 60] = [
    0x00, 0x0a, 0x00, 0x3c, 0, 0, 0, 2, 0, 0, 0, 0, 0, 0, 0, 0, // the header
    0x00, 0x02, 0x00, 0x14, 0x01, 0x00, 0x00, 0x03, // the template
    0x00, 0x08, 0x00, 0x04, 0x00, 0x01, 0x00, 0x08, 0x00, 0x02, 0x00, 0x08, // its fields
    0x01, 0x00, 0x00, 0x18, 10, 0, 0, 1, 0, 0, 0, 0, 0, 0, 0x01, 0x2c, 0, 0, 0, 0, 0, 0, 0, 2,
];

/// The next message: 10.0.0.1, 1 packet, 300 octets.
pub(crate) const SECOND: [u8; 40] = [
    0x00, 0x0a, 0x00, 0x28, 0, 0, 0, 3, 0, 0, 0, 1, 0, 0, 0, 0, // the header
    0x01, 0x00, 0x00, 0x18, 10, 0, 0, 1, 0, 0, 0, 0, 0, 0, 0x01, 0x2c, 0, 0, 0, 0, 0, 0, 0, 1,
];

/// A template with an interface name of variable length, an options template, and data of both, with padding.
pub(crate) const OPTIONS: [u8; 107] = [
    0x00, 0x0a, 0x00, 0x6b, 0, 0, 0, 0, 0, 0, 0, 0, 0, 0, 0, 0, // the header
    0x00, 0x02, 0x00, 0x18, 0x01, 0x00, 0x00, 0x04, // a template
    0x00, 0x08, 0x00, 0x04, 0x00, 0x52, 0xff, 0xff, 0x00, 0x01, 0x00, 0x08, 0x00, 0x02, 0x00, 0x08,
    0x00, 0x03, 0x00, 0x14, 0x01, 0x01, 0x00, 0x02, 0x00, 0x01, // an options template
    0x00, 0x95, 0x00, 0x04, 0x00, 0x29, 0x00, 0x08, 0x00, 0x00, // its fields, and padding
    0x01, 0x00, 0x00, 0x1f, 10, 0, 0, 1, 0x03, 0x65, 0x74, 0x68, // a record with the name eth
    0, 0, 0, 0, 0, 0, 0, 100, 0, 0, 0, 0, 0, 0, 0, 1, 0, 0, 0, // and padding
    0x01, 0x01, 0x00, 0x10, 0, 0, 0, 0, 0, 0, 0, 0, 0, 0, 0, 1, // a record of the options template
];

/// The template is withdrawn and declared again, after a gap.
pub(crate) const WITHDRAWN: [u8; 68] = [
    0x00, 0x0a, 0x00, 0x44, 0, 0, 0, 0, 0, 0, 0, 5, 0, 0, 0, 0, // the header
    0x00, 0x02, 0x00, 0x08, 0x01, 0x00, 0x00, 0x00, // the withdrawal
    0x00, 0x02, 0x00, 0x14, 0x01, 0x00, 0x00, 0x03, // the new template
    0x00, 0x08, 0x00, 0x04, 0x00, 0x01, 0x00, 0x08, 0x00, 0x02, 0x00, 0x08, // its fields
    0x01, 0x00, 0x00, 0x18, 10, 0, 0, 1, 0, 0, 0, 0, 0, 0, 0, 200, 0, 0, 0, 0, 0, 0, 0, 2,
];

/// A data set of a template that doesn't exist.
pub(crate) const UNKNOWN: [u8; 24] = [
    0x00, 0x0a, 0x00, 0x18, 0, 0, 0, 0, 0, 0, 0, 6, 0, 0, 0, 0, // the header
    0x01, 0x02, 0x00, 0x08, 0, 0, 0, 0, // the set
];

/// Another template with the id of the first one.
pub(crate) const CHANGED: [u8; 36] = [
    0x00, 0x0a, 0x00, 0x24, 0, 0, 0, 3, 0, 0, 0, 1, 0, 0, 0, 0, // the header
    0x00, 0x02, 0x00, 0x14, 0x01, 0x00, 0x00, 0x03, // the template
    0x00, 0x08, 0x00, 0x04, 0x00, 0x02, 0x00, 0x08, 0x00, 0x01, 0x00, 0x08, // its fields
];

/// A template of a prefix and its length, and a record with a length of 33.
const LONG_PREFIX: [u8; 65] = [
    0x00, 0x0a, 0x00, 0x41, 0, 0, 0, 0, 0, 0, 0, 0, 0, 0, 0, 0, // the header
    0x00, 0x02, 0x00, 0x18, 0x01, 0x00, 0x00, 0x04, // the template
    0x00, 0x2c, 0x00, 0x04, 0x00, 0x09, 0x00, 0x01, 0x00, 0x01, 0x00, 0x08, 0x00, 0x02, 0x00, 0x08,
    0x01, 0x00, 0x00, 0x19, 10, 0, 0, 0, 33, 0, 0, 0, 0, 0, 0, 0, 100, 0, 0, 0, 0, 0, 0, 0, 1,
];

/// Returns whether there is a record with this source address and these counts.
fn is_flow(found: Option<Record>, source: u128, packets: u64, octets: u64) -> bool {
    match found {
        None => false,
        Some(entry) => {
            entry.key.bits_on(Axis::Source, 32) == source
                && entry.counts.packets == packets
                && entry.counts.octets == octets
        }
    }
}

/// Returns whether one record is pending, with this source address and these counts.
fn waits_alone(session: &mut Session, source: u128, packets: u64, octets: u64) -> bool {
    is_flow(session.next_record(), source, packets, octets) & session.next_record().is_none()
}

/// Feeds a stream at once.
fn fed(alloc: Global, stream: &[u8]) -> Result<(), Fault> {
    Session::new(alloc)?.feed(stream)
}

/// Returns whether a stream that is fed at once is refused with this number at its first octet.
pub(crate) fn is_refused(alloc: Global, stream: &[u8], number: u16) -> bool {
    answers::is_refused(fed(alloc, stream), &Fault::at_octet(number, 0))
}

/// The number of records, their packets and octets, and the number of gaps.
type Sums = (u64, u64, u64, u64);

/// Returns the counts of a record, or 0 if there is none.
fn counts_of(found: Option<Record>) -> (u64, u64, u64) {
    match found {
        Some(entry) => (1, entry.counts.packets, entry.counts.octets),
        None => (0, 0, 0),
    }
}

/// Returns the pending records, their packets and octets, and the gaps.
fn sums_of(session: &mut Session) -> Sums {
    let mut sums = (0u64, 0u64, 0u64, session.gaps());
    for _turn in 0..8u8 {
        let (records, packets, octets) = counts_of(session.next_record());
        sums.0 = sums.0.wrapping_add(records);
        sums.1 = sums.1.wrapping_add(packets);
        sums.2 = sums.2.wrapping_add(octets);
    }
    sums
}

/// Returns the sums of a stream that is fed in two pieces.
fn sums(rt: &impl Abort, alloc: Global, first: &[u8], second: &[u8]) -> Sums {
    let mut session = Session::new(alloc).expect(rt, "memory");
    session.feed(first).expect(rt, "a stream");
    session.feed(second).expect(rt, "a stream");
    sums_of(&mut session)
}

/// Returns a session that was fed a stream, one octet at a time.
fn by_octet(rt: &impl Abort, alloc: Global, stream: &[u8]) -> Session {
    let mut session = Session::new(alloc).expect(rt, "memory");
    for octet in stream {
        session.feed(&[*octet]).expect(rt, "a stream");
    }
    session
}

/// Returns whether a stream has these sums, divided at each index.
fn comes_to(rt: &impl Abort, alloc: Global, stream: &[u8], expected: Sums) -> bool {
    let mut all = true;
    for cut in 0..stream.len() {
        let (first, second) = stream.split_at(cut);
        all &= sums(rt, alloc, first, second) == expected;
    }
    all
}

/// Returns whether two messages have these sums, divided at each index, and one octet at a time.
fn come_to(rt: &impl Abort, alloc: Global, first: &[u8], second: &[u8], expected: Sums) -> bool {
    let stream = [first, second].concat(alloc).expect(rt, "memory");
    comes_to(rt, alloc, stream.as_slice(), expected)
        & (sums_of(&mut by_octet(rt, alloc, stream.as_slice())) == expected)
}

/// Two messages, and their sums.
const STREAMS: [(&[u8], &[u8], Sums); 3] = [
    (&OPTIONS, &WITHDRAWN, (2, 3, 300, 1)),
    (&FIRST, &SECOND, (2, 3, 600, 0)),
    (&FIRST, &FIRST, (2, 4, 600, 1)), // a gap
];

#[test]
fn reads_two_messages_in_whatever_pieces(rt: HostRuntime) {
    for (first, second, expected) in &STREAMS {
        assert!(rt; come_to(&rt, rt.alloc(), *first, *second, *expected));
    }
}

#[test]
fn the_laws_of_streams() {
    pieces();
    waiting();
    sets_by_cases();
}

/// Feeds a message and all but one octet of the next one. Returns whether the first one's record is pending, and the
/// rest is left.
fn reads_one_and_a_part(rt: &impl Abort, session: &mut Session) -> bool {
    session.feed(&FIRST).expect(rt, "a message");
    session.feed(&SECOND[..39]).expect(rt, "a part");
    waits_alone(session, 0x0a00_0001, 2, 300) & (session.left() == 39) & (session.place() == 60)
}

/// Feeds the last octet. Returns whether the other record is pending, and nothing is left or was missed.
fn reads_the_rest(rt: &impl Abort, session: &mut Session) -> bool {
    session.feed(&SECOND[39..]).expect(rt, "the rest");
    waits_alone(session, 0x0a00_0001, 1, 300)
        & (session.left() == 0)
        & (session.gaps() == 0)
        & (session.skipped() == 0)
}

#[test]
fn reads_records(rt: HostRuntime) {
    let mut session = Session::new(rt.alloc()).expect(&rt, "memory");
    assert!(rt; reads_one_and_a_part(&rt, &mut session) & reads_the_rest(&rt, &mut session));
}

#[test]
fn reads_records_by_octet(rt: HostRuntime) {
    let mut session = by_octet(&rt, rt.alloc(), &OPTIONS);
    assert!(rt; waits_alone(&mut session, 0x0a00_0001, 1, 100));
}

/// Returns the packets of all records.
fn packets_of(records: &[Record]) -> u64 {
    let mut packets = 0u64;
    for record in records {
        packets = packets.wrapping_add(record.counts.packets);
    }
    packets
}

/// Returns the packets of the pending records, which remain.
fn packets_waiting(session: &Session) -> u64 {
    let (first, second) = session.records();
    packets_of(first).wrapping_add(packets_of(second))
}

#[test]
fn lends_records_and_lets_them_go(rt: HostRuntime) {
    let mut session = by_octet(&rt, rt.alloc(), &FIRST);
    let lent = packets_waiting(&session);
    session.clear_records();
    assert!(rt; (lent == 2) & (packets_waiting(&session) == 0));
}

/// Returns whether the record of a message before a refused one is pending, and nothing is read after the refusal.
fn keeps_before_a_fault(session: &mut Session, fault: &Fault) -> bool {
    answers::ends(session.feed(&FIRST), 0)
        & answers::is_refused(session.feed(&CHANGED), fault)
        & answers::is_refused(session.feed(&SECOND), fault)
        & waits_alone(session, 0x0a00_0001, 2, 300)
}

#[test]
fn keeps_records_before_a_fault(rt: HostRuntime) {
    let mut session = Session::new(rt.alloc()).expect(&rt, "memory");
    assert!(rt; keeps_before_a_fault(&mut session, &Fault::at_octet(616, 60)));
}

#[test]
fn octets_leave_the_front(rt: HostRuntime) {
    let mut octets = vec![in rt.alloc(); 1u8, 2, 3, 4, 5].expect(&rt, "memory");
    remove_front(&mut octets, 2);
    assert!(rt; octets.as_slice() == [3, 4, 5].as_slice());
}

/// Streams that are refused, and their numbers.
const REFUSED: [(&[u8], u16); 3] = [(&SECOND, 617), (&LONG_PREFIX, 620), (&UNKNOWN, 617)];

#[test]
fn refuses(rt: HostRuntime) {
    for (stream, number) in &REFUSED {
        assert!(rt; is_refused(rt.alloc(), *stream, *number), "not {number}");
    }
}

#[test]
fn refuses_a_cut_value(rt: HostRuntime) {
    let mut cut = OPTIONS;
    cut[68] = 0x14;
    assert!(rt; is_refused(rt.alloc(), &cut, 619));
}
