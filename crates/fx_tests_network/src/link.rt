//! What is sent on links, octet by octet.
ghost use Rattle.std.specs.Prelude.{None, false};

use fx_base::{Counts, Fault, Room, Sink, refusals};
use fx_boxes::Fields;
use fx_elements::Axis;
use fx_layout::Layout;
use fx_link::{
    Link, Links, MakeSink, Nowhere, OpenedSinks, Sinks, links_keep_records, records_are_read,
};
use fx_tables::Record;
use std::alloc::Global;
use std::process::Abort;

/// The template of a source address, and 10.0.0.1 with 2 packets and 300 octets, exported at second 2; after it,
/// exported at second 3, with one packet and 300 octets.
const ONE_BY_ONE: [u8; 100] = [
    0x00, 0x0a, 0x00, 0x3c, 0, 0, 0, 2, 0, 0, 0, 0, 0, 0, 0, 0, // the first header
    0x00, 0x02, 0x00, 0x14, 0x01, 0x00, 0x00, 0x03, // the template
    0x00, 0x08, 0x00, 0x04, 0x00, 0x01, 0x00, 0x08, 0x00, 0x02, 0x00, 0x08, // its fields
    0x01, 0x00, 0x00, 0x18, 10, 0, 0, 1, 0, 0, 0, 0, 0, 0, 0x01, 0x2c, 0, 0, 0, 0, 0, 0, 0, 2,
    0x00, 0x0a, 0x00, 0x28, 0, 0, 0, 3, 0, 0, 0, 1, 0, 0, 0, 0, // the second header
    0x01, 0x00, 0x00, 0x18, 10, 0, 0, 1, 0, 0, 0, 0, 0, 0, 0x01, 0x2c, 0, 0, 0, 0, 0, 0, 0, 1,
];

/// 10.0.0.1 with 100 octets and 10.0.0.2 with 200, exported together at second 2.
const TOGETHER: [u8; 80] = [
    0x00, 0x0a, 0x00, 0x50, 0, 0, 0, 2, 0, 0, 0, 0, 0, 0, 0, 0, // the header
    0x00, 0x02, 0x00, 0x14, 0x01, 0x00, 0x00, 0x03, // the template
    0x00, 0x08, 0x00, 0x04, 0x00, 0x01, 0x00, 0x08, 0x00, 0x02, 0x00, 0x08, // its fields
    0x01, 0x00, 0x00, 0x2c, 10, 0, 0, 1, 0, 0, 0, 0, 0, 0, 0, 100, 0, 0, 0, 0, 0, 0, 0, 1, // two records
    10, 0, 0, 2, 0, 0, 0, 0, 0, 0, 0, 200, 0, 0, 0, 0, 0, 0, 0, 1,
];

/// 2001:db8::1 with one packet and 56 octets, exported at second 1.
const OF_IPV6: [u8; 72] = [
    0x00, 0x0a, 0x00, 0x48, 0, 0, 0, 1, 0, 0, 0, 0, 0, 0, 0, 0, // the header
    0x00, 0x02, 0x00, 0x14, 0x01, 0x00, 0x00, 0x03, // the template
    0x00, 0x1b, 0x00, 0x10, 0x00, 0x01, 0x00, 0x08, 0x00, 0x02, 0x00, 0x08, // its fields
    0x01, 0x00, 0x00, 0x24, 0x20, 0x01, 0x0d, 0xb8, 0, 0, 0, 0, 0, 0, 0, 0, 0, 0, 0, 1, // the record
    0, 0, 0, 0, 0, 0, 0, 56, 0, 0, 0, 0, 0, 0, 0, 1,
];

/// Returns a record by this many bits of the address on an axis.
fn record(
    rt: &impl Abort,
    axis: Axis,
    bits: u32,
    address: u128,
    packets: u64,
    octets: u64,
) -> Record {
    let layout = Layout::new().with(axis, bits).expect(rt, "a layout");
    let mut values = [0; 9];
    values[axis.index()] = address;
    let fields = Fields::new(values).expect(rt, "fields");
    Record {
        key: layout.key_of(&fields),
        counts: Counts { packets, octets },
    }
}

/// Sends a record on a link that has room for it.
fn put(rt: &impl Abort, link: &mut Link, time: u32, flow: Record) {
    assert!(rt; link.has_room());
    link.put(time, flow).expect(rt, "memory");
}

/// A record that is sent on a link: the second, the axis, the number of its bits, the address, the packets and octets.
type Put = (u32, Axis, u32, u128, u64, u64);

/// Sends records on a link, and ends their message in this second.
fn put_message<L: Links>(rt: &impl Abort, link: &mut Link, puts: &[Put], time: u32, links: &mut L) {
    for (second, axis, bits, address, packets, octets) in puts {
        put(
            rt,
            link,
            *second,
            record(rt, *axis, *bits, *address, *packets, *octets),
        );
    }
    link.finish(time, 1, links).expect(rt, "room");
}

/// Sends messages on a new link, given by the second of each and its records.
fn put_all<L: Links>(rt: &impl Abort, alloc: Global, messages: &[(u32, &[Put])], links: &mut L) {
    let mut link = Link::new(alloc).expect(rt, "memory");
    for (time, puts) in messages {
        put_message(rt, &mut link, puts, *time, links);
    }
}

/// Returns whether the octets written to the only sink of links are the given ones.
fn is_written(links: Sinks<Room<'_>>, octets: &[u8]) -> bool {
    match links.as_slice() {
        [room] => room.octets() == octets,
        _ => false,
    }
}

/// Returns whether messages that are sent on a new link are written as these octets.
fn writes(rt: &impl Abort, alloc: Global, messages: &[(u32, &[Put])], octets: &[u8]) -> bool {
    let mut store = [0u8; 128];
    let mut rooms = Vec::new(alloc);
    rooms.push(Room::new(&mut store)).expect(rt, "memory");
    let mut links = Sinks::new(rooms);
    put_all(rt, alloc, messages, &mut links);
    is_written(links, octets)
}

const FIRST: Put = (2, Axis::Source, 32, 0x0a00_0001, 2, 300);

const SECOND: Put = (3, Axis::Source, 32, 0x0a00_0001, 1, 300);

#[test]
fn writes_messages_of_one_record(rt: HostRuntime) {
    records_are_read();
    assert!(rt;
        writes(
            &rt,
            rt.alloc(),
            &[(2, &[FIRST]), (3, &[SECOND])],
            &ONE_BY_ONE
        )
    );
}

/// Two records that are sent together.
const TWO: [Put; 2] = [
    (2, Axis::Source, 32, 0x0a00_0001, 1, 100),
    (2, Axis::Source, 32, 0x0a00_0002, 1, 200),
];

#[test]
fn writes_a_message_of_two_records(rt: HostRuntime) {
    assert!(rt; writes(&rt, rt.alloc(), &[(2, &TWO)], &TOGETHER));
}

/// A record of 2001:db8::1.
const WIDE: Put = (1, Axis::Source6, 128, (0x2001_0db8 << 96) + 1, 1, 56);

#[test]
fn writes_a_message_of_ipv6(rt: HostRuntime) {
    assert!(rt; writes(&rt, rt.alloc(), &[(1, &[WIDE])], &OF_IPV6));
}

/// The maximum number of records of a message, and one more.
const MANY: [Put; 65] = [(0, Axis::Source, 32, 0x0a00_0001, 1, 1); 65];

#[test]
fn ends_a_message_at_64_records(rt: HostRuntime) {
    let mut link = Link::new(rt.alloc()).expect(&rt, "memory");
    put_message(&rt, &mut link, &MANY, 0, &mut Nowhere);
    // A message of 64 records has 16, 20 and 4 + 64 * 20 octets, and one of a single record 16 and 4 + 20.
    assert!(rt; link.queue_length() == 1320 + 40);
}

/// A record by 48 bits of the destination.
const CARRIED: Put = (0, Axis::Destination6, 48, 0x2001_0db8_0007 << 80, 3, 5);

/// Returns whether a record has arrived, and is that one.
fn is_carried(arrived: Option<Record>) -> bool {
    match arrived {
        Some(flow) => {
            flow.key.bits_on(Axis::Destination6, 48) == 0x2001_0db8_0007
                && flow.counts.packets == 3
                && flow.counts.octets == 5
        }
        None => false,
    }
}

#[test]
fn carries_records_across_a_cut(rt: HostRuntime) {
    links_keep_records();
    let mut link = Link::new(rt.alloc()).expect(&rt, "memory");
    put_message(&rt, &mut link, &[CARRIED], 0, &mut Nowhere);
    // The template has four fields, and the record has 16, 1 and 16 octets.
    assert!(rt; link.queue_length() == 16 + 24 + 4 + 33);
    link.carry(76).expect(&rt, "memory");
    let early = link.next_record().is_some();
    assert!(rt; link.queue_length() == 1);
    link.carry(1).expect(&rt, "memory");
    assert!(rt; !early & is_carried(link.next_record()));
}

/// A sink that counts its octets.
#[derive(Drop)]
struct Count {
    octets: usize,
    failed: bool,
}

impl Sink for Count {
    ghost taken = { λ _. None };

    ghost failed = { λ s. s.failed };

    ghost holds_back = { λ _. false };

    fn write(&mut self, octets: &[u8]) -> Result<usize, Fault> {
        self.octets = self.octets.saturating_add(octets.len());
        self.failed = false;
        Ok(octets.len())
    }

    fn flush(&mut self) -> Result<(), Fault> {
        self.failed = false;
        Ok(())
    }
}

/// Makes sinks that count, except for link 9, and counts the sinks.
#[derive(Drop)]
struct Opening {
    made: usize,
    failed: u64,
}

impl MakeSink<Count> for Opening {
    ghost begun = { λ _. None };

    fn make(&mut self, link: u64) -> Result<Count, Fault> {
        if link == 9 {
            return Err(Fault::bare(refusals::FAILED_WRITE));
        }
        self.made = self.made.saturating_add(1);
        Ok(Count {
            octets: 0,
            failed: false,
        })
    }

    fn note_failure(&mut self, link: u64) {
        self.failed = link;
    }
}

/// Returns the number of octets that the sink of a link has taken.
fn taken(links: &OpenedSinks<Count, Opening>, link: u64) -> usize {
    match links.sink(link) {
        Some(sink) => sink.octets,
        None => 0,
    }
}

#[test]
fn opens_a_sink_for_each_link(rt: HostRuntime) {
    let mut links = OpenedSinks::new(rt.alloc(), Opening { made: 0, failed: 0 });
    links.put(3, b"ab").expect(&rt, "a sink");
    links.put(2, b"c").expect(&rt, "a sink");
    links.put(3, b"def").expect(&rt, "a sink");
    assert!(rt; taken(&links, 2) == 1);
    assert!(rt; taken(&links, 3) == 5);
    assert!(rt; taken(&links, 1) == 0);
    assert!(rt; links.put(9, b"g").is_err());
    let maker = links.into_maker();
    assert!(rt; maker.made == 2);
    assert!(rt; maker.failed == 9);
}
