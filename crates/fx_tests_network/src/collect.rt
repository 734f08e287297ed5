//! Totals of records, and their text.
use crate::answers::ends;
use fx_base::{Counts, Room};
use fx_boxes::Fields;
use fx_collect::{Totals, put_number_line};
use fx_elements::{AXES, Axis};
use fx_layout::{Key, Layout, Seed};
use fx_tables::Record;
use std::process::Abort;

/// Returns the seed of all totals here.
fn seed() -> Seed {
    Seed::new(1, 2)
}

fn layout(rt: &impl Abort) -> Layout {
    let layout = Layout::new().with(Axis::Source, 24).expect(rt, "source");
    layout.with(Axis::Protocol, 8).expect(rt, "protocol")
}

fn key(rt: &impl Abort, source: u32, protocol: u8) -> Key {
    let (source, protocol) = (u128::from(source), u128::from(protocol));
    layout(rt).key_of(&Fields::of([source, 0, protocol, 0, 0, 0, 4, 0, 0]))
}

/// Tallies a record with this key, and returns whether there was memory.
fn tallies(totals: &mut Totals, key: Key, packets: u64, octets: u64) -> bool {
    let counts = Counts { packets, octets };
    ends(totals.tally(&Record { key, counts }), 0)
}

/// Returns the key of all packets.
fn key_of_all() -> Key {
    Layout::new().key_of(&Fields::of([0; AXES]))
}

/// Returns whether the text of totals is the given one.
fn is_text(totals: &mut Totals, text: &[u8]) -> bool {
    let mut octets = [0u8; 256];
    let mut room = Room::new(&mut octets);
    match totals.sort() {
        Ok(()) => ends(totals.put_report(&mut room), 0) & (room.octets() == text),
        Err(_) => false,
    }
}

/// Counts records by source and protocol, and one of all packets, which remains unassigned.
fn counts_keys(totals: &mut Totals, rt: &impl Abort) -> bool {
    tallies(totals, key(rt, 0x0a01_0203, 6), 1, 100)
        & tallies(totals, key(rt, 0x0a01_0103, 17), 1, u64::MAX)
        & tallies(totals, key(rt, 0x0a01_02ff, 6), 1, 1)
        & tallies(totals, key_of_all(), 1, 1)
}

/// Returns whether those records are found.
fn finds_keys(totals: &Totals, rt: &impl Abort) -> bool {
    let counts = Counts {
        packets: 2,
        octets: 101,
    };
    (totals.len() == 2)
        & (totals.unassigned() == 1)
        & (totals.get(&key(rt, 0x0a01_0200, 6)) == Some(counts))
        & totals.get(&key(rt, 0x0a01_0200, 7)).is_none()
}

/// The text of their totals.
const KEYS: &[u8] =
    b"keys 2\n10.1.1.0/24 17 packets 1 octets 18446744073709551615\n10.1.2.0/24 6 packets 2 octets 101\nunassigned 1\n";

#[test]
fn tells_totals(rt: HostRuntime) {
    let mut totals = Totals::new(rt.alloc(), seed(), layout(&rt)).expect(&rt, "memory");
    assert!(rt;
        counts_keys(&mut totals, &rt) & finds_keys(&totals, &rt) & is_text(&mut totals, KEYS)
    );
}

/// Returns whether the totals of one record with this key have this text.
fn tells_one(mut totals: Totals, key: Key, packets: u64, octets: u64, text: &[u8]) -> bool {
    tallies(&mut totals, key, packets, octets) & is_text(&mut totals, text)
}

#[test]
fn tells_all(rt: HostRuntime) {
    let totals = Totals::new(rt.alloc(), seed(), Layout::new()).expect(&rt, "memory");
    let text = b"keys 1\nall packets 3 octets 9\nunassigned 0\n";
    assert!(rt; tells_one(totals, key(&rt, 0x0a01_0203, 6), 3, 9, text));
}

/// Returns a record of all packets.
fn record_of_all(packets: u64, octets: u64) -> Record {
    let mut record = Record::of_all();
    record.counts = record.counts.add(&Counts { packets, octets });
    record
}

#[test]
fn tallies_records_in_turn(rt: HostRuntime) {
    let mut totals = Totals::new(rt.alloc(), seed(), Layout::new()).expect(&rt, "memory");
    let records = [record_of_all(1, 40), record_of_all(2, 80)];
    let text = b"keys 1\nall packets 3 octets 120\nunassigned 0\n";
    assert!(rt; ends(totals.tally_all(&records), 0) & is_text(&mut totals, text));
}

/// Returns a layout of the version, and of 32 bits of the source and the destination.
fn layout_of_ipv6(rt: &impl Abort) -> Layout {
    let layout = Layout::new().with(Axis::Version, 8).expect(rt, "version");
    let layout = layout.with(Axis::Source6, 32).expect(rt, "source");
    layout
        .with(Axis::Destination6, 128)
        .expect(rt, "destination")
}

/// 2001:db8::.
const NETWORK: u128 = 0x2001_0db8 << 96;

/// Returns a packet from 2001:db8::1 to 2001:db8::9.
fn packet_of_ipv6() -> Fields {
    Fields::of([0, 0, 17, 1000, 53, 0, 6, NETWORK + 1, NETWORK + 9])
}

#[test]
fn tells_addresses_of_ipv6(rt: HostRuntime) {
    let layout = layout_of_ipv6(&rt);
    let key = layout.key_of(&packet_of_ipv6());
    let totals = Totals::new(rt.alloc(), seed(), layout).expect(&rt, "memory");
    let text =
        b"keys 1\n6 2001:db8:0:0:0:0:0:0/32 2001:db8:0:0:0:0:0:9 packets 3 octets 186\nunassigned 0\n";
    assert!(rt; tells_one(totals, key, 3, 186, text));
}

#[test]
fn tells_a_number(rt: HostRuntime) {
    let mut octets = [0u8; 256];
    let mut room = Room::new(&mut octets);
    let is_put = ends(put_number_line(&mut room, b"gaps ", 10), 0);
    assert!(rt; is_put & (room.octets() == b"gaps 10\n".as_slice()));
}
