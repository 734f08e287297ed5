//! Streams with IPv6 addresses and prefixes. Their octets are written out by RFC 7011, section 3.
use crate::session;
use crate::session_hostile::{first_record, is_refused};
use fx_elements::Axis;
use fx_layout::{Key, Part};
use fx_tables::Record;

/// 2001:db8::1.
const HOST_1: u128 = 0x2001_0db8_0000_0000_0000_0000_0000_0001;

/// 2001:db8::9.
const HOST_9: u128 = 0x2001_0db8_0000_0000_0000_0000_0000_0009;

/// An axis, the number of its known leading bits, and their value.
type Known = (Axis, u32, u128);

/// Returns whether a key has exactly these parts.
fn has_parts(key: &Key, known: &[Known]) -> bool {
    let (parts, values) = (key.layout().parts(), key.values());
    if parts.len() != known.len() || values.len() != known.len() {
        return false;
    }
    for index in 0..known.len() {
        let (axis, bits, value) = known[index];
        if parts[index] != (Part { axis, bits }) || values[index] != value {
            return false;
        }
    }
    true
}

/// Returns whether the record is there, and its key has exactly these parts.
fn is_known(found: Option<Record>, known: &[Known]) -> bool {
    match found {
        None => false,
        Some(entry) => has_parts(&entry.key, known),
    }
}

/// A template of 27, 28, 60 and the two counters, and a record: 2001:db8::1, 2001:db8::9, version 6.
const ADDRESSES: [u8; 97] = [
    0, 10, 0, 97, 0, 0, 0, 0, 0, 0, 0, 0, 0, 0, 0, 0, // the header
    0, 2, 0, 28, 1, 0, 0, 5, 0, 27, 0, 16, 0, 28, 0, 16, 0, 60, 0, 1, 0, 1, 0, 8, 0, 2, 0, 8, // the template
    1, 0, 0, 53, 0x20, 0x01, 0x0d, 0xb8, 0, 0, 0, 0, 0, 0, 0, 0, 0, 0, 0, 1, // the set, and the source
    0x20, 0x01, 0x0d, 0xb8, 0, 0, 0, 0, 0, 0, 0, 0, 0, 0, 0, 9, 6, // the destination and the version
    0, 0, 0, 0, 0, 0, 0, 186, 0, 0, 0, 0, 0, 0, 0, 3, // the octets and packets
];

/// The known parts of that record.
const HOSTS: [Known; 3] = [
    (Axis::Version, 8, 6),
    (Axis::Source6, 128, HOST_1),
    (Axis::Destination6, 128, HOST_9),
];

#[test]
fn reads_addresses(rt: HostRuntime) {
    assert!(rt; is_known(first_record(&rt, rt.alloc(), &ADDRESSES), &HOSTS));
}

/// A template of 170, 29, 169, 30 and the two counters, and a record of 2001:db8::1/32 and 2001:db8::9/128.
const PREFIXES: [u8; 102] = [
    0, 10, 0, 102, 0, 0, 0, 0, 0, 0, 0, 0, 0, 0, 0, 0, // the header
    0, 2, 0, 32, 1, 0, 0, 6, 0, 170, 0, 16, 0, 29, 0, 1, 0, 169, 0, 16, 0, 30, 0, 1, // the template
    0, 1, 0, 8, 0, 2, 0, 8, // its counters
    1, 0, 0, 54, 0x20, 0x01, 0x0d, 0xb8, 0, 0, 0, 0, 0, 0, 0, 0, 0, 0, 0, 1, 32, // the set, and the source
    0x20, 0x01, 0x0d, 0xb8, 0, 0, 0, 0, 0, 0, 0, 0, 0, 0, 0, 9, 128, // the destination
    0, 0, 0, 0, 0, 0, 0, 100, 0, 0, 0, 0, 0, 0, 0, 1, // the octets and packets
];

/// Returns the same stream with this many bits of the source and of the destination.
fn prefixes(source: u8, destination: u8) -> [u8; 102] {
    let mut stream = PREFIXES;
    stream[68] = source;
    stream[85] = destination;
    stream
}

/// The prefix lengths of the source and of the destination, and the known parts of the record. A length of 0 leaves out
/// the axis.
const LENGTHS: [(u8, u8, &[Known]); 4] = [
    (
        32,
        128,
        &[
            (Axis::Source6, 32, 0x2001_0db8),
            (Axis::Destination6, 128, HOST_9),
        ],
    ),
    (
        128,
        3,
        &[(Axis::Source6, 128, HOST_1), (Axis::Destination6, 3, 1)],
    ),
    (32, 0, &[(Axis::Source6, 32, 0x2001_0db8)]),
    (0, 0, &[]),
];

#[test]
fn reads_prefixes(rt: HostRuntime) {
    for (source, destination, known) in &LENGTHS {
        let found = first_record(&rt, rt.alloc(), &prefixes(*source, *destination));
        assert!(rt; is_known(found, *known), "at {source} and {destination}");
    }
}

/// Lengths above 128.
const LONG: [(u8, u8); 3] = [(129, 0), (0, 129), (255, 128)];

#[test]
fn refuses_prefixes_above_128_bits(rt: HostRuntime) {
    for (source, destination) in &LONG {
        let stream = prefixes(*source, *destination);
        assert!(rt;
            session::is_refused(rt.alloc(), &stream, 620),
            "at {source}"
        );
    }
}

/// A template of 170, 9, 45, 30 and the two counters, and a record: each prefix is beside the length of another
/// version's.
const LENGTHS_OF_OTHERS: [u8; 90] = [
    0, 10, 0, 90, 0, 0, 0, 0, 0, 0, 0, 0, 0, 0, 0, 0, // the header
    0, 2, 0, 32, 1, 0, 0, 6, 0, 170, 0, 16, 0, 9, 0, 1, 0, 45, 0, 4, 0, 30, 0, 1, // the template
    0, 1, 0, 8, 0, 2, 0, 8, // its counters
    1, 0, 0, 42, 0x20, 0x01, 0x0d, 0xb8, 0, 0, 0, 0, 0, 0, 0, 0, 0, 0, 0, 1, 32, // the set, and the source
    192, 0, 2, 1, 24, // the destination
    0, 0, 0, 0, 0, 0, 0, 100, 0, 0, 0, 0, 0, 0, 0, 1, // the octets and packets
];

/// A template of 170, 29, 8, 27 twice and the two counters, and a record: 2001:db8::1/32, 10.0.0.1, 2001:db8::9 and
/// 2001:db8::1.
const BOTH_VERSIONS: [u8; 125] = [
    0, 10, 0, 125, 0, 0, 0, 0, 0, 0, 0, 0, 0, 0, 0, 0, // the header
    0, 2, 0, 36, 1, 0, 0, 7, 0, 170, 0, 16, 0, 29, 0, 1, 0, 8, 0, 4, 0, 27, 0, 16, 0, 27, 0, 16, // the template
    0, 1, 0, 8, 0, 2, 0, 8, // its counters
    1, 0, 0, 73, 0x20, 0x01, 0x0d, 0xb8, 0, 0, 0, 0, 0, 0, 0, 0, 0, 0, 0, 1, 32, // the set, and the prefix
    10, 0, 0, 1, // the address of IPv4
    0x20, 0x01, 0x0d, 0xb8, 0, 0, 0, 0, 0, 0, 0, 0, 0, 0, 0, 9, // the first address of IPv6
    0x20, 0x01, 0x0d, 0xb8, 0, 0, 0, 0, 0, 0, 0, 0, 0, 0, 0, 1, // the second
    0, 0, 0, 0, 0, 0, 0, 100, 0, 0, 0, 0, 0, 0, 0, 1, // the octets and packets
];

/// The known parts of that record.
const OF_BOTH: [Known; 2] = [
    (Axis::Source, 32, 0x0a00_0001),
    (Axis::Source6, 128, HOST_9),
];

#[test]
fn reads_each_version_by_its_own_elements(rt: HostRuntime) {
    assert!(rt;
        is_known(first_record(&rt, rt.alloc(), &LENGTHS_OF_OTHERS), &[])
            & is_known(first_record(&rt, rt.alloc(), &BOTH_VERSIONS), &OF_BOTH)
    );
}

/// Elements, and lengths that their fields can't have.
const OTHER_LENGTHS: [(u8, [u8; 2]); 9] = [
    (27, [0, 4]),
    (28, [0, 15]),
    (170, [0, 4]),
    (169, [0, 17]),
    (8, [0, 16]),
    (29, [0, 2]),
    (30, [0xff, 0xff]),
    (60, [0, 2]),
    (60, [0xff, 0xff]),
];

#[test]
fn refuses_fields_of_other_lengths(rt: HostRuntime) {
    for (element, [high, low]) in &OTHER_LENGTHS {
        let content = [0, 2, 0, 12, 1, 0, 0, 1, 0, *element, *high, *low];
        assert!(rt; is_refused(rt.alloc(), 28, &content, 614), "not {element}");
    }
}
