//! Values of elements that are read and written, and elements by name and number.
use crate::answers::ends;
use fx_base::Room;
use fx_elements::{
    Axis, Element, Range, by_id, by_name, put_value, read_number, read_on, read_prefix, read_quad,
    read_u64, read_value, read_written, top, width,
};

/// Returns whether this many leading bits of a value on an axis are written as this text.
fn is_written(axis: Axis, bits: u32, value: u128, text: &str) -> bool {
    if bits > width(axis) || bits > 127 || value >= 1u128 << bits {
        return false;
    }
    let mut octets = [0u8; 48];
    let mut room = Room::new(&mut octets);
    ends(put_value(&mut room, axis, bits, value), 0) & (room.octets() == text.as_bytes())
}

/// Leading bits of values, and their texts.
const WRITTEN: [(Axis, u32, u128, &str); 4] = [
    (Axis::Source, 32, 0xc000_0201, "192.0.2.1"),
    (Axis::Destination, 16, 0x0a01, "10.1.0.0/16"),
    (Axis::SourcePort, 16, 443, "443"),
    (
        Axis::Source6,
        64,
        0x2001_0db8_0000_0000,
        "2001:db8:0:0:0:0:0:0/64",
    ),
];

#[test]
fn writes_values(rt: HostRuntime) {
    for (axis, bits, value, text) in &WRITTEN {
        assert!(rt; is_written(*axis, *bits, *value, *text));
    }
}

/// Texts of elements, and the values that they denote.
const VALUES: [(Element, &str, Range); 3] = [
    (
        Element::Prefix(Axis::Source),
        "10.1.2.3/16",
        Range {
            low: 0x0a01_0000,
            high: 0x0a01_ffff,
            bits: 16,
        },
    ),
    (
        Element::OnAxis(Axis::Source),
        "255.255.255.255",
        Range {
            low: 0xffff_ffff,
            high: 0xffff_ffff,
            bits: 32,
        },
    ),
    (
        Element::Prefix(Axis::Source6),
        "2001:DB8:8000::1/33",
        Range {
            low: 0x2001_0db8_8000_0000_0000_0000_0000_0000,
            high: 0x2001_0db8_ffff_ffff_ffff_ffff_ffff_ffff,
            bits: 33,
        },
    ),
];

#[test]
fn reads_values(rt: HostRuntime) {
    for (element, text, range) in &VALUES {
        assert!(rt; read_value(*element, *text) == Some(*range));
    }
}

/// Texts on axes, and their values, if any.
const ON_AXES: [(Axis, &[u8], Option<u128>); 9] = [
    (Axis::DestinationPort, b"65535", Some(65535)),
    (Axis::DestinationPort, b"65536", None),
    (
        Axis::Source6,
        b"1:2:3:4:5:6:7::",
        Some(0x1_0002_0003_0004_0005_0006_0007_0000),
    ),
    (Axis::Source6, b"::", Some(0)),
    (Axis::Source6, b"::1", Some(1)),
    (
        Axis::Source6,
        b"1::",
        Some(0x1_0000_0000_0000_0000_0000_0000_0000),
    ),
    (Axis::Source6, b"::ffff:192.0.2.1", Some(0xffff_c000_0201)),
    (
        Axis::Source6,
        b"1:2:3:4:5:6:192.0.2.1",
        Some(0x1_0002_0003_0004_0005_0006_c000_0201),
    ),
    (
        Axis::Source6,
        b"FE80::00aB:c",
        Some(0xfe80_0000_0000_0000_0000_0000_00ab_000c),
    ),
];

#[test]
fn reads_ports_and_addresses_of_ipv6(rt: HostRuntime) {
    for (axis, text, value) in &ON_AXES {
        assert!(rt; read_on(*axis, *text) == *value);
    }
}

#[test]
fn reads_addresses_of_ipv6_as_they_are_written(rt: HostRuntime) {
    let axis = Axis::Destination6;
    assert!(rt;
        read_written(axis, b"::1").is_none() & (read_written(axis, b"0:0:0:0:0:0:0:1") == Some(1))
    );
}

/// Returns whether none of these texts denotes a value of an element.
fn refuses(element: Element, texts: &[&str]) -> bool {
    let mut all = true;
    for text in texts {
        all &= read_value(element, *text).is_none();
    }
    all
}

const NO_PROTOCOLS: [&str; 8] = ["", "01", "256", "+1", " 1", "1 ", "0x1", "-0"];

const NO_PREFIXES: [&str; 7] = [
    "1.2.3",
    "1.2.3.4.5",
    "1.2.3.256",
    "01.2.3.4",
    "1.2.3.4/0",
    "1.2.3.4/33",
    "1.2.3.4",
];

/// A text for an element whose values aren't read.
const COUNTERS: [&str; 1] = ["1"];

#[test]
fn refuses_values(rt: HostRuntime) {
    assert!(rt;
        refuses(Element::OnAxis(Axis::Protocol), &NO_PROTOCOLS)
            & refuses(Element::Prefix(Axis::Destination), &NO_PREFIXES)
            & refuses(Element::OctetDeltaCount, &COUNTERS)
    );
}

const NO_ADDRESSES_OF_IPV6: [&str; 17] = [
    "",
    ":::",
    "1:",
    ":1",
    "1:2:3",
    "1::2::3",
    "12345::",
    "1:2:3:4:5:6:7:8::",
    "1:2:3:4:5:6:7:8:9",
    "1.2.3.4",
    "1.2.3.4::",
    "::1.2.3.4:5",
    "::01.2.3.4",
    "1:2:3:4:5:6:7:1.2.3.4",
    "::1%eth0",
    "[::1]",
    "::1 ",
];

const NO_PREFIXES_OF_IPV6: [&str; 4] = ["::1/0", "::1/129", "::1", "::/01"];

#[test]
fn refuses_addresses_of_ipv6(rt: HostRuntime) {
    assert!(rt;
        refuses(Element::OnAxis(Axis::Destination6), &NO_ADDRESSES_OF_IPV6)
            & refuses(Element::Prefix(Axis::Destination6), &NO_PREFIXES_OF_IPV6)
    );
}

#[test]
fn knows_elements(rt: HostRuntime) {
    assert!(rt;
        (by_name("sourceIPv4Address") == Element::OnAxis(Axis::Source))
            & (by_name("sourceIPv4address") == Element::Other)
            & (by_name("destinationIPv6Prefix") == Element::Prefix(Axis::Destination6))
            & (by_id(2, 0) == Element::PacketDeltaCount)
            & (by_id(2, 9) == Element::Other)
            & (by_id(45, 0) == Element::Prefix(Axis::Destination))
            & (by_id(170, 0) == Element::Prefix(Axis::Source6))
    );
}

#[test]
fn reads_numbers_and_addresses(rt: HostRuntime) {
    let text = b"340282366920938463463374607431768211455";
    assert!(rt;
        (read_number(text, u128::MAX) == Some(u128::MAX))
            & (top(Axis::Protocol) == 255)
            & (read_u64(b"18446744073709551615") == Some(u64::MAX))
            & read_u64(text).is_none()
            & (read_quad(b"0.0.1.0") == Some(256))
            & (read_prefix(b"0.0.1.0/8") == Some((256, 8)))
    );
}
