//! Captures of one packet: its protocol and ports, or why it is skipped.
use fx_base::{Octets, Source};
use fx_elements::Axis;
use fx_pcap::{Capture, Frame, Skipped};
use std::alloc::Global;
use std::process::Abort;

/// A TCP packet with ports 1000 and 443.
pub(crate) const TCP: [u8; 24] = [
    0x45, 0xb8, 0x00, 0x28, 0x00, 0x00, 0x00, 0x00, 0x40, 0x06, 0x00, 0x00, 0x0a, 0x00, 0x00, 0x01,
    0xc0, 0x00, 0x02, 0x01, 0x03, 0xe8, 0x01, 0xbb,
];

/// Returns the headers of a capture of one record with `n` octets, the file header and the record header, in either
/// octet order.
fn headers(big: bool, magic: u32, link: u8, n: u8) -> [u8; 40] {
    if big {
        let [a, b, c, d] = magic.to_be_bytes();
        [
            a, b, c, d, 0, 2, 0, 4, 0, 0, 0, 0, 0, 0, 0, 0, 0, 4, 0, 0, 0, 0, 0, link, //
            0, 0, 0, 7, 0, 0, 0, 0, 0, 0, 0, n, 0, 0, 0, n,
        ]
    } else {
        let [a, b, c, d] = magic.to_le_bytes();
        [
            a, b, c, d, 2, 0, 4, 0, 0, 0, 0, 0, 0, 0, 0, 0, 0, 0, 4, 0, link, 0, 0, 0, //
            7, 0, 0, 0, 0, 0, 0, 0, n, 0, 0, 0, n, 0, 0, 0,
        ]
    }
}

/// Returns a capture of one record with these octets, in either octet order.
pub(crate) fn capture_of(
    rt: &impl Abort,
    alloc: Global,
    big: bool,
    magic: u32,
    link: u8,
    octets: &[u8],
) -> Vec<u8> {
    let headers = headers(big, magic, link, octets.len().min(255) as u8);
    [headers.as_slice(), octets]
        .concat(alloc)
        .expect(rt, "memory")
}

/// The content of a capture of one record: the packet's protocol and ports, or the number of skipped frames.
#[derive(Clone, Copy, PartialEq, Eq)]
enum Holding {
    Packet(u128, u128, u128),
    Passed(u64, u64),
}

/// Returns the packet of a lent frame.
fn packet(frame: &Frame<'_>) -> Holding {
    Holding::Packet(
        frame.fields.get(Axis::Protocol),
        frame.fields.get(Axis::SourcePort),
        frame.fields.get(Axis::DestinationPort),
    )
}

/// Returns the number of skipped frames where no frame is lent.
fn passed(skipped: Skipped) -> Holding {
    Holding::Passed(skipped.other, skipped.malformed)
}

/// Returns the first content of a capture.
fn first<S: Source>(rt: &impl Abort, capture: &mut Capture<S>) -> Holding {
    if capture.advance().expect(rt, "a capture") {
        packet(&capture.frame())
    } else {
        passed(capture.skipped())
    }
}

/// Returns the content of a raw capture (101) or an Ethernet capture (1) of these octets.
fn held(rt: &impl Abort, alloc: Global, link: u8, octets: &[u8]) -> Holding {
    let bytes = capture_of(rt, alloc, true, 0xa1b2_c3d4, link, octets);
    let mut capture = Capture::new(alloc, Octets::new(bytes.as_slice())).expect(rt, "a capture");
    first(rt, &mut capture)
}

/// Returns the packet with another octet at an index.
fn changed(at: usize, octet: u8) -> [u8; 24] {
    let mut packet = TCP;
    if at < 24 {
        packet[at] = octet;
    }
    packet
}

/// Returns the octets before an index, or all of them.
fn front(octets: &[u8], index: usize) -> &[u8] {
    octets.split_at(index.min(octets.len())).0
}

/// The tags of Ethernet frames: one of each kind, twice.
const TAGS: [u8; 16] = [
    0x88, 0xa8, 0, 0, 0x81, 0x00, 0, 1, 0x88, 0xa8, 0, 2, 0x81, 0x00, 0, 3,
];

/// Returns the content of a capture of an Ethernet frame with `tags` octets of tags, of which at most `captured` octets
/// were captured.
fn held_in_ethernet(
    rt: &impl Abort,
    alloc: Global,
    tags: usize,
    ether_type: [u8; 2],
    octets: &[u8],
    captured: usize,
) -> Holding {
    let frame = [&[0; 12], front(&TAGS, tags), &ether_type, octets].concat(alloc);
    let frame = frame.expect(rt, "memory");
    held(rt, alloc, 1, front(frame.as_slice(), captured))
}

/// The number of octets of no tag, and of one, two and three tags.
const LENGTHS: [usize; 4] = [0, 4, 8, 12];

/// All octets of a frame.
const WHOLE: usize = 1000;

/// Returns whether the packet is read after the given number of octets of tags, and is malformed if the frame is
/// truncated in its first octets.
fn is_read_behind(rt: &impl Abort, alloc: Global, tags: usize) -> bool {
    (held_in_ethernet(rt, alloc, tags, [0x08, 0x00], &TCP, WHOLE) == Holding::Packet(6, 1000, 443))
        & (held_in_ethernet(rt, alloc, tags, [0x08, 0x00], &TCP, 13) == Holding::Passed(0, 1))
}

#[test]
fn passes_over_tags(rt: HostRuntime) {
    for tags in &LENGTHS {
        assert!(rt; is_read_behind(&rt, rt.alloc(), *tags));
    }
}

/// Returns whether an Ethernet frame is skipped, as another or as a malformed one.
fn is_passed_over(
    rt: &impl Abort,
    alloc: Global,
    tags: usize,
    ether_type: [u8; 2],
    octets: &[u8],
    other: u64,
    malformed: u64,
) -> bool {
    held_in_ethernet(rt, alloc, tags, ether_type, octets, WHOLE)
        == Holding::Passed(other, malformed)
}

#[test]
fn passes_over_other_frames(rt: HostRuntime) {
    let alloc = rt.alloc();
    assert!(rt;
        is_passed_over(&rt, alloc, 4, [0x08, 0x06], &[], 1, 0)
            & is_passed_over(&rt, alloc, 0, [0x08, 0x00], &[], 0, 1)
            & is_passed_over(&rt, alloc, 0, [0x08, 0x00], &changed(0, 0x65), 0, 1)
    );
}

/// Packets, how many of their octets were captured, and the content of a capture of them.
const CUT: [(&[u8], usize, Holding); 4] = [
    (&[], 0, Holding::Passed(0, 1)),
    (&[0x50], 1, Holding::Passed(1, 0)),
    (&TCP, 19, Holding::Passed(0, 1)),
    (&TCP, 24, Holding::Packet(6, 1000, 443)),
];

#[test]
fn reads_a_packet_and_passes_over_cut_ones(rt: HostRuntime) {
    for (packet, captured, holding) in &CUT {
        assert!(rt; held(&rt, rt.alloc(), 101, front(*packet, *captured)) == *holding);
    }
}

/// Octets that replace those at indices of the packet, and the content of a capture of it then.
const CHANGED: [(usize, u8, Holding); 8] = [
    // More fragments, and a reserved bit: the offset is 0. Then an offset of 1.
    (6, 0xe0, Holding::Packet(6, 1000, 443)),
    (7, 1, Holding::Packet(6, 0, 0)),
    // Protocols with ports and without.
    (9, 132, Holding::Packet(132, 1000, 443)),
    (9, 50, Holding::Packet(50, 0, 0)),
    // A header of 16 octets; a total length of 19; one of 20, with ports after it; and truncated options.
    (0, 0x44, Holding::Passed(0, 1)),
    (3, 19, Holding::Passed(0, 1)),
    (3, 20, Holding::Passed(0, 1)),
    (0, 0x46, Holding::Passed(0, 1)),
];

#[test]
fn reads_ports_of_first_fragments_and_tells_malformed_packets(rt: HostRuntime) {
    for (at, octet, holding) in &CHANGED {
        assert!(rt; held(&rt, rt.alloc(), 101, &changed(*at, *octet)) == *holding);
    }
}

/// UDP with ports 53 and 1000.
const UDP: [u8; 8] = [0x00, 0x35, 0x03, 0xe8, 0, 8, 0, 0];

/// After a fixed header: hop-by-hop options (a router alert, RFC 2711), then UDP with ports 53 and 1000.
const HOP_BY_HOP: [u8; 16] = [
    17, 0, 5, 2, 0, 0, 1, 0, //
    0x00, 0x35, 0x03, 0xe8, 0, 8, 0, 0,
];

/// A routing header with one address (RFC 6275, section 6.4), then TCP's ports.
const ROUTING: [u8; 28] = [
    6, 2, 2, 1, 0, 0, 0, 0, 0, 0, 0, 0, 0, 0, 0, 0, 0, 0, 0, 0, 0, 0, 0, 1, //
    0x00, 0x35, 0x03, 0xe8,
];

/// Destination options of 16 octets, all of them padding, then SCTP's ports.
const OPTIONS: [u8; 20] = [
    132, 1, 1, 12, 0, 0, 0, 0, 0, 0, 0, 0, 0, 0, 0, 0, //
    0x00, 0x35, 0x03, 0xe8,
];

/// A first fragment, with its reserved bits and more to come, then UDP.
const FIRST: [u8; 16] = [
    17, 255, 0, 7, 0, 0, 0, 1, //
    0x00, 0x35, 0x03, 0xe8, 0, 8, 0, 0,
];

/// A complete fragment, options, routing, options, hop-by-hop options, then UDP.
const MANY: [u8; 48] = [
    60, 0, 0, 0, 0, 0, 0, 1, //
    43, 0, 1, 4, 0, 0, 0, 0, //
    60, 0, 253, 0, 0, 0, 0, 0, //
    0, 0, 1, 4, 0, 0, 0, 0, //
    17, 0, 5, 2, 0, 0, 1, 0, //
    0x00, 0x35, 0x03, 0xe8, 0, 8, 0, 0,
];

/// A jumbo payload of 65,544 octets (RFC 2675), then UDP.
const JUMBO: [u8; 16] = [
    17, 0, 0xc2, 4, 0, 1, 0, 8, //
    0x00, 0x35, 0x03, 0xe8, 0, 0, 0, 0,
];

/// Returns an IPv6 packet with this payload length and next header, and the captured octets of its payload.
fn packet6(rt: &impl Abort, alloc: Global, length: u8, next_header: u8, payload: &[u8]) -> Vec<u8> {
    let fixed = [0x6b, 0x80, 0, 0, 0, length, next_header, 64];
    [fixed.as_slice(), &[0; 32], payload]
        .concat(alloc)
        .expect(rt, "memory")
}

/// Returns the content of a raw capture of one IPv6 packet.
fn held6(rt: &impl Abort, alloc: Global, length: u8, next_header: u8, payload: &[u8]) -> Holding {
    held(
        rt,
        alloc,
        101,
        packet6(rt, alloc, length, next_header, payload).as_slice(),
    )
}

/// An IPv6 packet, given by its payload length and next header, its payload, and how many octets of that were captured;
/// and the content of a capture of it.
type Case6 = (u8, u8, &'static [u8], usize, Holding);

/// Returns whether captures of these packets have the expected content.
fn hold6(rt: &impl Abort, alloc: Global, cases: &[Case6]) -> bool {
    let mut all = true;
    for (length, next_header, payload, captured, holding) in cases {
        let found = held6(rt, alloc, *length, *next_header, front(*payload, *captured));
        all &= found == *holding;
    }
    all
}

const EXTENDED: [Case6; 6] = [
    (8, 17, &UDP, 8, Holding::Packet(17, 53, 1000)),
    (16, 0, &HOP_BY_HOP, 16, Holding::Packet(17, 53, 1000)),
    (28, 43, &ROUTING, 28, Holding::Packet(6, 53, 1000)),
    (20, 60, &OPTIONS, 20, Holding::Packet(132, 53, 1000)),
    (16, 44, &FIRST, 16, Holding::Packet(17, 53, 1000)),
    (48, 44, &MANY, 48, Holding::Packet(17, 53, 1000)),
];

#[test]
fn passes_over_extension_headers(rt: HostRuntime) {
    assert!(rt; hold6(&rt, rt.alloc(), &EXTENDED));
}

const WITHOUT_PORTS: [Case6; 7] = [
    (0, 59, &[], 0, Holding::Packet(59, 0, 0)),
    (4, 58, &[128, 0, 0, 0], 4, Holding::Packet(58, 0, 0)),
    (16, 50, &HOP_BY_HOP, 16, Holding::Packet(50, 0, 0)),
    (16, 51, &HOP_BY_HOP, 16, Holding::Packet(51, 0, 0)),
    // Fragments with an offset of 1, with the greatest offset, and one whose first fragment has more headers.
    (
        12,
        44,
        &[17, 0, 0, 8, 0, 0, 0, 1, 0, 53, 3, 232],
        12,
        Holding::Packet(17, 0, 0),
    ),
    (
        8,
        44,
        &[6, 0, 0xff, 0xf8, 0, 0, 0, 1],
        8,
        Holding::Packet(6, 0, 0),
    ),
    (
        12,
        44,
        &[0, 0, 1, 0, 0, 0, 0, 1, 17, 0, 0, 0],
        12,
        Holding::Packet(0, 0, 0),
    ),
];

#[test]
fn reads_no_ports_of_other_protocols_and_later_fragments(rt: HostRuntime) {
    assert!(rt; hold6(&rt, rt.alloc(), &WITHOUT_PORTS));
}

const CUT6: [Case6; 14] = [
    // Ports, limited by the captured octets and by the payload length.
    (8, 17, &UDP, 3, Holding::Passed(0, 1)),
    (3, 17, &UDP, 8, Holding::Passed(0, 1)),
    (4, 17, &UDP, 4, Holding::Packet(17, 53, 1000)),
    (16, 0, &HOP_BY_HOP, 11, Holding::Passed(0, 1)),
    (11, 0, &HOP_BY_HOP, 16, Holding::Passed(0, 1)),
    (12, 0, &HOP_BY_HOP, 12, Holding::Packet(17, 53, 1000)),
    // An extension header, of which two octets are read, or four of a fragment header.
    (16, 0, &HOP_BY_HOP, 1, Holding::Passed(0, 1)),
    (1, 0, &HOP_BY_HOP, 16, Holding::Passed(0, 1)),
    (16, 44, &FIRST, 3, Holding::Passed(0, 1)),
    (3, 44, &FIRST, 16, Holding::Passed(0, 1)),
    (8, 60, &[58, 0], 2, Holding::Packet(58, 0, 0)),
    (8, 44, &[17, 0, 0, 8], 4, Holding::Packet(17, 0, 0)),
    // A header that ends after the packet.
    (8, 60, &[17, 2, 1, 4, 0, 0, 0, 0], 8, Holding::Passed(0, 1)),
    (0, 0, &JUMBO, 16, Holding::Passed(0, 1)),
];

#[test]
fn passes_over_cut_packets_of_version_6(rt: HostRuntime) {
    assert!(rt; hold6(&rt, rt.alloc(), &CUT6));
}

/// Returns whether a raw capture of the fixed header without its last octet contains a malformed frame.
fn is_cut6(rt: &impl Abort, alloc: Global) -> bool {
    let packet = packet6(rt, alloc, 0, 59, &[]);
    held(rt, alloc, 101, front(packet.as_slice(), 39)) == Holding::Passed(0, 1)
}

/// Returns the content of a capture of an Ethernet frame with an IPv6 packet.
fn held6_in_ethernet(rt: &impl Abort, alloc: Global, tags: usize, ether_type: [u8; 2]) -> Holding {
    let packet = packet6(rt, alloc, 16, 0, &HOP_BY_HOP);
    held_in_ethernet(rt, alloc, tags, ether_type, packet.as_slice(), WHOLE)
}

#[test]
fn reads_version_6_behind_tags(rt: HostRuntime) {
    for tags in &LENGTHS {
        let holding = held6_in_ethernet(&rt, rt.alloc(), *tags, [0x86, 0xdd]);
        assert!(rt; holding == Holding::Packet(17, 53, 1000));
    }
}

#[test]
fn reads_version_6_behind_its_ether_type(rt: HostRuntime) {
    let alloc = rt.alloc();
    assert!(rt;
        (held6_in_ethernet(&rt, alloc, 0, [0x08, 0x00]) == Holding::Passed(0, 1))
            & is_passed_over(&rt, alloc, 8, [0x86, 0xdd], &TCP, 0, 1)
            & is_passed_over(&rt, alloc, 0, [0x86, 0xdd], &[], 0, 1)
            & is_cut6(&rt, alloc)
    );
}
