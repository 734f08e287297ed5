//! Captures: frames that are lent, skipped and refused, at each truncation and each failing read.
ghost use Rattle.std.specs.Prelude.{false, Some};

use crate::answers::{ends, is_refused};
use crate::packets::{TCP, capture_of};
use fx_base::{Fault, Fuse, Octets, Source};
use fx_elements::Axis;
use fx_pcap::{Capture, Frame, headers_one_by_one, records_by_cases};
use std::alloc::Global;
use std::process::Abort;

/// Ethernet, little-endian, nanoseconds: a tagged packet, a later fragment, a packet without ports, and a truncated
/// record.
const CAPTURE: [u8; 201] = [
    0x4d, 0x3c, 0xb2, 0xa1, 0x02, 0x00, 0x04, 0x00, 0x00, 0x00, 0x00, 0x00, 0x00, 0x00, 0x00, 0x00,
    0x00, 0x00, 0x04, 0x00, 0x01, 0x00, 0x00, 0x00, 0x01, 0x00, 0x00, 0x00, 0x00, 0x00, 0x00, 0x00,
    0x2a, 0x00, 0x00, 0x00, 0x3a, 0x00, 0x00, 0x00, 0x00, 0x00, 0x00, 0x00, 0x00, 0x00, 0x00, 0x00,
    0x00, 0x00, 0x00, 0x00, 0x81, 0x00, 0x00, 0x05, 0x08, 0x00, 0x45, 0x00, 0x00, 0x28, 0x00, 0x00,
    0x00, 0x00, 0x40, 0x06, 0x00, 0x00, 0x0a, 0x00, 0x00, 0x01, 0xc0, 0x00, 0x02, 0x01, 0x03, 0xe8,
    0x01, 0xbb, 0x02, 0x00, 0x00, 0x00, 0x00, 0x00, 0x00, 0x00, 0x22, 0x00, 0x00, 0x00, 0x16, 0x02,
    0x00, 0x00, 0x00, 0x00, 0x00, 0x00, 0x00, 0x00, 0x00, 0x00, 0x00, 0x00, 0x00, 0x00, 0x08, 0x00,
    0x45, 0x00, 0x02, 0x08, 0x00, 0x00, 0x00, 0xb9, 0x40, 0x11, 0x00, 0x00, 0x0a, 0x00, 0x00, 0x01,
    0xc0, 0x00, 0x02, 0x01, 0x03, 0x00, 0x00, 0x00, 0x00, 0x00, 0x00, 0x00, 0x22, 0x00, 0x00, 0x00,
    0x62, 0x00, 0x00, 0x00, 0x00, 0x00, 0x00, 0x00, 0x00, 0x00, 0x00, 0x00, 0x00, 0x00, 0x00, 0x00,
    0x08, 0x00, 0x45, 0x00, 0x00, 0x54, 0x00, 0x00, 0x00, 0x00, 0x40, 0x01, 0x00, 0x00, 0x0a, 0x00,
    0x00, 0x01, 0xc0, 0x00, 0x02, 0x01, 0x04, 0x00, 0x00, 0x00, 0x00, 0x00, 0x00, 0x00, 0x3c, 0x00,
    0x00, 0x00, 0x3c, 0x00, 0x00, 0x00, 0x00, 0x00, 0x00,
];

/// A source that returns three octets per call.
#[derive(Drop)]
struct Drops<'a> {
    rest: &'a [u8],
    calls: u64,
}

impl Source for Drops<'_> {
    ghost left = { λ s. Some s.rest.now };

    ghost failed = { λ _. false };

    ghost calls = { λ s. s.calls };

    fn read(&mut self, buffer: &mut [u8]) -> Result<usize, Fault> {
        self.calls = self.calls.wrapping_add(1);
        let n = buffer.len().min(self.rest.len()).min(3);
        let (now, later) = self.rest.split_at(n);
        buffer[..n].copy_from_slice(now);
        self.rest = later;
        Ok(n)
    }
}

/// The content of a frame: protocol, ports, class of service, octets and second.
type Said = ([u128; 4], u32, u32);

/// Returns whether a frame has this content.
fn says(frame: &Frame<'_>, said: &Said) -> bool {
    let fields = [
        frame.fields.get(Axis::Protocol),
        frame.fields.get(Axis::SourcePort),
        frame.fields.get(Axis::DestinationPort),
        frame.fields.get(Axis::ClassOfService),
    ];
    fields == said.0 && frame.octets == said.1 && frame.second == said.2
}

/// Returns whether a frame is lent, and has this content.
fn is_lent(lent: Result<Option<Frame<'_>>, Fault>, said: &Said) -> bool {
    match lent {
        Ok(Some(frame)) => says(&frame, said),
        Ok(None) => false,
        Err(_fault) => false,
    }
}

/// Returns whether a capture's next frames are the given ones.
fn lends<S: Source>(capture: &mut Capture<S>, frames: &[Said]) -> bool {
    let mut all = true;
    for said in frames {
        all &= is_lent(capture.next_packet(), said);
    }
    all
}

/// Returns the number of frames, and the number of the fault that ends them, or 0.
fn count<S: Source>(capture: &mut Capture<S>) -> (u32, u16) {
    for n in 0..1000u32 {
        match capture.advance() {
            Ok(true) => {}
            Ok(false) => return (n, 0),
            Err(fault) => return (n, fault.number),
        }
    }
    (1000, 0)
}

/// Returns whether a capture lends these frames, and is refused with this fault from then on.
fn fails_behind<S: Source>(
    rt: &impl Abort,
    alloc: Global,
    source: S,
    frames: &[Said],
    fault: &Fault,
) -> bool {
    let mut capture = Capture::new(alloc, source).expect(rt, "a capture");
    lends(&mut capture, frames)
        & is_refused(capture.next_packet(), fault)
        & is_refused(capture.next_packet(), fault)
        & is_refused(capture.advance(), fault)
}

const FRAMES: [Said; 3] = [
    ([6, 1000, 443, 0], 40, 1),
    ([17, 0, 0, 0], 520, 2),
    ([1, 0, 0, 0], 84, 3),
];

#[test]
fn lends_frames(rt: HostRuntime) {
    let source = Octets::new(&CAPTURE);
    assert!(rt; fails_behind(&rt, rt.alloc(), source, &FRAMES, &Fault::at_octet(703, 182)));
}

/// Returns whether the next frame has these octets, source and destination.
fn lends_octets<S: Source>(
    capture: &mut Capture<S>,
    octets: &[u8],
    source: u128,
    destination: u128,
) -> bool {
    if !capture.advance().unwrap_or(false) {
        return false;
    }
    let frame = capture.frame();
    frame.captured == octets
        && frame.fields.get(Axis::Source) == source
        && frame.fields.get(Axis::Destination) == destination
}

#[test]
fn lends_the_buffer(rt: HostRuntime) {
    let mut capture = Capture::new(rt.alloc(), Octets::new(&CAPTURE)).expect(&rt, "a capture");
    assert!(rt; lends_octets(&mut capture, &CAPTURE[40..82], 0x0a00_0001, 0xc000_0201));
}

/// Returns the number of frames and of the fault that ends them, counted twice, or the number of the file header's
/// fault.
fn counts_in<S: Source>(alloc: Global, source: S) -> Result<[(u32, u16); 2], u16> {
    match Capture::new(alloc, source) {
        Ok(mut capture) => Ok([count(&mut capture), count(&mut capture)]),
        Err(fault) => Err(fault.number),
    }
}

/// Returns the number of frames in the first octets of the capture and the number of the fault that ends them, or that
/// of the file header's fault.
fn counts_of_cut(octets: usize) -> Result<(u32, u16), u16> {
    match octets {
        0..24 => Err(701),
        24 => Ok((0, 0)),
        25..82 => Ok((0, 703)),
        82 => Ok((1, 0)),
        83..132 => Ok((1, 703)),
        132 => Ok((2, 0)),
        133..182 => Ok((2, 703)),
        182 => Ok((3, 0)),
        _ => Ok((3, 703)),
    }
}

/// Returns the counts that are expected when the frames are counted twice.
fn twice(counts: Result<(u32, u16), u16>) -> Result<[(u32, u16); 2], u16> {
    let (n, number) = counts?;
    Ok([(n, number), (0, number)])
}

#[test]
fn reads_every_cut(rt: HostRuntime) {
    for n in 0..=201usize {
        let found = counts_in(rt.alloc(), Octets::new(&CAPTURE[..n]));
        assert!(rt; found == twice(counts_of_cut(n)));
    }
}

/// Returns whether no reader of this capture is created because of this fault.
fn is_other(alloc: Global, octets: &[u8], fault: &Fault) -> bool {
    is_refused(Capture::new(alloc, Octets::new(octets)), fault)
}

/// Returns whether a capture of the packet with this magic and link type is refused with this fault.
fn is_other_link(rt: &impl Abort, alloc: Global, magic: u32, link: u8, fault: &Fault) -> bool {
    let octets = capture_of(rt, alloc, true, magic, link, &TCP);
    is_other(alloc, octets.as_slice(), fault)
}

/// A file header of version 3, and the magic of pcapng.
const OTHERS: [&[u8]; 2] = [
    &[
        0x4d, 0x3c, 0xb2, 0xa1, 2, 0, 3, 0, 0, 0, 0, 0, 0, 0, 0, 0, 0, 0, 4, 0, 1, 0, 0, 0,
    ],
    &[0x0a, 0x0d, 0x0d, 0x0a],
];

#[test]
fn refuses_other_captures(rt: HostRuntime) {
    for octets in &OTHERS {
        assert!(rt; is_other(rt.alloc(), *octets, &Fault::at_octet(701, 0)));
    }
}

#[test]
fn refuses_other_magics_and_links(rt: HostRuntime) {
    assert!(rt;
        is_other_link(&rt, rt.alloc(), 0x0a0d_0d0a, 1, &Fault::at_octet(701, 0))
            & is_other_link(&rt, rt.alloc(), 0xa1b2_c3d4, 102, &Fault::bare(702))
    );
}

/// A raw capture up to the header of a record that is too long.
const TOO_LONG: [u8; 40] = [
    0xa1, 0xb2, 0xc3, 0xd4, 0, 2, 0, 4, 0, 0, 0, 0, 0, 0, 0, 0, 0, 4, 0, 0, 0, 0, 0, 101, //
    0, 0, 0, 1, 0, 0, 0, 0, 0, 4, 0, 1, 0, 4, 0, 1,
];

#[test]
fn refuses_too_long_records_first(rt: HostRuntime) {
    let source = Octets::new(&TOO_LONG);
    assert!(rt; fails_behind(&rt, rt.alloc(), source, &[], &Fault::at_octet(704, 24)));
}

/// The two counts of the capture if the read with this number fails.
const FAILING: [(u64, [(u32, u16); 2]); 2] = [(2, [(3, 901), (0, 901)]), (3, [(3, 703), (0, 703)])];

#[test]
fn fails_at_each_read(rt: HostRuntime) {
    assert!(rt;
        ends(
            Capture::new(rt.alloc(), Fuse::new(Octets::new(&CAPTURE), 1)),
            901
        )
    );
    for (calls, counts) in &FAILING {
        let found = counts_in(rt.alloc(), Fuse::new(Octets::new(&CAPTURE), *calls));
        assert!(rt; found == Ok(*counts));
    }
}

#[test]
fn reads_in_pieces(rt: HostRuntime) {
    records_by_cases();
    headers_one_by_one();
    let source = Drops {
        rest: &CAPTURE,
        calls: 0,
    };
    let mut capture = Capture::new(rt.alloc(), source).expect(&rt, "a capture");
    // 67 calls return three octets each, and one finds the end.
    assert!(rt;
        lends(&mut capture, &FRAMES[..1])
            & (count(&mut capture) == (2, 703))
            & (capture.get_ref().calls == 68)
    );
}

/// An IPv6 packet from 2001:db8::1 to 2001:db8::2: destination options, then UDP.
const OPTIONS: [u8; 56] = [
    0x6b, 0x80, 0x00, 0x00, 0x00, 0x10, 0x3c, 0x40, //
    0x20, 0x01, 0x0d, 0xb8, 0x00, 0x00, 0x00, 0x00, 0x00, 0x00, 0x00, 0x00, 0x00, 0x00, 0x00, 0x01,
    0x20, 0x01, 0x0d, 0xb8, 0x00, 0x00, 0x00, 0x00, 0x00, 0x00, 0x00, 0x00, 0x00, 0x00, 0x00, 0x02,
    0x11, 0x00, 0x01, 0x04, 0x00, 0x00, 0x00, 0x00, 0x00, 0x35, 0x03, 0xe8, 0x00, 0x08, 0x00, 0x00,
];

/// The same packet with a fragment header with an offset of 1 instead of the options.
const FRAGMENT: [u8; 56] = [
    0x6b, 0x80, 0x00, 0x00, 0x00, 0x10, 0x2c, 0x40, //
    0x20, 0x01, 0x0d, 0xb8, 0x00, 0x00, 0x00, 0x00, 0x00, 0x00, 0x00, 0x00, 0x00, 0x00, 0x00, 0x01,
    0x20, 0x01, 0x0d, 0xb8, 0x00, 0x00, 0x00, 0x00, 0x00, 0x00, 0x00, 0x00, 0x00, 0x00, 0x00, 0x02,
    0x11, 0x00, 0x00, 0x08, 0x00, 0x00, 0x00, 0x01, 0x00, 0x35, 0x03, 0xe8, 0x00, 0x08, 0x00, 0x00,
];

/// A fixed header of ICMPv6 with traffic class 255 and the greatest payload length, without any captured payload.
const LONGEST: [u8; 40] = [
    0x6f, 0xff, 0xff, 0xff, 0xff, 0xff, 0x3a, 0x40, //
    0x20, 0x01, 0x0d, 0xb8, 0x00, 0x00, 0x00, 0x00, 0x00, 0x00, 0x00, 0x00, 0x00, 0x00, 0x00, 0x01,
    0x20, 0x01, 0x0d, 0xb8, 0x00, 0x00, 0x00, 0x00, 0x00, 0x00, 0x00, 0x00, 0x00, 0x00, 0x00, 0x02,
];

/// The content of the one frame of a packet's capture, its version, and its IPv4 and IPv6 addresses.
type Whole = (Said, u128, [u128; 4]);

/// Returns whether a frame has this content, version and addresses.
fn says_whole(frame: &Frame<'_>, whole: &Whole) -> bool {
    let addresses = [
        frame.fields.get(Axis::Source),
        frame.fields.get(Axis::Destination),
        frame.fields.get(Axis::Source6),
        frame.fields.get(Axis::Destination6),
    ];
    says(frame, &whole.0) && frame.fields.get(Axis::Version) == whole.1 && addresses == whole.2
}

/// Returns whether a capture has exactly one frame, with this content.
fn has_one<S: Source>(rt: &impl Abort, alloc: Global, source: S, whole: &Whole) -> bool {
    let mut capture = Capture::new(alloc, source).expect(rt, "a capture");
    capture.advance().unwrap_or(false)
        & says_whole(&capture.frame(), whole)
        & !capture.advance().unwrap_or(true)
}

/// Returns whether a raw capture of the packet, in either octet order and with this magic, has exactly one frame, with
/// this content.
fn is_read(
    rt: &impl Abort,
    alloc: Global,
    big: bool,
    magic: u32,
    packet: &[u8],
    whole: &Whole,
) -> bool {
    let octets = capture_of(rt, alloc, big, magic, 101, packet);
    has_one(rt, alloc, Octets::new(octets.as_slice()), whole)
}

/// The content of the TCP packet.
const TCP_SAYS: Whole = (
    ([6, 1000, 443, 184], 40, 7),
    4,
    [0x0a00_0001, 0xc000_0201, 0, 0],
);

/// The octet orders of captures, and their magics.
const MAGICS: [(bool, u32); 4] = [
    (true, 0xa1b2_c3d4),
    (true, 0xa1b2_3c4d),
    (false, 0xa1b2_c3d4),
    (false, 0xa1b2_3c4d),
];

#[test]
fn reads_either_order_and_magic(rt: HostRuntime) {
    for (big, magic) in &MAGICS {
        assert!(rt; is_read(&rt, rt.alloc(), *big, *magic, &TCP, &TCP_SAYS));
    }
}

const FROM: u128 = 0x2001_0db8_0000_0000_0000_0000_0000_0001;

const TO: u128 = 0x2001_0db8_0000_0000_0000_0000_0000_0002;

/// Packets, and their content.
const PACKETS: [(&[u8], Whole); 4] = [
    (
        &OPTIONS,
        (([17, 53, 1000, 184], 56, 7), 6, [0, 0, FROM, TO]),
    ),
    (&FRAGMENT, (([17, 0, 0, 184], 56, 7), 6, [0, 0, FROM, TO])),
    (
        &LONGEST,
        (([58, 0, 0, 255], 65_575, 7), 6, [0, 0, FROM, TO]),
    ),
    (&TCP, TCP_SAYS),
];

#[test]
fn reads_either_version(rt: HostRuntime) {
    for (packet, whole) in &PACKETS {
        assert!(rt; is_read(&rt, rt.alloc(), true, 0xa1b2_c3d4, *packet, whole));
    }
}
