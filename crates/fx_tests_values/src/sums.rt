//! Texts of totals that are added up, and the text of the sum.
use crate::answers::{ends, is_refused};
use fx_base::{Fault, Fuse, LineReader, Octets, Room, Source};
use fx_elements::Axis;
use fx_layout::{Layout, Seed};
use fx_sums::{Sum, sums_of_parts, totals_texts};
use std::alloc::Global;
use std::process::Abort;

/// Returns a layout of 24 bits of the source and of the protocol.
fn layout(rt: &impl Abort) -> Layout {
    let layout = Layout::new().with(Axis::Source, 24).expect(rt, "source");
    layout.with(Axis::Protocol, 8).expect(rt, "protocol")
}

/// Returns a layout of the version and of 32 bits of the IPv6 source.
fn layout_of_ipv6(rt: &impl Abort) -> Layout {
    let layout = Layout::new().with(Axis::Version, 8).expect(rt, "version");
    layout.with(Axis::Source6, 32).expect(rt, "source")
}

/// Adds texts to a sum.
fn add<S: Source>(alloc: Global, sum: &mut Sum, texts: S) -> Result<(), Fault> {
    let mut lines = LineReader::new(alloc, texts)?;
    sum.add_texts(&mut lines)
}

/// Returns whether a sum's text is the given one.
fn is_text(sum: &mut Sum, text: &[u8]) -> bool {
    let mut octets = [0u8; 512];
    let mut room = Room::new(&mut octets);
    match sum.sort() {
        Ok(()) => ends(sum.put_text(&mut room), 0) & (room.octets() == text),
        Err(_) => false,
    }
}

/// Returns whether the sum of these texts is the given one.
fn comes(
    rt: &impl Abort,
    alloc: Global,
    seed: Seed,
    layout: &Layout,
    texts: &[&[u8]],
    text: &[u8],
) -> bool {
    let mut sum = Sum::new(alloc, seed, layout.copy()).expect(rt, "memory");
    for part in texts {
        add(alloc, &mut sum, Octets::new(*part)).expect(rt, "a text");
    }
    is_text(&mut sum, text)
}

/// Returns whether the sum of these texts is the given one, which alone is its own sum.
fn come_to(rt: &impl Abort, alloc: Global, layout: &Layout, texts: &[&[u8]], text: &[u8]) -> bool {
    comes(rt, alloc, Seed::new(1, 2), layout, texts, text)
        & comes(rt, alloc, Seed::new(3, 4), layout, &[text], text)
}

/// Totals of two streams.
const FIRST: &[u8] =
    b"keys 2\n10.1.1.0/24 6 packets 3 octets 300\n10.1.2.0/24 17 packets 1 octets 40\nunassigned 2\ngaps 1\nskipped 5\n";

const SECOND: &[u8] =
    b"keys 2\n10.1.0.0/24 6 packets 7 octets 70\n10.1.1.0/24 6 packets 2 octets 11\nunassigned 1\ngaps 2\nskipped 0\n";

/// Totals of a run over a capture, and of two replays.
const RUN: &[u8] =
    b"keys 1\n10.1.1.0/24 6 packets 1 octets 1\nunassigned 0\nskipped other 4 malformed 6\n";

const WHOLE: &[u8] = b"keys 0\nunassigned 0\ncomplete yes\n";

const PART: &[u8] = b"keys 1\n10.1.1.0/24 7 packets 1 octets 1\nunassigned 0\ncomplete no\n";

#[test]
fn adds_streams_up(rt: HostRuntime) {
    sums_of_parts();
    totals_texts();
    let text =
        b"keys 3\n10.1.0.0/24 6 packets 7 octets 70\n10.1.1.0/24 6 packets 5 octets 311\n10.1.2.0/24 17 packets 1 octets 40\nunassigned 3\ngaps 3\nskipped 5\n";
    let layout = layout(&rt);
    assert!(rt;
        come_to(&rt, rt.alloc(), &layout, &[FIRST, SECOND], text)
            & come_to(&rt, rt.alloc(), &layout, &[SECOND, FIRST], text)
    );
}

#[test]
fn adds_texts_of_one_source(rt: HostRuntime) {
    let texts =
        b"keys 2\n10.1.1.0/24 6 packets 3 octets 300\n10.1.2.0/24 17 packets 1 octets 40\nunassigned 2\ngaps 1\nskipped 5\nkeys 0\nunassigned 4\nkeys 1\n10.1.0.0/24 6 packets 7 octets 70\nunassigned 1\ncomplete yes\nkeys 1\n10.1.0.0/24 6 packets 1 octets 1\nunassigned 0\ncomplete no\ngaps 2\nskipped 0\n";
    let text =
        b"keys 3\n10.1.0.0/24 6 packets 8 octets 71\n10.1.1.0/24 6 packets 3 octets 300\n10.1.2.0/24 17 packets 1 octets 40\nunassigned 7\ncomplete no\ngaps 3\nskipped 5\n";
    let twice = b"keys 0\nunassigned 0\ncomplete yes\nkeys 0\nunassigned 0\ncomplete yes\n";
    let layout = layout(&rt);
    assert!(rt;
        come_to(&rt, rt.alloc(), &layout, &[texts], text)
            & come_to(&rt, rt.alloc(), &layout, &[twice, WHOLE], WHOLE)
    );
}

#[test]
fn tells_notes_of_all_kinds(rt: HostRuntime) {
    let text =
        b"keys 3\n10.1.1.0/24 6 packets 5 octets 302\n10.1.1.0/24 7 packets 1 octets 1\n10.1.2.0/24 17 packets 1 octets 40\nunassigned 2\ncomplete no\nskipped other 8 malformed 12\ngaps 1\nskipped 5\n";
    let layout = layout(&rt);
    assert!(rt;
        come_to(
            &rt,
            rt.alloc(),
            &layout,
            &[RUN, WHOLE, FIRST, PART, RUN],
            text
        ) & come_to(&rt, rt.alloc(), &layout, &[WHOLE, WHOLE], WHOLE)
            & come_to(&rt, rt.alloc(), &layout, &[], b"keys 0\nunassigned 0\n")
    );
}

#[test]
fn adds_modulo_2_to_the_64(rt: HostRuntime) {
    let most =
        b"keys 1\nall packets 18446744073709551615 octets 18446744073709551615\nunassigned 18446744073709551615\n";
    let two = b"keys 1\nall packets 2 octets 3\nunassigned 4\n";
    let text = b"keys 1\nall packets 1 octets 2\nunassigned 3\n";
    assert!(rt; come_to(&rt, rt.alloc(), &Layout::new(), &[most, two], text));
}

#[test]
fn adds_totals_of_ipv6(rt: HostRuntime) {
    let one = b"keys 1\n6 2001:db8:0:0:0:0:0:0/32 packets 3 octets 9\nunassigned 0\n";
    let text = b"keys 1\n6 2001:db8:0:0:0:0:0:0/32 packets 6 octets 18\nunassigned 0\n";
    let layout = layout_of_ipv6(&rt);
    assert!(rt; come_to(&rt, rt.alloc(), &layout, &[one, one], text));
}

/// Octets that are no texts of totals, and the line at which they are refused.
const REFUSED: [(&[u8], u64); 41] = [
    (b"", 1),
    (b"keys 0", 1),
    (b"keys 00\nunassigned 0\n", 1),
    (b"key 0\nunassigned 0\n", 1),
    (b"keys  0\nunassigned 0\n", 1),
    (b"keys 0 \nunassigned 0\n", 1),
    (b"keys 0\r\nunassigned 0\r\n", 1),
    (b"keys 18446744073709551616\nunassigned 0\n", 1),
    (b"keys 0\n", 2),
    (b"keys 1\nunassigned 0\n", 2),
    (
        b"keys 0\n10.1.1.0/24 6 packets 1 octets 1\nunassigned 0\n",
        2,
    ),
    (
        b"keys 1\n10.1.1.1/24 6 packets 1 octets 1\nunassigned 0\n",
        2,
    ),
    (
        b"keys 1\n10.1.1.0/25 6 packets 1 octets 1\nunassigned 0\n",
        2,
    ),
    (b"keys 1\n10.1.1.0 6 packets 1 octets 1\nunassigned 0\n", 2),
    (
        b"keys 1\n10.1.1.0/24 256 packets 1 octets 1\nunassigned 0\n",
        2,
    ),
    (b"keys 1\n10.1.1.0/24 packets 1 octets 1\nunassigned 0\n", 2),
    (
        b"keys 1\n10.1.1.0/24 6 7 packets 1 octets 1\nunassigned 0\n",
        2,
    ),
    (b"keys 1\nall packets 1 octets 1\nunassigned 0\n", 2),
    (
        b"keys 1\n10.1.1.0/24 6 octets 1 packets 1\nunassigned 0\n",
        2,
    ),
    (
        b"keys 1\n10.1.1.0/24 6 packets 1 octets 1 \nunassigned 0\n",
        2,
    ),
    (
        b"keys 1\n10.1.1.0/24 6 packets 1 octets -1\nunassigned 0\n",
        2,
    ),
    (
        b"keys 2\n10.1.1.0/24 6 packets 1 octets 1\n10.1.1.0/24 6 packets 1 octets 1\nunassigned 0\n",
        3,
    ),
    (
        b"keys 2\n10.1.1.0/24 6 packets 1 octets 1\n10.1.0.0/24 9 packets 1 octets 1\nunassigned 0\n",
        3,
    ),
    (
        b"keys 1\n10.1.1.0/24 6 packets 1 octets 1\n10.1.2.0/24 6 packets 1 octets 1\nunassigned 0\n",
        3,
    ),
    (b"keys 0\nunassigned 0\nunassigned 0\n", 3),
    (b"keys 0\nunassigned 0\n\n", 3),
    (b"keys 0\nunassigned 0\ncomplete maybe\n", 3),
    (b"keys 0\nunassigned 0\ncomplete yes no\n", 3),
    (b"keys 0\nunassigned 0\ncomplete yes\ncomplete yes\n", 4),
    (
        b"keys 0\nunassigned 0\nskipped other 1 malformed 1\ncomplete yes\n",
        4,
    ),
    (b"keys 0\nunassigned 0\nskipped 1\ngaps 1\n", 3),
    (b"keys 0\nunassigned 0\ngaps 1\n", 4),
    (b"keys 0\nunassigned 0\ngaps 1\nskipped 1\nskipped 1\n", 5),
    (
        b"keys 0\nunassigned 0\ngaps 1\nskipped 1\nskipped other 1 malformed 1\n",
        5,
    ),
    (b"keys 0\nunassigned 0\nkeys 0\n", 4),
    (b"keys 0\nunassigned 0\nkeys 1\nunassigned 0\n", 4),
    (b"keys 0\nunassigned 0\nkeys 0 \nunassigned 0\n", 3),
    (b"keys 0\nunassigned 0\ngaps 1\nkeys 0\nunassigned 0\n", 4),
    (b"keys 0\nkeys 0\nunassigned 0\n", 2),
    (
        b"keys 0\nunassigned 0\ncomplete yes\nkeys 0\nunassigned 0\ngaps 1\n",
        7,
    ),
    (
        b"keys 0\nunassigned 0\ncomplete yes\nkeys 0\nunassigned 0\ncomplete yes\ncomplete yes\n",
        7,
    ),
];

/// Adds texts to an empty sum.
fn add_first<S: Source>(alloc: Global, layout: &Layout, texts: S) -> Result<(), Fault> {
    let mut sum = Sum::new(alloc, Seed::new(1, 2), layout.copy())?;
    add(alloc, &mut sum, texts)
}

#[test]
fn refuses_other_texts(rt: HostRuntime) {
    let layout = layout(&rt);
    for (text, line) in &REFUSED {
        let answer = add_first(rt.alloc(), &layout, Octets::new(*text));
        assert!(rt; is_refused(answer, &Fault::at_line(861, *line)));
    }
}

#[test]
fn fails_where_a_read_fails(rt: HostRuntime) {
    let layout = layout(&rt);
    let texts = Fuse::new(Octets::new(FIRST), 1);
    assert!(rt; ends(add_first(rt.alloc(), &layout, texts), 901));
}
