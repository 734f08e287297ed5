//! Lines, names, places, numbers and texts that are written, and devices that fail.
ghost use Rattle.std.specs.Prelude.{◌≤◌};

use crate::answers::{ends, is_refused};
use fx_base::{
    Counts, Fault, Fuse, Line, LineReader, Name, Octets, Outside, PieceReader, Room, Sink, Source,
    Window, entry_at, entry_numbered, put_fault, put_number, put_number_wide, put_place, put_text,
    read_whole,
};
use std::alloc::Global;
use std::process::Abort;

/// A line with one octet more than allowed.
const LONG: [u8; 4097] = [b'x'; 4097];

/// A line of the maximum length.
const LONGEST: [u8; 4096] = [b'x'; 4096];

/// A line's octets, its number, and whether a line feed ended it.
type Reported<'a> = (&'a [u8], u64, bool);

/// Texts, and the lines of each.
const TEXTS: [(&[u8], &[Reported<'static>]); 3] = [
    (
        b"one\n\nthree",
        &[(b"one", 1, true), (b"", 2, true), (b"three", 3, false)],
    ),
    (b"one\n", &[(b"one", 1, true)]),
    (&LONGEST, &[(&LONGEST, 1, false)]),
];

/// Two lines.
const TWO_LINES: [Reported<'static>; 2] = [(b"one", 1, true), (b"two", 2, true)];

/// The line before one that is too long.
const ONE_LINE: [Reported<'static>; 1] = [(b"one", 1, true)];

/// Returns whether a line is the given one.
fn is_line(line: Line<'_>, want: &Reported<'_>) -> bool {
    line.bytes == want.0 && line.number == want.1 && line.ended == want.2
}

/// Returns whether a lent line is the given one.
fn is_lent(lent: Result<Option<Line<'_>>, Fault>, want: &Reported<'_>) -> bool {
    match lent {
        Ok(Some(line)) => is_line(line, want),
        _ => false,
    }
}

/// Returns whether a reader's next lines are the given ones.
fn are_next<S: Source>(reader: &mut LineReader<S>, lines: &[Reported<'_>]) -> bool {
    let mut held = true;
    for line in lines {
        held &= is_lent(reader.next_line(), line)
            & is_line(reader.line(), line)
            & (reader.number() == line.1);
    }
    held
}

/// Returns whether no line is lent.
fn is_none(lent: Result<Option<Line<'_>>, Fault>) -> bool {
    match lent {
        Ok(line) => line.is_none(),
        Err(_) => false,
    }
}

/// Returns whether a source has exactly these lines.
fn has_lines<S: Source>(rt: &impl Abort, alloc: Global, source: S, lines: &[Reported<'_>]) -> bool {
    let mut reader = LineReader::new(alloc, source).expect(rt, "memory");
    are_next(&mut reader, lines)
        & is_none(reader.next_line())
        & !reader.advance().unwrap_or(true)
        & (reader.number() == lines.len() as u64)
}

#[test]
fn lends_lines_of_up_to_4096_bytes(rt: HostRuntime) {
    for (text, lines) in &TEXTS {
        assert!(rt; has_lines(&rt, rt.alloc(), Octets::new(text), lines));
    }
}

/// Returns whether a source has these lines, and a reader of it returns this fault from then on.
fn fails_behind<S: Source>(
    rt: &impl Abort,
    alloc: Global,
    source: S,
    lines: &[Reported<'_>],
    fault: &Fault,
) -> bool {
    let mut reader = LineReader::new(alloc, source).expect(rt, "memory");
    let _source: &S = reader.get_ref();
    let mut held = are_next(&mut reader, lines);
    for _ in 0..3u8 {
        held &= is_refused(reader.next_line(), fault) & is_refused(reader.advance(), fault);
    }
    held
}

#[test]
fn repeats_a_fault(rt: HostRuntime) {
    let source = Fuse::new(Octets::new(b"one\ntwo\n"), 2);
    assert!(rt; fails_behind(&rt, rt.alloc(), source, &TWO_LINES, &Fault::bare(901)));
}

#[test]
fn refuses_a_line_of_4097_bytes(rt: HostRuntime) {
    let mut text = [b'x'; 4102];
    text[..4].copy_from_slice(b"one\n");
    text[4101] = b'\n';
    let source = Octets::new(&text);
    assert!(rt; fails_behind(&rt, rt.alloc(), source, &ONE_LINE, &Fault::at_line(903, 2)));
}

/// Returns the name with this text.
fn name(rt: &impl Abort, alloc: Global, text: &str) -> Name {
    Name::read(alloc, text).expect(rt, "a name")
}

/// Returns whether a text is a valid name.
fn is_name(rt: &impl Abort, alloc: Global, text: &str) -> bool {
    name(rt, alloc, text).as_str() == text
}

/// Returns whether a text is refused as a name.
fn is_no_name(alloc: Global, text: &str) -> bool {
    ends(Name::read(alloc, text), 105)
}

/// Returns whether two texts are the same name.
fn are_same(rt: &impl Abort, alloc: Global, text: &str, other: &str) -> bool {
    name(rt, alloc, text).same(&name(rt, alloc, other))
}

#[test]
fn reads_names(rt: HostRuntime) {
    let alloc = rt.alloc();
    assert!(rt;
        is_name(&rt, alloc, "a b")
            & is_name(&rt, alloc, "\u{200B}x\u{200B}")
            & are_same(&rt, alloc, "a b", "a b")
            & !are_same(&rt, alloc, "a b", "a c")
    );
}

/// Texts that are no valid names.
const NO_NAMES: [&str; 8] = [
    "",
    " ",
    "x ",
    "\tx",
    "x\u{A0}",
    "\u{A0}x",
    "\u{3000}x",
    "x\u{3000}",
];

#[test]
fn refuses_names(rt: HostRuntime) {
    for text in &NO_NAMES {
        assert!(rt; is_no_name(rt.alloc(), *text));
    }
}

#[test]
fn reads_names_of_up_to_255_bytes(rt: HostRuntime) {
    let longest = str::from_utf8(&LONG[..255]).unwrap_or("");
    let longer = str::from_utf8(&LONG[..256]).unwrap_or("x");
    assert!(rt; is_name(&rt, rt.alloc(), longest) & is_no_name(rt.alloc(), longer));
}

/// Returns whether a fault's place is written and formatted as this text.
fn is_placed(rt: &impl Abort, alloc: Global, fault: Fault, want: &str) -> bool {
    let mut octets = [0u8; 32];
    let mut room = Room::new(&mut octets);
    put_place(&mut room, &fault.place).expect(rt, "room");
    let printed = fault.place.to_string(alloc).expect(rt, "memory");
    (room.octets() == want.as_bytes()) & (printed.as_str() == want)
}

/// Returns whether a text with control characters is written and formatted with question marks.
fn is_text_placed(rt: &impl Abort, alloc: Global) -> bool {
    let text = String::from_str(alloc, "/a\tb\u{7F}\u{1F} \u{80}\u{E9}/0").expect(rt, "memory");
    is_placed(
        rt,
        alloc,
        Fault::at_text(102, text),
        "/a?b?? \u{80}\u{E9}/0",
    )
}

#[test]
fn prints_places(rt: HostRuntime) {
    let alloc = rt.alloc();
    assert!(rt;
        is_placed(&rt, alloc, Fault::bare(105), "")
            & is_placed(&rt, alloc, Fault::at_line(903, 3), "line 3")
            & is_placed(&rt, alloc, Fault::at_octet(611, 0), "octet 0")
            & is_text_placed(&rt, alloc)
    );
}

/// Writes the least and the greatest numbers, and a fault with a place and one without. Returns whether there was room.
fn put_all<S: Sink>(sink: &mut S) -> bool {
    ends(put_number(sink, 0), 0)
        & ends(put_text(sink, b" "), 0)
        & ends(put_number(sink, u64::MAX), 0)
        & ends(put_text(sink, b" "), 0)
        & ends(put_number_wide(sink, u128::MAX), 0)
        & ends(put_text(sink, b"\n"), 0)
        & ends(put_fault(sink, &Fault::at_line(406, 7)), 0)
        & ends(put_text(sink, b"\n"), 0)
        & ends(put_fault(sink, &Fault::bare(101)), 0)
}

#[test]
fn puts_numbers_and_faults(rt: HostRuntime) {
    let mut octets = [0u8; 96];
    let mut room = Room::new(&mut octets);
    let is_put = put_all(&mut room);
    let want = "0 18446744073709551615 340282366920938463463374607431768211455\n406 line 7\n101";
    assert!(rt; is_put & (room.octets() == want.as_bytes()));
}

/// Returns whether a text is refused because there is no room.
fn is_full<S: Sink>(sink: &mut S, text: &[u8]) -> bool {
    ends(put_text(sink, text), 902)
}

#[test]
fn fills_room(rt: HostRuntime) {
    let mut octets = [0u8; 4];
    let mut room = Room::new(&mut octets);
    let is_filled = is_full(&mut room, b"12345") & (room.octets() == b"1234".as_slice());
    assert!(rt;
        is_filled & ends(put_text(&mut room, b""), 0) & ends(put_number(&mut room, 5), 902)
    );
}

/// Writes three texts, and returns whether only the second is refused.
fn fails_at_second<S: Sink>(sink: &mut S) -> bool {
    ends(put_text(sink, b"1"), 0) & is_full(sink, b"2") & ends(put_text(sink, b"3"), 0)
}

#[test]
fn fails_at_the_call_that_a_fuse_names(rt: HostRuntime) {
    let mut octets = [0u8; 8];
    let mut sink = Fuse::new(Room::new(&mut octets), 2);
    let fails = fails_at_second(&mut sink);
    assert!(rt; fails & (sink.into_inner().octets() == b"13".as_slice()));
}

/// Writes three octets in two calls, and returns whether the next call fails.
fn fails_after_three<S: Sink>(sink: &mut S) -> bool {
    ends(put_text(sink, b"12"), 0) & ends(put_number(sink, 3), 0) & is_full(sink, b"4")
}

#[test]
fn lends_devices(rt: HostRuntime) {
    let mut octets = [0u8; 8];
    let mut room = Room::new(&mut octets);
    let fails = fails_after_three(&mut Fuse::new(&mut room, 3));
    let is_lent = has_lines(&rt, rt.alloc(), &mut Octets::new(b"one\ntwo\n"), &TWO_LINES);
    assert!(rt; fails & is_lent & (room.octets() == b"123".as_slice()));
}

/// Returns whether the given octets remain in a source.
fn is_left<S: Source>(rt: &impl Abort, alloc: Global, source: &mut S, want: &[u8]) -> bool {
    read_whole(alloc, source).expect(rt, "octets").as_slice() == want
}

#[test]
fn reads_a_source_whole(rt: HostRuntime) {
    let mut source = Octets::new(&LONG);
    let is_read = is_left(&rt, rt.alloc(), &mut source, &LONG)
        & is_left(&rt, rt.alloc(), &mut source, b"");
    let mut failing = Fuse::new(Octets::new(&LONG), 2);
    let fails = ends(read_whole(rt.alloc(), &mut failing), 901);
    assert!(rt; is_read & fails);
}

/// Returns whether a source's next piece is the given one.
fn is_next_piece<S: Source>(pieces: &mut PieceReader, source: &mut S, want: &[u8]) -> bool {
    (pieces.advance(source).ok() == Some(!want.is_empty())) & (pieces.piece() == want)
}

#[test]
fn lends_pieces_of_a_source(rt: HostRuntime) {
    let mut source = Octets::new(&LONG);
    let mut pieces = PieceReader::new();
    assert!(rt;
        is_next_piece(&mut pieces, &mut source, &LONGEST)
            & is_next_piece(&mut pieces, &mut source, b"x")
            & is_next_piece(&mut pieces, &mut source, b"")
    );
}

/// Returns whether a window of four octets on `12345678` is filled when `wanted` octets are requested, and filled again
/// after three of them are passed. The second time it first fails with this number, unless the number is 0.
fn fills_again<S: Source>(
    rt: &impl Abort,
    alloc: Global,
    source: S,
    wanted: usize,
    number: u16,
) -> bool
    requires { wanted ≤ 4 }
{
    let mut window = Window::new(alloc, source, 4).expect(rt, "memory");
    let is_filled = ends(window.fill(wanted), 0) & (window.octets() == b"1234".as_slice());
    let n = window.octets().len().min(3);
    window.pass(n);
    is_filled
        & (window.octets() == b"4".as_slice())
        & ends(window.fill(4), number)
        & ends(window.fill(4), 0)
        & (window.octets() == b"4567".as_slice())
}

#[test]
fn holds_octets_of_a_source(rt: HostRuntime) {
    assert!(rt; fills_again(&rt, rt.alloc(), Octets::new(b"12345678"), 3, 0));
}

#[test]
fn fills_a_window_again(rt: HostRuntime) {
    assert!(rt;
        fills_again(
            &rt,
            rt.alloc(),
            Fuse::new(Octets::new(b"12345678"), 2),
            2,
            901
        )
    );
}

/// Returns whether a text that is written to an outside device arrives there.
fn is_written(alloc: Global, text: &[u8]) -> bool {
    let mut sink = Outside::new(Vec::new(alloc));
    ends(put_text(&mut sink, text), 0) & (sink.into_inner().as_slice() == text)
}

#[test]
fn reads_and_writes_outside(rt: HostRuntime) {
    let mut octets = [0u8; 4];
    assert!(rt;
        is_left(
            &rt,
            rt.alloc(),
            &mut Outside::new(b"read".as_slice()),
            b"read"
        ) & is_written(rt.alloc(), b"written")
            & is_full(&mut Outside::new(octets.as_mut_slice()), b"12345")
    );
}

#[test]
fn adds_counts(rt: HostRuntime) {
    let counts = Counts {
        packets: 1,
        octets: u64::MAX,
    };
    let sum = counts.add(&Counts {
        packets: 2,
        octets: 41,
    });
    let want = Counts {
        packets: 3,
        octets: 40,
    };
    assert!(rt; sum == want);
}

#[test]
fn finds_entries(rt: HostRuntime) {
    let entries = [7u8, 8];
    let found = entry_numbered(&entries, 1) == entry_at(&entries, 0);
    assert!(rt; found & entry_numbered(&entries, 0).is_none());
}
