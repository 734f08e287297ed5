//! Lines of certificates that are read and written.
use crate::answers::is_refused;
use fx_base::{Fault, Line, Room};
use fx_cert::{Item, Version, one_text, put_item, read_item};
use fx_elements::Axis;
use std::process::Abort;

/// Reads the item in a line.
fn read(text: &[u8]) -> Result<Item, Fault> {
    read_item(&Line {
        bytes: text,
        number: 7,
        ended: true,
    })
}

/// Returns whether this text is read as the item, and the item is written as the text and a line feed.
fn is_spelled(rt: &impl Abort, text: &str, item: Item) -> bool {
    let mut octets = [0u8; 64];
    let mut room = Room::new(&mut octets);
    put_item(&mut room, &item).expect(rt, "room");
    let is_read = read(text.as_bytes()).expect(rt, "an item") == item;
    match room.octets() {
        [line @ .., b'\n'] => is_read & (line == text.as_bytes()),
        _ => false,
    }
}

/// Lines, and their items.
const ITEMS: [(&str, Item); 7] = [
    ("once-certificate 1", Item::Header(Version::One)),
    ("once-certificate 2", Item::Header(Version::Two)),
    ("end", Item::End),
    ("class 1 path 12", Item::Class { class: 1, path: 12 }),
    (
        "S source 167772161",
        Item::Split {
            axis: Axis::Source,
            at: 167772161,
        },
    ),
    (
        "L 0 18446744073709551615 3",
        Item::Leaf {
            crossing: 0,
            point: 18446744073709551615,
            process: 3,
        },
    ),
    ("N", Item::Never),
];

#[test]
fn reads_and_writes(rt: HostRuntime) {
    one_text();
    for (text, item) in &ITEMS {
        assert!(rt; is_spelled(&rt, *text, *item));
    }
}

/// Lines that aren't items.
const REFUSED: [&str; 8] = [
    "class 01 path 1",
    "once-certificate 3",
    "once-certificate 02",
    "N ",
    "N 1 1 1",
    "S source 4294967296",
    "L 1 18446744073709551616 1",
    "L 1  1 1",
];

#[test]
fn refuses(rt: HostRuntime) {
    for text in &REFUSED {
        assert!(rt; is_refused(read(text.as_bytes()), &Fault::at_line(402, 7)));
    }
}
