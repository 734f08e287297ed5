//! The events that a session reports to its observer.
use crate::answers;
use crate::session::{CHANGED, FIRST, OPTIONS, SECOND, UNKNOWN, WITHDRAWN};
use fx_base::Fault;
use fx_layout::Layout;
use fx_session::{Session, SessionWatch, StreamFault, Template};
use fx_wire::{Malformed, Message, Set, TemplateKind};
use std::alloc::Global;
use std::process::Abort;

/// The maximum number of events that are noted.
const EVENTS: usize = 32;

/// The events in order: a letter and a number for each.
#[derive(Drop)]
struct Events {
    letters: [u8; EVENTS],
    numbers: [u64; EVENTS],
    count: usize,
}

impl Events {
    /// Returns no events.
    fn new() -> Events {
        Events {
            letters: [b' '; EVENTS],
            numbers: [0; EVENTS],
            count: 0,
        }
    }

    /// Notes an event.
    fn add(&mut self, letter: u8, number: u64) {
        if self.count < EVENTS {
            self.letters[self.count] = letter;
            self.numbers[self.count] = number;
            self.count += 1;
        }
    }

    /// Returns whether these are the events.
    fn are(&self, letters: &[u8], numbers: &[u64]) -> bool {
        self.letters.starts_with(letters)
            & self.numbers.starts_with(numbers)
            & (self.count == letters.len())
    }
}

impl SessionWatch for Events {
    fn on_message(&mut self, place: u64, _message: &Message<'_>) {
        self.add(b'm', place);
    }

    fn on_set(&mut self, set: &Set<'_>) {
        self.add(b's', u64::from(set.id));
    }

    fn on_template(&mut self, _kind: TemplateKind, _id: u16, template: &Template, octets: &[u8]) {
        self.add(b't', octets.len() as u64);
        self.add(b'f', template.fields().len() as u64);
        self.add(b'c', u64::from(template.scope()));
    }

    fn on_withdrawal(&mut self, id: u16) {
        self.add(b'w', u64::from(id));
    }

    fn on_withdrawal_of_all(&mut self, kind: TemplateKind) {
        self.add(b'a', u64::from(kind == TemplateKind::Options));
    }

    fn on_data(
        &mut self,
        _kind: TemplateKind,
        _template: &Template,
        _content: &[u8],
        records: u32,
    ) {
        self.add(b'd', u64::from(records));
    }

    fn on_gap(&mut self, due: u32) {
        self.add(b'g', u64::from(due));
    }

    fn on_refused_set(&mut self, template: Option<&Template>, octets: &[u8], fault: StreamFault) {
        self.add(b'r', u64::from(fault.number()));
        self.add(b'o', octets.len() as u64);
        self.add(b'n', u64::from(template.is_some()));
    }

    fn on_malformed(&mut self, place: u64, octets: &[u8], why: Malformed) {
        self.add(b'x', u64::from(why.number()));
        self.add(b'p', place);
        self.add(b'o', octets.len() as u64);
    }

    fn on_layout(&mut self, _layout: &Layout) {}

    fn on_unfinished(&mut self, _place: u64, _octets: &[u8]) {}
}

/// Returns whether a session reports these events of a stream in two pieces that ends with this number.
fn reports(
    rt: &impl Abort,
    alloc: Global,
    pieces: [&[u8]; 2],
    end: u16,
    letters: &[u8],
    numbers: &[u64],
) -> bool {
    let mut session = Session::new(alloc).expect(rt, "memory");
    let mut events = Events::new();
    session
        .feed_watched(pieces[0], &mut events)
        .expect(rt, "a piece");
    let second = session.feed_watched(pieces[1], &mut events);
    let index = pieces[0].len() as u64;
    let has_ended = if end == 0 {
        answers::ends(second, 0)
    } else {
        answers::is_refused(second, &Fault::at_octet(end, index))
    };
    has_ended & events.are(letters, numbers)
}

#[test]
fn reports_messages_templates_and_data(rt: HostRuntime) {
    assert!(rt;
        reports(
            &rt,
            rt.alloc(),
            [&FIRST, &SECOND],
            0,
            b"mstfcsdmsd",
            &[0, 2, 16, 3, 0, 256, 1, 60, 256, 1],
        )
    );
}

#[test]
fn reports_options(rt: HostRuntime) {
    assert!(rt;
        reports(
            &rt,
            rt.alloc(),
            [&[], &OPTIONS],
            0,
            b"mstfcstfcsdsd",
            &[0, 2, 20, 4, 0, 3, 16, 2, 1, 256, 1, 257, 1],
        )
    );
}

#[test]
fn reports_withdrawals_and_gaps(rt: HostRuntime) {
    assert!(rt;
        reports(
            &rt,
            rt.alloc(),
            [&FIRST, &WITHDRAWN],
            0,
            b"mstfcsdmswstfcsdg",
            &[0, 2, 16, 3, 0, 256, 1, 60, 2, 256, 2, 16, 3, 0, 256, 1, 1],
        )
    );
}

#[test]
fn reports_refused_templates(rt: HostRuntime) {
    assert!(rt;
        reports(
            &rt,
            rt.alloc(),
            [&FIRST, &CHANGED],
            616,
            b"mstfcsdmsron",
            &[0, 2, 16, 3, 0, 256, 1, 60, 2, 616, 16, 0],
        )
    );
}

#[test]
fn reports_missing_templates(rt: HostRuntime) {
    assert!(rt;
        reports(
            &rt,
            rt.alloc(),
            [&[], &UNKNOWN],
            617,
            b"msron",
            &[0, 258, 617, 4, 0],
        )
    );
}

#[test]
fn reports_malformed_messages(rt: HostRuntime) {
    assert!(rt;
        reports(
            &rt,
            rt.alloc(),
            [&FIRST, &[0; 20]],
            611,
            b"mstfcsdxpo",
            &[0, 2, 16, 3, 0, 256, 1, 611, 60, 20],
        )
    );
}

#[test]
fn lends_unfinished_octets(rt: HostRuntime) {
    let mut session = Session::new(rt.alloc()).expect(&rt, "memory");
    session.feed(&SECOND[..7]).expect(&rt, "a part");
    assert!(rt; session.unfinished() == &SECOND[..7]);
}
