//! Streams that are malformed, or designed to be expensive.
ghost use Rattle.std.specs.Prelude.{◌<◌};

use crate::session;
use fx_elements::Axis;
use fx_session::Session;
use fx_tables::Record;
use std::alloc::{AllocError, Global};
use std::ops::Range;
use std::process::Abort;

/// Appends a message with this length, sequence number, domain and content to a stream.
fn put_message(
    stream: &mut Vec<u8>,
    length: u16,
    sequence: u32,
    domain: u32,
    content: &[u8],
) -> Result<(), AllocError> {
    stream.extend_from_slice(&[0x00, 0x0a])?;
    stream.extend_from_slice(&length.to_be_bytes())?;
    stream.extend_from_slice(&[0; 4])?;
    stream.extend_from_slice(&sequence.to_be_bytes())?;
    stream.extend_from_slice(&domain.to_be_bytes())?;
    stream.extend_from_slice(content)
}

/// Returns a message with this length and content, the first one of domain 0.
fn message(alloc: Global, length: u16, content: &[u8]) -> Result<Vec<u8>, AllocError> {
    let mut stream = Vec::new(alloc);
    put_message(&mut stream, length, 0, 0, content)?;
    Ok(stream)
}

/// Returns whether a message is refused with this number.
pub(crate) fn is_refused(alloc: Global, length: u16, content: &[u8], number: u16) -> bool {
    match message(alloc, length, content) {
        Ok(stream) => session::is_refused(alloc, stream.as_slice(), number),
        Err(_) => false,
    }
}

/// A template with a 4-octet octet counter.
const NARROW: &[u8] = &[0, 2, 0, 20, 1, 0, 0, 3, 0, 8, 0, 4, 0, 1, 0, 4, 0, 2, 0, 8];

/// The length and content of refused messages, and their numbers.
const REFUSED: [(u16, &[u8], u16); 6] = [
    (15, &[], 612),
    (20, &[1, 0, 0, 3], 613),
    (20, &[0, 5, 0, 4], 615),
    (20, &[1, 0, 0, 4], 617),
    (24, &[0, 2, 0, 8, 1, 0, 0xff, 0xff], 614), // 65,535 fields, cut by the set
    (36, NARROW, 618),
];

#[test]
fn refuses_malformed_messages(rt: HostRuntime) {
    for (length, content, number) in &REFUSED {
        assert!(rt;
            is_refused(rt.alloc(), *length, *content, *number),
            "not {number}"
        );
    }
}

/// A template of a prefix and its length, and a record of 10.9.0.0/16.
const PREFIX: &[u8] = &[
    0, 2, 0, 24, 1, 0, 0, 4, 0, 44, 0, 4, 0, 9, 0, 1, 0, 1, 0, 8, 0, 2, 0, 8, // the template
    1, 0, 0, 25, 10, 9, 8, 7, 16, 0, 0, 0, 0, 0, 0, 0, 100, 0, 0, 0, 0, 0, 0, 0, 1,
];

/// Returns the first record of a stream.
pub(crate) fn first_record(rt: &impl Abort, alloc: Global, stream: &[u8]) -> Option<Record> {
    let mut session = Session::new(alloc).expect(rt, "memory");
    session.feed(stream).expect(rt, "a stream");
    session.next_record()
}

/// Returns whether the record is there, and has exactly 16 bits of the source.
fn is_prefix(found: Option<Record>) -> bool {
    match found {
        None => false,
        Some(entry) => {
            entry.layout().reads(Axis::Source, 16)
                && !entry.layout().reads(Axis::Source, 17)
                && entry.key.bits_on(Axis::Source, 16) == 0x0a09
        }
    }
}

#[test]
fn reads_a_prefix(rt: HostRuntime) {
    let stream = message(rt.alloc(), 65, PREFIX).expect(&rt, "memory");
    assert!(rt; is_prefix(first_record(&rt, rt.alloc(), stream.as_slice())));
}

/// Returns whether a stream in pieces of this length is read without octets left and without gaps, and this many of its
/// records are skipped.
fn skips(rt: &impl Abort, alloc: Global, stream: Vec<u8>, length: usize, skipped: u64) -> bool
    requires { 0 < length }
{
    let mut session = Session::new(alloc).expect(rt, "memory");
    for piece in stream.as_slice().chunks(length) {
        session.feed(piece).expect(rt, "a stream");
    }
    (session.left() == 0) & (session.gaps() == 0) & (session.skipped() == skipped)
}

/// Withdrawals of a template that doesn't exist, and of all.
const WITHDRAWALS: [u8; 20] = [0, 2, 0, 12, 1, 44, 0, 0, 0, 2, 0, 0, 0, 3, 0, 8, 0, 3, 0, 0];

#[test]
fn passes_withdrawals_of_nothing(rt: HostRuntime) {
    let stream = message(rt.alloc(), 36, &WITHDRAWALS).expect(&rt, "memory");
    assert!(rt; skips(&rt, rt.alloc(), stream, 36, 0));
}

/// Returns a message of two records with the greatest sequence number, and the next one, whose sequence number is 1:
/// 2^32 - 1 and 2 more.
fn wrapping(alloc: Global) -> Result<Vec<u8>, AllocError> {
    let content = [
        0, 2, 0, 12, 1, 0, 0, 1, 0, 4, 0, 1, // a template of a protocol
        1, 0, 0, 6, 6, 17, // two records of one octet
    ];
    let mut stream = Vec::new(alloc);
    put_message(&mut stream, 34, u32::MAX, 0, &content)?;
    put_message(&mut stream, 16, 1, 0, &[])?;
    Ok(stream)
}

#[test]
fn wraps_sequence_numbers(rt: HostRuntime) {
    assert!(rt;
        skips(
            &rt,
            rt.alloc(),
            wrapping(rt.alloc()).expect(&rt, "memory"),
            34,
            2
        )
    );
}

/// Appends a template and a record of it in each of 256 domains.
fn put_domains(stream: &mut Vec<u8>) -> Result<(), AllocError> {
    for domain in 0..=255u32 {
        let content = [0, 2, 0, 12, 1, 0, 0, 1, 0, 4, 0, 1, 1, 0, 0, 5, 6];
        put_message(stream, 33, 0, domain, &content)?;
    }
    Ok(())
}

#[test]
fn keeps_templates_by_domain(rt: HostRuntime) {
    let mut stream = Vec::new(rt.alloc());
    put_domains(&mut stream).expect(&rt, "memory");
    assert!(rt; skips(&rt, rt.alloc(), stream, 33, 256));
}

/// Appends a set of 5,000 templates with these ids.
fn put_templates(content: &mut Vec<u8>, ids: Range<u16>) -> Result<(), AllocError> {
    content.extend_from_slice(&[0, 2, 0x9c, 0x44])?; // of 40,004 octets
    for id in ids {
        let [high, low] = id.to_be_bytes();
        content.extend_from_slice(&[high, low, 0, 1, 0, 4, 0, 1])?;
    }
    Ok(())
}

/// Appends the message of that set.
fn put_set(stream: &mut Vec<u8>, alloc: Global, ids: Range<u16>) -> Result<(), AllocError> {
    let mut content = Vec::new(alloc);
    put_templates(&mut content, ids)?;
    put_message(stream, 40_020, 0, 0, content.as_slice())
}

/// Appends two such messages, and a record of the last template, with the id 10,255.
fn put_ten_thousand(stream: &mut Vec<u8>, alloc: Global) -> Result<(), AllocError> {
    put_set(stream, alloc, 256..5_256)?;
    put_set(stream, alloc, 5_256..10_256)?;
    put_message(stream, 21, 0, 0, &[0x28, 0x0f, 0, 5, 6])
}

#[test]
fn keeps_ten_thousand_templates(rt: HostRuntime) {
    let mut stream = Vec::new(rt.alloc());
    put_ten_thousand(&mut stream, rt.alloc()).expect(&rt, "memory");
    assert!(rt; skips(&rt, rt.alloc(), stream, 40_020, 1));
}
