//! Texts of totals that are summed at the network's report.
use crate::audit_texts::{NETWORK, TOTALS, ending, seed};
use fx_audit::{Answer, sum_bytes};
use fx_base::{LineReader, Octets, Room};
use std::alloc::Global;
use std::process::Abort;

/// Returns whether summing these texts has this outcome and writes this text.
fn ends(
    rt: &impl Abort,
    alloc: Global,
    texts: &[u8],
    wanted: Result<Answer, u16>,
    text: &[u8],
) -> bool {
    let mut network = Octets::new(NETWORK.as_bytes());
    let mut lines = LineReader::new(alloc, Octets::new(texts)).expect(rt, "memory");
    let mut octets = [0u8; 256];
    let mut room = Room::new(&mut octets);
    let outcome = sum_bytes(alloc, seed(), &mut network, &mut lines, &mut room);
    (ending(outcome) == wanted) & (room.octets() == text)
}

/// Totals of another stream.
const OTHER: &[u8] =
    b"keys 2\n10.0.0.1 packets 1 octets 3\n10.0.0.9 packets 4 octets 400\nunassigned 2\ngaps 1\nskipped 0\n";

/// The sum of both: counts are added modulo 2^64.
const SUM: &[u8] =
    b"keys 2\n10.0.0.1 packets 3 octets 2\n10.0.0.9 packets 4 octets 400\nunassigned 2\ncomplete yes\ngaps 1\nskipped 0\n";

#[test]
fn sums_what_was_collected_apart(rt: HostRuntime) {
    let both = [TOTALS, OTHER].concat(rt.alloc()).expect(&rt, "memory");
    assert!(rt; ends(&rt, rt.alloc(), both.as_slice(), Ok(Answer::Yes), SUM));
}

/// Totals of another report and octets that are no totals are refused, and nothing is written.
#[test]
fn refuses_other_totals(rt: HostRuntime) {
    let prefixes = b"keys 1\n10.0.0.0/8 packets 1 octets 3\nunassigned 0\n";
    assert!(rt;
        ends(&rt, rt.alloc(), prefixes, Err(861), b"") & ends(&rt, rt.alloc(), b"", Err(861), b"")
    );
}
