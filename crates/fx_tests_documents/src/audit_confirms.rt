//! Refutations that are confirmed from octets.
use crate::audit_texts::{NETWORK, TRAFFIC, ending};
use crate::refute::{EXEMPT, WITH_FALLBACK};
use fx_audit::{Answer, confirm_bytes};
use fx_base::{Fuse, LineReader, Octets, Room};
use std::alloc::Global;
use std::process::Abort;

/// A run whose record is lost at a destination without a link.
const LOST: &[u8] =
    b"once-refutation 1\npacket 1 1 10.0.0.0 0.0.0.0 0 0 0 0 1\ncross 1 1 n\nexpire cache 1 1 1 2\nend\n";

/// A run whose record arrives.
const COUNTED: &[u8] =
    b"once-refutation 1\npacket 1 1 10.0.0.0 0.0.0.0 0 0 0 0 1\ncross 1 1 n\nexpire cache 1 1 1\narrive 1 1\nend\n";

/// Returns whether confirming a refutation has this outcome and writes this text. The refutation's reader fails at a
/// call, or at none for 0.
fn ends(
    rt: &impl Abort,
    alloc: Global,
    documents: (&str, &str),
    refutation: &[u8],
    call: u64,
    wanted: Result<Answer, u16>,
    text: &[u8],
) -> bool {
    let mut network = Octets::new(documents.0.as_bytes());
    let mut traffic = Octets::new(documents.1.as_bytes());
    let source = Fuse::new(Octets::new(refutation), call);
    let mut lines = LineReader::new(alloc, source).expect(rt, "memory");
    let mut octets = [0u8; 256];
    let mut room = Room::new(&mut octets);
    let outcome = confirm_bytes(alloc, &mut network, &mut traffic, &mut lines, &mut room);
    (ending(outcome) == wanted) & (room.octets() == text)
}

/// The totals for the run whose record is lost, and for the one whose record is counted.
const LOST_TOTALS: &[u8] =
    b"refuted\nrun\nkeys 0\nunassigned 0\nplain\nkeys 1\n10.0.0.0 packets 1 octets 1\nunassigned 0\n";

const COUNTED_TOTALS: &[u8] =
    b"refuted\nrun\nkeys 1\n10.0.0.0 packets 1 octets 1\nunassigned 0\nplain\nkeys 0\nunassigned 0\n";

/// A refutation, the call that fails, the outcome of confirming it, and what is written.
type Confirmed = (&'static [u8], u64, Result<Answer, u16>, &'static [u8]);

/// Returns whether confirming these refutations over documents has the expected outcomes.
fn end_all(
    rt: &impl Abort,
    alloc: Global,
    documents: (&str, &str),
    confirmed: &[Confirmed],
) -> bool {
    let mut all = true;
    for (refutation, call, wanted, text) in confirmed {
        all &= ends(rt, alloc, documents, *refutation, *call, *wanted, *text);
    }
    all
}

/// For a network in which the record may be lost.
const OF_FALLBACK: &[Confirmed] = &[
    (LOST, 0, Ok(Answer::Yes), LOST_TOTALS),
    (LOST, 1, Err(901), b""),
    (LOST, 2, Err(901), b""),
];

/// For an exempt class.
const OF_EXEMPT: &[Confirmed] = &[(COUNTED, 0, Ok(Answer::Yes), COUNTED_TOTALS)];

/// For a network that counts each packet.
const OF_COUNTED: &[Confirmed] = &[
    (COUNTED, 0, Ok(Answer::No), b"no 505\n"),
    (LOST, 0, Ok(Answer::No), b"no 503 line 4\n"),
    (b"x\n", 0, Ok(Answer::No), b"no 501\n"),
];

#[test]
fn confirms_a_refutation(rt: HostRuntime) {
    assert!(rt;
        end_all(&rt, rt.alloc(), (WITH_FALLBACK, TRAFFIC), OF_FALLBACK)
            & end_all(&rt, rt.alloc(), (NETWORK, EXEMPT), OF_EXEMPT)
            & end_all(&rt, rt.alloc(), (NETWORK, TRAFFIC), OF_COUNTED)
    );
}
