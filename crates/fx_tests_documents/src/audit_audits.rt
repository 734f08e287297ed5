//! Networks that are audited from octets.
use crate::audit_texts::{NETWORK, TRAFFIC, ending};
use crate::check::{TWO_METERS, traffic_of};
use crate::plan::plan_of;
use crate::refute::{EXEMPT, WITH_FALLBACK};
use fx_audit::{Answer, audit_bytes, confirm_bytes};
use fx_base::{Fuse, LineReader, Octets, Room};
use fx_elements::Axis;
use fx_leaf::Judgement;
use fx_search::{Found, Limit, Outcome, Unwatched, Watch, search, search_outcome};
use std::alloc::Global;
use std::process::Abort;

/// The certificate of a network that counts each packet at its one selection process.
const CERTIFICATE: &[u8] = b"once-certificate 1\nclass 1 path 1\nL 1 1 1\nend\n";

/// Returns whether an audit has this outcome and writes this text.
fn ends(
    alloc: Global,
    documents: (&str, &str),
    limit: u64,
    wanted: Result<Answer, u16>,
    text: &[u8],
) -> bool {
    let mut network = Octets::new(documents.0.as_bytes());
    let mut traffic = Octets::new(documents.1.as_bytes());
    let mut octets = [0u8; 256];
    let mut room = Room::new(&mut octets);
    let outcome = audit_bytes(
        alloc,
        &mut network,
        &mut traffic,
        limit,
        &mut Unwatched,
        &mut room,
    );
    ending(outcome) == wanted && room.octets() == text
}

/// Returns whether these octets are a refutation that is confirmed.
fn is_confirmed(
    rt: &impl Abort,
    alloc: Global,
    documents: (&str, &str),
    refutation: &[u8],
) -> bool {
    let mut network = Octets::new(documents.0.as_bytes());
    let mut traffic = Octets::new(documents.1.as_bytes());
    let mut lines = LineReader::new(alloc, Octets::new(refutation)).expect(rt, "memory");
    let mut octets = [0u8; 256];
    let mut room = Room::new(&mut octets);
    let outcome = confirm_bytes(alloc, &mut network, &mut traffic, &mut lines, &mut room);
    ending(outcome) == Ok(Answer::Yes)
}

/// Returns whether an audit writes a refutation that is confirmed.
fn refutes(rt: &impl Abort, alloc: Global, documents: (&str, &str)) -> bool {
    let mut network = Octets::new(documents.0.as_bytes());
    let mut traffic = Octets::new(documents.1.as_bytes());
    let mut octets = [0u8; 256];
    let mut room = Room::new(&mut octets);
    let outcome = audit_bytes(
        alloc,
        &mut network,
        &mut traffic,
        1_000_000,
        &mut Unwatched,
        &mut room,
    );
    (ending(outcome) == Ok(Answer::No)) & is_confirmed(rt, alloc, documents, room.octets())
}

/// Traffic and limits, the outcome of an audit, and what it writes.
const AUDITED: [(&str, u64, Result<Answer, u16>, &[u8]); 5] = [
    (TRAFFIC, 1_000_000, Ok(Answer::Yes), CERTIFICATE),
    (TRAFFIC, 1, Ok(Answer::Yes), CERTIFICATE),
    (TRAFFIC, 0, Ok(Answer::Unknown), b"unknown 601\n"),
    (
        r#"{"classes":[]}"#,
        0,
        Ok(Answer::Yes),
        b"once-certificate 1\nend\n",
    ),
    ("{}", 1, Err(103), b""),
];

#[test]
fn audits_to_a_certificate(rt: HostRuntime) {
    for (traffic, limit, wanted, text) in &AUDITED {
        assert!(rt; ends(rt.alloc(), (NETWORK, *traffic), *limit, *wanted, *text));
    }
}

#[test]
fn audits_to_a_refutation(rt: HostRuntime) {
    assert!(rt;
        refutes(&rt, rt.alloc(), (WITH_FALLBACK, TRAFFIC))
            & refutes(&rt, rt.alloc(), (NETWORK, EXEMPT))
    );
}

/// An observer that keeps the number of lines that was last reported.
#[derive(Drop)]
struct LastLines {
    lines: u64,
}

impl Watch for LastLines {
    fn on_lines(&mut self, lines: u64) {
        self.lines = lines;
    }
}

/// Returns the number of items of a certificate that was found, or 0 for a refutation.
fn items(found: Found) -> usize {
    match found {
        Found::Certificate(items) => items.len(),
        Found::Refutation(_) => 0,
    }
}

#[test]
fn finds_a_certificate(rt: HostRuntime) {
    let plan = plan_of(&rt, rt.alloc(), NETWORK);
    let traffic = traffic_of(&rt, rt.alloc(), TRAFFIC, &plan);
    let mut progress = LastLines { lines: 0 };
    let found = search(rt.alloc(), &plan, &traffic, 2, &mut progress).expect(&rt, "a certificate");
    assert!(rt; (items(found) == 4) & (progress.lines == 1));
}

/// A path through a meter that observes only the sources below 128.0.0.0.
const PATH_THROUGH_ONE: &str =
    r#"{"classes":[{"name":"web","paths":[[{"device":"m1","interface":"eth0","direction":"ingress"}]]}]}"#;

/// Two paths through one meter.
const TWO_PATHS: &str =
    r#"{"classes":[{"name":"web","region":{"sourceIPv4Address":"10.0.0.0/8"},"paths":[[{"device":"m1","interface":"eth0","direction":"ingress"}],[{"device":"m1","interface":"eth0","direction":"ingress"}]]}]}"#;

/// Returns whether a search refutes that packets of the only class and path are counted, because those from this source
/// on never are.
fn refutes_from(outcome: &Outcome, source: u128) -> bool {
    match outcome {
        Outcome::Refuted(refuted) => {
            let least = refuted.region.corner();
            (refuted.class == 1)
                & (refuted.path == 1)
                & (refuted.judgement == Judgement::Never)
                & (least.get(Axis::Source) == source)
                & (least == refuted.refutation.packet().fields)
        }
        _ => false,
    }
}

#[test]
fn knows_what_it_refutes(rt: HostRuntime) {
    let plan = plan_of(&rt, rt.alloc(), TWO_METERS);
    let traffic = traffic_of(&rt, rt.alloc(), PATH_THROUGH_ONE, &plan);
    let found = search_outcome(rt.alloc(), &plan, &traffic, 3, &mut Unwatched);
    assert!(rt; refutes_from(&found.expect(&rt, "an outcome"), 2147483648));
}

/// Returns whether a search ends because a certificate needs another line, for a path of the only class.
fn needs_a_line(outcome: &Outcome, path: u64) -> bool {
    match outcome {
        Outcome::TooLarge(reached) => {
            (reached.limit == Limit::Lines) & (reached.class == 1) & (reached.path == path)
        }
        _ => false,
    }
}

#[test]
fn knows_its_limit(rt: HostRuntime) {
    let plan = plan_of(&rt, rt.alloc(), NETWORK);
    let traffic = traffic_of(&rt, rt.alloc(), TWO_PATHS, &plan);
    let found = search_outcome(rt.alloc(), &plan, &traffic, 1, &mut Unwatched);
    assert!(rt; needs_a_line(&found.expect(&rt, "an outcome"), 2));
}

/// Returns the outcome of an audit whose devices fail at these calls: the network, the traffic and the answer, or none
/// for 0.
fn failing(alloc: Global, calls: [u64; 3]) -> Result<Answer, u16> {
    let [network, traffic, answer] = calls;
    let mut network = Fuse::new(Octets::new(NETWORK.as_bytes()), network);
    let mut traffic = Fuse::new(Octets::new(TRAFFIC.as_bytes()), traffic);
    let mut octets = [0u8; 64];
    let mut sink = Fuse::new(Room::new(&mut octets), answer);
    ending(audit_bytes(
        alloc,
        &mut network,
        &mut traffic,
        1,
        &mut Unwatched,
        &mut sink,
    ))
}

/// The calls at which devices fail, and the outcome of an audit.
const FAILING: [([u64; 3], Result<Answer, u16>); 6] = [
    ([0, 0, 0], Ok(Answer::Yes)),
    ([1, 0, 0], Err(901)),
    ([2, 0, 0], Err(901)),
    ([0, 1, 0], Err(901)),
    ([0, 0, 1], Err(902)),
    ([0, 0, 2], Err(902)),
];

#[test]
fn fails_with_its_devices(rt: HostRuntime) {
    for (calls, wanted) in &FAILING {
        assert!(rt; failing(rt.alloc(), *calls) == *wanted);
    }
}
