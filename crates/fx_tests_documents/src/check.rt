//! Certificates of small networks.
use crate::audit_texts::{NETWORK, TRAFFIC};
use crate::documents::is_reported;
use crate::plan::plan_of;
use fx_base::{Fault, LineReader, Octets};
use fx_cert::Version;
use fx_check::{
    Checker, Due, certificates_are_accepted, certificates_count_once, check,
    wrong_leaves_are_reported,
};
use fx_elements::Axis;
use fx_plan::Plan;
use fx_traffic::{Traffic, read_traffic};
use serde_json::Value;
use std::alloc::Global;
use std::process::Abort;

/// A meter of the sources below 128.0.0.0, a collector, and a meter of the remaining sources.
pub(crate) const TWO_METERS: &str = r#"{"devices":[{"name":"m1","config":{"ietf-ipfix-psamp:ipfix":{
"observationPoint":[{"name":"op","observationDomainId":0,"ifName":["eth0"],"selectionProcess":["sp"]}],
"selectionProcess":[{"name":"sp","selector":[{"name":"a","filterMatch":{"ieName":"sourceIPv4Prefix","value":"0.0.0.0/1"}}],"cache":"ca"}],
"cache":[{"name":"ca","timeoutCache":{"cacheLayout":{"cacheField":[
{"name":"s","ieName":"sourceIPv4Address","isFlowKey":[null]},
{"name":"o","ieId":1},{"name":"p","ieId":2}]}},"exportingProcess":["ex"]}],
"exportingProcess":[{"name":"ex","destination":[{"name":"d","tcpExporter":{}}]}]}}},
{"name":"c1","config":{"ietf-ipfix-psamp:ipfix":{"collectingProcess":[{"name":"cp"}]}}},
{"name":"m2","config":{"ietf-ipfix-psamp:ipfix":{
"observationPoint":[{"name":"op","observationDomainId":0,"ifName":["eth0"],"selectionProcess":["sp"]}],
"selectionProcess":[{"name":"sp","selector":[{"name":"a","filterMatch":{"ieName":"sourceIPv4Prefix","value":"128.0.0.0/1"}}],"cache":"ca"}],
"cache":[{"name":"ca","timeoutCache":{"cacheLayout":{"cacheField":[
{"name":"s","ieName":"sourceIPv4Address","isFlowKey":[null]},
{"name":"o","ieId":1},{"name":"p","ieId":2}]}},"exportingProcess":["ex"]}],
"exportingProcess":[{"name":"ex","destination":[{"name":"d","tcpExporter":{}}]}]}}}],
"links":[{"device":"m1","exportingProcess":"ex","destination":"d","toDevice":"c1","toProcess":"cp"},
{"device":"m2","exportingProcess":"ex","destination":"d","toDevice":"c1","toProcess":"cp"}],
"report":{"device":"c1","collectingProcess":"cp","key":[{"ieName":"sourceIPv4Address"}]}}"#;

/// Checks a certificate.
fn checked(alloc: Global, plan: &Plan, traffic: &Traffic, certificate: &str) -> Result<(), Fault> {
    let mut lines = LineReader::new(alloc, Octets::new(certificate.as_bytes()))?;
    check(alloc, plan, traffic, &mut lines)
}

/// Returns the traffic that a declaration describes.
pub(crate) fn traffic_of(rt: &impl Abort, alloc: Global, text: &str, plan: &Plan) -> Traffic {
    let value = Value::from_str(alloc, text).expect(rt, "a document");
    read_traffic(alloc, &value, plan).expect(rt, "traffic")
}

/// Checks certificates over the documents of a network and its traffic, and asserts that each has the outcome beside
/// it.
fn check_all(
    rt: &impl Abort,
    alloc: Global,
    network: &str,
    traffic: &str,
    certificates: &[(&str, &str)],
) {
    let plan = plan_of(rt, alloc, network);
    let traffic = traffic_of(rt, alloc, traffic, &plan);
    for (certificate, wanted) in certificates {
        let answer = checked(alloc, &plan, &traffic, *certificate);
        assert!(rt; is_reported(rt, alloc, answer, *wanted), "{certificate}");
    }
}

/// For one meter of all packets, and one path through it.
const CERTIFICATES: &[(&str, &str)] = &[
    ("once-certificate 1\nclass 1 path 1\nL 1 1 1\nend\n", "ok"),
    (
        "once-certificate 1\nclass 1 path 1\nS source 167772161\n",
        "405 line 4",
    ),
    (
        "once-certificate 1\nclass 1 path 1\nL 1 1 1\nend\nx\n",
        "411 line 5",
    ),
    (
        "once-certificate 1\nclass 1 path 1\nS source 167772160\n",
        "404 line 3",
    ),
    ("", "405 line 1"),
    (
        "once-certificate 1\nclass 1 path 1\nL 1 1 1\nend",
        "405 line 4",
    ),
    (
        "once-certificate 1\nclass 1 path 1\nL 1 1 2\nend\n",
        "410 line 3",
    ),
    ("once-certificate 2\n", "405 line 2"),
    ("once-certificate 1\nclass 1 path 01\n", "402 line 2"),
    ("once-certificate 1\nclass 1 path 2\n", "403 line 2"),
];

/// A second path, which no meter observes.
const PATH_UNSEEN: &str =
    r#"{"classes":[{"name":"web","region":{"sourceIPv4Address":"10.0.0.0/8"},"paths":[[{"device":"m1","interface":"eth0","direction":"ingress"}],[]]}]}"#;

const OF_PATH_UNSEEN: &[(&str, &str)] = &[
    (
        "once-certificate 1\nclass 1 path 1\nL 1 1 1\nend\n",
        "403 line 4",
    ),
    (
        "once-certificate 1\nclass 1 path 1\nL 1 1 1\nclass 1 path 2\nL 1 1 1\nend\n",
        "407 line 5",
    ),
];

/// A path that crosses the meter twice.
const PATH_TWICE: &str =
    r#"{"classes":[{"name":"web","region":{"sourceIPv4Address":"10.0.0.0/8"},"paths":[[{"device":"m1","interface":"eth0","direction":"ingress"},{"device":"m1","interface":"eth0","direction":"ingress"}]]}]}"#;

const OF_PATH_TWICE: &[(&str, &str)] = &[(
    "once-certificate 1\nclass 1 path 1\nL 1 1 1\nend\n",
    "408 line 3",
)];

/// A path through two meters, and certificates that split its packets: where the filters cut, and below that.
const PATH_THROUGH_TWO: &str =
    r#"{"classes":[{"name":"web","paths":[[{"device":"m1","interface":"eth0","direction":"ingress"},{"device":"m2","interface":"eth0","direction":"ingress"}]]}]}"#;

const OF_PATH_THROUGH_TWO: &[(&str, &str)] = &[
    (
        "once-certificate 1\nclass 1 path 1\nS source 2147483648\nL 1 1 1\nL 2 1 1\nend\n",
        "ok",
    ),
    (
        "once-certificate 1\nclass 1 path 1\nS source 2147483647\nL 1 1 1\nL 2 1 1\nend\n",
        "406 line 5",
    ),
];

/// An exempt class whose path no meter observes, beside a class that a meter counts.
const EXEMPT_UNSEEN: &str =
    r#"{"classes":[{"name":"web","region":{"sourceIPv4Address":"10.0.0.0/8"},"paths":[[{"device":"m1","interface":"eth0","direction":"ingress"}]]},{"name":"management","paths":[[]],"exempt":true}]}"#;

const OF_EXEMPT_UNSEEN: &[(&str, &str)] = &[
    (
        "once-certificate 2\nclass 1 path 1\nL 1 1 1\nclass 2 path 1\nN\nend\n",
        "ok",
    ),
    (
        "once-certificate 1\nclass 1 path 1\nL 1 1 1\nclass 2 path 1\nN\nend\n",
        "403 line 5",
    ),
    (
        "once-certificate 2\nclass 1 path 1\nL 1 1 1\nclass 2 path 1\nL 1 1 1\nend\n",
        "403 line 5",
    ),
    ("once-certificate 2\nclass 1 path 1\nN\n", "403 line 3"),
];

/// An exempt class that a meter counts.
const EXEMPT_COUNTED: &str =
    r#"{"classes":[{"name":"web","region":{"sourceIPv4Address":"10.0.0.0/8"},"paths":[[{"device":"m1","interface":"eth0","direction":"ingress"}]],"exempt":[null]}]}"#;

const OF_EXEMPT_COUNTED: &[(&str, &str)] = &[(
    "once-certificate 2\nclass 1 path 1\nN\nend\n",
    "415 line 3",
)];

/// Networks, traffic, and certificates.
const CHECKED: [(&str, &str, &[(&str, &str)]); 6] = [
    (NETWORK, TRAFFIC, CERTIFICATES),
    (NETWORK, PATH_UNSEEN, OF_PATH_UNSEEN),
    (NETWORK, PATH_TWICE, OF_PATH_TWICE),
    (TWO_METERS, PATH_THROUGH_TWO, OF_PATH_THROUGH_TWO),
    (NETWORK, EXEMPT_UNSEEN, OF_EXEMPT_UNSEEN),
    (NETWORK, EXEMPT_COUNTED, OF_EXEMPT_COUNTED),
];

#[test]
fn checks_certificates(rt: HostRuntime) {
    for (network, traffic, certificates) in &CHECKED {
        check_all(&rt, rt.alloc(), *network, *traffic, *certificates);
    }
}

/// Returns whether the expected item is the tree of a region at depth 1 of the only path, whose sources begin with this
/// one.
fn is_part_due(due: &Due<'_>, source: u128) -> bool {
    match due {
        Due::Tree {
            version: Version::One,
            target,
            region,
            depth,
        } => {
            (target.class == 1)
                & (target.path == 1)
                & (*depth == 1)
                & (region.corner().get(Axis::Source) == source)
        }
        _ => false,
    }
}

#[test]
fn stands_before_the_refused_line(rt: HostRuntime) {
    let plan = plan_of(&rt, rt.alloc(), TWO_METERS);
    let traffic = traffic_of(&rt, rt.alloc(), PATH_THROUGH_TWO, &plan);
    let mut checker = Checker::new(rt.alloc(), &plan, &traffic).expect(&rt, "a checker");
    let (certificate, wanted) = OF_PATH_THROUGH_TWO[1];
    let mut lines = LineReader::new(rt.alloc(), Octets::new(certificate.as_bytes())).expect(
        &rt, "a reader",
    );
    assert!(rt; matches!(checker.due(), Due::Header));
    let answer = checker.take_all(&mut lines);
    assert!(rt;
        is_reported(&rt, rt.alloc(), answer, wanted)
            & (lines.number() == 5)
            & (lines.line().bytes == b"L 2 1 1".as_slice())
            & is_part_due(&checker.due(), 2147483647)
    );
}

/// Certificates of two classes, the second exempt, and the class of the line that is expected where they end.
const DUE_CLASSES: [(&str, u64); 2] = [
    (
        "once-certificate 2
",
        1,
    ),
    (
        "once-certificate 2
class 1 path 1
L 1 1 1
",
        2,
    ),
];

#[test]
fn waits_for_the_next_class(rt: HostRuntime) {
    let plan = plan_of(&rt, rt.alloc(), NETWORK);
    let traffic = traffic_of(&rt, rt.alloc(), EXEMPT_UNSEEN, &plan);
    for (certificate, class) in &DUE_CLASSES {
        let mut checker = Checker::new(rt.alloc(), &plan, &traffic).expect(&rt, "a checker");
        let mut lines = LineReader::new(rt.alloc(), Octets::new(certificate.as_bytes())).expect(
            &rt, "a reader",
        );
        assert!(rt; checker.take_all(&mut lines).is_err());
        let is_due = match checker.due() {
            Due::Target(target) => target.class == *class,
            _ => false,
        };
        assert!(rt; is_due, "{certificate}");
    }
}

#[test]
fn the_laws() {
    certificates_are_accepted();
    certificates_count_once();
    wrong_leaves_are_reported();
}
