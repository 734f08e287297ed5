//! Certified parts that are joined into a whole network of two meters and a collector.
use crate::audit_texts::{CERTIFICATE, NETWORK, TRAFFIC, ending};
use fx_audit::Answer;
use fx_base::{Fault, Fuse, Octets, Room, refusals};
use fx_checker::AcceptedDocuments;
use fx_join::{JoinExplainer, ProcessName, join_bytes, join_explained};
use fx_plan::NetworkDocument;
use fx_traffic::Traffic;
use std::alloc::Global;
use std::process::Abort;

/// The whole network: the meters `m1` and `m2`, and the collector `c1`, to which both export.
const WHOLE: &str = r#"{"devices":[{"name":"m2","config":{"ietf-ipfix-psamp:ipfix":{
"observationPoint":[{"name":"op","observationDomainId":0,"ifName":["eth0"],"selectionProcess":["sp"]}],
"selectionProcess":[{"name":"sp","selector":[{"name":"a","selectAll":[null]}],"cache":"ca"}],
"cache":[{"name":"ca","timeoutCache":{"cacheLayout":{"cacheField":[
{"name":"s","ieName":"sourceIPv4Address","isFlowKey":[null]},
{"name":"o","ieId":1},{"name":"p","ieId":2}]}},"exportingProcess":["ex"]}],
"exportingProcess":[{"name":"ex","destination":[{"name":"d","tcpExporter":{}}]}]}}},
{"name":"m1","config":{"ietf-ipfix-psamp:ipfix":{
"observationPoint":[{"name":"op","observationDomainId":0,"ifName":["eth0"],"selectionProcess":["sp"]}],
"selectionProcess":[{"name":"sp","selector":[{"name":"a","selectAll":[null]}],"cache":"ca"}],
"cache":[{"name":"ca","timeoutCache":{"cacheLayout":{"cacheField":[
{"name":"s","ieName":"sourceIPv4Address","isFlowKey":[null]},
{"name":"o","ieId":1},{"name":"p","ieId":2}]}},"exportingProcess":["ex"]}],
"exportingProcess":[{"name":"ex","destination":[{"name":"d","tcpExporter":{}}]}]}}},
{"name":"c1","config":{"ietf-ipfix-psamp:ipfix":{"collectingProcess":[{"name":"cp"}]}}}],
"links":[{"device":"m1","exportingProcess":"ex","destination":"d","toDevice":"c1","toProcess":"cp"},
{"device":"m2","exportingProcess":"ex","destination":"d","toDevice":"c1","toProcess":"cp"}],
"report":{"device":"c1","collectingProcess":"cp","key":[{"ieName":"sourceIPv4Address"}]}}
"#;

/// The traffic of the whole: the packets of one class enter `m1`, those of the other `m2`.
const BOTH: &str = r#"{"classes":[
{"name":"web","region":{"sourceIPv4Address":"10.0.0.0/8"},"paths":[[{"device":"m1","interface":"eth0","direction":"ingress"}]]},
{"name":"mail","region":{"sourceIPv4Address":"11.0.0.0/8"},"paths":[[{"device":"m2","interface":"eth0","direction":"ingress"}]]}]}
"#;

/// The network of the part with `m2`.
const SECOND: &str = r#"{"devices":[{"name":"m2","config":{"ietf-ipfix-psamp:ipfix":{
"observationPoint":[{"name":"op","observationDomainId":0,"ifName":["eth0"],"selectionProcess":["sp"]}],
"selectionProcess":[{"name":"sp","selector":[{"name":"a","selectAll":[null]}],"cache":"ca"}],
"cache":[{"name":"ca","timeoutCache":{"cacheLayout":{"cacheField":[
{"name":"s","ieName":"sourceIPv4Address","isFlowKey":[null]},
{"name":"o","ieId":1},{"name":"p","ieId":2}]}},"exportingProcess":["ex"]}],
"exportingProcess":[{"name":"ex","destination":[{"name":"d","tcpExporter":{}}]}]}}},
{"name":"c1","config":{"ietf-ipfix-psamp:ipfix":{"collectingProcess":[{"name":"cp"}]}}}],
"links":[{"device":"m2","exportingProcess":"ex","destination":"d","toDevice":"c1","toProcess":"cp"}],
"report":{"device":"c1","collectingProcess":"cp","key":[{"ieName":"sourceIPv4Address"}]}}
"#;

/// The traffic of that part.
const MAIL: &str = r#"{"classes":[
{"name":"mail","region":{"sourceIPv4Address":"11.0.0.0/8"},"paths":[[{"device":"m2","interface":"eth0","direction":"ingress"}]]}]}
"#;

/// The same traffic under the name of the other class.
const MISNAMED: &str = r#"{"classes":[
{"name":"web","region":{"sourceIPv4Address":"11.0.0.0/8"},"paths":[[{"device":"m2","interface":"eth0","direction":"ingress"}]]}]}
"#;

/// A certificate that names another selection process.
const WRONG: &[u8] = b"once-certificate 1\nclass 1 path 1\nL 1 1 2\nend\n";

/// The network of a part whose collecting process has another name than in the whole.
const ELSEWHERE: &str = r#"{"devices":[
{"name":"c1","config":{"ietf-ipfix-psamp:ipfix":{"collectingProcess":[{"name":"other"}]}}}],
"links":[],
"report":{"device":"c1","collectingProcess":"other","key":[{"ieName":"sourceIPv4Address"}]}}
"#;

/// The network of a part whose report has another key than that of the whole.
const OTHER_REPORT: &str = r#"{"devices":[
{"name":"c1","config":{"ietf-ipfix-psamp:ipfix":{"collectingProcess":[{"name":"cp"}]}}}],
"links":[],
"report":{"device":"c1","collectingProcess":"cp","key":[{"ieName":"destinationIPv4Address"}]}}
"#;

/// No traffic, and its certificate.
const NONE: &str = "{\"classes\":[]}\n";

const EMPTY: &[u8] = b"once-certificate 1\nend\n";

/// The texts of a part: its network, its traffic and its certificate.
type Texts<'t> = [&'t [u8]; 3];

/// Returns the text of two parts.
fn joined(rt: &impl Abort, alloc: Global, first: &Texts<'_>, second: &Texts<'_>) -> Vec<u8> {
    let (check, end) = (b"check\n".as_slice(), b"%%\n".as_slice());
    let ([a, b, c], [d, e, f]) = (*first, *second);
    let texts = [check, a, end, b, end, c, end, check, d, end, e, end, f, end];
    texts.concat(alloc).expect(rt, "memory")
}

/// The part with `m1`, and that with `m2`.
fn web_part() -> Texts<'static> {
    [NETWORK.as_bytes(), TRAFFIC.as_bytes(), CERTIFICATE]
}

fn mail_part() -> Texts<'static> {
    [SECOND.as_bytes(), MAIL.as_bytes(), CERTIFICATE]
}

/// Returns whether joining parts of a whole has this outcome and writes this text.
fn ends(
    alloc: Global,
    network: &str,
    traffic: &str,
    parts: &[u8],
    wanted: Result<Answer, u16>,
    text: &[u8],
) -> bool {
    let mut network = Octets::new(network.as_bytes());
    let mut traffic = Octets::new(traffic.as_bytes());
    let mut parts = Octets::new(parts);
    let mut octets = [0u8; 64];
    let mut room = Room::new(&mut octets);
    let outcome = join_bytes(alloc, &mut network, &mut traffic, &mut parts, &mut room);
    (ending(outcome) == wanted) & (room.octets() == text)
}

/// Returns whether joining two parts of the whole has this outcome and writes this text.
fn joins(
    rt: &impl Abort,
    alloc: Global,
    first: &Texts<'_>,
    second: &Texts<'_>,
    wanted: Result<Answer, u16>,
    text: &[u8],
) -> bool {
    let parts = joined(rt, alloc, first, second);
    ends(alloc, WHOLE, BOTH, parts.as_slice(), wanted, text)
}

#[test]
fn joins_parts(rt: HostRuntime) {
    let alloc = rt.alloc();
    let (web, mail) = (web_part(), mail_part());
    assert!(rt; joins(&rt, alloc, &web, &mail, Ok(Answer::Yes), b"yes\n"));
    assert!(rt; joins(&rt, alloc, &mail, &web, Ok(Answer::Yes), b"yes\n"));
    assert!(rt;
        joins(
            &rt,
            alloc,
            &web,
            &web,
            Ok(Answer::No),
            b"no 423 /classes/1\n"
        )
    );
    assert!(rt;
        joins(
            &rt,
            alloc,
            &mail,
            &mail,
            Ok(Answer::No),
            b"no 423 /classes/0\n"
        )
    );
    assert!(rt;
        ends(
            alloc,
            WHOLE,
            BOTH,
            b"",
            Ok(Answer::No),
            b"no 423 /classes/0\n"
        )
    );
    assert!(rt; ends(alloc, WHOLE, NONE, b"", Ok(Answer::Yes), b"yes\n"));
}

/// A class of a part covers only the class of the whole that has its name.
#[test]
fn covers_classes_by_name(rt: HostRuntime) {
    let misnamed = [SECOND.as_bytes(), MISNAMED.as_bytes(), CERTIFICATE];
    let no = b"no 423 /classes/1\n";
    assert!(rt; joins(&rt, rt.alloc(), &web_part(), &misnamed, Ok(Answer::No), no));
}

#[test]
fn refuses_parts(rt: HostRuntime) {
    let (alloc, web, none) = (rt.alloc(), web_part(), NONE.as_bytes());
    let wrong = [SECOND.as_bytes(), MAIL.as_bytes(), WRONG];
    let unread = [b"{".as_slice(), MAIL.as_bytes(), CERTIFICATE];
    let elsewhere = [ELSEWHERE.as_bytes(), none, EMPTY];
    let report = [OTHER_REPORT.as_bytes(), none, EMPTY];
    assert!(rt; joins(&rt, alloc, &web, &wrong, Ok(Answer::No), b"no 421 part 2\n"));
    assert!(rt;
        joins(
            &rt,
            alloc,
            &unread,
            &web,
            Ok(Answer::No),
            b"no 421 part 1\n"
        )
    );
    assert!(rt;
        joins(
            &rt,
            alloc,
            &web,
            &elsewhere,
            Ok(Answer::No),
            b"no 422 part 2\n"
        )
    );
    assert!(rt;
        joins(
            &rt,
            alloc,
            &report,
            &web,
            Ok(Answer::No),
            b"no 422 part 1\n"
        )
    );
    assert!(rt; refusals::PART_REFUSED == 421 && refusals::NOT_A_PART == 422);
    assert!(rt; refusals::CLASS_NOT_COVERED == 423);
}

/// Texts that are no parts.
const OTHER_SHAPES: [&[u8]; 6] = [
    b"check",
    b"check\n",
    b"check\n%%\n%%\n",
    b"check\n%%\n%%\n%%",
    b"audit\n%%\n%%\n%%\n",
    b"\ncheck\n%%\n%%\n%%\n",
];

#[test]
fn refuses_other_shapes(rt: HostRuntime) {
    let alloc = rt.alloc();
    for shape in &OTHER_SHAPES {
        assert!(rt; ends(alloc, WHOLE, BOTH, *shape, Err(801), b""));
    }
    let parts = joined(&rt, alloc, &web_part(), &mail_part());
    let more = [parts.as_slice(), b"\n".as_slice()].concat(alloc);
    let more = more.expect(&rt, "memory");
    assert!(rt; ends(alloc, WHOLE, BOTH, more.as_slice(), Err(801), b""));
}

#[test]
fn refuses_wholes(rt: HostRuntime) {
    let alloc = rt.alloc();
    assert!(rt; ends(alloc, "{", BOTH, b"", Err(101), b""));
    assert!(rt; ends(alloc, "{}", BOTH, b"", Err(103), b""));
    assert!(rt; ends(alloc, WHOLE, "{}", b"", Err(103), b""));
    assert!(rt; ends(alloc, NETWORK, BOTH, b"", Err(303), b""));
}

/// Two collecting processes each of which feeds the other.
const CYCLE: &str = r#"{"devices":[
{"name":"a","config":{"ietf-ipfix-psamp:ipfix":{
"exportingProcess":[{"name":"ex","destination":[{"name":"d","tcpExporter":{}}]}],
"collectingProcess":[{"name":"cp","exportingProcess":["ex"]}]}}}],
"links":[{"device":"a","exportingProcess":"ex","destination":"d","toDevice":"a","toProcess":"cp"}],
"report":{"device":"a","collectingProcess":"cp","key":[{"ieName":"sourceIPv4Address"}]}}
"#;

#[test]
fn refuses_a_cycle(rt: HostRuntime) {
    assert!(rt; ends(rt.alloc(), CYCLE, NONE, b"", Err(204), b""));
}

/// Returns the outcome of joining two parts if the parts' read and the write with these numbers fail, or none for 0.
fn failing(rt: &impl Abort, alloc: Global, read: u64, write: u64) -> Result<Answer, u16> {
    let text = joined(rt, alloc, &web_part(), &mail_part());
    let mut network = Octets::new(WHOLE.as_bytes());
    let mut traffic = Octets::new(BOTH.as_bytes());
    let mut parts = Fuse::new(Octets::new(text.as_slice()), read);
    let mut octets = [0u8; 64];
    let mut sink = Fuse::new(Room::new(&mut octets), write);
    ending(join_bytes(alloc, &mut network, &mut traffic, &mut parts, &mut sink))
}

/// The parts are read in one call, and a second one finds their end; the answer is written in one call.
const FAILING: [(u64, u64, Result<Answer, u16>); 4] = [
    (0, 0, Ok(Answer::Yes)),
    (1, 0, Err(901)),
    (2, 0, Err(901)),
    (0, 1, Err(902)),
];

#[test]
fn fails_with_its_devices(rt: HostRuntime) {
    for (read, write, wanted) in &FAILING {
        assert!(rt; failing(&rt, rt.alloc(), *read, *write) == *wanted);
    }
}

/// An explainer that keeps numbers: those of a refused part and of its fault, of a part that isn't one, of the text
/// that isn't a part, and the index of a class, plus 1.
#[derive(Drop)]
struct Kept {
    refused: u64,
    fault: u16,
    accepted: bool,
    foreign: u64,
    missing: bool,
    none: u64,
    class: usize,
    documents: u64,
}

impl JoinExplainer for Kept {
    fn on_whole_network(&mut self, _octets: &[u8], _network: &NetworkDocument) {
        self.documents |= 1;
    }

    fn on_refused_whole_network(&mut self, _octets: &[u8], fault: &Fault) {
        self.fault = fault.number;
    }

    fn on_whole_traffic(&mut self, _octets: &[u8], _network: &NetworkDocument, _traffic: &Traffic) {
        self.documents |= 2;
    }

    fn on_refused_whole_traffic(
        &mut self,
        _octets: &[u8],
        _network: &NetworkDocument,
        fault: &Fault,
    ) {
        self.fault = fault.number;
    }

    fn on_no_part(&mut self, number: u64) {
        self.none = number;
    }

    fn on_refused_part(
        &mut self,
        number: u64,
        fault: &Fault,
        documents: Option<&AcceptedDocuments>,
    ) {
        self.refused = number;
        self.fault = fault.number;
        self.accepted = documents.is_some();
    }

    fn on_foreign_part(
        &mut self,
        number: u64,
        _documents: &AcceptedDocuments,
        missing: Option<ProcessName<'_>>,
    ) {
        self.foreign = number;
        self.missing = missing.is_some();
    }

    fn on_uncovered_class(&mut self, index: usize, _network: &NetworkDocument, _traffic: &Traffic) {
        self.class = index.saturating_add(1);
    }
}

/// Returns what an explainer of joining two parts receives.
fn explained(rt: &impl Abort, alloc: Global, first: &Texts<'_>, second: &Texts<'_>) -> Kept {
    let text = joined(rt, alloc, first, second);
    let mut network = Octets::new(WHOLE.as_bytes());
    let mut traffic = Octets::new(BOTH.as_bytes());
    let mut parts = Octets::new(text.as_slice());
    let mut octets = [0u8; 64];
    let mut room = Room::new(&mut octets);
    let mut kept = Kept {
        refused: 0,
        fault: 0,
        accepted: false,
        foreign: 0,
        missing: false,
        none: 0,
        class: 0,
        documents: 0,
    };
    let _outcome = join_explained(
        alloc,
        &mut network,
        &mut traffic,
        &mut parts,
        &mut kept,
        &mut room,
    );
    kept
}

#[test]
fn explains_refusals(rt: HostRuntime) {
    let (alloc, web, none) = (rt.alloc(), web_part(), NONE.as_bytes());
    let wrong = [SECOND.as_bytes(), MAIL.as_bytes(), WRONG];
    let elsewhere = [ELSEWHERE.as_bytes(), none, EMPTY];
    let report = [OTHER_REPORT.as_bytes(), none, EMPTY];
    let refused = explained(&rt, alloc, &web, &wrong);
    assert!(rt; refused.refused == 2 && refused.fault == 410 && refused.accepted);
    let missing = explained(&rt, alloc, &web, &elsewhere);
    assert!(rt; missing.foreign == 2 && missing.missing);
    let foreign = explained(&rt, alloc, &report, &web);
    assert!(rt; foreign.foreign == 1 && !foreign.missing);
    let uncovered = explained(&rt, alloc, &web, &web);
    assert!(rt; uncovered.class == 2 && uncovered.documents == 3);
}
