//! Answers as JSON objects.
use crate::answers::ends;
use crate::audit_texts::{NETWORK, TRAFFIC};
use crate::check::traffic_of;
use crate::explanations::REFUTATION;
use crate::plan::plan_of;
use fx_base::{LineReader, Octets, Place, Sink, put_text};
use fx_check::Checker;
use fx_explanation::Documents;
use fx_json_answers::{
    Answered, Context, TextBuffer, certificate_fact, put_answer, refutation_fact,
};
use fx_layout::Layout;
use fx_refute::read_refutation;
use std::alloc::Global;

/// What a refused replay prints.
const REFUSED: &[u8] =
    b"{\"answer\":\"refused\",\"command\":\"replay\",\"explanation\":[\"a\"],\"facts\":[],\"files\":{\"run\":\"r\"},\
\"format\":\"once-answer/1\",\"notes\":[],\"number\":null,\"output\":\"x\\n\",\"place\":{\"kind\":\"line\",\"line\":4},\"reason\":null,\
\"status\":2}\n";

/// What a confirmed refutation prints as text, and then its totals.
const CONFIRMED: &[u8] =
    b"refuted\nrun\nkeys 1\n10.0.0.1 packets 2 octets 3\nunassigned 4\nplain\nkeys 0\nunassigned 0\n";

const TOTALS: &str =
    "\"totals\":{\"keys\":[{\"key\":{\"sourceIPv4Address\":\"10.0.0.1\"},\"octets\":3,\"packets\":2}],\"unassigned\":4}}\n";

const CERTIFICATE_FACT: &str =
    r#"{"about":"certificate line","class":{"name":"web","number":1},"crossings":[{"device":"m1","direction":"ingress","interface":"eth0"}],"due":"class","path":1}"#;

const REFUTATION_FACT: &str =
    r#"{"about":"refuting run","class":{"name":"web","number":1},"crossings":[{"device":"m1","direction":"ingress","interface":"eth0"}],"fields":{"destinationIPv4Address":"192.0.2.1","destinationIPv6Address":"0:0:0:0:0:0:0:0","destinationTransportPort":80,"ipClassOfService":0,"ipVersion":4,"protocolIdentifier":6,"sourceIPv4Address":"10.0.0.1","sourceIPv6Address":"0:0:0:0:0:0:0:0","sourceTransportPort":1000},"octets":100,"path":1,"steps":1}"#;

#[test]
fn writes_a_refusal_as_json(rt: HostRuntime) {
    let answered = Answered {
        command: "replay",
        answer: "refused",
        status: 2,
        number: None,
        place: &Place::Line(4),
        output: b"x\n",
    };
    let context = Context {
        files: &[("network", ""), ("run", "r")],
        totals_key: None,
        facts: Vec::new(rt.alloc()),
        explanation: b"a\n",
        notes: b"",
    };
    let mut text = TextBuffer::new(rt.alloc());
    let is_put = ends(put_answer(rt.alloc(), &answered, context, &mut text), 0);
    assert!(rt; is_put & !text.has_failed() & (text.octets() == REFUSED));
}

/// Returns whether the totals of a confirmed refutation are written as JSON, under this key.
fn writes_totals(alloc: Global, key: &Layout) -> bool {
    let place = Place::None;
    let answered = Answered {
        command: "confirm",
        answer: "refuted",
        status: 0,
        number: None,
        place: &place,
        output: CONFIRMED,
    };
    let context = Context {
        files: &[],
        totals_key: Some(key),
        facts: Vec::new(alloc),
        explanation: b"",
        notes: b"",
    };
    let mut text = TextBuffer::new(alloc);
    let is_put = ends(put_answer(alloc, &answered, context, &mut text), 0);
    is_put & text.octets().ends_with(TOTALS.as_bytes())
}

#[test]
fn writes_totals_as_json(rt: HostRuntime) {
    let plan = plan_of(&rt, rt.alloc(), NETWORK);
    assert!(rt; writes_totals(rt.alloc(), plan.net().report_layout()));
}

#[test]
fn buffers_a_text(rt: HostRuntime) {
    let mut text = TextBuffer::new(rt.alloc());
    let is_put = ends(put_text(&mut text, b"ab"), 0) & text.flush().is_ok();
    assert!(rt; is_put & (text.octets() == b"ab".as_slice()));
}

#[test]
fn certificates_have_a_fact(rt: HostRuntime) {
    let plan = plan_of(&rt, rt.alloc(), NETWORK);
    let traffic = traffic_of(&rt, rt.alloc(), TRAFFIC, &plan);
    let mut checker = Checker::new(rt.alloc(), &plan, &traffic).expect(&rt, "a checker");
    let lines = Octets::new(b"once-certificate 1\nx\n");
    let mut lines = LineReader::new(rt.alloc(), lines).expect(&rt, "memory");
    let is_refused = checker.take_all(&mut lines).is_err();
    let documents = Documents::new(&plan, &traffic);
    let fact = certificate_fact(rt.alloc(), &documents, &checker.due(), None).expect(&rt, "memory");
    let text = fact.to_string(rt.alloc()).expect(&rt, "memory");
    assert!(rt; is_refused & (text.as_str() == CERTIFICATE_FACT));
}

#[test]
fn refutations_have_a_fact(rt: HostRuntime) {
    let plan = plan_of(&rt, rt.alloc(), NETWORK);
    let traffic = traffic_of(&rt, rt.alloc(), TRAFFIC, &plan);
    let mut lines = LineReader::new(rt.alloc(), Octets::new(REFUTATION)).expect(&rt, "memory");
    let refutation = read_refutation(rt.alloc(), &mut lines).expect(&rt, "a refutation");
    let documents = Documents::new(&plan, &traffic);
    let fact = refutation_fact(rt.alloc(), &documents, &refutation).expect(&rt, "memory");
    let text = fact.to_string(rt.alloc()).expect(&rt, "memory");
    assert!(rt; text.as_str() == REFUTATION_FACT);
}
