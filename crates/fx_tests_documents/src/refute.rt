//! Refutations of small networks.
use crate::answers::ends;
use crate::audit_texts::{NETWORK, TRAFFIC};
use crate::check::traffic_of;
use crate::documents::fault_reported;
use crate::plan::plan_of;
use fx_base::{Fault, LineReader, Octets, Place, Room};
use fx_collect::Totals;
use fx_machine::{State, StepWatch};
use fx_plan::Plan;
use fx_refute::{
    confirm, confirm_watched, put_refutation, read_refutation, refutations_have_one_text,
    refutations_refute,
};
use fx_run_text::{Step, run_lines_have_one_text};
use fx_traffic::Traffic;
use std::alloc::Global;
use std::process::Abort;

/// Returns the totals of a refuting run, and the plain sums.
fn refuted(
    alloc: Global,
    plan: &Plan,
    traffic: &Traffic,
    text: &str,
) -> Result<(Totals, Totals), Fault> {
    let mut lines = LineReader::new(alloc, Octets::new(text.as_bytes()))?;
    let refutation = read_refutation(alloc, &mut lines)?;
    confirm(alloc, plan, traffic, &refutation)
}

/// What an observer was shown of a run: the 1-based number of a refused step, the number of its refusal, and whether it
/// was shown the last state. All are 0 and false if it was shown nothing.
#[derive(Drop)]
struct Shown {
    step: u64,
    why: u16,
    is_last: bool,
}

impl StepWatch for Shown {
    fn on_refused_step(&mut self, _state: &State<'_>, _step: &Step, number: u64, fault: &Fault) {
        self.step = number;
        self.why = fault.number;
    }

    fn on_last_state(&mut self, state: &State<'_>) {
        self.is_last = state.packets().len() == 1;
    }
}

/// Confirms a refutation, as [`refuted`] does, with an observer.
fn refuted_before(
    alloc: Global,
    plan: &Plan,
    traffic: &Traffic,
    text: &str,
    shown: &mut Shown,
) -> Result<(Totals, Totals), Fault> {
    let mut lines = LineReader::new(alloc, Octets::new(text.as_bytes()))?;
    let refutation = read_refutation(alloc, &mut lines)?;
    confirm_watched(alloc, plan, traffic, &refutation, shown)
}

/// Returns the line of a fault, or 0 if it has none.
fn line_of(fault: &Fault) -> u64 {
    match &fault.place {
        Place::Line(line) => *line,
        _ => 0,
    }
}

/// Returns whether an observer is shown the refused step, or the last state, if a refutation is refused because of it.
fn is_shown(alloc: Global, plan: &Plan, traffic: &Traffic, text: &str) -> bool {
    let mut shown = Shown {
        step: 0,
        why: 0,
        is_last: false,
    };
    let answer = refuted_before(alloc, plan, traffic, text, &mut shown);
    let (number, line) = match &answer {
        Ok(_) => (0, 0),
        Err(fault) => (fault.number, line_of(fault)),
    };
    match number {
        503 => shown.step.saturating_add(2) == line
            && matches!(shown.why, 851..=853)
            && !shown.is_last,
        504 | 505 => shown.step == 0 && shown.is_last,
        _ => shown.step == 0 && !shown.is_last,
    }
}

/// Returns the numbers of keys and unassigned records of a run, and of the keys of its packet, as text.
fn totals_reported(rt: &impl Abort, alloc: Global, ran: Totals, plain: Totals) -> String {
    let (keys, lost, wanted) = (ran.len(), ran.unassigned(), plain.len());
    format!(in alloc; "{keys} {lost} for {wanted}").expect(rt, "memory")
}

/// Returns the result of a refutation: its totals, or the fault's number and place.
fn reported(rt: &impl Abort, alloc: Global, answer: Result<(Totals, Totals), Fault>) -> String {
    match answer {
        Ok((ran, plain)) => totals_reported(rt, alloc, ran, plain),
        Err(fault) => fault_reported(rt, alloc, fault),
    }
}

/// Confirms refutations over a network and its traffic, and asserts that each has the result beside it.
fn confirm_all(
    rt: &impl Abort,
    alloc: Global,
    network: &str,
    traffic: &str,
    refutations: &[(&str, &str)],
) {
    let plan = plan_of(rt, alloc, network);
    let traffic = traffic_of(rt, alloc, traffic, &plan);
    for (text, wanted) in refutations {
        let answer = refuted(alloc, &plan, &traffic, *text);
        assert!(rt; reported(rt, alloc, answer).as_str() == *wanted, "{text}");
        assert!(rt; is_shown(alloc, &plan, &traffic, *text), "{text}");
    }
}

/// A meter whose exporting process sends to the collector, or to a destination without a link if it can't.
pub(crate) const WITH_FALLBACK: &str =
    r#"{"devices":[{"name":"m1","config":{"ietf-ipfix-psamp:ipfix":{
"observationPoint":[{"name":"op","observationDomainId":0,"ifName":["eth0"],"selectionProcess":["sp"]}],
"selectionProcess":[{"name":"sp","selector":[{"name":"a","selectAll":[null]}],"cache":"ca"}],
"cache":[{"name":"ca","timeoutCache":{"cacheLayout":{"cacheField":[
{"name":"s","ieName":"sourceIPv4Address","isFlowKey":[null]},
{"name":"o","ieId":1},{"name":"p","ieId":2}]}},"exportingProcess":["ex"]}],
"exportingProcess":[{"name":"ex","exportMode":"fallback","destination":[
{"name":"d","tcpExporter":{}},{"name":"e","tcpExporter":{}}]}]}}},
{"name":"c1","config":{"ietf-ipfix-psamp:ipfix":{"collectingProcess":[{"name":"cp"}]}}}],
"links":[{"device":"m1","exportingProcess":"ex","destination":"d","toDevice":"c1","toProcess":"cp"}],
"report":{"device":"c1","collectingProcess":"cp","key":[{"ieName":"sourceIPv4Address"}]}}"#;

const OF_FALLBACK: &[(&str, &str)] = &[
    // The record leaves the network.
    (
        "once-refutation 1\npacket 1 1 10.0.0.0 0.0.0.0 0 0 0 0 1\ncross 1 1 n\nexpire cache 1 1 1 2\nend\n",
        "0 0 for 1",
    ),
    // The record is counted.
    (
        "once-refutation 1\npacket 1 1 10.0.0.0 0.0.0.0 0 0 0 0 1\ncross 1 1 n\nexpire cache 1 1 1 1\narrive 1 1\nend\n",
        "505 ",
    ),
];

/// For one meter and one collector that count each packet.
const REFUTATIONS: &[(&str, &str)] = &[
    (
        "once-refutation 1\npacket 1 1 10.0.0.0 0.0.0.0 0 0 0 0 1\ncross 1 1 n\nexpire cache 1 1 1 2\nend\n",
        "503 line 4",
    ),
    (
        "once-refutation 2\npacket 1 1 10.0.0.0 0.0.0.0 0 0 0 0 0 0:0:0:0:0:0:0:0 0:0:0:0:0:0:0:1 1\ncross 1 1 n\nexpire cache 1 1 1 2\nend\n",
        "503 line 4",
    ),
    (
        "once-refutation 2\npacket 1 1 10.0.0.0 0.0.0.0 0 0 0 0 1\ncross 1 1 n\nend\n",
        "501 line 2",
    ),
    (
        "once-refutation 1\npacket 1 1 10.0.0.0 0.0.0.0 0 0 0 0 0 0:0:0:0:0:0:0:0 0:0:0:0:0:0:0:1 1\ncross 1 1 n\nend\n",
        "501 line 2",
    ),
    (
        "once-refutation 2\npacket 1 1 10.0.0.0 0.0.0.0 0 0 0 0 0 :: 0:0:0:0:0:0:0:1 1\ncross 1 1 n\nend\n",
        "501 line 2",
    ),
    (
        "once-refutation 1\npacket 1 1 11.0.0.0 0.0.0.0 0 0 0 0 1\ncross 1 1 n\nexpire cache 1 1 1 2\nend\n",
        "502 line 2",
    ),
    (
        "once-refutation 1\npacket 1 1 10.0.0.0 0.0.0.0 0 0 0 0 1\ncross 1 1 n\nend\n",
        "504 ",
    ),
    (
        "once-refutation 1\npacket 1 1 10.0.0.0 0.0.0.0 0 0 0 0 1\ncross 1 1 n\nexpire cache 1 1 1\narrive 1 1\nend\n",
        "505 ",
    ),
    ("", "501 line 1"),
    ("once-run 1\n", "501 line 1"),
    ("once-refutation 3\n", "501 line 1"),
    ("once-refutation 1\nend\n", "501 line 2"),
    (
        "once-refutation 1\npacket 1 1 10.0.0.0 0.0.0.0 0 0 0 0 1\n",
        "501 line 3",
    ),
    (
        "once-refutation 1\npacket 1 1 10.0.0.0 0.0.0.0 0 0 0 0 1\npacket 1 1 10.0.0.0 0.0.0.0 0 0 0 0 1\nend\n",
        "501 line 3",
    ),
    (
        "once-refutation 1\npacket 1 1 10.0.0.0 0.0.0.0 0 0 0 0 1\nend\nend\n",
        "501 line 4",
    ),
    (
        "once-refutation 1\npacket 1 1 10.0.0.0 0.0.0.0 0 0 0 0 1\nend",
        "501 line 3",
    ),
];

/// An exempt class that the meter counts.
pub(crate) const EXEMPT: &str =
    r#"{"classes":[{"name":"web","region":{"sourceIPv4Address":"10.0.0.0/8"},"paths":[[{"device":"m1","interface":"eth0","direction":"ingress"}]],"exempt":true}]}"#;

const OF_EXEMPT: &[(&str, &str)] = &[(
    "once-refutation 1\npacket 1 1 10.0.0.0 0.0.0.0 0 0 0 0 1\ncross 1 1 n\nexpire cache 1 1 1\narrive 1 1\nend\n",
    "1 0 for 0",
)];

/// Networks, traffic, and refutations.
const CONFIRMED: [(&str, &str, &[(&str, &str)]); 3] = [
    (NETWORK, TRAFFIC, REFUTATIONS),
    (WITH_FALLBACK, TRAFFIC, OF_FALLBACK),
    (NETWORK, EXEMPT, OF_EXEMPT),
];

#[test]
fn confirms_refutations(rt: HostRuntime) {
    for (network, traffic, refutations) in &CONFIRMED {
        confirm_all(&rt, rt.alloc(), *network, *traffic, *refutations);
    }
}

/// A text with steps of all forms.
const TEXT: &[u8] = b"once-refutation 2
packet 1 2 10.0.0.1 192.0.2.255 6 1000 80 32 4 0:0:0:0:0:0:0:0 fe80:0:0:0:a:b0:c00:d000 18446744073709551615
cross 1 1 n 3
cross 1 2
expire cache 1 2 3 n
expire aggregation 1 2 3 4 18446744073709551615 n
arrive 5 6 7
arrive 1 1
end
";

#[test]
fn writes_what_it_reads(rt: HostRuntime) {
    let mut lines = LineReader::new(rt.alloc(), Octets::new(TEXT)).expect(&rt, "memory");
    let refutation = read_refutation(rt.alloc(), &mut lines).expect(&rt, "a refutation");
    let mut octets = [0; 512];
    let mut room = Room::new(&mut octets);
    let is_put = ends(put_refutation(&mut room, &refutation), 0);
    assert!(rt; is_put & (room.octets() == TEXT));
}

#[test]
fn the_laws_of_refutations() {
    refutations_refute();
    refutations_have_one_text();
    run_lines_have_one_text();
}
