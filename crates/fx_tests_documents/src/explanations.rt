//! Answers that are explained in sentences.
use crate::answers::ends;
use crate::audit_texts::{NETWORK, TRAFFIC};
use crate::check::traffic_of;
use crate::plan::plan_of;
use fx_base::{Fault, LineReader, Octets, Room};
use fx_check::Checker;
use fx_explain_documents::{
    JoinFinding, put_join_finding, put_network_notes, put_refused_network, put_refused_traffic,
    put_traffic_notes,
};
use fx_explain_runs::{
    packet_in_line, put_refused_certificate, put_refused_metering, put_refused_packet,
    put_refused_totals, put_text_line,
};
use fx_explain_streams::{StreamWatch, put_left_out, put_refused_capture, put_refused_message};
use fx_explanation::{Documents, Explanation};
use fx_pcap::Capture;
use fx_session::Session;
use std::alloc::Global;
use std::process::Abort;

/// A certificate that names another selection process.
const CERTIFICATE: &[u8] = b"once-certificate 1\nclass 1 path 1\nL 1 1 2\nend\n";

const CERTIFICATE_WORDS: &[u8] = b"line 3: L 1 1 2
class 1 \"web\", path 1: m1 eth0 ingress
the leaf names crossing 1 (m1 eth0 ingress), observation point \"op\"; there is no selection process 2
region: source 10.0.0.0 to 10.255.255.255
crossing 1 (m1 eth0 ingress): observation point \"op\", selection process \"sp\" selects all of these packets, cache \"ca\": exporting process \"ex\" sends to destination \"d\", which is linked to collecting process \"cp\" of c1
collecting process \"cp\" of c1 is the report's
";

/// A run that ends before its record leaves the cache.
pub(crate) const REFUTATION: &[u8] = b"once-refutation 1
packet 1 1 10.0.0.1 192.0.2.1 6 1000 80 0 100
cross 1 1 n
end
";

pub(crate) const REFUTATION_STORY: &[u8] =
    b"the packet: class 1 \"web\", path 1, source 10.0.0.1, destination 192.0.2.1, protocol 6, sport 1000, dport 80, version 4, 0 in all other fields, octets 100
1. packet 1 crosses m1 eth0 ingress: observation point \"op\", selection process \"sp\": cache \"ca\" holds a record of it
no record reaches the report
";

pub(crate) const RUN_WORDS: &[u8] = b"line 4: expire cache 1 1 2
this step is impossible; it asks for: a record leaves cache \"ca\" of m1: exporting process \"ex\" sends to destination \"d\", which is linked to collecting process \"cp\" of c1
before this step the number of records there is 1; positions count from 1, and none is at 2
";

pub(crate) const REPLAY_WORDS: &[u8] =
    b"cache \"ca\" of m1 still holds records: 1; the first leaves by a line expire cache 1 1 1 CHOICES
";

/// Totals with a number that has a leading zero.
const TOTALS: &[u8] = b"keys 1
10.0.0.1 packets 2 octets 02
unassigned 0
";

const TOTALS_WORDS: &[u8] = b"line 2: 10.0.0.1 packets 2 octets 02
expected on this line: a key's line: KEY packets P octets O; it is key line 1 of 1, as line 1 says keys 1
word 5 is \"02\": a number has no zeros in front
expected there: OCTETS, a number from 0 to 18446744073709551615; the form of the line: KEY packets PACKETS octets OCTETS
";

const COLLECTION_WORDS: &[u8] =
    b"The stream is empty: it has no message. Check that it is the right file, and that the exporter sends to this address and port; some exporters send their first message, with the templates, only after minutes.
";

const DOCUMENT_WORDS: &[u8] = b"missing: devices
missing: links
missing: report
it has no members
";

/// Traffic at an interface without an observation point.
const UNSEEN_TRAFFIC: &[u8] =
    br#"{"classes":[{"name":"web","paths":[[{"device":"m1","interface":"eth9","direction":"ingress"}]]}]}"#;

const LINT_WORDS: &[u8] = b"class 1 \"web\", path 1: no observation point sees any of its crossings
class 1 \"web\", path 1: at m1 eth9 ingress the interface is at no observation point; those of the device are at \"eth0\"
";

/// The first octets of a capture, which are no message.
const NO_STREAM: &[u8] = &[
    0xd4, 0xc3, 0xb2, 0xa1, 2, 0, 4, 0, 0, 0, 0, 0, 0, 0, 0, 0, 0, 0, 4, 0, 1, 0, 0, 0,
];

const STREAM_WORDS: &[u8] =
    b"message 1 of the stream, from octet 0 on: its first octets are d4 c3 b2 a1 02 00 04 00 00 00 00 00 00 00 00 00
These octets begin a capture (pcap). The messages are inside its packets: docs/GUIDE.md explains how to extract them.
";

/// The first octets of a capture of another format.
const NO_CAPTURE: &[u8] = &[0x0a, 0x0d, 0x0d, 0x0a, 0x1c, 0, 0, 0];

const CAPTURE_WORDS: &[u8] = b"the first octets of the capture: 0a 0d 0d 0a 1c 00 00 00
These octets begin a capture in pcapng. Convert it: tshark -r OLD -F pcap -w NEW.
";

/// A capture without packets, so that what the schedule requires isn't available.
const EMPTY_CAPTURE: &[u8] = &[
    0xd4, 0xc3, 0xb2, 0xa1, 2, 0, 4, 0, 0, 0, 0, 0, 0, 0, 0, 0, 0, 0, 4, 0, 101, 0, 0, 0,
];

const SCHEDULE_WORDS: &[u8] = b"line 1: next 1 2
the capture has no packet left: the lines next above have read 0; frames that aren't IP, or are malformed, are skipped; remove this line
";

/// A packet outside its class.
const PACKET: &[u8] =
    b"packet 1 1 11.0.0.1 192.0.2.1 6 1000 80 0 4 0:0:0:0:0:0:0:0 0:0:0:0:0:0:0:0 100";

/// Returns a reader of the lines of a text.
fn lines_of<'a>(rt: &impl Abort, alloc: Global, text: &'a [u8]) -> LineReader<Octets<'a>> {
    LineReader::new(alloc, Octets::new(text)).expect(rt, "memory")
}

#[test]
fn control_characters_are_replaced(rt: HostRuntime) {
    let mut explanation = Explanation::new(rt.alloc());
    explanation.quoted("a\n\u{1b}\u{7f}");
    explanation.end_line();
    explanation.lines_of(b"\x01\n");
    let octets = explanation.octets().expect(&rt, "memory");
    assert!(rt; octets == b"\"a???\"\n?\n".as_slice());
}

#[test]
fn explains_a_message_that_is_refused(rt: HostRuntime) {
    let mut watch = StreamWatch::new(rt.alloc(), true);
    let mut session = Session::new(rt.alloc()).expect(&rt, "memory");
    let is_refused = session.feed_watched(NO_STREAM, &mut watch).is_err();
    let mut octets = [0u8; 1000];
    let mut room = Room::new(&mut octets);
    let is_put = ends(put_refused_message(&watch, &mut room), 0);
    assert!(rt; is_refused & is_put & (room.octets() == STREAM_WORDS));
}

#[test]
fn explains_a_stream_without_messages(rt: HostRuntime) {
    let watch = StreamWatch::new(rt.alloc(), true);
    let mut octets = [0u8; 1000];
    let mut room = Room::new(&mut octets);
    let is_put = ends(put_left_out(&watch, &mut room), 0);
    assert!(rt; is_put & (room.octets() == COLLECTION_WORDS));
}

#[test]
fn explains_captures(rt: HostRuntime) {
    let mut octets = [0u8; 1000];
    let mut room = Room::new(&mut octets);
    let fault = Fault::at_octet(701, 0);
    let answer = put_refused_capture(rt.alloc(), NO_CAPTURE, &fault, &mut room);
    assert!(rt; ends(answer, 0) & (room.octets() == CAPTURE_WORDS));
}

#[test]
fn explains_schedules(rt: HostRuntime) {
    let plan = plan_of(&rt, rt.alloc(), NETWORK);
    let traffic = traffic_of(&rt, rt.alloc(), TRAFFIC, &plan);
    let mut lines = lines_of(&rt, rt.alloc(), b"next 1 2\n");
    let _there = lines.advance();
    let capture = Capture::new(rt.alloc(), Octets::new(EMPTY_CAPTURE)).expect(&rt, "a capture");
    let mut octets = [0u8; 1000];
    let mut room = Room::new(&mut octets);
    let answer = put_refused_metering(
        rt.alloc(),
        &Documents::new(&plan, &traffic),
        &lines.line(),
        &capture.frame(),
        capture.packets(),
        capture.skipped(),
        &Fault::at_line(802, 1),
        &mut room,
    );
    assert!(rt; ends(answer, 0) & (room.octets() == SCHEDULE_WORDS));
}

#[test]
fn explains_certificates(rt: HostRuntime) {
    let plan = plan_of(&rt, rt.alloc(), NETWORK);
    let traffic = traffic_of(&rt, rt.alloc(), TRAFFIC, &plan);
    let mut checker = Checker::new(rt.alloc(), &plan, &traffic).expect(&rt, "a checker");
    let mut lines = lines_of(&rt, rt.alloc(), CERTIFICATE);
    let fault = match checker.take_all(&mut lines) {
        Ok(()) => Fault::at_line(0, 0),
        Err(fault) => fault,
    };
    let mut octets = [0u8; 1000];
    let mut room = Room::new(&mut octets);
    let answer = put_refused_certificate(
        rt.alloc(),
        &Documents::new(&plan, &traffic),
        &checker.due(),
        Some(&lines.line()),
        &fault,
        &mut room,
    );
    assert!(rt; ends(answer, 0) & (room.octets() == CERTIFICATE_WORDS));
}

#[test]
fn explains_lines_of_texts(rt: HostRuntime) {
    let mut octets = [0u8; 1000];
    let mut room = Room::new(&mut octets);
    let answer = put_text_line(rt.alloc(), b"", 1, 854, &mut room);
    assert!(rt; ends(answer, 0) & (room.octets() == b"the text is empty\n".as_slice()));
}

#[test]
fn explains_packets(rt: HostRuntime) {
    let plan = plan_of(&rt, rt.alloc(), NETWORK);
    let traffic = traffic_of(&rt, rt.alloc(), TRAFFIC, &plan);
    let Some(packet) = packet_in_line(rt.alloc(), PACKET) else {
        return;
    };
    let mut octets = [0u8; 1000];
    let mut room = Room::new(&mut octets);
    let documents = Documents::new(&plan, &traffic);
    let answer = put_refused_packet(rt.alloc(), &documents, 2, &packet, &mut room);
    assert!(rt; ends(answer, 0) & room.octets().starts_with(b"packet 1: source 11.0.0.1,"));
}

#[test]
fn explains_totals(rt: HostRuntime) {
    let plan = plan_of(&rt, rt.alloc(), NETWORK);
    let key = plan.net().report_layout();
    let fault = Fault::at_line(861, 2);
    let mut octets = [0u8; 1000];
    let mut room = Room::new(&mut octets);
    let answer = put_refused_totals(rt.alloc(), Some(key), TOTALS, &fault, &mut room);
    assert!(rt; ends(answer, 0) & (room.octets() == TOTALS_WORDS));
}

#[test]
fn explains_documents(rt: HostRuntime) {
    let mut octets = [0u8; 1000];
    let mut room = Room::new(&mut octets);
    let answer = put_refused_network(rt.alloc(), b"{}", &Fault::bare(103), &mut room);
    assert!(rt; ends(answer, 0) & (room.octets() == DOCUMENT_WORDS));
}

#[test]
fn explains_a_refused_part(rt: HostRuntime) {
    let mut octets = [0u8; 1000];
    let mut room = Room::new(&mut octets);
    let fault = Fault::at_line(407, 3);
    let finding = JoinFinding::Refused {
        part: 2,
        certificate: true,
        fault: &fault,
    };
    let answer = put_join_finding(rt.alloc(), &finding, &mut room);
    let expected = b"part 2: a check refuses its certificate: 407 line 3\n";
    assert!(rt; ends(answer, 0) & (room.octets() == expected.as_slice()));
}

#[test]
fn explains_declarations(rt: HostRuntime) {
    let plan = plan_of(&rt, rt.alloc(), NETWORK);
    let mut octets = [0u8; 1000];
    let mut room = Room::new(&mut octets);
    let answer = put_refused_traffic(
        rt.alloc(),
        b"{}",
        plan.network(),
        &Fault::bare(103),
        &mut room,
    );
    assert!(rt;
        ends(answer, 0) & (room.octets() == b"missing: classes\nit has no members\n".as_slice())
    );
}

#[test]
fn notes_what_is_read_in_silence(rt: HostRuntime) {
    let plan = plan_of(&rt, rt.alloc(), NETWORK);
    let unseen = str::from_utf8(UNSEEN_TRAFFIC).unwrap_or("");
    let traffic = traffic_of(&rt, rt.alloc(), unseen, &plan);
    let mut octets = [0u8; 1000];
    let mut room = Room::new(&mut octets);
    let of_network = put_network_notes(rt.alloc(), NETWORK.as_bytes(), &plan, &mut room);
    let documents = Documents::new(&plan, &traffic);
    let answer = put_traffic_notes(rt.alloc(), UNSEEN_TRAFFIC, &documents, &mut room);
    assert!(rt; ends(of_network, 0) & ends(answer, 0) & (room.octets() == LINT_WORDS));
}
