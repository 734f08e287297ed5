//! Texts of runs that are read, or refused at a line.
use crate::answers::{ends, is_refused};
use crate::meters::sources;
use fx_base::{Fault, LineReader, Octets, Room, Sink};
use fx_run_text::{
    Run, RunBeginning, RunLine, Step, TextVersion, put_packet_line, put_step_line, read_next_step,
    read_packets, read_run, read_run_line, run_lines_have_one_text, run_texts,
};
use fx_tables::{Class, Classes, HolderName, Packet, Path};
use std::alloc::{AllocError, Global};
use std::process::Abort;

/// Returns one class of the packets from 10.0.0.0/8, with one path.
fn web(rt: &impl Abort, alloc: Global) -> Classes {
    let region = sources(rt, 0x0a00_0000, 0x0aff_ffff);
    let paths = vec![in alloc; Path::new(Vec::new(alloc))].expect(rt, "memory");
    Classes::new(vec![in alloc; Class::new(region, paths, false)].expect(rt, "memory"))
}

/// Reads a run from a text.
fn read(alloc: Global, classes: &Classes, text: &[u8]) -> Result<Run, Fault> {
    let mut lines = LineReader::new(alloc, Octets::new(text))?;
    read_run(alloc, classes, &mut lines)
}

/// Reads a run of those classes from a text.
fn web_run(rt: &impl Abort, alloc: Global, text: &[u8]) -> Run {
    read(alloc, &web(rt, alloc), text).expect(rt, "a run")
}

fn choices(step: &Step) -> &[Option<u64>] {
    match step {
        Step::Cross { choices, .. } => choices.as_slice(),
        Step::Expire { choices, .. } => choices.as_slice(),
        Step::Arrive { choices, .. } => choices.as_slice(),
    }
}

/// Returns whether a step takes a record out of a holder at this position, with these choices.
fn is_expiry(step: &Step, name: HolderName, at: u64, chosen: &[Option<u64>]) -> bool {
    match step {
        Step::Expire {
            holder,
            position,
            choices,
        } => *holder == name && *position == at && choices.as_slice() == chosen,
        _ => false,
    }
}

const TWO_PACKETS: &[u8] = b"once-run 1\n\
packet 1 1 10.0.0.1 192.0.2.1 6 1000 80 0 18446744073709551614\n\
packet 1 1 10.0.0.1 192.0.2.1 6 1000 80 0 1\n\
cross 1 1 n\n\
cross 2 1 1\n\
expire cache 1 1 1\n\
arrive 1 1\n\
end\n";

/// Returns whether these are the packets of the run.
fn are_the_packets(packets: &[Packet]) -> bool {
    let [first, second] = packets else {
        return false;
    };
    first.octets == 18446744073709551614
        && second.octets == 1
        && first.fields.array() == [0x0a00_0001, 0xc000_0201, 6, 1000, 80, 0, 4, 0, 0]
        && first.class == 1
        && first.path == 1
}

/// Returns whether these are the steps of the run, judged by the choices of each.
fn are_the_steps(steps: &[Step]) -> bool {
    let [cross, join, _, arrive] = steps else {
        return false;
    };
    choices(cross) == [None].as_slice()
        && choices(join) == [Some(1)].as_slice()
        && choices(arrive).is_empty()
}

/// Returns whether a run has these packets and steps.
fn is_the_run(run: Run) -> bool {
    let same = are_the_packets(run.packets()) & are_the_steps(run.steps());
    let (packets, steps) = run.into_parts();
    same & (packets.len() == 2) & (steps.len() == 4)
}

/// An IPv6 packet from 2001:db8::1 to 2001:db8::2, which is of the class too, since the class restricts no version.
const WIDE: &[u8] = b"once-run 2\n\
packet 1 1 10.0.0.0 0.0.0.0 17 53 1000 184 6 2001:db8:0:0:0:0:0:1 2001:db8:0:0:0:0:0:2 56\n\
end\n";

/// Returns whether it is the only packet.
fn is_the_wide_packet(packets: &[Packet]) -> bool {
    let [packet] = packets else {
        return false;
    };
    let network = 0x2001_0db8u128 << 96;
    packet.octets == 56
        && packet.fields.array()
            == [
                0x0a00_0000,
                0,
                17,
                53,
                1000,
                184,
                6,
                network + 1,
                network + 2,
            ]
}

/// Returns whether a run has only the wide packet.
fn is_the_wide_run(run: &Run) -> bool {
    is_the_wide_packet(run.packets()) & run.steps().is_empty()
}

#[test]
fn reads_packets_of_ipv6(rt: HostRuntime) {
    assert!(rt; is_the_wide_run(&web_run(&rt, rt.alloc(), WIDE)));
}

#[test]
fn reads_packets_and_steps(rt: HostRuntime) {
    assert!(rt; is_the_run(web_run(&rt, rt.alloc(), TWO_PACKETS)));
}

/// Returns whether a step is the crossing with this number of a packet.
fn is_crossing(step: &Step, of: u64, number: u64) -> bool {
    match step {
        Step::Cross {
            packet,
            crossing,
            ..
        } => *packet == of && *crossing == number,
        _ => false,
    }
}

/// Returns whether a step takes a record off a link at this position, with these choices.
fn is_arrival(step: &Step, from: u64, at: u64, chosen: &[Option<u64>]) -> bool {
    match step {
        Step::Arrive {
            link,
            position,
            choices,
        } => *link == from && *position == at && choices.as_slice() == chosen,
        _ => false,
    }
}

/// Returns whether the steps are one of each form, with numbers in ascending order.
fn are_each_form(steps: &[Step]) -> bool {
    let [cross, from_cache, from_aggregation, arrive] = steps else {
        return false;
    };
    let cache = HolderName::Cache {
        device: 3,
        cache: 4,
    };
    let aggregation = HolderName::Aggregation {
        device: 7,
        process: 8,
        aggregation: 9,
    };
    is_crossing(cross, 0, 2)
        && is_expiry(from_cache, cache, 5, &[None, Some(6)])
        && is_expiry(from_aggregation, aggregation, 10, &[None])
        && is_arrival(arrive, 11, 12, &[Some(13)])
}

#[test]
fn reads_each_form_of_step(rt: HostRuntime) {
    let text =
        b"once-run 1\ncross 0 2\nexpire cache 3 4 5 n 6\nexpire aggregation 7 8 9 10 n\narrive 11 12 13\nend\n";
    assert!(rt; are_each_form(web_run(&rt, rt.alloc(), text).steps()));
}

/// Returns whether this is the beginning of the run of two packets: its packets and its first step, at line 4.
fn is_the_beginning(beginning: &RunBeginning, line: u64) -> bool {
    let first_is = match beginning.first.as_ref() {
        Some(step) => is_crossing(step, 1, 1) && choices(step) == [None].as_slice(),
        None => false,
    };
    (beginning.version == TextVersion::One)
        & are_the_packets(beginning.packets.as_slice())
        & first_is
        & (line == 4)
}

/// Returns how many steps are read after the first until the run's end, and the line of that end.
fn steps_behind(
    alloc: Global,
    version: TextVersion,
    lines: &mut LineReader<Octets<'_>>,
) -> Result<(u64, u64), Fault> {
    let mut count: u64 = 0;
    for _ in 0..9u64 {
        let Some(_step) = read_next_step(alloc, version, lines)? else {
            break;
        };
        count = count.saturating_add(1);
    }
    Ok((count, lines.number()))
}

#[test]
fn reads_packets_and_then_each_step(rt: HostRuntime) {
    let classes = web(&rt, rt.alloc());
    let mut lines = LineReader::new(rt.alloc(), Octets::new(TWO_PACKETS)).expect(&rt, "memory");
    let beginning = read_packets(rt.alloc(), &classes, &mut lines).expect(&rt, "a beginning");
    let at = lines.number();
    let behind = steps_behind(rt.alloc(), beginning.version, &mut lines).expect(&rt, "steps");
    assert!(rt; is_the_beginning(&beginning, at) & (behind == (3, 8)));
}

/// Reads a text's packets and steps one by one, and fails if one is refused.
fn one_by_one(alloc: Global, classes: &Classes, text: &[u8]) -> Result<(), Fault> {
    let mut lines = LineReader::new(alloc, Octets::new(text))?;
    let beginning = read_packets(alloc, classes, &mut lines)?;
    if beginning.first.is_some() {
        let _behind = steps_behind(alloc, beginning.version, &mut lines)?;
    }
    Ok(())
}

/// Returns whether a line that was read is the end of a run, if it is a line.
fn is_end(line: Result<Option<RunLine>, AllocError>) -> Option<bool> {
    match line {
        Ok(line) => Some(matches!(line?, RunLine::End)),
        Err(_) => Some(false),
    }
}

#[test]
fn reads_a_line(rt: HostRuntime) {
    run_texts();
    assert!(rt;
        (is_end(read_run_line(rt.alloc(), TextVersion::Two, b"end")) == Some(true))
            & is_end(read_run_line(rt.alloc(), TextVersion::Two, b"end ")).is_none()
    );
}

/// Writes the lines of the first packet and the first step of a run, if there are any. Returns whether there was room
/// and a packet.
fn puts_first<S: Sink>(run: &Run, sink: &mut S) -> bool {
    let is_put = match run.packets().first() {
        Some(packet) => ends(put_packet_line(sink, packet), 0),
        None => false,
    };
    match run.steps().first() {
        Some(step) => is_put & ends(put_step_line(sink, step), 0),
        None => is_put,
    }
}

/// Returns whether the first packet and the first step of a run are written as this text.
fn is_written(run: &Run, text: &[u8]) -> bool {
    let mut octets = [0u8; 256];
    let mut room = Room::new(&mut octets);
    puts_first(run, &mut room) & (room.octets() == text)
}

#[test]
fn writes_lines(rt: HostRuntime) {
    run_lines_have_one_text();
    let text =
        b"packet 1 1 10.0.0.1 192.0.2.1 6 1000 80 0 4 0:0:0:0:0:0:0:0 0:0:0:0:0:0:0:0 18446744073709551614\ncross 1 1 n\n";
    assert!(rt; is_written(&web_run(&rt, rt.alloc(), TWO_PACKETS), text));
}

#[test]
fn writes_packets_of_ipv6(rt: HostRuntime) {
    let text =
        b"packet 1 1 10.0.0.0 0.0.0.0 17 53 1000 184 6 2001:db8:0:0:0:0:0:1 2001:db8:0:0:0:0:0:2 56\n";
    assert!(rt; is_written(&web_run(&rt, rt.alloc(), WIDE), text));
}

/// Texts, the number with which each is refused, and the line.
const REFUSED: [(&[u8], u16, u64); 24] = [
    (b"", 855, 1),
    (b"once-run 3\nend\n", 854, 1),
    (b"once-run 2", 854, 1),
    (
        b"once-run 1\npacket 1 1 10.0.0.1 192.0.2.1 6 1000 80 0 4 0:0:0:0:0:0:0:0 0:0:0:0:0:0:0:0 1\nend\n",
        855,
        2,
    ),
    (
        b"once-run 2\npacket 1 1 10.0.0.1 192.0.2.1 6 1000 80 0 1\nend\n",
        855,
        2,
    ),
    (
        b"once-run 2\npacket 1 1 10.0.0.1 0.0.0.0 6 1000 80 0 6 ::1 0:0:0:0:0:0:0:0 1\nend\n",
        855,
        2,
    ),
    (
        b"once-run 2\npacket 1 1 10.0.0.1 0.0.0.0 6 1000 80 0 6 0:0:0:0:0:0:0:0A 0:0:0:0:0:0:0:0 1\nend\n",
        855,
        2,
    ),
    (
        b"once-run 2\npacket 1 1 10.0.0.1 0.0.0.0 6 1000 80 0 256 0:0:0:0:0:0:0:0 0:0:0:0:0:0:0:0 1\nend\n",
        855,
        2,
    ),
    (b"once-run 1", 854, 1),
    (b"once-run 1\n", 855, 2),
    (b"once-run 1\nend", 855, 2),
    (b"once-run 1\nend\nend\n", 855, 3),
    (
        b"once-run 1\ncross 1 1\npacket 1 1 10.0.0.1 192.0.2.1 6 1000 80 0 1\nend\n",
        855,
        3,
    ),
    (
        b"once-run 1\npacket 0 1 10.0.0.1 192.0.2.1 6 1000 80 0 1\nend\n",
        856,
        2,
    ),
    (
        b"once-run 1\npacket 2 1 10.0.0.1 192.0.2.1 6 1000 80 0 1\nend\n",
        856,
        2,
    ),
    (
        b"once-run 1\npacket 1 2 10.0.0.1 192.0.2.1 6 1000 80 0 1\nend\n",
        856,
        2,
    ),
    (
        b"once-run 1\npacket 1 1 11.0.0.1 192.0.2.1 6 1000 80 0 1\nend\n",
        856,
        2,
    ),
    (
        b"once-run 1\npacket 1 1 10.0.0.1 192.0.2.1 256 1000 80 0 1\nend\n",
        855,
        2,
    ),
    (
        b"once-run 1\npacket 1 1 10.0.0.1 192.0.2.1 6 1000 80 0 1 1\nend\n",
        855,
        2,
    ),
    (b"once-run 1\ncross 01 1\nend\n", 855, 2),
    (b"once-run 1\ncross 1 18446744073709551616\nend\n", 855, 2),
    (b"once-run 1\ncross 1 1 \nend\n", 855, 2),
    (b"once-run 1\nexpire 1 1 1\nend\n", 855, 2),
    (b"once-run 1\ncross 1 1\n\nend\n", 855, 3),
];

#[test]
fn refuses_at_the_line(rt: HostRuntime) {
    let classes = web(&rt, rt.alloc());
    for (text, number, line) in &REFUSED {
        let answer = read(rt.alloc(), &classes, *text);
        assert!(rt;
            is_refused(answer, &Fault::at_line(*number, *line)),
            "{number} at {line}"
        );
        let answer = one_by_one(rt.alloc(), &classes, *text);
        assert!(rt;
            is_refused(answer, &Fault::at_line(*number, *line)),
            "{number} at {line}, step by step"
        );
    }
}

#[test]
fn runs_grow_by_packets_and_steps() {
    fx_runs::runs_go_on();
    fx_runs::steps_are_made();
    fx_runs::puts_are_given();
}
