//! A run of two packets through one meter and one collector, and queries of a network.
use crate::meters::{into, meter};
use crate::parts::{by_source, collector, exporter, holder, process};
use fx_base::{Fault, LineReader, Octets};
use fx_boxes::{Fields, Region};
use fx_elements::Axis;
use fx_machine::{
    State, Tally, choices_are_free, complete_runs_exist, six_axes_suffice,
    unnamed_axes_mean_nothing,
};
use fx_run_text::{Choices, Step, read_packets};
use fx_tables::{
    AggregationEntry, Class, Classes, DeviceEntry, HolderName, MatchEntry, Net, Packet, Path,
    Process,
};
use std::alloc::Global;
use std::process::Abort;

/// The meter's cache.
const CACHE: HolderName = HolderName::Cache {
    device: 1,
    cache: 1,
};

/// Returns a network in which the meter's cache exports to the collector, which tallies.
fn net(rt: &impl Abort, alloc: Global) -> Net {
    let layout = by_source(rt, 32);
    let meter = meter(rt, alloc, Region::whole(), 0, true);
    Net::new(
        vec![in alloc; meter, collector(rt, alloc)].expect(rt, "memory"),
        vec![in alloc; exporter(rt, alloc, 0)].expect(rt, "memory"),
        vec![in alloc; holder(rt, alloc, &layout, 0)].expect(rt, "memory"),
        vec![in alloc; process(alloc)].expect(rt, "memory"),
        vec![in alloc; 0].expect(rt, "memory"),
        0,
        layout,
    )
}

/// Returns one class with these paths, which may be exempt.
fn one_class(rt: &impl Abort, alloc: Global, paths: Vec<Path>, exempt: bool) -> Classes {
    let class = Class::new(Region::whole(), paths, exempt);
    Classes::new(vec![in alloc; class].expect(rt, "memory"))
}

/// Returns one class, whose packets enter the meter.
fn classes(rt: &impl Abort, alloc: Global) -> Classes {
    let path = Path::new(vec![in alloc; into(rt, alloc, 1)].expect(rt, "memory"));
    one_class(rt, alloc, vec![in alloc; path].expect(rt, "memory"), false)
}

/// Returns the fields of packets from 10.0.0.1 to 192.0.2.1.
fn fields() -> Fields {
    Fields::of([0x0a00_0001, 0xc000_0201, 6, 1000, 80, 0, 4, 0, 0])
}

/// Returns a packet from 10.0.0.1 to 192.0.2.1.
fn packet(octets: u64, class: u64) -> Packet {
    Packet {
        fields: fields(),
        octets,
        class,
        path: 1,
    }
}

/// Returns a step at which a packet crosses into the meter.
fn cross(rt: &impl Abort, alloc: Global, packet: u64, chosen: Option<u64>) -> Step {
    Step::Cross {
        packet,
        crossing: 1,
        choices: Choices::new(vec![in alloc; chosen].expect(rt, "memory")),
    }
}

/// Returns a step at which a record leaves the meter's cache.
fn expire(alloc: Global) -> Step {
    Step::Expire {
        holder: CACHE,
        position: 1,
        choices: Choices::new(Vec::new(alloc)),
    }
}

/// Returns a step at which a record arrives at the collector.
fn arrive(alloc: Global) -> Step {
    Step::Arrive {
        link: 1,
        position: 1,
        choices: Choices::new(Vec::new(alloc)),
    }
}

/// Returns the steps of a run of two packets.
fn steps(rt: &impl Abort, alloc: Global) -> Vec<Step> {
    vec![in alloc;
        cross(rt, alloc, 1, None),
        cross(rt, alloc, 2, Some(1)),
        expire(alloc),
        arrive(alloc),
    ]
    .expect(rt, "memory")
}

/// Returns the number of a fault, or 0.
fn number(answer: Result<(), Fault>) -> u16 {
    match answer {
        Ok(()) => 0,
        Err(fault) => fault.number,
    }
}

/// Returns the number of the fault with which a state would refuse a step, or 0.
fn foreseen(state: &State<'_>, step: &Step) -> u16 {
    match state.effects(step) {
        Ok(_) => 0,
        Err(fault) => fault.number,
    }
}

/// Makes each step of a run. Returns whether it wasn't complete before any, none can be made twice, and each refusal
/// was predicted.
fn are_made(state: &mut State<'_>, steps: &[Step]) -> bool {
    let mut made = true;
    for step in steps {
        let complete = state.complete();
        let is_foreseen = foreseen(state, step) == 0 && state.acts(step).is_ok();
        let first = number(state.step(step));
        let refusal = foreseen(state, step);
        let again = number(state.step(step));
        made = made
            && !complete
            && is_foreseen
            && first == 0
            && again == refusal
            && matches!(again, 851..=853);
    }
    made
}

/// Returns the numbers of records in the first cache and on the first link, and how many of two crossings remain.
fn counts(state: &State<'_>) -> [u64; 3] {
    let to_come = u64::from(state.is_to_come(1, 1)) + u64::from(state.is_to_come(2, 1));
    [state.records_held(0), state.records_on(0), to_come]
}

/// Returns whether there is a record at the first position of the first cache, and of the first link.
fn first_records(state: &State<'_>) -> [bool; 2] {
    [
        state.record_held(0, 1).is_some(),
        state.record_on(0, 1).is_some(),
    ]
}

/// Returns the number of links on which a step sends a record, the position of the record that the first accepted
/// record joins, and whether the record is counted.
fn effects_of(state: &State<'_>, step: &Step) -> (usize, Option<u64>, Tally) {
    match state.effects(step) {
        Ok(effects) => {
            let joined = match effects.taken() {
                [first, ..] => first.joined,
                [] => None,
            };
            (effects.links().len(), joined, effects.tally())
        }
        Err(_) => (usize::MAX, None, Tally::Untallied),
    }
}

/// Returns whether a state reports what it holds and what each step of a run does.
fn is_queried(net: &Net, classes: &Classes, rt: &impl Abort, alloc: Global) -> bool {
    let packets = vec![in alloc; packet(1, 1); 2].expect(rt, "memory");
    let mut state = State::open(alloc, net, classes, packets).expect(rt, "a run");
    let all = steps(rt, alloc);
    let [first, second, third, last] = all.as_slice() else {
        return false;
    };
    let mut reported = state.packets().len() == 2
        && state.classes().as_slice().len() == 1
        && counts(&state) == [0, 0, 2]
        && effects_of(&state, first) == (0, None, Tally::Untallied);
    reported = reported
        && number(state.step(first)) == 0
        && counts(&state) == [1, 0, 1]
        && effects_of(&state, second) == (0, Some(1), Tally::Untallied);
    reported = reported
        && number(state.step(second)) == 0
        && first_records(&state) == [true, false]
        && effects_of(&state, third) == (1, None, Tally::Untallied);
    reported
        && number(state.step(third)) == 0
        && counts(&state) == [0, 1, 0]
        && first_records(&state) == [false, true]
        && effects_of(&state, last) == (0, None, Tally::Counted)
}

/// Returns whether the complete run has counted both packets in one total.
fn is_counted(state: &State<'_>) -> bool {
    let [total] = state.totals() else {
        return false;
    };
    state.complete()
        && state.unassigned() == 0
        && total.counts.packets == 2
        && total.counts.octets == 18_446_744_073_709_551_615
        && total.layout().parts().len() == 1
        && total.key.values() == [0x0a00_0001u128].as_slice()
}

/// Returns whether a run of two packets can be made in its steps, and counts them.
fn is_run(net: &Net, classes: &Classes, rt: &impl Abort, alloc: Global) -> bool {
    let packets = vec![in alloc; packet(18_446_744_073_709_551_614, 1), packet(1, 1)];
    let packets = packets.expect(rt, "memory");
    let mut state = State::open(alloc, net, classes, packets).expect(rt, "a run");
    are_made(&mut state, steps(rt, alloc).as_slice()) && is_counted(&state)
}

/// The same two packets, as the text of a run without steps.
const PACKETS: &[u8] = b"once-run 1\n\
packet 1 1 10.0.0.1 192.0.2.1 6 1000 80 0 18446744073709551614\n\
packet 1 1 10.0.0.1 192.0.2.1 6 1000 80 0 1\n\
end\n";

/// Returns whether the run can be made with packets that were read, and therefore are of their classes.
fn is_run_as_read(net: &Net, classes: &Classes, rt: &impl Abort, alloc: Global) -> bool {
    let mut lines = LineReader::new(alloc, Octets::new(PACKETS)).expect(rt, "memory");
    let run = read_packets(alloc, classes, &mut lines).expect(rt, "packets");
    let opened = State::open_classed(alloc, net, classes, run.packets);
    let mut state = opened.expect(rt, "memory");
    are_made(&mut state, steps(rt, alloc).as_slice()) && is_counted(&state)
}

/// Returns the number of the fault with which a run isn't opened, or 0.
fn unopened(opened: Result<State<'_>, Fault>) -> u16 {
    match opened {
        Ok(_) => 0,
        Err(fault) => fault.number,
    }
}

/// Returns whether a run of one packet is refused because its class doesn't exist.
fn is_unopened(net: &Net, classes: &Classes, rt: &impl Abort, alloc: Global) -> bool {
    let packets = vec![in alloc; packet(1, 2)].expect(rt, "memory");
    unopened(State::open(alloc, net, classes, packets)) == 856
}

/// Returns whether the network has what it was made of.
fn is_looked_up(net: &Net) -> bool {
    let nowhere = HolderName::Aggregation {
        device: 2,
        process: 1,
        aggregation: 1,
    };
    net.holder_place(CACHE) == Some(0)
        && net.holder_place(nowhere).is_none()
        && net.devices().len() == 2
        && net.exporters().len() + net.holders().len() + net.processes().len() == 3
        && net.links() == [net.report()].as_slice()
        && net.layout_at(0).parts().len() + net.named_by(0).len() == 2
}

/// Returns whether the class's one crossing is observed at the one point, which selects into the first cache.
fn is_watched(net: &Net, classes: &Classes) -> bool {
    let ([point], [class]) = (net.points_of(1), classes.as_slice()) else {
        return false;
    };
    let ([selection], [path]) = (point.selections(), class.paths()) else {
        return false;
    };
    let [crossing] = path.as_slice() else {
        return false;
    };
    selection.holder == Some(0) && point.watches(crossing) && net.points_of(2).is_empty()
}

/// Returns whether a packet of the class makes its one crossing, and one of no class makes none.
fn is_followed(classes: &Classes) -> bool {
    let (followed, lost) = (packet(1, 1), packet(1, 2));
    (classes.path_of(&followed).len() == 1)
        & classes.path_of(&lost).is_empty()
        & classes.contains(&followed)
        & !classes.contains(&lost)
}

/// Returns whether the packets of an exempt class are exempt, and no others.
fn is_exempt(classes: &Classes, exempt: &Classes) -> bool {
    let (of_class, of_none) = (packet(1, 1), packet(1, 2));
    exempt.exempts(&of_class) & !exempt.exempts(&of_none) & !classes.exempts(&of_class)
}

#[test]
fn the_laws_of_runs() {
    choices_are_free();
    complete_runs_exist();
    unnamed_axes_mean_nothing();
    six_axes_suffice();
}

#[test]
fn looks_up_and_runs_and_refuses_packets_of_no_class(rt: HostRuntime) {
    let classes = classes(&rt, rt.alloc());
    let exempt = one_class(&rt, rt.alloc(), Vec::new(rt.alloc()), true);
    let net = net(&rt, rt.alloc());
    assert!(rt;
        is_looked_up(&net)
            & is_watched(&net, &classes)
            & is_followed(&classes)
            & is_exempt(&classes, &exempt)
            & is_unopened(&net, &classes, &rt, rt.alloc())
            & is_run(&net, &classes, &rt, rt.alloc())
            & is_queried(&net, &classes, &rt, rt.alloc())
            & is_run_as_read(&net, &classes, &rt, rt.alloc())
    );
}

/// Returns whether a packet of the class is metered only by the meter's cache, each time, under its source.
fn is_met(net: &Net, classes: &Classes, rt: &impl Abort, alloc: Global) -> bool {
    let packet = packet(1, 1);
    let ([class], [crossing]) = (classes.as_slice(), classes.path_of(&packet)) else {
        return false;
    };
    let mut met = net
        .occurrences(alloc, crossing, &packet.fields)
        .expect(rt, "memory");
    net.push_occurrences(&mut met, crossing, &packet.fields)
        .expect(rt, "memory");
    let holdings = net
        .holdings(alloc, met.as_slice(), &packet.fields)
        .expect(rt, "memory");
    let [occurrence, again] = met.as_slice() else {
        return false;
    };
    let holding = net.holding(occurrence, &packet.fields);
    (*occurrence == *again)
        & class.holds(&packet.fields)
        & (holding.holder == 0)
        & (holdings.len() == 2)
        & (holding.key.values() == [0x0a00_0001u128].as_slice())
}

/// Returns a process with one aggregation, of the records from 10.0.0.0/8.
fn aggregating(rt: &impl Abort, alloc: Global) -> Process {
    let entry = MatchEntry {
        axis: Axis::Source,
        bits: 8,
        value: 10,
    };
    let aggregation = AggregationEntry::new(0, vec![in alloc; entry].expect(rt, "memory"));
    Process::new(
        Vec::new(alloc),
        vec![in alloc; aggregation].expect(rt, "memory"),
    )
}

/// Returns how many aggregations of a process accept a record from this source.
fn takers(net: &Net, rt: &impl Abort, alloc: Global, source: u32) -> usize {
    let process = aggregating(rt, alloc);
    let fields = Fields::of([u128::from(source), 0, 0, 0, 0, 0, 4, 0, 0]);
    let key = by_source(rt, 32).key_of(&fields);
    net.takers(alloc, &process, &key).expect(rt, "memory").len()
}

#[test]
fn meters_and_aggregates_what_is_theirs(rt: HostRuntime) {
    let classes = classes(&rt, rt.alloc());
    let net = net(&rt, rt.alloc());
    assert!(rt;
        is_met(&net, &classes, &rt, rt.alloc())
            & (takers(&net, &rt, rt.alloc(), 0x0aff_ffff) == 1)
            & (takers(&net, &rt, rt.alloc(), 0x0b00_0000) == 0)
    );
}
