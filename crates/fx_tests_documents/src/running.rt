//! Networks that run.
use crate::answers::{ends, is_refused};
use crate::audit_runs::{CAPTURE, SCHEDULE};
use crate::audit_texts;
use crate::check::traffic_of;
use crate::plan::plan_of;
use fx_base::{Fault, LineReader, Octets};
use fx_conform::{
    calls_are_rows, closing_leaves_nothing, declarations_have_paths, held_can_be_sent,
    holders_are_emptied, links_are_carried, nothing_is_held, plans_are_sound, records_are_kept,
    runs_are_complete, stores_stay_usable, stores_take_in,
};
use fx_link::Nowhere;
use fx_net::{Network, run};
use fx_pcap::Capture;
use fx_plan::Plan;
use fx_traffic::Traffic;
use std::alloc::Global;
use std::process::Abort;

/// Returns a network that is opened over a plan and traffic.
fn opened<'a>(rt: &impl Abort, alloc: Global, plan: &'a Plan, traffic: &'a Traffic) -> Network<'a> {
    Network::open(alloc, audit_texts::seed(), plan, traffic).expect(rt, "memory")
}

/// Returns whether a network has counted nothing.
fn counts_nothing(network: Network<'_>) -> bool {
    (network.totals().len() == 0) & (network.totals().unassigned() == 0)
}

#[test]
fn opens_with_nothing_counted(rt: HostRuntime) {
    let plan = plan_of(&rt, rt.alloc(), audit_texts::NETWORK);
    let traffic = traffic_of(&rt, rt.alloc(), audit_texts::TRAFFIC, &plan);
    assert!(rt; counts_nothing(opened(&rt, rt.alloc(), &plan, &traffic)));
}

/// Executes the single line of a text.
fn obeyed(
    alloc: Global,
    network: &mut Network<'_>,
    capture: &mut Capture<Octets<'_>>,
    text: &[u8],
) -> Result<(), Fault> {
    let mut lines = LineReader::new(alloc, Octets::new(text))?;
    lines.advance()?;
    network.obey(&lines.line(), capture, &mut Nowhere)
}

/// Returns a reader of the capture.
fn captured(rt: &impl Abort, alloc: Global) -> Capture<Octets<'static>> {
    Capture::new(alloc, Octets::new(&CAPTURE)).expect(rt, "a capture")
}

/// Returns whether a network executes a line, refuses another, and repeats that refusal from then on.
fn obeys_and_stops(rt: &impl Abort, alloc: Global, plan: &Plan, traffic: &Traffic) -> bool {
    let mut network = opened(rt, alloc, plan, traffic);
    let mut capture = captured(rt, alloc);
    let fault = Fault::at_line(802, 1);
    ends(obeyed(alloc, &mut network, &mut capture, b"next\n"), 0)
        & is_refused(
            obeyed(alloc, &mut network, &mut capture, b"expire 1 2\n"),
            &fault,
        )
        & is_refused(network.close(&mut capture, &mut Nowhere), &fault)
}

/// Returns the number of keys that are counted after a network was closed over the capture.
fn keys_when_closed(rt: &impl Abort, alloc: Global, plan: &Plan, traffic: &Traffic) -> usize {
    let mut network = opened(rt, alloc, plan, traffic);
    network
        .close(&mut captured(rt, alloc), &mut Nowhere)
        .expect(rt, "a run");
    network.totals().len()
}

/// Returns the number of keys that are counted after a network runs over the capture.
fn keys_of_run(rt: &impl Abort, alloc: Global, plan: &Plan, traffic: &Traffic) -> usize {
    let mut capture = captured(rt, alloc);
    let mut lines = LineReader::new(alloc, Octets::new(SCHEDULE)).expect(rt, "memory");
    let totals = run(
        alloc,
        audit_texts::seed(),
        plan,
        traffic,
        &mut capture,
        &mut lines,
        &mut Nowhere,
    );
    totals.expect(rt, "totals").len()
}

#[test]
fn obeys_closes_and_runs(rt: HostRuntime) {
    let plan = plan_of(&rt, rt.alloc(), audit_texts::NETWORK);
    let traffic = traffic_of(&rt, rt.alloc(), audit_texts::TRAFFIC, &plan);
    plans_are_sound(&plan);
    assert!(rt;
        obeys_and_stops(&rt, rt.alloc(), &plan, &traffic)
            & (keys_when_closed(&rt, rt.alloc(), &plan, &traffic) == 1)
            & (keys_of_run(&rt, rt.alloc(), &plan, &traffic) == 1)
    );
}

#[test]
fn runs_are_runs_of_the_abstract_network() {
    records_are_kept();
    stores_stay_usable();
    holders_are_emptied();
    stores_take_in();
    nothing_is_held();
    links_are_carried();
    held_can_be_sent();
    closing_leaves_nothing();
    declarations_have_paths();
    calls_are_rows();
    runs_are_complete();
}
