//! Explanations of runs and refutations from values that are passed by reference.
use crate::answers::ends;
use crate::audit_texts::{NETWORK, TRAFFIC};
use crate::check::traffic_of;
use crate::explanations::{REFUTATION, REFUTATION_STORY, REPLAY_WORDS, RUN_WORDS};
use crate::plan::plan_of;
use fx_base::{Fault, LineReader, Octets, Room};
use fx_explain_runs::{
    put_refused_replay, put_refused_step, put_refutation_story, put_unconfirmed_refutation,
};
use fx_explanation::Documents;
use fx_machine::State;
use fx_plan::Plan;
use fx_refute::{Refutation, read_refutation};
use fx_traffic::Traffic;
use std::alloc::Global;
use std::process::Abort;

/// A run in which a record leaves a position where there is none.
const REFUSED: &[u8] = b"once-refutation 1
packet 1 1 10.0.0.1 192.0.2.1 6 1000 80 0 100
cross 1 1 n
expire cache 1 1 2
end
";

/// Reads the refutation in a text.
fn refutation(rt: &impl Abort, alloc: Global, text: &[u8]) -> Refutation {
    let mut lines = LineReader::new(alloc, Octets::new(text)).expect(rt, "memory");
    read_refutation(alloc, &mut lines).expect(rt, "a refutation")
}

/// Returns the state after the first step of a refutation.
fn first_state<'a>(
    rt: &impl Abort,
    alloc: Global,
    plan: &'a Plan,
    traffic: &'a Traffic,
    refutation: &Refutation,
) -> State<'a> {
    let packets = vec![in alloc; *refutation.packet()].expect(rt, "memory");
    let opened = State::open(alloc, plan.net(), traffic.classes(), packets);
    let mut state = opened.expect(rt, "a run");
    if let Some(step) = refutation.steps().get(0) {
        state.step(step).expect(rt, "a step");
    }
    state
}

#[test]
fn tells_what_is_left(rt: HostRuntime) {
    let plan = plan_of(&rt, rt.alloc(), NETWORK);
    let traffic = traffic_of(&rt, rt.alloc(), TRAFFIC, &plan);
    let documents = Documents::new(&plan, &traffic);
    let said = refutation(&rt, rt.alloc(), REFUTATION);
    let state = first_state(&rt, rt.alloc(), &plan, &traffic, &said);
    let mut octets = [0u8; 2000];
    let mut room = Room::new(&mut octets);
    let answer = put_refused_replay(rt.alloc(), &documents, &state, &mut room);
    assert!(rt; ends(answer, 0) & (room.octets() == REPLAY_WORDS));
    let mut octets = [0u8; 2000];
    let mut room = Room::new(&mut octets);
    let answer = put_unconfirmed_refutation(rt.alloc(), &documents, &said, 504, &state, &mut room);
    assert!(rt;
        ends(answer, 0)
            & room.octets().starts_with(REFUTATION_STORY)
            & room.octets().ends_with(REPLAY_WORDS)
    );
}

#[test]
fn tells_a_refutation(rt: HostRuntime) {
    let plan = plan_of(&rt, rt.alloc(), NETWORK);
    let traffic = traffic_of(&rt, rt.alloc(), TRAFFIC, &plan);
    let documents = Documents::new(&plan, &traffic);
    let said = refutation(&rt, rt.alloc(), REFUTATION);
    let mut octets = [0u8; 2000];
    let mut room = Room::new(&mut octets);
    let answer = put_refutation_story(rt.alloc(), &documents, &said, &mut room);
    assert!(rt; ends(answer, 0) & (room.octets() == REFUTATION_STORY));
}

#[test]
fn tells_a_refused_step(rt: HostRuntime) {
    let plan = plan_of(&rt, rt.alloc(), NETWORK);
    let traffic = traffic_of(&rt, rt.alloc(), TRAFFIC, &plan);
    let documents = Documents::new(&plan, &traffic);
    let said = refutation(&rt, rt.alloc(), REFUSED);
    let state = first_state(&rt, rt.alloc(), &plan, &traffic, &said);
    let [_, step] = said.steps() else {
        return;
    };
    let mut octets = [0u8; 2000];
    let mut room = Room::new(&mut octets);
    let fault = Fault::bare(853);
    let answer = put_refused_step(
        rt.alloc(),
        &documents,
        &state,
        &[],
        4,
        step,
        &fault,
        &mut room,
    );
    assert!(rt; ends(answer, 0) & (room.octets() == RUN_WORDS));
}
