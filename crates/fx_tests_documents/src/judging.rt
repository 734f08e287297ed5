//! The leaf of a certificate, judged with the tables of a plan.
use crate::audit_texts::{NETWORK, TRAFFIC};
use crate::check::traffic_of;
use crate::plan::plan_of;
use fx_check::tables_of;
use fx_leaf::{Counted, Scratch, fate};
use fx_plan::Plan;
use fx_traffic::Traffic;
use std::alloc::Global;
use std::process::Abort;

/// Returns the leaf that is sound for all packets of the first class on its first path.
fn first_leaf(rt: &impl Abort, alloc: Global, plan: &Plan, traffic: &Traffic) -> Option<Counted> {
    let tables = tables_of(plan);
    let mut scratch = Scratch::new(alloc, &tables).expect(rt, "memory");
    let targets = traffic.targets(alloc).expect(rt, "memory");
    let target = targets.as_slice().first()?;
    fate(&mut scratch, &tables, target.crossings, &target.region).ok()
}

#[test]
fn judges_a_leaf_over_a_plan(rt: HostRuntime) {
    let plan = plan_of(&rt, rt.alloc(), NETWORK);
    let traffic = traffic_of(&rt, rt.alloc(), TRAFFIC, &plan);
    let wanted = Counted {
        crossing: 1,
        point: 1,
        process: 1,
    };
    assert!(rt; first_leaf(&rt, rt.alloc(), &plan, &traffic) == Some(wanted));
}
