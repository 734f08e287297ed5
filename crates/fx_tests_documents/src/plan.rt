//! Ranks of collecting processes, their order, and the numbers of layouts.
use crate::documents::fault_reported;
use fx_base::Fault;
use fx_plan::{Plan, documents_name_axes, plans_have_complete_runs, read_plan};
use fx_ranks::rank_order;
use serde_json::Value;
use std::alloc::{AllocError, Global};
use std::process::Abort;

/// Reads a plan.
fn read(rt: &impl Abort, alloc: Global, text: &str) -> Result<Plan, Fault> {
    read_plan(
        alloc,
        &Value::from_str(alloc, text).expect(rt, "a document"),
    )
}

/// Returns the plan of the network that a document describes.
pub(crate) fn plan_of(rt: &impl Abort, alloc: Global, text: &str) -> Plan {
    read(rt, alloc, text).expect(rt, "a plan")
}

/// Returns the order of a plan's ranks as text.
fn ranks_reported(rt: &impl Abort, alloc: Global, plan: Plan) -> String {
    plans_have_complete_runs(&plan);
    format!(in alloc; "{:?}", plan.upwards()).expect(rt, "memory")
}

/// Returns the result of reading a plan: the order of ranks, or the fault's number and place.
fn reported(rt: &impl Abort, alloc: Global, text: &str) -> String {
    match read(rt, alloc, text) {
        Ok(plan) => ranks_reported(rt, alloc, plan),
        Err(fault) => fault_reported(rt, alloc, fault),
    }
}

/// Three devices, each with a collecting process `cp` that forwards what it receives.
const DEVICES: &str = r#"{"devices":[
{"name":"c1","config":{"ietf-ipfix-psamp:ipfix":{"collectingProcess":[{"name":"cp","exportingProcess":["x"]}],
"exportingProcess":[{"name":"x","destination":[{"name":"d","tcpExporter":{}}]}]}}},
{"name":"c2","config":{"ietf-ipfix-psamp:ipfix":{"collectingProcess":[{"name":"cp","exportingProcess":["x"]}],
"exportingProcess":[{"name":"x","destination":[{"name":"d","tcpExporter":{}}]}]}}},
{"name":"c3","config":{"ietf-ipfix-psamp:ipfix":{"collectingProcess":[{"name":"cp","exportingProcess":["x"]}],
"exportingProcess":[{"name":"x","destination":[{"name":"d","tcpExporter":{}}]}]}}}]"#;

/// Returns the network of those devices with links from one to the other, whose report is at the first.
fn linked(alloc: Global, links: &[(&str, &str)]) -> Result<String, AllocError> {
    let mut list = String::new(alloc);
    for (from, to) in links {
        let comma = if list.is_empty() { "" } else { "," };
        write!(
            list,
            "{comma}{{\"device\":\"{from}\",\"exportingProcess\":\"x\",\"destination\":\"d\",\
\"toDevice\":\"{to}\",\"toProcess\":\"cp\"}}"
        )?;
    }
    format!(in alloc;
        "{DEVICES},\"links\":[{list}],\
\"report\":{{\"device\":\"c1\",\"collectingProcess\":\"cp\",\"key\":[]}}}}"
    )
}

/// Links, and the order of ranks, or the cycle.
const LINKS: [(&[(&str, &str)], &str); 3] = [
    (&[("c2", "c1"), ("c3", "c2")], "[2, 1, 0]"),
    (
        &[("c1", "c2"), ("c2", "c3"), ("c3", "c1")],
        "204 1.1 2.1 3.1",
    ),
    (&[("c2", "c2")], "204 2.1"),
];

#[test]
fn ranks_feeders_first_and_refuses_cycles(rt: HostRuntime) {
    documents_name_axes();
    for (links, wanted) in &LINKS {
        let text = linked(rt.alloc(), *links).expect(&rt, "memory");
        assert!(rt; reported(&rt, rt.alloc(), text.as_str()).as_str() == *wanted);
    }
}

/// Returns whether the order of ranks computed from the plan's tables is the plan's, and its report has a layout.
fn is_ordered(plan: &Plan, rt: &impl Abort, alloc: Global) -> bool {
    let found = rank_order(alloc, plan.net()).expect(rt, "memory");
    (found.order.as_slice() == plan.upwards()) & plan.network().report.layout().is_some()
}

/// Returns the index of an exporting process.
fn exporter_place(plan: &Plan, rt: &impl Abort, alloc: Global, device: u64) -> Option<usize> {
    plan.exporter_place(alloc, device, 1).expect(rt, "memory")
}

#[test]
fn orders_by_falling_rank(rt: HostRuntime) {
    let text = linked(rt.alloc(), &[("c2", "c1")]).expect(&rt, "memory");
    let plan = plan_of(&rt, rt.alloc(), text.as_str());
    assert!(rt;
        (plan.rank(0) == Some(1))
            & (plan.downwards() == [2, 0, 1].as_slice())
            & (exporter_place(&plan, &rt, rt.alloc(), 3) == Some(2))
            & exporter_place(&plan, &rt, rt.alloc(), 4).is_none()
            & is_ordered(&plan, &rt, rt.alloc())
    );
}

/// Returns a network of this many aggregations, each with its own layout, and the report with the empty layout.
fn aggregations(alloc: Global, count: u32) -> Result<String, AllocError> {
    let mut list = String::new(alloc);
    for n in 0..count {
        let comma = if n == 0 { "" } else { "," };
        let element = if n < 32 { 44 } else { 45 };
        let bits = n % 32 + 1;
        write!(
            list,
            "{comma}{{\"name\":\"a{n}\",\"key\":[{{\"ieId\":{element},\"prefixLength\":{bits}}}]}}"
        )?;
    }
    format!(in alloc;
        "{{\"devices\":[{{\"name\":\"c1\",\"config\":{{\"ietf-ipfix-psamp:ipfix\":{{\
\"collectingProcess\":[{{\"name\":\"cp\",\"once-audit:aggregation\":[{list}]}}]}}}}}}],\"links\":[],\
\"report\":{{\"device\":\"c1\",\"collectingProcess\":\"cp\",\"key\":[]}}}}"
    )
}

#[test]
fn refuses_too_many_layouts(rt: HostRuntime) {
    let text = aggregations(rt.alloc(), 64).expect(&rt, "memory");
    assert!(rt; reported(&rt, rt.alloc(), text.as_str()).as_str() == "207 ");
}

/// Returns the plan of this many aggregations.
fn plan_of_aggregations(rt: &impl Abort, alloc: Global, count: u32) -> Plan {
    plan_of(
        rt,
        alloc,
        aggregations(alloc, count).expect(rt, "memory").as_str(),
    )
}

#[test]
fn numbers_layouts(rt: HostRuntime) {
    let many = plan_of_aggregations(&rt, rt.alloc(), 63);
    let two = plan_of_aggregations(&rt, rt.alloc(), 2);
    assert!(rt; (many.layouts().len() == 64) & (two.layout_numbers() == [0, 1].as_slice()));
}
