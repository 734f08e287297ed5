//! The callers, called with a meter at one interface that exports to a collector.
use crate::documents::SiteReader;
use crate::flows::{count_packet, room_for};
use crate::leaves::leaf_of;
use crate::searches::counts_once;
use crate::streams::records_of;
use fx_boxes::Region;
use fx_layout::{Layout, Seed};
use fx_plan::read_plan;
use fx_traffic::read_traffic;
use fx_walk::{DocumentPath, FromValue};
use serde_json::Value;
use std::alloc::Global;
use std::test::Fail;

/// The network.
const NETWORK: &str = r#"{"devices":[{"name":"m1","config":{"ietf-ipfix-psamp:ipfix":{
"observationPoint":[{"name":"op","observationDomainId":0,"ifName":["eth0"],"selectionProcess":["sp"]}],
"selectionProcess":[{"name":"sp","selector":[{"name":"a","selectAll":[null]}],"cache":"ca"}],
"cache":[{"name":"ca","timeoutCache":{"cacheLayout":{"cacheField":[
{"name":"s","ieName":"sourceIPv4Address","isFlowKey":[null]},
{"name":"o","ieId":1},{"name":"p","ieId":2}]}},"exportingProcess":["ex"]}],
"exportingProcess":[{"name":"ex","destination":[{"name":"d","tcpExporter":{}}]}]}}},
{"name":"c1","config":{"ietf-ipfix-psamp:ipfix":{"collectingProcess":[{"name":"cp"}]}}}],
"links":[{"device":"m1","exportingProcess":"ex","destination":"d","toDevice":"c1","toProcess":"cp"}],
"report":{"device":"c1","collectingProcess":"cp","key":[{"ieName":"sourceIPv4Address"}]}}
"#;

/// The traffic: one class, whose packets enter the meter.
const TRAFFIC: &str =
    r#"{"classes":[{"name":"web","region":{"sourceIPv4Address":"10.0.0.0/8"},"paths":[[{"device":"m1","interface":"eth0","direction":"ingress"}]]}]}
"#;

/// Returns whether a site's racks are read.
fn is_read(alloc: Global) -> Result<bool, Fail> {
    let value = Value::from_str(alloc, r#"{"name":"s1","rack":["r1","r2"]}"#)?;
    let site = SiteReader::from_value(alloc, &DocumentPath::Root, &value)?;
    Ok(site.racks.as_slice().len() == 2)
}

/// Returns whether a second packet joins the flow of the first in a store with room for one.
fn is_joined(alloc: Global) -> Result<bool, Fail> {
    let mut store = room_for(alloc, Seed::new(1, 2), 1)?;
    let fields = Region::whole().corner();
    let first = count_packet(&mut store, Layout::new().key_of(&fields), 40)?;
    let second = count_packet(&mut store, Layout::new().key_of(&fields), 60)?;
    Ok(first.is_none() && second.is_none())
}

/// Returns whether the packets of the class are counted at its one crossing, exactly once.
fn is_counted(alloc: Global) -> Result<bool, Fail> {
    let plan = read_plan(alloc, &Value::from_str(alloc, NETWORK)?)?;
    let traffic = read_traffic(alloc, &Value::from_str(alloc, TRAFFIC)?, &plan)?;
    let [class] = traffic.classes().as_slice() else {
        return Ok(false);
    };
    let [path] = class.paths() else {
        return Ok(false);
    };
    let leaf = leaf_of(alloc, &plan, path.as_slice(), &class.region())?;
    Ok(leaf.crossing == 1 && counts_once(alloc, &plan, &traffic)?)
}

#[test]
fn callers_answer(rt: HostRuntime) -> Result<(), Fail> {
    let read = is_read(rt.alloc())? && records_of(rt.alloc(), b"")?.is_empty();
    assert!(rt; read && is_joined(rt.alloc())? && is_counted(rt.alloc())?);
    Ok(())
}
