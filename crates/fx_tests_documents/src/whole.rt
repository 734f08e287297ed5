//! Networks and traffic that are read with other limits than those of commands.
use crate::audit_texts::{NETWORK, TRAFFIC};
use crate::documents::is_reported;
use fx_base::Fault;
use fx_plan::{NetworkDocument, Sizes, net_of, read_network_within};
use fx_traffic::read_traffic_within;
use serde_json::Value;
use std::alloc::Global;
use std::process::Abort;

/// The sizes of the network.
const SIZES: Sizes = Sizes {
    devices: 2,
    links: 1,
    processes: 1,
};

/// Sizes, and the result of reading the network with them.
const LIMITS: &[(Sizes, &str)] = &[
    (SIZES, "ok"),
    (
        Sizes {
            devices: 1,
            links: 1,
            processes: 1,
        },
        "115 /devices",
    ),
    (
        Sizes {
            devices: 2,
            links: 0,
            processes: 1,
        },
        "115 /links",
    ),
    (
        Sizes {
            devices: 2,
            links: 1,
            processes: 0,
        },
        "115 /devices",
    ),
];

fn network_within(rt: &impl Abort, alloc: Global, sizes: Sizes) -> Result<NetworkDocument, Fault> {
    let value = Value::from_str(alloc, NETWORK).expect(rt, "a document");
    read_network_within(alloc, &value, sizes)
}

#[test]
fn sizes_limit_a_network(rt: HostRuntime) {
    for (sizes, wanted) in LIMITS {
        let answer = network_within(&rt, rt.alloc(), *sizes).map(|_| ());
        assert!(rt; is_reported(&rt, rt.alloc(), answer, wanted));
    }
}

#[test]
fn a_network_of_any_size_has_its_tables(rt: HostRuntime) {
    let network = network_within(&rt, rt.alloc(), SIZES).expect(&rt, "a network");
    let net = net_of(rt.alloc(), &network).expect(&rt, "memory");
    assert!(rt; net.report() == 0 && net.processes().len() == 1);
}

/// Returns the result of reading the declaration of at most `most` classes.
fn classes_within(rt: &impl Abort, alloc: Global, most: usize) -> Result<usize, Fault> {
    let network = network_within(rt, alloc, SIZES).expect(rt, "a network");
    let value = Value::from_str(alloc, TRAFFIC).expect(rt, "a document");
    let traffic = read_traffic_within(alloc, &value, &network, most)?;
    Ok(traffic.classes().as_slice().len())
}

#[test]
fn the_number_of_classes_is_limited(rt: HostRuntime) {
    assert!(rt; matches!(classes_within(&rt, rt.alloc(), 1), Ok(1)));
    let none = classes_within(&rt, rt.alloc(), 0).map(|_| ());
    assert!(rt; is_reported(&rt, rt.alloc(), none, "305 /classes"));
}
