//! Declarations of traffic, and the classes that they describe.
use crate::documents;
use fx_boxes::{Fields, Region};
use fx_elements::{AXES, TOPS};
use fx_tables::{Class, Path};
use fx_traffic::{Target, Traffic};
use std::alloc::Global;
use std::process::Abort;

/// Reads the traffic that a text declares.
fn traffic_of(rt: &impl Abort, alloc: Global, text: &str) -> Traffic {
    documents::traffic_of(rt, alloc, text).expect(rt, "traffic")
}

/// Returns the only class of the traffic.
fn only_class(traffic: &Traffic) -> Option<&Class> {
    match traffic.classes().as_slice() {
        [class] => Some(class),
        _ => None,
    }
}

/// The packets with the first and the last source of 10.0.0.0/8, and those before and after them.
const FIRST: [u128; AXES] = [0x0a00_0000, 0, 0, 0, 0, 0, 0, 0, 0];

const LAST: [u128; AXES] = [
    0x0aff_ffff,
    0xffff_ffff,
    0xff,
    0xffff,
    0xffff,
    0xff,
    0xff,
    u128::MAX,
    u128::MAX,
];

const BEFORE: [u128; AXES] = [0x09ff_ffff, 0, 0, 0, 0, 0, 0, 0, 0];

const BEHIND: [u128; AXES] = [0x0b00_0000, 0, 0, 0, 0, 0, 0, 0, 0];

/// Returns whether the region has the sources of 10.0.0.0/8.
fn is_of_ten(region: &Region) -> bool {
    region.holds(&Fields::of(FIRST))
        & region.holds(&Fields::of(LAST))
        & !region.holds(&Fields::of(BEFORE))
        & !region.holds(&Fields::of(BEHIND))
}

/// Returns whether there is only one path, which is one crossing, into `eth0` of the second device.
fn enter_eth0(paths: &[Path]) -> bool {
    let [path] = paths else {
        return false;
    };
    match path.as_slice() {
        [crossing] => {
            crossing.device == 2 && crossing.interface.as_str() == "eth0" && crossing.inwards
        }
        _ => false,
    }
}

/// Returns whether the only class has those sources and that path.
fn is_web(class: Option<&Class>) -> bool {
    match class {
        Some(class) => is_of_ten(&class.region()) & enter_eth0(class.paths()),
        None => false,
    }
}

#[test]
fn reads_a_class(rt: HostRuntime) {
    let text = r#"{"classes":[{"name":"web","region":{"sourceIPv4Address":"10.0.0.0/8"},
        "paths":[[{"device":"m1","interface":"eth0","direction":"ingress"}]]}]}"#;
    assert!(rt; is_web(only_class(&traffic_of(&rt, rt.alloc(), text))));
}

/// Returns whether there is only one path, which has no crossings.
fn cross_nothing(paths: &[Path]) -> bool {
    match paths {
        [path] => path.as_slice().is_empty(),
        _ => false,
    }
}

/// Returns whether the only class contains the last packet and has one path, of no crossings.
fn is_whole(class: Option<&Class>) -> bool {
    match class {
        Some(class) => {
            class.region().holds(&Fields::of(TOPS)) & cross_nothing(class.paths()) & !class.exempt()
        }
        None => false,
    }
}

#[test]
fn reads_what_may_be_left_out(rt: HostRuntime) {
    let none = traffic_of(&rt, rt.alloc(), r#"{"classes":[]}"#);
    let whole = traffic_of(
        &rt,
        rt.alloc(),
        r#"{"classes":[{"name":"all","paths":[[]]}]}"#,
    );
    assert!(rt; none.classes().as_slice().is_empty() & is_whole(only_class(&whole)));
}

/// A class of ranges.
const SPANS: &str = r#"{"classes":[{"name":"a","region":{"sourceIPv4Address":"10.0.0.1-10.0.0.9",
        "destinationIPv4Address":"192.0.2.1","protocolIdentifier":"6","sourceTransportPort":"1024-65535",
        "destinationTransportPort":"443","ipClassOfService":"0-0","ipVersion":"4",
        "sourceIPv6Address":"2001:DB8::1-2001:db8::192.0.2.1","destinationIPv6Address":"2001:db8::/32"},"paths":[[]]}]}"#;

/// 2001:db8::.
const NETWORK: u128 = 0x2001_0db8 << 96;

/// The least and the greatest fields of its packets.
const LOW: [u128; AXES] = [
    0x0a00_0001,
    0xc000_0201,
    6,
    1024,
    443,
    0,
    4,
    NETWORK + 1,
    NETWORK,
];

const HIGH: [u128; AXES] = [
    0x0a00_0009,
    0xc000_0201,
    6,
    65535,
    443,
    0,
    4,
    NETWORK + 0xc000_0201,
    NETWORK + (u128::MAX >> 32),
];

/// Returns whether the only class is between these corners.
fn is_between(class: Option<&Class>, low: &[u128; AXES], high: &[u128; AXES]) -> bool {
    match class {
        Some(class) => {
            let region = class.region();
            (region.corner().array() == *low) & (region.far_corner().array() == *high)
        }
        None => false,
    }
}

#[test]
fn reads_spans(rt: HostRuntime) {
    assert!(rt; is_between(only_class(&traffic_of(&rt, rt.alloc(), SPANS)), &LOW, &HIGH));
}

/// The numbers of paths' classes, those of the paths in them, and whether their packets are exempt.
const TARGETS: [(u64, u64, bool); 3] = [(1, 1, false), (1, 2, false), (2, 1, true)];

/// Returns whether these are the paths of all classes.
fn are_targets(targets: &[Target<'_>], wanted: &[(u64, u64, bool)]) -> bool {
    let mut all = targets.len() == wanted.len();
    for (target, (class, path, exempt)) in targets.iter().zip(wanted) {
        all &= (target.class == *class) & (target.path == *path) & (target.exempt == *exempt);
    }
    all
}

#[test]
fn lists_the_paths_of_all_classes(rt: HostRuntime) {
    let text =
        r#"{"classes":[{"name":"a","paths":[[],[]]},{"name":"b","paths":[[]],"exempt":true}]}"#;
    let traffic = traffic_of(&rt, rt.alloc(), text);
    let targets = traffic.targets(rt.alloc()).expect(&rt, "memory");
    assert!(rt; are_targets(targets.as_slice(), &TARGETS));
}
