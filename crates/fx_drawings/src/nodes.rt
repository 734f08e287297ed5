//! The nodes of a drawing.

/// A node: its kind, and up to three numbers that distinguish it from others of its kind. Unused numbers are 0.
#[derive(Clone, Copy, PartialEq, Eq, Drop)]
pub(crate) struct Node {
    pub(crate) kind: &'static str,
    pub(crate) first: u64,
    pub(crate) second: u64,
    pub(crate) third: u64,
}

impl Node {
    /// Returns whether the node is a part of a device, whose number is then its first.
    pub(crate) fn is_of_device(&self) -> bool {
        self.kind != "packets" && self.kind != "outcome"
    }
}

/// Returns the node of a kind with three numbers.
fn named(kind: &'static str, first: u64, second: u64, third: u64) -> Node {
    Node {
        kind,
        first,
        second,
        third,
    }
}

/// Returns the node of an observation point of a device. Here and below, all numbers count from 1 in document order.
pub(crate) fn point(device: u64, number: u64) -> Node {
    named("point", device, number, 0)
}

/// Returns the node of a selection process of a device.
pub(crate) fn selection(device: u64, number: u64) -> Node {
    named("selection", device, number, 0)
}

/// Returns the node of a cache of a device.
pub(crate) fn cache(device: u64, number: u64) -> Node {
    named("cache", device, number, 0)
}

/// Returns the node of an exporting process of a device.
pub(crate) fn exporter(device: u64, number: u64) -> Node {
    named("exporter", device, number, 0)
}

/// Returns the node for records that are lost because their destination has no link.
pub(crate) fn lost(device: u64, exporter: u64, destination: u64) -> Node {
    named("lost", device, exporter, destination)
}

/// Returns the node of a collecting process of a device.
pub(crate) fn collector(device: u64, number: u64) -> Node {
    named("collector", device, number, 0)
}

/// Returns the node of an aggregation of a collecting process of a device.
pub(crate) fn aggregation(device: u64, collector: u64, number: u64) -> Node {
    named("aggregation", device, collector, number)
}

/// Returns the node of the packets of a class that take one of its paths.
pub(crate) fn packets(class: u64, path: u64) -> Node {
    named("packets", class, path, 0)
}

/// Returns the node of the result of a refutation's run.
pub(crate) fn outcome() -> Node {
    named("outcome", 0, 0, 0)
}
