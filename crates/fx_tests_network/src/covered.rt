//! Parts of a network of two meters that send to one report by different collecting processes.
use crate::meters::{into, meter};
use crate::parts::{by_source, exporter, holder, process};
use fx_boxes::Region;
use fx_parts::{Join, classes_alike, is_network, is_part, meters_the_same};
use fx_tables::{Class, Classes, Crossing, DeviceEntry, Net, Path, Process};
use std::alloc::Global;
use std::process::Abort;

/// Returns a device that meters nothing.
fn plain(alloc: Global) -> DeviceEntry {
    DeviceEntry::new(Vec::new(alloc), Vec::new(alloc), Vec::new(alloc))
}

/// Returns a collecting process that forwards records by the exporting process at this index.
fn sends(rt: &impl Abort, alloc: Global, exporter: usize) -> Process {
    let exporters = vec![in alloc; exporter].expect(rt, "memory");
    Process::new(exporters, Vec::new(alloc))
}

/// Returns a network in which meter 1 exports to process 0, which forwards to process `next`, and meter 3 to the
/// report, process 1.
fn whole(rt: &impl Abort, alloc: Global, next: usize) -> Net {
    let layout = by_source(rt, 32);
    let first = meter(rt, alloc, Region::whole(), 0, true);
    let third = meter(rt, alloc, Region::whole(), 1, true);
    let exporters = [
        exporter(rt, alloc, 0),
        exporter(rt, alloc, 1),
        exporter(rt, alloc, 2),
    ];
    Net::new(
        vec![in alloc; first, plain(alloc), third].expect(rt, "memory"),
        Vec::from_array(alloc, exporters).expect(rt, "memory"),
        vec![in alloc;
            holder(rt, alloc, &layout, 0),
            holder(rt, alloc, &layout, 1),
        ]
        .expect(rt, "memory"),
        vec![in alloc; sends(rt, alloc, 2), process(alloc)].expect(rt, "memory"),
        vec![in alloc; 0, 1, next].expect(rt, "memory"),
        1,
        layout,
    )
}

/// Returns the part with the third device's meter, whose records have this many bits of the source, and the report.
fn part(rt: &impl Abort, alloc: Global, bits: u32) -> Net {
    let layout = by_source(rt, bits);
    let meter = meter(rt, alloc, Region::whole(), 0, true);
    Net::new(
        vec![in alloc; meter].expect(rt, "memory"),
        vec![in alloc; exporter(rt, alloc, 0)].expect(rt, "memory"),
        vec![in alloc; holder(rt, alloc, &layout, 0)].expect(rt, "memory"),
        vec![in alloc; process(alloc)].expect(rt, "memory"),
        vec![in alloc; 0].expect(rt, "memory"),
        0,
        by_source(rt, 32),
    )
}

/// Returns a class of all packets whose one path enters this device.
fn class_into(rt: &impl Abort, alloc: Global, device: u64, exempt: bool) -> Class {
    let path = Path::new(vec![in alloc; into(rt, alloc, device)].expect(rt, "memory"));
    let paths = vec![in alloc; path].expect(rt, "memory");
    Class::new(Region::whole(), paths, exempt)
}

#[test]
fn parts_are_compared(rt: HostRuntime) {
    let alloc = rt.alloc();
    let whole = whole(&rt, alloc, 1);
    assert!(rt;
        is_part(&part(&rt, alloc, 32), &whole, &[1])
            & !is_part(&part(&rt, alloc, 32), &whole, &[0])
            & !is_part(&part(&rt, alloc, 32), &whole, &[])
    );
}

/// Returns whether a class of the part with a path into its meter covers a class of the whole with a path into this
/// device.
fn covers(rt: &impl Abort, alloc: Global, device: u64, exempt: bool) -> bool {
    let whole = whole(rt, alloc, 1);
    let part = part(rt, alloc, 32);
    let inside = class_into(rt, alloc, 1, exempt);
    let class = class_into(rt, alloc, device, false);
    classes_alike(alloc, &part, &whole, &[1], &inside, &class).expect(rt, "memory")
}

#[test]
fn classes_are_compared(rt: HostRuntime) {
    let alloc = rt.alloc();
    assert!(rt;
        covers(&rt, alloc, 3, false)
            & !covers(&rt, alloc, 3, true)
            & !covers(&rt, alloc, 1, false)
            & !covers(&rt, alloc, 2, false)
    );
}

/// Returns whether a path into the meter of the part, whose records have this many bits of the source, is metered in
/// the same way as these crossings of the whole.
fn is_metered_alike(rt: &impl Abort, alloc: Global, bits: u32, outer: &[Crossing]) -> bool {
    let whole = whole(rt, alloc, 1);
    let part = part(rt, alloc, bits);
    let inner = [into(rt, alloc, 1)];
    meters_the_same(alloc, &part, &whole, &[1], &inner, outer).expect(rt, "memory")
}

#[test]
fn paths_are_compared(rt: HostRuntime) {
    let alloc = rt.alloc();
    let past_a_plain_device = [into(&rt, alloc, 2), into(&rt, alloc, 3)];
    let past_another_meter = [into(&rt, alloc, 1), into(&rt, alloc, 3)];
    assert!(rt;
        is_metered_alike(&rt, alloc, 32, &past_a_plain_device)
            & !is_metered_alike(&rt, alloc, 24, &past_a_plain_device)
            & !is_metered_alike(&rt, alloc, 32, &past_another_meter)
    );
}

#[test]
fn cycles_are_no_network(rt: HostRuntime) {
    let alloc = rt.alloc();
    let forward = is_network(alloc, &whole(&rt, alloc, 1)).expect(&rt, "memory");
    let in_a_cycle = is_network(alloc, &whole(&rt, alloc, 0)).expect(&rt, "memory");
    assert!(rt; forward & !in_a_cycle);
}

/// Returns the 0-based index of the first class that is not covered before any part is joined, or `None` if the tables,
/// in which process 0 forwards to process `next`, are those of no network.
fn uncovered(
    rt: &impl Abort,
    alloc: Global,
    next: usize,
    classes: Classes,
) -> Option<Option<usize>> {
    let whole = whole(rt, alloc, next);
    let join = Join::new(alloc, &whole, &classes).expect(rt, "memory")?;
    Some(join.first_uncovered())
}

fn one(rt: &impl Abort, alloc: Global) -> Classes {
    Classes::new(vec![in alloc; class_into(rt, alloc, 3, false)].expect(rt, "memory"))
}

#[test]
fn no_part_covers_a_class(rt: HostRuntime) {
    let alloc = rt.alloc();
    assert!(rt; uncovered(&rt, alloc, 1, one(&rt, alloc)) == Some(Some(0)));
    assert!(rt; uncovered(&rt, alloc, 0, one(&rt, alloc)).is_none());
    assert!(rt; uncovered(&rt, alloc, 1, Classes::new(Vec::new(alloc))) == Some(None));
}
