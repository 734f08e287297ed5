//! Runs that show a wrong total: the records of a meter reach a first collector by two destinations, or by one of two,
//! and from there a second one by two links, where they are tallied.
ghost use Rattle.std.specs.Prelude.{◌≡◌, ◌<◌, All, length, [], ◌∷◌, true, Some, IfSome};
ghost use Rattle.fx_leaf.specs.Tables as by_table;
ghost use Rattle.fx_tables.specs.Runnable.{IsRunnable};

use crate::meters::{into, meter};
use crate::parts::{holder, process};
use fx_boxes::{Fields, Region};
use fx_layout::Layout;
use fx_leaf::Tables;
use fx_run_text::Step;
use fx_steps::{packets_have_runs, wrong_run};
use fx_tables::{Class, Classes, Exporter, Net, Packet, Path, Process};
use std::alloc::Global;
use std::process::Abort;

/// Returns an exporting process with two destinations.
fn to_two(
    rt: &impl Abort,
    alloc: Global,
    parallel: bool,
    one: Option<usize>,
    other: Option<usize>,
) -> Exporter
    ensures { result ≡ record {
      parallel = parallel;
      destinations = one ∷ other
          ∷ [];
    } }
{
    Exporter::new(parallel, vec![in alloc; one, other].expect(rt, "memory"))
}

/// Returns collecting processes of which the first names the second exporting process.
fn processes(rt: &impl Abort, alloc: Global) -> Vec<Process>
    ensures { result.items ≡ record { exporters = 1 ∷ []; aggregations = [] }
        ∷ record { exporters = []; aggregations = [] } ∷ [] }
{
    let first = Process::new(vec![in alloc; 1].expect(rt, "memory"), Vec::new(alloc));
    vec![in alloc; first, process(alloc)].expect(rt, "memory")
}

/// Returns the network with this exporting process of the meter.
fn network(rt: &impl Abort, alloc: Global, first: Exporter) -> Net
    ensures tables { result ≡ record {
      devices = result.devices;
      exporters = first ∷ record { parallel = true; destinations = Some 2 ∷ Some 3 ∷ [] } ∷ [];
      holders = record { layout = []; exporters = 0 ∷ [] } ∷ [];
      processes = record { exporters = 1 ∷ []; aggregations = [] }
          ∷ record { exporters = []; aggregations = [] } ∷ [];
      links = 0 ∷ 0 ∷ 1 ∷ 1 ∷ [];
      report = 1;
      report_layout = [];
    } }
    ensures devices { All (λ d. (d.caches ≡ 0 ∷ [])
        × All (λ p. All (λ s. s.holder ≡ Some 0) p.selections) d.points) result.devices }
    ensures meter { length result.devices ≡ 1 }
{
    let layout = Layout::new();
    let meter = meter(rt, alloc, Region::whole(), 0, false);
    let second = to_two(rt, alloc, true, Some(2), Some(3));
    Net::new(
        vec![in alloc; meter].expect(rt, "memory"),
        vec![in alloc; first, second].expect(rt, "memory"),
        vec![in alloc; holder(rt, alloc, &layout, 0)].expect(rt, "memory"),
        processes(rt, alloc),
        vec![in alloc; 0, 0, 1, 1].expect(rt, "memory"),
        1,
        layout,
    )
}

/// Returns one class of the packets that enter the meter, which may be exempt.
fn classes(rt: &impl Abort, alloc: Global, exempt: bool) -> Classes {
    let path = Path::new(vec![in alloc; into(rt, alloc, 1)].expect(rt, "memory"));
    let paths = vec![in alloc; path].expect(rt, "memory");
    Classes::new(vec![in alloc; Class::new(Region::whole(), paths, exempt)].expect(rt, "memory"))
}

/// Returns the steps of a wrong run of a packet from 10.0.0.1, if there is one.
fn asked(rt: &impl Abort, alloc: Global, net: &Net, exempt: bool) -> Option<Vec<Step>>
    requires tables { by_table.AreTables (record {
      net = net.now;
      order = 1 ∷ 0 ∷ [];
      numbering = record { layouts = [] ∷ []; numbers = 0 ∷ [] };
    }) }
    requires runnable { IsRunnable net.now }
{
    let classes = classes(rt, alloc, exempt);
    let packet = Packet {
        fields: Fields::of([0x0a00_0001, 0, 0, 0, 0, 0, 4, 0, 0]),
        octets: 1,
        class: 1,
        path: 1,
    };
    let layouts = [Layout::new()];
    let tables = Tables::new(net, &[1, 0], &layouts, &[0]);
    wrong_run(alloc, &tables, &classes, &packet).expect(rt, "memory")
}

/// Returns whether a wrong run has this many steps, or there is none for 0, if the meter's exporting process sends to
/// all of these destinations or to one of them.
fn has_steps(
    rt: &impl Abort,
    alloc: Global,
    parallel: bool,
    one: Option<usize>,
    other: Option<usize>,
    exempt: bool,
    count: usize,
) -> bool
    requires one { IfSome one (λ link. link < 4) }
    requires other { IfSome other (λ link. link < 4) }
{
    let first = to_two(rt, alloc, parallel, one, other);
    let net = network(rt, alloc, first);
    match asked(rt, alloc, &net, exempt) {
        Some(steps) => steps.len() == count,
        None => count == 0,
    }
}

#[test]
fn tells_the_shortest_wrong_run(rt: HostRuntime) {
    let alloc = rt.alloc();
    assert!(rt;
        // A crossing, a record that leaves the cache, two that arrive at the first collector, and four at the second.
        has_steps(&rt, alloc, true, Some(0), Some(1), false, 8)
            // By the destination without a link, the packet is lost in two steps.
            & has_steps(&rt, alloc, false, Some(0), None, false, 2)
            // An exempt packet is lost, as it should be; by the other destination it is counted twice.
            & has_steps(&rt, alloc, false, Some(0), None, true, 5)
            & has_steps(&rt, alloc, false, None, None, true, 0)
    );
}

#[test]
fn the_law_of_runs() {
    packets_have_runs();
}
