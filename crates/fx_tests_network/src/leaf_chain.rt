//! Two consecutive aggregations, of which the second has a match.
ghost use Rattle.std.specs.Prelude.{◌≡◌, ◌≤◌, [], ◌∷◌, true, Some};
ghost use Rattle.fx_leaf.specs.Tables as by_table;
ghost use Rattle.fx_elements.specs.declared.axis.Axis.TheVariants as axis;

use crate::meters::{agreed, into, meter, sources};
use crate::parts::{by_source, exporter, holder, process};
use fx_boxes::Region;
use fx_elements::Axis;
use fx_layout::Layout;
use fx_leaf::{Counted, PathScratch, Scratch, Tables, cut, fate};
use fx_tables::{AggregationEntry, Exporter, Holder, MatchEntry, Net, Process};
use std::alloc::Global;
use std::process::Abort;

fn exporters(rt: &impl Abort, alloc: Global) -> Vec<Exporter>
    ensures { result.items ≡ record { parallel = true; destinations = Some 0 ∷ [] }
        ∷ record { parallel = true; destinations = Some 1 ∷ [] }
        ∷ record { parallel = true; destinations = Some 2 ∷ [] } ∷ [] }
{
    vec![in alloc;
        exporter(rt, alloc, 0),
        exporter(rt, alloc, 1),
        exporter(rt, alloc, 2),
    ]
    .expect(rt, "memory")
}

fn holders(
    rt: &impl Abort,
    alloc: Global,
    own: &Layout,
    middle: &Layout,
    last: &Layout,
) -> Vec<Holder>
    ensures { result.items ≡ record { layout = own.now; exporters = 0 ∷ [] }
        ∷ record { layout = middle.now; exporters = 1 ∷ [] }
        ∷ record { layout = last.now; exporters = 2 ∷ [] } ∷ [] }
{
    vec![in alloc;
        holder(rt, alloc, own, 0),
        holder(rt, alloc, middle, 1),
        holder(rt, alloc, last, 2),
    ]
    .expect(rt, "memory")
}

/// Returns a process that aggregates all records.
fn first(rt: &impl Abort, alloc: Global) -> Process
    ensures { result ≡ record {
      exporters = [];
      aggregations =
          record { holder = 1; matches = [] } ∷ [];
    } }
{
    let aggregation = AggregationEntry::new(1, Vec::new(alloc));
    Process::new(
        Vec::new(alloc),
        vec![in alloc; aggregation].expect(rt, "memory"),
    )
}

/// Returns a process that aggregates the records from 10.1.2.0/24.
fn second(rt: &impl Abort, alloc: Global) -> Process
    ensures { result ≡ record {
      exporters = [];
      aggregations =
          record {
            holder = 2;
            matches = record { axis = axis.Source; bits = 24; value = 0x0a0102 }
                ∷ [];
          } ∷ [];
    } }
{
    let entry = MatchEntry {
        axis: Axis::Source,
        bits: 24,
        value: 0x0a0102,
    };
    let aggregation = AggregationEntry::new(2, vec![in alloc; entry].expect(rt, "memory"));
    Process::new(
        Vec::new(alloc),
        vec![in alloc; aggregation].expect(rt, "memory"),
    )
}

fn processes(rt: &impl Abort, alloc: Global) -> Vec<Process>
    ensures { result.items ≡ record {
      exporters = [];
      aggregations =
          record { holder = 1; matches = [] } ∷ [];
    }
        ∷ record {
          exporters = [];
          aggregations =
              record {
                holder = 2;
                matches = record { axis = axis.Source; bits = 24; value = 0x0a0102 }
                    ∷ [];
              } ∷ [];
        }
        ∷ record { exporters = []; aggregations = [] } ∷ [] }
{
    vec![in alloc; first(rt, alloc), second(rt, alloc), process(alloc)].expect(rt, "memory")
}

/// Returns a network with one meter of all packets, whose cache exports to the first collecting process, that to the
/// second, and so on.
fn network(rt: &impl Abort, alloc: Global, own: &Layout, middle: &Layout, last: &Layout) -> Net
    ensures exporters { result.exporters
        ≡ record { parallel = true; destinations = Some 0 ∷ [] }
        ∷ record { parallel = true; destinations = Some 1 ∷ [] }
        ∷ record { parallel = true; destinations = Some 2 ∷ [] } ∷ [] }
    ensures holders { result.holders
        ≡ record { layout = own.now; exporters = 0 ∷ [] }
        ∷ record { layout = middle.now; exporters = 1 ∷ [] }
        ∷ record { layout = last.now; exporters = 2 ∷ [] } ∷ [] }
    ensures processes { result.processes
        ≡ record { exporters = []; aggregations = record { holder = 1; matches = [] } ∷ [] }
        ∷ record {
          exporters = [];
          aggregations =
              record {
                holder = 2;
                matches = record { axis = axis.Source; bits = 24; value = 0x0a0102 }
                    ∷ [];
              } ∷ [];
        }
        ∷ record { exporters = []; aggregations = [] } ∷ [] }
    ensures links { result.links ≡ 0 ∷ 1 ∷ 2 ∷ [] }
    ensures report { result.report ≡ 2 }
{
    let meter = meter(rt, alloc, Region::whole(), 0, false);
    Net::new(
        vec![in alloc; meter].expect(rt, "memory"),
        exporters(rt, alloc),
        holders(rt, alloc, own, middle, last),
        processes(rt, alloc),
        vec![in alloc; 0, 1, 2].expect(rt, "memory"),
        2,
        last.copy(),
    )
}

/// The leaf or the number of the fault, and the split.
type Answers = (Result<Counted, u16>, Option<(Axis, u128)>);

/// Returns the leaf and the split for a range of sources.
fn asked(
    rt: &impl Abort,
    alloc: Global,
    net: &Net,
    layouts: &[Layout],
    low: u128,
    high: u128,
) -> Answers
    requires { by_table.AreTables (record {
      net = net.now;
      order = 2 ∷ 1 ∷ 0
          ∷ [];
      numbering = record { layouts = layouts.now; numbers = 0 ∷ 1 ∷ 2 ∷ [] };
    }) }
{
    let region = sources(rt, low, high);
    let path = [into(rt, alloc, 1)];
    let tables = Tables::new(net, &[2, 1, 0], layouts, &[0, 1, 2]);
    let mut scratch = Scratch::new(alloc, &tables).expect(rt, "memory");
    let mut along = PathScratch::new(alloc, &tables).expect(rt, "memory");
    along.reserve(&tables, &path).expect(rt, "memory");
    let all = along.begin(&tables, &path);
    let active = along.narrow(&region, all);
    let leaf = agreed(
        fate(&mut scratch, &tables, &path, &region),
        along.fate(&tables, &path, &region, active),
    );
    (leaf, cut(&mut scratch, &tables, &path, &region))
}

/// Returns the leaf and the split for a range of sources if the first aggregation keeps this many bits of the source.
fn answers(rt: &impl Abort, alloc: Global, kept: u32, low: u128, high: u128) -> Answers
    requires { kept ≤ 32 }
{
    let own = by_source(rt, 32);
    let middle = by_source(rt, kept);
    let last = by_source(rt, 16);
    let net = network(rt, alloc, &own, &middle, &last);
    let layouts = [own, middle, last];
    asked(rt, alloc, &net, &layouts, low, high)
}

/// A leaf at the one crossing.
const ONCE: Counted = Counted {
    crossing: 1,
    point: 1,
    process: 1,
};

/// How many bits the first aggregation keeps, the last source, and the expected answers.
const CASES: [(u32, u128, Answers); 3] = [
    (24, 0x0a01_02ff, (Ok(ONCE), None)), // inside the match
    (
        24,
        0x0a01_03ff,
        (Err(406), Some((Axis::Source, 0x0a01_0300))),
    ), // across its end
    (16, 0x0a01_02ff, (Err(407), None)), // unread
];

#[test]
fn a_match_that_is_read_counts_or_cuts_and_another_takes_nothing(rt: HostRuntime) {
    for (kept, high, expected) in &CASES {
        assert!(rt; answers(&rt, rt.alloc(), (*kept).min(32), 0x0a01_0200, *high) == *expected);
    }
}
