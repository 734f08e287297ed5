//! Two meters on one path, each with its own filter.
ghost use Rattle.std.specs.Prelude.{◌≡◌, [], ◌∷◌};
ghost use Rattle.fx_leaf.specs.PathSelections.{IsNarrowed};
ghost use Rattle.fx_leaf.specs.PathTables.{HasProcessRoom, IsPathBegun};
ghost use Rattle.fx_leaf.specs.Tables.{AreTables};

use crate::meters::{agreed, into, meter, sources};
use crate::parts::{by_source, collector, exporter, holder, process};
use fx_base::Fault;
use fx_boxes::Region;
use fx_elements::Axis;
use fx_layout::Layout;
use fx_leaf::{
    Counted, CutBounds, Judgement, PathScratch, Scratch, Tables, cut, fate, judge, never,
};
use fx_tables::{Crossing, DeviceEntry, Exporter, Holder, Net};
use std::alloc::Global;
use std::process::Abort;

/// Returns a meter of a range of sources, into the cache at this index.
fn half(rt: &impl Abort, alloc: Global, low: u128, high: u128, cache: usize) -> DeviceEntry {
    meter(rt, alloc, sources(rt, low, high), cache, false)
}

/// Returns a meter of the sources below 128.0.0.0, another of the remaining sources, and a collector that tallies what
/// both send.
fn devices(rt: &impl Abort, alloc: Global) -> Vec<DeviceEntry> {
    vec![in alloc;
        half(rt, alloc, 0, 0x7fff_ffff, 0),
        collector(rt, alloc),
        half(rt, alloc, 0x8000_0000, 0xffff_ffff, 1),
    ]
    .expect(rt, "memory")
}

fn caches(rt: &impl Abort, alloc: Global) -> Vec<Holder>
    ensures { result.items ≡ record { layout = []; exporters = 0 ∷ [] }
        ∷ record { layout = []; exporters = 1 ∷ [] } ∷ [] }
{
    let layout = Layout::new();
    vec![in alloc;
        holder(rt, alloc, &layout, 0),
        holder(rt, alloc, &layout, 1),
    ]
    .expect(rt, "memory")
}

/// Whether the second exporting process sends to all of its destinations, and the destinations.
type Sent = (bool, &'static [Option<usize>]);

/// Returns an exporting process that sends to the first destination, and another that sends to these.
fn exporters(rt: &impl Abort, alloc: Global, sent: Sent) -> Vec<Exporter> {
    let second = Exporter::new(sent.0, sent.1.to_vec(alloc).expect(rt, "memory"));
    vec![in alloc; exporter(rt, alloc, 0), second].expect(rt, "memory")
}

/// Returns the network of those, whose report has this layout.
fn network(rt: &impl Abort, alloc: Global, sent: Sent, report: Layout) -> Net
    ensures holders { result.holders
        ≡ record { layout = []; exporters = 0 ∷ [] } ∷ record { layout = []; exporters = 1 ∷ [] }
        ∷ [] }
    ensures processes { result.processes ≡ record { exporters = []; aggregations = [] } ∷ [] }
    ensures report { result.report ≡ 0 }
{
    Net::new(
        devices(rt, alloc),
        exporters(rt, alloc, sent),
        caches(rt, alloc),
        vec![in alloc; process(alloc)].expect(rt, "memory"),
        vec![in alloc; 0, 0].expect(rt, "memory"),
        0,
        report,
    )
}

/// The leaf or the number of the fault; whether no packet is counted, as success or a number; the split that halves
/// what cuts; and the judgement. All but the split are requested twice, alone and along the path.
type Answers = (
    Result<Counted, u16>,
    Result<(), u16>,
    Option<(Axis, u128)>,
    Judgement,
);

/// Returns the bound that halves what cuts the region, if it is cut at this split.
fn halved<'t>(
    alloc: Global,
    along: &mut PathScratch<'t>,
    tables: &Tables<'t>,
    path: &[Crossing],
    region: &Region,
    all: usize,
    split: Option<(Axis, u128)>,
) -> Result<Option<(Axis, u128)>, Fault>
    requires tables { AreTables tables.now }
    requires room { HasProcessRoom tables.now along.old }
    requires begun { IsPathBegun tables.now path.now along.old }
    requires narrowed { IsNarrowed along.old.selections region.now all }
{
    let active = along.narrow(region, all);
    let _judged = along.judge(tables, path, region, active);
    let Some(first) = split else {
        return Ok(None);
    };
    let mut bounds = CutBounds::new(alloc);
    Ok(Some(along.halving_bound(&mut bounds, tables, path, region, active, first)?))
}

/// Returns the answers for a range of sources.
fn asked(rt: &impl Abort, alloc: Global, net: &Net, low: u128, high: u128) -> Answers
    requires holders { net.now.holders ≡ record { layout = []; exporters = 0 ∷ [] }
        ∷ record { layout = []; exporters = 1 ∷ [] } ∷ [] }
    requires processes { net.now.processes ≡ record { exporters = []; aggregations = [] } ∷ [] }
    requires report { net.now.report ≡ 0 }
{
    let region = sources(rt, low, high);
    let path = [into(rt, alloc, 1), into(rt, alloc, 3)];
    let layouts = [Layout::new()];
    let tables = Tables::new(net, &[0], &layouts, &[0, 0]);
    let mut scratch = Scratch::new(alloc, &tables).expect(rt, "memory");
    let mut along = PathScratch::new(alloc, &tables).expect(rt, "memory");
    along.reserve(&tables, &path).expect(rt, "memory");
    let all = along.begin(&tables, &path);
    let active = along.narrow(&region, all);
    let leaf = agreed(
        fate(&mut scratch, &tables, &path, &region),
        along.fate(&tables, &path, &region, active),
    );
    let uncounted = agreed(
        never(&mut scratch, &tables, &path, &region),
        along.never(&tables, &path, &region, active),
    );
    let split = cut(&mut scratch, &tables, &path, &region);
    let judgement = judge(&mut scratch, &tables, &path, &region);
    let judged = along.judge(&tables, &path, &region, active);
    let split = halved(alloc, &mut along, &tables, &path, &region, active, split).expect(
        rt, "memory",
    );
    along.enter(&region);
    let judgement = if judged == judgement {
        judgement
    } else {
        Judgement::Unassigned
    };
    (leaf, uncounted, split, judgement)
}

/// Returns the answers for a range of sources if the second exporting process sends to these destinations and the
/// report has the whole source or nothing.
fn answers(
    rt: &impl Abort,
    alloc: Global,
    sent: Sent,
    tells_source: bool,
    low: u128,
    high: u128,
) -> Answers {
    let report = if tells_source {
        by_source(rt, 32)
    } else {
        Layout::new()
    };
    let net = network(rt, alloc, sent, report);
    asked(rt, alloc, &net, low, high)
}

/// A leaf at the first crossing.
const FIRST: Counted = Counted {
    crossing: 1,
    point: 1,
    process: 1,
};

/// A leaf at the second crossing.
const SECOND: Counted = Counted {
    crossing: 2,
    point: 1,
    process: 1,
};

/// The first source of the second half.
const MIDDLE: u128 = 0x8000_0000;

/// The first and the last source, and the expected answers.
const HALVES: [(u128, u128, Answers); 3] = [
    (
        0,
        MIDDLE - 1,
        (Ok(FIRST), Err(415), None, Judgement::Once(FIRST)),
    ),
    (
        MIDDLE,
        0xffff_ffff,
        (Ok(SECOND), Err(415), None, Judgement::Once(SECOND)),
    ),
    (
        MIDDLE - 1,
        0xffff_ffff,
        (
            Err(406),
            Err(406),
            Some((Axis::Source, MIDDLE)),
            Judgement::Cut {
                axis: Axis::Source,
                at: MIDDLE,
            },
        ),
    ),
];

#[test]
fn each_filter_counts_its_half_and_cuts_a_region(rt: HostRuntime) {
    for (low, high, expected) in &HALVES {
        let found = answers(&rt, rt.alloc(), (true, &[Some(1)]), false, *low, *high);
        assert!(rt; found == *expected);
    }
}

/// What the second exporting process sends to, whether the report has the source, and, for the second meter's half, why
/// the leaf isn't sound, whether none of its packets is counted, and the judgement.
const UNSOUND: [(Sent, bool, u16, Result<(), u16>, Judgement); 4] = [
    ((true, &[None]), false, 407, Ok(()), Judgement::Never),
    (
        (true, &[Some(0), Some(1)]),
        false,
        408,
        Err(408),
        Judgement::Many,
    ),
    (
        (false, &[Some(0), None]),
        false,
        409,
        Err(409),
        Judgement::Differing,
    ),
    (
        (true, &[Some(1)]),
        true,
        413,
        Err(413),
        Judgement::Unassigned,
    ),
];

#[test]
fn tells_why_no_leaf_is_sound(rt: HostRuntime) {
    for (sent, tells_source, number, uncounted, judgement) in &UNSOUND {
        let (leaf, never, _, found) = answers(
            &rt,
            rt.alloc(),
            *sent,
            *tells_source,
            MIDDLE,
            0xffff_ffff,
        );
        assert!(rt; leaf == Err(*number) && never == *uncounted && found == *judgement);
    }
}
