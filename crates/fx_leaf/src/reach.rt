//! Marks of the entries that the verdict on a path is computed from: a number for each collecting process, whose bits
//! are layouts.
ghost use Rattle.std.specs.Prelude.{◌≡◌, ◌<◌, map, length, slice_get, slice_index, Some, []};
ghost use Rattle.fx_tables.specs.Network as network;
ghost use Rattle.fx_leaf.specs.Reach as reach;
ghost use Rattle.fx_leaf.specs.Tables as by_table;

use crate::tables::Tables;
use fx_tables::{AggregationEntry, Crossing, LAYOUTS, Net, Point, Process, Selection};

/// Marks these layouts at the collecting process at this index, if there is one.
fn mark_at(marks: &mut [u64], layouts: u64, process: usize)
    ensures { marks.new ≡ reach.marks_at layouts marks.old (Some process) }
{
    if process < marks.len() {
        marks[process] |= layouts;
    }
}

/// Marks these layouts at the collecting process that a destination leads to, if there is one.
fn mark_behind(marks: &mut [u64], net: &Net, layouts: u64, destination: Option<usize>)
    ensures { marks.new ≡ reach.marks_behind net.now layouts marks.old destination }
{
    let Some(link) = destination else {
        return;
    };
    if let Some(process) = net.links().get(link) {
        mark_at(marks, layouts, *process);
    }
}

/// Marks these layouts at the collecting processes that these destinations lead to.
fn mark_to(marks: &mut [u64], net: &Net, layouts: u64, destinations: &[Option<usize>])
    ensures { marks.new ≡ reach.marks_to net.now layouts marks.old destinations.now }
{
    for destination in destinations {
        mark_behind(marks, net, layouts, *destination);
    }
}

/// Marks these layouts where the exporting process at this index sends.
fn mark_by_place(marks: &mut [u64], net: &Net, layouts: u64, index: usize)
    ensures { let exporters = network.before (slice_get net.now.exporters index) [] in
        marks.new ≡ reach.marks_by net.now layouts marks.old exporters }
{
    if let Some(exporter) = net.exporters().get(index) {
        mark_to(marks, net, layouts, exporter.destinations());
    }
}

/// Marks these layouts where the exporting processes at these indices send.
fn mark_by(marks: &mut [u64], net: &Net, layouts: u64, places: &[usize])
    ensures { let exporters = network.at_places net.now.exporters places.now in
        marks.new ≡ reach.marks_by net.now layouts marks.old exporters }
{
    for index in places {
        mark_by_place(marks, net, layouts, *index);
    }
}

/// Marks the layout of this holder where its records are sent.
fn mark_by_holder(marks: &mut [u64], tables: &Tables<'_>, holder: usize)
    requires { by_table.AreTables tables.now }
    ensures { let t = tables.now in
        marks.new ≡ reach.marks_by_holder t.net t.numbering marks.old holder }
{
    let net = tables.net();
    let number = tables.number_of_layout(holder);
    if number < LAYOUTS {
        mark_by(marks, net, 1 << number, net.named_by(holder));
    }
}

/// Marks the layouts of these aggregations where their records are sent.
fn mark_by_aggregations(marks: &mut [u64], tables: &Tables<'_>, aggregations: &[AggregationEntry])
    requires { by_table.AreTables tables.now }
    ensures { let t = tables.now in
        let holders = map (λ a. a.holder) aggregations.now in
        marks.new ≡ reach.marks_by_holders t.net t.numbering marks.old holders }
{
    for aggregation in aggregations {
        mark_by_holder(marks, tables, aggregation.holder());
    }
}

/// Marks these layouts where a collecting process sends records on, and the layouts of its aggregations.
fn mark_on(marks: &mut [u64], tables: &Tables<'_>, layouts: u64, process: &Process)
    requires { by_table.AreTables tables.now }
    ensures { let t = tables.now in
        marks.new ≡ reach.marks_on t.net t.numbering layouts marks.old (Some process.now) }
{
    mark_by(marks, tables.net(), layouts, process.exporters());
    mark_by_aggregations(marks, tables, process.aggregations());
}

/// Returns the layouts that are marked at the collecting process at this index.
pub(crate) fn marks_at(marks: &[u64], process: usize) -> u64
    requires { process < length marks.now }
    ensures { result ≡ slice_index marks.now process }
{
    marks[process]
}

/// Marks the layouts that are marked at the collecting process at this index wherever it sends them on, and the layouts
/// of its aggregations.
fn mark_from(marks: &mut [u64], tables: &Tables<'_>, process: usize)
    requires tables { by_table.AreTables tables.now }
    requires there { process < length marks.old }
    ensures { let t = tables.now in
        marks.new ≡ reach.marks_from t.net t.numbering marks.old process }
{
    let layouts = marks_at(marks, process);
    if layouts == 0 {
        return;
    }
    if let Some(process) = tables.net().processes().get(process) {
        mark_on(marks, tables, layouts, process);
    }
}

/// Spreads all marks to wherever their records lead.
fn spread(marks: &mut [u64], tables: &Tables<'_>)
    requires tables { by_table.AreTables tables.now }
    requires size { length marks.old ≡ length tables.now.net.processes }
    ensures { let t = tables.now in
        marks.new ≡ reach.spread t.net t.numbering t.order marks.old }
{
    let order = tables.order();
    for index in (0..order.len()).rev() {
        mark_from(marks, tables, order[index]);
    }
}

/// Marks the layouts of these selection processes' caches where their records are sent.
fn mark_by_selections(marks: &mut [u64], tables: &Tables<'_>, selections: &[Selection])
    requires { by_table.AreTables tables.now }
    ensures { let t = tables.now in
        let holders = reach.holders_by selections.now in
        marks.new ≡ reach.marks_by_holders t.net t.numbering marks.old holders }
{
    for selection in selections {
        if let Some(holder) = selection.holder {
            mark_by_holder(marks, tables, holder);
        }
    }
}

/// Marks the layouts of the caches at those of these points that watch the crossing, where their records are sent.
fn mark_at_points(marks: &mut [u64], tables: &Tables<'_>, points: &[Point], crossing: &Crossing)
    requires { by_table.AreTables tables.now }
    ensures { let t = tables.now in
        let holders = reach.holders_at points.now crossing.now in
        marks.new ≡ reach.marks_by_holders t.net t.numbering marks.old holders }
{
    for point in points {
        if point.watches(crossing) {
            mark_by_selections(marks, tables, point.selections());
        }
    }
}

/// Marks the layouts of the caches at all points along a path, where their records are sent.
fn mark_along(marks: &mut [u64], tables: &Tables<'_>, path: &[Crossing])
    requires { by_table.AreTables tables.now }
    ensures { let t = tables.now in
        let holders = reach.holders_along t.net path.now in
        marks.new ≡ reach.marks_by_holders t.net t.numbering marks.old holders }
{
    for crossing in path {
        mark_at_points(
            marks,
            tables,
            tables.net().points_of(crossing.device),
            crossing,
        );
    }
}

/// Marks all entries that the verdict on the packets of a path is computed from: those where their records arrive, and
/// where records of the aggregations there do, even of aggregations that can't read what arrives.
pub(crate) fn mark(marks: &mut [u64], tables: &Tables<'_>, path: &[Crossing])
    requires tables { by_table.AreTables tables.now }
    requires size { length marks.old ≡ length tables.now.net.processes }
    ensures along { let t = tables.now in
        reach.HoldsAlongPath t.net t.numbering (reach.IsMarked marks.new) path.now }
    ensures closed { reach.IsClosed tables.now.net tables.now.numbering marks.new }
{
    marks.fill(0);
    mark_along(marks, tables, path);
    spread(marks, tables);
}
