//! Checks whether the tables of a network are a part of another's.
ghost use Rattle.std.specs.Prelude.{◌≡◌, Some, slice_get};
ghost use Rattle.std.specs.Bool.{OnTrue};
ghost use Rattle.fx_parts.specs.Checks as checks;
ghost use Rattle.fx_parts.specs.Meaning as meaning;
ghost use Rattle.fx_parts.specs.Parts as parts;

use fx_tables::{AggregationEntry, Exporter, Holder, MatchEntry, Net, Process};

/// Returns the place of the collecting process that a destination leads to, if there is one.
fn lead(net: &Net, destination: Option<usize>) -> Option<usize>
    ensures { result ≡ meaning.lead net.now destination }
{
    match destination {
        Some(link) => net.links().get(link).copied(),
        None => None,
    }
}

fn lead_in(places: &[usize], process: Option<usize>) -> Option<usize>
    ensures { result ≡ parts.lead_in places.now process }
{
    match process {
        Some(process) => places.get(process).copied(),
        None => None,
    }
}

fn same_place(a: Option<usize>, b: Option<usize>) -> bool
    ensures { result ≡ checks.same_place a b }
{
    match (a, b) {
        (None, None) => true,
        (Some(a), Some(b)) => a == b,
        _ => false,
    }
}

/// Returns whether two destinations lead to the same place.
fn leads_alike(
    part: &Net,
    whole: &Net,
    places: &[usize],
    d: Option<usize>,
    e: Option<usize>,
) -> bool
    ensures { result ≡ checks.leads_alike part.now whole.now places.now d e }
{
    same_place(lead_in(places, lead(part, d)), lead(whole, e))
}

fn each_lead_alike(
    part: &Net,
    whole: &Net,
    places: &[usize],
    ds: &[Option<usize>],
    es: &[Option<usize>],
) -> bool
    ensures { result ≡ checks.each_lead_alike part.now whole.now places.now ds.now es.now }
{
    ds.iter()
        .zip(es)
        .all(|(d, e)| leads_alike(part, whole, places, *d, *e))
}

fn all_leads_alike(
    part: &Net,
    whole: &Net,
    places: &[usize],
    ds: &[Option<usize>],
    es: &[Option<usize>],
) -> bool
    ensures { result ≡ checks.all_leads_alike part.now whole.now places.now ds.now es.now }
{
    ds.len() == es.len() && each_lead_alike(part, whole, places, ds, es)
}

fn exporter_alike(part: &Net, whole: &Net, places: &[usize], e: &Exporter, f: &Exporter) -> bool
    ensures { result ≡ checks.exporters_alike part.now whole.now places.now
        (Some e.now) (Some f.now) }
{
    e.parallel() == f.parallel()
        && all_leads_alike(part, whole, places, e.destinations(), f.destinations())
}

/// Returns whether both places have an exporting process, and both send to the same places in the same mode.
fn exporters_alike(part: &Net, whole: &Net, places: &[usize], m: usize, n: usize) -> bool
    ensures { result ≡ checks.exporters_alike part.now whole.now places.now
        (slice_get part.now.exporters m) (slice_get whole.now.exporters n) }
{
    match (part.exporters().get(m), whole.exporters().get(n)) {
        (Some(e), Some(f)) => exporter_alike(part, whole, places, e, f),
        _ => false,
    }
}

fn each_exporter_alike(
    part: &Net,
    whole: &Net,
    places: &[usize],
    ms: &[usize],
    ns: &[usize],
) -> bool
    ensures { result ≡ checks.each_exporter_alike part.now whole.now places.now ms.now ns.now }
{
    ms.iter()
        .zip(ns)
        .all(|(m, n)| exporters_alike(part, whole, places, *m, *n))
}

fn all_exporters_alike(
    part: &Net,
    whole: &Net,
    places: &[usize],
    ms: &[usize],
    ns: &[usize],
) -> bool
    ensures { result ≡ checks.all_exporters_alike part.now whole.now places.now ms.now ns.now }
{
    ms.len() == ns.len() && each_exporter_alike(part, whole, places, ms, ns)
}

fn holder_alike(part: &Net, whole: &Net, places: &[usize], h: &Holder, k: &Holder) -> bool
    ensures { result ≡ checks.holders_alike part.now whole.now places.now
        (Some h.now) (Some k.now) }
{
    h.layout().same(k.layout())
        && all_exporters_alike(part, whole, places, h.exporters(), k.exporters())
}

/// Returns whether both places have a holder, with the same layout and exporting processes that send alike.
pub(crate) fn holders_alike(part: &Net, whole: &Net, places: &[usize], m: usize, n: usize) -> bool
    ensures { result ≡ checks.holders_alike part.now whole.now places.now
        (slice_get part.now.holders m) (slice_get whole.now.holders n) }
{
    match (part.holders().get(m), whole.holders().get(n)) {
        (Some(h), Some(k)) => holder_alike(part, whole, places, h, k),
        _ => false,
    }
}

fn entries_alike(a: MatchEntry, b: MatchEntry) -> bool
    ensures { result ≡ checks.entries_alike a b }
{
    a.axis == b.axis && (a.bits == b.bits && a.value == b.value)
}

fn each_entry_alike(xs: &[MatchEntry], ys: &[MatchEntry]) -> bool
    ensures { result ≡ checks.each_entry_alike xs.now ys.now }
{
    xs.iter().zip(ys).all(|(x, y)| entries_alike(*x, *y))
}

fn matches_alike(xs: &[MatchEntry], ys: &[MatchEntry]) -> bool
    ensures { result ≡ checks.matches_alike xs.now ys.now }
{
    xs.len() == ys.len() && each_entry_alike(xs, ys)
}

fn aggregations_alike(
    part: &Net,
    whole: &Net,
    places: &[usize],
    a: &AggregationEntry,
    b: &AggregationEntry,
) -> bool
    ensures { result ≡ checks.aggregations_alike part.now whole.now places.now a.now b.now }
{
    matches_alike(a.matches(), b.matches())
        && holders_alike(part, whole, places, a.holder(), b.holder())
}

fn each_aggregation_alike(
    part: &Net,
    whole: &Net,
    places: &[usize],
    xs: &[AggregationEntry],
    ys: &[AggregationEntry],
) -> bool
    ensures { result ≡ checks.each_aggregation_alike part.now whole.now places.now xs.now ys.now }
{
    xs.iter()
        .zip(ys)
        .all(|(a, b)| aggregations_alike(part, whole, places, a, b))
}

fn all_aggregations_alike(
    part: &Net,
    whole: &Net,
    places: &[usize],
    xs: &[AggregationEntry],
    ys: &[AggregationEntry],
) -> bool
    ensures { result ≡ checks.all_aggregations_alike part.now whole.now places.now xs.now ys.now }
{
    xs.len() == ys.len() && each_aggregation_alike(part, whole, places, xs, ys)
}

/// Returns whether a collecting process of the part sends on and aggregates like the one at this place in the whole.
fn processes_alike(part: &Net, whole: &Net, places: &[usize], p: &Process, index: usize) -> bool
    ensures { result ≡ checks.processes_alike part.now whole.now places.now p.now
        (slice_get whole.now.processes index) }
{
    match whole.processes().get(index) {
        Some(q) => {
            all_exporters_alike(part, whole, places, p.exporters(), q.exporters())
                && all_aggregations_alike(part, whole, places, p.aggregations(), q.aggregations())
        }
        None => false,
    }
}

fn each_process_alike(
    part: &Net,
    whole: &Net,
    places: &[usize],
    ps: &[Process],
    qs: &[usize],
) -> bool
    ensures { result ≡ checks.each_process_alike part.now whole.now places.now ps.now qs.now }
{
    ps.iter()
        .zip(qs)
        .all(|(p, q)| processes_alike(part, whole, places, p, *q))
}

fn all_processes_alike(part: &Net, whole: &Net, places: &[usize]) -> bool
    ensures { result ≡ checks.all_processes_alike part.now whole.now places.now }
{
    part.processes().len() == places.len()
        && each_process_alike(part, whole, places, part.processes(), places)
}

/// Returns whether no other collecting process has the place of the report.
fn no_other(reporting: usize, report: usize, places: &[usize]) -> bool
    ensures { result ≡ checks.no_other reporting report places.now }
{
    places.iter().enumerate().all(|(process, place)| *place != report || process == reporting)
}

fn reports_alike(part: &Net, whole: &Net, places: &[usize]) -> bool
    ensures { result ≡ checks.reports_alike part.now whole.now places.now }
{
    same_place(places.get(part.report()).copied(), Some(whole.report()))
        && no_other(part.report(), whole.report(), places)
}

fn all_alike(part: &Net, whole: &Net, places: &[usize]) -> bool
    ensures { result ≡ checks.is_part part.now whole.now places.now }
{
    all_processes_alike(part, whole, places)
        && (reports_alike(part, whole, places) && part.report_layout().same(whole.report_layout()))
}

/// Returns whether the first network is a part of the second, given the place there of each of its collecting
/// processes.
pub fn is_part(part: &Net, whole: &Net, places: &[usize]) -> bool
    ensures decided { result ≡ checks.is_part part.now whole.now places.now }
    ensures part { OnTrue result (parts.IsPart part.now whole.now places.now) }
{
    all_alike(part, whole, places)
}
