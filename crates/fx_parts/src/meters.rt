//! Checks whether a packet passes the same selection processes on a path of a part and on one of the whole.
ghost use Rattle.std.specs.Prelude.{◌≡◌, ◌++◌, List, flat_map, OnOk, IfOk};
ghost use Rattle.std.specs.Bool.{OnTrue};
ghost use Rattle.fx_parts.specs.Parts as parts;
ghost use Rattle.fx_parts.specs.Meters as meters;

use crate::check::holders_alike;
use fx_boxes::Region;
use fx_tables::{Crossing, Net, Point, Selection};
use std::alloc::{AllocError, Global};

/// Appends a selection process if it has a cache.
fn push_cached(found: &mut Vec<Selection>, selection: &Selection) -> Result<(), AllocError>
    ensures { OnOk result (found.new.items ≡ found.old.items ++ meters.cached selection.now) }
{
    if let Some(holder) = selection.holder {
        found.push(Selection {
            region: selection.region,
            holder: Some(holder),
        })?;
    }
    Ok(())
}

fn push_all_cached(found: &mut Vec<Selection>, selections: &[Selection]) -> Result<(), AllocError>
    ensures { OnOk result (found.new.items ≡ found.old.items
        ++ flat_map meters.cached selections.now) }
{
    for index in 0..selections.len() {
        push_cached(found, &selections[index])?;
    }
    Ok(())
}

/// Appends the selection processes of an observation point that have a cache, if the point observes the crossing.
fn push_meters_at(
    found: &mut Vec<Selection>,
    crossing: &Crossing,
    point: &Point,
) -> Result<(), AllocError>
    ensures { OnOk result (found.new.items ≡ found.old.items
        ++ meters.meters_at crossing.now point.now) }
{
    if point.watches(crossing) {
        push_all_cached(found, point.selections())?;
    }
    Ok(())
}

fn push_meters_of(
    found: &mut Vec<Selection>,
    crossing: &Crossing,
    points: &[Point],
) -> Result<(), AllocError>
    ensures { OnOk result (found.new.items
        ≡ found.old.items ++ flat_map (meters.meters_at crossing.now) points.now) }
{
    for index in 0..points.len() {
        push_meters_at(found, crossing, &points[index])?;
    }
    Ok(())
}

fn push_meters(found: &mut Vec<Selection>, net: &Net, crossing: &Crossing) -> Result<(), AllocError>
    ensures { OnOk result (found.new.items ≡ found.old.items
        ++ meters.meters_of net.now crossing.now) }
{
    push_meters_of(found, crossing, net.points_of(crossing.device))
}

fn push_all_meters(
    found: &mut Vec<Selection>,
    net: &Net,
    path: &[Crossing],
) -> Result<(), AllocError>
    ensures { OnOk result (found.new.items ≡ found.old.items ++ meters.meters net.now path.now) }
{
    for index in 0..path.len() {
        push_meters(found, net, &path[index])?;
    }
    Ok(())
}

/// Returns the selection processes with a cache that a packet on the path passes, in order.
fn meters(alloc: Global, net: &Net, path: &[Crossing]) -> Result<Vec<Selection>, AllocError>
    ensures { IfOk result (λ found. found.items ≡ meters.meters net.now path.now) }
{
    let mut found: Vec<Selection> = Vec::new(alloc);
    push_all_meters(&mut found, net, path)?;
    Ok(found)
}

pub(crate) fn same_region(a: &Option<Region>, b: &Option<Region>) -> bool
    ensures { result ≡ meters.same_region a.now b.now }
{
    match (a, b) {
        (None, None) => true,
        (Some(a), Some(b)) => a.corner() == b.corner() && a.far_corner() == b.far_corner(),
        _ => false,
    }
}

fn caches_alike(
    part: &Net,
    whole: &Net,
    places: &[usize],
    m: Option<usize>,
    n: Option<usize>,
) -> bool
    ensures { result ≡ meters.caches_alike part.now whole.now places.now m n }
{
    match (m, n) {
        (Some(m), Some(n)) => holders_alike(part, whole, places, m, n),
        _ => false,
    }
}

fn selections_alike(part: &Net, whole: &Net, places: &[usize], s: &Selection, t: &Selection) -> bool
    ensures { result ≡ meters.selections_alike part.now whole.now places.now s.now t.now }
{
    same_region(&s.region, &t.region) && caches_alike(part, whole, places, s.holder, t.holder)
}

fn each_selection_alike(
    part: &Net,
    whole: &Net,
    places: &[usize],
    ss: &[Selection],
    ts: &[Selection],
) -> bool
    ensures { result ≡ meters.each_selection_alike part.now whole.now places.now ss.now ts.now }
{
    ss.iter()
        .zip(ts)
        .all(|(s, t)| selections_alike(part, whole, places, s, t))
}

fn all_selections_alike(
    part: &Net,
    whole: &Net,
    places: &[usize],
    ss: &[Selection],
    ts: &[Selection],
) -> bool
    ensures { result ≡ meters.all_selections_alike part.now whole.now places.now ss.now ts.now }
{
    ss.len() == ts.len() && each_selection_alike(part, whole, places, ss, ts)
}

fn meters_alike(
    alloc: Global,
    part: &Net,
    whole: &Net,
    places: &[usize],
    inner: &[Crossing],
    outer: &[Crossing],
) -> Result<bool, AllocError>
    ensures { IfOk result (λ b. b
        ≡ meters.meters_alike part.now whole.now places.now inner.now outer.now) }
{
    let ss = meters(alloc, part, inner)?;
    let ts = meters(alloc, whole, outer)?;
    Ok(all_selections_alike(part, whole, places, ss.as_slice(), ts.as_slice()))
}

/// Returns whether a packet passes the same selection processes with a cache, in the same order, on a path of the part
/// and on one of the whole.
///
/// Fails if an allocation fails.
pub fn meters_the_same(
    alloc: Global,
    part: &Net,
    whole: &Net,
    places: &[usize],
    inner: &[Crossing],
    outer: &[Crossing],
) -> Result<bool, AllocError>
    ensures { IfOk result (λ b. OnTrue b
        (parts.MetersTheSame part.now whole.now places.now inner.now outer.now)) }
{
    meters_alike(alloc, part, whole, places, inner, outer)
}
