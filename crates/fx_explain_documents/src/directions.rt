//! Observation points that observe only the direction in which no packet crosses their interfaces.
use crate::unobserved::is_at;
use fx_config::{Direction, ObservationPoint};
use fx_explanation::{Documents, Explanation};
use fx_plan::Plan;
use fx_tables::{Crossing, Point};
use fx_topology::NetworkDevice;
use fx_traffic::Target;
use std::alloc::{AllocError, Global};

/// The crossings of all paths that concern an observation point.
#[derive(Clone, Copy)]
struct Sight {
    /// Whether one is at an interface of the point.
    crossed: bool,
    /// Whether the point observes one.
    seen: bool,
}

/// The entries of each device's observation points, in document order.
type Sights = Vec<Vec<Sight>>;

/// Returns the entries of a device's observation points before any crossing.
fn no_sight(alloc: Global, device: &NetworkDevice) -> Result<Vec<Sight>, AllocError> {
    let mut sights = Vec::new(alloc);
    for _point in device.config.observation_points.as_slice() {
        sights.push(Sight {
            crossed: false,
            seen: false,
        })?;
    }
    Ok(sights)
}

/// Returns the entries of all observation points before any crossing.
fn no_sights(alloc: Global, plan: &Plan) -> Result<Sights, AllocError> {
    let mut sights = Vec::new(alloc);
    for device in plan.network().devices.as_slice() {
        sights.push(no_sight(alloc, device)?)?;
    }
    Ok(sights)
}

/// Notes a crossing at the observation points of its device.
fn note_at(
    sights: &mut Vec<Sight>,
    named: &[ObservationPoint],
    points: &[Point],
    crossing: &Crossing,
) {
    for index in 0..sights.len() {
        if let (Some(point), Some(watching)) = (named.get(index), points.get(index)) {
            if let Some(sight) = sights.get_mut(index) {
                sight.crossed = sight.crossed || is_at(point, &crossing.interface);
                sight.seen = sight.seen || watching.watches(crossing);
            }
        }
    }
}

/// Notes a crossing.
fn note(sights: &mut Sights, plan: &Plan, crossing: &Crossing) {
    let Some(device) = plan.device(crossing.device) else {
        return;
    };
    let index = crossing.device.saturating_sub(1) as usize;
    if let Some(sights) = sights.get_mut(index) {
        let points = plan.net().points_of(crossing.device);
        note_at(
            sights,
            device.observation_points.as_slice(),
            points,
            crossing,
        );
    }
}

/// Notes the crossings of a path.
fn note_path(sights: &mut Sights, plan: &Plan, crossings: &[Crossing]) {
    for crossing in crossings {
        note(sights, plan, crossing);
    }
}

/// Returns the direction that an observation point observes, and the other one.
fn direction_words(point: &ObservationPoint) -> (&'static str, &'static str) {
    match point.direction {
        Direction::Ingress => ("ingress", "egress"),
        Direction::Egress => ("egress", "ingress"),
        Direction::Both => ("both", "neither"),
    }
}

/// Writes that an observation point observes none of the packets that cross its interfaces.
fn write_point<'x>(out: &mut Explanation, device: &'x NetworkDevice, point: &'x ObservationPoint) {
    let (observed, other) = direction_words(point);
    out.text_quoted("observation point ", point.name.as_str());
    out.text(" of ");
    out.text(device.name.as_str());
    out.text(" observes ");
    out.text(observed);
    out.text(" alone, and paths cross its interfaces ");
    out.text(other);
    out.sentence(" alone: it sees none of them");
}

/// Writes the observation points of a device that observe none of the packets that cross their interfaces.
fn write_device(out: &mut Explanation, device: &NetworkDevice, sights: &[Sight]) {
    let points = device.config.observation_points.as_slice();
    for index in 0..points.len() {
        match sights.get(index) {
            Some(sight) if sight.crossed && !sight.seen => write_point(out, device, &points[index]),
            _ => {}
        }
    }
}

/// Writes the observation points of all devices that observe none of the packets that cross their interfaces.
fn write_devices(out: &mut Explanation, plan: &Plan, sights: &[Vec<Sight>]) {
    let devices = plan.network().devices.as_slice();
    for index in 0..devices.len() {
        if let Some(sights) = sights.get(index) {
            write_device(out, &devices[index], sights.as_slice());
        }
    }
}

/// Writes the observation points that observe no crossing of any path, although paths cross their interfaces in the
/// other direction.
pub(crate) fn write_directions(
    out: &mut Explanation,
    documents: &Documents<'_>,
    targets: &[Target<'_>],
) {
    let none_yet = no_sights(out.alloc, documents.plan);
    let Some(mut sights) = out.unless_short(none_yet) else {
        return;
    };
    for target in targets {
        note_path(&mut sights, documents.plan, target.crossings);
    }
    write_devices(out, documents.plan, sights.as_slice());
}
