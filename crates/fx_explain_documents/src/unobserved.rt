//! Crossings that no observation point can observe.
use crate::interfaces::{nearest_watched, write_watched_interfaces};
use fx_base::Name;
use fx_config::ObservationPoint;
use fx_explanation::{Documents, Explanation, write_class, write_crossing};
use fx_plan::Plan;
use fx_tables::Crossing;
use fx_traffic::Target;

/// The maximum number of unknown interfaces for which the nearest one is searched: comparing names is slow.
const COMPARED: usize = 64;

/// Returns whether a name is among these.
fn is_among(names: &[Name], name: &Name) -> bool {
    for one in names {
        if one == name {
            return true;
        }
    }
    false
}

/// Returns whether an observation point is at the interface with this name.
pub(crate) fn is_at(point: &ObservationPoint, interface: &Name) -> bool {
    is_among(point.interfaces.as_slice(), interface)
}

/// Returns whether one of these observation points is at the interface with this name.
fn is_watched(points: &[ObservationPoint], interface: &Name) -> bool {
    for point in points {
        if is_at(point, interface) {
            return true;
        }
    }
    false
}

/// Returns the observation points of a crossing's device.
fn points_at<'a>(plan: &'a Plan, crossing: &Crossing) -> &'a [ObservationPoint] {
    match plan.device(crossing.device) {
        Some(device) => device.observation_points.as_slice(),
        None => &[],
    }
}

/// Returns whether an observation point observes a crossing, in its direction.
fn is_seen(plan: &Plan, crossing: &Crossing) -> bool {
    for point in plan.net().points_of(crossing.device) {
        if point.watches(crossing) {
            return true;
        }
    }
    false
}

/// Returns whether an observation point observes one of these crossings.
fn is_any_seen(plan: &Plan, crossings: &[Crossing]) -> bool {
    for crossing in crossings {
        if is_seen(plan, crossing) {
            return true;
        }
    }
    false
}

/// The interfaces that were compared with those of their devices, and the number of crossings that are left out.
#[derive(Drop)]
struct Unseen<'a> {
    compared: Vec<&'a Crossing>,
    left_out: u64,
}

impl<'a> Unseen<'a> {
    /// Returns whether the interface of a crossing should be compared with those of its device: it hasn't been yet, and
    /// the maximum isn't reached.
    fn is_to_compare(&mut self, out: &mut Explanation, crossing: &'a Crossing) -> bool {
        if self.compared.len() >= COMPARED || is_compared(self.compared.as_slice(), crossing) {
            return false;
        }
        if self.compared.push(crossing).is_err() {
            out.fall_short();
        }
        true
    }

    /// Writes the crossings of an unmetered path whose interfaces have no observation point, with the interfaces that
    /// have one.
    fn write_unmetered_path(
        &mut self,
        out: &mut Explanation,
        documents: &Documents<'_>,
        target: &Target<'a>,
    ) {
        write_path(out, documents, target);
        for crossing in target.crossings {
            let points = points_at(documents.plan, crossing);
            if !is_watched(points, &crossing.interface) {
                write_unwatched(out, documents, target, crossing);
                if self.is_to_compare(out, crossing) {
                    write_watched_interfaces(out, points, crossing.interface.as_str());
                } else {
                    out.end_line();
                }
            }
        }
    }

    /// Writes the crossings of a path whose interfaces have no observation point but a name similar to that of one that
    /// has. Counts the other crossings without an observation point.
    fn write_misspelled(
        &mut self,
        out: &mut Explanation,
        documents: &Documents<'_>,
        target: &Target<'a>,
    ) {
        for crossing in target.crossings {
            let points = points_at(documents.plan, crossing);
            if !is_watched(points, &crossing.interface) {
                self.write_nearest(out, documents, target, crossing);
            }
        }
    }

    /// Writes a crossing whose interface has no observation point if its name is similar to that of one that has, and
    /// counts it otherwise.
    fn write_nearest(
        &mut self,
        out: &mut Explanation,
        documents: &Documents<'_>,
        target: &Target<'a>,
        crossing: &'a Crossing,
    ) {
        let points = points_at(documents.plan, crossing);
        let mut nearest = None;
        if self.is_to_compare(out, crossing) {
            nearest = nearest_watched(out, points, crossing.interface.as_str());
        }
        match nearest {
            Some(name) => {
                write_unwatched(out, documents, target, crossing);
                out.text_quoted("; its device has one at ", name);
                out.sentence(": is the name misspelled?");
            }
            None => self.left_out = self.left_out.saturating_add(1),
        }
    }
}

/// Returns whether one of these crossings has the device and the interface of another.
fn is_compared(compared: &[&Crossing], crossing: &Crossing) -> bool {
    for one in compared {
        if one.device == crossing.device && one.interface == crossing.interface {
            return true;
        }
    }
    false
}

/// Writes that the interface of a crossing has no observation point.
fn write_unwatched(
    out: &mut Explanation,
    documents: &Documents<'_>,
    target: &Target<'_>,
    crossing: &Crossing,
) {
    write_class(out, documents, target.class, target.path);
    out.text(": at ");
    write_crossing(out, documents.plan, crossing);
    out.text(" the interface is at no observation point");
}

/// Writes that no observation point observes a crossing of a path, or that the path has no crossings.
fn write_path(out: &mut Explanation, documents: &Documents<'_>, target: &Target<'_>) {
    write_class(out, documents, target.class, target.path);
    out.sentence(if target.crossings.is_empty() {
        ": it has no crossing, so its packets pass no observation point"
    } else {
        ": no observation point sees any of its crossings"
    });
}

/// Writes what no observation point observes of the paths: those whose packets should be counted and that nothing
/// meters; crossings at interfaces whose name is similar to that of one with an observation point. Returns the number
/// of other crossings at interfaces without an observation point.
pub(crate) fn write_unseen(
    out: &mut Explanation,
    documents: &Documents<'_>,
    targets: &[Target<'_>],
) -> u64 {
    let mut unseen = Unseen {
        compared: Vec::new(out.alloc),
        left_out: 0,
    };
    for target in targets {
        if !target.exempt && !is_any_seen(documents.plan, target.crossings) {
            unseen.write_unmetered_path(out, documents, target);
        }
    }
    for target in targets {
        if target.exempt || is_any_seen(documents.plan, target.crossings) {
            unseen.write_misspelled(out, documents, target);
        }
    }
    unseen.left_out
}
