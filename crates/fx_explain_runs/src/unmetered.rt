//! What to do about a packet that nothing meters on its path.
use fx_base::entry_at;
use fx_elements::Axis;
use fx_explanation::{Documents, Explanation, between, write_class, write_numbered};
use fx_tables::{Crossing, Packet, Point, Selection};

/// The maximum number of crossings that are written.
const SHOWN: usize = 8;

/// Writes the observation points that observe a crossing.
fn write_watchers(out: &mut Explanation, documents: &Documents<'_>, crossing: &Crossing) {
    let mut shown = false;
    let points = documents.plan.net().points_of(crossing.device);
    let Some(device) = documents.plan.device(crossing.device) else {
        return;
    };
    for index in 0..points.len() {
        if points[index].watches(crossing) {
            if let Some(named) = entry_at(device.observation_points.as_slice(), index) {
                out.text_quoted(between(shown, " and "), named.name.as_str());
                shown = true;
            }
        }
    }
    out.text(if shown {
        " sees it, and none of its selection processes with a cache selects it"
    } else {
        "no observation point sees it"
    });
}

/// Writes what observes the first crossings of a path.
fn write_crossings_of(out: &mut Explanation, documents: &Documents<'_>, crossings: &[Crossing]) {
    let shown = crossings.len().min(SHOWN);
    for index in 0..shown {
        out.text(between(index > 0, "; "));
        write_numbered(out, documents.plan, index as u64 + 1, &crossings[index]);
        out.text(": ");
        write_watchers(out, documents, &crossings[index]);
    }
    if shown < crossings.len() {
        out.text_number(
            "; and further crossings: ",
            (crossings.len() - shown) as u64,
        );
    }
}

/// Returns whether a selection selects only packets of other IP versions than this one.
fn is_of_others(selection: &Selection, version: u128) -> bool {
    match &selection.region {
        Some(region) => {
            version < region.corner().get(Axis::Version)
                || region.far_corner().get(Axis::Version) < version
        }
        None => false,
    }
}

/// Returns whether a selection process of a point selects only packets of other IP versions than this one.
fn has_others(point: &Point, version: u128) -> bool {
    for selection in point.selections() {
        if is_of_others(selection, version) {
            return true;
        }
    }
    false
}

/// Returns whether a selection process of a point that observes a crossing selects only packets of other IP versions
/// than this one.
fn passes_over(documents: &Documents<'_>, crossing: &Crossing, version: u128) -> bool {
    for point in documents.plan.net().points_of(crossing.device) {
        if has_others(point, version) && point.watches(crossing) {
            return true;
        }
    }
    false
}

/// Writes that a packet is neither IPv4 nor IPv6, if that is why a point at one of these crossings doesn't meter it.
fn write_version(
    out: &mut Explanation,
    documents: &Documents<'_>,
    packet: &Packet,
    crossings: &[Crossing],
) {
    let version = packet.fields.get(Axis::Version);
    if version == 4 || version == 6 {
        return;
    }
    for crossing in crossings {
        if passes_over(documents, crossing, version) {
            out.text(
                "; the packet is neither of IPv4 nor of IPv6: where there are no such packets, name ipVersion in its class's region",
            );
            return;
        }
    }
}

/// Writes what to do about a packet that nothing meters.
pub(crate) fn write_unmetered_path(
    out: &mut Explanation,
    documents: &Documents<'_>,
    packet: &Packet,
) {
    let crossings = documents.traffic.classes().path_of(packet);
    if crossings.is_empty() {
        out.text(
            "Name the crossings that its packets make, or declare the class exempt if they must not be counted, and audit again: ",
        );
        write_class(out, documents, packet.class, packet.path);
        out.sentence(" has no crossing");
        return;
    }
    out.text(
        "Have a selection process with a cache select the packet at a crossing: correct the name of an interface, widen a filter (which may count packets of another path there a second time), or add a cache or an observation point; or declare its class exempt if it must not be counted; then audit again: ",
    );
    write_crossings_of(out, documents, crossings);
    write_version(out, documents, packet, crossings);
    out.end_line();
}
