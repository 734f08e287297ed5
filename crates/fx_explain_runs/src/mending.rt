//! What to do about a refutation, by its cause.
use crate::dead_ends::write_lost;
use crate::holders::{write_arrival, write_expiry};
use crate::lineage::{Lineage, Sighting};
use crate::missing_fields::write_part;
use crate::refutations::arriving;
use crate::unmetered::write_unmetered_path;
use crate::ways::Ways;
use fx_base::entry_numbered;
use fx_collect::Totals;
use fx_config::{Direction, ObservationPoint};
use fx_elements::Axis;
use fx_explanation::{
    Documents, Explanation, between, class_name, selection_process, write_numbered,
};
use fx_layout::Part;
use fx_refute::Refutation;
use fx_run_text::Step;
use fx_tables::Packet;

/// The maximum number of places at which a packet is metered that are written.
const SHOWN: usize = 8;

/// The values of ipVersion.
const IPV4: u128 = 4;

const IPV6: u128 = 6;

/// A packet whose totals are wrong, its run, and the fate of its records there.
#[derive(Drop)]
struct Wrong<'a> {
    documents: &'a Documents<'a>,
    packet: &'a Packet,
    steps: &'a [Step],
    lineage: &'a Lineage<'a>,
    /// The index of the first step at which records go on to the report in more than one way.
    parting: Option<usize>,
}

impl Wrong<'_> {
    /// Writes where the packet was metered: the observation point, the crossing, the selection process and the cache.
    fn write_sighting(&self, out: &mut Explanation, sighting: &Sighting) {
        let crossings = self.documents.traffic.classes().path_of(self.packet);
        let Some(crossing) = entry_numbered(crossings, sighting.crossing) else {
            return;
        };
        let Some(device) = self.documents.plan.device(crossing.device) else {
            return;
        };
        let points = device.observation_points.as_slice();
        let Some(point) = entry_numbered(points, sighting.occurrence.point as u64) else {
            return;
        };
        out.text_quoted("observation point ", point.name.as_str());
        out.text(" at ");
        write_numbered(out, self.documents.plan, sighting.crossing, crossing);
        let number = sighting.occurrence.process as u64;
        if let Some(process) = selection_process(device, point, number) {
            out.text_quoted(", selection process ", process.name.as_str());
            if let Some(cache) = &process.cache {
                out.text_quoted(", cache ", cache.as_str());
            }
        }
    }

    /// Returns the observation point of a sighting.
    fn point_of(&self, sighting: &Sighting) -> Option<&ObservationPoint> {
        let crossings = self.documents.traffic.classes().path_of(self.packet);
        let crossing = entry_numbered(crossings, sighting.crossing)?;
        let device = self.documents.plan.device(crossing.device)?;
        let points = device.observation_points.as_slice();
        entry_numbered(points, sighting.occurrence.point as u64)
    }

    /// Writes that the first of these observation points that observes both directions perhaps should observe only one.
    /// Returns whether there is such a point.
    fn write_both_directions(&self, out: &mut Explanation, sightings: &[Sighting]) -> bool {
        for sighting in sightings {
            if let Some(point) = self.point_of(sighting) {
                if matches!(point.direction, Direction::Both) {
                    out.text_quoted("Give observation point ", point.name.as_str());
                    out.text(
                        ", which observes both directions, the one in which it is to count packets; or remove",
                    );
                    return true;
                }
            }
        }
        false
    }

    /// Writes the first places where the packet was metered, in one line.
    fn write_sightings(&self, out: &mut Explanation, sightings: &[Sighting]) {
        let shown = sightings.len().min(SHOWN);
        for index in 0..shown {
            out.text(between(index > 0, "; "));
            self.write_sighting(out, &sightings[index]);
        }
        if shown < sightings.len() {
            out.text_number("; and further ones: ", (sightings.len() - shown) as u64);
        }
        out.end_line();
    }

    /// Writes what to do about a packet that is metered once and whose record reaches the report more than once: the
    /// step at which it goes on in more than one way.
    fn write_parted(&self, out: &mut Explanation) {
        let Some(index) = self.parting else {
            return;
        };
        out.text(
            "Remove all but one of the ways by which the record goes on here (exporting processes, destinations, links or aggregations), and audit again: ",
        );
        let plan = self.documents.plan;
        match self.steps.get(index) {
            Some(
                Step::Expire {
                    holder,
                    choices,
                    ..
                },
            ) => write_expiry(out, plan, *holder, choices.as_slice()),
            Some(Step::Arrive { link, choices, .. }) => {
                write_arrival(out, plan, *link, choices.as_slice());
            }
            _ => {}
        }
    }

    /// Returns whether the same observation point metered the packet at both places.
    fn is_of_one_point(&self, first: &Sighting, second: &Sighting) -> bool {
        let crossings = self.documents.traffic.classes().path_of(self.packet);
        match (
            entry_numbered(crossings, first.crossing),
            entry_numbered(crossings, second.crossing),
        ) {
            (Some(one), Some(other)) => {
                one.device == other.device && first.occurrence.point == second.occurrence.point
            }
            _ => false,
        }
    }

    /// Writes what to do about a packet that is counted more than once.
    fn write_repeated(&self, out: &mut Explanation, sightings: &[Sighting]) {
        let [first, second, ..] = sightings else {
            self.write_parted(out);
            return;
        };
        let is_of_one = self.is_of_one_point(first, second);
        if !is_of_one && !self.write_both_directions(out, sightings) {
            out.text("Remove");
        }
        out.text(if !is_of_one {
            " all but one of these observation points from the path, make their selections disjoint with filters, or let the records of only one reach the report, for example by a match in an aggregation before it, and audit again: "
        } else if first.crossing == second.crossing {
            "Remove all but one of these selection processes, make their filters disjoint, or let the records of only one reach the report, and audit again: "
        } else {
            "One observation point sees the packet at more than one crossing: give it a direction, or remove an interface from it, and audit again: "
        });
        self.write_sightings(out, sightings);
    }

    /// Writes that packets of each IP version need their own report.
    fn write_version(&self, out: &mut Explanation, part: Part) {
        let is_ipv6 = self.packet.fields.get(Axis::Version) == IPV6;
        out.text(
            "Make a network document for each version of IP, with a report whose key its packets can have, and in each declare the \
classes of the other version exempt",
        );
        if self.is_of_both() {
            out.text(", after giving each class an ipVersion");
        }
        out.text(if is_ipv6 {
            ": IPv6 packets have no "
        } else {
            ": IPv4 packets have no "
        });
        write_part(out, part.axis, part.bits);
        out.sentence(", which the report's key has");
    }

    /// Returns whether the packet's class has packets of both IP versions.
    fn is_of_both(&self) -> bool {
        let classes = self.documents.traffic.classes().as_slice();
        match entry_numbered(classes, self.packet.class) {
            Some(class) => {
                let region = class.region();
                region.corner().get(Axis::Version) <= IPV4
                    && IPV6 <= region.far_corner().get(Axis::Version)
            }
            None => false,
        }
    }

    /// Writes what to do about a record that reaches the report without the report's key.
    fn write_unassigned(&self, out: &mut Explanation) {
        for holder in self.lineage.reported.as_slice() {
            let arrived = arriving(self.documents, self.packet, *holder);
            if let Some(part) = arrived.part_of_other_version() {
                self.write_version(out, part);
                return;
            }
            let after =
                ", a field of the report's key, among the flow keys (isFlowKey) of each cache and in the key of each aggregation on the way, or remove it from the report's key, and audit again: ";
            if arrived.write_unassigned(out, "Keep ", after) {
                write_expiry(out, self.documents.plan, *holder, &[]);
                return;
            }
        }
    }

    /// Writes what to do about the packet, given how often it is counted, and those of its sightings that reach the
    /// report.
    fn write(&self, out: &mut Explanation, sightings: &[Sighting], counted: u64) {
        if self.documents.traffic.classes().exempts(self.packet) {
            out.text(
                "Remove what counts the packet from its path, keep the packet out with a filter, give its class a region without the packets that must be counted, or don't declare the class exempt, and audit again: ",
            );
            self.write_sightings(out, sightings);
        } else if counted > 1 {
            self.write_repeated(out, sightings);
        } else if !self.lineage.reported.is_empty() {
            self.write_unassigned(out);
        } else if self.lineage.sightings.is_empty() {
            write_unmetered_path(out, self.documents, self.packet);
        } else {
            let lost = self.lineage.lost.as_slice();
            write_lost(out, self.documents, self.packet, self.steps, lost);
        }
    }
}

/// Returns the index of the first step at which there are several ways, if there is one.
fn first_parting(ways: &[usize]) -> Option<usize> {
    for index in 0..ways.len() {
        if ways[index] > 1 {
            return Some(index);
        }
    }
    None
}

/// Returns the number of packets that totals have for the report's key of a packet.
fn counted(documents: &Documents<'_>, packet: &Packet, totals: &Totals) -> u64 {
    let key = documents.plan.net().report_layout().key_of(&packet.fields);
    match totals.get(&key) {
        Some(counts) => counts.packets,
        None => 0,
    }
}

/// Writes in one line how a packet is counted whose totals are wrong.
fn write_verdict(out: &mut Explanation, wrong: &Wrong<'_>, counted: u64) {
    let packet = wrong.packet;
    out.text_number("verdict: a packet of class ", packet.class);
    out.text_quoted(" ", class_name(wrong.documents, packet.class));
    out.text_number(" on path ", packet.path);
    let is_exempt = wrong.documents.traffic.classes().exempts(packet);
    if is_exempt && counted > 0 {
        out.sentence(" is counted, and its class is exempt");
    } else if is_exempt {
        out.sentence(
            " isn't counted, but a record of it is unassigned at the report, and its class is exempt",
        );
    } else if counted > 1 {
        out.text_number(" is counted ", counted);
        out.sentence(" times instead of once");
    } else if counted == 1 {
        out.sentence(
            " is counted once, and another record of it reaches the report without a field of the report's key, and is unassigned",
        );
    } else if !wrong.lineage.reported.is_empty() {
        out.sentence(
            " isn't counted: its record reaches the report without a field of the report's key, and is unassigned",
        );
    } else if wrong.lineage.sightings.is_empty() {
        out.sentence(" isn't counted: nothing meters it on its path");
    } else {
        out.sentence(" isn't counted: its records don't reach the report");
    }
}

/// Writes how a packet is counted whose totals are wrong, and what to do about it, given the ways of its records to the
/// report.
fn write_along(out: &mut Explanation, wrong: &Wrong<'_>, ways: &Ways, counted: u64) {
    let sightings = wrong.lineage.reported_sightings(ways);
    let Some(sightings) = out.unless_short(sightings) else {
        return;
    };
    write_verdict(out, wrong, counted);
    out.text("what to do: ");
    wrong.write(out, sightings.as_slice(), counted);
}

/// Writes how the packet of a refutation is counted, given the totals of its run and the fate of its records, and what
/// to do about it.
pub(crate) fn write_mending(
    out: &mut Explanation,
    documents: &Documents<'_>,
    refutation: &Refutation,
    lineage: &Lineage<'_>,
    ran: &Totals,
) {
    let packet = refutation.packet();
    let ways = lineage.ways();
    let Some(ways) = out.unless_short(ways) else {
        return;
    };
    let wrong = Wrong {
        documents,
        packet,
        steps: refutation.steps(),
        lineage,
        parting: first_parting(ways.steps.as_slice()),
    };
    write_along(out, &wrong, &ways, counted(documents, packet, ran));
}
