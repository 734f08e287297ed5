//! Steps of runs in sentences.
use crate::holders::{write_arrival, write_expiry};
use crate::packets::{write_fields, write_missing};
use crate::passing::write_unmetered;
use fx_base::entry_numbered;
use fx_config::Device;
use fx_explanation::{Documents, Explanation, selection_process, write_class, write_crossing};
use fx_plan::Plan;
use fx_run_text::Step;
use fx_tables::{Crossing, Occurrence, Packet};

/// Writes a packet: its class and its path, its fields that aren't 0, and its octets.
pub(crate) fn write_packet(out: &mut Explanation, documents: &Documents<'_>, packet: &Packet) {
    out.text("the packet: ");
    write_class(out, documents, packet.class, packet.path);
    if documents.traffic.classes().exempts(packet) {
        out.text(" (exempt: it must not be counted)");
    }
    write_fields(out, ", ", &packet.fields, packet.octets);
}

/// Writes where a packet is metered: the observation point, the selection process and the cache.
fn write_occurrence(out: &mut Explanation, device: &Device, occurrence: &Occurrence) {
    let points = device.observation_points.as_slice();
    let Some(point) = entry_numbered(points, occurrence.point as u64) else {
        return;
    };
    let Some(process) = selection_process(device, point, occurrence.process as u64) else {
        return;
    };
    if let Some(cache) = &process.cache {
        out.text_quoted("observation point ", point.name.as_str());
        out.text_quoted(", selection process ", process.name.as_str());
        out.text_quoted(": cache ", cache.as_str());
        out.text(" holds a record of it");
    }
}

/// Writes the caches at which a packet is metered.
fn write_occurrences(out: &mut Explanation, plan: &Plan, device: u64, occurrences: &[Occurrence]) {
    let Some(device) = plan.device(device) else {
        return;
    };
    let mut separator = ": ";
    for occurrence in occurrences {
        out.text(separator);
        write_occurrence(out, device, occurrence);
        separator = "; ";
    }
}

/// Writes that the packet with this number makes a crossing, and where it is metered.
fn write_metering(
    out: &mut Explanation,
    plan: &Plan,
    number: u64,
    packet: &Packet,
    crossing: &Crossing,
) {
    out.text_number("packet ", number);
    out.text(" crosses ");
    write_crossing(out, plan, crossing);
    let occurrences = plan.net().occurrences(out.alloc, crossing, &packet.fields);
    if let Some(occurrences) = out.unless_short(occurrences) {
        write_occurrences(out, plan, crossing.device, occurrences.as_slice());
        if occurrences.as_slice().is_empty() {
            write_unmetered(out, plan, crossing, &packet.fields);
        }
    }
    out.end_line();
}

/// Writes a step at which a packet makes a crossing.
fn write_crossing_made(
    out: &mut Explanation,
    documents: &Documents<'_>,
    packets: &[Packet],
    number: u64,
    crossing: u64,
) {
    let Some(packet) = entry_numbered(packets, number) else {
        write_missing(out, "there is no packet ", number, packets.len());
        return;
    };
    let crossings = documents.traffic.classes().path_of(packet);
    match entry_numbered(crossings, crossing) {
        Some(made) => write_metering(out, documents.plan, number, packet, made),
        None => write_missing(
            out,
            "the packet's path has no crossing ",
            crossing,
            crossings.len(),
        ),
    }
}

/// Writes a step of a run over these packets.
pub(crate) fn write_step(
    out: &mut Explanation,
    documents: &Documents<'_>,
    packets: &[Packet],
    step: &Step,
) {
    match step {
        Step::Cross {
            packet,
            crossing,
            choices: _,
        } => write_crossing_made(out, documents, packets, *packet, *crossing),
        Step::Expire {
            holder,
            position: _,
            choices,
        } => write_expiry(out, documents.plan, *holder, choices.as_slice()),
        Step::Arrive {
            link,
            position: _,
            choices,
        } => write_arrival(out, documents.plan, *link, choices.as_slice()),
    }
}
