//! Explaining what an answer of totals over a stream leaves out.
ghost use Rattle.std.specs.Prelude.{◌≡◌, ◌⊎◌, IfErr, OnOk};
ghost use Rattle.fx_base.specs.Device.{IsWriteFault, KeepsGoing};
ghost use Rattle.fx_base.specs.Fault.{IsMemory};
ghost use Rattle.fx_explanation.specs.Explanations.{WritesExplanation};

use crate::declarations::Declared;
use crate::doubts::{Amount, Doubts, PointAmounts, SAMPLING_PROBABILITY, Sampled};
use crate::key_fields::{first_unsaid, has, is_of_other_version};
use crate::stream_watch::{Gap, StreamWatch};
use fx_base::{Fault, Sink, put_text};
use fx_elements::{Element, width};
use fx_explanation::{Explanation, write_element};
use fx_layout::Part;
use fx_wire::{FieldSpecifier, TemplateKind};

/// The maximum number of templates that are listed.
const LISTED: usize = 20;

/// Adds a message whose sequence number isn't the expected one.
fn put_gap(out: &mut Explanation, gap: &Gap) {
    let found = gap.message.sequence;
    out.text_number("gap: message ", gap.message.number);
    out.text_number(" of the stream, from octet ", gap.message.place);
    out.text_number(" on, observation domain ", u64::from(gap.message.domain));
    out.text_number(": its sequence number is ", u64::from(found));
    out.text_number(", expected: ", u64::from(gap.due));
    let missing = found.wrapping_sub(gap.due);
    if missing < 0x8000_0000 {
        out.text_number(
            "; data records that are missing before it: ",
            u64::from(missing),
        );
        out.end_line();
    } else {
        out.sentence(
            "; the number went back: the message came late or twice, or its exporter restarted",
        );
    }
}

/// Adds the first gaps, and the number of others.
fn put_gaps(out: &mut Explanation, watch: &StreamWatch) {
    for gap in watch.first_gaps.as_slice() {
        put_gap(out, gap);
    }
    let further = watch.gaps.saturating_sub(watch.first_gaps.len() as u64);
    if further > 0 {
        out.text_number("further gaps: ", further);
        out.end_line();
    }
}

/// Returns the counters that a template lacks, if any.
fn lacking_counters(fields: &[FieldSpecifier]) -> Option<&'static str> {
    let has_octets = has(fields, Element::OctetDeltaCount);
    let has_packets = has(fields, Element::PacketDeltaCount);
    match (has_octets, has_packets) {
        (true, true) => None,
        (false, true) => Some("octetDeltaCount"),
        (true, false) => Some("packetDeltaCount"),
        (false, false) => Some("octetDeltaCount and packetDeltaCount"),
    }
}

/// Adds the field of a part of the report's key.
fn put_wanted(out: &mut Explanation, wanted: &Part) {
    let field = FieldSpecifier {
        element: wanted.axis.element_number(),
        field_length: 0,
        enterprise: None,
    };
    write_element(out, &field);
    if wanted.bits < width(wanted.axis) {
        out.text_number(", or its prefix of bits: ", u64::from(wanted.bits));
        out.text(", with the prefix's length");
    }
}

/// Adds a template, and where it is declared.
fn put_template(out: &mut Explanation, declared: &Declared) {
    out.text_number("template ", u64::from(declared.id));
    out.text_number(" of observation domain ", u64::from(declared.at.domain));
    out.text_number(", which message ", declared.at.message);
    out.text_number(" declares at octet ", declared.at.place);
}

/// Adds a text, the number of records after it, and how many packets and octets they count.
fn put_amount(out: &mut Explanation, before: &'static str, amount: &Amount) {
    out.text_number(before, amount.records);
    out.text_number(" (packets ", amount.packets);
    out.text_number(", octets ", amount.octets);
    out.text(")");
}

/// Adds an observation point with records of both directions.
fn put_both_directions(out: &mut Explanation, amounts: &PointAmounts) {
    if amounts.ingress.records == 0 || amounts.egress.records == 0 {
        return;
    }
    out.text_number("doubtful: observation domain ", u64::from(amounts.domain));
    out.text_number(", observation point ", amounts.point);
    put_amount(out, ": records of flowDirection ingress ", &amounts.ingress);
    put_amount(out, ", egress ", &amounts.egress);
    out.sentence(
        ": a packet that the point sees coming in and going out is in the totals twice; have the exporter observe one direction",
    );
}

/// Adds a template whose records say that packets were sampled.
fn put_sampled(out: &mut Explanation, sampled: &Sampled) {
    let field = FieldSpecifier {
        element: sampled.element,
        field_length: 0,
        enterprise: None,
    };
    out.text_number(
        "doubtful: packets were sampled: records of template ",
        u64::from(sampled.id),
    );
    out.text_number(" of observation domain ", u64::from(sampled.domain));
    out.text(" say ");
    write_element(out, &field);
    if sampled.element != SAMPLING_PROBABILITY {
        out.text_number(" ", sampled.value);
    }
    out.sentence(": the totals are those of the sample, and aren't scaled up");
}

/// Adds what is doubtful in the records that are included in the totals.
fn put_doubts(out: &mut Explanation, doubts: &Doubts) {
    for amounts in doubts.points() {
        put_both_directions(out, amounts);
    }
    for sampled in doubts.sampled() {
        put_sampled(out, sampled);
    }
}

/// Adds the export times of the first and the last message.
fn put_export_times(out: &mut Explanation, watch: &StreamWatch) {
    if let Some((first, last)) = watch.export_times {
        out.text_number("messages: ", watch.message.number);
        out.text(", exported from ");
        out.time(first);
        out.text(" to ");
        out.time(last);
        out.end_line();
    }
}

/// Adds which fields of the report's key the records of a template lack.
fn put_unassigned(out: &mut Explanation, key: &[Part], declared: &Declared) {
    let fields = declared.fields.as_slice();
    put_amount(out, "unassigned: ", &declared.left_out);
    out.text(" of ");
    put_template(out, declared);
    let Some(wanted) = first_unsaid(fields, key) else {
        out.sentence(": their prefixes have fewer bits than the report's key");
        return;
    };
    out.text(": it lacks ");
    put_wanted(out, wanted);
    out.sentence(if is_of_other_version(fields, wanted.axis) {
        ", which the report's key has; its flows are of the other version of IP, and want a report of their own"
    } else {
        ", a field of the report's key; configure the exporter to send it, or remove it from the report's key"
    });
}

/// Adds what the records of a template lack. Returns whether they lack anything.
fn put_lacking(out: &mut Explanation, key: &[Part], declared: &Declared) -> bool {
    if declared.kind == TemplateKind::Options || declared.records == 0 {
        return false;
    }
    if let Some(counters) = lacking_counters(declared.fields.as_slice()) {
        put_amount(out, "skipped: ", &declared.left_out);
        out.text(" of ");
        put_template(out, declared);
        out.text(": it lacks ");
        out.text(counters);
        out.sentence("; have the exporter send both counters");
        return true;
    }
    if declared.left_out.records > 0 {
        put_unassigned(out, key, declared);
        return true;
    }
    false
}

/// Adds what the records of templates lack, for the first 20 that lack anything.
fn put_templates(out: &mut Explanation, watch: &StreamWatch) {
    let mut listed: usize = 0;
    for declared in watch.declarations.as_slice() {
        if listed < LISTED && put_lacking(out, watch.key.as_slice(), declared) {
            listed = listed.saturating_add(1);
        }
    }
    if listed >= LISTED {
        out.sentence("Further templates aren't listed.");
    }
    if watch.declarations.is_full() {
        out.sentence(
            "The stream has more templates than are kept here: what later ones lack isn't listed.",
        );
    }
}

/// Adds what was observed that the totals over the stream leave out.
fn put_counted(out: &mut Explanation, watch: &StreamWatch) {
    if watch.message.number == 0 {
        out.sentence(
            "The stream is empty: it has no message. Check that it is the right file, and that the exporter sends to this address and port; some exporters send their first message, with the templates, only after minutes.",
        );
        return;
    }
    if !watch.has_flows {
        out.text_number(
            "no data record of flows is in the stream; messages: ",
            watch.message.number,
        );
        out.end_line();
    }
    put_gaps(out, watch);
    put_templates(out, watch);
    put_doubts(out, &watch.doubts);
    put_export_times(out, watch);
}

/// Explains in sentences what the totals over an IPFIX stream leave out: the first three messages whose sequence number
/// isn't the expected one in their observation domain, with both numbers, and the number of others; the first 20
/// templates whose records lack a field of the report's key, or a counter, with that field, the number of records, and
/// how many packets and octets those count; observation points whose records in the totals are of both directions
/// (flowDirection), and templates whose records say that packets were sampled; that a stream has no messages, or no
/// data records of flows; and the export times of its first and last message. The text has no control characters but
/// line feeds.
///
/// Fails with 900, with nothing written, if this or the observer ran out of memory, and with 902 if a write fails.
pub fn put_left_out<S: Sink>(watch: &StreamWatch, sink: &mut S) -> Result<(), Fault>
    ensures ok { OnOk result (WritesExplanation (S.taken sink.old) (S.taken sink.new)) }
    ensures going { OnOk result (KeepsGoing (S.failed sink.old) (S.failed sink.new)) }
    ensures err { IfErr result (λ e. (IsMemory e × (sink.new ≡ sink.old))
        ⊎ IsWriteFault (S.failed sink.new) e) }
{
    let mut out = watch.begin_explanation();
    put_counted(&mut out, watch);
    put_text(sink, out.octets()?)
}
