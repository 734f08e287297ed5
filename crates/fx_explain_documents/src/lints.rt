//! What is accepted without a message in documents, in sentences.
ghost use Rattle.std.specs.Prelude.{◌≡◌, ◌⊎◌, IfErr, OnOk};
ghost use Rattle.fx_base.specs.Device.{IsWriteFault, KeepsGoing};
ghost use Rattle.fx_base.specs.Fault.{IsMemory};
ghost use Rattle.fx_explanation.specs.Explanations.{WritesExplanation};

use crate::directions::write_directions;
use crate::excluding::write_excluding;
use crate::overlapping::write_overlapping;
use crate::prefixes::{write_prefixes, write_prefixes_of_classes};
use crate::scanning::write_twice;
use crate::unobserved::write_unseen;
use crate::unread::{write_unread_fields, write_unread_members};
use crate::unused::write_unused;
use fx_base::{Fault, Sink, put_text};
use fx_explanation::{Documents, Explanation, class_name, unless_refused, value_of_document};
use fx_plan::Plan;
use fx_traffic::Target;
use std::alloc::Global;

/// Writes which classes are exempt.
fn write_exempt(out: &mut Explanation, documents: &Documents<'_>) {
    let classes = documents.traffic.classes().as_slice();
    for index in 0..classes.len() {
        if classes[index].exempt() {
            let number = index as u64 + 1;
            out.text_number("traffic: class ", number);
            out.text_quoted(" ", class_name(documents, number));
            out.sentence(" is exempt: none of its packets may be counted");
        }
    }
}

/// Writes the number of crossings at interfaces without an observation point, besides those that were written.
fn write_left_out(out: &mut Explanation, left_out: u64) {
    if left_out > 0 {
        out.text_number(
            "traffic: other crossings at interfaces of no observation point, on paths that are metered elsewhere or are exempt: ",
            left_out,
        );
        out.end_line();
    }
}

/// Writes which crossings of paths no observation point observes, or none in their direction. Returns the number of
/// those that aren't written.
fn write_targets(out: &mut Explanation, documents: &Documents<'_>, targets: &[Target<'_>]) -> u64 {
    let left_out = write_unseen(out, documents, targets);
    write_directions(out, documents, targets);
    left_out
}

/// Writes what is doubtful in a traffic declaration, and then what is merely worth knowing.
fn write_declared(out: &mut Explanation, octets: &[u8], documents: &Documents<'_>) {
    write_twice(out, "traffic", octets);
    if documents.traffic.classes().as_slice().is_empty() {
        out.sentence("traffic: it declares no class, so an answer is about no packet");
    }
    if let Some(value) = value_of_document(out, octets) {
        write_prefixes_of_classes(out, &value);
    }
    write_overlapping(out, documents);
    let mut left_out = 0;
    let targets = documents.traffic.targets(out.alloc);
    if let Some(targets) = unless_refused(out, targets) {
        left_out = write_targets(out, documents, targets.as_slice());
    }
    write_exempt(out, documents);
    write_left_out(out, left_out);
}

/// Explains in sentences what is accepted without a message in a network document: members that appear twice in an
/// object, of which the last one counts; members that aren't read; fields of caches whose elements are misspelled;
/// prefixes whose address has bits after its length; observation points, selection processes, caches, destinations and
/// aggregations that lead nowhere; caches without a flow key; caches and collecting processes that nothing feeds;
/// selection processes whose filters exclude each other. Writes nothing if there is nothing of the kind. The text has
/// no control characters but line feeds.
///
/// Fails with 900 if out of memory, and then nothing is written, and with 902 if a write fails.
pub fn put_network_notes<S: Sink>(
    alloc: Global,
    octets: &[u8],
    plan: &Plan,
    sink: &mut S,
) -> Result<(), Fault>
    ensures ok { OnOk result (WritesExplanation (S.taken sink.old) (S.taken sink.new)) }
    ensures going { OnOk result (KeepsGoing (S.failed sink.old) (S.failed sink.new)) }
    ensures err { IfErr result (λ e. (IsMemory e × (sink.new ≡ sink.old))
        ⊎ IsWriteFault (S.failed sink.new) e) }
{
    let mut out = Explanation::new(alloc);
    write_twice(&mut out, "network", octets);
    if let Some(value) = value_of_document(&mut out, octets) {
        write_unread_members(&mut out, &value);
        write_unread_fields(&mut out, &value);
        write_prefixes(&mut out, &value);
    }
    write_unused(&mut out, plan);
    write_excluding(&mut out, plan);
    put_text(sink, out.octets()?)
}

/// Explains in sentences what is accepted without a message in a traffic declaration. What is doubtful comes first:
/// members that appear twice in an object; a declaration without classes; prefixes whose address has bits after its
/// length; classes that overlap; paths that should be counted and of which no observation point observes a crossing,
/// with the interfaces that have one; crossings at interfaces whose name is similar to that of one with an observation
/// point; observation points that observe only the other direction. Then come the exempt classes, and the number of
/// other crossings at interfaces without an observation point. Writes nothing if there is nothing of the kind. The text
/// has no control characters but line feeds.
///
/// Fails with 900 if out of memory, and then nothing is written, and with 902 if a write fails.
pub fn put_traffic_notes<S: Sink>(
    alloc: Global,
    octets: &[u8],
    documents: &Documents<'_>,
    sink: &mut S,
) -> Result<(), Fault>
    ensures ok { OnOk result (WritesExplanation (S.taken sink.old) (S.taken sink.new)) }
    ensures going { OnOk result (KeepsGoing (S.failed sink.old) (S.failed sink.new)) }
    ensures err { IfErr result (λ e. (IsMemory e × (sink.new ≡ sink.old))
        ⊎ IsWriteFault (S.failed sink.new) e) }
{
    let mut out = Explanation::new(alloc);
    write_declared(&mut out, octets, documents);
    put_text(sink, out.octets()?)
}
