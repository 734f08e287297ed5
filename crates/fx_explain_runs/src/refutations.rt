//! Explaining the run of a refutation.
ghost use Rattle.std.specs.Prelude.{◌≡◌, ◌⊎◌, IfErr, OnOk};
ghost use Rattle.fx_base.specs.Device.{IsWriteFault, KeepsGoing};
ghost use Rattle.fx_base.specs.Fault.{IsMemory};
ghost use Rattle.fx_collect.specs.Report.{KeysAscend};
ghost use Rattle.fx_explanation.specs.Explanations.{WritesExplanation};

use crate::holders::leads_to_report;
use crate::left_over::write_undone;
use crate::lineage::Lineage;
use crate::mending::write_mending;
use crate::missing_fields::Arriving;
use crate::steps::{write_packet, write_step};
use fx_base::{Fault, Room, Sink, entry_numbered, put_text, refusals};
use fx_collect::Totals;
use fx_explanation::{Documents, Explanation, unless_refused};
use fx_machine::State;
use fx_refute::{Refutation, confirm};
use fx_run_text::Step;
use fx_tables::{HolderName, Packet};
use std::alloc::Global;

/// Returns a record of a packet that comes from this cache or aggregation, as it arrives.
pub(crate) fn arriving<'a>(
    documents: &'a Documents<'a>,
    packet: &'a Packet,
    holder: HolderName,
) -> Arriving<'a> {
    let plan = documents.plan;
    Arriving {
        plan,
        origin: plan.net().holder_place(holder).unwrap_or(usize::MAX),
        fields: &packet.fields,
    }
}

/// Writes why the record that arrives at a step isn't tallied or aggregated, if it isn't.
fn write_lacking(
    out: &mut Explanation,
    documents: &Documents<'_>,
    packet: &Packet,
    lineage: &Lineage<'_>,
    step: &Step,
) {
    if let Step::Arrive { link, position, .. } = step {
        if let Some(sent) = lineage.sent(*link, *position) {
            arriving(documents, packet, sent.holder).write(out, *link);
        }
    }
}

/// Makes the steps of a packet's run, and writes each in a sentence with its number.
fn write_steps(
    out: &mut Explanation,
    documents: &Documents<'_>,
    packet: &Packet,
    steps: &[Step],
    lineage: &mut Lineage<'_>,
) {
    for index in 0..steps.len() {
        let step = &steps[index];
        out.number(index as u64 + 1);
        out.text(". ");
        write_step(out, documents, &[*packet], step);
        write_lacking(out, documents, packet, lineage, step);
        lineage.take(out, step);
    }
}

/// Returns whether a record reaches the collecting process of the report at a step.
fn is_reported(documents: &Documents<'_>, step: &Step) -> bool {
    let Step::Arrive { link, .. } = step else {
        return false;
    };
    let network = documents.plan.network();
    match entry_numbered(network.links.as_slice(), *link) {
        Some(link) => leads_to_report(&network.report, link),
        None => false,
    }
}

/// Writes at which steps a record reaches the report.
fn write_reported(out: &mut Explanation, documents: &Documents<'_>, steps: &[Step]) {
    let mut shown = false;
    for index in 0..steps.len() {
        if is_reported(documents, &steps[index]) {
            let before = if shown {
                ", and at step "
            } else {
                "a record reaches the report at step "
            };
            out.text_number(before, index as u64 + 1);
            shown = true;
        }
    }
    if !shown {
        out.text("no record reaches the report");
    }
    out.end_line();
}

/// Writes totals in the form of reports.
fn write_totals(out: &mut Explanation, totals: &Totals)
    requires { KeysAscend totals.now.entries }
{
    let mut octets = [0; 4096];
    let mut room = Room::new(&mut octets);
    // What doesn't fit in the buffer is left out.
    let _written = totals.put_report(&mut room);
    out.lines_of(room.octets());
}

/// Writes how the packet of a refutation is counted and what to do about it, then the given text of its run, the run's
/// totals, and the plain sums.
fn write_compared(
    out: &mut Explanation,
    documents: &Documents<'_>,
    refutation: &Refutation,
    lineage: &Lineage<'_>,
    run: &Explanation,
    totals: (&mut Totals, &mut Totals),
) {
    let (ran, plain) = totals;
    if let Err(_) = ran.sort() {
        out.fall_short();
        return;
    }
    if let Err(_) = plain.sort() {
        out.fall_short();
        return;
    }
    write_mending(out, documents, refutation, lineage, ran);
    out.all_of(run);
    out.sentence("in the end the collector holds");
    write_totals(out, ran);
    out.sentence("and it should hold");
    write_totals(out, plain);
}

/// Writes the packet of a refutation, its steps, and at which of them a record reaches the report.
fn write_run(
    out: &mut Explanation,
    documents: &Documents<'_>,
    refutation: &Refutation,
    lineage: &mut Lineage<'_>,
) {
    let packet = refutation.packet();
    write_packet(out, documents, packet);
    write_steps(out, documents, packet, refutation.steps(), lineage);
    write_reported(out, documents, refutation.steps());
}

/// Writes the run of a refutation.
fn write_run_alone(out: &mut Explanation, documents: &Documents<'_>, refutation: &Refutation) {
    if let Some(mut lineage) = Lineage::new(out, documents, refutation.packet()) {
        write_run(out, documents, refutation, &mut lineage);
    }
}

/// Writes the run of a refutation that isn't confirmed although each of its steps can be made, and what it leaves
/// undone if it isn't complete (504).
pub(crate) fn write_unconfirmed(
    out: &mut Explanation,
    documents: &Documents<'_>,
    refutation: &Refutation,
    number: u16,
    last: &State<'_>,
) {
    write_run_alone(out, documents, refutation);
    if number == refusals::RUN_NOT_COMPLETE {
        write_undone(out, documents, last);
    }
}

/// Writes a refutation over the documents.
pub(crate) fn write_refutation(
    out: &mut Explanation,
    documents: &Documents<'_>,
    refutation: &Refutation,
) {
    let Some(mut lineage) = Lineage::new(out, documents, refutation.packet()) else {
        return;
    };
    let mut run = Explanation::new(out.alloc);
    write_run(&mut run, documents, refutation, &mut lineage);
    let confirmed = confirm(out.alloc, documents.plan, documents.traffic, refutation);
    match unless_refused(out, confirmed) {
        Some((mut ran, mut plain)) => {
            let totals = (&mut ran, &mut plain);
            write_compared(out, documents, refutation, &lineage, &run, totals);
        }
        None => out.all_of(&run),
    }
}

/// Explains a refutation in sentences. If it is confirmed, writes first how its packet is counted and what to do about
/// that. Then writes its packet, with its class by name and its fields that aren't 0; each step with the names of what
/// it refers to, and what the key of a record lacks that remains unassigned or that an aggregation doesn't accept; at
/// which steps a record reaches the report; and, if it is confirmed, the totals of its run and the expected ones. The
/// text has no control characters but line feeds.
///
/// Fails with 900 if out of memory, and then nothing is written, and with 902 if a write fails.
pub fn put_refutation_story<S: Sink>(
    alloc: Global,
    documents: &Documents<'_>,
    refutation: &Refutation,
    sink: &mut S,
) -> Result<(), Fault>
    ensures ok { OnOk result (WritesExplanation (S.taken sink.old) (S.taken sink.new)) }
    ensures going { OnOk result (KeepsGoing (S.failed sink.old) (S.failed sink.new)) }
    ensures err { IfErr result (λ e. (IsMemory e × (sink.new ≡ sink.old))
        ⊎ IsWriteFault (S.failed sink.new) e) }
{
    let mut out = Explanation::new(alloc);
    write_refutation(&mut out, documents, refutation);
    put_text(sink, out.octets()?)
}

/// Explains in sentences a refutation that is refused with 504 or 505: its packet and its steps, as
/// [`put_refutation_story`] does, and for 504 what remains after the last step. The text has no control characters but
/// line feeds.
///
/// Fails with 900 if out of memory, and then nothing is written, and with 902 if a write fails.
pub fn put_unconfirmed_refutation<S: Sink>(
    alloc: Global,
    documents: &Documents<'_>,
    refutation: &Refutation,
    number: u16,
    last: &State<'_>,
    sink: &mut S,
) -> Result<(), Fault>
    ensures ok { OnOk result (WritesExplanation (S.taken sink.old) (S.taken sink.new)) }
    ensures going { OnOk result (KeepsGoing (S.failed sink.old) (S.failed sink.new)) }
    ensures err { IfErr result (λ e. (IsMemory e × (sink.new ≡ sink.old))
        ⊎ IsWriteFault (S.failed sink.new) e) }
{
    let mut out = Explanation::new(alloc);
    write_unconfirmed(&mut out, documents, refutation, number, last);
    put_text(sink, out.octets()?)
}
