//! Explaining why a run over a capture is refused at a line of its schedule, or after the last.
ghost use Rattle.std.specs.Prelude.{◌≡◌, ◌⊎◌, IfErr, OnOk};
ghost use Rattle.fx_base.specs.Device.{IsWriteFault, KeepsGoing};
ghost use Rattle.fx_base.specs.Fault.{IsMemory};
ghost use Rattle.fx_explanation.specs.Explanations.{WritesExplanation};

use crate::lines::write_line;
use crate::nothing_there::write_nothing_there;
use crate::packets::{write_fields, write_named_class, write_no_class};
use fx_base::{Fault, Line, Place, Sink, put_text, refusals};
use fx_boxes::Fields;
use fx_elements::{Words, is_word};
use fx_explanation::{Documents, Explanation, class_name};
use fx_pcap::{Frame, Skipped};
use fx_tables::Class;
use std::alloc::Global;

/// Returns the class and the path in a line after its first word.
fn named_in(words: Words<'_>) -> Option<(u64, u64)> {
    let (class, words) = words.number()?;
    let (path, _words) = words.number()?;
    Some((class, path))
}

/// Returns the class and the path in a line `next`, if it has them.
fn named_by(line: &Line<'_>) -> Option<(u64, u64)> {
    let (kind, words) = Words::new(line.bytes).word()?;
    if !is_word(kind, b"next") {
        return None;
    }
    named_in(words)
}

/// Returns the index of the first class that contains a packet, if there is one.
fn first_class(classes: &[Class], fields: &Fields) -> Option<usize> {
    for index in 0..classes.len() {
        if classes[index].holds(fields) {
            return Some(index);
        }
    }
    None
}

/// Writes which class a line `next` without arguments would choose for a packet.
fn write_first_class(out: &mut Explanation, documents: &Documents<'_>, fields: &Fields) {
    let classes = documents.traffic.classes().as_slice();
    match first_class(classes, fields) {
        Some(index) => {
            let number = (index as u64).saturating_add(1);
            out.text_number("the first class that holds the packet is ", number);
            out.text_quoted(" ", class_name(documents, number));
            out.end_line();
        }
        None => out.sentence(
            "no class of the traffic holds the packet: add a last class without a region, which holds all other packets, with \
the paths that they take, or filter the capture",
        ),
    }
}

/// Explains why the last packet is in no class, or not in the named one.
fn write_packet(
    out: &mut Explanation,
    documents: &Documents<'_>,
    seen: &Frame<'_>,
    numbers: (u64, u64),
    named: Option<(u64, u64)>,
) {
    let (packet, frame) = numbers;
    out.text_number("packet ", packet);
    out.text_number(" of the capture (frame ", frame);
    write_fields(out, "): ", &seen.fields, u64::from(seen.octets));
    match named {
        Some((class, path)) => {
            write_named_class(out, documents, class, path, &seen.fields);
            write_first_class(out, documents, &seen.fields);
        }
        None => write_no_class(out, documents, &seen.fields),
    }
}

/// Explains a refusal at a line, or after the last one.
fn write_metering(
    out: &mut Explanation,
    documents: &Documents<'_>,
    line: &Line<'_>,
    seen: &Frame<'_>,
    numbers: (u64, u64),
    fault: &Fault,
) {
    let mut named = None;
    if matches!(fault.place, Place::Line(_)) {
        write_line(out, line);
        named = named_by(line);
    } else {
        out.sentence("after the last line the closing phase reads the packets that are left");
    }
    if fault.number == refusals::NOTHING_THERE {
        write_nothing_there(out, documents.plan, line.bytes, numbers.0);
    } else {
        write_packet(out, documents, seen, numbers, named);
    }
}

/// Explains in sentences why a run over a capture is refused with 802 to 804. Writes the line of the schedule, at most
/// 200 octets of it; for one that refers to something missing (802), which number refers to nothing, or what is
/// missing; for a packet that isn't in its class (803, 804), its numbers among the packets and the frames of the
/// capture, its fields, which of them are outside the class's region, and the first class that contains it. The line is
/// the refused one; the frame is the last of the `packets` that were read, not counting the skipped frames. The text
/// has no control characters but line feeds.
///
/// Fails with 900 if out of memory, and then nothing is written, and with 902 if a write fails.
pub fn put_refused_metering<S: Sink>(
    alloc: Global,
    documents: &Documents<'_>,
    line: &Line<'_>,
    frame: &Frame<'_>,
    packets: u64,
    skipped: Skipped,
    fault: &Fault,
    sink: &mut S,
) -> Result<(), Fault>
    ensures ok { OnOk result (WritesExplanation (S.taken sink.old) (S.taken sink.new)) }
    ensures going { OnOk result (KeepsGoing (S.failed sink.old) (S.failed sink.new)) }
    ensures err { IfErr result (λ e. (IsMemory e × (sink.new ≡ sink.old))
        ⊎ IsWriteFault (S.failed sink.new) e) }
{
    let mut out = Explanation::new(alloc);
    let frames = packets
        .saturating_add(skipped.other)
        .saturating_add(skipped.malformed);
    write_metering(&mut out, documents, line, frame, (packets, frames), fault);
    put_text(sink, out.octets()?)
}
