//! Explaining why a certificate is refused.
ghost use Rattle.std.specs.Prelude.{◌≡◌, ◌⊎◌, IfErr, OnOk};
ghost use Rattle.fx_base.specs.Device.{IsWriteFault, KeepsGoing};
ghost use Rattle.fx_base.specs.Fault.{IsMemory};
ghost use Rattle.fx_explanation.specs.Explanations.{WritesExplanation};

use crate::due_items::{write_after_end, write_between, write_due};
use crate::following::write_following;
use crate::leaves::write_leaf;
use crate::line_forms::{LineText, axis_named};
use crate::lines::write_line;
use crate::watching::write_watching;
use crate::wrong_lines::{write_wrong_header, write_wrong_line};
use fx_base::{Fault, Line, Room, Sink, put_text, refusals};
use fx_boxes::Region;
use fx_cert::{Item, put_item, read_item};
use fx_check::{Due, tables_of};
use fx_elements::{Axis, Words, is_word, read_on};
use fx_explanation::{Documents, Explanation, axis_word, write_path, write_region};
use fx_leaf::{Counted, Scratch, cut};
use fx_plan::Plan;
use fx_tables::Crossing;
use fx_traffic::Target;
use std::alloc::Global;

/// Writes the line of a split as in a certificate.
fn write_split_line(out: &mut Explanation, axis: Axis, at: u128) {
    let mut octets = [0; 100];
    let mut room = Room::new(&mut octets);
    // What doesn't fit in the buffer is left out.
    let _written = put_item(&mut room, &Item::Split { axis, at });
    out.text("its line is: ");
    out.lines_of(room.octets());
}

/// Returns the axis and the value of a split whose value is written as an address instead of as a number.
fn split_at_value(line: &[u8]) -> Option<(Axis, u128)> {
    let (kind, words) = Words::new(line).word()?;
    let (named, words) = words.word()?;
    let (at, _words) = words.word()?;
    let axis = axis_named(named)?;
    if !is_word(kind, b"S") || !axis.is_address() {
        return None;
    }
    Some((axis, read_on(axis, at)?))
}

/// Writes where to split a region that something cuts.
fn write_cut(out: &mut Explanation, plan: &Plan, crossings: &[Crossing], region: &Region) {
    let tables = tables_of(plan);
    let Ok(mut scratch) = Scratch::new(out.alloc, &tables) else {
        out.fall_short();
        return;
    };
    if let Some((axis, at)) = cut(&mut scratch, &tables, crossings, region) {
        out.text("split the region by ");
        out.text(axis_word(axis));
        out.text(" at ");
        out.value(axis, at);
        out.end_line();
        write_split_line(out, axis, at);
    }
}

/// Writes a region in a line.
fn write_region_line(out: &mut Explanation, region: &Region) {
    out.text("region: ");
    write_region(out, region);
    out.end_line();
}

/// Writes what a line of a region's tree refers to.
fn write_item(out: &mut Explanation, plan: &Plan, target: &Target<'_>, item: &Item) {
    match item {
        Item::Leaf {
            crossing,
            point,
            process,
        } => {
            let leaf = Counted {
                crossing: *crossing,
                point: *point,
                process: *process,
            };
            write_leaf(out, plan, target.crossings, &leaf);
        }
        Item::Split { axis, at } => {
            out.text("the split is by ");
            out.text(axis_word(*axis));
            out.text(" at ");
            out.value(*axis, *at);
            out.end_line();
        },
        _ => {}
    }
}

/// Returns whether a refusal with this number is about the fate of a leaf's packets.
fn is_of_packets(number: u16) -> bool {
    (refusals::CUT_REGION..=refusals::COUNTED_ELSEWHERE).contains(&number)
        || number == refusals::UNASSIGNED_RECORD
        || number == refusals::EXEMPT_COUNTED
}

/// Writes the position of a region in its tree, and why it is refused with this number.
fn write_tree(
    out: &mut Explanation,
    documents: &Documents<'_>,
    target: &Target<'_>,
    region: &Region,
    number: u16,
) {
    write_region_line(out, region);
    if is_of_packets(number) {
        write_watching(out, documents.plan, region, target.crossings);
        write_following(out, documents.plan, region, target.crossings);
    }
    if number == refusals::CUT_REGION {
        write_cut(out, documents.plan, target.crossings, region);
    }
}

/// Writes what is expected at a line after the first, and what is wrong there.
fn write_stand(
    out: &mut Explanation,
    documents: &Documents<'_>,
    due: &Due<'_>,
    item: Option<Item>,
    number: u16,
) {
    let Due::Tree {
        version,
        target,
        region,
        ..
    } = due
    else {
        write_between(out, documents, due, &item);
        return;
    };
    write_path(out, documents, target.class, target.path, target.crossings);
    if let Some(item) = &item {
        write_item(out, documents.plan, target, item);
    }
    write_due(out, target, region, *version, &item, number);
    write_tree(out, documents, target, region, number);
}

/// Writes what is wrong with the form of a line that is refused with this number.
fn write_form(out: &mut Explanation, due: &Due<'_>, line: &Line<'_>, fault: u16) {
    if let Due::Header = due {
        write_wrong_header(out, "once-certificate", " where no class is exempt", line);
    } else if fault == refusals::CERTIFICATE_LINE {
        let _otherwise = write_wrong_line(out, LineText::Certificate, line);
        if let Some((axis, at)) = split_at_value(line.bytes) {
            write_split_line(out, axis, at);
        }
    } else if !line.ended {
        out.sentence("no line feed ends the line");
    }
}

/// Writes the refused line, if the text has it, and what is expected there.
fn write_refused(
    out: &mut Explanation,
    documents: &Documents<'_>,
    due: &Due<'_>,
    line: Option<&Line<'_>>,
    fault: u16,
) {
    let mut item = None;
    match line {
        None => out.sentence("the text ends before its line end"),
        Some(line) => {
            write_line(out, line);
            write_form(out, due, line, fault);
            item = read_item(line).ok();
        }
    }
    match (due, line) {
        (Due::Header, _) => {}
        (_, Some(line)) if fault == refusals::LINE_BEHIND_END => write_after_end(out, line),
        _ => write_stand(out, documents, due, item, fault),
    }
}

/// Explains in sentences a refusal of a certificate, 401 to 415 at a line. Writes the line, at most 200 octets of it;
/// for a malformed line, the first wrong word and the expected form; the class and the path by name; the region of the
/// line, with what the line names and what is expected there; what follows the line `end`. For a leaf, writes what
/// observes the region's packets along the path and where its records go, up to the report, with what their keys lack
/// for it, the aggregations that don't accept them, the matches that don't hold for all of them, and where to split the
/// region, if something cuts it. The documents are those over which the certificate was refused; `due` is what the line
/// had to be; `line` is `None` if the text ends before it. What can't be known is left out. The text has no control
/// characters but line feeds.
///
/// Fails with 900 if out of memory, and with 902 if a write fails. For faults other than 902 nothing is written.
pub fn put_refused_certificate<S: Sink>(
    alloc: Global,
    documents: &Documents<'_>,
    due: &Due<'_>,
    line: Option<&Line<'_>>,
    fault: &Fault,
    sink: &mut S,
) -> Result<(), Fault>
    ensures ok { OnOk result (WritesExplanation (S.taken sink.old) (S.taken sink.new)) }
    ensures going { OnOk result (KeepsGoing (S.failed sink.old) (S.failed sink.new)) }
    ensures err { IfErr result (λ e. (IsMemory e × (sink.new ≡ sink.old))
        ⊎ IsWriteFault (S.failed sink.new) e) }
{
    let mut out = Explanation::new(alloc);
    write_refused(&mut out, documents, due, line, fault.number);
    put_text(sink, out.octets()?)
}
