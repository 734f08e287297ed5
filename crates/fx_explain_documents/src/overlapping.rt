//! Classes that contain the same packets.
ghost use Rattle.std.specs.Prelude.{◌<◌, length};

use fx_boxes::Region;
use fx_explanation::{Documents, Explanation, class_name, write_region};
use fx_tables::Class;

/// The maximum number of pairs of classes that are written.
const SHOWN: u64 = 16;

/// Writes which packets are in both of two classes, given by number.
fn write_both(
    out: &mut Explanation,
    documents: &Documents<'_>,
    first: u64,
    second: u64,
    both: &Region,
) {
    out.text_number("traffic: class ", first);
    out.text_quoted(" ", class_name(documents, first));
    out.text_number(" and class ", second);
    out.text_quoted(" ", class_name(documents, second));
    out.text(" overlap: both hold ");
    write_region(out, both);
    out.sentence("; once run takes a packet to be of the first class that holds it");
}

/// Writes with which later classes the class at an index overlaps, up to the maximum of pairs. Returns the number of
/// pairs so far, including the `before` earlier ones.
fn write_later(
    out: &mut Explanation,
    documents: &Documents<'_>,
    classes: &[Class],
    index: usize,
    before: u64,
) -> u64
    requires { index < length classes.now }
{
    let region = classes[index].region();
    let mut count = before;
    for other in index + 1..classes.len() {
        if let Some(both) = region.meet(&classes[other].region()) {
            if count < SHOWN {
                write_both(out, documents, index as u64 + 1, other as u64 + 1, &both);
            }
            count = count.saturating_add(1);
        }
    }
    count
}

/// Writes which classes of a traffic declaration contain the same packets: the first 16 pairs, and the number of
/// others.
pub(crate) fn write_overlapping(out: &mut Explanation, documents: &Documents<'_>) {
    let classes = documents.traffic.classes().as_slice();
    let mut count = 0;
    for index in 0..classes.len() {
        count = write_later(out, documents, classes, index, count);
    }
    if count > SHOWN {
        out.text_number(
            "traffic: pairs of classes that overlap, besides these: ",
            count - SHOWN,
        );
        out.end_line();
    }
}
