//! Packets by their fields, and why a packet isn't in a class.
use fx_base::entry_numbered;
use fx_boxes::{Fields, Region};
use fx_elements::{Axis, EVERY_AXIS};
use fx_explanation::{Documents, Explanation, axis_word, between, class_name, write_values};
use fx_tables::Class;

/// The maximum number of classes that are written.
const CLASSES: usize = 20;

/// Writes the fields that aren't 0, each after a separator, and then the octets.
pub(crate) fn write_fields(
    out: &mut Explanation,
    separator: &'static str,
    fields: &Fields,
    octets: u64,
) {
    let mut before = separator;
    let mut shown = false;
    for axis in EVERY_AXIS {
        let value = fields.get(axis);
        if value != 0 {
            out.text(before);
            out.text(axis_word(axis));
            out.text(" ");
            out.value(axis, value);
            before = ", ";
            shown = true;
        }
    }
    out.text(before);
    out.text_number(
        if shown {
            "0 in all other fields, octets "
        } else {
            "0 in all fields, octets "
        },
        octets,
    );
    out.end_line();
}

/// Returns what to write about the value of a field that only packets of the other IP version have.
fn absence(axis: Axis, fields: &Fields) -> &'static str {
    match (axis, fields.get(Axis::Version)) {
        (Axis::Source | Axis::Destination, 6) => " (a packet of IPv6 has none)",
        (Axis::Source6 | Axis::Destination6, 4) => " (a packet of IPv4 has none)",
        _ => "",
    }
}

/// Writes the fields that are outside a region, each with the region's values there.
pub(crate) fn write_outside(out: &mut Explanation, region: &Region, fields: &Fields) {
    let least = region.corner();
    let greatest = region.far_corner();
    let mut shown = false;
    for axis in EVERY_AXIS {
        let value = fields.get(axis);
        let (low, high) = (least.get(axis), greatest.get(axis));
        if value < low || high < value {
            out.text(between(shown, "; "));
            out.text(axis_word(axis));
            out.text(" ");
            out.value(axis, value);
            out.text(absence(axis, fields));
            out.text(if low == high {
                " isn't "
            } else {
                " lies outside "
            });
            write_values(out, axis, low, high);
            shown = true;
        }
    }
}

/// Writes in one line which fields keep a packet out of a class.
fn write_class_outside(
    out: &mut Explanation,
    documents: &Documents<'_>,
    number: u64,
    class: &Class,
    fields: &Fields,
) {
    out.text_number("class ", number);
    out.text_quoted(" ", class_name(documents, number));
    out.text(": ");
    write_outside(out, &class.region(), fields);
    out.end_line();
}

/// Writes, for each of the classes, which fields keep a packet out of it.
pub(crate) fn write_no_class(out: &mut Explanation, documents: &Documents<'_>, fields: &Fields) {
    let classes = documents.traffic.classes().as_slice();
    let shown = classes.len().min(CLASSES);
    for index in 0..shown {
        write_class_outside(out, documents, index as u64 + 1, &classes[index], fields);
    }
    if shown < classes.len() {
        out.text_number(
            "and it is in none of the other classes; their number is ",
            (classes.len() - shown) as u64,
        );
        out.end_line();
    }
}

/// Writes that a number is too large, and how many of the counted items there are.
pub(crate) fn write_missing(out: &mut Explanation, words: &'static str, number: u64, there: usize) {
    out.text_number(words, number);
    out.text_number(
        if there == 1 {
            "; there is "
        } else {
            "; there are "
        },
        there as u64,
    );
    out.sentence(", counted from 1");
}

/// Writes why a packet isn't in the class with this number, with the path with that number.
pub(crate) fn write_named_class(
    out: &mut Explanation,
    documents: &Documents<'_>,
    class: u64,
    path: u64,
    fields: &Fields,
) {
    let classes = documents.traffic.classes().as_slice();
    let Some(named) = entry_numbered(classes, class) else {
        write_missing(out, "the traffic has no class ", class, classes.len());
        return;
    };
    if !named.holds(fields) {
        write_class_outside(out, documents, class, named, fields);
        return;
    }
    if entry_numbered(named.paths(), path).is_some() {
        return;
    }
    out.text_number("class ", class);
    out.text_quoted(" ", class_name(documents, class));
    write_missing(out, " has no path ", path, named.paths().len());
}
