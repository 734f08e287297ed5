//! What is expected at a line of a certificate.
use fx_base::{Line, refusals};
use fx_boxes::Region;
use fx_cert::{Item, Version};
use fx_check::Due;
use fx_explanation::{Documents, Explanation, axis_word, write_path, write_values};
use fx_traffic::Target;

/// Returns what a certificate may have for a region of a class, by whether the class is exempt.
fn leaf_words(version: Version, exempt: bool) -> &'static str {
    match (version, exempt) {
        (_, false) => {
            "expected on this line: L CROSSING POINT PROCESS, since the class isn't exempt and its packets must be counted once; or S AXIS AT, which splits the region"
        }
        (Version::Two, true) => {
            "expected on this line: N, since the class is exempt and its packets must not be counted; or S AXIS AT, which splits the region"
        }
        (Version::One, true) => {
            "expected on this line: N, since the class is exempt and its packets must not be counted; once-certificate 1 has no N, so the first line must be once-certificate 2"
        }
    }
}

/// Writes what is expected in the tree of a region where a line is refused with this number.
pub(crate) fn write_due(
    out: &mut Explanation,
    target: &Target<'_>,
    region: &Region,
    version: Version,
    item: &Option<Item>,
    number: u16,
) {
    match (number, item) {
        (refusals::SPLIT_NOT_INSIDE, Some(Item::Split { axis, .. })) => {
            out.text("by ");
            out.text(axis_word(*axis));
            out.text(" the region has the values ");
            write_values(
                out,
                *axis,
                region.corner().get(*axis),
                region.far_corner().get(*axis),
            );
            out.sentence("; it may be split above the first of them and not above the last");
        }
        (refusals::CERTIFICATE_ORDER, Some(Item::Class { .. } | Item::End)) => {
            out.sentence(
                "the tree of that path isn't complete: it lacks the leaf of the region in the next lines",
            );
            out.sentence(leaf_words(version, target.exempt));
        }
        (refusals::CERTIFICATE_LINE..=refusals::CERTIFICATE_CUT, _) => {
            out.sentence(leaf_words(version, target.exempt));
        }
        _ => {}
    }
}

/// Writes that the line of a path of a class is expected.
fn write_due_class(out: &mut Explanation, documents: &Documents<'_>, target: &Target<'_>) {
    out.text_number("expected on this line: class ", target.class);
    out.text_number(" path ", target.path);
    out.end_line();
    out.text("next is ");
    write_path(out, documents, target.class, target.path, target.crossings);
}

/// Writes which line is expected between trees.
pub(crate) fn write_between(
    out: &mut Explanation,
    documents: &Documents<'_>,
    due: &Due<'_>,
    item: &Option<Item>,
) {
    if let Due::Nothing = due {
        out.sentence("nothing may follow the line end");
        return;
    }
    if let Some(Item::Leaf { .. } | Item::Never | Item::Split { .. }) = item {
        out.sentence(
            "the tree before it is whole and this leaf or split is one too many, or the line class C path P is missing before it",
        );
    }
    match due {
        Due::Target(target) => write_due_class(out, documents, target),
        _ => out.sentence("all paths have their trees; expected on this line: end"),
    }
}

/// Writes which kind of line follows the line `end`.
pub(crate) fn write_after_end(out: &mut Explanation, line: &Line<'_>) {
    out.sentence(if line.bytes.is_empty() {
        "an empty line follows the line end: remove it"
    } else if line.bytes.starts_with(b"once-certificate ") {
        "another certificate begins after the line end: each is checked by a call of its own"
    } else {
        "the certificate is complete before this line: remove this line and all that follow"
    });
}
