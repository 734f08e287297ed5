//! Classes and their paths as text.
use crate::accepted::{Documents, class_name};
use crate::crossings::write_crossings;
use crate::explanation::Explanation;
use fx_tables::Crossing;

/// Writes the number and name of a class, and the number of one of its paths.
pub fn write_class(out: &mut Explanation, documents: &Documents<'_>, class: u64, path: u64) {
    out.text_number("class ", class);
    out.text_quoted(" ", class_name(documents, class));
    out.text_number(", path ", path);
}

/// Writes a line with a class, one of its paths, and the crossings of the path.
pub fn write_path(
    out: &mut Explanation,
    documents: &Documents<'_>,
    class: u64,
    path: u64,
    crossings: &[Crossing],
) {
    write_class(out, documents, class, path);
    out.text(": ");
    write_crossings(out, documents.plan, crossings);
    out.end_line();
}
