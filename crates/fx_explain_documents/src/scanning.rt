//! Members that appear twice in one object of a JSON text.
use fx_explanation::Explanation;
use std::alloc::{AllocError, Global};

/// The maximum number of members of an object that are compared.
const MEMBERS: usize = 64;

/// An open object or list.
#[derive(Drop)]
struct Open {
    is_object: bool,
    /// Whether the next string is a member's name.
    name_next: bool,
    /// The start and end indices of the names of the object's members so far.
    names: Vec<(usize, usize)>,
}

/// The progress of a scan of a JSON text.
#[derive(Drop)]
struct Scan {
    open: Vec<Open>,
    in_string: bool,
    escaped: bool,
    /// The index at which the current string begins, after its quotation mark.
    start: usize,
    line: u64,
    /// The document's kind, such as `network`.
    document: &'static str,
}

/// Returns the octets of a text from one index to another.
fn part(text: &[u8], start: usize, end: usize) -> &[u8] {
    match text.get(start..end) {
        Some(part) => part,
        None => &[],
    }
}

/// Returns whether one of these names equals another.
fn has_name(text: &[u8], names: &[(usize, usize)], name: &[u8]) -> bool {
    for (start, end) in names {
        if part(text, *start, *end) == name {
            return true;
        }
    }
    false
}

impl Open {
    /// Adds a member's name, and returns whether an earlier member has it.
    fn add(&mut self, text: &[u8], start: usize, end: usize) -> Result<bool, AllocError> {
        self.name_next = false;
        if has_name(text, self.names.as_slice(), part(text, start, end)) {
            return Ok(true);
        }
        if self.names.len() < MEMBERS {
            self.names.push((start, end))?;
        }
        Ok(false)
    }
}

impl Scan {
    /// Returns a scan before the first octet.
    fn new(alloc: Global, document: &'static str) -> Scan {
        Scan {
            open: Vec::new(alloc),
            in_string: false,
            escaped: false,
            start: 0,
            line: 1,
            document,
        }
    }

    /// Begins an object or a list.
    fn begin(&mut self, out: &mut Explanation, is_object: bool) {
        let pushed = self.open.push(Open {
            is_object,
            name_next: is_object,
            names: Vec::new(out.alloc),
        });
        if pushed.is_err() {
            out.fall_short();
        }
    }

    /// Proceeds to the next member of an object.
    fn next_member(&mut self) {
        if let Some(open) = self.open.last_mut() {
            open.name_next = open.is_object;
        }
    }

    /// Ends a string, and writes it if it is a member's name that the object has already.
    fn end_string(&mut self, out: &mut Explanation, text: &[u8], end: usize) {
        self.in_string = false;
        let start = self.start;
        let Some(open) = self.open.last_mut() else {
            return;
        };
        if !open.name_next || out.unless_short(open.add(text, start, end)) != Some(true) {
            return;
        }
        out.text(self.document);
        out.text_number(", line ", self.line);
        out.text(": member \"");
        out.octets_of(part(text, start, end));
        out.sentence("\" occurs twice in one object; the last one counts");
    }

    /// Advances past an octet of a string other than the closing quotation mark.
    fn in_text(&mut self, octet: u8) {
        self.escaped = !self.escaped && octet == b'\\';
    }

    /// Advances past an octet.
    fn take(&mut self, out: &mut Explanation, text: &[u8], index: usize) {
        let octet = text.get(index).copied().unwrap_or(0);
        if self.in_string {
            if octet == b'"' && !self.escaped {
                self.end_string(out, text, index);
            } else {
                self.in_text(octet);
            }
            return;
        }
        match octet {
            b'"' => {
                self.in_string = true;
                self.escaped = false;
                self.start = index.saturating_add(1);
            }
            b'{' => self.begin(out, true),
            b'[' => self.begin(out, false),
            b'}' | b']' => {
                let _closed = self.open.pop();
            }
            b',' => self.next_member(),
            b'\n' => self.line = self.line.saturating_add(1),
            _ => {}
        }
    }
}

/// Writes the members that appear twice in an object of a valid JSON text, by the lines of the second ones. Of each
/// object, compares the first 64 names, as they are spelled.
pub(crate) fn write_twice(out: &mut Explanation, document: &'static str, text: &[u8]) {
    let mut scan = Scan::new(out.alloc, document);
    for index in 0..text.len() {
        scan.take(out, text, index);
    }
}
