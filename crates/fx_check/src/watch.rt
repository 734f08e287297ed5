//! Observers of a check.
use crate::due::Due;
use fx_base::{Fault, Line};

/// An observer of where a certificate is refused. It has no influence on the check.
pub trait CheckWatch: Drop {
    /// Called when a line is refused, or the reader of lines failed there, with what the line had to be, and the line,
    /// which is `None` if the text ends before it.
    fn on_refused(&mut self, due: &Due<'_>, line: Option<&Line<'_>>, fault: &Fault);
}

/// An observer that ignores everything.
#[derive(Debug, Drop)]
pub struct Unwatched;

impl CheckWatch for Unwatched {
    fn on_refused(&mut self, _due: &Due<'_>, _line: Option<&Line<'_>>, _fault: &Fault) {}
}
