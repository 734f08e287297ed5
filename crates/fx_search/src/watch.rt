//! Watching the progress of a search.

/// An observer of the progress of a search. It has no effect on what the search returns.
pub trait Watch {
    /// Called when a certificate has `lines` split and leaf lines so far, at most one more than at the last call.
    fn on_lines(&mut self, lines: u64);
}

/// An observer that does nothing.
#[derive(Debug, Drop)]
pub struct Unwatched;

impl Watch for Unwatched {
    fn on_lines(&mut self, _lines: u64) {}
}
