//! Text that is gathered before any of it is written.

use fx_base::{Fault, Outside, put_number, put_text};
use std::alloc::Global;

/// Sentences after an answer. If some can't be made, because memory runs out or a read of what they describe fails,
/// the whole text is empty.
#[derive(Drop)]
pub(crate) struct Gathered {
    sink: Outside<Vec<u8>>,
    failed: bool,
}

impl Gathered {
    /// Returns an empty text.
    pub(crate) fn new(alloc: Global) -> Gathered {
        Gathered {
            sink: Outside::new(Vec::new(alloc)),
            failed: false,
        }
    }

    /// Returns the sink, for a function whose outcome is then passed to `note`.
    pub(crate) fn sink(&mut self) -> &mut Outside<Vec<u8>> {
        &mut self.sink
    }

    /// Notes the outcome of making a text.
    pub(crate) fn note(&mut self, outcome: Result<(), Fault>) {
        if outcome.is_err() {
            self.fail();
        }
    }

    /// Writes a text.
    pub(crate) fn text(&mut self, text: &[u8]) {
        let written = put_text(&mut self.sink, text);
        self.note(written);
    }

    /// Writes a number in decimal.
    pub(crate) fn number(&mut self, number: u64) {
        let written = put_number(&mut self.sink, number);
        self.note(written);
    }

    /// Appends another text.
    pub(crate) fn all_of(&mut self, others: Gathered) {
        let Gathered { sink, failed } = others;
        if failed {
            self.fail();
            return;
        }
        self.text(sink.into_inner().as_slice());
    }

    /// Notes that a text can't be made.
    pub(crate) fn fail(&mut self) {
        self.failed = true;
    }

    /// Returns the whole text, or an empty one if a part couldn't be made.
    pub(crate) fn into_octets(self, alloc: Global) -> Vec<u8> {
        let Gathered { sink, failed } = self;
        if failed {
            return Vec::new(alloc);
        }
        sink.into_inner()
    }
}
