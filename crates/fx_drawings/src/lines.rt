//! The lines of a text that has been read before.
ghost use Rattle.std.specs.Prelude.{◌≡◌, ◌<◌, true};
ghost use Rattle.fx_base.specs.Lines.{line_budget};

use fx_base::{LineReader, Source};

/// Advances to the next line, and returns whether there is one that can be read.
pub(crate) fn next_line<C: Source>(lines: &mut LineReader<C>) -> bool
    ensures { result ≡ true → line_budget lines.new < line_budget lines.old }
{
    match lines.advance() {
        Ok(there) => there,
        Err(_) => false,
    }
}
