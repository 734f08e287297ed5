//! The refusals of files, memory and long lines.
ghost use Rattle.std.specs.Prelude.{◌≡◌, map};
ghost use Rattle.fx_words.specs.Table.{machine};
ghost use Rattle.fx_words.specs.Words.{words_at};

use crate::refusal::Row;
use fx_base::refusals;

/// One row for each number.
pub const MACHINE: &[Row] = &[
    (
        refusals::WANT_OF_MEMORY,
        "The program was refused memory.",
        "a limit of the system or of a container, or more flows, steps or documents at once than \
         there is memory for.",
        "Give the program more memory, or cut what it reads into parts.",
        "",
    ),
    (
        refusals::FAILED_READ,
        "A file can't be opened, or a read failed.",
        "a file that doesn't exist, a directory instead of a file, or a lack of permission; `-` \
         isn't standard input, which is /dev/stdin.",
        "Look at the names of the files and at their permissions.",
        "",
    ),
    (
        refusals::FAILED_WRITE,
        "A write failed, or a file can't be made.",
        "a full disk, a pipe whose reader has ended, or a folder in the PREFIX of --links that \
         isn't there or may not be written.",
        "Make room, keep the reader of the answer running, or name another PREFIX.",
        "",
    ),
    (
        refusals::LONG_LINE,
        "A line has more than 4,096 octets.",
        "a file that is no text of lines, as a document or a capture in a run's place; or the \
         refutation of a network in which one step needs very many choices.",
        "Give the text that belongs there.",
        "FORMATS, line texts",
    ),
];

/// Returns the rows in the order of their numbers.
pub(crate) fn rows() -> &'static [Row]
    ensures { map (λ r. words_at r.0 r.1.now r.2.now r.3.now r.4.now) result.now ≡ machine }
{
    MACHINE
}
