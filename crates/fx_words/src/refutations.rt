//! The refusals of refutations.
ghost use Rattle.std.specs.Prelude.{◌≡◌, map};
ghost use Rattle.fx_words.specs.Table.{refutations};
ghost use Rattle.fx_words.specs.Words.{words_at};

use crate::refusal::Row;
use fx_base::refusals;

/// One row for each number.
pub const REFUTATIONS: &[Row] = &[
    (
        refusals::REFUTATION_FORM,
        "A line has no form of a refutation's lines, or one is missing.",
        "a certificate instead of the refutation, which `once audit` writes too and `once \
         check` reads; an empty file, a run, a packet's line of another version than the first \
         line, a second packet, lines that end in CR and LF, the sentences of `once audit \
         --explain` after `end`, or more than 1,000,000 steps.",
        "Give a refutation that `once audit` has written, as it is: once-refutation 2, one packet, \
         its steps, `end`.",
        "FORMATS, a refutation",
    ),
    (
        refusals::REFUTATION_PACKET,
        "A refutation's packet isn't in its class, or that class or path isn't there.",
        "another traffic declaration than the one that was audited.",
        "Confirm with the documents that the audit has read, or audit again.",
        "FORMATS, a refutation",
    ),
    (
        refusals::REFUTATION_STEP,
        "A step of a refutation can't be made.",
        "the network has changed since it was audited, which may be what corrected it; or a \
         step that was written by hand has a wrong number or wrong choices.",
        "Audit again; or correct the step at that line: crossings, holders, links, positions \
         and choices count from 1.",
        "FORMATS, a run and a refutation",
    ),
    (
        refusals::RUN_NOT_COMPLETE,
        "A refutation's run isn't complete: a crossing is still to come, or a record is still \
         held or on a link.",
        "steps are missing at its end.",
        "Go on until each crossing of the path is made, each cache and each aggregation is \
         empty, and each record has arrived.",
        "FORMATS, a refutation",
    ),
    (
        refusals::TOTALS_AGREE,
        "A refutation shows no wrong total: the run's totals are the plain sums, and nothing is \
         unassigned.",
        "the network was corrected since it was audited, or the packet is counted rightly in \
         this run.",
        "Audit again: where a total can be wrong, a run that shows it is written.",
        "FORMATS, a refutation",
    ),
];

/// Returns the rows in the order of their numbers.
pub(crate) fn rows() -> &'static [Row]
    ensures { map (λ r. words_at r.0 r.1.now r.2.now r.3.now r.4.now) result.now ≡ refutations }
{
    REFUTATIONS
}
