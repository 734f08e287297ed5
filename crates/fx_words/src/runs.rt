//! The refusals of bundles, schedules, runs and totals.
ghost use Rattle.std.specs.Prelude.{◌≡◌, map};
ghost use Rattle.fx_words.specs.Table.{runs};
ghost use Rattle.fx_words.specs.Words.{words_at};

use crate::refusal::Row;
use fx_base::refusals;

/// One row for each number.
pub const RUNS: &[Row] = &[
    (
        refusals::SCHEDULE_OR_BUNDLE,
        "A line of a schedule has no form of such lines; if a part is named, no part begins \
         there; if nothing is named, standard input is no bundle.",
        "a misspelled word, a blank too many, or lines that end in CR and LF. A bundle that is \
         refused lacks its last line %%, or has another command than audit, check, confirm and \
         replay, or another number of texts; without arguments, once reads a bundle. A part is \
         a bundle of the command check.",
        "Write the line as docs/FORMATS.md has it. A bundle is a line with the command, then \
         its texts, each followed by a line %%, and nothing after the last; parts follow one \
         directly after another.",
        "FORMATS, a schedule and a bundle",
    ),
    (
        refusals::NOTHING_THERE,
        "What a line of a schedule asks for isn't there.",
        "a number that wasn't counted from 1 in document order, a cache or an aggregation \
         without records, more octets than wait on the link, or no packet that is left in the \
         capture.",
        "Compare the numbers with the network document, and what the line takes with what the \
         lines before it have brought there. What is left at the end is done by the closing \
         phase.",
        "FORMATS, a schedule",
    ),
    (
        refusals::NOT_IN_NAMED_CLASS,
        "A packet isn't in the class that a line of a schedule names, or that class or path \
         isn't there.",
        "a schedule that was written for another capture or another traffic declaration.",
        "Write `next` alone, which takes the first class that holds the packet, or name a class \
         whose region holds it. Where none does, add a last class without a region, or filter the \
         capture.",
        "FORMATS, a schedule",
    ),
    (
        refusals::IN_NO_CLASS,
        "A packet of a capture is in no class of the traffic.",
        "packets that nobody thought of: of the other IP version, multicast, or management.",
        "Add a last class without a region, which holds all other packets, with the paths that \
         they take; or filter the capture.",
        "FORMATS, traffic and a schedule",
    ),
    (
        refusals::STEP_NOT_ENABLED,
        "A step of a run can't be made: its packet, crossing, holder or link isn't there, or the \
         crossing was made before.",
        "a number that is counted from 0 or in another list, or a run of documents that have \
         changed.",
        "Count packets, crossings, devices, caches, processes and links from 1 in document \
         order, and make each crossing once.",
        "FORMATS, a run",
    ),
    (
        refusals::WRONG_CHOICES,
        "The choices of a step are wrong.",
        "a choice too many or too few, `n` where a destination's number is due, or the position \
         of a record with another key.",
        "At `cross` write one for each selection process with a cache that the packet meets; at \
         `expire` one for each exporting process that isn't parallel (a parallel one sends to all \
         its destinations); at `arrive` these first, then one for each aggregation that takes the \
         record in.",
        "FORMATS, a run",
    ),
    (
        refusals::NO_RECORD_THERE,
        "No record is at the position that a step names.",
        "position 0, or positions that weren't counted anew: they close up when a record leaves.",
        "Count the records that the cache, the aggregation or the link has before that step, \
         from 1 in order of coming.",
        "FORMATS, a run",
    ),
    (
        refusals::RUN_HEADER,
        "The first line isn't that of a run: it has to be once-run 2, or once-run 1.",
        "a certificate or a refutation instead of the run, the files in another order, lines \
         that end in CR and LF, or a byte order mark at the beginning.",
        "Give a text that begins with the line once-run 2; lines end in LF alone.",
        "FORMATS, a run",
    ),
    (
        refusals::RUN_FORM,
        "A line has no form of a run's lines, or one is missing.",
        "an empty file, a packet's line of another version than the first line, an address of \
         IPv6 that isn't written out (as 2001:db8:0:0:0:0:0:1), a number of 2 to the 64 or \
         more, a packet after a step, a blank too many, or a text that ends before its line \
         `end` or goes on after it.",
        "Write the line as docs/FORMATS.md has it, with one blank between words: the packets, \
         then the steps, then `end`, each followed by a line feed.",
        "FORMATS, a run",
    ),
    (
        refusals::RUN_PACKET,
        "A packet of a run isn't in its class, or that class or path isn't there.",
        "a field outside of the class's region, or a packet of IPv4 (under once-run 1 all are) \
         in a class of IPv6.",
        "Name a class whose region holds all fields of the packet, and one of that class's \
         paths.",
        "FORMATS, a run",
    ),
    (
        refusals::TOTALS_FORM,
        "A text isn't that of totals of the network's report, or a line of it is out of order.",
        "totals of another report, a refusal instead of totals, sentences of --explain after \
         them, a text that was cut off or edited, keys that don't ascend, or lines that end in \
         CR and LF.",
        "Give texts that once collect, run or replay wrote over networks with this report, as \
         they were written.",
        "FORMATS, totals",
    ),
];

/// Returns the rows in the order of their numbers.
pub(crate) fn rows() -> &'static [Row]
    ensures { map (λ r. words_at r.0 r.1.now r.2.now r.3.now r.4.now) result.now ≡ runs }
{
    RUNS
}
