//! The refusals of networks.
ghost use Rattle.std.specs.Prelude.{◌≡◌, map};
ghost use Rattle.fx_words.specs.Table.{networks};
ghost use Rattle.fx_words.specs.Words.{words_at};

use crate::refusal::Row;
use fx_base::refusals;

/// One row for each number.
pub const NETWORKS: &[Row] = &[
    (
        refusals::UNKNOWN_LINK_END,
        "An end of a link isn't there.",
        "one of the link's five names is misspelled: device, exportingProcess and destination \
         where it begins, toDevice and toProcess where it ends.",
        "Compare the five names with the configurations: a destination of an exporting process \
         of the first device, and a collecting process of the second.",
        "FORMATS, a network",
    ),
    (
        refusals::LINKED_TWICE,
        "A destination has a link already.",
        "a link that was copied, or one destination that is to reach two collectors.",
        "Give the exporting process a destination for each link; where its mode is parallel, a \
         record goes to all of them.",
        "FORMATS, a network",
    ),
    (
        refusals::LINK_CYCLE,
        "Links lead records round in a circle.",
        "mediators that forward to one another, so that each can replace the other.",
        "The place has the numbers of device and collecting process of those that are on a \
         cycle or after one (3.1 is the first collecting process of device 3). Remove a link, \
         or an exporting process that one of them names.",
        "FORMATS, a network",
    ),
    (
        refusals::UNKNOWN_REPORT_PROCESS,
        "The report's device or its collecting process isn't there.",
        "a misspelled name, or a collecting process of another device.",
        "Name the device whose totals are asked for, and one of its collecting processes, letter \
         by letter.",
        "FORMATS, a network",
    ),
    (
        refusals::REPORT_KEY,
        "The report's key isn't made of axes, each at most once.",
        "an axis that occurs twice (an address and its prefix are one axis), a misspelled \
         ieName, an element that is no axis, or a prefixLength at an element that isn't a \
         prefix.",
        "Write elements of docs/FORMATS.md, each axis once: an address, or a prefix element with \
         its prefixLength.",
        "FORMATS, a network",
    ),
    (
        refusals::TOO_MANY_LAYOUTS,
        "Caches, aggregations and the report together have more than 64 different layouts.",
        "a large network whose meters each have flow keys of their own.",
        "Give meters that serve the same report the same flow keys, or audit parts of the \
         network by themselves.",
        "FORMATS, a network",
    ),
];

/// Returns the rows in the order of their numbers.
pub(crate) fn rows() -> &'static [Row]
    ensures { map (λ r. words_at r.0 r.1.now r.2.now r.3.now r.4.now) result.now ≡ networks }
{
    NETWORKS
}
