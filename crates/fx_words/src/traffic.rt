//! The refusals of traffic declarations.
ghost use Rattle.std.specs.Prelude.{◌≡◌, map};
ghost use Rattle.fx_words.specs.Table.{traffic};
ghost use Rattle.fx_words.specs.Words.{words_at};

use crate::refusal::Row;
use fx_base::refusals;

/// One row for each number.
pub const TRAFFIC: &[Row] = &[
    (
        refusals::CLASS_TWICE,
        "The name of a traffic class occurs twice.",
        "a class that was copied and not renamed.",
        "The place is the name of the second class: give it another one.",
        "FORMATS, traffic",
    ),
    (
        refusals::TRAFFIC_VALUE,
        "A value of a traffic declaration isn't allowed.",
        "a region's value in another form than VALUE, LOW-HIGH or ADDRESS/n: with blanks, with \
         the bounds exchanged, or 0.0.0.0/0, since a prefix has 1 bit or more. Or a direction \
         that is neither ingress nor egress, a name with white space at an end, or exempt with \
         another value than [null] or true.",
        "Write the value as docs/FORMATS.md has it. An axis on which a class has all values is \
         left out of its region, and exempt of a class that isn't.",
        "FORMATS, traffic; RFC 4291, section 2.2",
    ),
    (
        refusals::UNKNOWN_DEVICE,
        "A crossing names a device that isn't in the network.",
        "a misspelled name, or a traffic declaration that belongs to another network.",
        "Name a device of the network document, letter by letter. An interface isn't checked \
         so: a crossing at one that no observation point has is never metered, and `once lint \
         --explain` reports it, with the interfaces that there are.",
        "FORMATS, traffic",
    ),
    (
        refusals::NO_PATH,
        "A class has no path.",
        "an empty list `paths`, of a class that no meter is to see.",
        "Give the class a path. Packets that pass no meter have a path without crossings: \
         \"paths\": [[]].",
        "FORMATS, traffic",
    ),
    (
        refusals::TOO_MUCH_TRAFFIC,
        "A list of a traffic declaration has too many entries.",
        "a list longer than these: a declaration has at most 256 classes, a class 16 paths, and \
         a path 32 crossings.",
        "Cut the traffic into several declarations, and audit each. Of a path only those \
         crossings are needed that an observation point sees.",
        "FORMATS, traffic",
    ),
];

/// Returns the rows in the order of their numbers.
pub(crate) fn rows() -> &'static [Row]
    ensures { map (λ r. words_at r.0 r.1.now r.2.now r.3.now r.4.now) result.now ≡ traffic }
{
    TRAFFIC
}
