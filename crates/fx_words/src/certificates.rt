//! The refusals of certificates and of joins of certified parts.
ghost use Rattle.std.specs.Prelude.{◌≡◌, map};
ghost use Rattle.fx_words.specs.Table.{certificates};
ghost use Rattle.fx_words.specs.Words.{words_at};

use crate::refusal::Row;
use fx_base::refusals;

/// One row for each number.
pub const CERTIFICATES: &[Row] = &[
    (
        refusals::CERTIFICATE_HEADER,
        "The first line isn't that of a certificate: it has to be once-certificate 2, or \
         once-certificate 1.",
        "a refutation instead of the certificate, which `once audit` writes too and `once \
         confirm` reads; a run, the files in another order, lines that end in CR and LF, or a \
         byte order mark at the beginning.",
        "Give a certificate that `once audit` has written, as it is; lines end in LF alone.",
        "FORMATS, a certificate",
    ),
    (
        refusals::CERTIFICATE_LINE,
        "A line has no form of a certificate's lines.",
        "a blank at the line's end, a tab or two blanks between words, a comment, an empty line, \
         an address where a number is due (128.0.0.0 is 2147483648), or a number with leading \
         zeros.",
        "Write `class C path P`, `S AXIS AT`, `L CROSSING POINT PROCESS`, `N` or `end`, with one \
         blank between words.",
        "FORMATS, a certificate",
    ),
    (
        refusals::CERTIFICATE_ORDER,
        "A line is out of order, or a leaf is of another kind than its class requires.",
        "a class or a path that is left out or in another order than in the traffic \
         declaration, or a leaf too many or too few after the splits. Or a leaf N of a class \
         that isn't exempt or under once-certificate 1, or a leaf L of one that is exempt.",
        "Classes and their paths come in document order, and after a split come two trees, that \
         of the lower part first. The leaves of an exempt class are N, those of any other class \
         L. `once audit` writes such a text.",
        "FORMATS, a certificate",
    ),
    (
        refusals::SPLIT_NOT_INSIDE,
        "A split isn't strictly inside its region.",
        "a split at the lowest value of the region, at a value above its highest, or on an axis \
         on which it has one value only.",
        "AT is the first value of the upper part: write one above the region's lowest value and \
         not above its highest.",
        "FORMATS, a certificate",
    ),
    (
        refusals::CERTIFICATE_CUT,
        "A certificate ends before its line `end`, or inside a line.",
        "an empty file, a text that was cut when it was copied, or a last line without its line \
         feed.",
        "Give the whole text, with a line feed after `end`.",
        "FORMATS, a certificate",
    ),
    (
        refusals::CUT_REGION,
        "A selection process, or the match of an aggregation, holds for a part of a leaf's \
         region only.",
        "the bound of a filter is inside the region, perhaps on an axis that the class doesn't \
         name, such as ipVersion.",
        "Audit again, which splits regions at the bounds of filters; or split there yourself, \
         with a line `S AXIS AT`, where AT is a number in decimal (64.0.0.0 is 1073741824); or \
         name the axis in the class's region.",
        "RFC 5475, section 6.1; FORMATS, a certificate",
    ),
    (
        refusals::NEVER_COUNTED,
        "Nothing counts the packets of a leaf.",
        "an interface is misspelled in the traffic declaration, so that no observation point \
         sees the packets; or a selection process has no cache, a destination on the way has no \
         link, or an aggregation on the way has a key or a match that can't be read from the \
         records.",
        "Follow the packets from each crossing of the path to the report: observation point, \
         selection process, cache, exporting process, link, collecting process. Mend the first \
         that is missing.",
        "FORMATS, a device and a certificate",
    ),
    (
        refusals::COUNTED_MORE_THAN_ONCE,
        "The packets of a leaf are counted more than once.",
        "two observation points on one path, two selection processes that select the same \
         packets, two exporting processes of one cache, or two links by which a record comes to \
         the report.",
        "Remove one of them, or share the packets between them by filters, so that each packet \
         is selected once.",
        "FORMATS, a device and a certificate",
    ),
    (
        refusals::DESTINATIONS_DIFFER,
        "How often the packets of a leaf are counted depends on the destination that an \
         exporting process chooses.",
        "an exporting process whose mode is fallback or loadBalancing, with a link from one of \
         its destinations and none from another.",
        "Link each destination that it can choose to a collecting process whose records come to \
         the report; or give it one destination alone, which is linked so; or set its exportMode \
         to parallel, if just one of its destinations leads to the report.",
        "RFC 6728, section 4.4; FORMATS, a certificate",
    ),
    (
        refusals::COUNTED_ELSEWHERE,
        "The packets of a leaf are counted once, but not where it says.",
        "numbers that are counted from 0 or in another list, or documents whose entries have \
         moved since the certificate was written. CROSSING counts on the path, POINT among the \
         observation points of the crossing's device, PROCESS in the point's list.",
        "Audit again, and take the line `L CROSSING POINT PROCESS` that it writes.",
        "FORMATS, a certificate",
    ),
    (
        refusals::LINE_BEHIND_END,
        "A line follows the line `end`.",
        "an empty line at the end of the text, two certificates in one file, or the sentences \
         that `once audit --explain` writes after a certificate.",
        "Remove what follows `end` and its line feed, or audit again without --explain.",
        "FORMATS, a certificate",
    ),
    (
        refusals::SPLIT_TOO_DEEP,
        "A split is below more than 511 others.",
        "a certificate of a program that splits off one value after another.",
        "Split at values in the middle, so that trees grow wide and not deep.",
        "FORMATS, a certificate",
    ),
    (
        refusals::UNASSIGNED_RECORD,
        "A record of a leaf's packets reaches the report without the report's key.",
        "a cache or an aggregation on the way lacks a field of the report's key, or keeps a \
         shorter prefix than the report asks for.",
        "Keep the report's fields in each cache and each aggregation on the way, or ask for a \
         coarser key.",
        "RFC 7015; FORMATS, a network",
    ),
    (
        refusals::TOO_MANY_LINES,
        "A certificate has more than 1,000,000 lines of splits and leaves.",
        "filters and classes on very many values, each of which needs a leaf of its own.",
        "Cut the traffic into several declarations, each with a certificate of its own.",
        "FORMATS, a certificate",
    ),
    (
        refusals::EXEMPT_COUNTED,
        "The packets of a leaf are of an exempt class, and each is counted once.",
        "no filter keeps the exempt traffic, as that of the management, out of the meters on its \
         path, or the class has no region, and so holds the packets of all other classes too.",
        "Keep the packets out by filters (filterMatch), give the class a region that leaves out \
         the packets that are to be counted, or take `exempt` off it.",
        "FORMATS, traffic and a certificate",
    ),
    (
        refusals::PART_REFUSED,
        "A check of a part doesn't accept its documents or its certificate.",
        "a certificate of another part, or of this part before its documents were changed; a \
         refutation in its place; a part that exceeds a limit of one check.",
        "Take the part out of PARTS and run `once check --explain` on its three texts. If the \
         audit of the part found a refutation, mend the network and cut it again.",
        "FORMATS, parts; SCALE",
    ),
    (
        refusals::NOT_A_PART,
        "The network of a part isn't a part of the whole network.",
        "the whole was changed after it was cut, or the part after that; a device was left out \
         to which records of the part are sent; a renamed device or collecting process.",
        "Cut the whole again with `once-part cut`, and audit the parts again.",
        "FORMATS, parts; SCALE",
    ),
    (
        refusals::CLASS_NOT_COVERED,
        "No part covers a class of the whole network.",
        "a part is missing in PARTS, or the class was changed after the cut: a part covers a \
         class if it has one of the same name, region and `exempt`, and for each of its paths \
         one on which the same selection processes meter the packets.",
        "Add the part that has the class, or cut the whole again with `once-part cut`.",
        "FORMATS, parts; SCALE",
    ),
];

/// Returns the rows in the order of their numbers.
pub(crate) fn rows() -> &'static [Row]
    ensures { map (λ r. words_at r.0 r.1.now r.2.now r.3.now r.4.now) result.now ≡ certificates }
{
    CERTIFICATES
}
