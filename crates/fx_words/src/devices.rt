//! The refusals of documents and devices.
ghost use Rattle.std.specs.Prelude.{◌≡◌, map};
ghost use Rattle.fx_words.specs.Table.{devices};
ghost use Rattle.fx_words.specs.Words.{words_at};

use crate::refusal::Row;
use fx_base::refusals;

/// One row for each number.
pub const DEVICES: &[Row] = &[
    (
        refusals::NOT_JSON,
        "A document is no JSON text in UTF-8.",
        "a comma too many or too few, a comment, single quotes, a byte order mark, another \
         encoding, an empty file, or another file in the document's place. A value more than 127 \
         levels deep and a number of some 309 digits or more are refused so too.",
        "Correct the text at that line and column, or at the end of the line before, or name \
         the right file: --explain prints the place, and what the file is if it is another one. \
         `python3 -m json.tool FILE` prints the place too, but accepts NaN and Infinity, values \
         nested too deeply, numbers that are too large, and halves of surrogate pairs.",
        "RFC 8259, sections 2 and 8.1",
    ),
    (
        refusals::UNKNOWN_MEMBER,
        "An object has a member that may not be there.",
        "a misspelled name, a member of the configuration model that isn't read here (as \
         ifIndex, or one of another module), a member in the wrong object, or another document in \
         this one's place: a traffic declaration where the network is due, or the reverse.",
        "Look the object up in docs/FORMATS.md, and correct the name, move the member or take it \
         out.",
        "RFC 6728, section 4; FORMATS, the object's table",
    ),
    (
        refusals::MISSING_MEMBER,
        "A member that has to be there is missing, or a list that has to have an entry is empty.",
        "a member that was left out or misspelled, a choice of which no case is there (the kind \
         of a selector, of a cache, of a destination), a prefix element in a key without \
         prefixLength, or another document instead of this one.",
        "The place is the object that lacks the member, or the empty list; where the place is \
         empty, it is the whole document. Add what docs/FORMATS.md marks there with a star.",
        "FORMATS, the object's table",
    ),
    (
        refusals::WRONG_KIND,
        "A value is of another JSON type than its member requires.",
        "a number of a configuration in quotes, a bare number in a region (its values are texts, \
         as \"80\") or a list there, a single value or an object where a list is due, null or false \
         where an empty type is written [null], or a part of a document in a document's place.",
        "Write numbers of a configuration bare, names, addresses and the values of regions as \
         texts, lists in brackets, and empty types as [null]; for no, leave the member out.",
        "RFC 7951, section 6; FORMATS",
    ),
    (
        refusals::BAD_VALUE,
        "A value is of the right kind, but isn't allowed.",
        "a number out of its range, a name that is empty, too long (over 255 octets) or has \
         white space at an end, two members of one choice, an axis twice in an aggregation's \
         key, or a filter on an element that has no axis or can't have that value. Names of \
         elements are compared exactly, upper and lower case too.",
        "The place is the member; for a filter, a match or a key field it is the object that has \
         the element. Write the value as docs/FORMATS.md has it: addresses without leading \
         zeros, prefixes of IPv4 from /1 to /32, of IPv6 to /128, protocols and ports as decimal \
         texts.",
        "FORMATS, a device",
    ),
    (
        refusals::NAME_TWICE,
        "A name occurs twice in its list.",
        "an entry that was copied and not renamed, or configurations that were merged.",
        "The place is the second of the two: give that entry another name, and change the \
         references to it.",
        "RFC 6728, section 4; FORMATS, names",
    ),
    (
        refusals::UNKNOWN_NAME,
        "A reference names nothing.",
        "a misspelled name, letters of another case, or an entry that was renamed or taken out \
         while a reference to it stayed.",
        "The place is the reference: name a selection process, a cache or an exporting process \
         of the same device, letter by letter.",
        "RFC 6728, section 4",
    ),
    (
        refusals::SAMPLING_SELECTOR,
        "A selector samples packets, and totals over a sample aren't exact.",
        "a configuration taken over from a meter under load: sampCountBased, sampTimeBased, \
         sampRandOutOfN or sampUniProb.",
        "Select all packets (selectAll), or filter by a property (filterMatch). What a sampling \
         meter exports can't be audited for exact totals.",
        "RFC 5475, section 5",
    ),
    (
        refusals::HASH_FILTER,
        "A selector filters by a hash over a packet's content (filterHash), and totals over what \
         it selects aren't exact.",
        "a PSAMP configuration that is to follow single packets over several observation points.",
        "Remove the selector, or filter by a property (filterMatch) instead.",
        "RFC 5475, section 6.2",
    ),
    (
        refusals::CACHE_COUNTER_LENGTH,
        "octetDeltaCount or packetDeltaCount has another length than 8 octets in a cache's \
         layout.",
        "reduced-size encoding: exporters are often set to counters of 4 octets.",
        "Set ieLength to 8 or leave it out, and the exporter to 8 octets. A shorter counter \
         wraps, and its record doesn't say that it did.",
        "RFC 7011, section 6.2",
    ),
    (
        refusals::TOTAL_COUNTER,
        "A cache has a counter since the beginning of the metering, octetTotalCount (85) or \
         packetTotalCount (86).",
        "an exporter that sends running totals in each record, which can't be added up.",
        "Use octetDeltaCount (1) and packetDeltaCount (2) instead.",
        "RFC 7012, section 3.2",
    ),
    (
        refusals::KEY_WITHOUT_AXIS,
        "A flow key is none of the nine elements by which packets are distinguished here.",
        "a misspelled ieName: names of elements are compared exactly, upper and lower case too. \
         Or a key of another kind: an interface, an AS number, a prefix, an element with an \
         enterprise number.",
        "Write one of the nine elements of docs/FORMATS.md, by ieName or by ieId, or take \
         isFlowKey off the field.",
        "RFC 6728, section 4.3.3; FORMATS, the nine axes",
    ),
    (
        refusals::FILE_TRANSPORT,
        "A destination writes a file (fileWriter), or a collecting process reads one \
         (fileReader).",
        "a device that keeps its flow records on a disk of its own.",
        "Write tcpExporter, sctpExporter or udpExporter at the destination, and leave fileReader \
         out. `once collect` totals the IPFIX messages of a file.",
        "RFC 6728, sections 4.4 and 4.5",
    ),
    (
        refusals::MISSING_COUNTER,
        "A cache's layout lacks octetDeltaCount (1) or packetDeltaCount (2).",
        "a template that has only one of the two, or a counter whose ieName is misspelled.",
        "Put both counters among the cache's fields, 8 octets long each.",
        "RFC 6728, section 4.3.3; FORMATS, a device",
    ),
    (
        refusals::TOO_MANY_ENTRIES,
        "A list of a device or of a network has too many entries.",
        "a list longer than these: a network has at most 64 devices, 1,024 links and 256 \
         collecting processes in all; a selection process has 16 selectors, a layout and a key \
         32 fields, another list of a device 256 entries.",
        "Leave out what none of the report's records pass, or audit parts of the network by \
         themselves.",
        "FORMATS, a network",
    ),
];

/// Returns the rows in the order of their numbers.
pub(crate) fn rows() -> &'static [Row]
    ensures { map (λ r. words_at r.0 r.1.now r.2.now r.3.now r.4.now) result.now ≡ devices }
{
    DEVICES
}
