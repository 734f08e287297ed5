//! The refusals of searches (601) and streams.
ghost use Rattle.std.specs.Prelude.{◌≡◌, map};
ghost use Rattle.fx_words.specs.Table.{streams};
ghost use Rattle.fx_words.specs.Words.{words_at};

use crate::refusal::Row;
use fx_base::refusals;

/// One row for each number.
pub const STREAMS: &[Row] = &[
    (
        refusals::SEARCH_TOO_LARGE,
        "The audit has found neither a certificate nor a refutation within its limits.",
        "filters and classes on very many values: a certificate would need more lines of splits \
         and leaves than --limit says (1,000,000 where it isn't given), or a split below more \
         than 511 others. Or each run that shows a wrong total has more than 1,000,000 steps.",
        "Leave --limit out or raise it, or cut the traffic into several declarations, and audit \
         each.",
        "FORMATS, what audit prints",
    ),
    (
        refusals::MESSAGE_VERSION,
        "A message has another version than 10, so it is no IPFIX message.",
        "a capture (pcap or pcapng) instead of the messages alone, NetFlow of version 5 or 9, \
         or other octets between the messages.",
        "Have the exporter send IPFIX (version 10), and give the messages alone, one after \
         another: docs/GUIDE.md says how to extract them from a capture.",
        "RFC 7011, section 3.1",
    ),
    (
        refusals::MESSAGE_LENGTH,
        "A message's length is below 16 octets, or the stream ends inside the message.",
        "a stream that was cut off, octets that were lost before that place, or a header that was \
         made wrong.",
        "Take the stream up to the end of a message; where it was taken from datagrams, look for \
         one that was captured in part. Where the header's length is below 16, look at how the \
         messages were made or taken out.",
        "RFC 7011, section 3.1",
    ),
    (
        refusals::SET_LENGTH,
        "A set's length is below 4 octets, or the set passes its message's end.",
        "octets that were lost or changed on the way, or a fault of the exporter.",
        "Look at the message with another reader, such as tshark, and have the exporter \
         corrected.",
        "RFC 7011, section 3.3.2",
    ),
    (
        refusals::TEMPLATE_FORM,
        "A template record or an options template record has no valid form.",
        "a field has a length that its element can't have: an address other than 4 or 16 octets, \
         a prefix length other than 1, a port or a protocol more octets than its own or a \
         variable length. Or the record is cut, its id is below 256, or an options template has \
         no scope fields.",
        "Look at the template with another reader, as tshark. Where elements have lengths that \
         they can't have, have the exporter send them in their own; else its octets are wrong \
         where they were made or taken out.",
        "RFC 7011, sections 3.2 and 3.4",
    ),
    (
        refusals::RESERVED_SET,
        "A set has an id that is reserved: 0, 1 or 4 to 255.",
        "the sets of NetFlow version 9 (0 and 1) in a message that says version 10, or octets \
         that were changed on the way.",
        "Have the exporter send template sets under 2, options template sets under 3, and data \
         sets from 256 on.",
        "RFC 7011, section 3.3.2",
    ),
    (
        refusals::TEMPLATE_CHANGED,
        "A template is declared under an id that another one has.",
        "an exporter that was set anew or restarted inside the stream, streams of several \
         exporters in one file, or one id for a template and an options template.",
        "Begin a stream where the exporter was restarted, keep exporters apart, and have an \
         exporter withdraw a template before it changes it.",
        "RFC 7011, section 8.1",
    ),
    (
        refusals::NO_TEMPLATE,
        "A set of data has no template.",
        "a stream that begins after its templates, as captures of UDP do, messages that are \
         missing or out of order, a template that was withdrawn before, or one of another \
         observation domain.",
        "Take the stream from its beginning, or from a message on in which the exporter sends \
         its templates again; where it withdrew the template or has it in another observation \
         domain, the exporter is to declare it there.",
        "RFC 7011, sections 8 and 9",
    ),
    (
        refusals::TEMPLATE_COUNTER_LENGTH,
        "A counter of flows (octetDeltaCount or packetDeltaCount) has another length than 8 \
         octets in a template.",
        "reduced-size encoding: softflowd, among others, sends counters of 4 octets.",
        "Have the exporter send 8 octets, as pmacctd does. A shorter counter wraps, and its \
         message doesn't say that it did.",
        "RFC 7011, section 6.2",
    ),
    (
        refusals::RECORD_PAST_SET,
        "A data record passes its set's end.",
        "a value of variable length whose length is wrong, or a record that is cut.",
        "Look at the message with another reader, such as tshark, and have the exporter \
         corrected.",
        "RFC 7011, sections 3.3.1 and 7",
    ),
    (
        refusals::PREFIX_LENGTH,
        "A prefix is longer than its address: above 32 bits, of IPv6 above 128.",
        "an exporter that sends another number in the length of a prefix (element 9, 13, 29 or \
         30).",
        "Have the exporter send the number of leading bits there.",
        "FORMATS, streams",
    ),
];

/// Returns the rows in the order of their numbers.
pub(crate) fn rows() -> &'static [Row]
    ensures { map (λ r. words_at r.0 r.1.now r.2.now r.3.now r.4.now) result.now ≡ streams }
{
    STREAMS
}
