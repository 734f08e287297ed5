//! The refusals of captures.
ghost use Rattle.std.specs.Prelude.{◌≡◌, map};
ghost use Rattle.fx_words.specs.Table.{captures};
ghost use Rattle.fx_words.specs.Words.{words_at};

use crate::refusal::Row;
use fx_base::refusals;

/// One row for each number.
pub const CAPTURES: &[Row] = &[
    (
        refusals::CAPTURE_FORMAT,
        "A capture's file header isn't that of classic pcap, version 2.4.",
        "a file of pcapng, which Wireshark and tshark write where nothing else is asked for, a \
         compressed file, an empty one, or the files in another order.",
        "Give a capture in classic pcap that has its whole file header: one in pcapng is \
         converted by `tshark -r OLD -F pcap -w NEW`. The order of the files is NETWORK TRAFFIC \
         CAPTURE SCHEDULE.",
        "FORMATS, captures",
    ),
    (
        refusals::LINK_TYPE,
        "A capture's link type is neither 1 (Ethernet) nor 101 (IP).",
        "a capture on all interfaces of Linux at once (113 or 276), or of wireless frames (105 \
         or 127).",
        "Capture on one Ethernet interface.",
        "FORMATS, captures",
    ),
    (
        refusals::CAPTURE_CUT,
        "A capture ends inside a record.",
        "a capture that was copied while it was being written, or a full disk.",
        "Take the file when the capture has ended, or write its whole records anew: `tshark -r \
         OLD -F pcap -w NEW`.",
        "FORMATS, captures",
    ),
    (
        refusals::LONG_CAPTURE_RECORD,
        "A captured record has more than 262,144 octets.",
        "a file that was damaged before that place: no program captures such frames.",
        "Capture again, or take the records before that place alone.",
        "FORMATS, captures",
    ),
];

/// Returns the rows in the order of their numbers.
pub(crate) fn rows() -> &'static [Row]
    ensures { map (λ r. words_at r.0 r.1.now r.2.now r.3.now r.4.now) result.now ≡ captures }
{
    CAPTURES
}
