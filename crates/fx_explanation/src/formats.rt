//! Recognizing other file formats by their first octets where an IPFIX message is expected.

/// Returns a description of octets that are no IPFIX message, with what to do about it.
pub fn format_of(octets: &[u8]) -> Option<&'static str> {
    capture_format(octets)
        .or(flow_format(octets))
        .or(packed_format(octets))
        .or(text_format(octets))
}

/// Returns whether octets begin a pcap capture.
pub(crate) fn is_pcap(octets: &[u8]) -> bool {
    matches!(
        octets,
        [0xa1, 0xb2, 0xc3, 0xd4, ..]
            | [0xd4, 0xc3, 0xb2, 0xa1, ..]
            | [0xa1, 0xb2, 0x3c, 0x4d, ..]
            | [0x4d, 0x3c, 0xb2, 0xa1, ..]
    )
}

/// Returns whether octets begin a pcapng capture.
pub fn is_pcapng(octets: &[u8]) -> bool {
    octets.starts_with(b"\x0a\x0d\x0d\x0a")
}

/// The first octets of a file format, and its description.
#[derive(Clone, Copy)]
struct KnownFormat {
    begins: &'static [u8],
    words: &'static str,
}

/// Messages of other flow protocols, with their descriptions.
const FLOWS: &[KnownFormat] = &[
    KnownFormat {
        begins: b"\x00\x05",
        words: "This is version 5: a datagram of NetFlow 5 instead of IPFIX. Have the exporter send IPFIX (version 10).",
    },
    KnownFormat {
        begins: b"\x00\x09",
        words: "This is version 9: a datagram of NetFlow 9 instead of IPFIX. Have the exporter send IPFIX (version 10).",
    },
    KnownFormat {
        begins: b"\x00\x00\x00\x05",
        words: "These octets begin a datagram of sFlow 5 instead of IPFIX. Have the exporter send IPFIX (version 10).",
    },
    KnownFormat {
        begins: b"\x0c\xa5",
        words: NFDUMP,
    },
    KnownFormat {
        begins: b"\xa5\x0c",
        words: NFDUMP,
    },
];

/// The description of an nfdump file, in either byte order.
const NFDUMP: &str =
    "These octets begin a file of nfdump, which nfcapd wrote, and not what the exporter sent. Capture that: docs/GUIDE.md says how to take the messages out.";

/// Compressed files.
const PACKED: &[KnownFormat] = &[
    KnownFormat {
        begins: b"\x1f\x8b",
        words: "These octets begin a file of gzip. Unpack it first.",
    },
    KnownFormat {
        begins: b"\xfd7zXZ\x00",
        words: "These octets begin a file of xz. Unpack it first.",
    },
    KnownFormat {
        begins: b"\x28\xb5\x2f\xfd",
        words: "These octets begin a file of zstd. Unpack it first.",
    },
    KnownFormat {
        begins: b"BZh",
        words: "These octets begin a file of bzip2. Unpack it first.",
    },
];

/// Returns the description of the first of these formats whose first octets these are.
fn words_of(formats: &[KnownFormat], octets: &[u8]) -> Option<&'static str> {
    for format in formats {
        if octets.starts_with(format.begins) {
            return Some(format.words);
        }
    }
    None
}

/// Returns a description of octets that begin a capture.
fn capture_format(octets: &[u8]) -> Option<&'static str> {
    if is_pcap(octets) {
        Some(
            "These octets begin a capture (pcap). The messages are inside its packets: docs/GUIDE.md explains how to extract them.",
        )
    } else if is_pcapng(octets) {
        Some(
            "These octets begin a capture (pcapng). The messages are inside its packets: docs/GUIDE.md explains how to extract them.",
        )
    } else {
        None
    }
}

/// Returns a description of octets that begin a message of another flow protocol.
pub fn flow_format(octets: &[u8]) -> Option<&'static str> {
    words_of(FLOWS, octets)
}

/// Returns a description of octets that begin a compressed file.
pub fn packed_format(octets: &[u8]) -> Option<&'static str> {
    words_of(PACKED, octets)
}

/// Returns whether octets begin a text.
pub fn is_text(octets: &[u8]) -> bool {
    let Some(first) = octets.get(..4) else {
        return false;
    };
    for octet in first {
        if !octet.is_ascii_graphic() && !octet.is_ascii_whitespace() {
            return false;
        }
    }
    true
}

/// Returns whether octets begin the hexadecimal digits of an IPFIX message.
fn is_digits_of_message(octets: &[u8]) -> bool {
    matches!(
        octets,
        [b'0', b'0', b'0', b'a' | b'A', ..] | [b'0', b'0', b' ', b'0', b'a' | b'A', ..]
    )
}

/// Returns a description of octets that begin a text.
fn text_format(octets: &[u8]) -> Option<&'static str> {
    if is_digits_of_message(octets) {
        return Some(
            "These octets are the hexadecimal digits of messages, as tshark prints them: xxd -r -p OLD > NEW makes octets of them.",
        );
    }
    is_text(octets).then_some(
        "These octets are text. Messages are octets; is the file another one than the stream, as a network document?",
    )
}
