//! Explaining why a capture can't be read.
ghost use Rattle.std.specs.Prelude.{◌≡◌, ◌⊎◌, IfErr, OnOk};
ghost use Rattle.fx_base.specs.Device.{IsWriteFault, KeepsGoing};
ghost use Rattle.fx_base.specs.Fault.{IsMemory};
ghost use Rattle.fx_explanation.specs.Explanations.{WritesExplanation};

use fx_base::{Fault, Sink, put_text, refusals};
use fx_explanation::{
    Explanation, flow_format, is_pcapng, is_text, number16, number32, packed_format, write_digits,
};
use std::alloc::Global;

/// The size of a capture's file header in octets.
const HEADER: usize = 24;

/// Returns whether the numbers of the capture that octets begin have the lower octet first, or `None` if the octets
/// begin no capture.
fn is_reversed(octets: &[u8]) -> Option<bool> {
    match number32(octets, 0) {
        0xd4c3_b2a1 | 0x4d3c_b2a1 => Some(true),
        0xa1b2_c3d4 | 0xa1b2_3c4d => Some(false),
        _ => None,
    }
}

/// Returns a description of octets that begin no capture of a supported form, with what to do about it.
fn other_format(octets: &[u8]) -> &'static str {
    if octets.is_empty() {
        "The file is empty."
    } else if is_pcapng(octets) {
        "These octets begin a capture in pcapng. Convert it: tshark -r OLD -F pcap -w NEW."
    } else if octets.starts_with(b"\xa1\xb2\xcd\x34") || octets.starts_with(b"\x34\xcd\xb2\xa1") {
        "These octets begin a capture in an older form of pcap. Convert it: tshark -r OLD -F pcap -w NEW."
    } else if octets.starts_with(b"snoop\0\0\0") {
        "These octets begin a capture of snoop. Convert it: tshark -r OLD -F pcap -w NEW."
    } else if octets.starts_with(b"\x00\x0a") {
        "These octets begin a message of IPFIX (version 10). once collect takes a stream of these; once run takes a capture of the packets that are metered."
    } else {
        foreign_format(octets)
    }
}

/// Returns a description of octets that begin no capture at all, with what to do about it.
fn foreign_format(octets: &[u8]) -> &'static str {
    match packed_format(octets).or(flow_format(octets)) {
        Some(words) => words,
        None if is_text(octets) => {
            "These octets are text. The order of the files is: network, traffic, capture, schedule."
        }
        None => {
            "A capture begins with the octets a1 b2 c3 d4 or a1 b2 3c 4d, or with these in reverse order."
        }
    }
}

/// Returns a 16-bit number of a capture's header, in the given octet order.
fn number_at(octets: &[u8], index: usize, reversed: bool) -> u16 {
    let number = number16(octets, index);
    if reversed {
        number.swap_bytes()
    } else {
        number
    }
}

/// Writes what is wrong with the header of a capture.
fn write_header(out: &mut Explanation, octets: &[u8], reversed: bool) {
    if octets.len() < HEADER {
        out.text_number(
            "The file ends inside of a capture's header, which has 24 octets; octets there are: ",
            octets.len() as u64,
        );
        out.end_line();
        return;
    }
    out.text_number(
        "It is a capture in pcap of version ",
        u64::from(number_at(octets, 4, reversed)),
    );
    out.text_number(".", u64::from(number_at(octets, 6, reversed)));
    out.sentence("; version 2.4 is read. Convert it: tshark -r OLD -F pcap -w NEW.");
}

/// Writes what the octets are that a file begins with which was given as a capture.
fn write_format(out: &mut Explanation, octets: &[u8]) {
    out.text("the first octets of the capture:");
    write_digits(out, octets);
    out.end_line();
    match is_reversed(octets) {
        Some(reversed) => write_header(out, octets, reversed),
        None => out.sentence(other_format(octets)),
    }
}

/// The names of link types that aren't supported, from tcpdump's registry, with what their frames are.
const LINKS: [(u32, &str); 16] = [
    (0, " (NULL: the loopback of BSD)"),
    (9, " (PPP)"),
    (
        12,
        " (RAW: IP under a number that some systems write; 101 is read)",
    ),
    (
        14,
        " (RAW: IP under a number that some systems write; 101 is read)",
    ),
    (50, " (PPP)"),
    (105, " (IEEE802_11: wireless frames)"),
    (108, " (LOOP: the loopback of OpenBSD)"),
    (113, " (LINUX_SLL: all interfaces of Linux at once)"),
    (127, " (IEEE802_11_RADIOTAP: wireless frames)"),
    (189, " (USB_LINUX)"),
    (192, " (PPI)"),
    (220, " (USB_LINUX)"),
    (228, " (IPV4)"),
    (229, " (IPV6)"),
    (249, " (USBPCAP)"),
    (276, " (LINUX_SLL2: all interfaces of Linux at once)"),
];

/// Returns the name of a link type, with what its frames are.
fn link_words(number: u32) -> &'static str {
    for (known, words) in &LINKS {
        if *known == number {
            return words;
        }
    }
    ""
}

/// Writes the link type of a capture.
fn write_link(out: &mut Explanation, octets: &[u8]) {
    let Some(reversed) = is_reversed(octets) else {
        return;
    };
    let number = number32(octets, 20);
    let number = if reversed {
        number.swap_bytes()
    } else {
        number
    };
    out.text_number("the link type of the capture: ", u64::from(number));
    out.text(link_words(number));
    out.sentence("; 1 (ETHERNET) and 101 (RAW) are read");
}

/// Explains in sentences why a capture isn't read. For an unsupported form (701), writes its first octets and what they
/// begin; for an unsupported link type (702), that type's number and name. The octets are the first 24 of the file, or
/// all if it has fewer. The text has no control characters but line feeds.
///
/// Fails with 900 if out of memory, and then nothing is written, and with 902 if a write fails.
pub fn put_refused_capture<S: Sink>(
    alloc: Global,
    octets: &[u8],
    fault: &Fault,
    sink: &mut S,
) -> Result<(), Fault>
    ensures ok { OnOk result (WritesExplanation (S.taken sink.old) (S.taken sink.new)) }
    ensures going { OnOk result (KeepsGoing (S.failed sink.old) (S.failed sink.new)) }
    ensures err { IfErr result (λ e. (IsMemory e × (sink.new ≡ sink.old))
        ⊎ IsWriteFault (S.failed sink.new) e) }
{
    let mut out = Explanation::new(alloc);
    match fault.number {
        refusals::CAPTURE_FORMAT => write_format(&mut out, octets),
        refusals::LINK_TYPE => write_link(&mut out, octets),
        _ => {}
    }
    put_text(sink, out.octets()?)
}
