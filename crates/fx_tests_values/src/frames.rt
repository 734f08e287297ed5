//! Captures of frames generated with scapy, each of which must contain what tshark reports for it
//! (`tests/make_capture_frames.py`).
mod ipv6;
mod raw;
mod tags;

use fx_base::{Octets, Source};
use fx_elements::AXES;
use fx_pcap::{Capture, Frame, Skipped};
use std::alloc::Global;

/// The content of a frame.
#[derive(Clone, Copy)]
pub(crate) enum Held {
    /// A packet: its value on each axis, its octets, and the second in which it was captured.
    Packet([u128; AXES], u32, u32),
    Other,
    Malformed,
}

/// Returns whether a lent frame contains this packet.
fn holds(frame: &Frame<'_>, values: &[u128; AXES], octets: u32, second: u32) -> bool {
    frame.fields.array() == *values && frame.octets == octets && frame.second == second
}

/// Returns the index of the first frame with other content than expected, or `None` if the capture has exactly the
/// expected frames.
fn first_other<S: Source>(capture: &mut Capture<S>, reported: &[Held]) -> Option<usize> {
    let mut skipped = Skipped {
        other: 0,
        malformed: 0,
    };
    for (n, frame) in reported.iter().enumerate() {
        match frame {
            Held::Other => skipped.other = skipped.other.wrapping_add(1),
            Held::Malformed => skipped.malformed = skipped.malformed.wrapping_add(1),
            Held::Packet(values, octets, second) => {
                if !capture.advance().unwrap_or(false)
                    || capture.skipped() != skipped
                    || !holds(&capture.frame(), values, *octets, *second)
                {
                    return Some(n);
                }
            }
        }
    }
    let is_end = !capture.advance().unwrap_or(true) && capture.skipped() == skipped;
    if is_end { None } else { Some(reported.len()) }
}

/// Returns the index of the first frame with other content than expected in a capture with these octets.
fn first_other_of(alloc: Global, octets: &[u8], reported: &[Held]) -> Option<usize> {
    match Capture::new(alloc, Octets::new(octets)) {
        Ok(mut capture) => first_other(&mut capture, reported),
        Err(_) => Some(0),
    }
}

#[test]
fn holds_what_tshark_tells(rt: HostRuntime) {
    for (octets, reported) in &[
        (ipv6::IPV6.as_slice(), ipv6::IPV6_TOLD.as_slice()),
        (&tags::TAGS, &tags::TAGS_TOLD),
        (&raw::LITTLE, &raw::LITTLE_TOLD),
        (&raw::BIG, &raw::BIG_TOLD),
    ] {
        assert_eq!(rt; first_other_of(rt.alloc(), octets, reported), None);
    }
}
