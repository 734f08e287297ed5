//! Drawings of a network, its traffic and a certificate.
use crate::audit_texts::{CERTIFICATE, NETWORK, TRAFFIC};
use fx_base::Room;
use fx_drawings::put_drawing;
use std::alloc::Global;

/// Returns whether a drawing has this line.
fn has_line(drawing: &str, wanted: &str) -> bool {
    let mut found = false;
    for line in drawing.lines() {
        found |= line.trim() == wanted;
    }
    found
}

/// Returns whether a drawing has these lines.
fn has_lines(drawing: &str, wanted: &[&str]) -> bool {
    let mut all = true;
    for line in wanted {
        all &= has_line(drawing, *line);
    }
    all
}

/// Returns whether a drawing has these lines, or fails with the number of its refusal.
fn draws(
    alloc: Global,
    traffic: Option<&[u8]>,
    said: Option<&[u8]>,
    wanted: &[&str],
) -> Result<bool, u16> {
    let mut octets = [0u8; 4096];
    let mut room = Room::new(&mut octets);
    match put_drawing(alloc, NETWORK.as_bytes(), traffic, said, None, &mut room) {
        Ok(()) => Ok(has_lines(str::from_utf8(room.octets()).unwrap_or(""), wanted)),
        Err(fault) => Err(fault.number),
    }
}

/// The edges from each part to the next, and over the link.
const FED: [&str; 6] = [
    "digraph network {",
    "point1_1_0 -> selection1_1_0;",
    "selection1_1_0 -> cache1_1_0;",
    "cache1_1_0 -> exporter1_1_0;",
    "exporter1_1_0 -> collector2_1_0 [label=\"d\", penwidth=2];",
    "}",
];

/// The edge of packets at their crossing.
const CROSSING: [&str; 1] = [
    "packets1_1_0 -> point1_1_0 [color=blue, fontcolor=blue, style=dashed, label=\"crossing 1\"];",
];

/// The edge of packets where they are counted.
const COUNTED: [&str; 1] = [
    "packets1_1_0 -> point1_1_0 [color=darkgreen, fontcolor=darkgreen, penwidth=3, label=\"counted at crossing 1\"];",
];

#[test]
fn draws_what_is_accepted(rt: HostRuntime) {
    let (alloc, traffic) = (rt.alloc(), Some(TRAFFIC.as_bytes()));
    assert!(rt;
        (draws(alloc, None, None, &FED) == Ok(true))
            & (draws(alloc, traffic, None, &CROSSING) == Ok(true))
            & (draws(alloc, traffic, Some(CERTIFICATE), &COUNTED) == Ok(true))
    );
}

#[test]
fn draws_nothing_of_what_is_refused(rt: HostRuntime) {
    let traffic = Some(TRAFFIC.as_bytes());
    let wrong = b"once-certificate 1\nclass 1 path 1\nL 1 1 2\nend\n".as_slice();
    assert!(rt;
        (draws(rt.alloc(), traffic, Some(wrong), &[]) == Err(410))
            & (draws(rt.alloc(), Some(b"{"), None, &[]) == Err(101))
    );
}
