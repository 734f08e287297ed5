//! Bundles: how they are divided into a command and its texts, and octets of another shape.
use crate::audit_texts::{CERTIFICATE, NETWORK, RUN, TOTALS, TRAFFIC, ending, seed};
use fx_audit::{Answer, bundle_bytes};
use fx_base::{Fuse, Octets, Room};
use std::alloc::Global;
use std::process::Abort;

/// Returns whether a bundle has this outcome and this text is written.
fn ends(alloc: Global, bundle: &[u8], wanted: Result<Answer, u16>, text: &[u8]) -> bool {
    let mut source = Octets::new(bundle);
    let mut octets = [0u8; 256];
    let mut room = Room::new(&mut octets);
    let found = ending(bundle_bytes(alloc, seed(), &mut source, &mut room));
    found == wanted && room.octets() == text
}

/// Returns whether the bundle of a command, the network and two more texts has this outcome and this text is written.
fn ends_over_network(
    rt: &impl Abort,
    alloc: Global,
    texts: [&[u8]; 3],
    wanted: Result<Answer, u16>,
    text: &[u8],
) -> bool {
    let [command, traffic, last] = texts;
    let end = b"%%\n".as_slice();
    let bundle = [command, NETWORK.as_bytes(), end, traffic, end, last, end].concat(alloc);
    ends(alloc, bundle.expect(rt, "memory").as_slice(), wanted, text)
}

/// Texts of another shape; the last is a bundle whose traffic contains a line `%%%`.
const OTHER_SHAPES: &[(&[u8], u16)] = &[
    (b"", 801),
    (b"replay", 801),
    (b"checks\n%%\n%%\n%%\n", 801),
    (b"collect\n%%\n%%\n%%\n", 801),
    (b"replay\n%%\n%%\n", 801),
    (b"replay\n%%\n%%\n%%", 801),
    (b"replay\n%%\n%%\n%%\n%%\n", 801),
    (b"replay\n%%\n%%\na%%\n", 801),
    (b" replay\n%%\n%%\n%%\n", 801),
    (b"audit\n%%\n", 801),
    (b"audit\n%%\n%%\n%%\n", 801),
    (b"audit\n{\n%%\n{\n%%\n", 101),
    (b"replay\n{\n%%\n{\n%%\n", 801),
    (b"replay\n{}\n%%\n[]\n%%%\n%%\n%%\n", 103),
];

#[test]
fn refuses_other_shapes(rt: HostRuntime) {
    for (bundle, number) in OTHER_SHAPES {
        assert!(rt; ends(rt.alloc(), bundle, Err(*number), b""));
    }
}

#[test]
fn answers_bundles(rt: HostRuntime) {
    let (alloc, traffic, yes) = (rt.alloc(), TRAFFIC.as_bytes(), Ok(Answer::Yes));
    let no = b"no 501\n";
    assert!(rt;
        ends_over_network(&rt, alloc, [b"replay\n", traffic, RUN], yes, TOTALS)
            & ends_over_network(
                &rt,
                alloc,
                [b"check\n", traffic, CERTIFICATE],
                yes,
                b"yes\n"
            )
            & ends_over_network(
                &rt,
                alloc,
                [b"confirm\n", traffic, b"x\n"],
                Ok(Answer::No),
                no
            )
    );
}

/// The bundle of an audit has two texts.
#[test]
fn answers_a_bundle_of_an_audit(rt: HostRuntime) {
    let (network, traffic, end) = (NETWORK.as_bytes(), TRAFFIC.as_bytes(), b"%%\n".as_slice());
    let bundle = [b"audit\n".as_slice(), network, end, traffic, end].concat(rt.alloc());
    let bundle = bundle.expect(&rt, "memory");
    assert!(rt; ends(rt.alloc(), bundle.as_slice(), Ok(Answer::Yes), CERTIFICATE));
}

/// The traffic of bundles, and the number with which they are refused for their content: a line `%%%`, a list, no line
/// in the run.
const REFUSED: [(&str, u16); 3] = [("[]\n%%%\n", 101), ("[]\n", 104), (TRAFFIC, 855)];

#[test]
fn refuses_texts_of_bundles(rt: HostRuntime) {
    for (traffic, number) in &REFUSED {
        let texts = [b"replay\n".as_slice(), traffic.as_bytes(), b""];
        assert!(rt; ends_over_network(&rt, rt.alloc(), texts, Err(*number), b""));
    }
}

/// Returns the outcome of a bundle if its read and its write with these numbers fail, or none for 0.
fn failing(alloc: Global, bundle: &[u8], read: u64, write: u64) -> Result<Answer, u16> {
    let mut source = Fuse::new(Octets::new(bundle), read);
    let mut octets = [0u8; 64];
    let mut sink = Fuse::new(Room::new(&mut octets), write);
    ending(bundle_bytes(alloc, seed(), &mut source, &mut sink))
}

/// A bundle is read in one call, and a second one finds its end; its answer is written in one call.
const FAILING: [(u64, u64, Result<Answer, u16>); 4] = [
    (0, 0, Ok(Answer::Yes)),
    (1, 0, Err(901)),
    (2, 0, Err(901)),
    (0, 1, Err(902)),
];

#[test]
fn fails_with_its_devices(rt: HostRuntime) {
    let (network, traffic, end) = (NETWORK.as_bytes(), TRAFFIC.as_bytes(), b"%%\n".as_slice());
    let texts = [
        b"check\n".as_slice(),
        network,
        end,
        traffic,
        end,
        CERTIFICATE,
        end,
    ];
    let bundle = texts.concat(rt.alloc()).expect(&rt, "memory");
    for (read, write, wanted) in &FAILING {
        assert!(rt; failing(rt.alloc(), bundle.as_slice(), *read, *write) == *wanted);
    }
}
