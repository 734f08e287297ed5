//! Layouts in the order of the axes, and keys that are projected.
use fx_boxes::Fields;
use fx_elements::Axis;
use fx_layout::{Key, Layout, Seed, Values};
use std::hash::{BuildHasher, Hasher};

/// Returns a packet from 10.1.2.3 to 192.0.2.1.
fn web_packet() -> Fields {
    Fields::of([0x0a01_0203, 0xc000_0201, 6, 1000, 80, 0, 4, 0, 0])
}

/// Returns whether a layout has two parts, the first of the source address.
fn begins_with_source(layout: &Layout) -> bool {
    match layout.parts() {
        [first, _] => first.axis == Axis::Source,
        _ => false,
    }
}

/// Parts that can't be added to a layout of protocol and source, or to any layout.
const NO_PARTS: [(Axis, u32); 6] = [
    (Axis::Source, 16),
    (Axis::Protocol, 7),
    (Axis::Destination, 0),
    (Axis::Destination, 33),
    (Axis::Version, 4),
    (Axis::Source6, 129),
];

/// Returns whether a layout accepts none of these parts.
fn refuses(layout: &Layout, parts: &[(Axis, u32)]) -> bool {
    let mut all = true;
    for (axis, bits) in parts {
        all &= layout.with(*axis, *bits).is_none();
    }
    all
}

/// Returns a layout of the protocol and then of 24 bits of the source.
fn protocol_and_source() -> Option<Layout> {
    Layout::new()
        .with(Axis::Protocol, 8)?
        .with(Axis::Source, 24)
}

#[test]
fn lays_out_in_axis_order(rt: HostRuntime) {
    let layout = protocol_and_source().expect(&rt, "a layout");
    assert!(rt;
        begins_with_source(&layout)
            & refuses(&layout, &NO_PARTS)
            & layout.reads(Axis::Source, 24)
            & !layout.reads(Axis::Source, 25)
            & layout.same(&layout.copy())
    );
}

/// Returns the layout of the given number of leading bits of the source address.
fn source_layout(bits: u32) -> Option<Layout> {
    Layout::new().with(Axis::Source, bits)
}

/// Returns whether a key is that of the web packet under a layout, and has no finer one.
fn is_coarse_key(key: Key, coarse: &Layout, fine: &Layout) -> bool {
    key.same(&coarse.key_of(&web_packet()))
        & key.layout().same(coarse)
        & (key.values() == [0x0a01].as_slice())
        & (key.own_values().as_slice() == key.values())
        & key.project(fine).is_none()
}

/// Returns whether a key of the web packet has its first octet, doesn't precede itself, and is projected.
fn is_projected(key: &Key, coarse: &Layout, fine: &Layout) -> bool {
    let is_whole = (key.bits_on(Axis::Source, 8) == 10) & !key.comes_before(&key.copy());
    match key.project(coarse) {
        Some(projected) => is_whole & is_coarse_key(projected, coarse, fine),
        None => false,
    }
}

/// Returns whether the values of a key under a layout are the given ones.
fn has_values_under(key: &Key, layout: &Layout, values: &[u128]) -> bool {
    let mut found = Values::new();
    key.project_values(layout, &mut found) & (found.as_slice() == values)
}

#[test]
fn projects_the_values_of_a_key(rt: HostRuntime) {
    let fine = source_layout(24).expect(&rt, "a layout");
    let coarse = source_layout(16).expect(&rt, "a layout");
    assert!(rt; has_values_under(&fine.key_of(&web_packet()), &coarse, &[0x0a01]));
}

#[test]
fn makes_the_key_of_values(rt: HostRuntime) {
    let layout = Layout::new();
    let key = Key::of_values(&layout, &Values::new());
    assert!(rt; key.same(&layout.key_of(&web_packet())));
}

/// Returns whether a key that is replaced by the values under a layout, projected from a finer one, is that of the web
/// packet.
fn takes_the_place_by_values(key: &mut Key, fine: &Layout, coarse: &Layout) -> bool {
    let mut values = Values::new();
    if !fine
        .key_of(&web_packet())
        .project_values(coarse, &mut values)
    {
        return false;
    }
    key.become_of_values(coarse, &values.copy());
    is_coarse_key(key.copy(), coarse, fine)
}

#[test]
fn takes_the_place_of_a_key(rt: HostRuntime) {
    let fine = source_layout(24).expect(&rt, "a layout");
    let coarse = source_layout(16).expect(&rt, "a layout");
    let mut key = Key::of_all();
    let is_of_all = key.same(&Layout::new().key_of(&web_packet()));
    key.become_of_packet(&fine, &web_packet());
    let is_of_packet = key.same(&fine.key_of(&web_packet()));
    assert!(rt; is_of_all & is_of_packet & takes_the_place_by_values(&mut key, &fine, &coarse));
}

#[test]
fn keeps_the_values_since_they_were_cleared(rt: HostRuntime) {
    let mut values = Values::new();
    values.push(7);
    values.clear();
    values.push(9);
    assert!(rt; values.as_slice() == [9].as_slice());
}

#[test]
fn projects_a_key(rt: HostRuntime) {
    let fine = source_layout(24).expect(&rt, "a layout");
    let coarse = source_layout(16).expect(&rt, "a layout");
    assert!(rt;
        fine.refines(&coarse)
            & !coarse.refines(&fine)
            & is_projected(&fine.key_of(&web_packet()), &coarse, &fine)
    );
}

/// The numbers were computed in Python.
#[test]
fn hashes_by_a_seed(rt: HostRuntime) {
    let mut hasher = Seed::new(0x0123_4567_89ab_cdef, 0xfedc_ba98_7654_3210).build_hasher();
    hasher.write_u128(0x2001_0db8_0000_0000_0000_0000_0000_0001);
    let first = hasher.finish();
    hasher.write_usize(5);
    hasher.write(b"0123456789");
    assert!(rt; (first == 0xc531_8fe5_81f9_0941) & (hasher.finish() == 0x6544_275f_ab45_1509));
}
