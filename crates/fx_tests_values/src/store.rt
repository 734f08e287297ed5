//! Stores that are filled and emptied, and what leaves a full one.
use fx_base::{Counts, Fault};
use fx_boxes::Fields;
use fx_elements::Axis;
use fx_layout::{Key, Layout, Seed};
use fx_store::{BoundedStore, FlowStore, ListStore};
use std::process::Abort;

/// The counts of one packet.
const COUNTS: Counts = Counts {
    packets: 1,
    octets: 10,
};

/// Returns the seed of all stores here.
fn seed() -> Seed {
    Seed::new(1, 2)
}

/// Returns the key of packets from this address by the given number of its bits.
fn from(rt: &impl Abort, source: u32, bits: u32) -> Key {
    let layout = Layout::new()
        .with(Axis::Source, bits)
        .expect(rt, "a layout");
    layout.key_of(&Fields::of([u128::from(source), 0, 0, 0, 0, 0, 4, 0, 0]))
}

/// Returns the address that left a store, or 0 if none did.
fn address(left: Option<(Key, Counts)>) -> u128 {
    match left {
        Some((key, _)) => key.bits_on(Axis::Source, 32),
        None => 0,
    }
}

/// Returns whether this address, or none for 0, left a store when it took something in.
fn is_left(answer: Result<Option<(Key, Counts)>, Fault>, left: u128) -> bool {
    match answer {
        Ok(found) => address(found) == left,
        Err(_fault) => false,
    }
}

/// Adds one packet of ten octets from an address. Returns whether the address `left`, or none for 0, left then.
fn adds<S: FlowStore>(rt: &impl Abort, store: &mut S, source: u32, left: u128) -> bool {
    is_left(store.add(from(rt, source, 32), COUNTS), left)
}

/// Removes the least key, and returns its address and counts.
fn least<S: FlowStore>(store: &mut S) -> Option<(u128, u64, u64)> {
    let (key, counts) = store.take_least()?;
    Some((key.bits_on(Axis::Source, 32), counts.packets, counts.octets))
}

/// Adds at three keys, one of them twice, and empties the store in order. Returns whether it contained them.
fn is_filled_and_emptied<S: FlowStore>(rt: &impl Abort, mut store: S) -> bool {
    adds(rt, &mut store, 0x0a00_0002, 0)
        & adds(rt, &mut store, 0x0a00_0001, 0)
        & adds(rt, &mut store, 0x0a00_0002, 0)
        & (store.len() == 2)
        & (least(&mut store) == Some((0x0a00_0001, 1, 10)))
        & (least(&mut store) == Some((0x0a00_0002, 2, 20)))
        & least(&mut store).is_none()
}

#[test]
fn fills_and_empties_a_list(rt: HostRuntime) {
    assert!(rt; is_filled_and_emptied(&rt, ListStore::new(rt.alloc(), seed())));
}

#[test]
fn fills_and_empties_a_bounded_store(rt: HostRuntime) {
    let store = BoundedStore::new(rt.alloc(), seed(), 2).expect(&rt, "memory");
    assert!(rt; is_filled_and_emptied(&rt, store));
}

/// Adds a packet from an address by its fields, under the layout of whole addresses. Returns whether the address
/// `left`, or none for 0, left then.
fn adds_packet<S: FlowStore>(rt: &impl Abort, store: &mut S, source: u32, left: u128) -> bool {
    let layout = Layout::new().with(Axis::Source, 32).expect(rt, "a layout");
    let fields = Fields::of([u128::from(source), 0, 0, 0, 0, 0, 4, 0, 0]);
    is_left(store.add_packet(&layout, &fields, COUNTS), left)
}

/// Adds three packets of two addresses, and one at a key of them. Returns whether the store contains what was counted.
fn counts_packets<S: FlowStore>(rt: &impl Abort, mut store: S) -> bool {
    adds_packet(rt, &mut store, 0x0a00_0002, 0)
        & adds_packet(rt, &mut store, 0x0a00_0001, 0)
        & adds_packet(rt, &mut store, 0x0a00_0002, 0)
        & adds(rt, &mut store, 0x0a00_0001, 0)
        & (least(&mut store) == Some((0x0a00_0001, 2, 20)))
        & (least(&mut store) == Some((0x0a00_0002, 2, 20)))
        & least(&mut store).is_none()
}

#[test]
fn counts_packets_in_a_list(rt: HostRuntime) {
    assert!(rt; counts_packets(&rt, ListStore::new(rt.alloc(), seed())));
}

/// Returns whether a full store for two keys evicts the one to which a packet was added least recently.
fn lets_a_packet_leave<S: FlowStore>(rt: &impl Abort, mut store: S) -> bool {
    adds_packet(rt, &mut store, 1, 0)
        & adds_packet(rt, &mut store, 2, 0)
        & adds_packet(rt, &mut store, 1, 0)
        & adds_packet(rt, &mut store, 3, 2)
        & (least(&mut store) == Some((1, 2, 20)))
        & (least(&mut store) == Some((3, 1, 10)))
}

#[test]
fn counts_packets_in_a_bounded_store(rt: HostRuntime) {
    let store = BoundedStore::new(rt.alloc(), seed(), 2).expect(&rt, "memory");
    assert!(rt; counts_packets(&rt, store));
    let store = BoundedStore::new(rt.alloc(), seed(), 2).expect(&rt, "memory");
    assert!(rt; lets_a_packet_leave(&rt, store));
}

/// Returns whether a full store for two keys evicts the one that was added to least recently, and keeps the other.
fn lets_leave<S: FlowStore>(rt: &impl Abort, mut store: S) -> bool {
    adds(rt, &mut store, 1, 0)
        & adds(rt, &mut store, 2, 0)
        & adds(rt, &mut store, 1, 0)
        & adds(rt, &mut store, 3, 2)
        & (store.len() == 2)
        & (least(&mut store) == Some((1, 2, 20)))
        & (least(&mut store) == Some((3, 1, 10)))
}

#[test]
fn lets_the_least_recently_added_to_leave(rt: HostRuntime) {
    assert!(rt;
        lets_leave(
            &rt,
            BoundedStore::new(rt.alloc(), seed(), 2).expect(&rt, "memory")
        )
    );
}

/// Removes and returns the counts of an address.
fn take<S: FlowStore>(rt: &impl Abort, store: &mut S, source: u32) -> Option<Counts> {
    store.take(&from(rt, source, 32))
}

/// Adds at a key, removes another, removes the first one and adds again. Returns whether only the first one was there.
fn is_taken<S: FlowStore>(rt: &impl Abort, mut store: S) -> bool {
    adds(rt, &mut store, 7, 0)
        & take(rt, &mut store, 8).is_none()
        & (take(rt, &mut store, 7) == Some(COUNTS))
        & (store.len() == 0)
        & adds(rt, &mut store, 8, 0)
}

#[test]
fn takes_a_key_out_of_a_list(rt: HostRuntime) {
    assert!(rt; is_taken(&rt, ListStore::new(rt.alloc(), seed())));
}

#[test]
fn takes_a_key_out_of_a_bounded_store(rt: HostRuntime) {
    assert!(rt;
        is_taken(
            &rt,
            BoundedStore::new(rt.alloc(), seed(), 1).expect(&rt, "memory")
        )
    );
}

/// Returns whether the least key of a store has one part, of eight bits.
fn is_wide(least: Option<(Key, Counts)>) -> bool {
    match least {
        Some((key, _)) => key.layout().reads(Axis::Source, 8)
            & !key.layout().reads(Axis::Source, 9),
        None => false,
    }
}

/// Adds at keys of two layouts with the same value, 10. Returns whether both are kept, with that of eight bits first.
fn are_apart<S: FlowStore>(rt: &impl Abort, mut store: S, wide: Key) -> bool {
    adds(rt, &mut store, 10, 0)
        & is_left(store.add(wide, COUNTS), 0)
        & (store.len() == 2)
        & is_wide(store.take_least())
}

#[test]
fn tells_layouts_apart(rt: HostRuntime) {
    let wide = from(&rt, 0x0a00_0000, 8);
    assert!(rt; are_apart(&rt, ListStore::new(rt.alloc(), seed()), wide));
}

/// Returns whether a store is created, and is empty.
fn is_empty<S: FlowStore>(made: Result<S, Fault>) -> bool {
    match made {
        Ok(store) => store.len() == 0,
        Err(_) => false,
    }
}

#[test]
fn makes_a_large_store(rt: HostRuntime) {
    assert!(rt; is_empty(BoundedStore::new(rt.alloc(), seed(), 65_536)));
}
