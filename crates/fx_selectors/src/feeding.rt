//! The selection processes that the packets of a crossing reach.
ghost use Rattle.std.specs.Prelude.{◌≡◌, ◌+◌, ◌<◌, ◌∷◌, [], MatchOption, bytes_eq, length, drop, is_some, ◌&&◌};
ghost use Rattle.std.specs.List.{list_any};
ghost use Rattle.std.specs.Iterator.{YieldsFirst, item_count};
ghost use Rattle.fx_selectors.specs.Feeding.{agrees, numbers_with_cache, feeds, has_cache, watches};

use fx_base::Name;
use fx_config::{Device, Direction, ObservationPoint, SelectionProcess};
use std::marker::Model;

/// Returns whether packets that cross in this direction are observed.
fn agrees(direction: Direction, inwards: bool) -> bool
    ensures { result ≡ agrees direction inwards }
{
    match direction {
        Direction::Ingress => inwards,
        Direction::Egress => !inwards,
        Direction::Both => true,
    }
}

/// Returns whether the interface is among the given ones.
fn has_interface(interfaces: &[Name], interface: &str) -> bool
    ensures { result ≡ list_any (λ name. bytes_eq name interface.now) interfaces.now }
{
    interfaces.iter().any(|name| name.as_str() == interface)
}

/// Returns whether the point observes packets that cross the interface in this direction.
fn watches(point: &ObservationPoint, interface: &str, inwards: bool) -> bool
    ensures { result ≡ watches point.now interface.now inwards }
{
    has_interface(point.interfaces.as_slice(), interface) && agrees(point.direction, inwards)
}

/// Returns whether the process of this name has a cache.
fn has_cache(processes: &[SelectionProcess], name: &Name) -> bool
    ensures { result ≡ has_cache processes.now name.now }
{
    processes
        .iter()
        .any(|process| process.name == *name && process.cache.is_some())
}

/// Returns the place of the first name, starting from the place `from`, whose process has a cache.
fn next_fed(processes: &[SelectionProcess], names: &[Name], from: usize) -> Option<usize>
    ensures none { MatchOption result (numbers_with_cache processes.now (from
        + 1) (drop from names.now)
        ≡ []) (λ index. numbers_with_cache processes.now (from + 1) (drop from names.now)
        ≡ (index + 1) ∷ numbers_with_cache processes.now (index + 1
        + 1) (drop (index + 1) names.now)) }
    ensures bound { MatchOption result (Unit {0}) (λ index. index < length names.now) }
{
    for index in from..names.len() {
        if has_cache(processes, &names[index]) {
            return Some(index);
        }
    }
    None
}

/// The pairs of an observation point and a selection process that the packets of a crossing reach, in order. Both are
/// 1-based numbers, that of the process in the list of the point. Contracts see the pairs that are left.
#[derive(Drop)]
pub struct FedPairs<'a> {
    device: &'a Device,
    interface: &'a str,
    inwards: bool,
    point: usize,
    process: usize,
}

impl<'a> Model for FedPairs<'a> {
    ghost use Rattle.std.specs.Prelude.{ℕ, List, ◌+◌, drop};
    ghost use Rattle.fx_selectors.specs.Feeding.{feeds_left};

    ghost Value = { List (ℕ × ℕ) };

    ghost view = { λ s. feeds_left s.device.now.selection_processes s.interface.now s.inwards
        (s.point
        + 1) s.process (drop s.point s.device.now.observation_points) };
}

/// Returns the pairs that a crossing of the interface into or out of the device reaches. A process without a cache is
/// left out; whether the process selects the packet does not matter.
pub fn feeds<'a>(device: &'a Device, interface: &'a str, inwards: bool) -> FedPairs<'a>
    ensures { result ≡ feeds device.now interface.now inwards }
{
    FedPairs {
        device,
        interface,
        inwards,
        point: 0,
        process: 0,
    }
}

impl<'a> FedPairs<'a> {
    /// Returns the next pair.
    fn next_pair(&mut self) -> Option<(usize, usize)>
        ensures { MatchOption result ((self.old ≡ [])
            × (self.new ≡ [])) (λ pair. self.old ≡ pair ∷ self.new) }
    {
        let points = self.device.observation_points.as_slice();
        let processes = self.device.selection_processes.as_slice();
        for index in self.point..points.len() {
            let point = &points[index];
            if watches(point, self.interface, self.inwards) {
                let names = point.selection_processes.as_slice();
                if let Some(process) = next_fed(processes, names, self.process) {
                    self.point = index;
                    self.process = process + 1;
                    return Some((index + 1, process + 1));
                }
            }
            self.process = 0;
        }
        self.point = points.len();
        None
    }
}

impl<'a> Iterator for FedPairs<'a> {
    type Item = (usize, usize);

    ghost next_gives = { YieldsFirst (λ s. s) };

    ghost remaining = { item_count (λ s. s) };

    fn next(&mut self) -> Option<(usize, usize)> {
        self.next_pair()
    }
}
