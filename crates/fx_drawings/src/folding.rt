//! Devices that are alike are drawn as one.

use crate::devices::draw_parts;
use crate::dot::Dot;
use crate::edges::draw_edges;
use fx_base::entry_numbered;
use fx_plan::Plan;
use fx_topology::NetworkDevice;
use std::alloc::{AllocError, Global};

/// The least number of alike devices that are drawn as one.
const LEAST_ALIKE: u64 = 3;

/// The greatest number of rounds in which devices are compared. After each round, devices that send records to devices
/// that are drawn as one may be alike too.
const ROUNDS: usize = 8;

/// For each device, in document order, the number of the device as which it is drawn. Numbers count from 1.
#[derive(Drop)]
pub(crate) struct Folding {
    firsts: Vec<u64>,
}

impl Folding {
    /// Returns a folding in which each device is drawn by itself.
    pub(crate) fn none(alloc: Global) -> Folding {
        Folding {
            firsts: Vec::new(alloc),
        }
    }

    /// Returns the number of the device as which a device is drawn: its own, or that of the first device that is like
    /// it.
    pub(crate) fn of(&self, device: u64) -> u64 {
        match entry_numbered(self.firsts.as_slice(), device) {
            Some(first) => *first,
            None => device,
        }
    }

    /// Returns the number of devices that are drawn as this one.
    pub(crate) fn count(&self, device: u64) -> u64 {
        let mut count: u64 = 0;
        for first in self.firsts.as_slice() {
            if *first == device {
                count = count.saturating_add(1);
            }
        }
        count
    }

    /// Returns a copy.
    ///
    /// Fails if out of memory.
    fn copy(&self, alloc: Global) -> Result<Folding, AllocError> {
        let mut firsts = Vec::new(alloc);
        for first in self.firsts.as_slice() {
            firsts.push(*first)?;
        }
        Ok(Folding { firsts })
    }

    /// Returns whether two foldings draw each device alike.
    fn is_same(&self, other: &Folding) -> bool {
        self.firsts.as_slice() == other.firsts.as_slice()
    }
}

/// Returns what is drawn of a device, without its number and the names of its interfaces.
fn look_of(
    alloc: Global,
    plan: &Plan,
    folding: &Folding,
    device: &NetworkDevice,
) -> Result<Dot, AllocError> {
    let mut dot = Dot::new(alloc, folding.copy(alloc)?);
    draw_parts(&mut dot, plan, 0, device, false);
    draw_edges(&mut dot, plan, 0, device)?;
    Ok(dot)
}

/// Returns what is drawn of each device.
fn looks_of(alloc: Global, plan: &Plan, folding: &Folding) -> Result<Vec<Dot>, AllocError> {
    let mut looks = Vec::new(alloc);
    for device in plan.network().devices.as_slice() {
        looks.push(look_of(alloc, plan, folding, device)?)?;
    }
    Ok(looks)
}

/// Returns whether a number is among these.
fn is_among(numbers: &[u64], number: u64) -> bool {
    for other in numbers {
        if *other == number {
            return true;
        }
    }
    false
}

/// Returns the number of the first device that looks like this and isn't drawn apart, and how many there are.
fn alike(looks: &[Dot], apart: &[u64], look: &Dot) -> (u64, u64) {
    let mut first: u64 = 0;
    let mut count: u64 = 0;
    for index in 0..looks.len() {
        let number = index as u64 + 1;
        if looks[index].is_like(look) && !is_among(apart, number) {
            if count == 0 {
                first = number;
            }
            count = count.saturating_add(1);
        }
    }
    (first, count)
}

/// Returns the number of the device as which the device with this number is drawn.
fn drawn_as(looks: &[Dot], apart: &[u64], number: u64) -> u64 {
    if is_among(apart, number) {
        return number;
    }
    let Some(look) = entry_numbered(looks, number) else {
        return number;
    };
    let (first, count) = alike(looks, apart, look);
    if count < LEAST_ALIKE { number } else { first }
}

/// Returns which devices are alike if records are sent to devices that this folding draws as one.
fn fold_once(
    alloc: Global,
    plan: &Plan,
    folding: &Folding,
    apart: &[u64],
) -> Result<Folding, AllocError> {
    let looks = looks_of(alloc, plan, folding)?;
    let mut firsts = Vec::new(alloc);
    for index in 0..looks.len() {
        firsts.push(drawn_as(looks.as_slice(), apart, index as u64 + 1))?;
    }
    Ok(Folding { firsts })
}

/// Returns which devices are drawn as one: at least three that look alike and send their records to the same places.
/// The devices `apart`, by their numbers, are drawn by themselves.
///
/// Fails if out of memory.
pub(crate) fn fold(alloc: Global, plan: &Plan, apart: &[u64]) -> Result<Folding, AllocError> {
    let mut folding = Folding::none(alloc);
    for _round in 0..ROUNDS {
        let next = fold_once(alloc, plan, &folding, apart)?;
        if next.is_same(&folding) {
            return Ok(next);
        }
        folding = next;
    }
    Ok(folding)
}
