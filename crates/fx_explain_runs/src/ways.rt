//! Counting the ways by which records reach the report, from what happened to them step by step.
use std::alloc::{AllocError, Global};

/// An event that happens to a record at a step, which is given by its 0-based index.
#[derive(Clone, Copy)]
pub(crate) enum Event {
    /// The record is taken into the held record with this number.
    Taken {
        step: usize,
        into: usize,
    },
    /// The held record with this number leaves.
    Left {
        step: usize,
        record: usize,
    },
    /// The record arrives, at the report or elsewhere, and was sent at another step.
    Arrived {
        step: usize,
        sent: usize,
        is_reported: bool,
    },
}

/// The number of ways to the report from each step, and from each held record.
#[derive(Drop)]
pub(crate) struct Ways {
    pub(crate) steps: Vec<usize>,
    pub(crate) records: Vec<usize>,
}

/// Adds to the number at an index.
fn add(numbers: &mut [usize], index: usize, more: usize) {
    if let Some(number) = numbers.get_mut(index) {
        *number = number.saturating_add(more);
    }
}

/// Returns whether the number at an index isn't 0.
pub(crate) fn is_some_at(numbers: &[usize], index: usize) -> bool {
    numbers.get(index).copied().unwrap_or(0) > 0
}

impl Ways {
    /// Returns the ways that result from these events, for the given numbers of steps and of held records. The events
    /// are considered from the last to the first.
    pub(crate) fn of(
        alloc: Global,
        events: &[Event],
        steps: usize,
        records: usize,
    ) -> Result<Ways, AllocError> {
        let mut steps = vec![in alloc; 0usize; steps]?;
        let mut records = vec![in alloc; 0usize; records]?;
        for after in 0..events.len() {
            match events[events.len() - 1 - after] {
                Event::Taken { step, into } => {
                    let more = usize::from(is_some_at(records.as_slice(), into));
                    add(steps.as_mut_slice(), step, more);
                }
                Event::Left { step, record } => {
                    let more = usize::from(is_some_at(steps.as_slice(), step));
                    add(records.as_mut_slice(), record, more);
                }
                Event::Arrived {
                    step,
                    sent,
                    is_reported,
                } => {
                    add(steps.as_mut_slice(), step, usize::from(is_reported));
                    let more = usize::from(is_some_at(steps.as_slice(), step));
                    add(steps.as_mut_slice(), sent, more);
                }
            }
        }
        Ok(Ways { steps, records })
    }
}
