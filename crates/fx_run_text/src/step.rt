//! The steps of a run.
ghost use Rattle.std.specs.Prelude.{◌≡◌, ◌++◌, ◌∷◌, [], OnOk};

use fx_tables::HolderName;
use smallvec::SmallVec;
use std::alloc::{AllocError, Global};
use std::marker::Model;

/// This many choices of a step need no allocation: most steps have one or none.
const FEW: usize = 2;

/// The choices of a step, in order. A holder that takes in a record chooses none for a new record, or the position of
/// the held record that it joins; an exporting process that isn't parallel chooses the number of a destination.
/// Positions and numbers are 1-based.
#[derive(Debug)]
pub struct Choices {
    items: SmallVec<Option<u64>, FEW>,
}

impl Drop for Choices {
    /// Drops its parts here, so that each drop elsewhere is one call.
    fn drop(self) {
        let Self { items: _ } = self;
    }
}

impl Model for Choices {
    ghost use Rattle.std.specs.Prelude.{List, ℕ, Option};

    ghost Value = { List (Option ℕ) };

    ghost view = { λ c. c.items.items };
}

impl Choices {
    /// Returns these choices, in this order.
    pub fn new(items: Vec<Option<u64>>) -> Choices
        ensures { result ≡ items.items }
    {
        Choices {
            items: SmallVec::from_vec(items),
        }
    }

    /// Returns no choices.
    pub(crate) fn none(alloc: Global) -> Choices
        ensures { result ≡ [] }
    {
        Choices {
            items: SmallVec::new(alloc),
        }
    }

    /// Appends a choice.
    pub(crate) fn push(&mut self, choice: Option<u64>) -> Result<(), AllocError>
        ensures { OnOk result (self.new ≡ self.old ++ choice ∷ []) }
    {
        self.items.push(choice)?;
        Ok(())
    }

    /// Returns the choices, in order.
    pub fn as_slice(&self) -> &[Option<u64>]
        ensures { result.now ≡ self.now }
    {
        self.items.as_slice()
    }
}

/// A step of a run. All numbers and positions are 1-based.
#[derive(Debug, Drop)]
pub enum Step {
    /// A packet makes a crossing of its path, and the caches there meter it.
    Cross {
        packet: u64,
        crossing: u64,
        choices: Choices,
    },
    /// A record leaves a holder and is exported.
    Expire {
        holder: HolderName,
        position: u64,
        choices: Choices,
    },
    /// A record leaves a link and is handled by the collecting process that the link leads to.
    Arrive {
        link: u64,
        position: u64,
        choices: Choices,
    },
}
