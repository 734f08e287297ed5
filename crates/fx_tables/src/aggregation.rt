//! Aggregations.
ghost use Rattle.std.specs.Prelude.{◌≡◌};

use fx_elements::Axis;
use std::marker::Model;

/// A condition that the leading bits of an axis have this value.
#[derive(Clone, Copy, Debug, PartialEq, Eq)]
pub struct MatchEntry {
    pub axis: Axis,
    /// The number of leading bits.
    pub bits: u32,
    /// Their value, as a number.
    pub value: u128,
}

/// An aggregation (RFC 7015): the 0-based index of its holder, and its match.
#[derive(Debug, Drop)]
pub struct AggregationEntry {
    pub(crate) holder: usize,
    pub(crate) matches: Vec<MatchEntry>,
}

impl Model for AggregationEntry {
    ghost use Rattle.fx_tables.specs.Network as network;

    ghost Value = { network.AggregationEntry };

    ghost view = { λ a. record { holder = a.holder; matches = a.matches.items } };
}

impl AggregationEntry {
    /// Returns an aggregation that takes in the records that satisfy all these entries.
    pub fn new(holder: usize, matches: Vec<MatchEntry>) -> AggregationEntry
        ensures { result ≡ record { holder = holder; matches = matches.items } }
    {
        AggregationEntry { holder, matches }
    }

    /// Returns the index of its holder.
    pub fn holder(&self) -> usize
        ensures { result ≡ self.now.holder }
    {
        self.holder
    }

    /// Returns the entries of its match.
    pub fn matches(&self) -> &[MatchEntry]
        ensures { result.now ≡ self.now.matches }
    {
        self.matches.as_slice()
    }
}
