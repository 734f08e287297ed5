//! Exporting processes.
ghost use Rattle.std.specs.Prelude.{◌≡◌};

use std::marker::Model;

/// An exporting process (RFC 6728, section 4.4): where it sends records. Each destination has the 0-based index of its
/// link in the network's table, or none if it leads outside the network.
#[derive(Debug, Drop)]
pub struct Exporter {
    pub(crate) parallel: bool,
    pub(crate) destinations: Vec<Option<usize>>,
}

impl Model for Exporter {
    ghost use Rattle.fx_tables.specs.Network as network;

    ghost Value = { network.Exporter };

    ghost view = { λ e. record { parallel = e.parallel; destinations = e.destinations.items } };
}

impl Exporter {
    /// Returns an exporting process with these destinations, which sends each record either to all of them or to any
    /// one.
    pub fn new(parallel: bool, destinations: Vec<Option<usize>>) -> Exporter
        ensures { result ≡ record { parallel = parallel; destinations = destinations.items } }
    {
        Exporter {
            parallel,
            destinations,
        }
    }

    /// Returns whether each record is sent to all destinations rather than to any one of them.
    pub fn parallel(&self) -> bool
        ensures { result ≡ self.now.parallel }
    {
        self.parallel
    }

    /// Returns the links of its destinations.
    pub fn destinations(&self) -> &[Option<usize>]
        ensures { result.now ≡ self.now.destinations }
    {
        self.destinations.as_slice()
    }
}
