//! Observation points and their selection processes.
ghost use Rattle.std.specs.Prelude.{◌≡◌};

use fx_base::Name;
use fx_boxes::Region;
use std::marker::Model;

/// A selection process (RFC 6728, section 4.2).
#[derive(Clone, Copy, Debug, PartialEq, Eq)]
pub struct Selection {
    /// The fields of the packets that it selects, if it selects any.
    pub region: Option<Region>,
    /// The 0-based index of its cache in the network's table of holders, if it has a cache.
    pub holder: Option<usize>,
}

/// An observation point (RFC 6728, section 4.1).
#[derive(Debug, Drop)]
pub struct Point {
    pub(crate) interfaces: Vec<Name>,
    pub(crate) ingress: bool,
    pub(crate) egress: bool,
    pub(crate) selections: Vec<Selection>,
}

impl Model for Point {
    ghost use Rattle.fx_tables.specs.Network as network;

    ghost Value = { network.Point };

    ghost view = { λ p. record {
      interfaces = p.interfaces.items;
      ingress = p.ingress;
      egress = p.egress;
      selections = p.selections.items;
    } };
}

impl Point {
    /// Returns a point that sees the packets that enter the device by these interfaces, leave by them, or both.
    pub fn new(
        interfaces: Vec<Name>,
        ingress: bool,
        egress: bool,
        selections: Vec<Selection>,
    ) -> Point
        ensures { result ≡ record {
          interfaces = interfaces.items;
          ingress = ingress;
          egress =
              egress;
          selections = selections.items;
        } }
    {
        Point {
            interfaces,
            ingress,
            egress,
            selections,
        }
    }

    /// Returns the selection processes that get the packets that it sees.
    pub fn selections(&self) -> &[Selection]
        ensures { result.now ≡ self.now.selections }
    {
        self.selections.as_slice()
    }
}

/// A place where a packet is metered at a crossing.
#[derive(Clone, Copy, Debug, PartialEq, Eq)]
pub struct Occurrence {
    /// The 1-based number of the observation point on the device.
    pub point: usize,
    /// The 1-based number of the selection process within the point.
    pub process: usize,
    /// The 0-based index of its cache in the network's table of holders.
    pub holder: usize,
}
