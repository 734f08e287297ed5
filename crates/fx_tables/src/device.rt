//! Devices.
ghost use Rattle.std.specs.Prelude.{◌≡◌};

use crate::observation::Point;
use std::marker::Model;

/// A device: its observation points, and the 0-based indices of its caches in the table of holders and of its
/// collecting processes in the table of processes.
#[derive(Debug, Drop)]
pub struct DeviceEntry {
    pub(crate) points: Vec<Point>,
    pub(crate) caches: Vec<usize>,
    pub(crate) processes: Vec<usize>,
}

impl Model for DeviceEntry {
    ghost use Rattle.fx_tables.specs.Network as network;

    ghost Value = { network.DeviceEntry };

    ghost view = { λ d. record {
      points = d.points.items;
      caches = d.caches.items;
      processes =
          d.processes.items;
    } };
}

impl DeviceEntry {
    /// Returns a device with these points, caches and collecting processes.
    pub fn new(points: Vec<Point>, caches: Vec<usize>, processes: Vec<usize>) -> DeviceEntry
        ensures { result ≡ record {
          points = points.items;
          caches = caches.items;
          processes =
              processes.items;
        } }
    {
        DeviceEntry {
            points,
            caches,
            processes,
        }
    }

    /// Returns its observation points.
    pub fn points(&self) -> &[Point]
        ensures { result.now ≡ self.now.points }
    {
        self.points.as_slice()
    }

    /// Returns the indices of its caches in the table of holders.
    pub fn caches(&self) -> &[usize]
        ensures { result.now ≡ self.now.caches }
    {
        self.caches.as_slice()
    }

    /// Returns the indices of its collecting processes in the table of processes.
    pub fn processes(&self) -> &[usize]
        ensures { result.now ≡ self.now.processes }
    {
        self.processes.as_slice()
    }
}
