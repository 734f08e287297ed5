//! Classes of packets and their paths.
ghost use Rattle.std.specs.Prelude.{◌≡◌};
ghost use Rattle.fx_boxes.specs.Boxes.{holds};

use fx_base::Name;
use fx_boxes::{Fields, Region};
use std::marker::Model;

/// A packet's crossing of an interface of a device.
#[derive(Debug, Drop)]
pub struct Crossing {
    /// The 1-based number of the device.
    pub device: u64,
    /// The name of the interface on the device.
    pub interface: Name,
    /// Whether the packet enters the device.
    pub inwards: bool,
}

/// The crossings that a packet makes.
#[derive(Debug, Drop)]
pub struct Path {
    pub(crate) crossings: Vec<Crossing>,
}

impl Model for Path {
    ghost use Rattle.std.specs.Prelude.{List};
    ghost use Rattle.fx_tables.specs.declared.traffic.Crossing as of_crossing;

    ghost Value = { List of_crossing.Crossing };

    ghost view = { λ p. p.crossings.items };
}

impl Path {
    /// Returns the path with these crossings, in this order.
    pub fn new(crossings: Vec<Crossing>) -> Path
        ensures { result ≡ crossings.items }
    {
        Path { crossings }
    }

    /// Returns the crossings, in order.
    pub fn as_slice(&self) -> &[Crossing]
        ensures { result.now ≡ self.now }
    {
        self.crossings.as_slice()
    }
}

/// A class of packets: the fields that they may have, the paths that they may take, and whether they are exempt from
/// being counted.
#[derive(Debug, Drop)]
pub struct Class {
    pub(crate) region: Region,
    pub(crate) paths: Vec<Path>,
    pub(crate) exempt: bool,
}

impl Model for Class {
    ghost use Rattle.fx_tables.specs.Classes as classes;

    ghost Value = { classes.Class };

    ghost view = { λ c. record { region = c.region; paths = c.paths.items; exempt = c.exempt } };
}

impl Class {
    /// Returns the class of the packets with fields in this region, each of which takes one of these paths. Packets of
    /// an exempt class must never be counted.
    pub fn new(region: Region, paths: Vec<Path>, exempt: bool) -> Class
        ensures { result ≡ record { region = region; paths = paths.items; exempt = exempt } }
    {
        Class {
            region,
            paths,
            exempt,
        }
    }

    /// Returns the fields that its packets may have.
    pub fn region(&self) -> Region
        ensures { result ≡ self.now.region }
    {
        self.region
    }

    /// Returns whether its packets may have these fields.
    pub fn holds(&self, fields: &Fields) -> bool
        ensures { result ≡ holds self.now.region fields.now }
    {
        self.region.holds(fields)
    }

    /// Returns the paths that its packets may take.
    pub fn paths(&self) -> &[Path]
        ensures { result.now ≡ self.now.paths }
    {
        self.paths.as_slice()
    }

    /// Returns whether its packets must never be counted.
    pub fn exempt(&self) -> bool
        ensures { result ≡ self.now.exempt }
    {
        self.exempt
    }
}

/// The classes of the packets that cross a network.
#[derive(Debug)]
pub struct Classes {
    pub(crate) items: Vec<Class>,
}

impl Drop for Classes {
    /// Drops its parts here, so that each drop elsewhere is one call.
    fn drop(self) {
        let Self { items: _ } = self;
    }
}

impl Model for Classes {
    ghost use Rattle.std.specs.Prelude.{List};
    ghost use Rattle.fx_tables.specs.Classes as classes;

    ghost Value = { List classes.Class };

    ghost view = { λ c. c.items.items };
}

impl Classes {
    /// Returns these classes, in this order.
    pub fn new(items: Vec<Class>) -> Classes
        ensures { result ≡ items.items }
    {
        Classes { items }
    }

    /// Returns the classes, in order.
    pub fn as_slice(&self) -> &[Class]
        ensures { result.now ≡ self.now }
    {
        self.items.as_slice()
    }
}
