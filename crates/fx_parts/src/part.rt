//! A part of a network.
ghost use Rattle.std.specs.Prelude.{◌≡◌, Some, IfOk};
ghost use Rattle.std.specs.Bool.{OnTrue};
ghost use Rattle.fx_base.specs.Entries.{entry_numbered};
ghost use Rattle.fx_tables.specs.Classes as traffic;
ghost use Rattle.fx_parts.specs.Parts as parts;

use crate::check::is_part;
use crate::classes::classes_alike;
use fx_base::entry_numbered;
use fx_tables::{Class, Classes, Net};
use std::alloc::{AllocError, Global};
use std::marker::Model;

/// A part of a network: its tables, the place of each of its collecting processes in the whole, and the classes audited
/// over it.
#[derive(Drop)]
pub struct Part<'p> {
    net: &'p Net,
    places: &'p [usize],
    classes: &'p Classes,
}

impl<'p> Model for Part<'p> {
    ghost use Rattle.fx_parts.specs.Parts as parts;

    ghost Value = { parts.Part };

    ghost view = { λ p. record {
      net = p.net.now;
      places = p.places.now;
      classes = p.classes.now;
    } };
}

impl<'p> Part<'p> {
    /// Returns a part. `places` has the 0-based index in the whole of each collecting process of the part.
    pub fn new(net: &'p Net, places: &'p [usize], classes: &'p Classes) -> Part<'p>
        ensures { result ≡ record { net = net.now; places = places.now; classes = classes.now } }
    {
        Part {
            net,
            places,
            classes,
        }
    }

    /// Returns whether it is a part of the whole.
    pub(crate) fn is_within(&self, whole: &Net) -> bool
        ensures { OnTrue result (parts.IsPart self.now.net whole.now self.now.places) }
    {
        is_part(self.net, whole, self.places)
    }

    /// Returns whether the class with this 1-based number covers all paths of a class of the whole.
    pub(crate) fn covers(
        &self,
        alloc: Global,
        whole: &Net,
        class: &Class,
        number: u64,
    ) -> Result<bool, AllocError>
        ensures { IfOk result (λ b. OnTrue b ((inside : traffic.Class)
            × (entry_numbered self.now.classes number ≡ Some inside)
            × parts.ClassesAlike self.now.net whole.now self.now.places inside class.now)) }
    {
        match entry_numbered(self.classes.as_slice(), number) {
            None => Ok(false),
            Some(inside) => classes_alike(alloc, self.net, whole, self.places, inside, class),
        }
    }
}
