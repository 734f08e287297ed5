//! The paths of all classes, each of which needs a tree.
ghost use Rattle.std.specs.Prelude.{◌≡◌, ◌++◌, IfErr, IfOk, OnOk};
ghost use Rattle.fx_base.specs.Fault.{IsMemory};
ghost use Rattle.fx_traffic.specs.Targets as of_targets;

use crate::traffic::Traffic;
use fx_base::Fault;
use fx_boxes::Region;
use fx_tables::{Class, Crossing};
use std::alloc::{AllocError, Global};
use std::marker::Model;

/// A path of a class.
#[derive(Drop)]
pub struct Target<'a> {
    /// The number of the class, from 1 in document order.
    pub class: u64,
    /// The number of the path, from 1 among those of its class.
    pub path: u64,
    /// The region of the packets of the class.
    pub region: Region,
    /// The crossings of the path.
    pub crossings: &'a [Crossing],
    /// Whether the packets must never be counted.
    pub exempt: bool,
}

impl<'a> Model for Target<'a> {
    ghost use Rattle.fx_traffic.specs.Targets.{Target};

    ghost Value = { Target };

    ghost view = { λ t. record {
      class = t.class;
      path = t.path;
      region = t.region;
      crossings =
          t.crossings.now;
      exempt = t.exempt;
    } };
}

/// Adds the paths of the class of this number.
fn add_paths<'a>(
    targets: &mut Vec<Target<'a>>,
    number: u64,
    class: &'a Class,
) -> Result<(), AllocError>
    ensures items { OnOk result (targets.new.items
        ≡ targets.old.items ++ of_targets.targets_along number class.now.region class.now.exempt 1
        class.now.paths) }
    ensures regions { OnOk result (of_targets.AreRegions targets.old.items
        → of_targets.AreRegions targets.new.items) }
{
    let region = class.region();
    // The prover needs this call: it shows that the bounds of a region hold.
    let _greatest = region.far_corner();
    let exempt = class.exempt();
    let paths = class.paths();
    'paths: for index in 0..paths.len() {
        targets.push(Target {
            class: number,
            path: index as u64 + 1,
            region,
            crossings: paths[index].as_slice(),
            exempt,
        })?;
    }
    Ok(())
}

/// Returns the paths of these classes, in order.
fn targets_of<'a>(alloc: Global, classes: &'a [Class]) -> Result<Vec<Target<'a>>, AllocError>
    ensures items { IfOk result (λ ts. ts.items ≡ of_targets.targets_of classes.now) }
    ensures regions { IfOk result (λ ts. of_targets.AreRegions ts.items) }
{
    let mut targets: Vec<Target<'a>> = Vec::new(alloc);
    'classes: for index in 0..classes.len() {
        add_paths(&mut targets, index as u64 + 1, &classes[index])?;
    }
    Ok(targets)
}

impl Traffic {
    /// Returns the paths of all classes, in document order.
    ///
    /// Fails with 900, at no place, if out of memory.
    pub fn targets(&self, alloc: Global) -> Result<Vec<Target<'_>>, Fault>
        ensures items { IfOk result (λ ts. ts.items ≡ of_targets.targets_of self.now) }
        ensures regions { IfOk result (λ ts. of_targets.AreRegions ts.items) }
        ensures err { IfErr result IsMemory }
    {
        let targets = targets_of(alloc, self.classes().as_slice())?;
        Ok(targets)
    }
}
