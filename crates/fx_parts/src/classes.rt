//! Checks whether a class of a part covers a class of the whole.
ghost use Rattle.std.specs.Prelude.{◌≡◌, IfOk};
ghost use Rattle.std.specs.Bool.{OnTrue};
ghost use Rattle.fx_parts.specs.Parts as parts;

use crate::meters::{meters_the_same, same_region};
use fx_tables::{Class, Net, Path};
use std::alloc::{AllocError, Global};

fn same_packets(inside: &Class, class: &Class) -> bool
    ensures region { OnTrue result (inside.now.region ≡ class.now.region) }
    ensures exempt { OnTrue result (inside.now.exempt ≡ class.now.exempt) }
{
    same_region(&Some(inside.region()), &Some(class.region())) && inside.exempt() == class.exempt()
}

fn paths_alike(
    alloc: Global,
    part: &Net,
    whole: &Net,
    places: &[usize],
    inner: &[Path],
    outer: &[Path],
) -> Result<bool, AllocError>
    ensures { IfOk result (λ b. OnTrue b
        (parts.PathsAlike part.now whole.now places.now inner.now outer.now)) }
{
    if inner.len() != outer.len() {
        return Ok(false);
    }
    for index in 0..outer.len() {
        let same = meters_the_same(
            alloc,
            part,
            whole,
            places,
            inner[index].as_slice(),
            outer[index].as_slice(),
        )?;
        if !same {
            return Ok(false);
        }
    }
    Ok(true)
}

/// Returns whether a class of the part has the region of a class of the whole, is exempt if that class is, and has, for
/// each of its paths, a path on which a packet passes the same selection processes in the same order.
///
/// Fails if an allocation fails.
pub fn classes_alike(
    alloc: Global,
    part: &Net,
    whole: &Net,
    places: &[usize],
    inside: &Class,
    class: &Class,
) -> Result<bool, AllocError>
    ensures { IfOk result (λ b. OnTrue b
        (parts.ClassesAlike part.now whole.now places.now inside.now class.now)) }
{
    if !same_packets(inside, class) {
        return Ok(false);
    }
    paths_alike(alloc, part, whole, places, inside.paths(), class.paths())
}
