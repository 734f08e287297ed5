//! Joins certified parts of a network one after another, with room for the whole and one part.
ghost use Rattle.std.specs.Prelude.{◌≡◌, true, false, None, length, not, position, replicate, slice_set, if◌then◌else◌, IfOk, IfSome};
ghost use Rattle.std.specs.Bool.{OnTrue};
ghost use Rattle.fx_machine.specs.Claim.{ExactlyOnce, OnceModulo};
ghost use Rattle.fx_parts.specs.Joins as joins;
ghost use Rattle.fx_parts.specs.Parts as parts;

use crate::network::is_network;
use crate::part::Part;
use fx_base::entry_at;
use fx_tables::{Classes, Net};
use std::alloc::{AllocError, Global};
use std::marker::Model;

/// A class of the whole, by its 0-based index, and the class of a part that is to cover it, by its 1-based number.
#[derive(Clone, Copy)]
pub struct Located {
    pub index: usize,
    pub number: u64,
}

/// The classes of a whole network that certified parts cover so far.
#[derive(Drop)]
pub struct Join<'w> {
    whole: &'w Net,
    classes: &'w Classes,
    covered: Vec<bool>,
}

impl<'w> Model for Join<'w> {
    ghost use Rattle.std.specs.Prelude.{◌≡◌, length};
    ghost use Rattle.fx_parts.specs.Joins.{IsJoined, Joined, joined};

    ghost Value = { Joined };

    ghost view = { λ j. joined j.whole.now j.classes.now j.covered.items };

    ghost invariant = { λ j. IsJoined (joined j.whole.now j.classes.now j.covered.items) };
}

/// Returns marks of which none is set.
fn no_marks(alloc: Global, count: usize) -> Result<Vec<bool>, AllocError>
    ensures { IfOk result (λ marks. marks.items ≡ replicate count false) }
{
    vec![in alloc; false; count]
}

fn mark(covered: &mut Vec<bool>, index: usize)
    ensures { covered.new.items ≡ slice_set covered.old.items index true }
{
    if let Some(mark) = covered.get_mut(index) {
        *mark = true;
    }
}

fn first_unmarked(covered: &[bool]) -> Option<usize>
    ensures { result ≡ position not covered.now }
{
    covered.iter().position(|covered| !*covered)
}

impl<'w> Join<'w> {
    /// Begins with no part. Returns `None` if the tables are not those of a network. They may have any size.
    ///
    /// Fails if out of memory.
    pub fn new(
        alloc: Global,
        whole: &'w Net,
        classes: &'w Classes,
    ) -> Result<Option<Join<'w>>, AllocError>
        ensures { IfOk result (λ o. IfSome o (λ j. j
            ≡ joins.joined whole.now classes.now (replicate (length classes.now) false))) }
    {
        if !is_network(alloc, whole)? {
            return Ok(None);
        }
        let covered = no_marks(alloc, classes.as_slice().len())?;
        Ok(Some(Join {
            whole,
            classes,
            covered,
        }))
    }

    /// Returns whether a part is a part of the whole.
    pub fn has_part(&self, part: &Part<'_>) -> bool
        ensures { OnTrue result (parts.IsPart part.now.net self.now.whole part.now.places) }
    {
        part.is_within(self.whole)
    }

    /// Marks a class of the whole if the class of a certified part covers it. Returns whether it does.
    ///
    /// Fails if out of memory.
    pub fn cover(
        &mut self,
        alloc: Global,
        part: &Part<'_>,
        located: Located,
    ) -> Result<bool, AllocError>
        requires { parts.IsCertifiedPart self.old.whole part.now }
        ensures { IfOk result (λ b. self.new ≡ record self.old {
          covered =
              if b then slice_set self.old.covered located.index true else self.old.covered;
        }) }
    {
        let Some(class) = entry_at(self.classes.as_slice(), located.index) else {
            return Ok(false);
        };
        let covers = part.covers(alloc, self.whole, class, located.number)?;
        if covers {
            mark(&mut self.covered, located.index);
        }
        Ok(covers)
    }

    /// Returns the 0-based index of the first class of the whole that no part covers. If there is none, every complete
    /// run of the whole counts each packet of the classes exactly once, or never if its class is exempt.
    pub fn first_uncovered(&self) -> Option<usize>
        ensures first { result ≡ position not self.now.covered }
        ensures once { result ≡ None → ExactlyOnce self.now.whole self.now.classes }
        ensures modulo { result ≡ None → OnceModulo self.now.whole self.now.classes }
    {
        first_unmarked(self.covered.as_slice())
    }
}
