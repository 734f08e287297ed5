//! Refusals on failed tests.
ghost use Rattle.fx_walk.specs.Pointer.{pointer};
ghost use Rattle.fx_walk.specs.Walk.{Reads, fault_if};

use crate::path::{DocumentPath, refusal};
use fx_base::Fault;
use std::alloc::Global;

/// Refuses with this number at the path if the condition is true.
pub fn refuse_if(
    alloc: Global,
    path: &DocumentPath<'_>,
    number: u16,
    fails: bool,
) -> Result<(), Fault>
    ensures { Reads (fault_if fails number (pointer path.now)) tt result }
{
    if fails {
        Err(refusal(alloc, number, path))
    } else {
        Ok(())
    }
}
