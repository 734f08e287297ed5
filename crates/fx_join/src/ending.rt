//! The refusals of a join, with their places.
ghost use Rattle.std.specs.Prelude.{◌≡◌, ◌⊎◌, ◌++◌, codes, decimal, IfErr, IfOk, string_bytes};
ghost use Rattle.fx_base.specs.Fault.{fault_at, IsMemory};
ghost use Rattle.fx_base.specs.declared.fault.Place.TheVariants as places;
ghost use Rattle.fx_plan.specs.Cycles.{IsTextPlace};
ghost use Rattle.fx_join.specs.PartChecks.{IsAtPart};
ghost use Rattle.fx_base.specs.Refusals.{class_not_covered};

use fx_base::{Fault, refusals};
use std::alloc::{AllocError, Global};

fn part_place(alloc: Global, number: u64) -> Result<String, AllocError>
    ensures { IfOk result (λ text. string_bytes text ≡ codes "part " ++ decimal number) }
{
    format!(in alloc; "part {number}")
}

fn class_place(alloc: Global, index: usize) -> Result<String, AllocError>
    ensures { IfOk result (λ text. string_bytes text ≡ codes "/classes/" ++ decimal index) }
{
    format!(in alloc; "/classes/{index}")
}

/// Returns a refusal with this number at the place of a text, or 900 if there was no memory for the text.
fn refusal_at(refusal: u16, place: Result<String, AllocError>) -> Fault
    ensures ok { IfOk place (λ text. result ≡ fault_at refusal (places.Text text)) }
    ensures err { IfErr place (λ _. IsMemory result) }
{
    match place {
        Ok(text) => Fault::at_text(refusal, text),
        Err(error) => Fault::from(error),
    }
}

/// Returns a refusal with the number `refusal` at the part with this 1-based number, or 900 if out of memory.
pub(crate) fn refusal_at_part(alloc: Global, refusal: u16, number: u64) -> Fault
    ensures { IsMemory result ⊎ IsAtPart refusal number result }
{
    refusal_at(refusal, part_place(alloc, number))
}

/// Returns the refusal of a whole whose class at this 0-based index no part covers, or 900 if out of memory.
pub(crate) fn uncovered_class(alloc: Global, index: usize) -> Fault
    ensures { IsMemory result ⊎ ((result.number ≡ class_not_covered)
        × IsTextPlace result.place (codes "/classes/" ++ decimal index)) }
{
    refusal_at(refusals::CLASS_NOT_COVERED, class_place(alloc, index))
}
