//! Outcomes of calls: success or a refusal.
use fx_base::Fault;

/// Returns whether a call succeeded, if `number` is 0, or was refused with this number at no place.
pub(crate) fn ends<T: Drop>(answer: Result<T, Fault>, number: u16) -> bool {
    match answer {
        Ok(_) => number == 0,
        Err(fault) => fault == Fault::bare(number),
    }
}

/// Returns whether an answer is this refusal.
pub(crate) fn is_refused<T: Drop>(answer: Result<T, Fault>, fault: &Fault) -> bool {
    match answer {
        Ok(_) => false,
        Err(found) => found == *fault,
    }
}
