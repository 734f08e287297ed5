//! Reasons for refusing messages of a stream.
ghost use Rattle.std.specs.Prelude.{◌≡◌};
ghost use Rattle.fx_session.specs.StreamFaults.{number_of};

use fx_base::refusals;
use fx_wire::Malformed;
use std::alloc::{AllocError, AllocFailed};

/// The reason why a message of a stream is refused (RFC 7011), or couldn't be read for lack of memory.
#[derive(Clone, Copy)]
pub enum StreamFault {
    /// The message, or one of its template records, is malformed.
    Malformed(Malformed),
    /// A template is declared under the id of another one (section 8.1).
    TemplateIdInUse,
    /// A data set has no template (section 9).
    NoTemplate,
    /// A counter of flows has another length than 8 octets.
    CounterLength,
    /// A data record passes its set's end.
    CutRecord,
    /// A prefix is longer than its address.
    PrefixLength,
    /// Out of memory for the contents of the message.
    OutOfMemory,
}

impl StreamFault {
    /// Returns the fault's number: that of the malformation, 616 to 620 in the variants' order, or 900 if out of
    /// memory.
    pub fn number(self) -> u16
        ensures { result ≡ number_of self }
    {
        match self {
            StreamFault::Malformed(why) => why.number(),
            StreamFault::TemplateIdInUse => refusals::TEMPLATE_CHANGED,
            StreamFault::NoTemplate => refusals::NO_TEMPLATE,
            StreamFault::CounterLength => refusals::TEMPLATE_COUNTER_LENGTH,
            StreamFault::CutRecord => refusals::RECORD_PAST_SET,
            StreamFault::PrefixLength => refusals::PREFIX_LENGTH,
            StreamFault::OutOfMemory => refusals::WANT_OF_MEMORY,
        }
    }
}

impl From<Malformed> for StreamFault {
    ghost use Rattle.fx_session.specs.declared.stream_fault.StreamFault.TheVariants as faults;

    ghost from_gives = { λ why fault. fault ≡ faults.Malformed why };

    fn from(why: Malformed) -> StreamFault {
        StreamFault::Malformed(why)
    }
}

impl From<AllocError> for StreamFault {
    ghost use Rattle.fx_session.specs.declared.stream_fault.StreamFault.TheVariants as faults;

    ghost from_gives = { λ _ fault. fault ≡ faults.OutOfMemory };

    fn from(_error: AllocError) -> StreamFault {
        StreamFault::OutOfMemory
    }
}

impl<T: Drop> From<AllocFailed<T>> for StreamFault {
    ghost use Rattle.fx_session.specs.declared.stream_fault.StreamFault.TheVariants as faults;

    ghost from_gives = { λ _ fault. fault ≡ faults.OutOfMemory };

    fn from(_error: AllocFailed<T>) -> StreamFault {
        StreamFault::OutOfMemory
    }
}
