//! Reasons for which a running network stopped.
ghost use Rattle.std.specs.Prelude.{◌≡◌};
ghost use Rattle.fx_net.specs.Running as running;

use fx_base::{Fault, Place};

/// A fault that each later call returns again: its number and its place.
#[derive(Clone, Copy)]
pub(crate) enum Stop {
    /// At no place.
    Bare { number: u16 },
    /// At a 1-based line of the schedule.
    Line { number: u16, line: u64 },
    /// At a 0-based octet of the capture.
    Octet { number: u16, octet: u64 },
}

impl Stop {
    /// Returns the fault.
    pub(crate) fn fault(self) -> Fault
        ensures { result ≡ running.fault_of self }
    {
        match self {
            Stop::Bare { number } => Fault::bare(number),
            Stop::Line { number, line } => Fault::at_line(number, line),
            Stop::Octet { number, octet } => Fault::at_octet(number, octet),
        }
    }
}

impl From<Fault> for Stop {
    ghost use Rattle.fx_net.specs.Running.{stop_of};

    ghost from_gives = { λ fault stop. stop ≡ stop_of fault };

    fn from(fault: Fault) -> Stop {
        let number = fault.number;
        match fault.place {
            Place::None => Stop::Bare { number },
            Place::Line(line) => Stop::Line { number, line },
            Place::Octet(octet) => Stop::Octet { number, octet },
            Place::Text(_text) => Stop::Bare { number },
        }
    }
}
