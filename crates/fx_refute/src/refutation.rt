//! Refutations.
ghost use Rattle.std.specs.Prelude.{◌≡◌, ◌≤◌, length};
ghost use Rattle.fx_machine.specs.Limits.{step_limit};

use fx_run_text::Step;
use fx_tables::Packet;
use std::marker::Model;

/// The maximum number of steps.
pub const STEPS: usize = 1_000_000;

/// A packet, and the steps of a run over it alone, of which there are at most 1,000,000.
#[derive(Debug)]
pub struct Refutation {
    packet: Packet,
    steps: Vec<Step>,
}

impl Drop for Refutation {
    /// Drops its parts here, so that each drop elsewhere is one call.
    fn drop(self) {
        let Self {
            packet: _,
            steps: _,
        } = self;
    }
}

impl Model for Refutation {
    ghost use Rattle.std.specs.Prelude.{length, ◌≤◌};
    ghost use Rattle.fx_machine.specs.Limits.{step_limit};
    ghost use Rattle.fx_refute.specs.Refutations as refutations;

    ghost Value = { refutations.Refutation };

    ghost view = { λ r. record { packet = r.packet; steps = r.steps.items } };

    ghost invariant = { λ r. length r.steps.items ≤ step_limit };
}

impl Refutation {
    /// Returns the run of this packet with these steps.
    pub fn new(packet: Packet, steps: Vec<Step>) -> Refutation
        requires { length steps.items ≤ step_limit }
        ensures { result ≡ record { packet = packet; steps = steps.items } }
    {
        Refutation { packet, steps }
    }

    /// Returns the packet.
    pub fn packet(&self) -> &Packet
        ensures { result.now ≡ self.now.packet }
    {
        &self.packet
    }

    /// Returns the steps, in order.
    pub fn steps(&self) -> &[Step]
        ensures value { result.now ≡ self.now.steps }
        ensures few { length result.now ≤ step_limit }
    {
        self.steps.as_slice()
    }
}
