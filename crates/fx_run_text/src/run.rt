//! Runs.
ghost use Rattle.std.specs.Prelude.{◌≡◌, [], OnOk};
ghost use Rattle.fx_run_text.specs.RunReading.{with_step};

use crate::step::Step;
use fx_tables::Packet;
use std::alloc::{AllocError, Global};
use std::marker::Model;

/// A run: its packets and its steps, each in order.
#[derive(Debug, Drop)]
pub struct Run {
    packets: Vec<Packet>,
    steps: Vec<Step>,
}

impl Model for Run {
    ghost use Rattle.fx_run_text.specs.RunText as texts;

    ghost Value = { texts.Run };

    ghost view = { λ r. record { packets = r.packets.items; steps = r.steps.items } };
}

impl Run {
    /// Returns the packets.
    pub fn packets(&self) -> &[Packet]
        ensures { result.now ≡ self.now.packets }
    {
        self.packets.as_slice()
    }

    /// Returns the steps.
    pub fn steps(&self) -> &[Step]
        ensures { result.now ≡ self.now.steps }
    {
        self.steps.as_slice()
    }

    /// Returns the packets and the steps without allocating.
    pub fn into_parts(self) -> (Vec<Packet>, Vec<Step>)
        ensures packets { result.0.items ≡ self.packets }
        ensures steps { result.1.items ≡ self.steps }
    {
        let Run { packets, steps } = self;
        (packets, steps)
    }

    /// Returns a run with these packets and no steps.
    pub(crate) fn of_packets(alloc: Global, packets: Vec<Packet>) -> Run
        ensures { result ≡ record { packets = packets.items; steps = [] } }
    {
        Run {
            packets,
            steps: Vec::new(alloc),
        }
    }

    /// Appends a step.
    pub(crate) fn add_step(&mut self, step: Step) -> Result<(), AllocError>
        ensures { OnOk result (self.new ≡ with_step self.old step) }
    {
        self.steps.push(step)?;
        Ok(())
    }
}
