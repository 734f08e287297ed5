//! Metering of packets where they cross interfaces.
ghost use Rattle.std.specs.Prelude.{◌≡◌, OnOk, IfErr};
ghost use Rattle.fx_base.specs.Fault.{IsMemory};
ghost use Rattle.fx_runs.specs.Making.{intakes_at};
ghost use Rattle.fx_net.specs.Metering as metering;
ghost use Rattle.fx_net.specs.Taking as taking;

use crate::contents::Contents;
use fx_base::{Counts, Fault};
use fx_boxes::Fields;
use fx_tables::{Crossing, Net, Occurrence};
use std::alloc::Global;

impl Contents {
    /// Meters a packet that crosses an interface: each cache that meters it there takes its counts in. The list `met`
    /// is used for the places where it is metered; its previous contents don't matter.
    fn cross(
        &mut self,
        alloc: Global,
        net: &Net,
        fields: &Fields,
        counts: Counts,
        crossing: &Crossing,
        met: &mut Vec<Occurrence>,
    ) -> Result<(), Fault>
        ensures ok { OnOk result (self.new
            ≡ taking.after_taking net.now counts (intakes_at net.now fields.now crossing.now)
            self.old) }
        ensures err { IfErr result IsMemory }
    {
        met.clear();
        net.push_occurrences(met, crossing, fields)?;
        self.meet(alloc, net, met.as_slice(), fields, counts)
    }

    /// Meters a packet at all crossings of a path, in order. The list `met` is used for the places where it is metered,
    /// so that no packet needs memory of its own.
    ///
    /// Fails with 900, at no place, if out of memory.
    pub(crate) fn cross_all(
        &mut self,
        alloc: Global,
        net: &Net,
        fields: &Fields,
        counts: Counts,
        path: &[Crossing],
        met: &mut Vec<Occurrence>,
    ) -> Result<(), Fault>
        ensures ok { OnOk result (self.new
            ≡ metering.after_path net.now fields.now counts path.now self.old) }
        ensures err { IfErr result IsMemory }
    {
        for crossing in path {
            self.cross(alloc, net, fields, counts, crossing, met)?;
        }
        Ok(())
    }
}
