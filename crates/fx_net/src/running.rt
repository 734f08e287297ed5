//! Whole runs: the lines of a schedule, and then the closing phase.
ghost use Rattle.std.specs.Prelude.{◌≡◌, ◌⊎◌, None, IfOk, OnOk, IfErr};
ghost use Rattle.fx_net.specs.Opening.{opening_contents};
ghost use Rattle.fx_net.specs.Running as running;
ghost use Rattle.fx_base.specs.Device.{KeepsGoing};

use crate::network::Network;
use fx_base::{Fault, LineReader, Source};
use fx_collect::Totals;
use fx_layout::Seed;
use fx_link::Links;
use fx_pcap::Capture;
use fx_plan::Plan;
use fx_traffic::Traffic;
use std::alloc::Global;

impl<'a> Network<'a> {
    /// Obeys the lines of a schedule, one after another.
    fn obey_all<R: Source, Q: Source, L: Links>(
        &mut self,
        capture: &mut Capture<R>,
        schedule: &mut LineReader<Q>,
        links: &mut L,
    ) -> Result<(), Fault>
        requires { self.old.fault ≡ None }
        ensures ok { OnOk result (running.ObeysAll self.old self.new capture.old capture.new
            schedule.old schedule.new
            (L.put_on links.old) (L.put_on links.new)) }
        ensures faultless { OnOk result (self.new.fault ≡ None) }
        ensures going { OnOk result (KeepsGoing (L.failed links.old) (L.failed links.new)) }
        ensures err { IfErr result (λ e. running.FailsOutside (L.failed links.new) e
            ⊎ running.RefusesRun self.old capture.old capture.new schedule.old schedule.new
            (L.put_on links.old) e) }
    {
        while schedule.advance()? {
            self.obey(&schedule.line(), capture, links)?;
        }
        Ok(())
    }

    /// Obeys the lines of a schedule, and goes through the closing phase.
    fn obey_and_close<R: Source, Q: Source, L: Links>(
        &mut self,
        capture: &mut Capture<R>,
        schedule: &mut LineReader<Q>,
        links: &mut L,
    ) -> Result<(), Fault>
        requires { self.old.fault ≡ None }
        ensures ok { OnOk result (running.RunsSchedule self.old self.new capture.old capture.new
            schedule.old schedule.new
            (L.put_on links.old) (L.put_on links.new)) }
        ensures going { OnOk result (KeepsGoing (L.failed links.old) (L.failed links.new)) }
        ensures err { IfErr result (λ e. running.FailsOutside (L.failed links.new) e
            ⊎ running.RefusesRun self.old capture.old capture.new schedule.old schedule.new
            (L.put_on links.old) e) }
    {
        self.obey_all(capture, schedule, links)?;
        self.close(capture, links)
    }

    /// Returns what the collector has counted.
    fn into_totals(self) -> Totals
        ensures { result ≡ self.entry.contents.totals }
    {
        self.contents.totals
    }
}

/// Runs a network over a capture: it obeys the lines of a schedule, goes through the closing phase, and returns the
/// collector's totals. The capture then gives the number of skipped frames. Stores and totals hash keys with the seed.
///
/// Fails with the first refusal: at a line of the schedule as [`Network::obey`], in the closing phase as
/// [`Network::close`], and if the schedule can't be read, as its reader does.
pub fn run<R: Source, Q: Source, L: Links>(
    alloc: Global,
    seed: Seed,
    plan: &Plan,
    traffic: &Traffic,
    capture: &mut Capture<R>,
    schedule: &mut LineReader<Q>,
    links: &mut L,
) -> Result<Totals, Fault>
    ensures ok { IfOk result (λ totals. running.RunsTo (running.begun plan.now traffic.now)
        capture.old capture.new
        schedule.old schedule.new (L.put_on links.old) (L.put_on links.new) totals) }
    ensures going { OnOk result (KeepsGoing (L.failed links.old) (L.failed links.new)) }
    ensures err { IfErr result (λ e. running.FailsOutside (L.failed links.new) e
        ⊎ running.RefusesRun (running.begun plan.now traffic.now) capture.old capture.new
        schedule.old schedule.new (L.put_on links.old) e) }
{
    let mut network = Network::open(alloc, seed, plan, traffic)?;
    network.obey_and_close(capture, schedule, links)?;
    Ok(network.into_totals())
}
