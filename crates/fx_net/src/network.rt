//! A running network, and what the lines of a schedule do in it.
ghost use Rattle.std.specs.Prelude.{◌≡◌, ◌<◌, ◌^◌, true, false, position, None, IfOk, IfErr, OnOk};
ghost use Rattle.fx_base.specs.Fault.{IsMemory};
ghost use Rattle.fx_base.specs.Refusals.{want_of_memory};
ghost use Rattle.fx_boxes.specs.Boxes.{holds};
ghost use Rattle.fx_tables.specs.Classes as traffic;
ghost use Rattle.fx_pcap.specs.Captures as captures;
ghost use Rattle.fx_plan.specs.Tables.{net_of};
ghost use Rattle.fx_net.specs.declared.action.Action.TheVariants as action;
ghost use Rattle.fx_net.specs.declared.stop.Stop.TheVariants as stop;
ghost use Rattle.fx_net.specs.Doings as doings;
ghost use Rattle.fx_net.specs.Opening as opening;
ghost use Rattle.fx_net.specs.Running as running;

use crate::contents::Contents;
use crate::stop::Stop;
use fx_base::{Counts, Fault, Source};
use fx_boxes::Fields;
use fx_collect::Totals;
use fx_layout::Seed;
use fx_pcap::{Capture, Frame};
use fx_plan::Plan;
use fx_tables::{Class, Occurrence, Packet};
use fx_traffic::Traffic;
use std::alloc::Global;
use std::marker::Model;

/// A running network: it meters the packets of a capture, exports what it has metered in IPFIX messages on its links,
/// mediates and totals them. It borrows the declarations of the network and its traffic.
#[derive(Drop)]
pub struct Network<'a> {
    pub(crate) alloc: Global,
    pub(crate) plan: &'a Plan,
    pub(crate) traffic: &'a Traffic,
    pub(crate) contents: Contents,
    pub(crate) stopped: Option<Stop>,
}

impl<'a> Model for Network<'a> {
    ghost use Rattle.std.specs.Prelude.{option_map};
    ghost use Rattle.fx_net.specs.Running.{RunningNetwork, fault_of};
    ghost use Rattle.std.specs.Coded.{codes};
    ghost use Rattle.std.specs.FinMap.{code};

    ghost Value = { RunningNetwork };

    ghost coded = { Prim.hlevel (codes, code) };

    ghost view = { λ n. record {
      network = n.plan.now;
      classes = n.traffic.now;
      contents = n.contents;
      fault = option_map fault_of n.stopped;
    } };
}

/// Returns the 0-based place of the first class that holds these fields.
fn class_place(classes: &[Class], fields: &Fields) -> Option<usize>
    ensures { result ≡ position (λ (c : traffic.Class). holds c.region fields.now) classes.now }
{
    classes.iter().position(|class| class.holds(fields))
}

/// Returns the packet of a frame, of this class and with this path.
fn packet_of(frame: &Frame<'_>, class: u64, path: u64) -> Packet
    ensures packet { result ≡ running.packet_of (captures.seen_of frame.now) class path }
    ensures frame { doings.IsFrame (running.packet_of (captures.seen_of frame.now) class path)
        (captures.seen_of frame.now) }
{
    // This gives the prover that each value is within the bounds of its axis.
    let _first = frame.fields.value_at(0);
    Packet {
        fields: frame.fields,
        octets: frame.octets as u64,
        class,
        path,
    }
}

impl<'a> Network<'a> {
    /// Creates the network before anything is read. Its stores and totals hash keys with the seed.
    ///
    /// Fails with 900, at no place, if out of memory.
    pub fn open(
        alloc: Global,
        seed: Seed,
        plan: &'a Plan,
        traffic: &'a Traffic,
    ) -> Result<Network<'a>, Fault>
        ensures ok { IfOk result (λ n. n ≡ record {
          network = plan.now;
          classes = traffic.now;
          contents = opening.opening_contents plan.now;
          fault = None;
        }) }
        ensures err { IfErr result IsMemory }
    {
        Ok(Network {
            alloc,
            plan,
            traffic,
            contents: Contents::open(alloc, seed, plan)?,
            stopped: None,
        })
    }

    /// Meters the packet of a frame, of this class and with this path, at all its crossings. The list `met` is used for
    /// the places where it is metered. Fails with 900, at no place, if out of memory.
    pub(crate) fn meter(
        &mut self,
        frame: &Frame<'_>,
        class: u64,
        path: u64,
        met: &mut Vec<Occurrence>,
    ) -> Result<(), Stop>
        ensures ok { OnOk result (self.new ≡ record self.old {
          contents = doings.after_packet (net_of self.old.network)
              self.old.classes (running.packet_of (captures.seen_of frame.now) class path)
              frame.now.second self.old.contents;
        }) }
        ensures frame { doings.IsFrame (running.packet_of (captures.seen_of frame.now) class path)
            (captures.seen_of frame.now) }
        ensures soon { frame.now.second < 2 ^ 32 }
        ensures err { IfErr result (λ s. s ≡ stop.Bare want_of_memory) }
    {
        let packet = packet_of(frame, class, path);
        let counts = Counts {
            packets: 1,
            octets: frame.octets as u64,
        };
        let crossings = self.traffic.classes().path_of(&packet);
        let net = self.plan.net();
        self.contents.second = frame.second;
        self.contents
            .cross_all(self.alloc, net, &packet.fields, counts, crossings, met)?;
        Ok(())
    }

    /// Meters the packet of the current frame of a capture at all its crossings, if a class holds it: it is of the
    /// first such class, and takes that class's first path. Returns whether there is such a class. The list `met` is
    /// used for the places where it is metered. Fails with 900, at no place, if out of memory.
    pub(crate) fn meter_first<R: Source>(
        &mut self,
        capture: &Capture<R>,
        met: &mut Vec<Occurrence>,
    ) -> Result<bool, Stop>
        ensures read { IfOk result (λ there. there ≡ true
            → doings.ReadsFrame (net_of self.old.network) self.old.classes action.Next
            capture.now.seen
            self.old.contents self.new.contents) }
        ensures none { IfOk result (λ there. there ≡ false
            → running.IsOfNone self.old.classes capture.now.seen) }
        ensures rest { OnOk result (self.new ≡ record self.old { contents = self.new.contents }) }
        ensures err { IfErr result (λ s. s ≡ stop.Bare want_of_memory) }
    {
        let frame = capture.frame();
        let classes = self.traffic.classes().as_slice();
        let Some(index) = class_place(classes, &frame.fields) else {
            return Ok(false);
        };
        self.meter(&frame, index as u64 + 1, 1, met)?;
        Ok(true)
    }

    /// Returns what the collector has counted so far.
    pub fn totals(&self) -> &Totals
        ensures { result.now ≡ self.now.contents.totals }
    {
        &self.contents.totals
    }
}
