//! Execution of the lines of a schedule.
ghost use Rattle.std.specs.Prelude.{◌≡◌, ◌⊎◌, false, Some, None, OnOk, IfErr};
ghost use Rattle.fx_pcap.specs.Captures as captures;
ghost use Rattle.fx_plan.specs.Tables.{net_of};
ghost use Rattle.fx_net.specs.declared.action.Action.TheVariants as action;
ghost use Rattle.fx_net.specs.declared.stop.Stop.TheVariants as stop;
ghost use Rattle.fx_net.specs.Contents.{with_changed};
ghost use Rattle.fx_net.specs.Doings as doings;
ghost use Rattle.fx_net.specs.Running as running;
ghost use Rattle.fx_base.specs.Device.{KeepsGoing};
ghost use Rattle.fx_base.specs.Refusals.{nothing_there, want_of_memory};

use crate::action::Action;
use crate::arriving::queue_length_of;
use crate::network::Network;
use crate::schedule::read_action;
use crate::stop::Stop;
use fx_base::{Fault, Line, Source, entry_numbered, refusals};
use fx_boxes::Fields;
use fx_link::Links;
use fx_pcap::Capture;
use fx_tables::{Class, HolderName, Occurrence};

/// Returns whether a class holds these fields and has a path of this 1-based number.
fn has_path(class: &Class, fields: &Fields, path: u64) -> bool
    ensures { result ≡ running.is_in_class (Some class.now) fields.now path }
{
    match entry_numbered(class.paths(), path) {
        None => false,
        Some(_path) => class.holds(fields),
    }
}

/// Returns whether a class of this 1-based number holds these fields and has a path of this number.
fn is_in(classes: &[Class], fields: &Fields, class: u64, path: u64) -> bool
    ensures { result ≡ running.is_in classes.now fields.now class path }
{
    match entry_numbered(classes, class) {
        None => false,
        Some(class) => has_path(class, fields, path),
    }
}

/// Makes the exporting process at this place use this destination from now on.
fn choose(chosen: &mut Vec<u64>, index: usize, destination: u64)
    ensures { chosen.new.items ≡ with_changed (λ _. destination) chosen.old.items index }
{
    if let Some(number) = chosen.get_mut(index) {
        *number = destination;
    }
}

impl<'a> Network<'a> {
    /// Reads the next packet. It is of the first class that holds it, and takes that class's first path.
    fn read_next<R: Source>(&mut self, capture: &mut Capture<R>, line: u64) -> Result<(), Stop>
        ensures ok { OnOk result (captures.AtFrame capture.old capture.new
            × doings.ReadsFrame (net_of self.old.network) self.old.classes action.Next
            capture.new.seen
            self.old.contents self.new.contents) }
        ensures rest { OnOk result (self.new ≡ record self.old { contents = self.new.contents }) }
        ensures err { IfErr result (λ s. (s ≡ stop.Bare want_of_memory)
            ⊎ running.RefusesAction self.old capture.old capture.new line action.Next
            (running.fault_of s)) }
    {
        if !capture.advance()? {
            return Err(Stop::Line {
                number: refusals::NOTHING_THERE,
                line,
            });
        }
        let mut met: Vec<Occurrence> = Vec::new(self.alloc);
        if !self.meter_first(capture, &mut met)? {
            return Err(Stop::Line {
                number: refusals::IN_NO_CLASS,
                line,
            });
        }
        Ok(())
    }

    /// Reads the next packet. It is of this class, and takes this path of the class.
    fn read_of<R: Source>(
        &mut self,
        capture: &mut Capture<R>,
        class: u64,
        path: u64,
        line: u64,
    ) -> Result<(), Stop>
        ensures ok { OnOk result (captures.AtFrame capture.old capture.new
            × doings.ReadsFrame (net_of self.old.network) self.old.classes
            (action.NextOf class path)
            capture.new.seen
            self.old.contents self.new.contents) }
        ensures rest { OnOk result (self.new ≡ record self.old { contents = self.new.contents }) }
        ensures err { IfErr result (λ s. (s ≡ stop.Bare want_of_memory)
            ⊎ running.RefusesAction self.old capture.old capture.new line (action.NextOf class path)
            (running.fault_of s)) }
    {
        if !capture.advance()? {
            return Err(Stop::Line {
                number: refusals::NOTHING_THERE,
                line,
            });
        }
        let frame = capture.frame();
        if !is_in(
            self.traffic.classes().as_slice(),
            &frame.fields,
            class,
            path,
        ) {
            return Err(Stop::Line {
                number: refusals::NOT_IN_NAMED_CLASS,
                line,
            });
        }
        let mut met: Vec<Occurrence> = Vec::new(self.alloc);
        self.meter(&frame, class, path, &mut met)
    }

    /// Lets the record of the least key leave a holder.
    fn expire(&mut self, name: HolderName, line: u64) -> Result<(), Stop>
        ensures ok { OnOk result (doings.LeastLeaves (net_of self.old.network) name
            self.old.contents self.new.contents) }
        ensures rest { OnOk result (self.new ≡ record self.old { contents = self.new.contents }) }
        ensures err { IfErr result (λ s. (s ≡ stop.Bare want_of_memory)
            ⊎ ((s ≡ stop.Line nothing_there line) × running.HoldsNothing self.old name)) }
    {
        let net = self.plan.net();
        let Some(index) = net.holder_place(name) else {
            return Err(Stop::Line {
                number: refusals::NOTHING_THERE,
                line,
            });
        };
        if !self.contents.expire_least(net, index)? {
            return Err(Stop::Line {
                number: refusals::NOTHING_THERE,
                line,
            });
        }
        Ok(())
    }

    /// Carries the given number of octets of a link to its end, and handles the records that they complete.
    fn carry(&mut self, link: u64, octets: u64, line: u64) -> Result<(), Stop>
        ensures ok { OnOk result (doings.CarriesOn (net_of self.old.network) link octets
            self.old.contents self.new.contents) }
        ensures rest { OnOk result (self.new ≡ record self.old { contents = self.new.contents }) }
        ensures err { IfErr result (λ s. (s ≡ stop.Bare want_of_memory)
            ⊎ ((s ≡ stop.Line nothing_there line)
            × running.HasTooFew self.old.contents link octets)) }
    {
        if link == 0 {
            return Err(Stop::Line {
                number: refusals::NOTHING_THERE,
                line,
            });
        }
        let index = (link - 1) as usize;
        match queue_length_of(self.contents.links.as_slice(), index) {
            None => return Err(Stop::Line {
                number: refusals::NOTHING_THERE,
                line,
            }),
            Some(queued) => {
                if (queued as u64) < octets {
                    return Err(Stop::Line {
                        number: refusals::NOTHING_THERE,
                        line,
                    });
                }
            }
        }
        self.contents
            .carry(self.alloc, self.plan.net(), index, octets as usize)?;
        Ok(())
    }

    /// Makes an exporting process send to this destination from now on.
    fn use_destination(
        &mut self,
        device: u64,
        exporter: u64,
        destination: u64,
        line: u64,
    ) -> Result<(), Stop>
        ensures ok { OnOk result (doings.Uses self.old.network device exporter destination
            self.old.contents self.new.contents) }
        ensures rest { OnOk result (self.new ≡ record self.old { contents = self.new.contents }) }
        ensures err { IfErr result (λ s. (s ≡ stop.Bare want_of_memory)
            ⊎ ((s ≡ stop.Line nothing_there line)
            × running.HasNoDestination self.old.network device exporter
            destination)) }
    {
        let Ok(index) = self.plan.exporter_place(self.alloc, device, exporter) else {
            return Err(Stop::Bare {
                number: refusals::WANT_OF_MEMORY,
            });
        };
        let Some(index) = index else {
            return Err(Stop::Line {
                number: refusals::NOTHING_THERE,
                line,
            });
        };
        let Some(named) = self.plan.net().exporters().get(index) else {
            return Err(Stop::Line {
                number: refusals::NOTHING_THERE,
                line,
            });
        };
        let Some(_destination) = entry_numbered(named.destinations(), destination) else {
            return Err(Stop::Line {
                number: refusals::NOTHING_THERE,
                line,
            });
        };
        choose(&mut self.contents.chosen, index, destination);
        Ok(())
    }

    /// Does what a line asks for.
    fn act<R: Source>(
        &mut self,
        asked: Action,
        line: u64,
        capture: &mut Capture<R>,
    ) -> Result<(), Stop>
        ensures ok { OnOk result (running.Acts asked self.old self.new capture.old capture.new) }
        ensures err { IfErr result (λ s. (s ≡ stop.Bare want_of_memory)
            ⊎ running.RefusesAction self.old capture.old capture.new line asked
            (running.fault_of s)) }
    {
        match asked {
            Action::Next => self.read_next(capture, line),
            Action::NextOf { class, path } => self.read_of(capture, class, path, line),
            Action::Expire { device, cache } => {
                self.expire(HolderName::Cache { device, cache }, line)
            }
            Action::Emit {
                device,
                process,
                aggregation,
            } => {
                let name = HolderName::Aggregation {
                    device,
                    process,
                    aggregation,
                };
                self.expire(name, line)
            }
            Action::Carry { link, octets } => self.carry(link, octets, line),
            Action::Use {
                device,
                exporter,
                destination,
            } => self.use_destination(device, exporter, destination, line),
        }
    }

    /// Obeys a line, whatever was returned before.
    fn try_line<R: Source, L: Links>(
        &mut self,
        line: &Line<'_>,
        capture: &mut Capture<R>,
        links: &mut L,
    ) -> Result<(), Stop>
        ensures ok { OnOk result (running.Obeys line.now.bytes.now self.old self.new capture.old
            capture.new
            (L.put_on links.old) (L.put_on links.new)) }
        ensures going { OnOk result (KeepsGoing (L.failed links.old) (L.failed links.new)) }
        ensures err { IfErr result (λ s. running.FailsOutside (L.failed links.new)
            (running.fault_of s)
            ⊎ running.RefusesLine line.now.bytes.now line.now.number self.old capture.old
            capture.new
            (running.fault_of s)) }
        ensures links { IfErr result (λ s. running.FailsOutside (L.failed links.new)
            (running.fault_of s)
            ⊎ (links.new ≡ links.old)) }
    {
        let Some(asked) = read_action(line.bytes) else {
            return Err(Stop::Line {
                number: refusals::SCHEDULE_OR_BUNDLE,
                line: line.number,
            });
        };
        self.act(asked, line.number, capture)?;
        self.contents.finish(links)?;
        Ok(())
    }

    /// Does what a line of the schedule asks for, and puts what it sends on the links.
    ///
    /// A line is `next` or `next CLASS PATH`, `expire DEVICE CACHE`, `emit DEVICE PROCESS AGGREGATION`,
    /// `carry LINK OCTETS` or `use DEVICE EXPORTER DESTINATION`; numbers are 1-based, in document order.
    ///
    /// Fails, at the line, with 801 if it is none of these; with 802 if a number names nothing, the holder holds
    /// nothing, fewer octets wait on the link or there are no more packets; with 803 if the packet isn't in the class
    /// or the class doesn't have the path, and with 804 if no class holds it. Fails as the capture does if a packet is
    /// read, with 902 if the links fail and with 900 if out of memory. A line that fails puts nothing on the links,
    /// except possibly with 900 or 902, and moves the capture only if it reads a packet. From then on each call returns
    /// the same fault and changes nothing.
    pub fn obey<R: Source, L: Links>(
        &mut self,
        line: &Line<'_>,
        capture: &mut Capture<R>,
        links: &mut L,
    ) -> Result<(), Fault>
        ensures ok { OnOk result (running.Obeys line.now.bytes.now self.old self.new capture.old
            capture.new
            (L.put_on links.old) (L.put_on links.new)) }
        ensures going { OnOk result (KeepsGoing (L.failed links.old) (L.failed links.new)) }
        ensures err { self.old.fault ≡ None → IfErr result
            (λ e. running.FailsOutside (L.failed links.new) e
            ⊎ running.RefusesLine line.now.bytes.now line.now.number self.old capture.old
            capture.new e) }
        ensures links { IfErr result (λ e. running.FailsOutside (L.failed links.new) e
            ⊎ (links.new ≡ links.old)) }
        ensures stopped { IfErr result (λ e. self.new.fault ≡ Some e) }
        ensures again { running.AnswersAgain self.old self.new result }
        ensures untouched { running.LeavesBoth self.old capture.old capture.new links.old
            links.new }
    {
        if let Some(stop) = self.stopped {
            return Err(stop.fault());
        }
        match self.try_line(line, capture, links) {
            Ok(()) => Ok(()),
            Err(stop) => {
                self.stopped = Some(stop);
                Err(stop.fault())
            }
        }
    }
}
