//! The frames of a capture, one at a time.
ghost use Rattle.std.specs.Prelude.{◌≡◌, None, IfOk, IfErr};
ghost use Rattle.fx_pcap.specs.Captures.{IsCaptureFault};
ghost use Rattle.fx_pcap.specs.Kept.{fault_of};

use crate::content::{Content, read_content};
use crate::frame::Frame;
use crate::header::{FILE_HEADER, Format, read_format};
use crate::record::{RECORD_HEADER, ROOM, find_record};
use crate::skipped::Skipped;
use crate::stop::CaptureStop;
use fx_base::{Fault, Source, Window, refusals};
use fx_boxes::Fields;
use fx_elements::AXES;
use std::alloc::Global;
use std::marker::Model;

/// The kind of a record.
#[derive(Clone, Copy)]
pub(crate) enum RecordKind {
    Frame,
    Skipped,
    End,
}

/// Returns the fault of a reader that stopped at this octet.
fn fault_of_stop(place: u64, stop: CaptureStop) -> Fault
    ensures value { result ≡ fault_of place stop }
    ensures reported { IsCaptureFault result }
{
    match stop {
        CaptureStop::Device => Fault::bare(refusals::FAILED_READ),
        CaptureStop::Cut => Fault::at_octet(refusals::CAPTURE_CUT, place),
        CaptureStop::TooLong => Fault::at_octet(refusals::LONG_CAPTURE_RECORD, place),
    }
}

/// Lends the frames of a capture one at a time.
///
/// A capture is of version 2.4, with microseconds or nanoseconds, and with its header numbers in either byte order. Its
/// link type is Ethernet (1), with any number of tags, or raw IP (101). Frames that are neither IPv4 (RFC 791) nor IPv6
/// (RFC 8200), and malformed frames, are skipped and counted. After a fault the reader keeps returning that fault. It
/// allocates only when it is made.
#[derive(Drop)]
pub struct Capture<R: Source> {
    window: Window<R>,
    format: Format,
    place: u64,
    taken: usize,
    skipped: Skipped,
    packets: u64,
    fields: Fields,
    octets: u32,
    second: u32,
    stopped: Option<CaptureStop>,
}

impl<R: Source> Model for Capture<R> {
    ghost use Rattle.fx_pcap.specs.Captures.{CaptureState};
    ghost use Rattle.fx_pcap.specs.Kept.{reading_of, IsCaptureWindow};

    ghost Value = { CaptureState };

    ghost view = { λ c. reading_of c.window
        (record {
          format = c.format;
          place = c.place;
          taken = c.taken;
          skipped = c.skipped;
          fields =
              c.fields;
          octets = c.octets;
          second = c.second;
          stopped = c.stopped;
        }) };

    ghost invariant = { λ c. IsCaptureWindow c.window c.taken };
}

impl<R: Source> Capture<R> {
    ghost use Rattle.fx_pcap.specs.Captures.{AdvancesToFrame, NextFrameIs, IsOpened, IsRefusedCapture, IsUnreadable};
    ghost use Rattle.fx_pcap.specs.Kept.{Takes, GoesOnToFrame};

    /// Returns a reader of the capture from a source.
    ///
    /// Fails with 900 if out of memory, with 901 if a read fails, with 701 at octet 0 if the file header is cut or has
    /// another magic or version, and with 702 for another link type; 900, 901 and 702 at no place.
    pub fn new(alloc: Global, source: R) -> Result<Capture<R>, Fault>
        ensures ok { IfOk result (IsOpened (R.left source) (R.calls source)) }
        ensures err { IfErr result (IsRefusedCapture (R.left source)
            (IsUnreadable R.calls R.failed (R.left source) (R.calls source))) }
    {
        let mut window = Window::new(alloc, source, ROOM)?;
        let Ok(()) = window.fill(FILE_HEADER) else {
            // This lets the contract mention the current source.
            window.get_ref();
            return Err(Fault::bare(refusals::FAILED_READ));
        };
        let format = read_format(window.octets())?;
        Ok(Capture {
            window,
            format,
            place: FILE_HEADER as u64,
            taken: FILE_HEADER,
            skipped: Skipped {
                other: 0,
                malformed: 0,
            },
            packets: 0,
            fields: Fields::of([0; AXES]),
            octets: 0,
            second: 0,
            stopped: None,
        })
    }

    /// Reads the next record.
    fn take_record(&mut self) -> Result<RecordKind, CaptureStop>
        requires { self.old.stopped ≡ None }
        ensures { Takes self.old self.new result }
    {
        self.window.pass(self.taken);
        self.taken = 0;
        let Some(size) = find_record(&mut self.window, self.format.order)? else {
            return Ok(RecordKind::End);
        };
        let octets = self.window.octets();
        let content = read_content(self.format.link, &octets[RECORD_HEADER..size]);
        self.second = self.format.order.read32(octets, 0);
        self.taken = size;
        self.place = self.place.saturating_add(size as u64);
        match content {
            Content::Packet(fields, octets) => {
                self.fields = fields;
                self.octets = octets;
                self.packets = self.packets.wrapping_add(1);
                return Ok(RecordKind::Frame);
            }
            Content::Other => self.skipped.other = self.skipped.other.wrapping_add(1),
            Content::Malformed => self.skipped.malformed = self.skipped.malformed.wrapping_add(1),
        }
        Ok(RecordKind::Skipped)
    }

    /// Reads records up to the next frame, and returns whether there is one.
    fn find_frame(&mut self) -> Result<bool, CaptureStop>
        requires { self.old.stopped ≡ None }
        ensures { GoesOnToFrame self.old self.new result }
    {
        'records: loop {
            match self.take_record()? {
                RecordKind::Frame => return Ok(true),
                RecordKind::End => return Ok(false),
                RecordKind::Skipped => {}
            }
        }
    }

    /// Advances to the next frame and returns whether there is one.
    ///
    /// Fails with 901, at no place, if a read fails or the source hasn't ended after 4,294,967,296 calls, with 703 if
    /// the capture ends inside a record, and with 704 if a record has more than 262,144 captured octets, both at the
    /// first octet of the record.
    pub fn advance(&mut self) -> Result<bool, Fault>
        ensures advances { AdvancesToFrame self.old self.new result }
        // This holds whether the source is known or opaque.
        ensures reported { IfErr result IsCaptureFault }
    {
        if let Some(stop) = self.stopped {
            return Err(fault_of_stop(self.place, stop));
        }
        match self.find_frame() {
            Ok(there) => Ok(there),
            Err(stop) => {
                self.stopped = Some(stop);
                Err(fault_of_stop(self.place, stop))
            }
        }
    }

    /// Returns the current frame, after [`advance`](Capture::advance) returned true.
    pub fn frame(&self) -> Frame<'_>
        ensures captured { result.captured.now ≡ self.now.seen.captured }
        ensures fields { result.fields ≡ self.now.seen.fields }
        ensures octets { result.octets ≡ self.now.seen.octets }
        ensures second { result.second ≡ self.now.seen.second }
    {
        Frame {
            captured: &self.window.octets()[RECORD_HEADER.min(self.taken)..self.taken],
            fields: self.fields,
            octets: self.octets,
            second: self.second,
        }
    }

    /// Returns the number of frames that it has lent, modulo 2 to the 64.
    pub fn packets(&self) -> u64 {
        self.packets
    }

    /// Returns the numbers of frames skipped so far.
    pub fn skipped(&self) -> Skipped
        ensures { result ≡ self.now.skipped }
    {
        self.skipped
    }

    /// Returns the source, which is past the octets that the reader holds.
    pub fn get_ref(&self) -> &R
        ensures failed { R.failed result.now ≡ self.now.failed }
        ensures calls { R.calls result.now ≡ self.now.asked }
    {
        self.window.get_ref()
    }

    /// Returns the next frame, or none at the end of the capture.
    ///
    /// Fails like [`advance`](Capture::advance), whose contract also describes the state that it leaves.
    pub fn next_packet(&mut self) -> Result<Option<Frame<'_>>, Fault>
        ensures { NextFrameIs self.old result }
    {
        if !self.advance()? {
            return Ok(None);
        }
        Ok(Some(self.frame()))
    }
}
