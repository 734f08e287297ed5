//! A device that fails at a given call.
ghost use Rattle.std.specs.Prelude.{◌≡◌, ◌≢◌, ◌↔◌, ◌+◌, ◌-◌, ◌%◌, ◌^◌, ◌≤◌, [], length, take, true, false, OnOk, OnErr, IfOk, IfErr, IsErr, IsTrue};
ghost use Rattle.fx_base.specs.Device.{ReadsInto, Writes};
ghost use Rattle.fx_base.specs.Fault.{fault_at};
ghost use Rattle.fx_base.specs.declared.fault.Place.TheVariants as places;
ghost use Rattle.fx_base.specs.Refusals.{failed_read, failed_write};

use crate::fault::Fault;
use crate::refusals;
use crate::sink::Sink;
use crate::source::Source;

/// A device that fails at one call, for tests of what a failing device does.
///
/// The failing call doesn't reach the device. Every other call is passed to the device.
#[derive(Drop)]
pub struct Fuse<D> {
    device: D,
    /// The number of calls up to the one that fails; if 0, none does.
    calls: u64,
    /// The number of reads, modulo 2 to the 64.
    reads: u64,
    failed: bool,
}

impl<D> Fuse<D> {
    /// Returns the device, failing at call `at`, counted from 1. If `at` is 0, calls fail only if the device does.
    pub fn new(device: D, at: u64) -> Fuse<D>
        ensures device { result.device ≡ device }
        ensures calls { result.calls ≡ at }
        ensures ok { result.failed ≡ false }
    {
        Fuse {
            device,
            calls: at,
            reads: 0,
            failed: false,
        }
    }

    /// Returns the device.
    pub fn into_inner(self) -> D
        ensures { result ≡ self.device }
    {
        let Fuse {
            device,
            calls: _,
            reads: _,
            failed: _,
        } = self;
        device
    }

    /// Counts a call and returns whether it is the one that fails.
    fn burns(&mut self) -> bool
        ensures burns { IsTrue result ↔ (self.old.calls ≡ 1) }
        ensures calls { self.new.calls ≡ self.old.calls - 1 }
        ensures device { self.new.device ≡ self.old.device }
        ensures reads { self.new.reads ≡ self.old.reads }
    {
        let burns = self.calls == 1;
        self.calls = self.calls.saturating_sub(1);
        burns
    }
}

impl<D: Source> Source for Fuse<D> {
    ghost left = { λ s. D.left s.device };

    ghost failed = { λ s. s.failed };

    ghost calls = { λ s. s.reads };

    fn read(&mut self, buffer: &mut [u8]) -> Result<usize, Fault>
        ensures count { IfOk result (λ n. n ≤ length buffer.old) }
        ensures ok { OnOk result (self.new.failed ≡ false) }
        ensures octets { IfOk result (λ n. ReadsInto (D.left self.old.device)
            (D.left self.new.device)
            (length buffer.old) (take n buffer.new) n) }
        ensures err { IfErr result (λ e. (e ≡ fault_at failed_read places.None)
            × (self.new.failed ≡ true)
            × (D.left self.new.device ≡ D.left self.old.device)) }
        ensures asked { self.new.reads ≡ (self.old.reads + 1) % 2 ^ 64 }

        // The given call fails, and any other call fails only if the device fails.
        ensures burns { self.old.calls ≡ 1 → IsErr result }
        ensures device { OnErr result (self.old.calls ≢ 1 → D.failed self.new.device ≡ true) }
        ensures calls { self.new.calls ≡ self.old.calls - 1 }
    {
        self.reads = self.reads.wrapping_add(1);
        if self.burns() {
            self.failed = true;
            return Err(Fault::bare(refusals::FAILED_READ));
        }
        let answer = self.device.read(buffer);
        self.failed = answer.is_err();
        answer
    }
}

impl<D: Sink> Sink for Fuse<D> {
    ghost taken = { λ s. D.taken s.device };

    ghost failed = { λ s. s.failed };

    ghost holds_back = { λ s. D.holds_back s.device };

    fn write(&mut self, octets: &[u8]) -> Result<usize, Fault>
        ensures count { IfOk result (λ n. n ≤ length octets.now) }
        ensures some { IfOk result (λ n. n ≡ 0 → octets.now ≡ []) }
        ensures ok { OnOk result (self.new.failed ≡ false) }
        ensures octets { IfOk result (λ n. Writes (D.taken self.old.device)
            (D.taken self.new.device) (take n octets.now)) }
        ensures err { IfErr result (λ e. (e ≡ fault_at failed_write places.None)
            × (self.new.failed ≡ true)) }

        // The given call fails, and any other call fails only if the device fails.
        ensures burns { self.old.calls ≡ 1 → IsErr result }
        ensures device { OnErr result (self.old.calls ≢ 1 → D.failed self.new.device ≡ true) }
        ensures calls { self.new.calls ≡ self.old.calls - 1 }
    {
        if self.burns() {
            self.failed = true;
            return Err(Fault::bare(refusals::FAILED_WRITE));
        }
        let answer = self.device.write(octets);
        self.failed = answer.is_err();
        answer
    }

    fn flush(&mut self) -> Result<(), Fault>
        ensures ok { OnOk result ((self.new.failed ≡ false)
            × (D.holds_back self.new.device ≡ false)) }
        ensures octets { OnOk result (D.taken self.new.device ≡ D.taken self.old.device) }
        ensures err { IfErr result (λ e. (e ≡ fault_at failed_write places.None)
            × (self.new.failed ≡ true)) }

        // The given call fails, and any other call fails only if the device fails.
        ensures burns { self.old.calls ≡ 1 → IsErr result }
        ensures device { OnErr result (self.old.calls ≢ 1 → D.failed self.new.device ≡ true) }
        ensures calls { self.new.calls ≡ self.old.calls - 1 }
    {
        if self.burns() {
            self.failed = true;
            return Err(Fault::bare(refusals::FAILED_WRITE));
        }
        let answer = self.device.flush();
        self.failed = answer.is_err();
        answer
    }
}
