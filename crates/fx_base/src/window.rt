//! A buffered window on the octets of a source.
ghost use Rattle.std.specs.Prelude.{◌≡◌, ◌⊎◌, ◌+◌, ◌-◌, ◌≤◌, ◌<◌, [], length, take, drop, true, OnOk, OnErr, IfOk, IfErr, IfSome, slice_range};
ghost use Rattle.std.specs.Io.KnownBytes.{prepend_known};
ghost use Rattle.fx_base.specs.Limits.{call_limit};
ghost use Rattle.fx_base.specs.Device.{IsAsked};
ghost use Rattle.fx_base.specs.Fault.{fault_at, IsMemory};
ghost use Rattle.fx_base.specs.declared.fault.Place.TheVariants as places;
ghost use Rattle.fx_base.specs.Window.{octets_of, HasFailed};
ghost use Rattle.fx_base.specs.Refusals.{failed_read};

use crate::calls::read_next;
use crate::fault::Fault;
use crate::source::Source;
use std::alloc::Global;
use std::marker::Model;

/// The octets of a source, the first of which are held in a buffer of fixed size.
///
/// What was read stays held until it is passed over, so a reader can look at as many octets at once as the buffer has
/// room for. It calls its source at most 4,294,967,296 times and allocates only when it is made.
#[derive(Drop)]
pub struct Window<R: Source> {
    source: R,
    bytes: Vec<u8>,
    start: usize,
    end: usize,
    calls: u64,
}

impl<R: Source> Model for Window<R> {
    ghost use Rattle.std.specs.Prelude.{length, slice_range};
    ghost use Rattle.fx_base.specs.Window.{Held, IsWindow};

    ghost Value = { Held };

    ghost view = { λ w. record {
      room = length w.bytes.items;
      held = slice_range w.bytes.items w.start w.end;
      left = R.left w.source;
      failed = R.failed w.source;
      calls = w.calls;
      asked = R.calls w.source;
    } };

    ghost invariant = { λ w. IsWindow (length w.bytes.items) w.start w.end w.calls };
}

/// Reads into the buffer after its first `end` octets.
fn read_behind<R: Source>(
    source: &mut R,
    bytes: &mut [u8],
    end: usize,
    calls: &mut u64,
) -> Result<usize, Fault>
    requires room { end < length bytes.old }
    requires calls { calls.old ≤ call_limit }
    ensures octets { IfOk result (λ n. prepend_known (take (end + n) bytes.new) (R.left source.new)
        ≡ prepend_known (take end bytes.old) (R.left source.old)) }
    ensures front { take end bytes.new ≡ take end bytes.old }
    ensures count { IfOk result (λ n. end + n ≤ length bytes.old) }
    ensures end { IfOk result (λ n. n ≡ 0 → IfSome (R.left source.new) (λ left. left ≡ [])) }
    ensures counted { OnOk result (calls.new ≡ calls.old + 1) }
    ensures calls { (calls.old ≤ calls.new) × (calls.new ≤ call_limit)
        × (calls.new ≤ calls.old + 1) }
    ensures asked { IsAsked (R.calls source.old) (calls.new - calls.old) (R.calls source.new) }
    ensures left { OnErr result (R.left source.new ≡ R.left source.old) }
    ensures err { IfErr result (λ e. (e ≡ fault_at failed_read places.None)
        × ((R.failed source.new ≡ true) ⊎ (calls.old ≡ call_limit))) }
{
    read_next(source, &mut bytes[end..], calls)
}

/// Reads after the first octets until there are as many as wanted or the source ends.
fn gather<R: Source>(
    source: &mut R,
    bytes: &mut [u8],
    end: &mut usize,
    want: usize,
    calls: &mut u64,
) -> Result<(), Fault>
    requires end { end.old ≤ length bytes.old }
    requires want { want ≤ length bytes.old }
    requires calls { calls.old ≤ call_limit }
    ensures octets { prepend_known (take end.new bytes.new) (R.left source.new)
        ≡ prepend_known (take end.old bytes.old) (R.left source.old) }
    ensures front { take end.old bytes.new ≡ take end.old bytes.old }
    ensures enough { OnOk result (end.new < want → IfSome (R.left source.new) (λ left. left ≡ [])) }
    ensures fits { (end.old ≤ end.new) × (end.new ≤ length bytes.old)
        × (end.old < end.new → calls.old < calls.new) }
    ensures spent { (calls.new + end.old ≤ calls.old + end.new + 1)
        × (want ≤ end.new → calls.new + end.old ≤ calls.old + end.new) }
    ensures calls { (calls.old ≤ calls.new) × (calls.new ≤ call_limit) }
    ensures asked { IsAsked (R.calls source.old) (calls.new - calls.old) (R.calls source.new) }
    ensures err { IfErr result (λ e. (e ≡ fault_at failed_read places.None)
        × ((R.failed source.new ≡ true)
        ⊎ ((calls.new ≡ call_limit)
        × IfSome (R.left source.old) (λ left. call_limit ≤ calls.old + length left)))) }
{
    'reading: while *end < want {
        let n = read_behind(source, bytes, *end, calls)?;
        if n == 0 {
            return Ok(());
        }
        *end += n;
    }
    Ok(())
}

/// Moves the octets from `start` to `end` to the front.
fn to_front(bytes: &mut [u8], start: usize, end: usize)
    requires { (start ≤ end) × (end ≤ length bytes.old) }
    ensures { take (end - start) bytes.new ≡ slice_range bytes.old start end }
{
    bytes.copy_within(start..end, 0);
}

impl<R: Source> Window<R> {
    /// Returns an empty window on a source, with room for this number of octets.
    ///
    /// Fails with 900, at no place, if out of memory.
    pub fn new(alloc: Global, source: R, room: usize) -> Result<Window<R>, Fault>
        ensures ok { IfOk result (λ w. w ≡ record {
          room = room;
          held = [];
          left = R.left source;
          failed = R.failed source;
          calls = 0;
          asked = R.calls source;
        }) }
        ensures err { IfErr result IsMemory }
    {
        Ok(Window {
            source,
            bytes: vec![in alloc; 0; room]?,
            start: 0,
            end: 0,
            calls: 0,
        })
    }

    /// Reads until it holds as many octets as wanted, for which it must have room, or the source has ended. It calls
    /// its source only if it holds fewer.
    ///
    /// Fails with 901, at no place, if a read fails or the source hasn't ended after 4,294,967,296 calls. No octet is
    /// lost then.
    pub fn fill(&mut self, want: usize) -> Result<(), Fault>
        requires { want ≤ self.old.room }
        ensures octets { octets_of self.new ≡ octets_of self.old }
        ensures front { take (length self.old.held) self.new.held ≡ self.old.held }
        ensures room { self.new.room ≡ self.old.room }
        ensures enough { OnOk result (length self.new.held < want
            → IfSome self.new.left (λ left. left ≡ [])) }
        ensures idle { want ≤ length self.old.held → self.new ≡ self.old }
        ensures fits { (length self.old.held ≤ length self.new.held)
            × (length self.new.held ≤ self.old.room)
            × (length self.old.held < length self.new.held → self.old.calls < self.new.calls) }
        ensures spent { (self.new.calls + length self.old.held
            ≤ self.old.calls + length self.new.held + 1)
            × (want ≤ length self.new.held
            → self.new.calls + length self.old.held ≤ self.old.calls + length self.new.held) }
        ensures calls { (self.old.calls ≤ self.new.calls) × (self.new.calls ≤ call_limit) }
        ensures asked { IsAsked self.old.asked (self.new.calls - self.old.calls) self.new.asked }
        ensures err { IfErr result (λ e. (e ≡ fault_at failed_read places.None)
            × HasFailed self.old self.new) }
    {
        let held = self.end - self.start;
        if held >= want {
            return Ok(());
        }
        let bytes = self.bytes.as_mut_slice();
        to_front(bytes, self.start, self.end);
        self.start = 0;
        self.end = held;
        gather(
            &mut self.source,
            bytes,
            &mut self.end,
            want,
            &mut self.calls,
        )
    }

    /// Returns the octets that it holds.
    pub fn octets(&self) -> &[u8]
        ensures value { result.now ≡ self.now.held }
        ensures room { length result.now ≤ self.now.room }
    {
        &self.bytes[self.start..self.end]
    }

    /// Returns the source, which is past the octets that the window holds.
    pub fn get_ref(&self) -> &R
        ensures left { R.left result.now ≡ self.now.left }
        ensures failed { R.failed result.now ≡ self.now.failed }
        ensures calls { R.calls result.now ≡ self.now.asked }
    {
        &self.source
    }

    /// Passes over the first `n` octets, which it must hold.
    pub fn pass(&mut self, n: usize)
        requires { n ≤ length self.old.held }
        ensures { self.new ≡ record self.old { held = drop n self.old.held } }
    {
        self.start += n;
    }
}
