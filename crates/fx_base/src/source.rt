//! Sources of octets.
ghost use Rattle.std.specs.Prelude.{◌≡◌, ℕ, ◌+◌, ◌%◌, ◌^◌, ◌≤◌, List, length, take, Bool, true, false, Option, OnOk, IfOk, IfErr};
ghost use Rattle.fx_base.specs.Device.{ReadsInto};
ghost use Rattle.fx_base.specs.Fault.{fault_at};
ghost use Rattle.fx_base.specs.declared.fault.Place.TheVariants as places;
ghost use Rattle.fx_base.specs.Refusals.{failed_read};

use crate::fault::Fault;

/// The number of calls after which a source that hasn't ended counts as failing.
pub const MOST_CALLS: u64 = 4_294_967_296;

/// A source of octets.
///
/// The specification sees it as the octets that it has left, if it is known, whether its last call failed, and the
/// number of its calls. A source is *known* if its octets are known to the specification, and *opaque* otherwise.
pub trait Source: Drop {
    /// The octets left, if the source is known.
    ghost left: { Self → Option (List ℕ) };

    /// Whether the last call failed.
    ghost failed: { Self → Bool };

    /// The number of calls made, modulo 2 to the 64.
    ghost calls: { Self → ℕ };

    /// Reads the next octets into the front of the buffer and returns their number, which is 0 at the end or if the
    /// buffer is empty.
    ///
    /// Fails with 901, at no place, and then no octet is lost.
    fn read(&mut self, buffer: &mut [u8]) -> Result<usize, Fault>
        ensures count { IfOk result (λ n. n ≤ length buffer.old) }
        ensures ok { OnOk result (failed self.new ≡ false) }
        ensures octets { IfOk result (λ n. ReadsInto (left self.old) (left self.new)
            (length buffer.old)
            (take n buffer.new) n) }
        ensures err { IfErr result (λ e. (e ≡ fault_at failed_read places.None)
            × (failed self.new ≡ true)
            × (left self.new ≡ left self.old)) }
        ensures asked { calls self.new ≡ (calls self.old + 1) % 2 ^ 64 };
}

/// A borrowed source.
impl<S: Source> Source for &mut S {
    ghost left = { λ s. S.left s.now };

    ghost failed = { λ s. S.failed s.now };

    ghost calls = { λ s. S.calls s.now };

    fn read(&mut self, buffer: &mut [u8]) -> Result<usize, Fault> {
        (**self).read(buffer)
    }
}
