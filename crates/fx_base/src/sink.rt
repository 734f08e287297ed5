//! Destinations of octets.
ghost use Rattle.std.specs.Prelude.{◌≡◌, ℕ, ◌≤◌, List, [], length, take, Bool, true, false, Option, OnOk, IfOk, IfErr};
ghost use Rattle.fx_base.specs.Device.{Writes};
ghost use Rattle.fx_base.specs.Fault.{fault_at};
ghost use Rattle.fx_base.specs.declared.fault.Place.TheVariants as places;
ghost use Rattle.fx_base.specs.Refusals.{failed_write};

use crate::fault::Fault;

/// A destination of octets.
///
/// The specification sees it as the octets that it has taken, if it is known, whether its last call failed, and whether
/// it may hold back octets that it has taken. A sink is *known* if its octets are known to the specification, and
/// *opaque* otherwise.
pub trait Sink: Drop {
    /// The octets taken, if the sink is known.
    ghost taken: { Self → Option (List ℕ) };

    /// Whether the last call failed.
    ghost failed: { Self → Bool };

    /// Whether it may hold back octets that it has taken, up to the next flush.
    ghost holds_back: { Self → Bool };

    /// Takes some of the octets, from the front, and returns their number, which is 0 only if there are none.
    ///
    /// Fails with 902, at no place. What it has taken is then unspecified.
    fn write(&mut self, octets: &[u8]) -> Result<usize, Fault>
        ensures count { IfOk result (λ n. n ≤ length octets.now) }
        ensures some { IfOk result (λ n. n ≡ 0 → octets.now ≡ []) }
        ensures ok { OnOk result (failed self.new ≡ false) }
        ensures octets { IfOk result (λ n. Writes (taken self.old) (taken self.new)
            (take n octets.now)) }
        ensures err { IfErr result (λ e. (e ≡ fault_at failed_write places.None)
            × (failed self.new ≡ true)) };

    /// Passes on what it holds back.
    ///
    /// Fails with 902, at no place. What it holds back is then unspecified.
    fn flush(&mut self) -> Result<(), Fault>
        ensures ok { OnOk result ((failed self.new ≡ false) × (holds_back self.new ≡ false)) }
        ensures octets { OnOk result (taken self.new ≡ taken self.old) }
        ensures err { IfErr result (λ e. (e ≡ fault_at failed_write places.None)
            × (failed self.new ≡ true)) };
}

/// A borrowed sink.
impl<S: Sink> Sink for &mut S {
    ghost taken = { λ s. S.taken s.now };

    ghost failed = { λ s. S.failed s.now };

    ghost holds_back = { λ s. S.holds_back s.now };

    fn write(&mut self, octets: &[u8]) -> Result<usize, Fault> {
        (**self).write(octets)
    }

    fn flush(&mut self) -> Result<(), Fault> {
        (**self).flush()
    }
}
