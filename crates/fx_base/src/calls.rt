//! Counted calls of a source.
ghost use Rattle.std.specs.Prelude.{◌≡◌, ◌⊎◌, ◌+◌, ◌-◌, ◌≤◌, length, take, true, OnOk, OnErr, IfOk, IfErr};
ghost use Rattle.fx_base.specs.Limits.{call_limit};
ghost use Rattle.fx_base.specs.Device.{ReadsInto, IsAsked};
ghost use Rattle.fx_base.specs.Fault.{fault_at};
ghost use Rattle.fx_base.specs.declared.fault.Place.TheVariants as places;
ghost use Rattle.fx_base.specs.Refusals.{failed_read};

use crate::fault::Fault;
use crate::refusals;
use crate::source::{MOST_CALLS, Source};

/// Reads from a source and counts the call. Fails with 901 if the read fails or [`MOST_CALLS`] calls were made already.
pub(crate) fn read_next<R: Source>(
    source: &mut R,
    buffer: &mut [u8],
    calls: &mut u64,
) -> Result<usize, Fault>
    requires { calls.old ≤ call_limit }
    ensures count { IfOk result (λ n. n ≤ length buffer.old) }
    ensures octets { IfOk result (λ n.
        ReadsInto (R.left source.old) (R.left source.new) (length buffer.old) (take n buffer.new)
        n) }
    ensures counted { OnOk result (calls.new ≡ calls.old + 1) }
    ensures calls { (calls.old ≤ calls.new) × (calls.new ≤ call_limit)
        × (calls.new ≤ calls.old + 1) }
    ensures asked { IsAsked (R.calls source.old) (calls.new - calls.old) (R.calls source.new) }
    ensures left { OnErr result (R.left source.new ≡ R.left source.old) }
    ensures err { IfErr result (λ e. (e ≡ fault_at failed_read places.None)
        × ((R.failed source.new ≡ true) ⊎ (calls.old ≡ call_limit))) }
{
    if *calls >= MOST_CALLS {
        return Err(Fault::bare(refusals::FAILED_READ));
    }
    *calls += 1;
    source.read(buffer)
}
