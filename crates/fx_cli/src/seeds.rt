//! Random seeds for hashing keys.
ghost use Rattle.std.specs.Prelude.{◌≡◌, IfErr};
ghost use Rattle.fx_base.specs.Fault.{fault_at};
ghost use Rattle.fx_base.specs.declared.fault.Place.TheVariants as places;
ghost use Rattle.fx_base.specs.Refusals.{failed_read};

use fx_base::{Fault, refusals};
use fx_layout::Seed;
use std::random::RandomSource;

/// Returns an unpredictable seed, made of 16 random octets from the system.
///
/// Fails with 901, at no place, if the system gives none.
pub fn seed_at_random<R: RandomSource>(rt: &R) -> Result<Seed, Fault>
    ensures { IfErr result (λ e. e ≡ fault_at failed_read places.None) }
{
    let mut first = [0; 8];
    let mut second = [0; 8];
    if rt.fill_bytes(&mut first).is_err() || rt.fill_bytes(&mut second).is_err() {
        return Err(Fault::bare(refusals::FAILED_READ));
    }
    Ok(Seed::new(u64::from_le_bytes(first), u64::from_le_bytes(second)))
}
