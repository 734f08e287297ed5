//! A source read to its end.
ghost use Rattle.std.specs.Prelude.{◌≡◌, ◌⊎◌, [], None, Some, OnOk, IfOk, IfErr, IfSome};
ghost use Rattle.fx_base.specs.Device.{MayBeLeft, IsUnread};
ghost use Rattle.fx_base.specs.Fault.{fault_at, IsMemory};
ghost use Rattle.fx_base.specs.declared.fault.Place.TheVariants as places;
ghost use Rattle.fx_base.specs.Refusals.{failed_read};

use crate::fault::Fault;
use crate::pieces::PieceReader;
use crate::source::Source;
use std::alloc::Global;

/// Reads all octets that a source has left.
///
/// Fails with 901 if a read fails or the source hasn't ended after 4,294,967,296 calls, and with 900 if out of memory,
/// each at no place.
pub fn read_whole<R: Source>(alloc: Global, source: &mut R) -> Result<Vec<u8>, Fault>
    ensures all { IfOk result (λ octets. MayBeLeft (R.left source.old) octets.items) }
    ensures end { OnOk result (IfSome (R.left source.old) (λ _. R.left source.new ≡ Some [])) }
    ensures opaque { R.left source.old ≡ None → R.left source.new ≡ None }
    ensures err { IfErr result (λ e. IsMemory e
        ⊎ ((e ≡ fault_at failed_read places.None)
        × IsUnread (R.left source.old) (R.calls source.old) (R.calls source.new)
        (R.failed source.new))) }
{
    let mut octets = Vec::new(alloc);
    let mut pieces = PieceReader::new();
    'pieces: while pieces.advance(source)? {
        octets.extend_from_slice(pieces.piece())?;
    }
    Ok(octets)
}
