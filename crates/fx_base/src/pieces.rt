//! The octets of a source, piece by piece.
ghost use Rattle.std.specs.Prelude.{◌≡◌, ◌⊎◌, ◌+◌, ◌-◌, ◌≤◌, [], length, nat_lt, true, false, OnOk, IfOk, IfErr, IfSome};
ghost use Rattle.std.specs.Io.KnownBytes.{prepend_known};
ghost use Rattle.fx_base.specs.Device.{IsAsked};
ghost use Rattle.fx_base.specs.Fault.{fault_at};
ghost use Rattle.fx_base.specs.Limits.{call_limit};
ghost use Rattle.fx_base.specs.declared.fault.Place.TheVariants as places;
ghost use Rattle.fx_base.specs.Refusals.{failed_read};

use crate::calls::read_next;
use crate::fault::Fault;
use crate::source::Source;
use std::marker::Model;

/// The greatest number of octets of a piece, which is the number requested at once.
pub const PIECE: usize = 4096;

/// Lends the octets of a source one piece at a time, to its end.
///
/// The source, always the same one, is passed in for each piece. The reader calls it at most 4,294,967,296 times and
/// allocates nothing.
#[derive(Drop)]
pub struct PieceReader {
    octets: [u8; PIECE],
    len: usize,
    calls: u64,
}

impl Model for PieceReader {
    ghost use Rattle.std.specs.Prelude.{◌≤◌, take};
    ghost use Rattle.fx_base.specs.Pieces.{Pieces};
    ghost use Rattle.fx_base.specs.declared.pieces.TheConstants.{PIECE};
    ghost use Rattle.fx_base.specs.Limits.{call_limit};

    ghost Value = { Pieces };

    ghost view = { λ p. record { piece = take p.len p.octets; calls = p.calls } };

    ghost invariant = { λ p. (p.len ≤ PIECE) × (p.calls ≤ call_limit) };
}

impl PieceReader {
    /// Returns a reader that has read nothing.
    pub fn new() -> PieceReader
        ensures { result ≡ record { piece = []; calls = 0 } }
    {
        PieceReader {
            octets: [0; PIECE],
            len: 0,
            calls: 0,
        }
    }

    /// Advances to the next piece and returns whether there is one.
    ///
    /// Fails with 901, at no place, if the read fails or the source hasn't ended after 4,294,967,296 calls. No octet is
    /// lost then.
    pub fn advance<R: Source>(&mut self, source: &mut R) -> Result<bool, Fault>
        ensures octets { prepend_known self.new.piece (R.left source.new) ≡ R.left source.old }
        ensures there { IfOk result (λ there. there ≡ nat_lt 0 (length self.new.piece)) }
        ensures end { IfOk result (λ there. there ≡ false
            → IfSome (R.left source.old) (λ left. left ≡ [])) }
        ensures short { length self.new.piece ≤ PIECE }
        ensures counted { OnOk result (self.new.calls ≡ self.old.calls + 1) }
        ensures calls { (self.old.calls ≤ self.new.calls) × (self.new.calls ≤ call_limit) }
        ensures asked { IsAsked (R.calls source.old) (self.new.calls - self.old.calls)
            (R.calls source.new) }
        ensures err { IfErr result (λ e. (e ≡ fault_at failed_read places.None)
            × (self.new.piece ≡ [])
            × ((R.failed source.new ≡ true) ⊎ (self.old.calls ≡ call_limit))) }
    {
        self.len = 0;
        self.len = read_next(source, &mut self.octets, &mut self.calls)?;
        Ok(self.len > 0)
    }

    /// Returns the current piece, after [`advance`](PieceReader::advance) returned true.
    pub fn piece(&self) -> &[u8]
        ensures { result.now ≡ self.now.piece }
    {
        &self.octets[..self.len]
    }
}
