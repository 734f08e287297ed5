//! A buffer of fixed size in memory as a sink.
ghost use Rattle.std.specs.Prelude.{◌≡◌, ◌≤◌, [], length, take, true, false, Some, OnOk, OnErr, IfOk, IfErr};
ghost use Rattle.fx_base.specs.Device.{Writes};
ghost use Rattle.fx_base.specs.Fault.{fault_at};
ghost use Rattle.fx_base.specs.declared.fault.Place.TheVariants as places;
ghost use Rattle.fx_base.specs.Refusals.{failed_write};

use crate::fault::Fault;
use crate::refusals;
use crate::sink::Sink;

/// A sink of fixed size in memory. A write takes what fits, and fails if nothing does.
#[derive(Drop)]
pub struct Room<'a> {
    octets: &'a mut [u8],
    len: usize,
    failed: bool,
    ghost fits: { len ≤ length octets.now },
}

impl<'a> Room<'a> {
    ghost use Rattle.fx_base.specs.Room.{room_octets, room_size};

    /// Returns an empty sink over this slice.
    pub fn new(octets: &'a mut [u8]) -> Room<'a>
        ensures empty { room_octets result ≡ [] }
        ensures size { room_size result ≡ length octets.old }
        ensures ok { result.failed ≡ false }
    {
        Room {
            octets,
            len: 0,
            failed: false,
        }
    }

    /// Returns the octets that it has taken.
    pub fn octets(&self) -> &[u8]
        ensures { result.now ≡ room_octets self.now }
    {
        &self.octets[..self.len]
    }
}

impl Sink for Room<'_> {
    ghost use Rattle.fx_base.specs.Room.{room_octets, room_size};

    ghost taken = { λ s. Some (room_octets s) };

    ghost failed = { λ s. s.failed };

    ghost holds_back = { λ _. false };

    fn write(&mut self, octets: &[u8]) -> Result<usize, Fault>
        ensures count { IfOk result (λ n. n ≤ length octets.now) }
        ensures some { IfOk result (λ n. n ≡ 0 → octets.now ≡ []) }
        ensures ok { OnOk result (self.new.failed ≡ false) }
        ensures octets { IfOk result (λ n. Writes (Some (room_octets self.old))
            (Some (room_octets self.new)) (take n octets.now)) }
        ensures err { IfErr result (λ e. (e ≡ fault_at failed_write places.None)
            × (self.new.failed ≡ true)) }

        // A write fails only if the sink is full, and leaves its octets unchanged.
        ensures full { OnErr result (length (room_octets self.old) ≡ room_size self.old) }
        ensures kept { OnErr result (room_octets self.new ≡ room_octets self.old) }
        ensures size { room_size self.new ≡ room_size self.old }
    {
        let n = octets.len().min(self.octets.len() - self.len);
        if n == 0 && !octets.is_empty() {
            self.failed = true;
            return Err(Fault::bare(refusals::FAILED_WRITE));
        }
        let end = self.len + n;
        self.octets[self.len..end].copy_from_slice(&octets[..n]);
        self.len = end;
        self.failed = false;
        Ok(n)
    }

    fn flush(&mut self) -> Result<(), Fault> {
        self.failed = false;
        Ok(())
    }
}
