//! Message headers.
ghost use Rattle.std.specs.Prelude.{◌≡◌, ◌≤◌, length};
ghost use Rattle.fx_wire.specs.Headers.{header_of};

use crate::number::u32_at;

/// The header of a message, without its version and length (RFC 7011, section 3.1).
#[derive(Clone, Copy, Debug, PartialEq, Eq)]
pub struct Header {
    /// The time when the message left its exporting process, in seconds since 1970.
    pub export_time: u32,
    /// The number of data records sent in the domain before this message, modulo 2 to the 32.
    pub sequence_number: u32,
    /// The observation domain, which is the scope of template ids.
    pub observation_domain: u32,
}

impl Header {
    /// Reads the header at the front of the octets.
    pub(crate) fn read(octets: &[u8]) -> Header
        requires { 16 ≤ length octets.now }
        ensures { result ≡ header_of octets.now }
    {
        Header {
            export_time: u32_at(octets, 4),
            sequence_number: u32_at(octets, 8),
            observation_domain: u32_at(octets, 12),
        }
    }
}
