//! Numbers in octets, highest octet first.
ghost use Rattle.std.specs.Prelude.{◌≡◌, ◌+◌, ◌≤◌, length};
ghost use Rattle.std.specs.Int.{w16, w32};
ghost use Rattle.fx_wire.specs.Numbers.{number_at};

/// Returns the number in the two octets from `place` on.
pub(crate) fn u16_at(octets: &[u8], index: usize) -> u16
    requires { index + 2 ≤ length octets.now }
    ensures { result ≡ number_at w16 index octets.now }
{
    u16::from_be_bytes([octets[index], octets[index + 1]])
}

/// Returns the number in the four octets from `place` on.
pub(crate) fn u32_at(octets: &[u8], index: usize) -> u32
    requires { index + 4 ≤ length octets.now }
    ensures { result ≡ number_at w32 index octets.now }
{
    u32::from_be_bytes([
        octets[index],
        octets[index + 1],
        octets[index + 2],
        octets[index + 3],
    ])
}
