//! Numbers in values.
ghost use Rattle.std.specs.Prelude.{◌≡◌};
ghost use Rattle.fx_session.specs.Flows as flows;

/// Returns the number in the octets, most significant first; of more than 16 octets the last 16 count.
#[tactic(auto, unfolding(crate::specs::Flows::number_in))]
pub(crate) fn number_in(octets: &[u8]) -> u128
    ensures { result ≡ flows.number_in octets.now }
{
    match octets {
        [a] => u128::from(*a),
        [a, b] => u128::from(u16::from_be_bytes([*a, *b])),
        [a, b, c, d] => u128::from(u32::from_be_bytes([*a, *b, *c, *d])),
        [a, b, c, d, e, f, g, h] => {
            u128::from(u64::from_be_bytes([*a, *b, *c, *d, *e, *f, *g, *h]))
        }
        [a, b, c, d, e, f, g, h, i, j, k, l, m, n, o, p] => u128::from_be_bytes([
            *a, *b, *c, *d, *e, *f, *g, *h, *i, *j, *k, *l, *m, *n, *o, *p,
        ]),
        _ => number_by_octets(octets),
    }
}

/// Computes [`number_in`] octet by octet.
#[tactic(auto, unfolding(crate::specs::Flows::number_in))]
fn number_by_octets(octets: &[u8]) -> u128
    ensures { result ≡ flows.number_in octets.now }
{
    let mut number: u128 = 0;
    for octet in octets {
        number = number % (1u128 << 120) * 256 + u128::from(*octet);
    }
    number
}
