//! The keys under which holders take records in.
ghost use Rattle.std.specs.Prelude.{◌≡◌, bytes_eq, map};
ghost use Rattle.fx_elements.specs.Axes.{axis_width, field};
ghost use Rattle.fx_layout.specs.Keys as keys;
ghost use Rattle.fx_machine.specs.Intakes.{key_in};

use fx_base::entry_at;
use fx_boxes::Fields;
use fx_elements::width;
use fx_layout::{Key, Layout, Part, leading_bits};
use fx_tables::{Net, Occurrence};

/// The key under which a holder takes in a record: an existing one, or that of a packet where it is metered, which is
/// made only for a new record.
#[derive(Clone, Copy)]
pub enum Intake<'a> {
    Keyed(&'a Key),
    Met {
        net: &'a Net,
        occurrence: &'a Occurrence,
        fields: &'a Fields,
    },
}

/// Returns the value of a packet with these fields for a part.
fn value_for(part: &Part, fields: &Fields) -> u128
    ensures { result ≡ keys.leading_bits (axis_width part.now.axis) part.now.bits
        (field fields.now part.now.axis) }
{
    leading_bits(width(part.axis), part.bits, fields.get(part.axis))
}

/// Returns whether these are the values of a packet with these fields for these parts.
fn has_values(values: &[u128], parts: &[Part], fields: &Fields) -> bool
    ensures { result ≡ bytes_eq values.now (map (λ part. keys.leading_bits (axis_width part.axis)
        part.bits (field fields.now part.axis)) parts.now) }
{
    if values.len() != parts.len() {
        return false;
    }
    for index in 0..values.len() {
        if values[index] != value_for(&parts[index], fields) {
            return false;
        }
    }
    true
}

/// Returns whether the key is that of a packet with these fields under the layout.
fn is_key_of(key: &Key, layout: &Layout, fields: &Fields) -> bool
    ensures { result ≡ keys.same_key key.now (keys.key_of layout.now fields.now) }
{
    key.layout().same(layout) && has_values(key.values(), layout.parts(), fields)
}

impl<'a> Intake<'a> {
    /// Returns whether the key is the same as that of a held record.
    pub fn has(&self, held: &Key) -> bool
        ensures { result ≡ keys.same_key held.now (key_in self.now) }
    {
        match self {
            Intake::Keyed(key) => held.same(key),
            Intake::Met {
                net,
                occurrence,
                fields,
            } => match entry_at(net.holders(), occurrence.holder) {
                None => is_key_of(held, &Layout::new(), fields),
                Some(holder) => is_key_of(held, holder.layout(), fields),
            },
        }
    }

    /// Returns the key.
    pub fn key(&self) -> Key
        ensures { result ≡ key_in self.now }
    {
        match self {
            Intake::Keyed(key) => key.copy(),
            Intake::Met {
                net,
                occurrence,
                fields,
            } => net.holding(occurrence, fields).key,
        }
    }
}
