//! Flow records.
ghost use Rattle.std.specs.Prelude.{◌≡◌, Ok, Err, Some, None};
ghost use Rattle.fx_session.specs.Flows as flows;
ghost use Rattle.fx_session.specs.Parts as parts;
ghost use Rattle.fx_session.specs.Values as values;

use crate::field_numbers::FieldNumbers;
use crate::key::{LastLayout, Leading, bits_of, prefix_part, value_of};
use crate::stream_fault::StreamFault;
use fx_base::Counts;
use fx_boxes::Fields;
use fx_elements::{AXES, Axis, EVERY_AXIS, width};
use fx_tables::Record;

/// Returns what is known on the axis: its value, or what a prefix of it gives.
///
/// Fails if a prefix that is read is longer than the address.
fn noted_part(axis: Axis, seen: &FieldNumbers) -> Result<Option<Leading>, StreamFault>
    ensures part { result ≡ values.noted_part seen.now axis }
    ensures stands { parts.PartStands axis result }
{
    if let Some(value) = seen.numbers.get(axis) {
        return Ok(Some(Leading {
            bits: width(axis),
            value,
        }));
    }
    if axis.is_address() {
        prefix_part(axis, seen.prefixes.get(axis), seen.lengths.get(axis))
    } else {
        Ok(None)
    }
}

/// Writes what is known on each axis to the arrays: the number of leading bits, 0 if nothing is known, and the value.
///
/// Fails if a prefix that is read is longer than the address.
fn gather(
    seen: &FieldNumbers,
    bits: &mut [u32; AXES],
    numbers: &mut [u128; AXES],
) -> Result<(), StreamFault>
    ensures { parts.Gathers (values.noted_part seen.now) bits.new numbers.new result }
{
    for axis in EVERY_AXIS {
        let found = noted_part(axis, seen)?;
        let place = axis.index();
        bits[place] = bits_of(&found);
        numbers[place] = value_of(axis, found);
    }
    Ok(())
}

/// Returns the flow record of a data record whose numbers are noted in `seen`; `None` if it lacks a counter.
///
/// Fails if a prefix that is read is longer than the address.
#[tactic(auto, unfolding(crate::specs::Flows::flow_in))]
pub(crate) fn flow_of(
    last: &mut LastLayout,
    seen: &FieldNumbers,
) -> Result<Option<Record>, StreamFault>
    ensures { (vs : values.Values) → values.Notes seen.now vs → result ≡ flows.flow_in vs }
{
    let Some(octets) = seen.octets else {
        return Ok(None);
    };
    let Some(packets) = seen.packets else {
        return Ok(None);
    };
    let mut bits = [0; AXES];
    let mut numbers = [0; AXES];
    gather(seen, &mut bits, &mut numbers)?;
    Ok(Some(Record {
        key: last.key_of(&bits, &Fields::of(numbers)),
        counts: Counts {
            packets: (packets % (1u128 << 64)) as u64,
            octets: (octets % (1u128 << 64)) as u64,
        },
    }))
}
