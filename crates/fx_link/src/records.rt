//! Encoding of flow records (RFC 7011, section 3.4.3).
ghost use Rattle.std.specs.Prelude.{◌≡◌, ◌/◌, ◌^◌, ◌<◌, ◌++◌, true, OnOk, length};
ghost use Rattle.std.specs.List.{list_all};
ghost use Rattle.fx_elements.specs.Axes.{axis_width};
ghost use Rattle.fx_layout.specs.Keys.{HasBits, can_stand};
ghost use Rattle.fx_link.specs.Records as written;

use fx_base::Counts;
use fx_elements::{Axis, width};
use fx_layout::Part;
use fx_tables::Record;
use std::alloc::AllocError;

/// Writes a value of an axis, in as many octets as the axis is wide. Fails if out of memory.
fn put_whole(octets: &mut Vec<u8>, axis: Axis, value: u128) -> Result<(), AllocError>
    requires { value < 2 ^ axis_width axis }
    ensures { OnOk result (octets.new.items ≡ octets.old.items ++ written.whole_octets axis value) }
{
    match axis {
        Axis::Source | Axis::Destination => octets.extend_from_slice(&(value as u32).to_be_bytes()),
        Axis::SourcePort | Axis::DestinationPort => {
            octets.extend_from_slice(&(value as u16).to_be_bytes())
        }
        Axis::Protocol | Axis::ClassOfService | Axis::Version => {
            octets.extend_from_slice(&(value as u8).to_be_bytes())
        }
        Axis::Source6 | Axis::Destination6 => octets.extend_from_slice(&value.to_be_bytes()),
    }
}

/// Writes the value of a part of a key; for the leading bits of an address, its prefix and the number of bits. Fails if
/// out of memory.
fn put_value(octets: &mut Vec<u8>, part: Part, value: u128) -> Result<(), AllocError>
    requires bits { value < 2 ^ part.bits }
    requires stands { can_stand part ≡ true }
    ensures { OnOk result (octets.new.items ≡ octets.old.items ++ written.value_octets part value) }
{
    let width = width(part.axis);
    if part.bits == width {
        return put_whole(octets, part.axis, value);
    }
    put_whole(octets, part.axis, value << (width - part.bits))?;
    octets.push(part.bits as u8)?;
    Ok(())
}

/// Writes the values of a key. Fails if out of memory.
fn put_values(octets: &mut Vec<u8>, parts: &[Part], values: &[u128]) -> Result<(), AllocError>
    requires bits { HasBits parts.now values.now }
    requires stands { list_all can_stand parts.now ≡ true }
    ensures { OnOk result (octets.new.items
        ≡ octets.old.items ++ written.key_octets parts.now values.now) }
{
    match parts {
        [] => Ok(()),
        [part, parts @ ..] => match values {
            [] => Ok(()),
            [value, values @ ..] => {
                put_value(octets, *part, *value)?;
                put_values(octets, parts, values)
            }
        },
    }
}

/// Writes the octets and the packets of a record. Fails if out of memory.
fn put_counts(octets: &mut Vec<u8>, counts: Counts) -> Result<(), AllocError>
    ensures { OnOk result (octets.new.items ≡ octets.old.items ++ written.counts_octets counts) }
{
    octets.extend_from_slice(&counts.octets.to_be_bytes())?;
    octets.extend_from_slice(&counts.packets.to_be_bytes())
}

/// Writes a data record: the values of its key, then its counts. Fails if out of memory.
#[tactic(auto, unfolding(crate::specs::Records::record_octets))]
fn put_record(octets: &mut Vec<u8>, flow: &Record) -> Result<(), AllocError>
    ensures { OnOk result (octets.new.items ≡ octets.old.items ++ written.record_octets flow.now) }
{
    let key = &flow.key;
    put_values(octets, key.layout().parts(), key.values())?;
    put_counts(octets, flow.counts)
}

/// Writes data records, one after another, without padding. Fails if out of memory.
pub(crate) fn put_records(octets: &mut Vec<u8>, records: &[Record]) -> Result<(), AllocError>
    ensures { OnOk result (octets.new.items
        ≡ octets.old.items ++ written.records_octets records.now) }
{
    match records {
        [] => Ok(()),
        [flow, records @ ..] => {
            put_record(octets, flow)?;
            put_records(octets, records)
        }
    }
}
