//! Data sets.
ghost use Rattle.std.specs.Prelude.{◌≡◌, ◌≢◌, ◌≤◌, length, Ok, Err};
ghost use Rattle.fx_wire.specs.Values.{shortest_record};
ghost use Rattle.fx_session.specs.DataSets as sets;
ghost use Rattle.fx_session.specs.DataReading as reading;
ghost use Rattle.fx_session.specs.Calls.{Does, Grows};

use crate::field_numbers::{FieldNumbers, read_record};
use crate::flow::flow_of;
use crate::key::LastLayout;
use crate::stream_fault::StreamFault;
use crate::taken_records::TakenRecords;
use crate::template::Template;
use fx_layout::Values;
use fx_wire::cut_record;

/// Reads the data record at the front field by field and takes it; returns the octets after it.
///
/// Fails if the record is cut, if a prefix that is read is longer than the address, or if out of memory; nothing is
/// taken then.
fn take_by_fields<'a>(
    template: &Template,
    seen: &mut FieldNumbers,
    last: &mut LastLayout,
    taken: &mut TakenRecords,
    octets: &'a [u8],
) -> Result<&'a [u8], StreamFault>
    ensures done { reading.Follows
        (sets.flow_record template.now.fields taken.old octets.now) taken.new result }
    ensures grows { Grows taken.old.waiting taken.new.waiting }
{
    let rest = read_record(seen, template, octets).ok_or(StreamFault::CutRecord)?;
    let flow = flow_of(last, seen)?;
    taken.take(flow)?;
    Ok(rest)
}

/// Takes the data record at the front; returns the octets after it.
///
/// Fails if the record is cut, if a prefix that is read is longer than the address, or if out of memory; nothing is
/// taken then.
fn take_flow<'a>(
    template: &Template,
    seen: &mut FieldNumbers,
    last: &mut LastLayout,
    values: &mut Values,
    taken: &mut TakenRecords,
    octets: &'a [u8],
) -> Result<&'a [u8], StreamFault>
    requires { shortest_record template.now.fields ≤ length octets.now }
    ensures done { reading.Follows
        (sets.flow_record template.now.fields taken.old octets.now) taken.new result }
    ensures grows { Grows taken.old.waiting taken.new.waiting }
{
    if let Some(places) = template.places() {
        taken.add_at(places, octets, values)?;
        return Ok(octets.split_at(template.shortest()).1);
    }
    take_by_fields(template, seen, last, taken, octets)
}

/// Takes the data records of a set under a template.
///
/// Fails with the fault of the first record that is refused.
pub(crate) fn take_flows(
    template: &Template,
    taken: &mut TakenRecords,
    octets: &[u8],
) -> Result<(), StreamFault>
    ensures done { Does result (sets.flow_set template.now.fields taken.old octets.now) taken.new }
    ensures grows { Grows taken.old.waiting taken.new.waiting }
{
    let shortest = template.shortest();
    let mut seen = FieldNumbers::new();
    let mut last = LastLayout::new();
    let mut values = Values::new();
    let mut rest = octets;
    while rest.len() >= shortest {
        rest = take_flow(template, &mut seen, &mut last, &mut values, taken, rest)?;
    }
    Ok(())
}

/// Counts the data records of a set under an options template.
///
/// Fails if one is cut.
pub(crate) fn pass_records(
    template: &Template,
    taken: &mut TakenRecords,
    octets: &[u8],
) -> Result<(), StreamFault>
    ensures done { Does result (sets.option_set template.now.fields taken.old octets.now)
        taken.new }
    ensures grows { Grows taken.old.waiting taken.new.waiting }
{
    let shortest = template.shortest();
    let mut rest = octets;
    while rest.len() >= shortest {
        let Some(behind) = cut_record(template.fields(), rest) else {
            return Err(StreamFault::CutRecord);
        };
        rest = behind;
        taken.pass();
    }
    Ok(())
}
