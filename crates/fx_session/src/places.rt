//! Places of the values of flows in the records of a template, computed once for all of its records.
ghost use Rattle.std.specs.Prelude.{◌≡◌, ◌≤◌, ◌<◌, ℕ, List, map, length, slice_index, slice_index_or, Some, IfSome};
ghost use Rattle.std.specs.List.{list_any};
ghost use Rattle.fx_elements.specs.declared.axis.Axis as of_axis;
ghost use Rattle.fx_elements.specs.Axes.{axis_index, axis_width};
ghost use Rattle.fx_layout.specs.Keys as keys;
ghost use Rattle.fx_wire.specs.Fields.{element_of};
ghost use Rattle.fx_session.specs.Flows as flows;
ghost use Rattle.fx_session.specs.Parts as parts;
ghost use Rattle.fx_session.specs.Places as placed;

use crate::key::{Leading, layout_of, value_of};
use crate::number::number_in;
use fx_base::Counts;
use fx_elements::{AXES, EVERY_AXIS, Element, width};
use fx_layout::{Layout, Values, leading_bits};
use fx_tables::Record;
use fx_wire::{FieldSpecifier, VARIABLE};

/// The most fields of a template whose records are read by their places. Records with more fields are read field by
/// field, so that a template costs little to declare.
const MOST_FIELDS: usize = 64;

/// The place of a value in a record, 0-based: its first octet, and the one after its last.
#[derive(Clone, Copy)]
pub(crate) struct ValuePlace {
    pub start: usize,
    pub end: usize,
}

/// The places of the values of flows in each record of a template, and the layout of their keys.
#[derive(Drop)]
pub(crate) struct RecordPlaces {
    pub values: [Option<ValuePlace>; AXES],
    pub octets: ValuePlace,
    pub packets: ValuePlace,
    pub layout: Layout,
}

/// Returns whether an element is the sought one: a value on the same axis, or the same counter of flows.
fn is_sought(sought: Element, element: Element) -> bool
    ensures { result ≡ placed.is_sought sought element }
{
    match (sought, element) {
        (Element::OnAxis(axis), Element::OnAxis(other)) => axis.index() == other.index(),
        (Element::OctetDeltaCount, Element::OctetDeltaCount) => true,
        (Element::PacketDeltaCount, Element::PacketDeltaCount) => true,
        _ => false,
    }
}

/// Returns whether no field has a variable length.
fn have_fixed_lengths(fields: &[FieldSpecifier]) -> bool
    ensures { result ≡ placed.have_fixed_lengths fields.now }
{
    fields.iter().all(|field| field.field_length != VARIABLE)
}

/// Returns whether there is a prefix of an address among the elements.
fn have_prefix(elements: &[Element]) -> bool
    ensures { result ≡ list_any placed.is_any_prefix elements.now }
{
    elements
        .iter()
        .any(|element| matches!(element, Element::Prefix(_)))
}

/// Returns the place of the first field of the sought element.
fn place_of(fields: &[FieldSpecifier], elements: &[Element], sought: Element) -> Option<ValuePlace>
    requires few { length fields.now ≤ MOST_FIELDS }
    requires elements { elements.now ≡ map element_of fields.now }
    ensures { result ≡ placed.place_where (placed.is_sought sought) 0 fields.now }
{
    let mut start: usize = 0;
    for place in 0..fields.len() {
        let end = start + fields[place].field_length as usize;
        if is_sought(sought, elements[place]) {
            return Some(ValuePlace { start, end });
        }
        start = end;
    }
    None
}

/// Returns the place of the value on each axis.
fn places_of(fields: &[FieldSpecifier], elements: &[Element]) -> [Option<ValuePlace>; AXES]
    requires few { length fields.now ≤ MOST_FIELDS }
    requires elements { elements.now ≡ map element_of fields.now }
    ensures { (axis : of_axis.Axis) → slice_index_or result (axis_index axis) None
        ≡ placed.place_where (flows.is_value axis) 0 fields.now }
{
    let mut places = [None; AXES];
    for k in 0..AXES {
        places[k] = place_of(fields, elements, Element::OnAxis(EVERY_AXIS[k]));
    }
    places
}

/// Returns how many bits the value on each axis has, 0 if it has no place.
fn bits_of_places(places: &[Option<ValuePlace>; AXES]) -> [u32; AXES]
    ensures { (axis : of_axis.Axis) (octets : List ℕ) → slice_index result (axis_index axis)
        ≡ parts.bits_of (placed.found_at octets axis
        (slice_index_or places.now (axis_index axis) None)) }
{
    let mut bits = [0; AXES];
    for k in 0..AXES {
        bits[k] = match places[k] {
            Some(_) => width(EVERY_AXIS[k]),
            None => 0,
        };
    }
    bits
}

/// Returns the value on axis `k` (0-based) that is at a place, 0 if there is none.
fn value_at(k: usize, place: Option<ValuePlace>, octets: &[u8]) -> u128
    requires axis { k < AXES }
    requires within { IfSome place (placed.IsPlaceIn (length octets.now)) }
    ensures { (axis : of_axis.Axis) → axis_index axis ≡ k
        → result ≡ flows.value_of axis (placed.found_at octets.now axis place) }
{
    let Some(place) = place else {
        return 0;
    };
    let axis = EVERY_AXIS[k];
    let found = Leading {
        bits: width(axis),
        value: number_in(&octets[place.start..place.end]),
    };
    value_of(axis, Some(found))
}

impl RecordPlaces {
    /// Returns the places in the records of a template of these fields and their elements. Returns `None` if a value
    /// has a variable length, if a prefix is read, if a counter of flows is missing, or if there are more than 64
    /// fields: such records are read field by field.
    pub fn of(fields: &[FieldSpecifier], elements: &[Element]) -> Option<RecordPlaces>
        requires { elements.now ≡ map element_of fields.now }
        ensures { IfSome result (placed.ArePlacesOf fields.now) }
    {
        if fields.len() > MOST_FIELDS || !have_fixed_lengths(fields) || have_prefix(elements) {
            return None;
        }
        let octets = place_of(fields, elements, Element::OctetDeltaCount)?;
        let packets = place_of(fields, elements, Element::PacketDeltaCount)?;
        let values = places_of(fields, elements);
        let layout = layout_of(&bits_of_places(&values));
        Some(RecordPlaces {
            values,
            octets,
            packets,
            layout,
        })
    }

    /// Replaces `values` by the values of a record's key.
    fn read_values(&self, octets: &[u8], values: &mut Values)
        requires { placed.ArePlacesIn (length octets.now) self.now }
        ensures key { values.new ≡ (keys.key_of self.now.layout
            (placed.fields_read self.now octets.now)).values }
        ensures bits { keys.HasBits self.now.layout values.new }
    {
        values.clear();
        for part in self.layout.parts() {
            let k = part.axis.index();
            let value = value_at(k, self.values[k], octets);
            values.push(leading_bits(width(part.axis), part.bits, value));
        }
    }

    /// Replaces `record` by the flow record at the front of the octets. The values of its key are assembled in
    /// `values`, which held those of the previous record.
    pub fn read_record(&self, octets: &[u8], values: &mut Values, record: &mut Record)
        requires { placed.ArePlacesIn (length octets.now) self.now }
        ensures { record.new ≡ placed.record_by self.now octets.now }
    {
        self.read_values(octets, values);
        record.key.become_of_values(&self.layout, values);
        let packets = number_in(&octets[self.packets.start..self.packets.end]);
        let total = number_in(&octets[self.octets.start..self.octets.end]);
        record.counts = Counts {
            packets: (packets % (1u128 << 64)) as u64,
            octets: (total % (1u128 << 64)) as u64,
        };
    }
}
