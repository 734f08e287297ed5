//! The numbers noted while a data record is read.
ghost use Rattle.std.specs.Prelude.{◌≡◌, ◌++◌, [], ◌∷◌, Option, Some, None, IfSome, IfNone};
ghost use Rattle.std.specs.Option.{option_or};
ghost use Rattle.fx_elements.specs.declared.axis.Axis as axes;
ghost use Rattle.fx_wire.specs.Fields.{element_of};
ghost use Rattle.fx_wire.specs.Values as wire;
ghost use Rattle.fx_wire.specs.declared.field.FieldSpecifier as specifiers;
ghost use Rattle.fx_session.specs.Flows as flows;
ghost use Rattle.fx_session.specs.Values as values;

use crate::number::number_in;
use crate::template::Template;
use fx_elements::{AXES, Axis, Element};
use fx_wire::cut_value;

/// Notes the number in the octets, if none is noted yet.
fn note_first(noted: &mut Option<u128>, content: &[u8])
    ensures { noted.new ≡ option_or noted.old (Some (flows.number_in content.now)) }
{
    if noted.is_none() {
        *noted = Some(number_in(content));
    }
}

/// A number for each axis on which one is noted. The value on an axis without one has no meaning.
#[derive(Drop)]
pub(crate) struct Numbers {
    noted: [bool; AXES],
    values: [u128; AXES],
}

impl Numbers {
    /// Creates the numbers with none noted.
    fn new() -> Numbers
        ensures { (axis : axes.Axis) → values.number_on result axis ≡ None }
    {
        Numbers {
            noted: [false; AXES],
            values: [0; AXES],
        }
    }

    /// Discards all noted numbers.
    fn clear(&mut self)
        ensures { (axis : axes.Axis) → values.number_on self.new axis ≡ None }
    {
        self.noted = [false; AXES];
    }

    /// Notes the number in the octets for the axis, if none is noted yet.
    fn note(&mut self, axis: Axis, content: &[u8])
        ensures { (other : axes.Axis) → values.number_on self.new other
            ≡ values.first_on self.old axis (flows.number_in content.now) other }
    {
        let place = axis.index();
        if !self.noted[place] {
            self.noted[place] = true;
            self.values[place] = number_in(content);
        }
    }

    /// Returns the number that is noted for the axis.
    pub(crate) fn get(&self, axis: Axis) -> Option<u128>
        ensures { result ≡ values.number_on self.now axis }
    {
        let place = axis.index();
        if self.noted[place] {
            Some(self.values[place])
        } else {
            None
        }
    }
}

/// The first number of each element that is read: the values on the axes, prefixes and their lengths, and the counters.
/// It is reused from record to record, so that no record needs new space for it.
#[derive(Drop)]
pub(crate) struct FieldNumbers {
    pub numbers: Numbers,
    pub prefixes: Numbers,
    pub lengths: Numbers,
    pub octets: Option<u128>,
    pub packets: Option<u128>,
}

impl FieldNumbers {
    /// Creates the numbers with none noted.
    pub(crate) fn new() -> FieldNumbers
        ensures { values.Notes result [] }
    {
        FieldNumbers {
            numbers: Numbers::new(),
            prefixes: Numbers::new(),
            lengths: Numbers::new(),
            octets: None,
            packets: None,
        }
    }

    /// Discards all noted numbers.
    fn clear(&mut self)
        ensures { values.Notes self.new [] }
    {
        self.numbers.clear();
        self.prefixes.clear();
        self.lengths.clear();
        self.octets = None;
        self.packets = None;
    }

    /// Notes the value of a field of this element, if the element is read and none of its values is noted yet.
    fn note(&mut self, element: Element, content: &[u8])
        ensures { (vs : values.Values) (field : specifiers.FieldSpecifier)
            → element_of field ≡ element → values.Notes self.old vs
            → values.Notes self.new (vs ++ record { field = field; content = content.now } ∷ []) }
    {
        match element {
            Element::OnAxis(axis) => self.numbers.note(axis, content),
            Element::OctetDeltaCount => note_first(&mut self.octets, content),
            Element::PacketDeltaCount => note_first(&mut self.packets, content),
            Element::Prefix(axis) => self.prefixes.note(axis, content),
            Element::PrefixLength(axis) => self.lengths.note(axis, content),
            Element::OctetTotalCount | Element::PacketTotalCount | Element::Other => {}
        }
    }
}

/// Notes the numbers of the record at the front, read under a template. Returns the octets after it, `None` if it is
/// cut.
pub(crate) fn read_record<'a>(
    seen: &mut FieldNumbers,
    template: &Template,
    octets: &'a [u8],
) -> Option<&'a [u8]>
    ensures none { IfNone result (wire.record_at template.now.fields octets.now ≡ None) }
    ensures some { IfSome result (λ rest. (vs : values.Values)
        × (wire.record_at template.now.fields octets.now ≡ Some (vs, rest.now))
        × values.Notes seen.new vs) }
{
    seen.clear();
    let mut rest = octets;
    let fields = template.fields();
    let elements = template.elements();
    for index in 0..fields.len() {
        match cut_value(fields[index].field_length, rest) {
            Some((content, behind)) => {
                seen.note(elements[index], content);
                rest = behind;
            }
            None => return None,
        }
    }
    Some(rest)
}
