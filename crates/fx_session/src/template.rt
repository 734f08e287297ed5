//! Templates.
ghost use Rattle.std.specs.Prelude.{◌≡◌, ◌≤◌, ◌&&◌, ◌==◌, length, map, IfOk, IfSome};
ghost use Rattle.fx_wire.specs.Fields.{element_of};
ghost use Rattle.fx_wire.specs.Values.{shortest_record};
ghost use Rattle.fx_session.specs.Places.{ArePlacesOf};
ghost use Rattle.fx_session.specs.Templates as templates;

use crate::places::RecordPlaces;
use fx_elements::Element;
use fx_wire::FieldSpecifier;
use std::alloc::{AllocError, Global};
use std::marker::Model;

/// The number of scope fields of a template, its fields and their elements, the least number of octets of a record, and
/// the places of the values of flows in records, if they are the same in all of them.
#[derive(Drop)]
struct Body {
    scope: u16,
    fields: Vec<FieldSpecifier>,
    elements: Vec<Element>,
    shortest: usize,
    places: Option<RecordPlaces>,
}

/// A template or an options template: the number of its scope fields, and its fields. They are boxed, so that free
/// places in a table of templates are small.
#[derive(Drop)]
pub struct Template {
    body: Box<Body>,
}

impl Model for Template {
    ghost use Rattle.std.specs.Prelude.{◌≡◌, ◌≤◌, map, IfSome};
    ghost use Rattle.fx_wire.specs.Fields.{element_of};
    ghost use Rattle.fx_wire.specs.Values.{shortest_record};
    ghost use Rattle.fx_session.specs.Places.{ArePlacesOf};
    ghost use Rattle.fx_session.specs.Templates as templates;

    ghost Value = { templates.Template };

    ghost view = { λ t. record { scope = t.body.value.scope; fields = t.body.value.fields.items } };

    ghost invariant = { λ t. (t.body.value.shortest ≡ shortest_record t.body.value.fields.items)
        × (1 ≤ t.body.value.shortest)
        × (t.body.value.elements.items ≡ map element_of t.body.value.fields.items)
        × IfSome t.body.value.places (ArePlacesOf t.body.value.fields.items) };
}

/// Returns whether two fields are written in the same way.
fn same_field(a: &FieldSpecifier, b: &FieldSpecifier) -> bool
    ensures { result ≡ templates.same_field a.now b.now }
{
    let enterprise = match a.enterprise {
        None => b.enterprise.is_none(),
        Some(m) => match b.enterprise {
            None => false,
            Some(n) => m == n,
        },
    };
    a.element == b.element && a.field_length == b.field_length && enterprise
}

/// Returns whether two lists of fields are written in the same way.
fn same_fields(a: &[FieldSpecifier], b: &[FieldSpecifier]) -> bool
    ensures { result ≡ templates.same_fields a.now b.now }
{
    if a.len() != b.len() {
        return false;
    }
    for index in 0..a.len() {
        if !same_field(&a[index], &b[index]) {
            return false;
        }
    }
    true
}

/// Returns the element of each field. Fails if out of memory.
fn elements_of(alloc: Global, fields: &[FieldSpecifier]) -> Result<Vec<Element>, AllocError>
    ensures { IfOk result (λ elements. elements.items ≡ map element_of fields.now) }
{
    let mut elements: Vec<Element> = Vec::new(alloc);
    for field in fields {
        elements.push(field.element())?;
    }
    elements.shrink_to_fit();
    Ok(elements)
}

impl Template {
    /// Creates a template of these fields, whose records have at least `shortest` octets. Fails if out of memory.
    pub(crate) fn new(
        alloc: Global,
        scope: u16,
        fields: Vec<FieldSpecifier>,
        shortest: usize,
    ) -> Result<Template, AllocError>
        requires shortest { shortest ≡ shortest_record fields.items }
        requires some { 1 ≤ shortest }
        ensures { IfOk result (λ t. t ≡ record { scope = scope; fields = fields.items }) }
    {
        let elements = elements_of(alloc, fields.as_slice())?;
        let places = RecordPlaces::of(fields.as_slice(), elements.as_slice());
        let body = Body {
            scope,
            fields,
            elements,
            shortest,
            places,
        };
        Ok(Template {
            body: Box::new(alloc, body)?,
        })
    }

    /// Returns the number of its scope fields; 0 if it isn't an options template.
    pub fn scope(&self) -> u16
        ensures { result ≡ self.now.scope }
    {
        self.body.scope
    }

    /// Returns the fields.
    pub fn fields(&self) -> &[FieldSpecifier]
        ensures { result.now ≡ self.now.fields }
    {
        self.body.fields.as_slice()
    }

    /// Returns the element of each field.
    pub fn elements(&self) -> &[Element]
        ensures { result.now ≡ map element_of self.now.fields }
    {
        self.body.elements.as_slice()
    }

    /// Returns the places of the values of flows in each record, if they are the same in all of them.
    pub(crate) fn places(&self) -> Option<&RecordPlaces>
        ensures { IfSome result (λ places. ArePlacesOf self.now.fields places.now) }
    {
        self.body.places.as_ref()
    }

    /// Returns the least number of octets of a record, at least 1.
    pub fn shortest(&self) -> usize
        ensures value { result ≡ shortest_record self.now.fields }
        ensures some { 1 ≤ result }
    {
        self.body.shortest
    }

    /// Returns whether the two templates are written in the same way.
    pub(crate) fn same(&self, other: &Template) -> bool
        ensures { result ≡ templates.same_template self.now other.now }
    {
        self.body.scope == other.body.scope && same_fields(self.fields(), other.fields())
    }
}
