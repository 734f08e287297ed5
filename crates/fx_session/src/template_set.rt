//! Template sets and options template sets.
ghost use Rattle.std.specs.Prelude.{◌≡◌, ◌≢◌, ◌+◌, ◌≤◌, ◌<◌, ◌&&◌, not, ◌==◌, Ok, Err, [], ◌∷◌, ◌++◌, length, IfOk, IfErr};
ghost use Rattle.fx_wire.specs.Fields as fields;
ghost use Rattle.fx_session.specs.Calls.{Does};
ghost use Rattle.fx_session.specs.TemplateSets as sets;
ghost use Rattle.fx_session.specs.TemplateReading as reading;
ghost use Rattle.fx_session.specs.declared.stream_fault.StreamFault.TheVariants as faults;

use crate::stream_fault::StreamFault;
use crate::template::Template;
use crate::templates::Templates;
use crate::watch::SessionWatch;
use fx_elements::Element;
use fx_wire::{
    FieldSpecifier, FieldSpecifiers, NewTemplate, TemplateHeading, TemplateKind, read_heading,
    shortest_record,
};
use std::alloc::Global;

/// Returns whether the field is a counter of flows of another length than 8 octets.
fn is_narrow(field: &FieldSpecifier) -> bool
    ensures { result ≡ sets.is_narrow field.now }
{
    let is_counter = matches!(
        field.element(),
        Element::OctetDeltaCount | Element::PacketDeltaCount
    );
    is_counter && field.field_length != 8
}

/// Returns whether some counter of flows has another length than 8 octets.
fn has_narrow(fields: &[FieldSpecifier]) -> bool
    ensures { result ≡ sets.has_narrow fields.now }
{
    for field in fields {
        if is_narrow(field) {
            return true;
        }
    }
    false
}

/// Returns the fields of a template, and the octets after them.
///
/// Fails if a field is cut or can't have its length, and if out of memory.
fn read_fields(
    alloc: Global,
    count: u16,
    octets: &[u8],
) -> Result<(Vec<FieldSpecifier>, &[u8]), StreamFault>
    requires { 1 ≤ count }
    ensures ok { IfOk result (λ p. reading.ReadsFields count octets.now p.0.items p.1.now) }
    ensures err { IfErr result (reading.RefusesFields (fields.fields_in count octets.now)) }
{
    let mut found: Vec<FieldSpecifier> = Vec::new(alloc);
    let mut left = FieldSpecifiers::new(count, octets);
    while let Some(next) = left.next() {
        found.push(next?)?;
    }
    Ok((found, left.rest()))
}

/// Declares the template whose fields are at the front of the octets; returns the octets after it.
fn declare<'a>(
    alloc: Global,
    templates: &mut Templates,
    kind: TemplateKind,
    new: NewTemplate,
    octets: &'a [u8],
) -> Result<&'a [u8], StreamFault>
    requires { 1 ≤ new.count }
    ensures done { reading.Follows (sets.with_fields templates.old kind new.id new.scope
        (fields.fields_in new.count octets.now)) templates.new result }
    ensures shorter { reading.IsNoLonger octets.now result }
{
    let (mut fields, rest) = read_fields(alloc, new.count, octets)?;
    if kind == TemplateKind::Plain && has_narrow(fields.as_slice()) {
        return Err(StreamFault::CounterLength);
    }
    let shortest = shortest_record(fields.as_slice());
    fields.shrink_to_fit();
    let template = Template::new(alloc, new.scope, fields, shortest)?;
    templates.declare(kind, new.id, template)?;
    Ok(rest)
}

/// Reports the template that the record at the front of the octets declares.
fn report_template<W: SessionWatch>(
    watch: &mut W,
    templates: &Templates,
    kind: TemplateKind,
    id: u16,
    octets: &[u8],
) {
    let declared = match kind {
        TemplateKind::Plain => templates.plain(id),
        TemplateKind::Options => templates.options(id),
    };
    if let Some(template) = declared {
        watch.on_template(kind, id, template, octets);
    }
}

/// Does what the template record at the front says; returns the octets after it.
///
/// Fails because of its form, of its counters or of its id, checked in this order, and if out of memory.
#[tactic(auto, unfolding(crate::specs::TemplateSets::template_record))]
fn take_record<'a, W: SessionWatch>(
    alloc: Global,
    templates: &mut Templates,
    kind: TemplateKind,
    octets: &'a [u8],
    watch: &mut W,
) -> Result<&'a [u8], StreamFault>
    requires { 4 ≤ length octets.now }
    ensures done { reading.Follows (sets.template_record templates.old kind octets.now)
        templates.new result }
    ensures shorter { reading.IsShorter octets.now result }
{
    let (heading, rest) = read_heading(kind, octets)?;
    match heading {
        TemplateHeading::Withdrawal(id) => {
            templates.withdraw(id);
            watch.on_withdrawal(id);
            Ok(rest)
        }
        TemplateHeading::WithdrawalOfAll => {
            templates.withdraw_all(kind);
            watch.on_withdrawal_of_all(kind);
            Ok(rest)
        }
        TemplateHeading::Declaration(new) => {
            let id = new.id;
            let behind = declare(alloc, templates, kind, new, rest)?;
            report_template(watch, templates, kind, id, octets);
            Ok(behind)
        }
    }
}

/// Does what the template records of a set say.
///
/// Fails with the fault of the first record that is refused; the templates are unspecified then.
pub(crate) fn take_templates<W: SessionWatch>(
    alloc: Global,
    templates: &mut Templates,
    kind: TemplateKind,
    octets: &[u8],
    watch: &mut W,
) -> Result<(), StreamFault>
    ensures { Does result (sets.template_set templates.old kind octets.now) templates.new }
{
    let mut rest = octets;
    while rest.len() >= 4 {
        match take_record(alloc, templates, kind, rest, watch) {
            Ok(behind) => rest = behind,
            Err(fault) => {
                watch.on_refused_set(None, rest, fault);
                return Err(fault);
            }
        }
    }
    Ok(())
}
