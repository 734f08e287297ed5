//! Explaining why template records are refused.
use crate::declarations::{Declarations, Declared};
use crate::stream_watch::RefusedMessage;
use fx_elements::Element;
use fx_explanation::{Explanation, number16, number32, write_allowed_length, write_field};
use fx_session::StreamFault;
use fx_wire::{
    FieldSpecifier, FieldSpecifiers, NewTemplate, TemplateHeading, TemplateKind, read_heading,
};

/// Returns the kind of template that a template set with this id declares.
fn kind_of(id: u16) -> TemplateKind {
    if id == 2 {
        TemplateKind::Plain
    } else {
        TemplateKind::Options
    }
}

/// Adds the template with this id, and where its record begins in the stream.
fn put_template(out: &mut Explanation, refused: &RefusedMessage, id: u16) {
    out.text_number(
        match kind_of(refused.set.id) {
            TemplateKind::Plain => "template ",
            TemplateKind::Options => "options template ",
        },
        u64::from(id),
    );
    let place = refused.place_before_end(refused.octets.len());
    out.text_number(" at octet ", place);
}

/// Adds the field at this 0-based index of the template, and the number of fields.
fn put_field_number(
    out: &mut Explanation,
    refused: &RefusedMessage,
    new: &NewTemplate,
    index: usize,
) {
    put_template(out, refused, new.id);
    out.text_number(": field ", (index as u64).saturating_add(1));
    out.text_number(" of ", u64::from(new.count));
}

/// Adds why the record's header is refused.
fn put_heading(out: &mut Explanation, refused: &RefusedMessage) {
    let octets = refused.octets.as_slice();
    let id = number16(octets, 0);
    let count = number16(octets, 2);
    put_template(out, refused, id);
    if count == 0 {
        out.sentence(
            ": without fields it is a withdrawal, and the ids of templates begin at 256 (2 withdraws all templates, 3 all options templates, each in its own sets)",
        );
        return;
    }
    if id < 256 {
        out.sentence(": the ids of templates begin at 256");
        return;
    }
    if octets.len() < 6 {
        out.sentence(": its set ends inside of its head");
        return;
    }
    out.text_number(": scope fields ", u64::from(number16(octets, 4)));
    out.text_number(" of ", u64::from(count));
    out.sentence("; at least one of an options template's fields must be");
}

/// Adds why the field at this index is refused, which begins with these octets.
fn put_wrong_field(
    out: &mut Explanation,
    refused: &RefusedMessage,
    new: &NewTemplate,
    index: usize,
    octets: &[u8],
) {
    put_field_number(out, refused, new, index);
    let has_enterprise = number16(octets, 0) >= 0x8000;
    if octets.len() < 4 || (has_enterprise && octets.len() < 8) {
        out.sentence(" passes its set's end");
        return;
    }
    let field = FieldSpecifier {
        element: number16(octets, 0) & 0x7fff,
        field_length: number16(octets, 2),
        enterprise: has_enterprise.then_some(number32(octets, 4)),
    };
    out.text(" is ");
    write_field(out, &field);
    write_allowed_length(out, &field);
    out.end_line();
}

/// Returns whether a field is a flow counter with a length other than 8 octets.
fn is_narrow(field: &FieldSpecifier) -> bool {
    let is_counter = matches!(
        field.element(),
        Element::OctetDeltaCount | Element::PacketDeltaCount
    );
    is_counter && field.field_length != 8
}

/// Adds the first flow counter with a length other than 8 octets.
fn put_narrow(
    out: &mut Explanation,
    refused: &RefusedMessage,
    new: &NewTemplate,
    fields: &[FieldSpecifier],
) {
    for index in 0..fields.len() {
        let field = &fields[index];
        if is_narrow(field) {
            put_field_number(out, refused, new, index);
            out.text(" is ");
            write_field(out, field);
            out.sentence("; it must have 8 octets");
            return;
        }
    }
}

/// Returns the index of the first field in which two lists differ, or of the first that only one of them has.
fn first_difference(old: &[FieldSpecifier], new: &[FieldSpecifier]) -> Option<usize> {
    for index in 0..old.len().min(new.len()) {
        if old[index] != new[index] {
            return Some(index);
        }
    }
    if old.len() == new.len() {
        None
    } else {
        Some(old.len().min(new.len()))
    }
}

/// Adds whether one of two templates is an options template and the other isn't, or whether two options templates
/// differ in their scope.
fn put_kinds(out: &mut Explanation, old: &Declared, kind: TemplateKind, new: &NewTemplate) {
    if old.kind != kind {
        out.sentence(match old.kind {
            TemplateKind::Plain => "it was a template, and is an options template now",
            TemplateKind::Options => "it was an options template, and is a template now",
        });
        return;
    }
    if old.scope == new.scope {
        return;
    }
    out.text_number("scope fields: it had ", u64::from(old.scope));
    out.text_number(", and has ", u64::from(new.scope));
    out.sentence(" now");
}

/// Adds the first fields in which two templates differ, or the number of fields of each.
fn put_difference(out: &mut Explanation, old: &[FieldSpecifier], new: &[FieldSpecifier]) {
    let Some(index) = first_difference(old, new) else {
        return;
    };
    match (old.get(index), new.get(index)) {
        (Some(was), Some(is)) => {
            out.text_number("field ", (index as u64).saturating_add(1));
            out.text(" was ");
            write_field(out, was);
            out.text(", and is ");
            write_field(out, is);
            out.sentence(" now");
        }
        _ => {
            out.text_number("fields: it had ", old.len() as u64);
            out.text_number(", and has ", new.len() as u64);
            out.sentence(" now; as many as both have are the same");
        }
    }
}

/// Adds how the template differs from the one with its id.
fn put_other(
    out: &mut Explanation,
    refused: &RefusedMessage,
    old: &Declared,
    new: &NewTemplate,
    fields: &[FieldSpecifier],
) {
    put_template(out, refused, new.id);
    out.text_number(" isn't the one of this id that message ", old.at.message);
    out.text_number(" declared at octet ", old.at.place);
    out.sentence(", which hasn't been withdrawn");
    put_kinds(out, old, kind_of(refused.set.id), new);
    put_difference(out, old.fields.as_slice(), fields);
}

/// Returns the fields of the record with these octets after its header. Returns `None` if one is refused, which is
/// explained, or if out of memory.
fn fields_of(
    out: &mut Explanation,
    refused: &RefusedMessage,
    new: &NewTemplate,
    octets: &[u8],
) -> Option<Vec<FieldSpecifier>> {
    let mut fields: Vec<FieldSpecifier> = Vec::new(out.alloc);
    let mut left = FieldSpecifiers::new(new.count, octets);
    while let Some(next) = left.next() {
        let Ok(field) = next else {
            put_wrong_field(out, refused, new, fields.len(), left.rest());
            return None;
        };
        if fields.push(field).is_err() {
            out.fall_short();
            return None;
        }
    }
    Some(fields)
}

/// Adds why the template record is refused: for its header, a field, a counter, or the existing template with its id.
pub(crate) fn put_refused_template(
    out: &mut Explanation,
    refused: &RefusedMessage,
    declarations: &Declarations,
) {
    if refused.octets.len() < 4 {
        return;
    }
    let (new, octets) = match read_heading(kind_of(refused.set.id), refused.octets.as_slice()) {
        Ok((TemplateHeading::Declaration(new), rest)) => (new, rest),
        _ => {
            put_heading(out, refused);
            return;
        }
    };
    let Some(fields) = fields_of(out, refused, &new, octets) else {
        return;
    };
    if !matches!(refused.fault, StreamFault::TemplateIdInUse) {
        put_narrow(out, refused, &new, fields.as_slice());
        return;
    }
    if let Some(old) = declarations.live(refused.message.domain, new.id) {
        put_other(out, refused, old, &new, fields.as_slice());
    }
}
