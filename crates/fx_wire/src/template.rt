//! Headings of template records.
ghost use Rattle.std.specs.Prelude.{◌≡◌, ◌≤◌, length};
ghost use Rattle.fx_wire.specs.Templates as templates;
ghost use Rattle.fx_wire.specs.TemplateReading as reading;

use crate::malformed::Malformed;
use crate::number::u16_at;

/// The kind of records of a template.
#[derive(Clone, Copy, Debug, PartialEq, Eq)]
pub enum TemplateKind {
    /// Records of flows, declared in template sets (id 2).
    Plain,
    /// Records about the metering itself, declared in options template sets (id 3).
    Options,
}

/// A declared template: its id, from 256 on, its number of scope fields (0 except in an options template), and its
/// number of fields, at least one.
#[derive(Clone, Copy, Debug, PartialEq, Eq)]
pub struct NewTemplate {
    pub id: u16,
    pub scope: u16,
    pub count: u16,
}

/// The content of a template record, without the fields of a template.
#[derive(Clone, Copy, Debug, PartialEq, Eq)]
pub enum TemplateHeading {
    /// The template with this id is withdrawn (RFC 7011, section 8.1).
    Withdrawal(u16),
    /// All templates of the set's kind are withdrawn.
    WithdrawalOfAll,
    /// A template, whose fields follow.
    Declaration(NewTemplate),
}

/// Returns the withdrawal with this id.
fn withdrawal(kind: TemplateKind, id: u16) -> Result<TemplateHeading, Malformed>
    ensures { result ≡ templates.withdrawal kind id }
{
    if id >= 256 {
        return Ok(TemplateHeading::Withdrawal(id));
    }
    let own = match kind {
        TemplateKind::Plain => 2,
        TemplateKind::Options => 3,
    };
    if id == own {
        Ok(TemplateHeading::WithdrawalOfAll)
    } else {
        Err(Malformed::Template)
    }
}

/// Returns the heading of a template with this id and field count, and the octets after it.
fn declaration(
    kind: TemplateKind,
    id: u16,
    count: u16,
    octets: &[u8],
) -> Result<(TemplateHeading, &[u8]), Malformed>
    requires { 4 ≤ length octets.now }
    ensures { reading.with_rest result ≡ templates.declaration kind id count octets.now }
{
    match kind {
        TemplateKind::Plain => {
            let new = NewTemplate {
                id,
                scope: 0,
                count,
            };
            Ok((TemplateHeading::Declaration(new), octets.split_at(4).1))
        }
        TemplateKind::Options => {
            if octets.len() < 6 {
                return Err(Malformed::Template);
            }
            let scope = u16_at(octets, 4);
            if scope == 0 || count < scope {
                return Err(Malformed::Template);
            }
            let new = NewTemplate { id, scope, count };
            Ok((TemplateHeading::Declaration(new), octets.split_at(6).1))
        }
    }
}

/// Reads the heading of the template record at the front, and returns it and the octets after it: those of its fields
/// if it is a template, else those of the next record.
///
/// Fails with [`Malformed::Template`] (614) if an id below 256 isn't the withdrawal of all templates of the kind, if
/// the octets end before the fields, or if the number of scope fields is 0 or greater than that of the fields.
pub fn read_heading(
    kind: TemplateKind,
    octets: &[u8],
) -> Result<(TemplateHeading, &[u8]), Malformed>
    requires { 4 ≤ length octets.now }
    ensures { reading.with_rest result ≡ templates.heading_at kind octets.now }
{
    let id = u16_at(octets, 0);
    let count = u16_at(octets, 2);
    if count == 0 {
        return Ok((withdrawal(kind, id)?, octets.split_at(4).1));
    }
    if id < 256 {
        return Err(Malformed::Template);
    }
    declaration(kind, id, count, octets)
}
