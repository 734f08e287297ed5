//! Encoding of template records (RFC 7011, section 3.4.1).
ghost use Rattle.std.specs.Prelude.{◌≡◌, ◌+◌, ◌*◌, ◌++◌, ◌≤◌, OnOk, length};
ghost use Rattle.fx_elements.specs.Axes.{axis_count};
ghost use Rattle.fx_link.specs.Records as written;

use fx_elements::width;
use fx_layout::{Layout, Part};
use std::alloc::AllocError;

/// Writes a field specifier of the IANA registry. Fails if out of memory.
fn put_specifier(octets: &mut Vec<u8>, element: u16, length: u16) -> Result<(), AllocError>
    ensures { OnOk result (octets.new.items
        ≡ octets.old.items ++ written.specifier_octets (written.specifier element length)) }
{
    octets.extend_from_slice(&element.to_be_bytes())?;
    octets.extend_from_slice(&length.to_be_bytes())
}

/// Writes the fields of a part of a key. Fails if out of memory.
fn put_part(octets: &mut Vec<u8>, part: Part) -> Result<(), AllocError>
    ensures { OnOk result (octets.new.items
        ≡ octets.old.items ++ written.specifiers_octets (written.part_fields part)) }
{
    let axis = part.axis;
    let octets_wide = (width(axis) / 8) as u16;
    if part.bits == width(axis) {
        return put_specifier(octets, axis.element_number(), octets_wide);
    }
    put_specifier(octets, axis.prefix_number(), octets_wide)?;
    put_specifier(octets, axis.prefix_length_number(), 1)
}

/// Writes the fields of the parts of a key, then those of the counters. Fails if out of memory.
fn put_fields(octets: &mut Vec<u8>, parts: &[Part]) -> Result<(), AllocError>
    ensures { OnOk result (octets.new.items
        ≡ octets.old.items ++ written.specifiers_octets (written.fields_of parts.now)) }
{
    match parts {
        [] => {
            put_specifier(octets, 1, 8)?;
            put_specifier(octets, 2, 8)
        }
        [part, parts @ ..] => {
            put_part(octets, *part)?;
            put_fields(octets, parts)
        }
    }
}

/// Returns how many fields the records of a layout have.
fn field_count(parts: &[Part]) -> usize
    requires { length parts.now ≤ axis_count }
    ensures count { result ≡ length (written.fields_of parts.now) }
    ensures bound { result ≤ 2 * length parts.now + 2 }
{
    match parts {
        [] => 2,
        [part, parts @ ..] => {
            let own: usize = if part.bits == width(part.axis) { 1 } else { 2 };
            own + field_count(parts)
        }
    }
}

/// Writes a template record: its id, the number of its fields, and the fields of the records of a layout. Fails if out
/// of memory.
pub(crate) fn put_template(octets: &mut Vec<u8>, id: u16, layout: &Layout) -> Result<(), AllocError>
    ensures { OnOk result (octets.new.items
        ≡ octets.old.items ++ written.template_octets id layout.now) }
{
    let count = field_count(layout.parts()) as u16;
    octets.extend_from_slice(&id.to_be_bytes())?;
    octets.extend_from_slice(&count.to_be_bytes())?;
    put_fields(octets, layout.parts())
}
