//! The interfaces of a device's observation points.
use crate::similar_names::similar_name;
use fx_config::ObservationPoint;
use fx_explanation::{Explanation, between};
use std::alloc::{AllocError, Global};

/// The maximum number of interfaces that are written.
const SHOWN: u64 = 8;

/// The maximum number of interfaces that are considered.
const LOOKED_AT: usize = 64;

/// Returns whether a name is among these.
fn has_name(names: &[&str], name: &str) -> bool {
    for known in names {
        if *known == name {
            return true;
        }
    }
    false
}

/// Adds the interfaces of an observation point that aren't in the list yet, up to its maximum.
fn add_interfaces<'a>(
    names: &mut Vec<&'a str>,
    point: &'a ObservationPoint,
) -> Result<(), AllocError> {
    for interface in point.interfaces.as_slice() {
        let name = interface.as_str();
        if names.len() < LOOKED_AT && !has_name(names.as_slice(), name) {
            names.push(name)?;
        }
    }
    Ok(())
}

/// Returns the first interfaces of these observation points, each once.
fn interfaces_of<'a>(
    alloc: Global,
    points: &'a [ObservationPoint],
) -> Result<Vec<&'a str>, AllocError> {
    let mut names = Vec::new(alloc);
    for point in points {
        add_interfaces(&mut names, point)?;
    }
    Ok(names)
}

/// Writes names, at most eight of them, with the nearest one first.
fn write_names(out: &mut Explanation, names: &[&str], nearest: Option<&str>) {
    let mut shown: u64 = 0;
    if let Some(name) = nearest {
        out.quoted(name);
        shown = 1;
    }
    for name in names {
        if shown < SHOWN && nearest != Some(*name) {
            out.text_quoted(between(shown > 0, ", "), name);
            shown += 1;
        }
    }
    if names.len() >= LOOKED_AT {
        out.text(" and others");
    } else if names.len() as u64 > shown {
        out.text_number(" and ", names.len() as u64 - shown);
        out.text(" more");
    }
}

/// Returns the digits of a name.
fn digits_of(alloc: Global, name: &str) -> Result<String, AllocError> {
    let mut digits = String::new(alloc);
    for character in name.chars() {
        if character.is_ascii_digit() {
            digits.push(character)?;
        }
    }
    Ok(digits)
}

/// Returns those of these names that have the same digits as a name, in order; the others are of other interfaces.
fn with_digits_of<'a>(
    alloc: Global,
    name: &str,
    names: &[&'a str],
) -> Result<Vec<&'a str>, AllocError> {
    let digits = digits_of(alloc, name)?;
    let mut same = Vec::new(alloc);
    for one in names {
        if digits_of(alloc, one)?.as_str() == digits.as_str() {
            same.push(*one)?;
        }
    }
    Ok(same)
}

/// Returns the interface of these observation points that was probably meant by a name: a similar one, with the same
/// digits.
pub(crate) fn nearest_watched<'a>(
    out: &mut Explanation,
    points: &'a [ObservationPoint],
    interface: &str,
) -> Option<&'a str> {
    let names = interfaces_of(out.alloc, points);
    let names = out.unless_short(names)?;
    let same = with_digits_of(out.alloc, interface, names.as_slice());
    let same = out.unless_short(same)?;
    similar_name(out, interface, same.as_slice())
}

/// Writes the interfaces of a device's observation points, after an interface that has none.
pub(crate) fn write_watched_interfaces(
    out: &mut Explanation,
    points: &[ObservationPoint],
    interface: &str,
) {
    let names = interfaces_of(out.alloc, points);
    let Some(names) = out.unless_short(names) else {
        return;
    };
    if names.is_empty() {
        out.sentence("; the device has none");
        return;
    }
    let nearest = similar_name(out, interface, names.as_slice());
    out.text("; those of the device are at ");
    write_names(out, names.as_slice(), nearest);
    out.end_line();
}
