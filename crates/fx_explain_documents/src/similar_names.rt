//! Names that a misspelled one may mean.
use fx_explanation::Explanation;
use std::alloc::{AllocError, Global};
use strsim::osa_distance;

/// The maximum length, in octets, of names that are compared.
const COMPARED: usize = 64;

/// Returns a character as it is compared: upper case letters become lower case.
fn lower(character: char) -> char {
    match character {
        'A'..='Z' => char::from(character as u8 + 32),
        _ => character,
    }
}

/// Returns the name after a module's prefix, as in `once-audit:aggregation`.
fn after_prefix(name: &str) -> &str {
    match name.split_once(':') {
        Some((_, after)) => after,
        None => name,
    }
}

/// Returns a name as it is compared: without its module prefix, hyphens and underscores, in lower case.
fn plain(alloc: Global, name: &str) -> Result<String, AllocError> {
    let mut text = String::new(alloc);
    for character in after_prefix(name).chars() {
        if character != '-' && character != '_' {
            text.push(lower(character))?;
        }
    }
    Ok(text)
}

/// Returns the least number of letters to replace, insert, delete or swap with the next one that turns one name into
/// the other.
fn distance(alloc: Global, one: &str, other: &str) -> Result<usize, AllocError> {
    let one = plain(alloc, one)?;
    let other = plain(alloc, other)?;
    osa_distance(alloc, one.as_str(), other.as_str())
}

/// Returns the maximum distance of a misspelling from a name: one letter, and one more for every six.
fn reach(name: &str) -> usize {
    1 + name.len() / 6
}

/// Returns the most similar of these names, if one is similar enough; of several equally similar ones, the first.
pub(crate) fn similar_name<'a>(
    out: &mut Explanation,
    name: &str,
    names: &[&'a str],
) -> Option<&'a str> {
    let mut nearest = None;
    let mut least = usize::MAX;
    if name.len() > COMPARED {
        return None;
    }
    for known in names {
        let measured = distance(out.alloc, name, known);
        let apart = out.unless_short(measured).unwrap_or(usize::MAX);
        if apart < least && apart <= reach(known) {
            nearest = Some(*known);
            least = apart;
        }
    }
    nearest
}
