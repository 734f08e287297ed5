//! Reading a line of a certificate.
ghost use Rattle.std.specs.Prelude.{◌≡◌, IfOk, IfErr};
ghost use Rattle.fx_base.specs.Fault.{fault_at};
ghost use Rattle.fx_base.specs.declared.fault.Place.TheVariants as places;
ghost use Rattle.fx_base.specs.Refusals.{certificate_line};
ghost use Rattle.fx_cert.specs.declared.item.Item as of_item;
ghost use Rattle.fx_cert.specs.ItemText.{IsItemText};
ghost use Rattle.fx_cert.specs.ItemReading.{axis_of, class_of, split_of, leaf_of, item_of};

use crate::item::{Item, Version};
use crate::put::word;
use fx_base::{Fault, Line, refusals};
use fx_elements::{Axis, EVERY_AXIS, is_word, read_number, read_u64, split_at_byte, top};

/// Returns the axis with this word.
fn read_axis(text: &[u8]) -> Option<Axis>
    ensures { result ≡ axis_of text.now }
{
    for axis in EVERY_AXIS {
        if is_word(text, word(axis)) {
            return Some(axis);
        }
    }
    None
}

/// Reads what follows the word of a class.
#[tactic(auto, unfolding(crate::specs::ItemReading::class_of))]
fn read_class(text: &[u8]) -> Option<Item>
    ensures { result ≡ class_of text.now }
{
    let (class, rest) = split_at_byte(text, b' ')?;
    let (word, path) = split_at_byte(rest, b' ')?;
    if !is_word(word, b"path") {
        return None;
    }
    let class = read_u64(class)?;
    let path = read_u64(path)?;
    Some(Item::Class { class, path })
}

/// Reads what follows the word of a split.
#[tactic(auto, unfolding(crate::specs::ItemReading::split_of))]
fn read_split(text: &[u8]) -> Option<Item>
    ensures { result ≡ split_of text.now }
{
    let (word, at) = split_at_byte(text, b' ')?;
    let axis = read_axis(word)?;
    let at = read_number(at, top(axis))?;
    Some(Item::Split { axis, at })
}

/// Reads what follows the word of a leaf.
#[tactic(auto, unfolding(crate::specs::ItemReading::leaf_of))]
fn read_leaf(text: &[u8]) -> Option<Item>
    ensures { result ≡ leaf_of text.now }
{
    let (crossing, rest) = split_at_byte(text, b' ')?;
    let (point, process) = split_at_byte(rest, b' ')?;
    let crossing = read_u64(crossing)?;
    let point = read_u64(point)?;
    let process = read_u64(process)?;
    Some(Item::Leaf {
        crossing,
        point,
        process,
    })
}

/// Returns the item with this text, if there is one.
#[tactic(auto, unfolding(crate::specs::ItemReading::item_of))]
fn read_text(text: &[u8]) -> Option<Item>
    ensures { result ≡ item_of text.now }
{
    if is_word(text, b"once-certificate 1") {
        return Some(Item::Header(Version::One));
    }
    if is_word(text, b"once-certificate 2") {
        return Some(Item::Header(Version::Two));
    }
    if is_word(text, b"N") {
        return Some(Item::Never);
    }
    if is_word(text, b"end") {
        return Some(Item::End);
    }
    let (word, rest) = split_at_byte(text, b' ')?;
    if is_word(word, b"class") {
        read_class(rest)
    } else if is_word(word, b"S") {
        read_split(rest)
    } else if is_word(word, b"L") {
        read_leaf(rest)
    } else {
        None
    }
}

/// Returns the item with the bytes of the line as its text. Whether a line feed ended the line is left to the caller.
///
/// One space separates two words; numbers are decimal without leading zeros, below 2 to the 64 or, in a split, within
/// the axis.
///
/// Fails with 402, at the line, if the bytes are no item's text.
pub fn read_item(line: &Line<'_>) -> Result<Item, Fault>
    ensures ok { IfOk result (λ item. IsItemText line.now.bytes.now item) }
    ensures err { IfErr result (λ e. (e ≡ fault_at certificate_line (places.Line line.now.number))
        × ((item : of_item.Item) → IsItemText line.now.bytes.now item → ⊥)) }
{
    match read_text(line.bytes) {
        Some(item) => Ok(item),
        None => Err(Fault::at_line(refusals::CERTIFICATE_LINE, line.number)),
    }
}
