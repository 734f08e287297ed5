//! The line of a key and its counts.
ghost use Rattle.std.specs.Prelude.{◌≡◌, ◌≢◌, ◌-◌, ◌≤◌, ◌<◌, ◌^◌, ℕ, true, IfSome, option_map, slice_index};
ghost use Rattle.std.specs.List.{list_all};
ghost use Rattle.fx_elements.specs.Axes.{axis_index, axis_width, field, tops};
ghost use Rattle.fx_layout.specs.Keys.{AxesAscend};
ghost use Rattle.fx_layout.specs.Keys as keys;
ghost use Rattle.fx_sums.specs.SumText.{comes_behind};
ghost use Rattle.fx_sums.specs.SumLines.{that_begins, prefix_start, start_of, values_under, values_first, key_first, counts_of, record_of, record_behind};

use crate::note::{behind_word, read_last_number};
use fx_base::Counts;
use fx_boxes::Fields;
use fx_elements::{AXES, Axis, Words, read_u64, read_written, split_at_byte, width};
use fx_layout::{Key, Layout, Part};
use fx_tables::Record;

/// Returns the value, if all bits after its leading bits are 0.
fn begin_with(part: Part, value: u128) -> Option<u128>
    requires some { 0 < part.bits }
    requires fewer { part.bits ≤ axis_width part.axis }
    ensures { result ≡ that_begins (2 ^ (axis_width part.axis - part.bits)) value }
{
    let size = 1u128 << (width(part.axis) - part.bits);
    if value % size == 0 { Some(value) } else { None }
}

/// Reads the first value with the leading bits of an address, whose number follows a slash.
#[tactic(auto, unfolding(crate::specs::SumLines::prefix_start))]
fn read_prefix_start(part: Part, word: &[u8]) -> Option<u128>
    requires some { 0 < part.bits }
    requires fewer { part.bits ≤ axis_width part.axis }
    ensures value { result ≡ prefix_start part word.now }
    ensures bound { IfSome result (λ v. v ≤ slice_index tops (axis_index part.axis)) }
{
    let (address, bits) = split_at_byte(word, b'/')?;
    let bits = read_u64(bits)?;
    let value = read_written(part.axis, address)?;
    if bits == u64::from(part.bits) {
        begin_with(part, value)
    } else {
        None
    }
}

/// Reads the first value with the leading bits of the part from a word.
fn read_start(part: Part, word: &[u8]) -> Option<u128>
    requires some { 0 < part.bits }
    requires fewer { part.bits ≤ axis_width part.axis }
    ensures value { result ≡ start_of part word.now }
    ensures bound { IfSome result (λ v. v ≤ slice_index tops (axis_index part.axis)) }
{
    if part.bits < width(part.axis) {
        read_prefix_start(part, word)
    } else {
        read_written(part.axis, word)
    }
}

/// Returns the fields with this value on the axis.
fn with_value(fields: Fields, axis: Axis, value: u128) -> Fields
    requires { value ≤ slice_index tops (axis_index axis) }
    ensures at { field result axis ≡ value }
    ensures others { (k : ℕ) → k ≢ axis_index axis
        → slice_index result k ≡ slice_index fields k }
{
    let mut values = fields.array();
    values[axis.index()] = value;
    Fields::of(values)
}

/// Reads the values of these parts from the first words; returns fields with these values, and the words after them.
#[tactic(auto, unfolding(crate::specs::SumLines::values_first))]
fn read_values<'a>(parts: &[Part], words: Words<'a>) -> Option<(Fields, Words<'a>)>
    requires stand { list_all keys.can_stand parts.now ≡ true }
    requires ascend { AxesAscend 0 parts.now }
    ensures { option_map (λ r. (values_under parts.now r.0, r.1)) result
        ≡ values_first parts.now words.entry }
{
    match parts {
        [] => Some((Fields::of([0; AXES]), words)),
        [part, parts @ ..] => {
            let (word, words) = words.word()?;
            let start = read_start(*part, word)?;
            let (fields, words) = read_values(parts, words)?;
            Some((with_value(fields, part.axis, start), words))
        }
    }
}

/// Reads the key from the first words; returns it and the words after it.
fn read_key<'a>(layout: &Layout, words: Words<'a>) -> Option<(Key, Words<'a>)>
    ensures layout { IfSome result (λ r. r.0.layout ≡ layout.now) }
    ensures value { option_map (λ r. (r.0.values, r.1)) result ≡ key_first layout.now words.entry }
{
    let parts = layout.parts();
    match parts {
        [] => {
            let words = behind_word(words, b"all")?;
            Some((layout.key_of(&Fields::of([0; AXES])), words))
        }
        [_, ..] => {
            let (fields, words) = read_values(parts, words)?;
            Some((layout.key_of(&fields), words))
        }
    }
}

/// Returns the counts if the words are exactly those of counts.
#[tactic(auto, unfolding(crate::specs::SumLines::counts_of))]
fn read_counts(words: Words<'_>) -> Option<Counts>
    ensures { result ≡ counts_of words.entry }
{
    let words = behind_word(words, b"packets")?;
    let (packets, words) = words.number()?;
    let words = behind_word(words, b"octets")?;
    let octets = read_last_number(words)?;
    Some(Counts { packets, octets })
}

/// Returns the record that a line gives, if it gives one.
#[tactic(auto, unfolding(crate::specs::SumLines::record_of))]
fn read_record(layout: &Layout, line: &[u8]) -> Option<Record>
    ensures { result ≡ record_of layout.now line.now }
{
    let (key, words) = read_key(layout, Words::new(line))?;
    let counts = read_counts(words)?;
    Some(Record { key, counts })
}

/// Returns whether the key follows the last one, if there is one.
fn is_behind(last: &Option<Key>, key: &Key) -> bool
    ensures { result ≡ comes_behind (option_map (λ k. k.values) last.now) key.now.values }
{
    match last {
        None => true,
        Some(last) => last.comes_before(key),
    }
}

/// Returns the record that a line gives, if it gives one whose key follows the last one.
#[tactic(auto, unfolding(crate::specs::SumLines::record_behind))]
pub(crate) fn read_record_behind(layout: &Layout, last: &Option<Key>, line: &[u8]) -> Option<Record>
    ensures { result ≡ record_behind layout.now (option_map (λ k. k.values) last.now) line.now }
{
    let entry = read_record(layout, line)?;
    if is_behind(last, &entry.key) {
        Some(entry)
    } else {
        None
    }
}
