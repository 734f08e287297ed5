//! The meaning of a value's text.
ghost use Rattle.std.specs.Prelude.{◌≡◌, ◌≤◌, ◌<◌, ◌^◌, ◌-◌, ◌+◌, ℕ, List, Some, IfSome, option_map, slice_index};
ghost use Rattle.fx_elements.specs.declared.axis.Axis.{Axis};
ghost use Rattle.fx_elements.specs.Axes.{axis_width, axis_index, tops};
ghost use Rattle.fx_elements.specs.Values.{values_of, written_on, value_on, prefix_on, with_prefix};

use crate::address6::{read_address6, read_prefix6};
use crate::axis::{Axis, top, width};
use crate::element::Element;
use crate::groups::read_groups;
use crate::spelling::{read_number, read_prefix, read_quad};

/// The values from `low` to `high`, whose first `bits` bits are fixed.
#[derive(Clone, Copy, Debug, PartialEq, Eq)]
pub struct Range {
    pub low: u128,
    pub high: u128,
    pub bits: u32,
}

/// Returns the value on the axis with this written form: a dotted quad, eight groups, or a decimal number.
#[inline(always)]
pub fn read_written(axis: Axis, text: &[u8]) -> Option<u128>
    ensures value { result ≡ written_on axis text.now }
    ensures bound { IfSome result (λ v. v ≤ slice_index tops (axis_index axis)) }
{
    if axis.is_wide() {
        read_groups(text)
    } else if axis.is_address() {
        read_quad(text)
    } else {
        read_number(text, top(axis))
    }
}

/// Returns the value on the axis that the text spells. An IPv6 address may be spelled in any way (RFC 4291, section
/// 2.2).
pub fn read_on(axis: Axis, text: &[u8]) -> Option<u128>
    ensures value { result ≡ value_on axis text.now }
    ensures bound { IfSome result (λ v. v ≤ slice_index tops (axis_index axis)) }
{
    if axis.is_wide() {
        read_address6(text)
    } else {
        read_written(axis, text)
    }
}

/// Returns the address on the axis and the number of leading bits that the text spells, or None on an axis without
/// addresses.
fn read_prefix_on(axis: Axis, text: &[u8]) -> Option<(u128, u128)>
    ensures value { result ≡ prefix_on axis text.now }
    ensures bound { IfSome result (λ p. (p.0 < 2 ^ axis_width axis) × (0 < p.1)
        × (p.1 ≤ axis_width axis)) }
{
    if axis.is_wide() {
        read_prefix6(text)
    } else if axis.is_address() {
        read_prefix(text)
    } else {
        None
    }
}

/// Returns the addresses of the given width that begin with the leading bits of this address.
fn addresses(width: u128, address: u128, bits: u128) -> Range
    requires some { 0 < bits }
    requires fewer { bits ≤ width }
    requires most { width ≤ 128 }
    requires fits { address < 2 ^ width }
    ensures { result ≡ with_prefix width (address, bits) }
{
    let size = 1u128 << (width - bits);
    let low = address / size * size;
    Range {
        low,
        high: low + (size - 1),
        bits: bits as u32,
    }
}

/// Returns the values of the element that the text spells: one value on an axis, or the addresses of a prefix element.
/// Returns None if the text spells none, or the element has no values here.
///
/// Numbers are decimal without leading zeros and within the axis. Addresses are dotted quads, or spelled as in RFC
/// 4291, section 2.2, for IPv6. Prefixes are an address and `/n`, where n is from 1 to 32, or to 128 for IPv6.
pub fn read_value(element: Element, text: &str) -> Option<Range>
    ensures { result ≡ values_of element text.now }
{
    match element {
        Element::OnAxis(axis) => {
            let value = read_on(axis, text.as_bytes())?;
            Some(Range {
                low: value,
                high: value,
                bits: width(axis),
            })
        }
        Element::Prefix(axis) => {
            let (address, bits) = read_prefix_on(axis, text.as_bytes())?;
            Some(addresses(u128::from(width(axis)), address, bits))
        }
        Element::OctetDeltaCount
        | Element::PacketDeltaCount
        | Element::OctetTotalCount
        | Element::PacketTotalCount
        | Element::PrefixLength(_)
        | Element::Other => None,
    }
}

/// Values and prefixes that are read on an axis are within it.
pub fn values_fit()
    ensures value { (axis : Axis) (text : List ℕ) (v : ℕ) → value_on axis text ≡ Some v
        → v ≤ slice_index tops (axis_index axis) }
    ensures leading { (axis : Axis) (text : List ℕ) (p : ℕ × ℕ) → prefix_on axis text ≡ Some p
        → (p.0 < 2 ^ axis_width axis) × (0 < p.1) × (p.1 ≤ axis_width axis) }
{}
