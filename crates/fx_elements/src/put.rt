//! Output of values.
ghost use Rattle.std.specs.Prelude.{◌≡◌, ◌<◌, ◌≤◌, ◌^◌, ◌-◌, ◌*◌, ◌/◌, ◌%◌, OnOk, IfErr};
ghost use Rattle.fx_base.specs.Device.{Writes, IsWriteFault, KeepsGoing};
ghost use Rattle.fx_elements.specs.Axes.{axis_width};
ghost use Rattle.fx_elements.specs.Spelling.{quad};
ghost use Rattle.fx_elements.specs.Groups.{hex_digit, group, half, groups};
ghost use Rattle.fx_elements.specs.Values.{value_text, bits_text, leading_text};

use crate::axis::{Axis, width};
use fx_base::{Fault, Sink, put_number, put_number_wide, put_text};

/// Writes an address as a dotted quad.
fn put_quad<S: Sink>(sink: &mut S, address: u128) -> Result<(), Fault>
    ensures ok { OnOk result (Writes (S.taken sink.old) (S.taken sink.new) (quad address)) }
    ensures going { OnOk result (KeepsGoing (S.failed sink.old) (S.failed sink.new)) }
    ensures err { IfErr result (IsWriteFault (S.failed sink.new)) }
{
    put_number_wide(sink, address / 0x100_0000)?;
    put_text(sink, b".")?;
    put_number_wide(sink, address / 0x1_0000 % 0x100)?;
    put_text(sink, b".")?;
    put_number_wide(sink, address / 0x100 % 0x100)?;
    put_text(sink, b".")?;
    put_number_wide(sink, address % 0x100)
}

/// Returns a lower-case hexadecimal digit.
fn digit(value: u128) -> u8
    requires { value < 16 }
    ensures { result ≡ hex_digit value }
{
    if value < 10 {
        b'0' + value as u8
    } else {
        b'a' + (value as u8 - 10)
    }
}

/// Writes a group of 16 bits in hexadecimal digits.
fn put_group<S: Sink>(sink: &mut S, value: u128) -> Result<(), Fault>
    requires { value < 65536 }
    ensures ok { OnOk result (Writes (S.taken sink.old) (S.taken sink.new) (group value)) }
    ensures going { OnOk result (KeepsGoing (S.failed sink.old) (S.failed sink.new)) }
    ensures err { IfErr result (IsWriteFault (S.failed sink.new)) }
{
    let last = digit(value % 16);
    if value < 16 {
        return put_text(sink, &[digit(value)]);
    }
    if value < 256 {
        return put_text(sink, &[digit(value / 16), last]);
    }
    let third = digit(value / 16 % 16);
    if value < 4096 {
        return put_text(sink, &[digit(value / 256), third, last]);
    }
    put_text(
        sink,
        &[digit(value / 4096), digit(value / 256 % 16), third, last],
    )
}

/// Writes half of an IPv6 address, four groups.
#[tactic(auto, unfolding(crate::specs::Groups::half))]
fn put_half<S: Sink>(sink: &mut S, part: u128) -> Result<(), Fault>
    requires { part < 2 ^ 64 }
    ensures ok { OnOk result (Writes (S.taken sink.old) (S.taken sink.new) (half part)) }
    ensures going { OnOk result (KeepsGoing (S.failed sink.old) (S.failed sink.new)) }
    ensures err { IfErr result (IsWriteFault (S.failed sink.new)) }
{
    put_group(sink, part / 0x1_0000_0000_0000)?;
    put_text(sink, b":")?;
    put_group(sink, part / 0x1_0000_0000 % 0x1_0000)?;
    put_text(sink, b":")?;
    put_group(sink, part / 0x1_0000 % 0x1_0000)?;
    put_text(sink, b":")?;
    put_group(sink, part % 0x1_0000)
}

/// Writes an IPv6 address as its eight groups.
#[tactic(auto, unfolding(crate::specs::Groups::groups))]
fn put_groups<S: Sink>(sink: &mut S, address: u128) -> Result<(), Fault>
    ensures ok { OnOk result (Writes (S.taken sink.old) (S.taken sink.new) (groups address)) }
    ensures going { OnOk result (KeepsGoing (S.failed sink.old) (S.failed sink.new)) }
    ensures err { IfErr result (IsWriteFault (S.failed sink.new)) }
{
    put_half(sink, address / 0x1_0000_0000_0000_0000)?;
    put_text(sink, b":")?;
    put_half(sink, address % 0x1_0000_0000_0000_0000)
}

/// Writes a value of an axis: an address as a dotted quad or as eight groups, any other as a decimal number.
fn put_whole<S: Sink>(sink: &mut S, axis: Axis, value: u128) -> Result<(), Fault>
    ensures ok { OnOk result (Writes (S.taken sink.old) (S.taken sink.new)
        (value_text axis value)) }
    ensures going { OnOk result (KeepsGoing (S.failed sink.old) (S.failed sink.new)) }
    ensures err { IfErr result (IsWriteFault (S.failed sink.new)) }
{
    if axis.is_wide() {
        put_groups(sink, value)
    } else if axis.is_address() {
        put_quad(sink, value)
    } else {
        put_number_wide(sink, value)
    }
}

/// Returns the first value that begins with these leading bits.
fn first_with(axis: Axis, bits: u32, value: u128) -> u128
    requires fewer { bits ≤ axis_width axis }
    requires fits { value < 2 ^ bits }
    ensures { result ≡ value * 2 ^ (axis_width axis - bits) }
{
    if bits == 0 {
        return 0;
    }
    value * (1u128 << (width(axis) - bits))
}

/// Writes the number of bits of a value, if there are fewer than the axis has.
fn put_bits<S: Sink>(sink: &mut S, axis: Axis, bits: u32) -> Result<(), Fault>
    ensures ok { OnOk result (Writes (S.taken sink.old) (S.taken sink.new) (bits_text axis bits)) }
    ensures going { OnOk result (KeepsGoing (S.failed sink.old) (S.failed sink.new)) }
    ensures err { IfErr result (IsWriteFault (S.failed sink.new)) }
{
    if bits >= width(axis) {
        return put_text(sink, b"");
    }
    put_text(sink, b"/")?;
    put_number(sink, u64::from(bits))
}

/// Writes the leading bits of a value of the axis: the value that has these bits followed by zeros, as an address or a
/// decimal number, and then a slash and the number of bits if there are fewer than the axis has.
///
/// Fails with 902, at no place, if a write fails. How much the sink has taken is then unspecified.
pub fn put_value<S: Sink>(sink: &mut S, axis: Axis, bits: u32, value: u128) -> Result<(), Fault>
    requires fewer { bits ≤ axis_width axis }
    requires fits { value < 2 ^ bits }
    ensures ok { OnOk result (Writes (S.taken sink.old) (S.taken sink.new)
        (leading_text axis bits value)) }
    ensures going { OnOk result (KeepsGoing (S.failed sink.old) (S.failed sink.new)) }
    ensures err { IfErr result (IsWriteFault (S.failed sink.new)) }
{
    put_whole(sink, axis, first_with(axis, bits, value))?;
    put_bits(sink, axis, bits)
}
