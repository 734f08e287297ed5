//! Output of texts and numbers to a sink. Nothing here allocates.
ghost use Rattle.std.specs.Prelude.{OnOk, IfErr, decimal, map};
ghost use Rattle.fx_base.specs.Device.{Writes, IsWriteFault, KeepsGoing};
ghost use Rattle.fx_base.specs.Fault.{fault_text, place_behind, place_text, shown};

use crate::fault::{Fault, Place, shown_octet};
use crate::sink::Sink;
use itoa::Buffer;

/// Writes all of a text.
///
/// Fails with 902, at no place, if a write fails. How much the sink has taken is then unspecified.
pub fn put_text<S: Sink>(sink: &mut S, text: &[u8]) -> Result<(), Fault>
    ensures ok { OnOk result (Writes (S.taken sink.old) (S.taken sink.new) text.now) }
    ensures going { OnOk result (KeepsGoing (S.failed sink.old) (S.failed sink.new)) }
    ensures err { IfErr result (IsWriteFault (S.failed sink.new)) }
{
    let mut done = 0;
    while done < text.len() {
        done += sink.write(&text[done..])?;
    }
    Ok(())
}

/// Writes a number of up to 128 bits in decimal, without leading zeros.
///
/// Fails like [`put_text`].
pub fn put_number_wide<S: Sink>(sink: &mut S, number: u128) -> Result<(), Fault>
    ensures ok { OnOk result (Writes (S.taken sink.old) (S.taken sink.new) (decimal number)) }
    ensures going { OnOk result (KeepsGoing (S.failed sink.old) (S.failed sink.new)) }
    ensures err { IfErr result (IsWriteFault (S.failed sink.new)) }
{
    let mut buffer = Buffer::new();
    put_text(sink, buffer.format(number).as_bytes())
}

/// Writes a number in decimal, without leading zeros.
///
/// Fails like [`put_text`].
pub fn put_number<S: Sink>(sink: &mut S, number: u64) -> Result<(), Fault>
    ensures ok { OnOk result (Writes (S.taken sink.old) (S.taken sink.new) (decimal number)) }
    ensures going { OnOk result (KeepsGoing (S.failed sink.old) (S.failed sink.new)) }
    ensures err { IfErr result (IsWriteFault (S.failed sink.new)) }
{
    put_number_wide(sink, u128::from(number))
}

/// Writes a text with each control character as `?`.
fn put_shown<S: Sink>(sink: &mut S, text: &[u8]) -> Result<(), Fault>
    ensures ok { OnOk result (Writes (S.taken sink.old) (S.taken sink.new) (map shown text.now)) }
    ensures going { OnOk result (KeepsGoing (S.failed sink.old) (S.failed sink.new)) }
    ensures err { IfErr result (IsWriteFault (S.failed sink.new)) }
{
    for octet in text {
        put_text(sink, &[shown_octet(*octet)])?;
    }
    Ok(())
}

/// Writes a place as it is printed.
///
/// Fails like [`put_text`].
pub fn put_place<S: Sink>(sink: &mut S, place: &Place) -> Result<(), Fault>
    ensures ok { OnOk result (Writes (S.taken sink.old) (S.taken sink.new) (place_text place.now)) }
    ensures going { OnOk result (KeepsGoing (S.failed sink.old) (S.failed sink.new)) }
    ensures err { IfErr result (IsWriteFault (S.failed sink.new)) }
{
    match place {
        Place::None => Ok(()),
        Place::Line(line) => {
            put_text(sink, b"line ")?;
            put_number(sink, *line)
        }
        Place::Octet(octet) => {
            put_text(sink, b"octet ")?;
            put_number(sink, *octet)
        }
        Place::Text(text) => put_shown(sink, text.as_bytes()),
    }
}

/// Writes a space and a place, or nothing if there is no place.
fn put_behind<S: Sink>(sink: &mut S, place: &Place) -> Result<(), Fault>
    ensures ok { OnOk result (Writes (S.taken sink.old) (S.taken sink.new)
        (place_behind place.now)) }
    ensures going { OnOk result (KeepsGoing (S.failed sink.old) (S.failed sink.new)) }
    ensures err { IfErr result (IsWriteFault (S.failed sink.new)) }
{
    match place {
        Place::None => Ok(()),
        Place::Line(_) | Place::Octet(_) | Place::Text(_) => {
            put_text(sink, b" ")?;
            put_place(sink, place)
        }
    }
}

/// Writes a refusal as it is printed: its number in decimal, followed by a space and its place if it has one.
///
/// Fails like [`put_text`].
pub fn put_fault<S: Sink>(sink: &mut S, fault: &Fault) -> Result<(), Fault>
    ensures ok { OnOk result (Writes (S.taken sink.old) (S.taken sink.new) (fault_text fault.now)) }
    ensures going { OnOk result (KeepsGoing (S.failed sink.old) (S.failed sink.new)) }
    ensures err { IfErr result (IsWriteFault (S.failed sink.new)) }
{
    put_number(sink, u64::from(fault.number))?;
    put_behind(sink, &fault.place)
}
