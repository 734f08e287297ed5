//! The text of totals.
ghost use Rattle.std.specs.Prelude.{[], ◌∷◌, OnOk, IfErr};
ghost use Rattle.fx_base.specs.Device.{Writes, IsWriteFault, KeepsGoing};
ghost use Rattle.fx_layout.specs.Keys.{HasBits, Fits, IsLayout};
ghost use Rattle.fx_collect.specs.Report.{parts_text, fields_text, number_line, record_line, record_lines, totals_text, KeysAscend};

use crate::totals::Totals;
use fx_base::{Counts, Fault, Sink, put_number, put_text};
use fx_elements::put_value;
use fx_layout::{Layout, Part, Values};

/// Writes a value for each part, separated by single spaces.
fn put_parts<S: Sink>(sink: &mut S, parts: &[Part], values: &[u128]) -> Result<(), Fault>
    requires fits { Fits parts.now }
    requires bits { HasBits parts.now values.now }
    ensures ok { OnOk result (Writes (S.taken sink.old) (S.taken sink.new)
        (parts_text parts.now values.now)) }
    ensures going { OnOk result (KeepsGoing (S.failed sink.old) (S.failed sink.new)) }
    ensures err { IfErr result (IsWriteFault (S.failed sink.new)) }
{
    match parts {
        [] => put_text(sink, b""),
        [part, parts @ ..] => match values {
            [] => put_text(sink, b""),
            [value, values @ ..] => {
                put_value(sink, part.axis, part.bits, *value)?;
                if !parts.is_empty() {
                    put_text(sink, b" ")?;
                }
                put_parts(sink, parts, values)
            }
        },
    }
}

/// Writes the values of a key, or `all` for a key without parts.
fn put_fields<S: Sink>(sink: &mut S, layout: &Layout, values: &[u128]) -> Result<(), Fault>
    requires { HasBits layout.now values.now }
    ensures ok { OnOk result (Writes (S.taken sink.old) (S.taken sink.new)
        (fields_text layout.now values.now)) }
    ensures going { OnOk result (KeepsGoing (S.failed sink.old) (S.failed sink.new)) }
    ensures err { IfErr result (IsWriteFault (S.failed sink.new)) }
{
    let parts = layout.parts();
    match parts {
        [] => put_text(sink, b"all"),
        [_, ..] => put_parts(sink, parts, values),
    }
}

/// Writes the line of a key.
fn put_line<S: Sink>(
    sink: &mut S,
    layout: &Layout,
    values: &Values,
    counts: &Counts,
) -> Result<(), Fault>
    requires { HasBits layout.now values.now }
    ensures ok { OnOk result (Writes (S.taken sink.old) (S.taken sink.new)
        (record_line (record {
          key = record { layout = layout.now; values = values.now };
          counts =
              counts.now;
        }))) }
    ensures going { OnOk result (KeepsGoing (S.failed sink.old) (S.failed sink.new)) }
    ensures err { IfErr result (IsWriteFault (S.failed sink.new)) }
{
    put_fields(sink, layout, values.as_slice())?;
    put_text(sink, b" packets ")?;
    put_number(sink, counts.packets)?;
    put_text(sink, b" octets ")?;
    put_number(sink, counts.octets)?;
    put_text(sink, b"\n")
}

/// Writes a line of a text and a number in decimal.
///
/// Fails with 902, at no place, if a write fails; how much the sink has taken is then unspecified.
pub fn put_number_line<S: Sink>(sink: &mut S, word: &[u8], number: u64) -> Result<(), Fault>
    ensures ok { OnOk result (Writes (S.taken sink.old) (S.taken sink.new)
        (number_line word.now number)) }
    ensures going { OnOk result (KeepsGoing (S.failed sink.old) (S.failed sink.new)) }
    ensures err { IfErr result (IsWriteFault (S.failed sink.new)) }
{
    put_text(sink, word)?;
    put_number(sink, number)?;
    put_text(sink, b"\n")
}

impl Totals {
    /// Writes the line of each key.
    fn put_lines<S: Sink>(&self, sink: &mut S) -> Result<(), Fault>
        ensures ok { OnOk result (Writes (S.taken sink.old) (S.taken sink.new)
            (record_lines self.now.entries)) }
        ensures going { OnOk result (KeepsGoing (S.failed sink.old) (S.failed sink.new)) }
        ensures err { IfErr result (IsWriteFault (S.failed sink.new)) }
    {
        for (values, counts) in self.counts.iter() {
            put_line(sink, &self.layout, values, counts)?;
        }
        put_text(sink, b"")
    }

    /// Writes the text of these totals: `keys n`; for each key its values in axis order, `packets P octets O`;
    /// `unassigned u`. Addresses are dotted quads, or eight groups of hexadecimal digits for IPv6, followed by a slash
    /// and the number of bits if a key has fewer than all; a key without values is `all`. Each line ends with a line
    /// feed.
    ///
    /// The keys must be in ascending order, as after [`Totals::sort`]. Fails with 902, at no place, if a write fails;
    /// how much the sink has taken is then unspecified.
    pub fn put_report<S: Sink>(&self, sink: &mut S) -> Result<(), Fault>
        requires { KeysAscend self.now.entries }
        ensures ok { OnOk result (Writes (S.taken sink.old) (S.taken sink.new)
            (totals_text self.now)) }
        ensures going { OnOk result (KeepsGoing (S.failed sink.old) (S.failed sink.new)) }
        ensures err { IfErr result (IsWriteFault (S.failed sink.new)) }
    {
        put_number_line(sink, b"keys ", self.len() as u64)?;
        self.put_lines(sink)?;
        put_number_line(sink, b"unassigned ", self.unassigned())
    }
}
