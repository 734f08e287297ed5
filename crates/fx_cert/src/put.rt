//! Output of a line of a certificate.
ghost use Rattle.std.specs.Prelude.{◌≡◌, ◌++◌, ◌∷◌, [], OnOk, IfErr};
ghost use Rattle.fx_base.specs.Device.{Writes, IsWriteFault, KeepsGoing};
ghost use Rattle.fx_cert.specs.ItemText.{axis_word, item_text};
ghost use Rattle.fx_cert.specs.declared.item.Item.TheVariants as items;

use crate::item::{Item, Version};
use fx_base::{Fault, Sink, put_number, put_number_wide, put_text};
use fx_elements::Axis;

/// Returns the word of an axis.
pub(crate) fn word(axis: Axis) -> &'static [u8]
    ensures { result.now ≡ axis_word axis }
{
    match axis {
        Axis::Source => b"source",
        Axis::Destination => b"destination",
        Axis::Protocol => b"protocol",
        Axis::SourcePort => b"sport",
        Axis::DestinationPort => b"dport",
        Axis::ClassOfService => b"tos",
        Axis::Version => b"version",
        Axis::Source6 => b"source6",
        Axis::Destination6 => b"destination6",
    }
}

fn put_class<S: Sink>(sink: &mut S, class: u64, path: u64) -> Result<(), Fault>
    ensures ok { OnOk result (Writes (S.taken sink.old) (S.taken sink.new)
        (item_text (items.Class class path))) }
    ensures going { OnOk result (KeepsGoing (S.failed sink.old) (S.failed sink.new)) }
    ensures err { IfErr result (IsWriteFault (S.failed sink.new)) }
{
    put_text(sink, b"class ")?;
    put_number(sink, class)?;
    put_text(sink, b" path ")?;
    put_number(sink, path)
}

fn put_split<S: Sink>(sink: &mut S, axis: Axis, at: u128) -> Result<(), Fault>
    ensures ok { OnOk result (Writes (S.taken sink.old) (S.taken sink.new)
        (item_text (items.Split axis at))) }
    ensures going { OnOk result (KeepsGoing (S.failed sink.old) (S.failed sink.new)) }
    ensures err { IfErr result (IsWriteFault (S.failed sink.new)) }
{
    put_text(sink, b"S ")?;
    put_text(sink, word(axis))?;
    put_text(sink, b" ")?;
    put_number_wide(sink, at)
}

fn put_leaf<S: Sink>(sink: &mut S, crossing: u64, point: u64, process: u64) -> Result<(), Fault>
    ensures ok { OnOk result (Writes (S.taken sink.old) (S.taken sink.new)
        (item_text (items.Leaf crossing point process))) }
    ensures going { OnOk result (KeepsGoing (S.failed sink.old) (S.failed sink.new)) }
    ensures err { IfErr result (IsWriteFault (S.failed sink.new)) }
{
    put_text(sink, b"L ")?;
    put_number(sink, crossing)?;
    put_text(sink, b" ")?;
    put_number(sink, point)?;
    put_text(sink, b" ")?;
    put_number(sink, process)
}

fn put_words<S: Sink>(sink: &mut S, item: &Item) -> Result<(), Fault>
    ensures ok { OnOk result (Writes (S.taken sink.old) (S.taken sink.new) (item_text item.now)) }
    ensures going { OnOk result (KeepsGoing (S.failed sink.old) (S.failed sink.new)) }
    ensures err { IfErr result (IsWriteFault (S.failed sink.new)) }
{
    match item {
        Item::Header(Version::One) => put_text(sink, b"once-certificate 1"),
        Item::Header(Version::Two) => put_text(sink, b"once-certificate 2"),
        Item::Class { class, path } => put_class(sink, *class, *path),
        Item::Split { axis, at } => put_split(sink, *axis, *at),
        Item::Leaf {
            crossing,
            point,
            process,
        } => put_leaf(sink, *crossing, *point, *process),
        Item::Never => put_text(sink, b"N"),
        Item::End => put_text(sink, b"end"),
    }
}

/// Writes the text of an item and the line feed that ends its line.
///
/// Fails with 902, at no place, if a write fails. How much the sink has taken is then unspecified.
pub fn put_item<S: Sink>(sink: &mut S, item: &Item) -> Result<(), Fault>
    ensures ok { OnOk result (Writes (S.taken sink.old) (S.taken sink.new) (item_text item.now
        ++ 10 ∷ [])) }
    ensures going { OnOk result (KeepsGoing (S.failed sink.old) (S.failed sink.new)) }
    ensures err { IfErr result (IsWriteFault (S.failed sink.new)) }
{
    put_words(sink, item)?;
    put_text(sink, b"\n")
}
