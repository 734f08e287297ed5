//! The texts of parts, one part at a time.
ghost use Rattle.std.specs.Prelude.{◌≡◌, ◌⊎◌, ◌++◌, ◌∷◌, ◌<◌, [], bytes_eq, codes, IfOk, IfErr, IfNone, IfSome};
ghost use Rattle.fx_base.specs.Fault.{IsMemory};
ghost use Rattle.fx_join.specs.PartTexts.{first_text, three_texts};
ghost use Rattle.fx_join.specs.Streams.{ReadsOn, StopsReading, octet_budget, octets_of};
ghost use Rattle.fx_join.specs.Taking.{IsNextPart, LacksFirst, TakesFirst};
ghost use Rattle.fx_join.specs.declared.part_reader.NextPart.TheVariants as next;

use crate::stream::Stream;
use fx_base::{Fault, Source};
use std::alloc::Global;
use std::marker::Model;

/// The texts of a part: its network document, its traffic declaration and its certificate.
#[derive(Drop)]
pub(crate) struct PartText {
    pub(crate) network: Vec<u8>,
    pub(crate) traffic: Vec<u8>,
    pub(crate) certificate: Vec<u8>,
}

impl Model for PartText {
    ghost use Rattle.fx_join.specs.PartTexts as texts;

    ghost Value = { texts.PartText };

    ghost view = { λ p. record {
      network = p.network.items;
      traffic = p.traffic.items;
      certificate = p.certificate.items;
    } };
}

/// What a reader of parts finds next.
#[derive(Drop)]
pub(crate) enum NextPart {
    /// A part.
    Part(PartText),
    /// The end of the source.
    End,
    /// Octets with which no part begins.
    Other,
}

fn is_mark(line: &[u8]) -> bool
    ensures { result ≡ bytes_eq line.now (codes "%%" ++ 10 ∷ []) }
{
    line == b"%%\n".as_slice()
}

fn is_command(line: &[u8]) -> bool
    ensures { result ≡ bytes_eq line.now (codes "check" ++ 10 ∷ []) }
{
    line == b"check\n".as_slice()
}

/// Reads the lines before the first line `%%`, and that line. Returns `None` if there is no such line.
fn read_text<R: Source>(
    alloc: Global,
    stream: &mut Stream,
    source: &mut R,
) -> Result<Option<Vec<u8>>, Fault>
    ensures some { IfOk result (λ o. IfSome o (λ text. TakesFirst first_text
        (octets_of stream.old (R.left source.old)) (octets_of stream.new (R.left source.new))
        text.items)) }
    ensures none { IfOk result (λ o. IfNone o (LacksFirst first_text
        (octets_of stream.old (R.left source.old)))) }
    ensures smaller { IfOk result (λ o. IfSome o (λ _. octet_budget stream.new
        < octet_budget stream.old)) }
    ensures on { IfOk result (λ o. IfSome o (λ _. ReadsOn stream.old.calls (R.left source.old)
        (R.calls source.old) stream.new.calls (R.left source.new) (R.calls source.new))) }
    ensures err { IfErr result (λ e. IsMemory e
        ⊎ StopsReading stream.old.calls (R.left source.old) (R.calls source.old)
        (R.calls source.new) (R.failed source.new) e) }
{
    let mut text = Vec::new(alloc);
    let mut start = 0;
    'lines: while stream.push_line(source, &mut text)? {
        if is_mark(&text[start..]) {
            text.truncate(start);
            return Ok(Some(text));
        }
        start = text.len();
    }
    Ok(None)
}

/// Reads the three texts of a part. Returns `None` if there are fewer.
fn read_texts<R: Source>(
    alloc: Global,
    stream: &mut Stream,
    source: &mut R,
) -> Result<Option<PartText>, Fault>
    ensures some { IfOk result (λ o. IfSome o (TakesFirst three_texts
        (octets_of stream.old (R.left source.old)) (octets_of stream.new (R.left source.new)))) }
    ensures none { IfOk result (λ o. IfNone o (LacksFirst three_texts
        (octets_of stream.old (R.left source.old)))) }
    ensures smaller { IfOk result (λ o. IfSome o (λ _. octet_budget stream.new
        < octet_budget stream.old)) }
    ensures on { IfOk result (λ o. IfSome o (λ _. ReadsOn stream.old.calls (R.left source.old)
        (R.calls source.old) stream.new.calls (R.left source.new) (R.calls source.new))) }
    ensures err { IfErr result (λ e. IsMemory e
        ⊎ StopsReading stream.old.calls (R.left source.old) (R.calls source.old)
        (R.calls source.new) (R.failed source.new) e) }
{
    let Some(network) = read_text(alloc, stream, source)? else {
        return Ok(None);
    };
    let Some(traffic) = read_text(alloc, stream, source)? else {
        return Ok(None);
    };
    let Some(certificate) = read_text(alloc, stream, source)? else {
        return Ok(None);
    };
    Ok(Some(PartText {
        network,
        traffic,
        certificate,
    }))
}

/// Reads the next part.
///
/// Fails with 901, at no place, if a read fails or the source hasn't ended after 4,294,967,296 calls, and with 900 if
/// out of memory.
pub(crate) fn read_part<R: Source>(
    alloc: Global,
    stream: &mut Stream,
    source: &mut R,
) -> Result<NextPart, Fault>
    ensures next { IfOk result (IsNextPart (octets_of stream.old (R.left source.old))
        (octets_of stream.new (R.left source.new))) }
    ensures smaller { IfOk result (λ found. (part : PartText) → found ≡ next.Part part
        → octet_budget stream.new < octet_budget stream.old) }
    ensures on { IfOk result (λ found. (part : PartText) → found ≡ next.Part part
        → ReadsOn stream.old.calls (R.left source.old)
        (R.calls source.old) stream.new.calls (R.left source.new) (R.calls source.new)) }
    ensures err { IfErr result (λ e. IsMemory e
        ⊎ StopsReading stream.old.calls (R.left source.old) (R.calls source.old)
        (R.calls source.new) (R.failed source.new) e) }
{
    let mut octets = Vec::new(alloc);
    let ended = stream.push_line(source, &mut octets)?;
    let line = octets.as_slice();
    if line.is_empty() {
        return Ok(NextPart::End);
    }
    if !ended {
        return Ok(NextPart::Other);
    }
    if !is_command(line) {
        return Ok(NextPart::Other);
    }
    match read_texts(alloc, stream, source)? {
        Some(part) => Ok(NextPart::Part(part)),
        None => Ok(NextPart::Other),
    }
}
