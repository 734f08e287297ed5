//! The lines of a source, of any length.
ghost use Rattle.std.specs.Prelude.{◌≡◌, ◌⊎◌, ◌++◌, ◌<◌, ◌≤◌, ℕ, [], List, drop, length, nat_lt, take, true, false, IfOk, IfErr, IfSome, IfNone, OnOk};
ghost use Rattle.std.specs.Io.KnownBytes.{prepend_known};
ghost use Rattle.fx_base.specs.Fault.{IsMemory};
ghost use Rattle.fx_base.specs.Lines.{line_len};
ghost use Rattle.fx_join.specs.PartTexts.{line_octets};
ghost use Rattle.fx_join.specs.Streams.{IsLinePart, ReadsOn, StopsReading, octet_budget, octets_of};

use fx_base::{Fault, PieceReader, Source};
use memchr::memchr;
use std::alloc::AllocError;
use std::marker::Model;

/// A reader of a source's octets that holds those of the current piece that were not yet taken. The source, always the
/// same one, is passed in for each call.
#[derive(Drop)]
pub(crate) struct Stream {
    pieces: PieceReader,
    taken: usize,
}

impl Model for Stream {
    ghost use Rattle.std.specs.Prelude.{◌≤◌, drop, length};
    ghost use Rattle.fx_base.specs.Limits.{call_limit};
    ghost use Rattle.fx_base.specs.declared.pieces.TheConstants.{PIECE};
    ghost use Rattle.fx_join.specs.Streams.{Streamed};

    ghost Value = { Streamed };

    ghost view = { λ s. record { held = drop s.taken s.pieces.piece; calls = s.pieces.calls } };

    ghost invariant = { λ s. (s.taken ≤ length s.pieces.piece) × (length s.pieces.piece ≤ PIECE)
        × (s.pieces.calls ≤ call_limit) };
}

/// Returns the index of the first line feed.
fn line_feed(octets: &[u8]) -> Option<usize>
    ensures found { IfSome result (λ n. (n ≡ line_len octets.now) × (n < length octets.now)) }
    ensures none { IfNone result (line_len octets.now ≡ length octets.now) }
{
    memchr(b'\n', octets)
}

/// The first octets of a piece, up to the first line feed.
#[derive(Clone, Copy)]
struct LinePart {
    /// The number of octets, with the line feed.
    count: usize,
    /// Whether there is a line feed.
    ended: bool,
}

/// Appends the octets up to the first line feed, and the line feed.
///
/// Fails if out of memory.
fn push_part(text: &mut Vec<u8>, piece: &[u8]) -> Result<LinePart, AllocError>
    ensures part { IfOk result (λ part. IsLinePart piece.now part.count part.ended) }
    ensures text { IfOk result (λ part. text.new.items
        ≡ text.old.items ++ take part.count piece.now) }
{
    let part = match line_feed(piece) {
        Some(index) => LinePart {
            count: index + 1,
            ended: true,
        },
        None => LinePart {
            count: piece.len(),
            ended: false,
        },
    };
    text.extend_from_slice(&piece[..part.count])?;
    Ok(part)
}

impl Stream {
    /// Returns a reader that has read nothing.
    pub(crate) fn new() -> Stream
        ensures { result ≡ record { held = []; calls = 0 } }
    {
        Stream {
            pieces: PieceReader::new(),
            taken: 0,
        }
    }

    /// Reads a piece if no octets are held. Returns whether octets are held, which they are unless the source has
    /// ended.
    ///
    /// Fails with 901, at no place, if the read fails or the source hasn't ended after 4,294,967,296 calls.
    fn fill<R: Source>(&mut self, source: &mut R) -> Result<bool, Fault>
        ensures octets { octets_of self.new (R.left source.new)
            ≡ octets_of self.old (R.left source.old) }
        ensures there { IfOk result (λ there. there ≡ nat_lt 0 (length self.new.held)) }
        ensures end { IfOk result (λ there. there ≡ false
            → IfSome (R.left source.new) (λ left. left ≡ [])) }
        ensures smaller { OnOk result (octet_budget self.new ≤ octet_budget self.old) }
        ensures on { IfOk result (λ there. there ≡ true
            → ReadsOn self.old.calls (R.left source.old) (R.calls source.old) self.new.calls
            (R.left source.new) (R.calls source.new)) }
        ensures err { IfErr result (StopsReading self.old.calls (R.left source.old)
            (R.calls source.old) (R.calls source.new) (R.failed source.new)) }
    {
        if self.taken < self.pieces.piece().len() {
            return Ok(true);
        }
        self.taken = 0;
        self.pieces.advance(source)
    }

    /// Returns the octets that it holds.
    fn held(&self) -> &[u8]
        ensures { result.now ≡ self.now.held }
    {
        &self.pieces.piece()[self.taken..]
    }

    /// Passes over the first `count` octets, which it must hold.
    fn pass(&mut self, count: usize)
        requires { count ≤ length self.old.held }
        ensures { self.new ≡ record self.old { held = drop count self.old.held } }
    {
        self.taken += count;
    }

    /// Appends the next line, with its line feed. Returns whether a line feed ended it; otherwise the source has ended.
    ///
    /// Fails with 901, at no place, if a read fails or the source hasn't ended after 4,294,967,296 calls, and with 900
    /// if out of memory.
    pub(crate) fn push_line<R: Source>(
        &mut self,
        source: &mut R,
        text: &mut Vec<u8>,
    ) -> Result<bool, Fault>
        ensures line { IfOk result (λ ended. (line : List ℕ) × (line_len line ≡ length line)
            × (text.new.items ≡ text.old.items ++ line_octets (line, ended))
            × (prepend_known (line_octets (line, ended)) (octets_of self.new (R.left source.new))
            ≡ octets_of self.old (R.left source.old))) }
        ensures end { IfOk result (λ ended. ended ≡ false
            → IfSome (octets_of self.new (R.left source.new)) (λ rest. rest ≡ [])) }
        ensures smaller { IfOk result (λ ended. ended ≡ true
            → octet_budget self.new < octet_budget self.old) }
        ensures on { IfOk result (λ ended. ended ≡ true
            → ReadsOn self.old.calls (R.left source.old) (R.calls source.old) self.new.calls
            (R.left source.new) (R.calls source.new)) }
        ensures err { IfErr result (λ e. IsMemory e
            ⊎ StopsReading self.old.calls (R.left source.old) (R.calls source.old)
            (R.calls source.new) (R.failed source.new) e) }
    {
        'pieces: while self.fill(source)? {
            let part = push_part(text, self.held())?;
            self.pass(part.count);
            if part.ended {
                return Ok(true);
            }
        }
        Ok(false)
    }
}
