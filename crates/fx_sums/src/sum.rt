//! Sums of totals.
ghost use Rattle.std.specs.Prelude.{◌≡◌, ◌⊎◌, None, Ok, Err, IfOk, IfErr, OnOk, IsPermutation};
ghost use Rattle.fx_base.specs.Device.{Writes, IsWriteFault, KeepsGoing};
ghost use Rattle.fx_base.specs.Fault.{IsMemory};
ghost use Rattle.fx_collect.specs.Report.{KeysAscend};
ghost use Rattle.fx_sums.specs.Sums.{no_sum, IsSumBut};
ghost use Rattle.fx_sums.specs.SumText.{noted_text};
ghost use Rattle.fx_sums.specs.SumReading.{sum_with, sum_of_texts, MayReadTexts, GivesText, RefusesTexts};

use crate::notes::Notes;
use crate::notes_put::put_notes;
use crate::text_lines::{add_totals, read_notes, read_number};
use fx_base::{Fault, LineReader, Sink, Source};
use fx_collect::Totals;
use fx_layout::{Layout, Seed};
use std::alloc::Global;
use std::marker::Model;

/// The sum of totals of one report that were collected apart: the counts under each key, the unassigned records, and
/// the notes that accompany them.
#[derive(Drop)]
pub struct Sum {
    layout: Layout,
    totals: Totals,
    notes: Notes,
}

impl Model for Sum {
    ghost use Rattle.std.specs.Prelude.{◌≡◌};
    ghost use Rattle.fx_sums.specs.Sums as sums;

    ghost Value = { sums.Sum };

    ghost view = { λ s. record { totals = s.totals; notes = s.notes } };

    ghost invariant = { λ s. s.layout ≡ s.totals.layout };
}

impl Sum {
    /// Creates a sum of nothing under the keys of this layout, which hashes keys with the seed.
    ///
    /// Fails with 900, at no place, if out of memory.
    pub fn new(alloc: Global, seed: Seed, layout: Layout) -> Result<Sum, Fault>
        ensures ok { IfOk result (λ sum. sum ≡ no_sum layout) }
        ensures err { IfErr result IsMemory }
    {
        let totals = Totals::new(alloc, seed, layout.copy())?;
        Ok(Sum {
            layout,
            totals,
            notes: Notes::new(),
        })
    }

    /// Adds a text after its first line, which gives its number of keys. If another text follows, its first line is
    /// read too, and its number of keys is returned.
    fn add_text<R: Source>(
        &mut self,
        lines: &mut LineReader<R>,
        keys: u64,
    ) -> Result<Option<u64>, Fault>
        requires { lines.old.stopped ≡ None }
        ensures ok { IfOk result (GivesText (sum_with keys self.old) lines.old lines.new self.new) }
        ensures err { IfErr result (λ e. IsMemory e
            ⊎ RefusesTexts (sum_with keys self.old) lines.old lines.new e) }
    {
        add_totals(&mut self.totals, &self.layout, lines, keys)?;
        let (notes, next) = read_notes(lines)?;
        self.notes = self.notes.plus(notes);
        Ok(next)
    }

    /// Adds the totals of one or more texts, one directly after another: the first begins with the next line, and the
    /// last ends with the last line. The counts are added key by key, as are the unassigned records and the numbers of
    /// notes, each modulo 2 to the 64; the sum is complete if all texts with such a note are. Each line is tallied as
    /// it is read.
    ///
    /// A text is a line `keys N`; N lines `KEY packets P octets O`, where KEY has the values of the layout's parts in
    /// axis order with single spaces between them, as `Totals::put_report` of fx_collect writes them, or is `all` for a
    /// layout without parts, and the keys strictly ascend; a line `unassigned U`; and notes in this order, each at most
    /// once: `complete yes` or `complete no` (of a replay), `skipped other A malformed B` (of a run over a capture),
    /// `gaps G` and `skipped S` (of a stream, both or neither). Numbers are decimal without leading zeros, below 2 to
    /// the 64. A line feed ends each line.
    ///
    /// Fails with 861, at the first line where something is wrong, if the line isn't as described or is missing, or is
    /// neither a note nor the first line of another text; at line 1 if there are no lines. Fails as the reader of lines
    /// does, at its place (901, 903), and with 900, at no place, if out of memory. After a fault the sum must not be
    /// used.
    pub fn add_texts<R: Source>(&mut self, lines: &mut LineReader<R>) -> Result<(), Fault>
        ensures ok { OnOk result (MayReadTexts (sum_of_texts self.old) lines.old (Ok self.new)) }
        ensures err { IfErr result (λ e. IsMemory e
            ⊎ RefusesTexts (sum_of_texts self.old) lines.old lines.new e) }
    {
        let mut keys = read_number(lines, b"keys")?;
        'texts: loop {
            match self.add_text(lines, keys)? {
                Some(next) => keys = next,
                None => return Ok(()),
            }
        }
    }

    /// Sorts the keys by the first value that differs.
    ///
    /// Fails with 900, at no place, if out of memory; the sum is unchanged then.
    pub fn sort(&mut self) -> Result<(), Fault>
        ensures sorted { OnOk result (KeysAscend self.new.totals.entries) }
        ensures same { OnOk result (IsPermutation self.old.totals.entries self.new.totals.entries) }
        ensures rest { OnOk result (IsSumBut self.old self.new) }
        ensures err { IfErr result (λ e. IsMemory e × (self.new ≡ self.old)) }
    {
        self.totals.sort()
    }

    /// Writes the sum as a text of totals, which [`Sum::add_texts`] reads: the totals, followed by a line for each
    /// note.
    ///
    /// The keys must ascend, as they do after [`Sum::sort`]. Fails with 902, at no place, if a write fails; how much
    /// the sink has taken then is unspecified.
    pub fn put_text<S: Sink>(&self, sink: &mut S) -> Result<(), Fault>
        requires { KeysAscend self.now.totals.entries }
        ensures ok { OnOk result (Writes (S.taken sink.old) (S.taken sink.new)
            (noted_text self.now)) }
        ensures going { OnOk result (KeepsGoing (S.failed sink.old) (S.failed sink.new)) }
        ensures err { IfErr result (IsWriteFault (S.failed sink.new)) }
    {
        self.totals.put_report(sink)?;
        put_notes(sink, &self.notes)
    }
}
