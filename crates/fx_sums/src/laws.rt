//! Laws: no code, but contracts over the definitions.
ghost use Rattle.std.specs.Prelude.{◌≡◌, ◌⊎◌, ◌++◌, ℕ, suc, List, ◌∷◌, ◌<◌, length, Some, Ok, Err, IsPermutation};
ghost use Rattle.std.specs.List.{AllByRecursion};
ghost use Rattle.fx_base.specs.Lines.{text_lines};
ghost use Rattle.fx_base.specs.Refusals.{long_line, totals_form};
ghost use Rattle.fx_base.specs.declared.fault.Fault as faults;
ghost use Rattle.fx_layout.specs.Keys.{Layout, IsLayout};
ghost use Rattle.fx_tables.specs.declared.record.Record.{Record};
ghost use Rattle.fx_collect.specs.Totals.{nothing, with_records};
ghost use Rattle.fx_sums.specs.Sums.{Sum, plus, plus_all, plus_totals, AreSameSums, HaveSameTotals};
ghost use Rattle.fx_sums.specs.SumText.{noted_texts, IsNoted, HasShortLines};
ghost use Rattle.fx_sums.specs.SumReading.{Rest, texts_up_to, sum_of_texts};

/// States that the sum of what is collected apart is what is collected together: at each key the same total, and the
/// same number of unassigned records. It doesn't matter in which order texts are added.
pub fn sums_of_parts()
    ensures together { (layout : Layout) (a b : List Record) → IsLayout layout → HaveSameTotals
        (plus_totals (with_records (nothing layout) a) (with_records (nothing layout) b))
        (with_records (nothing layout) (a ++ b)) }
    ensures exchanged { (s t u : Sum) → AreSameSums (plus (plus s t) u) (plus (plus s u) t) }
    ensures in_any_order { (s : Sum) (ts us : List Sum) → IsPermutation ts us
        → AreSameSums (plus_all s ts) (plus_all s us) }
{}

/// States that texts of totals and notes under the keys of a sum's layout, in ascending order, one after another, are
/// read as these and each added in turn, and that what is read and added are such texts, one or more. No line of them
/// has more than 4,096 bytes. Others are refused for their form, or for a line that is too long. Texts are read one by
/// one to the end: the number of lines, which bounds how many are read, is never reached.
pub fn totals_texts()
    ensures read { (s t : Sum) (ts : List Sum) (n : ℕ) → IsLayout s.totals.layout
        → AllByRecursion (IsNoted s.totals.layout) (t ∷ ts) → HasShortLines (noted_texts (t ∷ ts))
        → sum_of_texts s (n, text_lines (noted_texts (t ∷ ts))) ≡ Ok (plus_all s (t ∷ ts)) }
    ensures only { (s result : Sum) (text : List ℕ) (n : ℕ) → IsLayout s.totals.layout
        → sum_of_texts s (n, text_lines text) ≡ Ok result
        → (t : Sum) × (ts : List Sum) × (text ≡ noted_texts (t ∷ ts))
        × AllByRecursion (IsNoted s.totals.layout) (t ∷ ts) × (result ≡ plus_all s (t ∷ ts)) }
    ensures refused { (s : Sum) (rest : Rest) (e : faults.Fault) → sum_of_texts s rest ≡ Err e
        → (e.number ≡ totals_form) ⊎ (e.number ≡ long_line) }
    ensures bound { (s : Sum) (next : ℕ × Rest) (most : ℕ) → length next.1.1 < most
        → texts_up_to s (Some next) most ≡ texts_up_to s (Some next) (suc most) }
{}
