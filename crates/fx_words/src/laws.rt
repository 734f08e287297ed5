//! A law about the tables of words.
ghost use Rattle.std.specs.Prelude.{◌≡◌, map};
ghost use Rattle.fx_base.specs.Refusals.{refusal_numbers};
ghost use Rattle.fx_words.specs.Table.{table};

/// Proves that the tables have exactly one row for each number of a refusal, in the order of the numbers, and no
/// others.
pub fn each_number_has_its_words()
    ensures { map (λ words. words.number) table ≡ refusal_numbers }
{}
