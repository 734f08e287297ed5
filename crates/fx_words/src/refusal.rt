//! A refusal in words.
ghost use Rattle.std.specs.Prelude.{◌≡◌};
ghost use Rattle.fx_words.specs.Words.{words_at, words_of};

/// A row of a table: a number, what is wrong, the usual causes, what to do, and where to read more.
pub type Row = (u16, &'static str, &'static str, &'static str, &'static str);

/// A refusal in words. Each text is plain ASCII without line feeds.
#[derive(Clone, Copy, Debug, PartialEq, Eq)]
pub struct Refusal {
    /// Its number.
    pub number: u16,
    /// What is wrong, as a sentence.
    pub wrong: &'static str,
    /// The usual causes, as a list.
    pub cause: &'static str,
    /// What to do.
    pub cure: &'static str,
    /// Where to read more: a section of a standard or a part of `docs/FORMATS.md` (FORMATS), or an empty text.
    pub section: &'static str,
}

/// Returns the refusal in a row.
pub(crate) fn refusal_in(row: &Row) -> Refusal
    ensures { words_of result ≡ words_at row.now.0 row.now.1.now row.now.2.now
        row.now.3.now row.now.4.now }
{
    let (number, wrong, cause, cure, section) = *row;
    Refusal {
        number,
        wrong,
        cause,
        cure,
        section,
    }
}
