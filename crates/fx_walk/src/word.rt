//! Values that are written as one of a few words.
ghost use Rattle.std.specs.Prelude.{◌≡◌, ℕ, List, Option};
ghost use Rattle.serde_json.specs.Find.{get};
ghost use Rattle.serde_json.specs.View.{view};
ghost use Rattle.fx_walk.specs.Pointer.{pointer};
ghost use Rattle.fx_walk.specs.Scalars.{meaning_of_word, word_faults, word_given};
ghost use Rattle.fx_walk.specs.Walk.{Reads, optional};

use crate::path::{DocumentPath, refusal};
use fx_base::{Fault, refusals};
use serde_json::Value;
use std::alloc::Global;

/// A type whose values are written as one of a few words.
pub trait Word: Drop {
    /// The meaning of a text.
    ghost meaning_of: { List ℕ → Option Self };

    /// The meaning if no word is given.
    ghost meaning_unsaid: { Self };

    /// Returns the meaning of the text.
    fn meaning_of(text: &str) -> Option<Self>
        ensures { result ≡ meaning_of text.now };

    /// Returns the meaning if no word is given.
    fn meaning_unsaid() -> Self
        ensures { result ≡ meaning_unsaid };
}

/// Returns the meaning of a word. Fails with 104 if the value is no text, and with 105 if it is another text.
fn read_word<T: Word>(alloc: Global, path: &DocumentPath<'_>, value: &Value) -> Result<T, Fault>
    ensures { let meaning = meaning_of_word T.meaning_of T.meaning_unsaid (view value.now) in
        Reads (word_faults T.meaning_of (pointer path.now) (view value.now)) meaning result }
{
    let Some(text) = value.as_str() else {
        return Err(refusal(alloc, refusals::WRONG_KIND, path));
    };
    match T::meaning_of(text) {
        Some(meaning) => Ok(meaning),
        None => Err(refusal(alloc, refusals::BAD_VALUE, path)),
    }
}

/// Reads an optional member of an object that is a word.
pub fn word_member<T: Word>(
    alloc: Global,
    path: &DocumentPath<'_>,
    object: &Value,
    name: &str,
) -> Result<T, Fault>
    ensures { let faults = (optional name.now (word_faults T.meaning_of)).faults in
        let meaning = word_given T.meaning_of T.meaning_unsaid (get name.now (view object.now)) in
        Reads (faults (pointer path.now) (view object.now)) meaning result }
{
    match object.get(name) {
        Some(value) => read_word(alloc, &DocumentPath::Member(path, name), value),
        None => Ok(T::meaning_unsaid()),
    }
}
