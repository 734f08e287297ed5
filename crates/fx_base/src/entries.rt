//! Entries of a list, by number and by index.
ghost use Rattle.std.specs.Prelude.{◌≡◌, slice_get};
ghost use Rattle.fx_base.specs.Entries.{now_of, entry_numbered};

/// Returns the entry with this 1-based number, if there is one.
pub fn entry_numbered<T>(entries: &[T], number: u64) -> Option<&T>
    ensures { now_of result ≡ entry_numbered entries.now number }
{
    if number == 0 {
        return None;
    }
    entry_at(entries, (number - 1) as usize)
}

/// Returns the entry at this 0-based index, if there is one.
pub fn entry_at<T>(entries: &[T], index: usize) -> Option<&T>
    ensures { now_of result ≡ slice_get entries.now index }
{
    entries.get(index)
}
