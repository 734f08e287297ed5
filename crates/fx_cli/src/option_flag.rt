//! Options that every command takes: `--explain`, `--format json` and `--progress`.
ghost use Rattle.std.specs.Prelude.{◌≡◌, ◌<◌, IfSome, length, string_bytes, true};
ghost use Rattle.fx_cli.specs.OptionFlag.{IsAt, IsFlagPlace, RemovesBoth, RemovesFlag, RemovesFormat, RemovesOption};

/// Returns the place of this option among the arguments: after the first, which is the program's own name, and before
/// any `--`.
pub fn place_of_flag(words: &[String], flag: &str) -> Option<usize>
    ensures place { IsFlagPlace flag.now string_bytes words.now result }
    ensures bound { IfSome result (λ index. index < length words.now) }
{
    for index in 1..words.len() {
        let word = words[index].as_str();
        if word == "--" {
            return None;
        }
        if word == flag {
            return Some(index);
        }
    }
    None
}

/// Removes an option that every command takes from the arguments. Returns whether it was there.
pub(crate) fn take_flag(arguments: &mut Vec<String>, flag: &str) -> bool
    ensures { RemovesFlag flag.now string_bytes arguments.old.items arguments.new.items result }
{
    match place_of_flag(arguments.as_slice(), flag) {
        Some(index) => {
            arguments.remove(index);
            true
        }
        None => false,
    }
}

/// Returns whether the argument at this index is this text.
fn is_at(words: &[String], index: usize, text: &str) -> bool
    ensures at { IsAt text.now string_bytes words.now index result }
    ensures bound { result ≡ true → index < length words.now }
{
    if index >= words.len() {
        return false;
    }
    words[index].as_str() == text
}

/// Removes the arguments at this index and after it, if the second has this value. Returns whether it has.
fn take_both(arguments: &mut Vec<String>, index: usize, value: &str) -> bool
    requires { index < length arguments.old.items }
    ensures { RemovesBoth value.now string_bytes index arguments.old.items arguments.new.items
        result }
{
    let next = index + 1;
    let is_value = is_at(arguments.as_slice(), next, value);
    if is_value {
        arguments.remove(next);
        arguments.remove(index);
    }
    is_value
}

/// Removes an option and its value, the argument after it, if it has this value. Returns whether it was there with it.
pub(crate) fn take_option(arguments: &mut Vec<String>, flag: &str, value: &str) -> bool
    ensures { RemovesOption flag.now value.now string_bytes arguments.old.items
        arguments.new.items result }
{
    match place_of_flag(arguments.as_slice(), flag) {
        Some(index) => take_both(arguments, index, value),
        None => false,
    }
}

/// Removes `--format json` or `--format=json` from the arguments. Returns whether one of them was there.
pub(crate) fn take_format(arguments: &mut Vec<String>) -> bool
    ensures { RemovesFormat string_bytes arguments.old.items arguments.new.items result }
{
    let apart = take_option(arguments, "--format", "json");
    let joined = take_flag(arguments, "--format=json");
    apart | joined
}
