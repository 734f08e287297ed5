//! The words of a line.
use fx_elements::{Axis, Words, is_word};

/// Returns the source and the number after the word `use`, if nothing follows them.
fn read(line: &[u8]) -> Option<(u128, u64)> {
    let (word, words) = Words::new(line).word()?;
    let (source, words) = words.value(Axis::Source)?;
    let (number, words) = words.number()?;
    if is_word(word, b"use") && words.is_empty() {
        Some((source, number))
    } else {
        None
    }
}

#[test]
fn reads_words_between_spaces(rt: HostRuntime) {
    assert!(rt;
        (read(b"use 10.0.0.1 18446744073709551615")
            == Some((0x0a00_0001, 18_446_744_073_709_551_615)))
            & read(b"use 10.0.0.1 7 8").is_none()
            & read(b"use 10.0.0.1  7").is_none()
    );
}
