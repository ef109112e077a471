//! Texts of cases: escapes, printed lines, words, and numbers.

use crate::faults::Fault;
use std::alloc::{AllocError, Global};

/// Returns the text with a line feed in place of each `\n`.
pub fn unescaped(alloc: Global, text: &str) -> Result<String, AllocError> {
    text.replace(alloc, "\\n", "\n")
}

/// Returns the text with `\n` in place of each line feed.
pub fn escaped(alloc: Global, text: &str) -> Result<String, AllocError> {
    text.replace(alloc, "\n", "\\n")
}

/// Appends each line of a text, after a sign. An empty text has no lines.
pub fn push_lines(shown: &mut String, sign: char, text: &str) -> Result<(), AllocError> {
    for line in text.split_terminator('\n') {
        write!(shown, "{sign}{line}\n")?;
    }
    Ok(())
}

/// Returns the lines of a text, each after `|`.
pub fn printed(alloc: Global, text: &str) -> Result<String, Fault> {
    let mut shown = String::new(alloc);
    push_lines(&mut shown, '|', text)?;
    Ok(shown)
}

/// Splits a text at its first space: the first word, and the text after the space.
pub fn split_word(text: &str) -> (&str, &str) {
    text.split_once(' ').unwrap_or((text, ""))
}

/// Parses numbers between white space. `N*M` is the number `M` `N` times.
pub fn numbers(alloc: Global, text: &str) -> Result<Vec<usize>, Fault> {
    let mut all = Vec::new(alloc);
    for word in text.split_whitespace() {
        let (count, word) = word.split_once('*').unwrap_or(("1", word));
        let value = word.parse::<usize>()?;
        for _ in 0..count.parse::<usize>()? {
            all.push(value)?;
        }
    }
    Ok(all)
}
