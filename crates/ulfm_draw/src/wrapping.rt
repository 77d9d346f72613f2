//! Texts in lines.

use std::alloc::{AllocError, Global};

/// The most letters of a line.
pub(crate) const MOST: usize = 28;

/// The most letters of a word that is written whole.
const LONG: usize = 24;

/// How many letters of a longer word are written.
const FIRST: usize = 16;

/// A text in lines of at most `MOST` letters, parted at spaces.
pub(crate) fn wrapped(alloc: Global, text: &str) -> Result<Vec<String>, AllocError> {
    let mut lines = Vec::new(alloc);
    let mut line = String::new(alloc);
    for word in text.split(' ') {
        if !line.is_empty() && line.len().saturating_add(word.len()) >= MOST {
            lines.push(line)?;
            line = String::new(alloc);
        }
        if !line.is_empty() {
            line.push_str(" ")?;
        }
        line.push_str(word)?;
    }
    lines.push(line)?;
    Ok(lines)
}

/// A text in which the first letters stand for each long word, as a long body is.
pub(crate) fn shortened(alloc: Global, text: &str) -> Result<String, AllocError> {
    let mut short = String::new(alloc);
    for word in text.split(' ') {
        if !short.is_empty() {
            short.push_str(" ")?;
        }
        if word.len() > LONG {
            push_first(&mut short, word)?;
        } else {
            short.push_str(word)?;
        }
    }
    Ok(short)
}

/// Puts the first letters of a word, and dots.
fn push_first(text: &mut String, word: &str) -> Result<(), AllocError> {
    for letter in word.chars().take(FIRST) {
        text.push(letter)?;
    }
    text.push_str("..")
}
