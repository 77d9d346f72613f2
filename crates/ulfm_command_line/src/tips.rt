//! Clap's tips, but for those that mislead.

use std::alloc::{AllocError, Global};

/// How the tip begins that takes an unknown option for a file's name.
const MISLEADING: &str = "\n\n  tip: to pass '";

/// How a file's name ends in that tip.
const OF_FILE: &str = ".toml'";

/// What is said of words that can't be followed, without the tip to give an unknown option as a file, where it is no file's name.
pub(crate) fn tipped(alloc: Global, text: &str) -> Result<String, AllocError> {
    match text.split_once(MISLEADING) {
        Some((before, rest)) => without_tip(alloc, text, before, rest),
        None => String::from_str(alloc, text),
    }
}

/// What is said without the tip, by what stands before the name in it, and what stands from it on.
fn without_tip(alloc: Global, text: &str, before: &str, rest: &str) -> Result<String, AllocError> {
    match rest.split_once('\n') {
        Some((tip, behind)) if !tip.ends_with(OF_FILE) => {
            format!(in alloc; "{before}\n{behind}")
        }
        _ => String::from_str(alloc, text),
    }
}
