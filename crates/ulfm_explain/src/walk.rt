//! A walk over the tokens of a text that is a TOML document.

use std::alloc::Global;
use toml_parser::text::{skip_blank, skip_ws};
use toml_parser::{ParseError, quoted, starts_string};

/// What follows a prefix, or the text itself where it begins in another way.
pub fn after<'a>(text: &'a str, prefix: &str) -> &'a str {
    text.strip_prefix(prefix).unwrap_or(text)
}

/// What follows the first character.
fn after_one(text: &str) -> &str {
    let mut letters = text.chars();
    letters.next();
    letters.as_str()
}

/// Whether a character ends a value that has neither quotes nor brackets.
fn is_end(letter: char) -> bool {
    matches!(letter, ',' | ']' | '}' | '#' | '\n' | '\r')
}

/// What follows a value that has neither quotes nor brackets.
fn after_word(text: &str) -> &str {
    match text.find(is_end) {
        Some(at) => text.get(at..).unwrap_or(""),
        None => "",
    }
}

/// What follows the value at the front of a text.
pub fn after_value(alloc: Global, text: &str) -> Result<&str, ParseError> {
    if starts_string(text) {
        return Ok(quoted(alloc, text)?.1);
    }
    if text.starts_with('[') || text.starts_with('{') {
        return after_brackets(alloc, text);
    }
    Ok(after_word(text))
}

/// What follows an array or an inline table, with all that stands in it.
fn after_brackets(alloc: Global, text: &str) -> Result<&str, ParseError> {
    let mut rest = text;
    let mut depth = 0usize;
    for _ in 0..text.len() {
        rest = skip_blank(rest, true);
        if starts_string(rest) {
            rest = quoted(alloc, rest)?.1;
            continue;
        }
        if rest.starts_with('[') || rest.starts_with('{') {
            depth = depth.saturating_add(1);
        }
        if rest.starts_with(']') || rest.starts_with('}') {
            depth = depth.saturating_sub(1);
        }
        rest = after_one(rest);
        if depth == 0 {
            return Ok(rest);
        }
    }
    Ok(rest)
}

/// What follows `=` and the spaces beside it.
pub fn after_equals(text: &str) -> &str {
    skip_ws(after(skip_ws(text), "="))
}
