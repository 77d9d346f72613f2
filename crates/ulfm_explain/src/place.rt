//! A place in a text.

/// A line and a column, both from 1. A column counts characters.
#[derive(Clone, Copy, Debug, PartialEq, Eq)]
pub struct Place {
    pub line: usize,
    pub column: usize,
}

/// The place after these bytes.
pub fn place_after(before: &[u8]) -> Place {
    let mut line = 1usize;
    let mut column = 1usize;
    for byte in before {
        if *byte == b'\n' {
            line = line.saturating_add(1);
            column = 1;
        } else if *byte & 0xC0 != 0x80 {
            column = column.saturating_add(1);
        }
    }
    Place { line, column }
}

/// The place of the byte with this number in a text.
pub fn place_at(text: &[u8], at: usize) -> Place {
    match text.get(..at) {
        Some(before) => place_after(before),
        None => place_after(text),
    }
}
