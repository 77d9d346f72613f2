//! Texts of a drawing, each with the width that it has by its letters.

use crate::escaped::push_escaped;
use crate::ink::{DARK, colour};
use crate::layout::LETTER;
use crate::piece::{Face, Piece};
use std::alloc::AllocError;

/// Puts a text at a place: the left end of its ground line.
pub(crate) fn push_text(
    out: &mut String,
    x: usize,
    y: usize,
    text: &str,
    fill: &str,
    more: &str,
) -> Result<(), AllocError> {
    let width = text.len().saturating_mul(LETTER);
    write!(
        out,
        "<text x=\"{x}\" y=\"{y}\" textLength=\"{width}\" fill=\"{fill}\"{more}>"
    )?;
    push_escaped(out, text)?;
    out.push_str("</text>\n")
}

/// Puts a text in its face.
pub(crate) fn push_piece(
    out: &mut String,
    piece: &Piece,
    x: usize,
    y: usize,
) -> Result<(), AllocError> {
    let text = piece.text.as_str();
    match piece.face {
        Face::Plain => push_text(out, x, y, text, DARK, ""),
        Face::Strong => push_text(out, x, y, text, DARK, " font-weight=\"bold\""),
        Face::Taken(kind) => push_text(out, x, y, text, colour(kind), " font-style=\"italic\""),
    }
}
