//! Texts of a picture, by lines.

use crate::kind::Kind;
use crate::picture::Picture;
use crate::row::Row;
use crate::saying::{lead, outcome, subject};
use crate::wait::Wait;
use crate::wrapping::{MOST, wrapped};
use std::alloc::{AllocError, Global};

/// How a text is written.
#[derive(Clone, Copy, Debug, PartialEq, Eq)]
pub(crate) enum Face {
    Plain,
    Strong,
    /// In the colour of a kind of items.
    Taken(Kind),
}

/// A text without a break.
#[derive(Drop)]
pub(crate) struct Piece {
    pub(crate) text: String,
    pub(crate) face: Face,
    /// Its line, from 0.
    pub(crate) line: usize,
    /// How many letters stand before it in its line.
    pub(crate) column: usize,
}

impl Piece {
    /// How many letters its line has up to its end.
    pub(crate) fn end(&self) -> usize {
        self.column.saturating_add(self.text.len())
    }
}

/// How many lines these have.
pub(crate) fn lines_in(pieces: &[Piece]) -> usize {
    match pieces.last() {
        Some(piece) => piece.line.saturating_add(1),
        None => 0,
    }
}

/// How many letters the longest of their lines has.
pub(crate) fn widest(pieces: &[Piece]) -> usize {
    let mut most = 0;
    for piece in pieces {
        most = most.max(piece.end());
    }
    most
}

/// Adds the lines of a text below those that are there.
pub(crate) fn add_lines(pieces: &mut Vec<Piece>, text: &str, face: Face) -> Result<(), AllocError> {
    let alloc = *pieces.allocator();
    let mut line = lines_in(pieces.as_slice());
    for text in wrapped(alloc, text)? {
        pieces.push(Piece {
            text,
            face,
            line,
            column: 0,
        })?;
        line = line.saturating_add(1);
    }
    Ok(())
}

/// The texts of a row, and what its step waits for where that was given up.
pub(crate) fn row_pieces(
    alloc: Global,
    picture: &Picture<'_>,
    number: usize,
    row: &Row,
) -> Result<Vec<Piece>, AllocError> {
    let mut pieces = move_pieces(alloc, picture, number, row)?;
    for wait in &picture.waits {
        if picture.is_left_by(wait, row) {
            add_wait(&mut pieces, picture, wait)?;
        }
    }
    Ok(pieces)
}

/// The texts of a move: in one line where they fit, else the answer stands below.
fn move_pieces(
    alloc: Global,
    picture: &Picture<'_>,
    number: usize,
    row: &Row,
) -> Result<Vec<Piece>, AllocError> {
    let mut pieces = Vec::new(alloc);
    let subject = subject(alloc, row)?;
    if let Some(kind) = row.taken {
        add_lines(&mut pieces, subject.as_str(), Face::Taken(kind))?;
        return Ok(pieces);
    }
    let outcome = outcome(alloc, picture, number, row)?;
    let column = subject.len().saturating_add(1);
    if column.saturating_add(outcome.len()) > MOST {
        add_lines(&mut pieces, subject.as_str(), Face::Plain)?;
        add_lines(&mut pieces, outcome.as_str(), Face::Strong)?;
        return Ok(pieces);
    }
    add_lines(&mut pieces, subject.as_str(), Face::Plain)?;
    pieces.push(Piece {
        text: outcome,
        face: Face::Strong,
        line: 0,
        column,
    })?;
    Ok(pieces)
}

/// Adds what is waited for, and who would bring it.
fn add_wait(pieces: &mut Vec<Piece>, picture: &Picture<'_>, wait: &Wait) -> Result<(), AllocError> {
    let lead = lead(picture, wait);
    let need = format!(in *pieces.allocator(); "{lead} {}:", wait.need)?;
    add_lines(pieces, need.as_str(), Face::Strong)?;
    add_lines(pieces, wait.bearer.as_str(), Face::Plain)
}

/// The texts below the line of a rank: what its open step waits for, or how it ended.
pub(crate) fn foot_pieces(
    alloc: Global,
    picture: &Picture<'_>,
    rank: usize,
) -> Result<Vec<Piece>, AllocError> {
    let mut pieces = Vec::new(alloc);
    for wait in &picture.waits {
        if wait.rank == rank && picture.lasts(wait) {
            add_wait(&mut pieces, picture, wait)?;
        }
    }
    if picture.has_stopped(rank) || !pieces.is_empty() {
        return Ok(pieces);
    }
    add_lines(&mut pieces, picture.ending(rank), Face::Plain)?;
    Ok(pieces)
}
