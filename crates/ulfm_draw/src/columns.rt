//! A picture as columns of text.

use crate::circles::conclusions;
use crate::picture::Picture;
use crate::row::Row;
use crate::saying::{outcome, subject};
use std::alloc::{AllocError, Global};

/// The fewest letters of a column.
const FEWEST: usize = 8;

/// A picture as text: a column for each rank, and a row for each move.
pub(crate) fn table(alloc: Global, picture: &Picture<'_>) -> Result<String, AllocError> {
    let cells = cells_of(alloc, picture)?;
    let widths = widths_of(alloc, picture, cells.as_slice())?;
    let mut out = String::new(alloc);
    push_table(&mut out, picture, cells.as_slice(), widths.as_slice())?;
    Ok(out)
}

/// The texts of all rows.
fn cells_of(alloc: Global, picture: &Picture<'_>) -> Result<Vec<String>, AllocError> {
    let mut cells = Vec::new(alloc);
    for (number, row) in picture.rows.iter().enumerate() {
        cells.push(cell(alloc, picture, number, row)?)?;
    }
    Ok(cells)
}

/// Puts the columns of these widths, the texts of the rows in them, and what stands below.
fn push_table(
    out: &mut String,
    picture: &Picture<'_>,
    cells: &[String],
    widths: &[usize],
) -> Result<(), AllocError> {
    push_head(out, picture, widths)?;
    for (row, cell) in picture.rows.iter().zip(cells.iter()) {
        push_line(out, widths, row.rank, cell.as_str())?;
    }
    push_ends(out, picture)?;
    push_conclusions(out, picture)
}

/// Puts what is noted of the whole, and the ranks' names above their columns.
fn push_head(out: &mut String, picture: &Picture<'_>, widths: &[usize]) -> Result<(), AllocError> {
    if !picture.note.is_empty() {
        write!(out, "{}\n", picture.note)?;
    }
    for rank in 0..picture.ranks() {
        let name = format!(in *out.allocator(); "rank {rank}")?;
        push_cell(out, widths, rank, name.as_str())?;
    }
    out.push_str("\n")
}

/// The text of a row.
fn cell(
    alloc: Global,
    picture: &Picture<'_>,
    number: usize,
    row: &Row,
) -> Result<String, AllocError> {
    let subject = subject(alloc, row)?;
    if !row.is_taking() {
        let outcome = outcome(alloc, picture, number, row)?;
        return format!(in alloc; "{subject}: {outcome}");
    }
    match picture.sender(number) {
        Some(from) => format!(in alloc; "<- {from} {subject}"),
        None => Ok(subject),
    }
}

/// How many letters each column has.
fn widths_of(
    alloc: Global,
    picture: &Picture<'_>,
    cells: &[String],
) -> Result<Vec<usize>, AllocError> {
    let mut widths = Vec::new(alloc);
    for rank in 0..picture.ranks() {
        let mut width = FEWEST;
        for (row, cell) in picture.rows.iter().zip(cells.iter()) {
            if row.rank == rank {
                width = width.max(cell.len());
            }
        }
        widths.push(width)?;
    }
    Ok(widths)
}

/// Puts a line with the text of one rank, and the lines of the others.
fn push_line(
    out: &mut String,
    widths: &[usize],
    rank: usize,
    text: &str,
) -> Result<(), AllocError> {
    for column in 0..widths.len() {
        push_cell(out, widths, column, if column == rank { text } else { "|" })?;
    }
    out.push_str("\n")
}

/// Puts the text of a column, behind those before it.
fn push_cell(
    out: &mut String,
    widths: &[usize],
    column: usize,
    text: &str,
) -> Result<(), AllocError> {
    out.push_str(text)?;
    if column.saturating_add(1) >= widths.len() {
        return Ok(());
    }
    let width = widths.get(column).copied().unwrap_or(0);
    for _ in text.len()..width {
        out.push_str(" ")?;
    }
    out.push_str("  ")
}

/// Puts how each rank ended, and what steps wait for that stand open.
fn push_ends(out: &mut String, picture: &Picture<'_>) -> Result<(), AllocError> {
    for rank in 0..picture.ranks() {
        let ending = picture.ending(rank);
        write!(out, "rank {rank}: {ending}\n")?;
    }
    for wait in &picture.waits {
        let (rank, step, need) = (wait.rank, wait.step, wait.need.as_str());
        write!(out, "{rank}.{step} waits for {need}: {}\n", wait.bearer)?;
    }
    Ok(())
}

/// Puts what the waits come to.
fn push_conclusions(out: &mut String, picture: &Picture<'_>) -> Result<(), AllocError> {
    let alloc = *out.allocator();
    for conclusion in conclusions(alloc, picture)? {
        write!(out, "{conclusion}\n")?;
    }
    Ok(())
}
