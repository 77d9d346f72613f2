//! A picture as a Mermaid sequence diagram.

use crate::circles::conclusions;
use crate::kind::Kind;
use crate::picture::Picture;
use crate::row::Row;
use crate::saying::{lead, outcome, subject};
use std::alloc::{AllocError, Global};

/// A picture as a Mermaid sequence diagram. An item is drawn where it was taken: Mermaid's arrows have no length.
pub(crate) fn diagram(alloc: Global, picture: &Picture<'_>) -> Result<String, AllocError> {
    let mut out = String::from_str(alloc, "sequenceDiagram\n")?;
    for rank in 0..picture.ranks() {
        write!(out, "    participant r{rank} as rank {rank}\n")?;
    }
    if !picture.note.is_empty() {
        push_over_all(&mut out, picture, picture.note)?;
    }
    for (number, row) in picture.rows.iter().enumerate() {
        push_row(&mut out, picture, number, row)?;
    }
    for rank in 0..picture.ranks() {
        push_end(&mut out, picture, rank)?;
    }
    push_conclusions(&mut out, picture)?;
    Ok(out)
}

/// Puts the lines of a row.
fn push_row(
    out: &mut String,
    picture: &Picture<'_>,
    number: usize,
    row: &Row,
) -> Result<(), AllocError> {
    let alloc = *out.allocator();
    let rank = row.rank;
    let subject = escaped(alloc, subject(alloc, row)?.as_str())?;
    if let Some(kind) = row.taken {
        let from = picture.sender(number).unwrap_or(0);
        let arrow = arrow_of(kind);
        return write!(out, "    r{from}{arrow}r{rank}: {subject}\n");
    }
    push_call(out, picture, number, row, subject.as_str())
}

/// Puts the lines of a row that tells of a call.
fn push_call(
    out: &mut String,
    picture: &Picture<'_>,
    number: usize,
    row: &Row,
    subject: &str,
) -> Result<(), AllocError> {
    let rank = row.rank;
    if row.is_opening() {
        write!(out, "    activate r{rank}\n")?;
    }
    push_note(out, picture, number, row, subject)?;
    push_left(out, picture, row)?;
    out.push_str("\n")?;
    if picture.was_open(number) {
        write!(out, "    deactivate r{rank}\n")?;
    }
    push_lost(out, picture, number)
}

/// Puts the beginning of a note: what was called, and what came of it.
fn push_note(
    out: &mut String,
    picture: &Picture<'_>,
    number: usize,
    row: &Row,
    subject: &str,
) -> Result<(), AllocError> {
    let alloc = *out.allocator();
    let outcome = escaped(alloc, outcome(alloc, picture, number, row)?.as_str())?;
    write!(
        out,
        "    Note right of r{}: {subject}<br/>{outcome}",
        row.rank
    )
}

/// Puts what the step that a row gave up waited for.
fn push_left(out: &mut String, picture: &Picture<'_>, row: &Row) -> Result<(), AllocError> {
    for wait in &picture.waits {
        if picture.is_left_by(wait, row) {
            let lead = lead(picture, wait);
            write!(out, "<br/>{lead} {}:<br/>{}", wait.need, wait.bearer)?;
        }
    }
    Ok(())
}

/// A text in which codes stand for the signs that Mermaid takes for its own: the beginning of a comment, the end of a line, and markup.
fn escaped(alloc: Global, text: &str) -> Result<String, AllocError> {
    let mut out = String::new(alloc);
    for letter in text.chars() {
        match letter {
            '#' => out.push_str("#35;")?,
            ';' => out.push_str("#59;")?,
            '<' => out.push_str("#lt;")?,
            '>' => out.push_str("#gt;")?,
            '&' => out.push_str("#amp;")?,
            _ => out.push(letter)?,
        }
    }
    Ok(out)
}

/// Puts the messages of a row that nobody took.
fn push_lost(out: &mut String, picture: &Picture<'_>, number: usize) -> Result<(), AllocError> {
    for arrow in &picture.arrows {
        if arrow.start == number && picture.hangs(arrow) {
            let (from, to) = (arrow.from, arrow.to);
            write!(out, "    r{from}-xr{to}: never taken\n")?;
        }
    }
    Ok(())
}

/// The arrow of a kind of items.
fn arrow_of(kind: Kind) -> &'static str {
    match kind {
        Kind::Message => "->>",
        Kind::Notice => "--x",
        Kind::Revocation => "--)",
        Kind::Shrink | Kind::Agreement => "-->>",
    }
}

/// Puts what the open step of a rank waits for.
fn push_end(out: &mut String, picture: &Picture<'_>, rank: usize) -> Result<(), AllocError> {
    for wait in &picture.waits {
        if wait.rank == rank && picture.lasts(wait) {
            let lead = lead(picture, wait);
            let (need, bearer) = (wait.need.as_str(), wait.bearer.as_str());
            write!(
                out,
                "    Note right of r{rank}: {lead} {need}:<br/>{bearer}\n"
            )?;
        }
    }
    Ok(())
}

/// Puts what the waits come to, across all ranks.
fn push_conclusions(out: &mut String, picture: &Picture<'_>) -> Result<(), AllocError> {
    let alloc = *out.allocator();
    for conclusion in conclusions(alloc, picture)? {
        push_over_all(out, picture, conclusion.as_str())?;
    }
    Ok(())
}

/// Puts a text across all ranks.
fn push_over_all(out: &mut String, picture: &Picture<'_>, text: &str) -> Result<(), AllocError> {
    let last = picture.ranks().saturating_sub(1);
    write!(out, "    Note over r0,r{last}: {text}\n")
}
