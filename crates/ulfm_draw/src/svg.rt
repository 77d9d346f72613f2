//! The drawing.

use crate::circles::conclusions;
use crate::ink::{ALARM, DARK};
use crate::layout::{EDGE, HALF_BOX, HEAD, LETTER, LINE, Layout};
use crate::legend::push_legend;
use crate::mark::push_mark;
use crate::path::push_arrow;
use crate::picture::Picture;
use crate::piece::Piece;
use crate::svg_text::{push_piece, push_text};
use std::alloc::{AllocError, Global};

/// The heads of arrows, one for each kind of items, and of what is never taken.
const HEADS: &str = "<defs>
<marker id=\"message\" viewBox=\"0 0 10 10\" refX=\"9\" refY=\"5\" markerWidth=\"10\" markerHeight=\"10\" markerUnits=\"userSpaceOnUse\" orient=\"auto\"><path d=\"M0 0L10 5L0 10z\" fill=\"#1a4f9c\"/></marker>
<marker id=\"notice\" viewBox=\"0 0 10 10\" refX=\"8\" refY=\"5\" markerWidth=\"10\" markerHeight=\"10\" markerUnits=\"userSpaceOnUse\" orient=\"auto\"><path d=\"M1 1L9 9M9 1L1 9\" fill=\"none\" stroke=\"#a31621\" stroke-width=\"2\"/></marker>
<marker id=\"revocation\" viewBox=\"0 0 10 10\" refX=\"9\" refY=\"5\" markerWidth=\"11\" markerHeight=\"11\" markerUnits=\"userSpaceOnUse\" orient=\"auto\"><path d=\"M1 1L9 5L1 9\" fill=\"none\" stroke=\"#8a5000\" stroke-width=\"2\"/></marker>
<marker id=\"shrink\" viewBox=\"0 0 12 12\" refX=\"11\" refY=\"6\" markerWidth=\"12\" markerHeight=\"12\" markerUnits=\"userSpaceOnUse\" orient=\"auto\"><path d=\"M1 1L11 6L1 11z\" fill=\"#fff\" stroke=\"#1f6f3a\" stroke-width=\"1.5\"/></marker>
<marker id=\"agreement\" viewBox=\"0 0 12 12\" refX=\"11\" refY=\"6\" markerWidth=\"12\" markerHeight=\"12\" markerUnits=\"userSpaceOnUse\" orient=\"auto\"><circle cx=\"6\" cy=\"6\" r=\"4.5\" fill=\"#fff\" stroke=\"#5b3a9c\" stroke-width=\"1.5\"/></marker>
<marker id=\"lost\" viewBox=\"0 0 12 12\" refX=\"1\" refY=\"6\" markerWidth=\"12\" markerHeight=\"12\" markerUnits=\"userSpaceOnUse\" orient=\"auto\"><path d=\"M2 1V11M6 2V10M10 4V8\" fill=\"none\" stroke=\"#1b1b1b\" stroke-width=\"1.5\"/></marker>
</defs>
";

/// A picture as a drawing. It brings its own ground, so that it reads on light and on dark pages.
pub(crate) fn drawing(alloc: Global, picture: &Picture<'_>) -> Result<String, AllocError> {
    let layout = Layout::of(alloc, picture)?;
    let mut body = String::new(alloc);
    push_lines(&mut body, picture, &layout)?;
    push_bars(&mut body, picture, &layout)?;
    for (number, arrow) in picture.arrows.iter().enumerate() {
        push_arrow(&mut body, picture, &layout, number, arrow)?;
    }
    push_rows(&mut body, picture, &layout)?;
    push_feet(&mut body, picture, &layout)?;
    let end = push_conclusions(&mut body, picture, &layout)?;
    let (width, end) = push_legend(&mut body, picture, layout.width, end)?;
    whole(alloc, width, end.saturating_add(16), body.as_str())
}

/// The body of a drawing in its frame.
fn whole(alloc: Global, width: usize, height: usize, body: &str) -> Result<String, AllocError> {
    let mut out = String::new(alloc);
    write!(
        out,
        "<svg xmlns=\"http://www.w3.org/2000/svg\" width=\"{width}\" height=\"{height}\" viewBox=\"0 0 {width} {height}\" "
    )?;
    out.push_str(
        "font-family=\"ui-monospace, 'DejaVu Sans Mono', Menlo, Consolas, monospace\" font-size=\"13\">\n",
    )?;
    out.push_str(HEADS)?;
    write!(
        out,
        "<rect width=\"{width}\" height=\"{height}\" rx=\"6\" fill=\"#fff\"/>\n"
    )?;
    out.push_str(body)?;
    out.push_str("</svg>\n")?;
    Ok(out)
}

/// Draws the line of each rank, from its box down to its end.
fn push_lines(out: &mut String, picture: &Picture<'_>, layout: &Layout) -> Result<(), AllocError> {
    for rank in 0..picture.ranks() {
        let x = layout.line(rank);
        let end = line_end(picture, layout, rank);
        let left = x.saturating_sub(HALF_BOX);
        write!(
            out,
            "<path d=\"M{x} {HEAD}V{end}\" stroke=\"#777\" stroke-width=\"1.5\"/>\n"
        )?;
        write!(
            out,
            "<rect x=\"{left}\" y=\"10\" width=\"68\" height=\"24\" rx=\"3\" fill=\"#eef1f5\" stroke=\"#555\"/>\n"
        )?;
        let name = format!(in *out.allocator(); "rank {rank}")?;
        push_text(
            out,
            x.saturating_sub(24),
            27,
            name.as_str(),
            DARK,
            " font-weight=\"bold\"",
        )?;
        if picture.is_through(rank) {
            let left = x.saturating_sub(8);
            write!(
                out,
                "<path d=\"M{left} {end}h16\" stroke=\"{DARK}\" stroke-width=\"3\"/>\n"
            )?;
        }
    }
    Ok(())
}

/// How far down the line of a rank goes: to its stop, else to the end.
fn line_end(picture: &Picture<'_>, layout: &Layout, rank: usize) -> usize {
    for (number, row) in picture.rows.iter().enumerate() {
        if row.rank == rank && row.is_stop() {
            return layout.mark(number);
        }
    }
    layout.end
}

/// Draws a bar for each step that stands open, down to its answer, or past the end.
fn push_bars(out: &mut String, picture: &Picture<'_>, layout: &Layout) -> Result<(), AllocError> {
    for (number, row) in picture.rows.iter().enumerate() {
        if row.is_opening() {
            let left = layout.line(row.rank).saturating_sub(4);
            let top = layout.mark(number);
            match picture.answer_of(number) {
                Some(answer) => push_bar(out, left, top, layout.mark(answer))?,
                None => push_open_bar(out, left, top, layout.end)?,
            }
        }
    }
    Ok(())
}

/// Draws a bar.
fn push_bar(out: &mut String, left: usize, top: usize, end: usize) -> Result<(), AllocError> {
    let height = end.saturating_sub(top);
    write!(
        out,
        "<rect x=\"{left}\" y=\"{top}\" width=\"8\" height=\"{height}\" fill=\"#fff\" stroke=\"{DARK}\"/>\n"
    )
}

/// Draws a bar that goes on past the end.
fn push_open_bar(out: &mut String, left: usize, top: usize, end: usize) -> Result<(), AllocError> {
    let right = left.saturating_add(8);
    let west = left.saturating_sub(3);
    let below = end.saturating_add(6);
    let neck = end.saturating_add(2);
    write!(
        out,
        "<path d=\"M{left} {below}V{top}H{right}V{below}\" fill=\"#fff\" stroke=\"{DARK}\"/>\n"
    )?;
    write!(
        out,
        "<path d=\"M{west} {neck}l7 8l7 -8\" fill=\"none\" stroke=\"{DARK}\" stroke-width=\"1.5\"/>\n"
    )
}

/// Draws the mark and the texts of each row.
fn push_rows(out: &mut String, picture: &Picture<'_>, layout: &Layout) -> Result<(), AllocError> {
    for (number, row) in picture.rows.iter().enumerate() {
        let y = layout.mark(number);
        if let Some(mark) = row.mark {
            push_mark(out, mark, layout.line(row.rank), y)?;
        }
        if let Some(pieces) = layout.rows.get(number) {
            push_pieces(
                out,
                pieces.as_slice(),
                layout.text(row.rank),
                y.saturating_add(5),
            )?;
        }
    }
    Ok(())
}

/// Puts texts, the first line of them at a height.
fn push_pieces(out: &mut String, pieces: &[Piece], x: usize, y: usize) -> Result<(), AllocError> {
    for piece in pieces {
        let x = x.saturating_add(LETTER.saturating_mul(piece.column));
        let y = y.saturating_add(LINE.saturating_mul(piece.line));
        push_piece(out, piece, x, y)?;
    }
    Ok(())
}

/// Puts the texts below the line of each rank.
fn push_feet(out: &mut String, picture: &Picture<'_>, layout: &Layout) -> Result<(), AllocError> {
    for rank in 0..picture.ranks() {
        if let Some(pieces) = layout.feet.get(rank) {
            push_pieces(
                out,
                pieces.as_slice(),
                layout.text(rank),
                layout.end.saturating_add(6),
            )?;
        }
    }
    Ok(())
}

/// Puts the note, if there is one, and what the waits come to. Answers where the next text may stand.
fn push_conclusions(
    out: &mut String,
    picture: &Picture<'_>,
    layout: &Layout,
) -> Result<usize, AllocError> {
    let alloc = *out.allocator();
    let mut y = layout.foot;
    if !picture.note.is_empty() {
        push_text(out, EDGE, y, picture.note, DARK, " font-weight=\"bold\"")?;
        y = y.saturating_add(LINE);
    }
    for conclusion in conclusions(alloc, picture)? {
        push_text(
            out,
            EDGE,
            y,
            conclusion.as_str(),
            ALARM,
            " font-weight=\"bold\"",
        )?;
        y = y.saturating_add(LINE);
    }
    Ok(y.saturating_add(6))
}
