//! Arrows of a drawing.

use crate::arrow::Arrow;
use crate::ink::{colour, dashes, head};
use crate::kind::{Kind, kind_of};
use crate::layout::Layout;
use crate::picture::Picture;
use std::alloc::{AllocError, Global};

/// So far beside a place, to the right or to the left.
fn beside(x: usize, by: usize, is_rightward: bool) -> usize {
    if is_rightward {
        x.saturating_add(by)
    } else {
        x.saturating_sub(by)
    }
}

/// Draws a line of a kind of items along a path, with the head of a name.
pub(crate) fn push_path(
    out: &mut String,
    path: &str,
    kind: Kind,
    head: &str,
) -> Result<(), AllocError> {
    let colour = colour(kind);
    let dashes = dashes(kind);
    write!(
        out,
        "<path d=\"{path}\" fill=\"none\" stroke=\"{colour}\" stroke-width=\"1.5\" stroke-dasharray=\"{dashes}\" marker-end=\"url(#{head})\"/>\n"
    )
}

/// Draws an item: from the move that it comes from, down beside the line of its rank, and over to where it was taken. What hangs in the air
/// ends beside that line.
pub(crate) fn push_arrow(
    out: &mut String,
    picture: &Picture<'_>,
    layout: &Layout,
    number: usize,
    arrow: &Arrow,
) -> Result<(), AllocError> {
    let alloc = *out.allocator();
    let kind = kind_of(arrow.cargo);
    if let Some(end) = arrow.end {
        let top = beginning(picture, layout, arrow);
        let path = path_to(alloc, layout, number, arrow, top, end)?;
        return push_path(out, path.as_str(), kind, head(kind));
    }
    if picture.hangs(arrow) {
        let path = stub(alloc, layout, arrow)?;
        return push_path(out, path.as_str(), kind, "lost");
    }
    Ok(())
}

/// How far down an item begins: at the mark of its row, or below what was taken there and is passed on.
fn beginning(picture: &Picture<'_>, layout: &Layout, arrow: &Arrow) -> usize {
    match picture.rows.get(arrow.start) {
        Some(row) if row.is_taking() => layout.floor(arrow.start).saturating_add(7),
        _ => layout.mark(arrow.start),
    }
}

/// The path of an item from a height to the row in which it was taken.
fn path_to(
    alloc: Global,
    layout: &Layout,
    number: usize,
    arrow: &Arrow,
    top: usize,
    end: usize,
) -> Result<String, AllocError> {
    let is_right = arrow.is_rightward();
    let line = layout.line(arrow.from);
    let floor = layout.floor(end);
    let from = beside(line, 4, is_right);
    // An item of a rank to itself comes back to its own line.
    let to = beside(layout.line(arrow.to), 6, arrow.from > arrow.to);
    let to = if arrow.from == arrow.to {
        line.saturating_sub(6)
    } else {
        to
    };
    if arrow.start == end {
        return format!(in alloc; "M{from} {floor}H{to}");
    }
    let lane = beside(line, layout.lane(number), is_right);
    let near = beside(lane, 3, !is_right);
    let (off, back) = if arrow.from == arrow.to {
        (near, near)
    } else {
        (near, beside(lane, 3, is_right))
    };
    let under = top.saturating_add(3);
    let over = floor.saturating_sub(3);
    format!(in alloc;
        "M{from} {top}H{off}Q{lane} {top} {lane} {under}V{over}Q{lane} {floor} {back} {floor}H{to}"
    )
}

/// The path of what hangs in the air: down beside the texts of its row, and then below them.
fn stub(alloc: Global, layout: &Layout, arrow: &Arrow) -> Result<String, AllocError> {
    let is_right = arrow.is_rightward();
    let mark = layout.mark(arrow.start);
    let floor = layout.floor(arrow.start);
    let from = beside(layout.line(arrow.from), 5, is_right);
    let end = beside(from, 26, is_right);
    format!(in alloc; "M{from} {mark}C{from} {floor} {from} {floor} {end} {floor}")
}
