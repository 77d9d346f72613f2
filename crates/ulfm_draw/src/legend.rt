//! What marks and arrows stand for: those that a picture has.

use crate::ink::{DARK, head, name};
use crate::kind::{KINDS, Kind, kind_of};
use crate::layout::{EDGE, LETTER, LINE};
use crate::mark::{MARKS, Mark, meaning, push_mark};
use crate::path::push_path;
use crate::picture::Picture;
use crate::svg_text::push_text;
use std::alloc::AllocError;

/// Where the next entry of a legend stands, and how wide the picture is.
#[derive(Clone, Copy)]
struct Pen {
    x: usize,
    y: usize,
    width: usize,
}

impl Pen {
    /// Makes room for an entry so wide: in this line, or in the next one.
    fn make_room(&mut self, width: usize) {
        let end = self.x.saturating_add(width);
        if end > self.width && self.x > EDGE {
            self.x = EDGE;
            self.y = self.y.saturating_add(LINE).saturating_add(3);
        }
        self.width = self.width.max(self.x.saturating_add(width));
    }

    /// Puts the text of an entry behind its sign, and goes on.
    fn put(&mut self, out: &mut String, sign: usize, text: &str) -> Result<(), AllocError> {
        let x = self.x.saturating_add(sign);
        push_text(out, x, self.y, text, DARK, "")?;
        let letters = text.len().saturating_mul(LETTER);
        self.x = x.saturating_add(letters).saturating_add(22);
        Ok(())
    }
}

/// How wide an entry is, with a sign so wide.
fn width_of(sign: usize, text: &str) -> usize {
    text.len()
        .saturating_mul(LETTER)
        .saturating_add(sign)
        .saturating_add(EDGE)
}

/// Puts the legend at a height. Answers the width of the picture, and where its last line stands.
pub(crate) fn push_legend(
    out: &mut String,
    picture: &Picture<'_>,
    width: usize,
    y: usize,
) -> Result<(usize, usize), AllocError> {
    let mut pen = Pen { x: EDGE, y, width };
    for mark in MARKS {
        if has_mark(picture, mark) {
            push_mark_entry(out, &mut pen, mark)?;
        }
    }
    for kind in KINDS {
        if has_kind(picture, kind) {
            push_kind_entry(out, &mut pen, kind, head(kind), name(kind))?;
        }
    }
    if let Some(kind) = hanging(picture) {
        push_kind_entry(out, &mut pen, kind, "lost", "never taken")?;
    }
    Ok((pen.width, pen.y))
}

/// Whether a picture has a mark.
fn has_mark(picture: &Picture<'_>, mark: Mark) -> bool {
    picture.rows.iter().any(|row| row.mark == Some(mark))
}

/// Whether items of a kind were taken.
fn has_kind(picture: &Picture<'_>, kind: Kind) -> bool {
    picture.arrows.iter().any(|arrow| arrow.end.is_some() && kind_of(arrow.cargo) == kind)
}

/// The kind of the first item that hangs in the air, if one does.
fn hanging(picture: &Picture<'_>) -> Option<Kind> {
    for arrow in &picture.arrows {
        if picture.hangs(arrow) {
            return Some(kind_of(arrow.cargo));
        }
    }
    None
}

/// Puts the entry of a mark.
fn push_mark_entry(out: &mut String, pen: &mut Pen, mark: Mark) -> Result<(), AllocError> {
    let text = meaning(mark);
    pen.make_room(width_of(18, text));
    push_mark(out, mark, pen.x.saturating_add(6), pen.y.saturating_sub(4))?;
    pen.put(out, 18, text)
}

/// Puts the entry of an arrow.
fn push_kind_entry(
    out: &mut String,
    pen: &mut Pen,
    kind: Kind,
    head: &str,
    text: &str,
) -> Result<(), AllocError> {
    pen.make_room(width_of(52, text));
    let x = pen.x;
    let y = pen.y.saturating_sub(4);
    let path = format!(in *out.allocator(); "M{x} {y}h34")?;
    push_path(out, path.as_str(), kind, head)?;
    pen.put(out, 52, text)
}
