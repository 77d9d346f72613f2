//! Where everything stands, in pixels.

use crate::lanes::{lanes_beside, lanes_of};
use crate::picture::Picture;
use crate::piece::{Piece, foot_pieces, lines_in, row_pieces, widest};
use std::alloc::{AllocError, Global};

/// The width of a letter.
pub(crate) const LETTER: usize = 8;

/// The height of a line.
pub(crate) const LINE: usize = 17;

/// What is left free at each edge.
pub(crate) const EDGE: usize = 18;

/// Where the box over each line ends.
pub(crate) const HEAD: usize = 34;

/// Where the first row begins.
const TOP: usize = 48;

/// The width of a lane.
const LANE: usize = 5;

/// What is free between a line and its texts, beside lanes.
const GAP: usize = 14;

/// Half the width of the box over a line.
pub(crate) const HALF_BOX: usize = 34;

/// The fewest letters of a column.
const FEWEST: usize = 10;

/// The narrowest picture.
const NARROWEST: usize = 300;

/// The number at a place, or 0 past the end.
fn at(numbers: &[usize], place: usize) -> usize {
    numbers.get(place).copied().unwrap_or(0)
}

/// Where everything stands.
#[derive(Drop)]
pub(crate) struct Layout {
    /// The texts of each row.
    pub(crate) rows: Vec<Vec<Piece>>,
    /// The texts below the line of each rank.
    pub(crate) feet: Vec<Vec<Piece>>,
    lanes: Vec<usize>,
    marks: Vec<usize>,
    floors: Vec<usize>,
    lines: Vec<usize>,
    margins: Vec<usize>,
    /// Where the lines end.
    pub(crate) end: usize,
    /// Where the texts below the lines end.
    pub(crate) foot: usize,
    /// The width of the picture.
    pub(crate) width: usize,
}

impl Layout {
    /// Of a picture.
    pub(crate) fn of(alloc: Global, picture: &Picture<'_>) -> Result<Layout, AllocError> {
        let mut layout = Layout {
            rows: Vec::new(alloc),
            feet: Vec::new(alloc),
            lanes: lanes_of(alloc, picture.arrows.as_slice())?,
            marks: Vec::new(alloc),
            floors: Vec::new(alloc),
            lines: Vec::new(alloc),
            margins: Vec::new(alloc),
            end: TOP,
            foot: TOP,
            width: EDGE,
        };
        layout.place_rows(alloc, picture)?;
        layout.place_feet(alloc, picture)?;
        layout.place_columns(picture)?;
        Ok(layout)
    }

    /// Places the rows, one below the other.
    fn place_rows(&mut self, alloc: Global, picture: &Picture<'_>) -> Result<(), AllocError> {
        for (number, row) in picture.rows.iter().enumerate() {
            let pieces = row_pieces(alloc, picture, number, row)?;
            let height = LINE.saturating_mul(lines_in(pieces.as_slice()));
            let floor = self.end.saturating_add(height).saturating_add(5);
            self.marks.push(self.end.saturating_add(8))?;
            self.floors.push(floor)?;
            self.rows.push(pieces)?;
            self.end = floor.saturating_add(if row.is_taking() { 9 } else { 4 });
        }
        self.end = self.end.saturating_add(8);
        Ok(())
    }

    /// Places the texts below the lines.
    fn place_feet(&mut self, alloc: Global, picture: &Picture<'_>) -> Result<(), AllocError> {
        let mut most = 0_usize;
        for rank in 0..picture.ranks() {
            let pieces = foot_pieces(alloc, picture, rank)?;
            most = most.max(lines_in(pieces.as_slice()));
            self.feet.push(pieces)?;
        }
        self.foot = self
            .end
            .saturating_add(14)
            .saturating_add(LINE.saturating_mul(most));
        Ok(())
    }

    /// Places the lines, each as far right as the texts of those before it want.
    fn place_columns(&mut self, picture: &Picture<'_>) -> Result<(), AllocError> {
        for rank in 0..picture.ranks() {
            let left = self.beside(picture, rank, false).max(HALF_BOX);
            let line = self.width.saturating_add(left);
            let margin = self.beside(picture, rank, true);
            let letters = self.letters(picture, rank).saturating_mul(LETTER);
            self.lines.push(line)?;
            self.margins.push(margin)?;
            self.width = line.saturating_add(margin).saturating_add(letters);
        }
        self.width = self.width.saturating_add(EDGE).max(NARROWEST);
        Ok(())
    }

    /// What is free beside a line, with its lanes.
    fn beside(&self, picture: &Picture<'_>, rank: usize, is_rightward: bool) -> usize {
        let arrows = picture.arrows.as_slice();
        let lanes = lanes_beside(arrows, self.lanes.as_slice(), rank, is_rightward);
        GAP.saturating_add(LANE.saturating_mul(lanes))
    }

    /// How many letters the longest line beside a rank has.
    fn letters(&self, picture: &Picture<'_>, rank: usize) -> usize {
        let mut most = FEWEST;
        for (number, row) in picture.rows.iter().enumerate() {
            if row.rank == rank {
                if let Some(pieces) = self.rows.get(number) {
                    most = most.max(widest(pieces.as_slice()));
                }
            }
        }
        match self.feet.get(rank) {
            Some(pieces) => most.max(widest(pieces.as_slice())),
            None => most,
        }
    }

    /// How far right the line of a rank stands.
    pub(crate) fn line(&self, rank: usize) -> usize {
        at(self.lines.as_slice(), rank)
    }

    /// How far right the texts of a rank begin.
    pub(crate) fn text(&self, rank: usize) -> usize {
        self.line(rank)
            .saturating_add(at(self.margins.as_slice(), rank))
    }

    /// How far down the mark of a row stands.
    pub(crate) fn mark(&self, row: usize) -> usize {
        at(self.marks.as_slice(), row)
    }

    /// How far down a row ends, where what it takes comes in.
    pub(crate) fn floor(&self, row: usize) -> usize {
        at(self.floors.as_slice(), row)
    }

    /// How far an arrow goes down beside the line that it comes from.
    pub(crate) fn lane(&self, arrow: usize) -> usize {
        LANE.saturating_mul(at(self.lanes.as_slice(), arrow))
            .saturating_add(7)
    }
}
