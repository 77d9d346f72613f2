//! A row of the board.
ghost use Rattle.std.specs.Prelude.{◌≡◌, vec_len, IfOk};

use crate::proposed::Proposed;
use once_cell::race::OnceBox;
use std::alloc::Global;
use ulfm_base::OutOfMemory;

/// How many cells a row has.
pub(crate) const CELLS: usize = 64;

/// The place of one decision, set at most once.
pub(crate) type Cell = OnceBox<Proposed>;

/// The cells of 64 shrinks, or of 64 agreements, of one communicator.
#[derive(Drop)]
pub(crate) struct Row {
    /// The number of the row.
    pub(crate) number: u128,
    /// A cell for each of them.
    pub(crate) cells: Vec<Cell>,
    pub(crate) ghost whole: { vec_len cells ≡ 64 },
}

impl Row {
    /// A row of this number, with nothing in its cells.
    pub(crate) fn new(alloc: Global, number: u128) -> Result<Row, OutOfMemory>
        ensures { IfOk result (λ row. row.number ≡ number) }
    {
        let mut cells = Vec::with_capacity(alloc, CELLS)?;
        for _ in 0..CELLS {
            cells.push_reserved(OnceBox::new(alloc));
        }
        Ok(Row { number, cells })
    }
}
