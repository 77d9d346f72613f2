//! Items on their way.

use ulfm_schedule::Cargo;

/// An item between two ranks.
#[derive(Clone, Copy, Debug)]
pub(crate) struct Arrow {
    pub(crate) from: usize,
    pub(crate) to: usize,
    pub(crate) cargo: Cargo,
    /// The row of the move that it comes from.
    pub(crate) start: usize,
    /// The row in which it was taken, where it was.
    pub(crate) end: Option<usize>,
}

impl Arrow {
    /// Whether it goes to the right. One to its own rank goes to the left.
    pub(crate) fn is_rightward(&self) -> bool {
        self.from < self.to
    }

    /// Whether it is under way, like this between these ranks.
    pub(crate) fn is_awaited(&self, from: usize, to: usize, cargo: Cargo) -> bool {
        self.end.is_none() && self.from == from && self.to == to && self.cargo == cargo
    }
}
