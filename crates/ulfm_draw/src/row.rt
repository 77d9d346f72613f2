//! Moves.

use crate::kind::Kind;
use crate::mark::Mark;

/// A move of a rank.
#[derive(Drop)]
pub(crate) struct Row {
    pub(crate) rank: usize,
    /// The step of an answer or an opening, from 0.
    pub(crate) step: usize,
    /// The last step that it stands for: the same, but where more steps were skipped behind it.
    pub(crate) through: usize,
    /// Its mark. Where an item was taken, the head of its arrow is one.
    pub(crate) mark: Option<Mark>,
    /// The kind of the item that was taken, where one was.
    pub(crate) taken: Option<Kind>,
    /// The words of the step or of the item.
    pub(crate) words: String,
    /// The words of the answer; `open` where there is none yet, and nothing where an item was taken.
    pub(crate) answer: String,
    /// The number of the message that was taken or got, from 1.
    pub(crate) message: Option<usize>,
}

impl Row {
    /// Whether this is a move of a step of a rank.
    pub(crate) fn is_of(&self, rank: usize, step: usize) -> bool {
        self.rank == rank && self.step == step && !self.is_taking()
    }

    /// Whether an item was taken.
    pub(crate) fn is_taking(&self) -> bool {
        self.taken.is_some()
    }

    /// Whether a step was opened.
    pub(crate) fn is_opening(&self) -> bool {
        self.mark == Some(Mark::Open)
    }

    /// Whether the rank stopped.
    pub(crate) fn is_stop(&self) -> bool {
        self.mark == Some(Mark::Stop)
    }
}
