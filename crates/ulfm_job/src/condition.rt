//! What is asked of an earlier answer, for a step to be played.

use crate::texts::Texts;
use std::alloc::Global;
use ulfm_base::OutOfMemory;

/// That the answer of the step `step` of a rank begins with one of these words, by whole words; by `is_not`, with none of them. The later
/// step `at` of the same rank asks for it, by one of its alternatives: it is played where all conditions of one alternative hold.
#[derive(Drop)]
pub struct Condition {
    /// The rank.
    pub rank: u8,
    /// The number of the step that asks.
    pub at: u16,
    /// The number of the alternative among those of that step.
    pub alternative: u16,
    /// The number of the step whose answer it is about.
    pub step: u16,
    /// Whether the answer has to begin with none of the words.
    pub is_not: bool,
    /// The words.
    pub words: Texts,
}

impl Condition {
    ghost use Rattle.std.specs.Prelude.{◌≡◌, IfOk};

    /// The same condition once more.
    ///
    /// # Errors
    ///
    /// `OutOfMemory` where a growth was refused.
    pub fn copy(&self, alloc: Global) -> Result<Condition, OutOfMemory>
        ensures { IfOk result (λ copy. copy ≡ self.now) }
    {
        let words = self.words.copy(alloc)?;
        Ok(Condition {
            rank: self.rank,
            at: self.at,
            alternative: self.alternative,
            step: self.step,
            is_not: self.is_not,
            words,
        })
    }
}
