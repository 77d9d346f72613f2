//! What is asked of an answer.

use crate::text::Text;
use std::alloc::Global;
use ulfm_base::OutOfMemory;

/// That the answer of the step `step` of a rank begins with these words, by whole words. The step `at` of the same rank expects it
/// of itself.
#[derive(Drop)]
pub struct Clause {
    /// The rank.
    pub rank: u8,
    /// The number of the step that asks.
    pub at: u16,
    /// The number of the step whose answer it is about.
    pub step: u16,
    /// The words.
    pub words: Text,
}

impl Clause {
    ghost use Rattle.std.specs.Prelude.{◌≡◌, IfOk};

    /// The same clause once more.
    ///
    /// # Errors
    ///
    /// `OutOfMemory` where a growth was refused.
    pub fn copy(&self, alloc: Global) -> Result<Clause, OutOfMemory>
        ensures { IfOk result (λ clause. clause ≡ self.now) }
    {
        let words = self.words.copy(alloc)?;
        Ok(Clause {
            rank: self.rank,
            at: self.at,
            step: self.step,
            words,
        })
    }
}
