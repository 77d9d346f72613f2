//! Some texts of a job.

use crate::text::Text;
use std::alloc::Global;
use std::marker::Model;
use ulfm_base::OutOfMemory;

/// Texts of a job, in their order. Contracts see the list of them.
#[derive(Drop)]
pub struct Texts {
    texts: Vec<Text>,
}

impl Model for Texts {
    ghost use Rattle.std.specs.Prelude.{ℕ, List};

    ghost Value = { List (List ℕ) };

    ghost view = { λ t. t.texts.items };
}

impl Texts {
    ghost use Rattle.std.specs.Prelude.{◌≡◌, IfOk};

    /// These texts.
    pub fn new(texts: Vec<Text>) -> Texts
        ensures { result ≡ texts.items }
    {
        Texts { texts }
    }

    /// The same texts once more.
    ///
    /// # Errors
    ///
    /// `OutOfMemory` where a growth was refused.
    pub fn copy(&self, alloc: Global) -> Result<Texts, OutOfMemory>
        ensures { IfOk result (λ copy. copy ≡ self.now) }
    {
        let mut texts = Vec::new(alloc);
        for text in self.as_slice() {
            texts.push(text.copy(alloc)?)?;
        }
        Ok(Texts::new(texts))
    }

    /// The texts.
    pub fn as_slice(&self) -> &[Text]
        ensures { result.now ≡ self.now }
    {
        &self.texts
    }
}
