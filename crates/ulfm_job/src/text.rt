//! A text of a job.
//!
//! It has no `Arc`: a clone of the kit's `Arc` can fail, as a copy can. So a shared text would save copies and no answer out of memory.
ghost use Rattle.std.specs.Prelude.{◌≡◌, ◌≤◌, length, IfOk, IsOk};

use std::alloc::Global;
use std::marker::Model;
use ulfm_base::{Body, OutOfMemory};

/// A text of a job, whole. Up to 30 bytes stand inline, more in one block of the heap. Contracts see the list of them.
#[derive(Drop)]
pub struct Text {
    bytes: Body,
}

impl Model for Text {
    ghost use Rattle.std.specs.Prelude.{ℕ, List};

    ghost Value = { List ℕ };

    ghost view = { λ t. t.bytes };
}

impl PartialEq for Text {
    ghost use Rattle.std.specs.Prelude.{nat_eq};
    ghost use Rattle.std.specs.Cmp.{partial_equiv_from_equiv};
    ghost use Rattle.std.specs.Cmp.Lexicographic.{pointwise, nat_list_eq_equiv};

    ghost eq = { λ a b. pointwise nat_eq a b };

    ghost laws = { partial_equiv_from_equiv nat_list_eq_equiv };

    fn eq(&self, other: &Text) -> bool {
        self.as_bytes() == other.as_bytes()
    }
}

impl Text {
    /// The bytes of a text.
    ///
    /// # Errors
    ///
    /// `OutOfMemory` where they are more than 30 and a growth was refused.
    pub fn new(alloc: Global, text: &str) -> Result<Text, OutOfMemory>
        ensures whole { IfOk result (λ t. t ≡ text.now) }
        ensures short { length text.now ≤ 30 → IsOk result }
    {
        let bytes = Body::from_bytes(alloc, text.as_bytes())?;
        Ok(Text { bytes })
    }

    /// The same text once more.
    ///
    /// # Errors
    ///
    /// `OutOfMemory` where it has more than 30 bytes and a growth was refused.
    pub fn copy(&self, alloc: Global) -> Result<Text, OutOfMemory>
        ensures same { IfOk result (λ t. t ≡ self.now) }
        ensures short { length self.now ≤ 30 → IsOk result }
    {
        let bytes = Body::from_bytes(alloc, self.as_bytes())?;
        Ok(Text { bytes })
    }

    /// The bytes.
    pub fn as_bytes(&self) -> &[u8]
        ensures { result.now ≡ self.now }
    {
        self.bytes.as_bytes()
    }
}
