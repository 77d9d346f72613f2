//! Steps on a communicator that an earlier step makes.

use crate::label::Label;

/// That the step `at` of a rank is on the communicator that its step `step` was answered, which it calls by the name of that step. In the
/// script such a step stands on the world's communicator.
#[derive(Drop)]
pub struct Naming {
    /// The rank.
    pub rank: u8,
    /// The number of the step that is on it.
    pub at: u16,
    /// The number of the step that makes it.
    pub step: u16,
    /// The name.
    pub name: Label,
}

impl Naming {
    ghost use Rattle.std.specs.Prelude.{◌≡◌};
    ghost use Rattle.ulfm_job.specs.Naming.{is_naming_of};

    /// The same naming once more.
    pub fn copy(&self) -> Naming
        ensures { result ≡ self.now }
    {
        Naming {
            rank: self.rank,
            at: self.at,
            step: self.step,
            name: self.name.copy(),
        }
    }

    /// Whether it is that of the step `k` of a rank.
    pub fn is_of(&self, rank: u8, k: usize) -> bool
        ensures { result ≡ is_naming_of rank k self.now }
    {
        self.rank == rank && self.at as usize == k
    }
}
