//! What a rank brings into a shrink or an agreement.
ghost use Rattle.std.specs.Prelude.{◌≡◌};

use crate::rank_set::RankSet;

/// What a rank brings into a decision: the ranks that it knew to have failed at its entry, and into an agreement a flag.
#[derive(Clone, Copy, Debug, PartialEq, Eq)]
pub struct Contribution {
    /// The failures that it knew.
    pub known: RankSet,
    /// The flag that it gave, which is there in agreements alone.
    pub flag: Option<u32>,
}

impl Contribution {
    ghost use Rattle.ulfm_base.specs.Topic.{is_contribution};

    /// Whether the other contribution is the same.
    pub fn is_same(self, other: Contribution) -> bool
        ensures { result ≡ is_contribution self other }
    {
        self == other
    }
}
