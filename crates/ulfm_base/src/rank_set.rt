//! Sets of ranks.
//!
//! Eight flags: they read best in contracts, are `Copy` and take 8 bytes. That there are eight is a fact of the type, so in proofs too two sets
//! with the same ranks are one.
ghost use Rattle.std.specs.Prelude.{◌≡◌, ◌≢◌, ℕ, ◌↔◌, ◌||◌, ◌&&◌, IsTrue, length};
ghost use Rattle.ulfm_base.specs.declared.rank.TheConstants.{RANK_PLACES};

use crate::rank::{RANK_PLACES, WorldRank};

/// A set of ranks of the world, with a place for each of the engine's eight.
#[derive(Clone, Copy, Debug, PartialEq, Eq)]
pub struct RankSet {
    members: [bool; RANK_PLACES],
    pub ghost sized: { length members ≡ RANK_PLACES },
}

impl RankSet {
    ghost use Rattle.ulfm_base.specs.RankSet.{has, IsMember, IsEmpty, IsSubset};

    /// The empty set.
    pub fn new() -> RankSet
        ensures { IsEmpty result }
    {
        RankSet {
            members: [false; RANK_PLACES],
        }
    }

    /// Whether a rank is in the set.
    pub fn contains(self, rank: WorldRank) -> bool
        ensures { result ≡ has self rank.number }
    {
        self.members[rank.number as usize]
    }

    /// Whether the other set has the same ranks.
    pub fn is_same(self, other: RankSet) -> bool
        ensures { IsTrue result ↔ (self ≡ other) }
    {
        self == other
    }

    /// Puts a rank into the set.
    pub fn insert(&mut self, rank: WorldRank)
        ensures new { IsMember self.new rank }
        ensures others { (r : ℕ) → r ≢ rank.number → has self.new r ≡ has self.old r }
    {
        self.members[rank.number as usize] = true;
    }

    /// The ranks that are in this set or in the other.
    pub fn union(self, other: RankSet) -> RankSet
        ensures { (r : ℕ) → has result r ≡ (has self r || has other r) }
    {
        let mut members = self.members;
        for rank in 0..RANK_PLACES {
            members[rank] |= other.members[rank];
        }
        RankSet { members }
    }

    /// The ranks that are in both sets.
    pub fn intersection(self, other: RankSet) -> RankSet
        ensures { (r : ℕ) → has result r ≡ (has self r && has other r) }
    {
        let mut members = self.members;
        for rank in 0..RANK_PLACES {
            members[rank] &= other.members[rank];
        }
        RankSet { members }
    }

    /// Whether each rank of this set is in the other.
    pub fn is_subset(self, other: RankSet) -> bool
        ensures { IsTrue result ↔ IsSubset self other }
    {
        for rank in 0..RANK_PLACES {
            if self.members[rank] && !other.members[rank] {
                return false;
            }
        }
        true
    }
}
