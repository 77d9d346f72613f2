//! Groups of ranks (MPI 4.0, 7.3).
//!
//! It never spills, so no call on it but `translate` can run out of memory.
ghost use Rattle.std.specs.Prelude.{◌≡◌, ◌≢◌, [], ℕ, ◌<◌, ◌≤◌, length, map, slice_get, Some, IfOk, IfErr, OnOk, MatchOption, All, Any, IsTrue, ◌↔◌, ◌⊎◌};

use crate::error::{CallError, OutOfMemory};
use crate::rank::{MOST_RANKS, RANK_PLACES, WorldRank};
use crate::rank_set::RankSet;
use smallvec::SmallVec;
use std::alloc::Global;
use std::marker::Model;

/// Numbers of ranks, of the world or of a communicator, held inline.
pub type RankNumbers = SmallVec<u8, RANK_PLACES>;

/// Distinct ranks of the world, held inline, in the order of their positions. Contracts see the list of their numbers.
#[derive(Drop)]
pub struct Group {
    members: RankNumbers,
}

impl Model for Group {
    ghost use Rattle.std.specs.Prelude.{ℕ, List, ◌≡◌, ◌≤◌, length};
    ghost use Rattle.ulfm_base.specs.Group.{IsGroup};
    ghost use Rattle.ulfm_base.specs.declared.rank.TheConstants.{MOST_RANKS, RANK_PLACES};

    ghost Value = { List ℕ };

    ghost view = { λ g. g.members.items };

    ghost invariant = { λ g. (g.members.capacity ≡ RANK_PLACES) × (length g.members.items ≤ MOST_RANKS) × IsGroup g.members.items };
}

impl Clone for Group {
    ghost is_clone = { λ x y. y ≡ x };

    fn clone(&self) -> Result<Group, OutOfMemory> {
        Ok(self.copied())
    }
}

impl Group {
    ghost use Rattle.ulfm_base.specs.RankSet.{has};
    ghost use Rattle.ulfm_base.specs.Group.{IsGroup, is_member, rank_in, numbers_from, excluding, including, intersection, translated};

    /// The group of the world: the ranks 0 to `n - 1`. It never answers out of memory.
    ///
    /// # Errors
    ///
    /// `BadSize` where `n` isn't 1 to 8.
    pub fn world(alloc: Global, n: u8) -> Result<Group, CallError>
        ensures ok { IfOk result (λ group. (1 ≤ n) × (n ≤ MOST_RANKS) × (group ≡ numbers_from 0 n)) }
        ensures err { IfErr result (λ error. (error ≡ CallError.BadSize) × ((n ≡ 0) ⊎ (MOST_RANKS < n))) }
    {
        if n == 0 || n > MOST_RANKS {
            return Err(CallError::BadSize);
        }
        let mut members = SmallVec::new(alloc);
        for rank in 0..n {
            members.push_reserved(rank);
        }
        Ok(Group { members })
    }

    /// The group with no member (MPI 4.0, 7.2.1, `MPI_GROUP_EMPTY`). It can't run out of memory.
    pub fn empty(alloc: Global) -> Group
        ensures { result ≡ [] }
    {
        Group {
            members: SmallVec::new(alloc),
        }
    }

    /// How many members there are, 0 to 8.
    pub fn size(&self) -> u8
        ensures size { result ≡ length self.now }
        ensures group { IsGroup self.now }
        ensures small { result ≤ MOST_RANKS }
    {
        self.members.len() as u8
    }

    /// The position of a rank of the world, where it is a member.
    pub fn rank_of(&self, rank: WorldRank) -> Option<u8>
        ensures { result ≡ rank_in self.now rank.number }
    {
        for (position, member) in self.members.iter().enumerate() {
            if *member == rank.number {
                return Some(position as u8);
            }
        }
        None
    }

    /// Whether a rank of the world is a member.
    pub fn contains(&self, rank: WorldRank) -> bool
        ensures { result ≡ is_member self.now rank.number }
    {
        self.members.iter().any(|member| *member == rank.number)
    }

    /// The rank of the world at a position, where there is one.
    pub fn world_of(&self, position: u8) -> Option<WorldRank>
        ensures { MatchOption result (length self.now ≤ position) (λ rank. slice_get self.now position ≡ Some rank.number) }
    {
        if position >= self.size() {
            return None;
        }
        Some(WorldRank {
            number: self.members[position as usize],
        })
    }

    /// The group without the ranks of a set, in the old order (MPI 4.0, 7.3.2, `MPI_Group_excl`). It can't run out of
    /// memory.
    pub fn excluding(&self, excluded: RankSet) -> Group
        ensures { result ≡ excluding self.now (has excluded) }
    {
        let mut members = SmallVec::new(*self.members.allocator());
        for member in self.members.iter() {
            if !excluded.contains(WorldRank { number: *member }) {
                members.push_reserved(*member);
            }
        }
        Group { members }
    }

    /// Puts a rank at the end, where it isn't a member yet. It can't run out of memory.
    pub fn include(&mut self, rank: WorldRank)
        ensures { self.new ≡ including self.old rank.number }
    {
        if !self.contains(rank) {
            self.members.push_reserved(rank.number);
        }
    }

    /// The members that are members of the other group too, in the order of this one (MPI 4.0, 7.3.2,
    /// `MPI_Group_intersection`). It can't run out of memory.
    pub fn intersection(&self, other: &Group) -> Group
        ensures { result ≡ intersection self.now other.now }
    {
        let mut members = SmallVec::new(*self.members.allocator());
        for member in self.members.iter() {
            if other.contains(WorldRank { number: *member }) {
                members.push_reserved(*member);
            }
        }
        Group { members }
    }

    /// The members as a set.
    pub fn members(&self) -> RankSet
        ensures { (r : ℕ) → has result r ≡ is_member self.now r }
    {
        let mut set = RankSet::new();
        for member in self.members.iter() {
            set.insert(WorldRank { number: *member });
        }
        set
    }

    /// The same group. It can't run out of memory.
    pub fn copied(&self) -> Group
        ensures { result ≡ self.now }
    {
        match SmallVec::from_slice(*self.members.allocator(), self.members.as_slice()) {
            Ok(members) => Group { members },
            Err(_) => unreachable!(),
        }
    }

    /// Whether the other group has the same members at the same positions (MPI 4.0, 7.3.1, `MPI_IDENT`).
    pub fn is_same(&self, other: &Group) -> bool
        ensures { IsTrue result ↔ (self.now ≡ other.now) }
    {
        self.members.as_slice() == other.members.as_slice()
    }

    /// For each of these positions the position of the same member in the other group, or none
    /// (MPI 4.0, 7.3.1, `MPI_Group_translate_ranks`).
    ///
    /// # Errors
    ///
    /// `BadRank` where one of them is no position of this group, else `OutOfMemory` where there are some and the list
    /// finds no room.
    pub fn translate(&self, ranks: &[u8], other: &Group) -> Result<Vec<Option<u8>>, CallError>
        ensures translated { IfOk result (λ found. found.items ≡ map (translated self.now other.now) ranks.now) }
        ensures positions { OnOk result (All (λ r. r < length self.now) ranks.now) }
        ensures refused { IfErr result (λ error. ((error ≡ CallError.BadRank) × Any (λ r. length self.now ≤ r) ranks.now) ⊎ ((error ≡ CallError.OutOfMemory) × All (λ r. r < length self.now) ranks.now)) }
        ensures grows { IfErr result (λ error. error ≡ CallError.OutOfMemory → ranks.now ≢ []) }
    {
        let size = self.size();
        if ranks.iter().any(|rank| *rank >= size) {
            return Err(CallError::BadRank);
        }
        let mut found = Vec::new(*self.members.allocator());
        for rank in ranks {
            found.push(self.position_in(*rank, other))?;
        }
        Ok(found)
    }

    /// The position in another group of the member at a position of this one, where there is one.
    pub fn position_in(&self, position: u8, other: &Group) -> Option<u8>
        ensures { result ≡ translated self.now other.now position }
    {
        other.rank_of(self.world_of(position)?)
    }
}
