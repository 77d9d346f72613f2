//! Positions in a group.
ghost use Rattle.std.specs.Prelude.{◌≡◌, ◌++◌, ◌∷◌, [], filter_map, MatchOption};
ghost use Rattle.ulfm_base.specs.Group.{rank_in};
ghost use Rattle.smallvec.specs.SmallVec.{HasRoomFor};

use smallvec::SmallVec;
use std::alloc::Global;
use ulfm_base::{Group, RankNumbers};

/// One more position, where there is one.
fn push_found(positions: &mut RankNumbers, found: Option<u8>)
    requires { HasRoomFor positions.old 1 }
    ensures items { MatchOption found (positions.new.items ≡ positions.old.items) (λ position. positions.new.items ≡ positions.old.items ++ position ∷ []) }
    ensures capacity { positions.new.capacity ≡ positions.old.capacity }
{
    if let Some(position) = found {
        positions.push_reserved(position);
    }
}

/// The positions in a group of those members of another that it has, in the other's order. It never answers out of memory.
pub fn positions_in(alloc: Global, group: &Group, others: &Group) -> RankNumbers
    ensures { result.items ≡ filter_map (λ member. rank_in group.now member) others.now }
{
    let mut positions = SmallVec::new(alloc);
    for k in 0..others.size() {
        push_found(&mut positions, others.position_in(k, group));
    }
    positions
}
