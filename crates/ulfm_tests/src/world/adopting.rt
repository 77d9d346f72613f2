//! Which decisions one rank adopts.

use std::alloc::Global;
use ulfm_base::{
    CallError, Context, Contribution, Decision, Entrance, Item, Purpose, RankSet, Topic, WorldRank,
};
use ulfm_rank::Rank;

const FIRST: WorldRank = WorldRank { number: 0 };

const SECOND: WorldRank = WorldRank { number: 1 };

const THIRD: WorldRank = WorldRank { number: 2 };

/// Takes a notice from another rank. It answers whether it could be taken.
fn take(rank: &mut Rank, source: WorldRank, item: Item) -> bool {
    let letter = matches!(item, Item::Letter(_));
    if letter || rank.is_stopped() || source.number >= rank.ranks() || rank.prepare().is_err() {
        return false;
    }
    rank.take(source, item);
    true
}

/// Word of an entry into the shrink of the world by a rank that knows no failure.
fn entry() -> Item {
    Item::Enter(Entrance {
        topic: Topic {
            context: Context::WORLD,
            purpose: Purpose::Shrink { round: 0 },
        },
        contribution: Contribution {
            known: RankSet::new(),
            flag: None,
        },
    })
}

/// Whether a rank enters the shrink of the world.
fn enters(rank: &mut Rank) -> bool {
    rank.enter_shrink(rank.world()).is_ok()
}

/// The proposal of a rank for the shrink of the world.
fn proposed(rank: &Rank) -> Option<Decision> {
    match rank.proposal(rank.world()) {
        Ok(proposal) => proposal,
        Err(_) => None,
    }
}

/// Whether a rank has no proposal.
fn proposes_nothing(rank: &Rank) -> bool {
    proposed(rank).is_none()
}

/// Whether the proposal of a rank lists the second rank with this set.
fn lists_second(rank: &Rank, set: RankSet) -> bool {
    match proposed(rank) {
        Some(decision) => match decision.entries[1] {
            Some(listed) => listed.known.is_same(set),
            None => false,
        },
        None => false,
    }
}

/// Whether a rank refuses a decision.
fn refuses(rank: &mut Rank, decision: Option<Decision>) -> bool {
    match decision {
        Some(decision) => matches!(
            rank.adopt(rank.world(), decision),
            Err(CallError::NotMember)
        ),
        None => false,
    }
}

/// Whether a rank adopts its own proposal.
fn adopts_its_own(rank: &mut Rank) -> bool {
    match proposed(rank) {
        Some(decision) => match rank.adopt(rank.world(), decision) {
            Ok(made) => made.context.number == 2,
            Err(_) => false,
        },
        None => false,
    }
}

/// Whether the first rank proposes once it heard of the entry of the second and of the stop of the third.
fn hears_of_both(rank: &mut Rank) -> bool {
    enters(rank)
        && proposes_nothing(rank)
        && take(rank, SECOND, entry())
        && proposes_nothing(rank)
        && take(rank, THIRD, Item::Gone)
        && lists_second(rank, RankSet::new())
}

/// Whether the second rank, which knew of the stop of the third when it entered, proposes with the set of its entry.
fn knew_before(rank: &mut Rank) -> bool {
    let mut third = RankSet::new();
    third.insert(THIRD);
    take(rank, THIRD, Item::Gone)
        && enters(rank)
        && take(rank, FIRST, entry())
        && lists_second(rank, third)
}

/// The proposal of the first rank, or of the second, once it heard of the others.
fn proposal(rank: &mut Rank) -> Option<Decision> {
    let has_heard = if rank.me().number == FIRST.number {
        hears_of_both(rank)
    } else {
        knew_before(rank)
    };
    if has_heard { proposed(rank) } else { None }
}

/// Whether the first rank refuses the proposal of the second, and adopts its own; or the third that of the first, which leaves it out.
fn judges(rank: &mut Rank, other: Option<Decision>) -> bool {
    if rank.me().number == FIRST.number {
        hears_of_both(rank) && refuses(rank, other) && adopts_its_own(rank)
    } else {
        enters(rank) && refuses(rank, other)
    }
}

/// The proposal of one of three ranks.
fn proposal_of(alloc: Global, me: WorldRank) -> Option<Decision> {
    match Rank::start(alloc, me.number, 3) {
        Ok(mut rank) => {
            let proposed = proposal(&mut rank);
            // Let go by the standard library, which saves the check a minute.
            drop(rank);
            proposed
        }
        Err(_) => None,
    }
}

/// Whether one of three ranks judges another's proposal rightly.
fn judges_as(alloc: Global, me: WorldRank, other: Option<Decision>) -> bool {
    match Rank::start(alloc, me.number, 3) {
        Ok(mut rank) => {
            let is_right = judges(&mut rank, other);
            drop(rank);
            is_right
        }
        Err(_) => false,
    }
}

#[test]
fn a_decision_with_another_set_of_an_entry_is_refused(rt: HostRuntime) {
    let alloc = rt.alloc();
    assert!(rt; judges_as(alloc, FIRST, proposal_of(alloc, SECOND)));
    assert!(rt; judges_as(alloc, THIRD, proposal_of(alloc, FIRST)));
}
