//! What a rank passes on to the other ranks.
ghost use Rattle.std.specs.Prelude.{◌≡◌, ◌==◌, ◌<◌, ◌&&◌, ℕ, List, length, not, IsTrue, false};
ghost use Rattle.ulfm_base.specs.Group.{is_member};
ghost use Rattle.ulfm_base.specs.RankSet.{has};
ghost use Rattle.ulfm_log.specs.declared.entry.Entry.{Entry};
ghost use Rattle.ulfm_log.specs.Communicators.{members_of};
ghost use Rattle.ulfm_log.specs.Facts.{is_revoked, revoked_before, Knows};
ghost use Rattle.ulfm_log.specs.Outboxes.{AllGrow};
ghost use Rattle.ulfm_log.specs.Owed.{passed_on, owed_by_item, announced};

use crate::outboxes::Outboxes;
use crate::word::Word;
use ulfm_base::{Context, Entrance, Item, MOST_RANKS, RankSet, WorldRank};

/// The ranks that something is told to: not the rank itself, nor those that are known to have failed.
fn addressees(me: u8, known: RankSet) -> RankSet
    ensures { (d : ℕ) → d < 8 → has result d ≡ (not (me == d) && not (has known d)) }
{
    let mut addressees = RankSet::new();
    for number in 0..MOST_RANKS {
        let rank = WorldRank { number };
        if number == me || known.contains(rank) {
            continue;
        }
        addressees.insert(rank);
    }
    addressees
}

/// Puts the first revocation of a context into the outbox of each rank that it is told to.
pub fn forward(outboxes: &mut Outboxes, me: u8, known: RankSet, context: Context)
    requires small { length outboxes.old.boxes < 9 }
    requires room { IsTrue outboxes.old.room }
    ensures { (log : List Entry) → Knows log known → is_revoked log context.number ≡ false → AllGrow outboxes.old.boxes outboxes.new.boxes (passed_on me log context) }
{
    outboxes.put_each(addressees(me, known), Word::Revoke(context));
}

/// Puts an entrance into the outbox of each member that it is told to.
pub fn announce(
    outboxes: &mut Outboxes,
    me: u8,
    known: RankSet,
    members: RankSet,
    entrance: Entrance,
)
    requires small { length outboxes.old.boxes < 9 }
    requires room { IsTrue outboxes.old.room }
    ensures { (n : ℕ) (log : List Entry) → Knows log known → ((r : ℕ) → has members r ≡ is_member (members_of n log entrance.topic.context.number) r) → AllGrow outboxes.old.boxes outboxes.new.boxes (announced n me log entrance) }
{
    let addressees = addressees(me, known);
    outboxes.put_each(members.intersection(addressees), Word::Enter(entrance));
}

/// Puts what a taken item makes its taker owe into the outboxes. `revoked` says whether its context was revoked before.
pub fn pass_on(outboxes: &mut Outboxes, me: u8, known: RankSet, revoked: bool, item: &Item)
    requires small { length outboxes.old.boxes < 9 }
    requires room { IsTrue outboxes.old.room }
    ensures { (log : List Entry) → Knows log known → revoked ≡ revoked_before log item.now → AllGrow outboxes.old.boxes outboxes.new.boxes (λ d. owed_by_item me log d item.now) }
{
    match item {
        Item::Revoke(context) => {
            if revoked {
                return;
            }
            forward(outboxes, me, known, *context);
        }
        _ => {}
    }
}
