//! Which decisions of a shrink or an agreement a rank adopts (ULFM, shrink and agree).
ghost use Rattle.std.specs.Prelude.{◌≡◌, ℕ, List};
ghost use Rattle.ulfm_base.specs.declared.topic.Topic.{Topic};
ghost use Rattle.ulfm_log.specs.declared.entry.Entry.{Entry};
ghost use Rattle.ulfm_log.specs.Entrances.{HasEntries};
ghost use Rattle.ulfm_log.specs.Proposal.{differ, contradicts, is_foreign};

use ulfm_base::{Contribution, Decision, Group, Listing, RANK_PLACES, Topic, WorldRank};

/// Whether two contributions are there and aren't the same.
fn differ(entry: Option<Contribution>, other: Option<Contribution>) -> bool
    ensures { result ≡ differ entry other }
{
    match (entry, other) {
        (Some(one), Some(another)) => !one.is_same(another),
        _ => false,
    }
}

/// Whether a decision lists a rank with another contribution than that with which the rank entered.
fn contradicts(decision: &Decision, entries: &Listing) -> bool
    ensures { (me : ℕ) (log : List Entry) (topic : Topic) → HasEntries me log topic entries.now → result ≡ contradicts me log topic decision.now }
{
    for rank in 0..RANK_PLACES {
        if differ(decision.entries[rank], entries[rank]) {
            return true;
        }
    }
    false
}

/// Whether a decision isn't one that the rank `me`, which has these entries on a topic, adopts on it.
pub fn is_foreign(
    decision: &Decision,
    topic: Topic,
    group: &Group,
    me: WorldRank,
    entries: &Listing,
) -> bool
    ensures { (log : List Entry) → HasEntries me.number log topic entries.now → result ≡ is_foreign me.number group.now log topic decision.now }
{
    if !decision.topic.is_same(topic) {
        return true;
    }
    if !decision.old.is_same(group) {
        return true;
    }
    if !decision.fresh.contains(me) {
        return true;
    }
    contradicts(decision, entries)
}
