//! What a rank that entered a shrink or an agreement proposes (ULFM, shrink and agree).
ghost use Rattle.std.specs.Prelude.{◌≡◌, ◌||◌, ℕ, true, if◌then◌else◌, Some, None};
ghost use Rattle.std.specs.List.{list_any};
ghost use Rattle.ulfm_base.specs.Decision.{entry_at, is_listed, in_entry, and_flag, and_entry, and_all, value_of};
ghost use Rattle.ulfm_base.specs.Topic.{Fits, HasShrink};
ghost use Rattle.ulfm_base.specs.declared.contribution.Contribution.{Contribution};
ghost use Rattle.ulfm_base.specs.Group.{is_member};
ghost use Rattle.ulfm_base.specs.RankSet.{has};
ghost use Rattle.ulfm_log.specs.Proposal.{Proposes};
ghost use Rattle.ulfm_log.specs.Entrances.{HasEntries};
ghost use Rattle.ulfm_log.specs.Facts.{Knows};
ghost use Rattle.ulfm_log.specs.Proposal.{deciders, has_entered};
ghost use Rattle.ulfm_log.specs.State.{State};

use ulfm_base::{
    Contribution, Decision, Group, Listing, MOST_RANKS, Purpose, RANK_PLACES, RankSet, Topic,
    WorldRank,
};

/// The entries of the members of a group, and of no other rank.
fn entries_of(group: &Group, entries: &Listing) -> Listing
    ensures { (r : ℕ) → entry_at result r ≡ (if is_member group.now r then entry_at entries.now r else None) }
{
    let mut listed = [None; RANK_PLACES];
    for number in 0..MOST_RANKS {
        if !group.contains(WorldRank { number }) {
            continue;
        }
        listed[number as usize] = entries[number as usize];
    }
    listed
}

/// The ranks that are listed, and those that a set has.
fn listed_or(listed: &Listing, set: RankSet) -> RankSet
    ensures { (r : ℕ) → has result r ≡ (is_listed listed.now r || has set r) }
{
    let mut found = set;
    for number in 0..MOST_RANKS {
        if listed[number as usize].is_none() {
            continue;
        }
        found.insert(WorldRank { number });
    }
    found
}

/// The ranks that are known to have failed, here or in a listed set.
fn failures_in(listed: &Listing, known: RankSet) -> RankSet
    ensures { (r : ℕ) → has result r ≡ (has known r || list_any (λ entry. in_entry entry r) listed.now) }
{
    let mut failures = known;
    for entry in listed {
        if let Some(brought) = entry {
            failures = failures.union(brought.known);
        }
    }
    failures
}

/// The AND of all listed flags, of 32 bits.
fn and_all(listed: &Listing) -> u32
    ensures { result ≡ and_all listed.now }
{
    let mut bits = u32::MAX;
    for entry in listed {
        bits = and_entry(bits, entry);
    }
    bits
}

/// The bits that a value has in common with the flag of a contribution, where there is one.
fn and_entry(bits: u32, entry: &Option<Contribution>) -> u32
    ensures { result ≡ and_entry bits entry.now }
{
    match entry {
        Some(brought) => and_flag(bits, brought.flag),
        None => bits,
    }
}

fn and_flag(bits: u32, flag: Option<u32>) -> u32
    ensures { result ≡ and_flag bits flag }
{
    match flag {
        Some(flag) => bits & flag,
        None => bits,
    }
}

/// The value of an agreement with these entries. A shrink has none.
fn value_of(purpose: Purpose, listed: &Listing) -> Option<u32>
    ensures { result ≡ value_of purpose listed.now }
{
    match purpose {
        Purpose::Shrink { .. } => None,
        Purpose::Agree { .. } => Some(and_all(listed)),
    }
}

/// What a rank proposes on a topic, whose communicator has this group, once each member is listed or failed.
pub fn proposed(topic: Topic, group: &Group, entries: &Listing, known: RankSet) -> Option<Decision>
    requires has_shrink { HasShrink topic }
    requires flags { (r : ℕ) (brought : Contribution) → entry_at entries.now r ≡ Some brought → Fits topic.purpose brought.flag }
    ensures { (rank : State) → Knows rank.log known → HasEntries rank.me rank.log topic entries.now → deciders rank.ranks rank.log topic ≡ group.now → has_entered rank.log topic ≡ true → Proposes rank topic result }
{
    let listed = entries_of(group, entries);
    let failures = failures_in(&listed, known);
    let members = group.members();
    if !members.is_subset(listed_or(&listed, failures)) {
        return None;
    }
    let excluded = members.intersection(failures);
    Some(Decision {
        topic,
        old: group.copied(),
        entries: listed,
        excluded,
        fresh: group.excluding(excluded),
        value: value_of(topic.purpose, &listed),
    })
}
