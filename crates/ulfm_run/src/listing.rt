//! With what a log lists ranks in a shrink or an agreement, and what it proposes (ULFM, shrink and agree).
ghost use Rattle.std.specs.Prelude.{◌≡◌, ◌<◌, ◌↔◌, IsTrue};
ghost use Rattle.std.specs.List.{list_any};
ghost use Rattle.ulfm_base.specs.Decision.{in_entry};
ghost use Rattle.ulfm_log.specs.Facts.{is_gone};
ghost use Rattle.ulfm_log.specs.Log.{first_given};
ghost use Rattle.ulfm_log.specs.Proposal.{heard_of, item_entry, listed_of};
ghost use Rattle.ulfm_report_laws.specs.Proposed.{ProposesBy};
ghost use Rattle.ulfm_run.specs.inside.Listed.{ListsAs, IsListedAs, ExcludesAs};

use crate::adopted::{are_same, entry_of};
use ulfm_base::{
    Contribution, Decision, ItemKind, Listing, MOST_RANKS, NotedItem, Topic, WorldRank,
};
use ulfm_log::{Entry, tells_gone};

/// Whether the rank `me` with this log proposes a decision.
pub(crate) fn proposes_by(me: usize, log: &[Entry], decision: &Decision) -> bool
    ensures { IsTrue result ↔ ProposesBy me log.now decision.now }
{
    entry_of(log, decision.topic).is_some()
        && lists_as(me, log, decision)
        && excludes_as(log, decision)
}

/// Whether the rank `me` with this log lists each member as a decision does.
#[tactic(auto, using(crate::proofs::Placed::listed_further))]
fn lists_as(me: usize, log: &[Entry], decision: &Decision) -> bool
    ensures { IsTrue result ↔ ListsAs me log.now decision.now }
{
    for number in 0..MOST_RANKS {
        if !is_listed_as(me, log, decision, number) {
            return false;
        }
    }
    true
}

/// Whether the rank `me` with this log lists a rank as a decision does, if it is a member.
fn is_listed_as(me: usize, log: &[Entry], decision: &Decision, number: u8) -> bool
    requires { number < 8 }
    ensures { IsTrue result ↔ IsListedAs me log.now decision.now number }
{
    if !decision.old.contains(WorldRank { number }) {
        return true;
    }
    let listed = listed_of(me, log, decision.topic, number);
    list_alike(decision.entries[number as usize], listed)
}

/// Whether a decision excludes each member whose failure this log or a listed member knows, and no other.
fn excludes_as(log: &[Entry], decision: &Decision) -> bool
    ensures { IsTrue result ↔ ExcludesAs log.now decision.now }
{
    for number in 0..MOST_RANKS {
        let member = WorldRank { number };
        if !decision.old.contains(member) {
            continue;
        }
        let is_out = is_gone(log, member) || is_told(&decision.entries, member);
        if decision.excluded.contains(member) != is_out {
            return false;
        }
    }
    true
}

/// Whether two listings of a rank are the same.
#[tactic(auto, using(crate::proofs::Placed::both_listed))]
fn list_alike(one: Option<Contribution>, other: Option<Contribution>) -> bool
    ensures { IsTrue result ↔ (one ≡ other) }
{
    match (one, other) {
        (Some(one), Some(other)) => are_same(one, other),
        (None, None) => true,
        _ => false,
    }
}

/// Whether a listed rank knew of a failure.
fn is_told(entries: &Listing, rank: WorldRank) -> bool
    ensures { result ≡ list_any (λ entry. in_entry entry rank.number) entries.now }
{
    entries.iter().any(|entry| in_entry(*entry, rank))
}

/// Whether what a rank is listed with knows of a failure.
fn in_entry(entry: Option<Contribution>, rank: WorldRank) -> bool
    ensures { result ≡ in_entry entry rank.number }
{
    match entry {
        Some(brought) => brought.known.contains(rank),
        None => false,
    }
}

/// With what the rank `me` lists a rank in the decision on a topic, by its log.
fn listed_of(me: usize, log: &[Entry], topic: Topic, number: u8) -> Option<Contribution>
    ensures { result ≡ listed_of me log.now topic number }
{
    if number as usize == me {
        return entry_of(log, topic);
    }
    heard_of(log, topic, number)
}

/// What a rank brought into a topic, by an item that the log took from it.
fn heard_of(log: &[Entry], topic: Topic, number: u8) -> Option<Contribution>
    ensures { result ≡ first_given (heard_of topic number) log.now }
{
    for entry in log {
        let brought = heard_by(entry, topic, number);
        if brought.is_some() {
            return brought;
        }
    }
    None
}

/// What a rank brought into a topic, by an item that an entry took from it.
fn heard_by(entry: &Entry, topic: Topic, number: u8) -> Option<Contribution>
    ensures { result ≡ heard_of topic number entry.now }
{
    match entry {
        Entry::Took(from, item) => {
            if from.number == number {
                told_by(item, topic)
            } else {
                None
            }
        }
        _ => None,
    }
}

/// What an item tells that its sender brought into a topic.
fn told_by(item: &NotedItem, topic: Topic) -> Option<Contribution>
    ensures { result ≡ item_entry topic item.now }
{
    match item.kind() {
        ItemKind::Enter(entrance) => {
            if entrance.topic.is_same(topic) {
                Some(entrance.contribution)
            } else {
                None
            }
        }
        _ => None,
    }
}

/// Whether a log knows that a rank failed.
fn is_gone(log: &[Entry], rank: WorldRank) -> bool
    ensures { result ≡ is_gone log.now rank.number }
{
    log.iter().any(|entry| tells_gone(entry, rank))
}
