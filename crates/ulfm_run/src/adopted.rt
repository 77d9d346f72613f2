//! The decisions that ranks adopted, held against what the ranks report (ULFM, shrink and agree).
ghost use Rattle.std.specs.Prelude.{◌≡◌, ◌↔◌, ℕ, IsTrue, Some, slice_get};
ghost use Rattle.ulfm_log.specs.declared.entry.Entry.{Entry as Logged};
ghost use Rattle.ulfm_log.specs.Log.{first_given};
ghost use Rattle.ulfm_log.specs.Proposal.{entry_of};
ghost use Rattle.ulfm_report_laws.specs.Decisions.{AreTrue, AdoptsTruly, IsTrueOf, ExcludesStopped, ListsTruly, StoppedAt, EnteredWith};

use ulfm_base::{Contribution, Decision, Listing, MOST_RANKS, RankSet, Topic, WorldRank};
use ulfm_log::Entry;
use ulfm_script::RankReport;

/// Whether each decision that a rank adopted lists each rank with what that rank's own entrance brought, and excludes
/// stopped ranks alone. It never answers out of memory.
pub(crate) fn are_true(reports: &[RankReport]) -> bool
    ensures { IsTrue result ↔ AreTrue reports.now }
{
    for report in reports {
        if !adopts_truly(reports, report.log()) {
            return false;
        }
    }
    true
}

/// Whether each decision that a log adopts is true of what the ranks report.
fn adopts_truly(reports: &[RankReport], log: &[Entry]) -> bool
    ensures { IsTrue result ↔ ((k : ℕ) (entry : Logged) → slice_get log.now k ≡ Some entry → AdoptsTruly reports.now entry) }
{
    for entry in log {
        if !is_truly_adopted(reports, entry) {
            return false;
        }
    }
    true
}

/// Whether the decision that an entry adopts, if it adopts one, is true of what the ranks report.
fn is_truly_adopted(reports: &[RankReport], entry: &Entry) -> bool
    ensures { IsTrue result ↔ AdoptsTruly reports.now entry.now }
{
    match entry {
        Entry::Adopted(held) => is_true(reports, held.decision()),
        _ => true,
    }
}

/// Whether a decision is true of what the ranks report.
fn is_true(reports: &[RankReport], decision: &Decision) -> bool
    ensures { IsTrue result ↔ IsTrueOf reports.now decision.now }
{
    lists_truly(reports, decision.topic, decision.entries)
        && excludes_stopped(reports, decision.excluded)
}

/// Whether each listed rank reports that it entered a topic, and brought what is listed for it.
fn lists_truly(reports: &[RankReport], topic: Topic, entries: Listing) -> bool
    ensures { IsTrue result ↔ ListsTruly reports.now topic entries }
{
    for number in 0..MOST_RANKS {
        if let Some(brought) = entries[number as usize] {
            if !entered_with(reports, WorldRank { number }, topic, brought) {
                return false;
            }
        }
    }
    true
}

/// Whether each excluded rank reports that it stopped.
fn excludes_stopped(reports: &[RankReport], excluded: RankSet) -> bool
    ensures { IsTrue result ↔ ExcludesStopped reports.now excluded }
{
    for number in 0..MOST_RANKS {
        let rank = WorldRank { number };
        if excluded.contains(rank) && !has_stopped(reports, rank) {
            return false;
        }
    }
    true
}

/// Whether a rank reports that it entered a topic, and brought this.
fn entered_with(
    reports: &[RankReport],
    rank: WorldRank,
    topic: Topic,
    brought: Contribution,
) -> bool
    ensures { IsTrue result ↔ EnteredWith reports.now rank.number topic brought }
{
    let Some(report) = reports.get(rank.number as usize) else {
        return false;
    };
    match entry_of(report.log(), topic) {
        Some(own) => are_same(own, brought),
        None => false,
    }
}

/// Whether two contributions are the same.
pub(crate) fn are_same(one: Contribution, other: Contribution) -> bool
    ensures { IsTrue result ↔ (one ≡ other) }
{
    one.is_same(other)
}

/// Whether a rank reports that it stopped.
fn has_stopped(reports: &[RankReport], rank: WorldRank) -> bool
    ensures { IsTrue result ↔ StoppedAt reports.now rank.number }
{
    match reports.get(rank.number as usize) {
        Some(report) => report.stopped(),
        None => false,
    }
}

/// What a log brings into a topic, if it enters it.
pub(crate) fn entry_of(log: &[Entry], topic: Topic) -> Option<Contribution>
    ensures { result ≡ first_given (entry_of topic) log.now }
{
    for entry in log {
        let brought = entered_by(entry, topic);
        if brought.is_some() {
            return brought;
        }
    }
    None
}

/// What an entry brings into a topic, if it enters it.
fn entered_by(entry: &Entry, topic: Topic) -> Option<Contribution>
    ensures { result ≡ entry_of topic entry.now }
{
    match entry {
        Entry::Entered(entrance) => {
            if entrance.topic.is_same(topic) {
                Some(entrance.contribution)
            } else {
                None
            }
        }
        _ => None,
    }
}
