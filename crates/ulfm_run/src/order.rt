//! One order of all that ranks report: what is taken is owed earlier, and what is adopted proposed (MPI 4.0, 3.5; ULFM).
//!
//! It is looked for, since the flow of items speaks of each pair of ranks at its end alone: it allows two ranks which each send after they
//! received from the other. One walk over all logs finds an order if there is one, since a rank that goes on hinders none.
//!
//! An item is owed if the sender's entries so far allow one more of its kind: of a message, that the sender sent more to this rank than it took;
//! of the notice of a stop, that the sender stopped; of word of a revocation or of an entry, that the sender's log has one. Which message it is,
//! and that it comes once, the flow says. A decision is proposed if some rank's log proposes it, up to where that rank adopted a decision on this
//! topic, or failed to for want of memory. A rank's own adoption counts, and that of another one before its entry is there: a thread may see
//! the decision between the step that hands it in and the entry.
ghost use Rattle.std.specs.Prelude.{◌≡◌, ◌≤◌, ◌↔◌, ℕ, IsTrue, IfSome, IfNone, false, length, take};
ghost use Rattle.ulfm_report_laws.specs.Order.{HaveOneOrder};
ghost use Rattle.ulfm_run.specs.inside.Walk.{GoesOn, HaveOrder, MayPass, IsOwedByWalked, StepsOn, AreAtEnds};

use crate::owing::owe;
use crate::proposing::is_proposed;
use crate::room::has_room;
use ulfm_base::{NotedItem, RANK_PLACES, WorldRank};
use ulfm_log::Entry;
use ulfm_script::RankReport;

/// By its number, how many entries of each rank were walked.
type Fronts = [usize; RANK_PLACES];

/// Whether all logs have one order. It never answers out of memory.
pub(crate) fn have_one_order(reports: &[RankReport]) -> bool
    requires { length reports.now ≤ 8 }
    ensures { IsTrue result ↔ HaveOneOrder reports.now }
{
    have_order(reports, None)
}

/// Whether all logs have one order, in which each stop has so much room, if a number is given. It walks over all of them at once: a
/// rank goes on where its next entry takes no item, or one that the entries walked of its sender owe; adopts no decision, or one that
/// a rank proposed by its entries walked; and is no stop, or one that has room.
pub(crate) fn have_order(reports: &[RankReport], room: Option<u8>) -> bool
    requires { length reports.now ≤ 8 }
    ensures { IsTrue result ↔ HaveOrder room reports.now }
{
    let mut fronts: Fronts = [0; RANK_PLACES];
    let mut last = 0;
    while let Some(rank) = step(reports, room, &mut fronts, last) {
        last = rank;
    }
    are_at_ends(reports, &fronts)
}

/// One rank goes on by an entry, the one that did last if it can. Nothing: none can.
fn step(reports: &[RankReport], room: Option<u8>, fronts: &mut Fronts, last: usize) -> Option<usize>
    requires { length reports.now ≤ 8 }
    ensures steps { IfSome result (λ rank. StepsOn room reports.now fronts.old rank fronts.new) }
    ensures stuck { IfNone result ((rank : ℕ) → GoesOn room reports.now fronts.old rank → ⊥) }
    ensures stays { IfNone result (fronts.new ≡ fronts.old) }
{
    if go_on(reports, room, fronts, last) {
        return Some(last);
    }
    for rank in 0..reports.len() {
        if go_on(reports, room, fronts, rank) {
            return Some(rank);
        }
    }
    None
}

/// A rank goes on by an entry, if it can. Whether it did.
fn go_on(reports: &[RankReport], room: Option<u8>, fronts: &mut Fronts, rank: usize) -> bool
    requires { length reports.now ≤ 8 }
    ensures steps { IsTrue result → StepsOn room reports.now fronts.old rank fronts.new }
    ensures stuck { result ≡ false → GoesOn room reports.now fronts.old rank → ⊥ }
    ensures stays { result ≡ false → fronts.new ≡ fronts.old }
{
    let Some(report) = reports.get(rank) else {
        return false;
    };
    let log = report.log();
    let front = fronts[rank];
    let Some(entry) = log.get(front) else {
        return false;
    };
    if !may_pass(reports, room, fronts, rank, &log[..front], entry) {
        return false;
    }
    fronts[rank] = front + 1;
    true
}

/// Whether an entry of a rank, whose log was `before`, takes an item that is owed, adopts a decision that was proposed, stops where there
/// is room, if a number is given, or does none of these.
fn may_pass(
    reports: &[RankReport],
    room: Option<u8>,
    fronts: &Fronts,
    rank: usize,
    before: &[Entry],
    entry: &Entry,
) -> bool
    requires { length reports.now ≤ 8 }
    ensures { IsTrue result ↔ MayPass room reports.now fronts.now rank before.now entry.now }
{
    match entry {
        Entry::Took(source, item) => is_owed(reports, fronts, *source, rank, before, item),
        Entry::Adopted(held) => is_proposed(reports, fronts, rank, held.decision()),
        Entry::Stopped => match room {
            Some(capacity) => has_room(reports, fronts, rank, capacity),
            None => true,
        },
        _ => true,
    }
}

/// Whether the entries walked of a rank owe an item to a taker, whose log was `before`.
fn is_owed(
    reports: &[RankReport],
    fronts: &Fronts,
    source: WorldRank,
    taker: usize,
    before: &[Entry],
    item: &NotedItem,
) -> bool
    requires { length reports.now ≤ 8 }
    ensures { IsTrue result ↔ IsOwedByWalked reports.now fronts.now source.number taker before.now item.now }
{
    let number = source.number as usize;
    match reports.get(number) {
        Some(sender) => {
            let walked = first(sender.log(), fronts[number]);
            owe(source, taker, walked, before, item)
        }
        None => false,
    }
}

/// The first entries of a log, as many as this, or all.
pub(crate) fn first(log: &[Entry], count: usize) -> &[Entry]
    ensures { result.now ≡ take count log.now }
{
    if count < log.len() {
        return &log[..count];
    }
    log
}

/// Whether all logs were walked to their ends.
fn are_at_ends(reports: &[RankReport], fronts: &Fronts) -> bool
    requires { length reports.now ≤ 8 }
    ensures { IsTrue result ↔ AreAtEnds reports.now fronts.now }
{
    for (rank, report) in reports.iter().enumerate() {
        if fronts[rank] < report.log().len() {
            return false;
        }
    }
    true
}
