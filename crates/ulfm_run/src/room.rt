//! Room on the way from rank to rank and in inboxes, as reports tell of it (ULFM, stops).
//!
//! The program asks for it, which makes the ends: `run_job` doesn't know their places. Before its stop a rank's items may wait in its outbox,
//! so they need no room. Of what was on the way only what was taken counts, since no report tells when a lost item was lost. It is counted by
//! pairs of ranks, as rings have places, also over shared inboxes, which hold less.
ghost use Rattle.std.specs.Prelude.{◌≡◌, ◌≤◌, ◌↔◌, IsTrue, length};
ghost use Rattle.ulfm_report_laws.specs.Flow.{AreWithin};
ghost use Rattle.ulfm_report_laws.specs.Room.{HaveRoom, takes_sent, taken_behind};
ghost use Rattle.ulfm_run.specs.Flow.{contents};
ghost use Rattle.ulfm_run.specs.inside.Walk.{HasRoomNow};

use crate::left::are_within;
use crate::order::have_order;
use crate::report::Report;
use ulfm_log::{Entry, is_gone_item};
use ulfm_script::RankReport;

/// Whether rings of so many places allow what ranks did and what is left in their inboxes. Then all logs have an order in which, where a
/// rank stopped, no more items of it were under way to any other than a ring has places, of those that were taken at all. And what is
/// left of any sender in an inbox is no more than a ring has places. So it is with each run over ends of so many places. It never answers
/// out of memory.
pub fn fits<E, D>(report: &Report<E, D>, capacity: u8) -> bool
    requires few { length report.now.ranks.items ≤ 8 }
    ensures { IsTrue result ↔ (HaveRoom report.now.ranks.items capacity × AreWithin (contents report.now.residue.inboxes.items) capacity) }
{
    are_within(&report.residue.inboxes, capacity) && have_order(&report.ranks, Some(capacity))
}

/// Whether of what each rank takes of this one no more than so much wasn't walked.
pub(crate) fn has_room(
    reports: &[RankReport],
    fronts: &[usize; 8],
    source: usize,
    capacity: u8,
) -> bool
    requires { length reports.now ≤ 8 }
    ensures { IsTrue result ↔ HasRoomNow reports.now fronts.now source capacity }
{
    for (rank, report) in reports.iter().enumerate() {
        let behind = taken_behind(report.log(), fronts[rank], source);
        if behind > capacity as usize {
            return false;
        }
    }
    true
}

/// How many items that a rank sent before its stop a log takes behind its first entries, as many as this.
#[tactic(auto, using(crate::proofs::Behind::none_behind))]
fn taken_behind(log: &[Entry], count: usize, source: usize) -> usize
    ensures { result ≡ taken_behind source count log.now }
{
    if count >= log.len() {
        return 0;
    }
    log[count..]
        .iter()
        .filter(|entry| takes_sent(entry, source))
        .count()
}

/// Whether an entry takes an item that a rank sent before its stop.
fn takes_sent(entry: &Entry, source: usize) -> bool
    ensures { result ≡ takes_sent source entry.now }
{
    match entry {
        Entry::Took(from, item) => from.number as usize == source && !is_gone_item(item),
        _ => false,
    }
}
