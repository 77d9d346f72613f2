//! Whether a run came to rest.
ghost use Rattle.std.specs.Prelude.{◌≡◌, ◌↔◌, ◌<◌, [], ℕ, IsTrue};
ghost use Rattle.ulfm_base.specs.Lists.{at};
ghost use Rattle.ulfm_report_laws.specs.Flow.{inbox_of};
ghost use Rattle.ulfm_report_laws.specs.Reports.{IsRunning};
ghost use Rattle.ulfm_report_laws.specs.Rest.{IsAtRest, IsServed};
ghost use Rattle.ulfm_log.specs.State.{outbox};
ghost use Rattle.ulfm_run.specs.Flow.{contents};
ghost use Rattle.ulfm_answer.specs.Report.{Report as Told};

use crate::report::Report;
use ulfm_carrier::Residue;
use ulfm_script::RankReport;

/// Whether nothing waits for any rank that goes on running: its inbox is empty, and so is each outbox towards it, also that
/// of a rank that stopped. Of a report of `run_job` each such rank then knows each rank that stopped, and all agree which
/// contexts are revoked. Where all those of a communicator entered its shrink, or one agreement on it, each of them has a
/// proposal there.
pub fn at_rest<E, D>(report: &Report<E, D>) -> bool
    ensures { IsTrue result ↔ IsAtRest (contents report.now.residue.inboxes.items) report.now.ranks.items }
{
    for d in 0..report.ranks.len() {
        if !is_resting(report, &report.ranks[d], d) {
            return false;
        }
    }
    true
}

/// Whether a rank stopped, or nothing waits for it.
fn is_resting<E, D>(report: &Report<E, D>, told: &RankReport, d: usize) -> bool
    ensures { IsTrue result ↔ (IsRunning told.now → IsServed (contents report.now.residue.inboxes.items) report.now.ranks.items d) }
{
    told.stopped() || is_served(report, d)
}

/// Whether nothing waits for a rank.
fn is_served<E, D>(report: &Report<E, D>, d: usize) -> bool
    ensures { IsTrue result ↔ IsServed (contents report.now.residue.inboxes.items) report.now.ranks.items d }
{
    is_inbox_empty(&report.residue, d) && are_outboxes_empty(&report.ranks, d)
}

/// Whether the inbox of a rank is empty.
fn is_inbox_empty(residue: &Residue, d: usize) -> bool
    ensures { IsTrue result ↔ (inbox_of (contents residue.now.inboxes.items) d ≡ []) }
{
    match residue.inboxes.get(d) {
        Some(inbox) => inbox.is_empty(),
        None => true,
    }
}

/// Whether each outbox towards a rank is empty.
fn are_outboxes_empty(ranks: &Vec<RankReport>, d: usize) -> bool
    ensures { IsTrue result ↔ ((s : ℕ) (sender : Told) → at ranks.now.items s sender → d < sender.rank.ranks → outbox sender.rank d ≡ []) }
{
    for sender in ranks {
        if d < sender.ranks() as usize && !sender.is_outbox_empty(d as u8) {
            return false;
        }
    }
    true
}
