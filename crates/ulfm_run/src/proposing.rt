//! Whether a decision is a proposal that a rank made, by what was walked of it (ULFM, shrink and agree).
ghost use Rattle.std.specs.Prelude.{◌≡◌, ◌≤◌, ◌↔◌, IsTrue, length};
ghost use Rattle.ulfm_run.specs.inside.Listed.{AdoptsHere, IsAdoptedWithin, IsAdoption, IsProposedByRank, IsProposedIn, IsStarvedWithin, StarvesHere};
ghost use Rattle.ulfm_run.specs.inside.Walk.{IsProposedByWalked};

use crate::listing::proposes_by;
use crate::order::first;
use crate::step_topic::is_decided_on;
use ulfm_answer::{StepAnswer, StepReport};
use ulfm_base::{CallError, Decision, Topic};
use ulfm_log::Entry;
use ulfm_script::RankReport;

/// Whether a rank proposed a decision at a place up to which it was walked. The rank `own` is looked at first.
pub(crate) fn is_proposed(
    reports: &[RankReport],
    fronts: &[usize; 8],
    own: usize,
    decision: &Decision,
) -> bool
    requires { length reports.now ≤ 8 }
    ensures { IsTrue result ↔ IsProposedByWalked reports.now fronts.now decision.now }
{
    is_proposed_by(reports, fronts, own, decision) || is_proposed_by_any(reports, fronts, decision)
}

/// Whether some rank proposed a decision at a place up to which it was walked.
#[tactic(auto, using(crate::proofs::Placed::none_further, crate::proofs::Placed::none_at_all))]
fn is_proposed_by_any(reports: &[RankReport], fronts: &[usize; 8], decision: &Decision) -> bool
    requires { length reports.now ≤ 8 }
    ensures { IsTrue result ↔ IsProposedByWalked reports.now fronts.now decision.now }
{
    for rank in 0..reports.len() {
        if is_proposed_by(reports, fronts, rank, decision) {
            return true;
        }
    }
    false
}

/// Whether this rank proposed a decision at a place up to which it was walked.
fn is_proposed_by(
    reports: &[RankReport],
    fronts: &[usize; 8],
    rank: usize,
    decision: &Decision,
) -> bool
    requires { length reports.now ≤ 8 }
    ensures { IsTrue result ↔ IsProposedByRank reports.now fronts.now rank decision.now }
{
    match reports.get(rank) {
        Some(report) => is_proposed_in(rank, report, fronts[rank], decision),
        None => false,
    }
}

/// Whether the rank `me` proposed a decision at a place up to this front.
fn is_proposed_in(me: usize, report: &RankReport, front: usize, decision: &Decision) -> bool
    ensures { IsTrue result ↔ IsProposedIn me report.now front decision.now }
{
    adopts_it(me, report.log(), front, decision)
        || starves_on_it(me, report.log(), report.steps(), front, decision)
}

/// Whether the rank `me` proposed a decision where it adopted one on its topic, up to this front.
fn adopts_it(me: usize, log: &[Entry], front: usize, decision: &Decision) -> bool
    ensures { IsTrue result ↔ IsAdoptedWithin me log.now front decision.now }
{
    for (place, entry) in log.iter().enumerate() {
        if adopts_here(me, log, front, decision, place, entry) {
            return true;
        }
    }
    false
}

/// Whether an entry at a place up to this front adopts a decision on the topic of this one, which the rank `me` proposes there.
fn adopts_here(
    me: usize,
    log: &[Entry],
    front: usize,
    decision: &Decision,
    place: usize,
    entry: &Entry,
) -> bool
    ensures { IsTrue result ↔ AdoptsHere me log.now front decision.now place entry.now }
{
    place <= front && adopts(entry, decision.topic) && proposes_by(me, first(log, place), decision)
}

/// Whether the rank `me` proposed a decision where a step on its topic found no memory, up to this front.
fn starves_on_it(
    me: usize,
    log: &[Entry],
    steps: &[StepReport],
    front: usize,
    decision: &Decision,
) -> bool
    ensures { IsTrue result ↔ IsStarvedWithin me log.now steps.now front decision.now }
{
    for step in steps {
        if starves_here(me, log, front, decision, step) {
            return true;
        }
    }
    false
}

/// Whether a step that is decided on the topic of a decision found no memory at a place up to this front, and the rank `me` proposes
/// the decision there.
fn starves_here(
    me: usize,
    log: &[Entry],
    front: usize,
    decision: &Decision,
    step: &StepReport,
) -> bool
    ensures { IsTrue result ↔ StarvesHere me log.now front decision.now step.now }
{
    step.at <= front
        && step.at <= log.len()
        && starves(&step.answer)
        && is_decided_on(&step.step, first(log, step.at), decision.topic)
        && proposes_by(me, first(log, step.at), decision)
}

/// Whether an entry adopts a decision on a topic.
#[tactic(auto, using(crate::proofs::Placed::one_topic))]
fn adopts(entry: &Entry, topic: Topic) -> bool
    ensures { IsTrue result ↔ IsAdoption entry.now topic }
{
    match entry {
        Entry::Adopted(held) => held.decision().topic.is_same(topic),
        _ => false,
    }
}

/// Whether an answer is that no memory was found.
fn starves(answer: &StepAnswer) -> bool
    ensures { IsTrue result ↔ (answer.now ≡ StepAnswer.Refused CallError.OutOfMemory) }
{
    match answer {
        StepAnswer::Refused(CallError::OutOfMemory) => true,
        _ => false,
    }
}
