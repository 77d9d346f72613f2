//! The polls of a step that ranks decide together, a shrink or an agreement: it is entered, and then decided (ULFM).
ghost use Rattle.std.specs.Prelude.{◌≡◌, false, IfSome, IfNone, IsSome, IsTrue};
ghost use Rattle.std.specs.declared.option.Option.TheVariants.{Some};
ghost use Rattle.ulfm_base.specs.declared.topic.Topic.{Topic};
ghost use Rattle.ulfm_job.specs.declared.step.Step.TheVariants.{Shrink, Agree};
ghost use Rattle.ulfm_log.specs.Proposal.{last_agreement, last_shrink};
ghost use Rattle.ulfm_script.specs.Calls.{AnswersEntry, EntersSome};
ghost use Rattle.ulfm_script.specs.Deciding.{AnswersAdoption, AnswersDecision, HasProposal, IsReady, KnowsNone, topic_of};
ghost use Rattle.ulfm_script.specs.inside.Joint.{Proposed, ProposedOn};
ghost use Rattle.ulfm_script.specs.inside.Underway.{KeepsRoom};

use crate::members::positions_in;
use std::alloc::Global;
use ulfm_answer::StepAnswer;
use ulfm_base::{CallError, Context, Decision};
use ulfm_board::Decider;
use ulfm_job::Step;
use ulfm_log::Comm;
use ulfm_rank::Rank;

/// The first poll of a shrink. It gives why the shrink is refused, or nothing where it was entered.
pub fn enter_shrink(rank: &mut Rank, context: Context, again: bool) -> Option<StepAnswer>
    ensures answers { IfSome result (λ answer. AnswersEntry rank.old.state (Shrink context again) answer rank.new.state) }
    ensures enters { IfNone result (EntersSome rank.old.state (Shrink context again) rank.new.state) }
    ensures room_lacked { IfSome result (λ answer. answer ≡ StepAnswer.Refused CallError.OutOfMemory → rank.old.prepared ≡ false) }
    ensures keeps_room { KeepsRoom rank.old rank.new }
{
    match rank.enter_shrink_with(Comm { context }, again) {
        Ok(()) => None,
        Err(error) => Some(StepAnswer::Refused(error)),
    }
}

/// The first poll of an agreement. It gives why the agreement is refused, or nothing where it was entered.
pub fn enter_agree(rank: &mut Rank, flag: u32, context: Context) -> Option<StepAnswer>
    ensures answers { IfSome result (λ answer. AnswersEntry rank.old.state (Agree flag context) answer rank.new.state) }
    ensures enters { IfNone result (EntersSome rank.old.state (Agree flag context) rank.new.state) }
    ensures room_lacked { IfSome result (λ answer. answer ≡ StepAnswer.Refused CallError.OutOfMemory → rank.old.prepared ≡ false) }
    ensures keeps_room { KeepsRoom rank.old rank.new }
{
    match rank.enter_agree(Comm { context }, flag) {
        Ok(()) => None,
        Err(error) => Some(StepAnswer::Refused(error)),
    }
}

/// The answer of a step that was entered, by the decision that the board holds once the rank's proposal is handed in: nothing
/// where the rank has no proposal, or the step is none that ranks decide together.
pub fn decide<D: Decider>(
    alloc: Global,
    rank: &mut Rank,
    step: &Step,
    board: &mut D,
) -> Option<StepAnswer>
    ensures answers { IfSome result (λ answer. AnswersDecision (D.board board.old) (D.known board.old) (D.known board.new) rank.old.state step.now answer rank.new.state) }
    ensures none { IfNone result (IsReady rank.old.state step.now → ⊥) }
    ensures rank_stays { IfNone result (rank.new ≡ rank.old) }
    ensures known_stay { IfNone result (D.known board.new ≡ D.known board.old) }
    ensures board { D.board board.new ≡ D.board board.old }
    ensures room_lacked { IfSome result (λ answer. answer ≡ StepAnswer.Refused CallError.OutOfMemory → IsTrue rank.old.prepared → KnowsNone (D.known board.old) rank.old.state step.now) }
    ensures keeps_room { KeepsRoom rank.old rank.new }
{
    let proposal = proposal(rank, step)?;
    match board.decide(proposal) {
        Ok(held) => Some(adopt(alloc, rank, step, held)),
        Err(_) => Some(StepAnswer::Refused(CallError::OutOfMemory)),
    }
}

/// What the rank proposes for a step that it entered, if it has a proposal.
fn proposal(rank: &Rank, step: &Step) -> Option<Decision>
    ensures proposed { IfSome result (Proposed rank.now.state step.now) }
    ensures none { IfNone result (IsReady rank.now.state step.now → ⊥) }
{
    match step {
        Step::Shrink { comm, .. } => shrink_proposal(rank, *comm),
        Step::Agree { comm, .. } => verdict(rank, *comm),
        _ => None,
    }
}

/// What the rank proposes for the shrink of a communicator that it entered last, if it has a proposal.
fn shrink_proposal(rank: &Rank, context: Context) -> Option<Decision>
    ensures proposed { IfSome result (ProposedOn rank.now.state (last_shrink rank.now.state.log context)) }
    ensures none { IfNone result (HasProposal rank.now.state (last_shrink rank.now.state.log context) → ⊥) }
{
    rank.proposal(Comm { context }).ok()?
}

/// What the rank proposes for the agreement on a communicator that it entered last, if it has a proposal.
fn verdict(rank: &Rank, context: Context) -> Option<Decision>
    ensures proposed { IfSome result (ProposedOn rank.now.state (last_agreement rank.now.state.log context)) }
    ensures none { IfNone result (HasProposal rank.now.state (last_agreement rank.now.state.log context) → ⊥) }
{
    rank.verdict(Comm { context }).ok()?
}

/// The answer of a step that adopts this decision.
fn adopt(alloc: Global, rank: &mut Rank, step: &Step, held: Decision) -> StepAnswer
    requires joint { IsSome (topic_of rank.old.state.log step.now) }
    ensures answers { (topic : Topic) → topic_of rank.old.state.log step.now ≡ Some topic → AnswersAdoption rank.old.state step.now topic held result rank.new.state }
    ensures room_lacked { result ≡ StepAnswer.Refused CallError.OutOfMemory → rank.old.prepared ≡ false }
    ensures keeps_room { KeepsRoom rank.old rank.new }
{
    match step {
        Step::Shrink { comm, again } => adopt_shrink(rank, *comm, *again, held),
        Step::Agree { flag, comm } => adopt_verdict(alloc, rank, *flag, *comm, held),
        _ => unreachable!(),
    }
}

/// The answer of a shrink that adopts this decision.
fn adopt_shrink(rank: &mut Rank, context: Context, again: bool, held: Decision) -> StepAnswer
    ensures answers { AnswersAdoption rank.old.state (Shrink context again) (last_shrink rank.old.state.log context) held result rank.new.state }
    ensures room_lacked { result ≡ StepAnswer.Refused CallError.OutOfMemory → rank.old.prepared ≡ false }
    ensures keeps_room { KeepsRoom rank.old rank.new }
{
    // The word stands in the clause alone.
    let _ = again;
    let group = held.fresh.copied();
    match rank.adopt(Comm { context }, held) {
        Ok(child) => match group.rank_of(rank.me()) {
            Some(me) => StepAnswer::Shrunk(child, group, me),
            None => unreachable!(),
        },
        Err(error) => StepAnswer::Refused(error),
    }
}

/// The answer of an agreement that adopts this decision.
fn adopt_verdict(
    alloc: Global,
    rank: &mut Rank,
    flag: u32,
    context: Context,
    held: Decision,
) -> StepAnswer
    ensures answers { AnswersAdoption rank.old.state (Agree flag context) (last_agreement rank.old.state.log context) held result rank.new.state }
    ensures room_lacked { result ≡ StepAnswer.Refused CallError.OutOfMemory → rank.old.prepared ≡ false }
    ensures keeps_room { KeepsRoom rank.old rank.new }
{
    // The flag stands in the clause alone.
    let _ = flag;
    let missing = positions_in(alloc, &held.old, &held.left_out());
    match rank.adopt_verdict(Comm { context }, held) {
        Ok(value) => StepAnswer::Agreed(value, missing),
        Err(error) => StepAnswer::Refused(error),
    }
}
