//! Steps that are refused since a decision isn't one for their rank to adopt (ULFM, shrink and agree).
ghost use Rattle.std.specs.Prelude.{◌≡◌, ◌≢◌, ◌↔◌, ℕ, IsTrue, Some, slice_get};
ghost use Rattle.ulfm_report_laws.specs.Decisions.{NoneIsForeign};
ghost use Rattle.ulfm_answer.specs.declared.answer.StepReport.{StepReport as Answered};

use ulfm_answer::{StepAnswer, StepReport};
use ulfm_base::CallError;
use ulfm_script::RankReport;

/// Whether no step of any rank is refused so. It never answers out of memory.
pub(crate) fn none_is_foreign(reports: &[RankReport]) -> bool
    ensures { IsTrue result ↔ NoneIsForeign reports.now }
{
    for report in reports {
        if !are_own(report.steps()) {
            return false;
        }
    }
    true
}

/// Whether none of these steps is refused so.
fn are_own(steps: &[StepReport]) -> bool
    ensures { IsTrue result ↔ ((k : ℕ) (step : Answered) → slice_get steps.now k ≡ Some step → step.answer ≢ StepAnswer.Refused CallError.NotMember) }
{
    for step in steps {
        if is_foreign(&step.answer) {
            return false;
        }
    }
    true
}

/// Whether an answer is that a decision isn't one for this rank to adopt.
fn is_foreign(answer: &StepAnswer) -> bool
    ensures { IsTrue result ↔ (answer.now ≡ StepAnswer.Refused CallError.NotMember) }
{
    match answer {
        StepAnswer::Refused(CallError::NotMember) => true,
        _ => false,
    }
}
