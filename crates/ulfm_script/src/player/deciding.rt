//! Shrinks and agreements that stand open.
ghost use Rattle.std.specs.Prelude.{◌≡◌, ◌+◌, length, IfSome, IfNone, IsTrue, Some};
ghost use Rattle.ulfm_job.specs.declared.step.Step.{Step as SeenStep};
ghost use Rattle.ulfm_job.specs.Job.{decides_on};
ghost use Rattle.ulfm_script.specs.Deciding.{Decides, KnowsNone};
ghost use Rattle.ulfm_script.specs.Player.{IfAnswered};

use super::Player;
use crate::called::Decided;
use crate::joint::decide;
use ulfm_answer::StepAnswer;
use ulfm_base::{CallError, Context};
use ulfm_board::Decider;
use ulfm_job::{Asked, Step};

impl Player {
    /// Asks for the decision of the open shrink of a communicator, or of the open agreement on it: hands the rank's proposal in
    /// at the board, and adopts what the board holds. A player that was prepared is answered out of memory only where the
    /// board knows no decision yet.
    pub fn decide<D: Decider>(&mut self, context: Context, board: &mut D) -> Decided
        ensures decides { Decides result self.old.player context (D.board board.old) (D.known board.old) self.new.player (D.known board.new) }
        ensures board { D.board board.new ≡ D.board board.old }
        ensures room { self.new.room + length self.new.player.done ≡ self.old.room + length self.old.player.done }
        ensures room_lacked { IfAnswered self.old.player self.new.player (λ answer. answer ≡ StepAnswer.Refused CallError.OutOfMemory → IsTrue self.old.prepared → ((asked : SeenStep) × (self.old.player.current ≡ Some asked) × KnowsNone (D.known board.old) self.old.player.rank asked)) }
        ensures prepared { result ≡ Decided.NotReady → self.new.prepared ≡ self.old.prepared }
        ensures stays_prepared { self.new.player.rank ≡ self.old.player.rank → IsTrue self.old.prepared → IsTrue self.new.prepared }
    {
        let Some(step) = self.decided_on(context) else {
            return Decided::NotReady;
        };
        let alloc = *self.done.allocator();
        let at = self.rank.log().len();
        match decide(alloc, &mut self.rank, &step, board) {
            Some(answer) => {
                self.answer(&Asked::of(&step), answer, at);
                Decided::Answered
            }
            None => Decided::NotReady,
        }
    }

    /// The open step, where ranks decide about this communicator by it.
    fn decided_on(&self, context: Context) -> Option<Step>
        ensures found { IfSome result (λ step. (self.now.player.current ≡ Some step) × (decides_on step ≡ Some context)) }
        ensures none { IfNone result ((asked : SeenStep) → self.now.player.current ≡ Some asked → decides_on asked ≡ Some context → ⊥) }
    {
        let step = self.current.as_ref()?;
        if step.is_decided_on(context) {
            step.bodiless()
        } else {
            None
        }
    }
}
