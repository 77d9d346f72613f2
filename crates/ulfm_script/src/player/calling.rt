//! Polls of steps, and steps that take none.
ghost use Rattle.std.specs.Prelude.{◌≡◌, ◌<◌, ◌+◌, length, false, IsTrue, IsSome, Some, None};
ghost use Rattle.ulfm_job.specs.Job.{bodiless};
ghost use Rattle.ulfm_job.specs.declared.step.Step.{Step as SeenStep};
ghost use Rattle.ulfm_log.specs.Facts.{is_stopped};
ghost use Rattle.ulfm_script.specs.Calls.{IsShort};
ghost use Rattle.ulfm_script.specs.Player.{polled, polled_on, IsFree, IsPolledInVain, Polls, IsCalled, IfAnswered, GivesUpStep, SkipsStep, awaits_decision};
ghost use Rattle.ulfm_answer.specs.Reacting.{is_played};

use super::Player;
use crate::called::Called;
use crate::poll::poll;
use ulfm_answer::{StepAnswer, is_played};
use ulfm_base::CallError;
use ulfm_job::{Asked, Condition, Step};

impl Player {
    /// One poll of a step, and whether it answered it. Where the step is open already, this is a further poll of it. A
    /// player that was prepared isn't answered out of memory, but for the send of a body of more than 30 bytes.
    pub fn call(&mut self, asked: &Asked<'_>) -> Called
        requires running { is_stopped self.old.player.rank.log ≡ false }
        requires free { IsFree self.old.player asked.now }
        requires room { self.old.player.current ≡ None → 0 < self.old.room }
        ensures polls { Polls result self.old.player asked.now self.new.player }
        ensures called { IsCalled self.old.player asked.now self.new.player }
        ensures room { self.new.room + length self.new.player.done ≡ self.old.room + length self.old.player.done }
        ensures room_lacked { IsShort asked.now → IfAnswered self.old.player self.new.player (λ answer. answer ≡ StepAnswer.Refused CallError.OutOfMemory → self.old.prepared ≡ false) }
        ensures stays_prepared { self.new.player.rank ≡ self.old.player.rank → IsTrue self.old.prepared → IsTrue self.new.prepared }
    {
        let at = self.rank.log().len();
        if self.awaits_decision() {
            self.stay_open(asked, at);
            return Called::NotYet;
        }
        match poll(&mut self.rank, &self.done, asked) {
            Some(answer) => {
                self.answer(asked, answer, at);
                Called::Answered
            }
            None => {
                self.stay_open(asked, at);
                Called::NotYet
            }
        }
    }

    /// Whether a shrink or an agreement that was entered stands open.
    pub fn awaits_decision(&self) -> bool
        ensures { result ≡ awaits_decision self.now.player.current }
    {
        matches!(
            &self.current,
            Some(Step::Shrink { .. } | Step::Agree { .. })
        )
    }

    /// Gives the open step the answer `unfinished`. It never answers out of memory.
    pub fn leave(&mut self)
        requires { IsSome self.old.player.current }
        ensures left { GivesUpStep self.old.player self.new.player }
        ensures room { self.new.room + length self.new.player.done ≡ self.old.room + length self.old.player.done }
        ensures prepared { self.new.prepared ≡ self.old.prepared }
    {
        if let Some(step) = self.current.take() {
            self.answer(&Asked::of(&step), StepAnswer::Unfinished, self.at);
        }
    }

    /// Whether the next step is to be played, on these conditions: it has none, or all those of one of its alternatives hold of the
    /// answers so far. It never answers out of memory.
    pub fn is_next_played(&self, conditions: &[Condition]) -> bool
        ensures { result ≡ is_played conditions.now self.now.player.rank.me self.now.player.done }
    {
        is_played(
            *self.done.allocator(),
            conditions,
            self.rank.me().number,
            self.done.as_slice(),
        )
    }

    /// Gives the next step the answer `skipped`, without a poll. It never answers out of memory.
    pub fn skip(&mut self, asked: &Asked<'_>)
        requires none_open { self.old.player.current ≡ None }
        requires room { 0 < self.old.room }
        ensures skipped { SkipsStep self.old.player asked.now self.new.player }
        ensures room { self.new.room + length self.new.player.done ≡ self.old.room + length self.old.player.done }
        ensures prepared { self.new.prepared ≡ self.old.prepared }
    {
        let at = self.rank.log().len();
        self.answer(asked, StepAnswer::Skipped, at);
    }

    /// One more poll, begun at this length of the log, left the step open.
    fn stay_open(&mut self, asked: &Asked<'_>, at: usize)
        requires room { 0 < self.old.room }
        requires bodiless { bodiless asked.now ≡ Some asked.now }
        ensures player { self.new.player ≡ polled self.old.player asked.now at }
        ensures room { self.new.room ≡ self.old.room }
        ensures prepared { self.new.prepared ≡ self.old.prepared }
    {
        self.current = asked.bodiless();
        self.at = at;
        self.polls = self.polls.saturating_add(1);
    }

    /// So many more polls of the open step at once, where the next one is in vain: then they all are. It never answers out of
    /// memory.
    pub fn poll_on(&mut self, times: u32)
        requires { (asked : SeenStep) × IsPolledInVain self.old.player asked }
        ensures player { self.new.player ≡ polled_on self.old.player times }
        ensures room { self.new.room ≡ self.old.room }
        ensures prepared { self.new.prepared ≡ self.old.prepared }
    {
        self.at = self.rank.log().len();
        self.polls = self.polls.saturating_add(times);
    }
}
