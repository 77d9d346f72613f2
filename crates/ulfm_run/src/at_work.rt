//! A rank at work, turn by turn.
ghost use Rattle.std.specs.Prelude.{◌≡◌, ◌<◌, ◌↔◌, ℕ, [], IsTrue};
ghost use Rattle.ulfm_log.specs.State.{outbox};
ghost use Rattle.ulfm_job.specs.Job.{script_at};
ghost use Rattle.ulfm_script.specs.Script.{HasFinished};
ghost use Rattle.ulfm_run.specs.inside.Joined.{IsAtWork};
ghost use Rattle.ulfm_run.specs.inside.Turns.{IsOver, Keeps, WentOn};

use crate::finished::Finished;
use crate::polling::{next_played, poll};
use crate::worker::Worker;
use std::convert::Infallible;
use std::sync::Wait;
use std::sync::atomic::Ordering;
use std::thread;
use ulfm_board::Decider;
use ulfm_carrier::Ends;
use ulfm_job::Job;
use ulfm_script::{Hands, turn};

/// Once all ranks have finished, each ends after so many of its turns in a row that moved nothing.
const STILL_TURNS: u32 = 100;

/// The worker of the rank `me` at its job, with what it waits by.
#[derive(Drop)]
pub(crate) struct AtWork<'a, R, E, D> {
    pub(crate) rt: &'a R,
    pub(crate) job: &'a Job,
    pub(crate) finished: &'a Finished,
    pub(crate) me: u8,
    pub(crate) worker: Worker<E, D>,
}

impl<R: Wait, E: Ends, D: Decider> Hands for AtWork<'_, R, E, D> {
    ghost use Rattle.std.specs.Prelude.{⊤, ◌≡◌, length, is_some};
    ghost use Rattle.std.proofs.Common.{refl, ap, sym, subst, ◌∙◌};
    ghost use Rattle.ulfm_log.specs.State.{outbox};
    ghost use Rattle.ulfm_job.specs.Job.{JobView, script_at};
    ghost use Rattle.ulfm_run.specs.inside.Joined.{IsAtWork};
    ghost use Rattle.ulfm_run.specs.inside.Turns.{Keeps, Carries, WentOn, carries-none, carries-then};

    type Fault = Infallible;

    type Polled = Option<bool>;

    ghost size = { λ w. w.job.now.ranks };

    ghost fits = { λ w. IsAtWork E.place E.count E.pushed E.taken E.ready w.job.now w.me w.worker.player w.worker.end };

    ghost moves = { λ a b moved. (b.job.now ≡ a.job.now) × (b.me ≡ a.me) × Carries E.name E.place E.count E.pushed E.taken E.ready D.board D.known a.job.now a.me a.worker.player a.worker.end a.worker.decider b.worker.player b.worker.end b.worker.decider };

    ghost waits = { λ w dest. length (outbox w.worker.player.player.rank dest) };

    ghost stuck = { λ w at. ⊤ };

    ghost polls = { λ a b polled. (b.job.now ≡ a.job.now) × (b.me ≡ a.me) × Keeps E.name E.place E.count E.pushed E.taken E.ready D.board D.known a.job.now a.me a.worker.player a.worker.end a.worker.decider b.worker.player b.worker.end b.worker.decider
        × WentOn (script_at a.job.now a.me) a.job.now.turns a.worker.player.player b.worker.player.player (is_some polled) };

    ghost none = { λ w f. (refl, refl, carries-none E.name E.place E.count E.pushed E.taken E.ready D.board D.known w.job.now w.me w.worker.player w.worker.end w.worker.decider) };

    ghost more = { λ a b c m h k. (k.0 ∙ h.0, k.1 ∙ h.1, carries-then E.name E.place E.count E.pushed E.taken E.ready D.board D.known a.job.now a.me a.worker.player b.worker.player c.worker.player a.worker.end b.worker.end c.worker.end a.worker.decider b.worker.decider c.worker.decider h.2 (subst (λ (j : JobView). Carries E.name E.place E.count E.pushed E.taken E.ready D.board D.known j a.me b.worker.player b.worker.end b.worker.decider c.worker.player c.worker.end c.worker.decider) h.0 (subst (λ r. Carries E.name E.place E.count E.pushed E.taken E.ready D.board D.known b.job.now r b.worker.player b.worker.end b.worker.decider c.worker.player c.worker.end c.worker.decider) h.1 k.2))) };

    ghost same = { λ a b c m h k. (k.0 ∙ h.0, k.1 ∙ h.1, carries-then E.name E.place E.count E.pushed E.taken E.ready D.board D.known a.job.now a.me a.worker.player b.worker.player c.worker.player a.worker.end b.worker.end c.worker.end a.worker.decider b.worker.decider c.worker.decider h.2 (subst (λ (j : JobView). Carries E.name E.place E.count E.pushed E.taken E.ready D.board D.known j a.me b.worker.player b.worker.end b.worker.decider c.worker.player c.worker.end c.worker.decider) h.0 (subst (λ r. Carries E.name E.place E.count E.pushed E.taken E.ready D.board D.known b.job.now r b.worker.player b.worker.end b.worker.decider c.worker.player c.worker.end c.worker.decider) h.1 k.2))) };

    ghost keeps = { λ a b m f h. subst (λ (j : JobView). IsAtWork E.place E.count E.pushed E.taken E.ready j b.me b.worker.player b.worker.end) (sym h.0) (subst (λ r. IsAtWork E.place E.count E.pushed E.taken E.ready a.job.now r b.worker.player b.worker.end) (sym h.1) (h.2.keeps.at_work f)) };

    ghost sized = { λ a b m h. ap (λ (j : JobView). j.ranks) h.0 };

    ghost still = { λ a b at h k. tt };

    fn ranks(&self) -> u8 {
        self.job.ranks()
    }

    fn push_one(&mut self, dest: u8) -> Result<bool, Infallible> {
        let Some(item) = self.worker.player.take_out(dest) else {
            return Ok(false);
        };
        match self.worker.end.push(self.rt, dest, item) {
            Ok(()) => Ok(true),
            Err(back) => {
                self.worker.player.put_back(dest, back);
                Ok(false)
            }
        }
    }

    fn take_one(&mut self) -> Result<bool, Infallible> {
        if self.worker.player.is_stopped() {
            return Ok(false);
        }
        if self.worker.player.prepare().is_err() {
            self.worker.starved = self.worker.starved.saturating_add(1);
            return Ok(false);
        }
        match self.worker.end.pop(self.rt) {
            Some((source, item)) => {
                self.worker.player.take(source, item);
                Ok(true)
            }
            None => Ok(false),
        }
    }

    fn poll(&mut self) -> Result<Option<bool>, Infallible> {
        let worker = &mut self.worker;
        if worker.player.is_stopped() {
            return Ok(None);
        }
        let Some(asked) = next_played(self.job, self.me, &mut worker.player) else {
            return Ok(None);
        };
        let answered = poll(
            self.job,
            self.me,
            &mut worker.player,
            &mut worker.decider,
            &asked,
        );
        Ok(Some(answered))
    }
}

impl<R: Wait, E: Ends, D: Decider> AtWork<'_, R, E, D> {
    /// Turn by turn through the steps, and then on for the others.
    pub(crate) fn go_through(&mut self)
        requires at_work { IsAtWork E.place E.count E.pushed E.taken E.ready self.old.job.now self.old.me self.old.worker.player self.old.worker.end }
        ensures keeps { Keeps E.name E.place E.count E.pushed E.taken E.ready D.board D.known self.old.job.now self.old.me self.old.worker.player self.old.worker.end self.old.worker.decider self.new.worker.player self.new.worker.end self.new.worker.decider }
        ensures done { HasFinished self.old.job.now self.old.me self.new.worker.player.player }
    {
        while let (_, true) = self.go_on() {}
        self.finished.count.fetch_add(1, Ordering::SeqCst);
        self.serve();
    }

    /// Turns without a step, for the others: until all ranks have finished and then `STILL_TURNS` in a row moved nothing. With the one
    /// that found no step left they are at most as many as a step has polls. A rank that stopped goes on only until nothing is left to go
    /// out. They end before that, since with a million turns for a step a run would else take seconds to do nothing.
    fn serve(&mut self)
        requires at_work { IsAtWork E.place E.count E.pushed E.taken E.ready self.old.job.now self.old.me self.old.worker.player self.old.worker.end }
        requires over { IsOver (script_at self.old.job.now self.old.me) self.old.worker.player.player }
        ensures keeps { Keeps E.name E.place E.count E.pushed E.taken E.ready D.board D.known self.old.job.now self.old.me self.old.worker.player self.old.worker.end self.old.worker.decider self.new.worker.player self.new.worker.end self.new.worker.decider }
        ensures over { IsOver (script_at self.old.job.now self.old.me) self.new.worker.player.player }
    {
        let mut left = self.job.turns() - 1;
        let mut still = 0;
        while left > 0 && still < STILL_TURNS {
            if self.worker.player.is_stopped() && self.has_pushed_all() {
                return;
            }
            let have_finished = self.finished.count.load(Ordering::SeqCst) >= self.job.ranks();
            let (moved, _) = self.go_on();
            still = if have_finished && !moved {
                still + 1
            } else {
                0
            };
            left -= 1;
        }
    }

    /// A turn. Whether items moved, and whether a step was left to poll.
    fn go_on(&mut self) -> (bool, bool)
        requires at_work { IsAtWork E.place E.count E.pushed E.taken E.ready self.old.job.now self.old.me self.old.worker.player self.old.worker.end }
        ensures same_job { (self.new.job.now ≡ self.old.job.now) × (self.new.me ≡ self.old.me) }
        ensures keeps { Keeps E.name E.place E.count E.pushed E.taken E.ready D.board D.known self.old.job.now self.old.me self.old.worker.player self.old.worker.end self.old.worker.decider self.new.worker.player self.new.worker.end self.new.worker.decider }
        ensures polls { WentOn (script_at self.old.job.now self.old.me) self.old.job.now.turns self.old.worker.player.player self.new.worker.player.player result.1 }
    {
        let Ok((moved, polled)) = turn(self);
        if !moved && !polled.unwrap_or(false) {
            thread::yield_now();
        }
        (moved, polled.is_some())
    }

    /// Whether the outboxes towards all ranks hold nothing.
    fn has_pushed_all(&self) -> bool
        requires at_work { IsAtWork E.place E.count E.pushed E.taken E.ready self.now.job.now self.now.me self.now.worker.player self.now.worker.end }
        ensures all { IsTrue result ↔ ((dest : ℕ) → dest < self.now.job.now.ranks → outbox self.now.worker.player.player.rank dest ≡ []) }
    {
        for dest in 0..self.job.ranks() {
            if !self.worker.player.is_outbox_empty(dest) {
                return false;
            }
        }
        true
    }
}
