//! A rank with what it works with.
ghost use Rattle.std.specs.Prelude.{◌≡◌};
ghost use Rattle.ulfm_script.specs.Answered.{AnswersFollow};
ghost use Rattle.ulfm_script.specs.inside.SoFar.{AnswersFollowSoFar};
ghost use Rattle.ulfm_run.specs.inside.Joined.{IsAtWork};
ghost use Rattle.ulfm_run.specs.inside.Played.{IsPlayed};

use crate::at_work::AtWork;
use crate::finished::Finished;
use std::sync::Wait;
use ulfm_board::Decider;
use ulfm_carrier::Ends;
use ulfm_job::Job;
use ulfm_script::{Player, RankReport};

/// A rank with its end of a carrier and its decider.
#[derive(Drop)]
pub(crate) struct Worker<E, D> {
    pub(crate) player: Player,
    pub(crate) end: E,
    pub(crate) decider: D,
    /// How many turns took nothing since no memory was found, staying at its greatest value.
    pub(crate) starved: u32,
}

/// What a rank's thread gives back.
#[derive(Drop)]
pub(crate) struct Ran<E, D> {
    pub(crate) report: RankReport,
    pub(crate) end: E,
    pub(crate) decider: D,
}

impl<E: Ends, D: Decider> Worker<E, D> {
    /// Plays the script of the rank `me`, and what it still has to push and to take after it. `finished` counts the ranks of this run
    /// that have finished their scripts.
    pub(crate) fn play<R: Wait>(self, rt: &R, job: &Job, finished: &Finished, me: u8) -> Ran<E, D>
        requires place { E.place self.end ≡ me }
        requires at_work { IsAtWork E.place E.count E.pushed E.taken E.ready job.now me self.player self.end }
        requires honest { AnswersFollowSoFar (D.known self.decider) self.player.player }
        ensures played { IsPlayed E.name E.place E.count E.pushed E.taken E.ready job.now self.end result.report result.end }
        ensures answers { AnswersFollow (D.known result.decider) result.report }
        ensures board { D.board result.decider ≡ D.board self.decider }
    {
        let mut work = AtWork {
            rt,
            job,
            finished,
            me,
            worker: self,
        };
        work.go_through();
        let Worker {
            player,
            end,
            decider,
            starved,
        } = work.worker;
        // It tells that its rank is sound, as its report says.
        let _ = player.me();
        Ran {
            report: player.report(starved),
            end,
            decider,
        }
    }
}
