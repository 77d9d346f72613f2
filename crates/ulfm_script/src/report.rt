//! What a rank did.
ghost use Rattle.std.specs.Prelude.{◌≡◌, ◌<◌, ◌↔◌, [], IsTrue};
ghost use Rattle.ulfm_log.specs.Facts.{is_stopped};
ghost use Rattle.ulfm_log.specs.State.{outbox, IsState};

use std::fmt;
use std::fmt::{Debug, Formatter};
use std::marker::Model;
use ulfm_answer::StepReport;
use ulfm_base::WorldRank;
use ulfm_log::Entry;
use ulfm_rank::Rank;

/// What a rank did: its answered steps, its log, and what is left in its outboxes. A player alone makes it.
#[derive(Drop)]
pub struct RankReport {
    rank: Rank,
    steps: Vec<StepReport>,
    starved: u32,
}

impl Model for RankReport {
    ghost use Rattle.std.specs.Prelude.{IsTrue};
    ghost use Rattle.ulfm_answer.specs.Report.{Report};

    ghost Value = { Report };

    ghost view = { λ r. record { rank = r.rank.state; steps = r.steps.items; starved = r.starved } };

    ghost invariant = { λ r. IsTrue r.rank.state.keeps };
}

impl RankReport {
    /// The report of a rank, its answered steps, and the number of its turns that took nothing since no memory was found.
    pub(crate) fn new(rank: Rank, steps: Vec<StepReport>, starved: u32) -> RankReport
        requires { IsTrue rank.state.keeps }
        ensures rank { result.rank ≡ rank.state }
        ensures steps { result.steps ≡ steps.items }
        ensures starved { result.starved ≡ starved }
    {
        RankReport {
            rank,
            steps,
            starved,
        }
    }

    /// The rank.
    pub fn me(&self) -> WorldRank
        ensures number { result.number ≡ self.now.rank.me }
        ensures sound { IsState self.now.rank }
    {
        self.rank.me()
    }

    /// The rank, as it was when it had answered its steps.
    pub fn rank(&self) -> &Rank
        ensures { result.now.state ≡ self.now.rank }
    {
        &self.rank
    }

    /// How many ranks the world has, 1 to 8.
    pub fn ranks(&self) -> u8
        ensures { result ≡ self.now.rank.ranks }
    {
        self.rank.ranks()
    }

    /// Its answered steps, in order.
    pub fn steps(&self) -> &[StepReport]
        ensures { result.now ≡ self.now.steps }
    {
        &self.steps
    }

    /// Its log.
    pub fn log(&self) -> &[Entry]
        ensures { result.now ≡ self.now.rank.log }
    {
        self.rank.log()
    }

    /// Whether nothing was left for a rank.
    pub fn is_outbox_empty(&self, dest: u8) -> bool
        requires { dest < self.now.rank.ranks }
        ensures { IsTrue result ↔ (outbox self.now.rank dest ≡ []) }
    {
        self.rank.is_outbox_empty(dest)
    }

    /// Whether it stopped.
    pub fn stopped(&self) -> bool
        ensures { result ≡ is_stopped self.now.rank.log }
    {
        self.rank.is_stopped()
    }

    /// How many of its turns took nothing since no memory was found, staying at its greatest value. No clause of a run says
    /// that it counts these.
    pub fn starved(&self) -> u32
        ensures { result ≡ self.now.starved }
    {
        self.starved
    }
}

/// The number of the rank, and whether it stopped: what it did is long.
impl Debug for RankReport {
    fn fmt<W: fmt::Write>(&self, f: &mut Formatter<W>) -> fmt::Result {
        f.debug_struct("RankReport")
            .field("me", &self.me().number)
            .field("stopped", &self.stopped())
            .finish()
    }
}
