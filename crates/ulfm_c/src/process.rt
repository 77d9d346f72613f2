//! A rank and what it goes by.

mod ahead;
mod communicators;
mod deciding;
mod letters;
mod probes;
mod recovery;
mod turning;

ghost use Rattle.std.specs.Prelude.{◌≡◌, ◌<◌, ◌≤◌, false, vec_len, IfOk, IfErr};
ghost use Rattle.ulfm_carrier.specs.Family.{IsFresh};
ghost use Rattle.ulfm_carrier.specs.Lanes.{IsReady, lane_pushed, lane_taken};
ghost use Rattle.ulfm_carrier.specs.declared.lane_ends.LaneEnds.{LaneEnds as Lanes};
ghost use Rattle.ulfm_c.specs.View.{IsAtEnd};
ghost use Rattle.ulfm_log.specs.Facts.{is_stopped};
ghost use Rattle.ulfm_log.specs.State.{start_state_with};

use std::alloc::Global;
use std::marker::Model;
use ulfm_base::{CallError, WorldRank};
use ulfm_board::{Decider, Seat};
use ulfm_carrier::{Ends, LaneEnds};
use ulfm_rank::Rank;

/// One rank of a world of 1 to 8, with its end of a carrier and its seat at a board. Its thread owns it.
#[derive(Drop)]
pub struct Process {
    rank: Rank,
    end: LaneEnds,
    seat: Seat,
}

impl Model for Process {
    ghost use Rattle.ulfm_board.specs.Known.{};
    ghost use Rattle.ulfm_c.specs.View.{ReadyView, IsAtEnd};
    ghost use Rattle.ulfm_log.specs.State.{is_ready};

    ghost Value = { ReadyView };

    ghost view = { λ p. record {
      view = record { rank = p.rank.state; end = p.end; board = ⟦<Seat as Decider>⟧.board p.seat; known = ⟦<Seat as Decider>⟧.known p.seat };
      ready = is_ready p.rank;
    } };

    ghost invariant = { λ p. IsAtEnd p.rank.state p.end };
}

impl Process {
    /// The rank of an end by which nothing was done yet, in a world of so many.
    pub(crate) fn start(
        alloc: Global,
        end: LaneEnds,
        seat: Seat,
        ranks: u8,
    ) -> Result<Process, CallError>
        requires fresh { IsFresh (λ (e : Lanes). vec_len e.outs) lane_pushed lane_taken IsReady ranks end }
        ensures started { IfOk result (λ process. process.view.rank ≡ start_state_with false end.me.number ranks) }
        ensures end { IfOk result (λ process. process.view.end ≡ end) }
        ensures seat { IfOk result (λ process. (process.view.board ≡ ⟦<Seat as Decider>⟧.board seat) × (process.view.known ≡ ⟦<Seat as Decider>⟧.known seat)) }
        ensures refused { IfErr result (λ error. error ≡ CallError.OutOfMemory) }
    {
        let me = end.me().number;
        let rank = Rank::start_with(alloc, me, ranks, false)?;
        // It tells that the rank is sound.
        let _ = rank.me();
        Ok(Process { rank, end, seat })
    }

    /// Its number in the world, 0 to `ranks - 1`.
    pub fn me(&self) -> WorldRank
        ensures number { result.number ≡ self.now.view.rank.me }
        ensures at_end { IsAtEnd self.now.view.rank self.now.view.end }
    {
        self.rank.me()
    }

    /// How many ranks the world has, 1 to 8.
    pub fn ranks(&self) -> u8
        ensures { result ≡ self.now.view.rank.ranks }
    {
        self.rank.ranks()
    }

    /// Whether it stopped.
    pub fn is_stopped(&self) -> bool
        ensures { result ≡ is_stopped self.now.view.rank.log }
    {
        self.rank.is_stopped()
    }

    /// The rank of a number, if the world has it.
    fn peer(&self, number: u8) -> Result<WorldRank, CallError>
        ensures there { IfOk result (λ peer. (peer.number ≡ number) × (number < self.now.view.rank.ranks)) }
        ensures refused { IfErr result (λ error. (error ≡ CallError.BadRank) × (self.now.view.rank.ranks ≤ number)) }
    {
        if number >= self.rank.ranks() {
            return Err(CallError::BadRank);
        }
        Ok(WorldRank { number })
    }
}
