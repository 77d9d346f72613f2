//! A rank that goes through its steps.

mod calling;
mod copying;
mod deciding;
mod items;

ghost use Rattle.std.specs.Prelude.{◌≡◌, ◌<◌, ◌≤◌, ◌+◌, ◌↔◌, length, IsTrue, IfOk, IfErr, OnOk, OnErr, None, nat_lt, option_map};
ghost use Rattle.ulfm_log.specs.Facts.{is_stopped};
ghost use Rattle.ulfm_rank.specs.Paired.{IsPaired};
ghost use Rattle.ulfm_log.specs.State.{IsState};
ghost use Rattle.ulfm_rank.specs.Checks.{Passes, FailsOrStarves, start_checks};
ghost use Rattle.ulfm_script.specs.Player.{start_player, answered, IsFree};

use crate::report::RankReport;
use std::alloc::Global;
use std::marker::Model;
use ulfm_answer::{StepAnswer, StepReport};
use ulfm_base::{CallError, OutOfMemory, WorldRank};
use ulfm_job::{Asked, NotedStep, Step};
use ulfm_rank::Rank;

/// A rank, the answers of its steps, and the step that stands open.
#[derive(Drop)]
pub struct Player {
    rank: Rank,
    done: Vec<StepReport>,
    current: Option<Step>,
    at: usize,
    polls: u32,
}

impl Model for Player {
    ghost use Rattle.std.specs.Prelude.{◌-◌, vec_len, vec_capacity};
    ghost use Rattle.ulfm_log.specs.State.{is_ready};
    ghost use Rattle.ulfm_script.specs.Player.{PlayerView};
    ghost use Rattle.ulfm_script.specs.inside.Player.{IsPlayer};

    ghost Value = { PlayerView };

    ghost view = { λ p. record {
      player = record { rank = p.rank.state; done = p.done.items; current = p.current; at = p.at; polls = p.polls };
      room = vec_capacity p.done - vec_len p.done;
      prepared = is_ready p.rank;
      lent = p.rank.lent;
    } };

    ghost invariant = { λ p. IsPlayer p.rank.state p.current (vec_len p.done) (vec_capacity p.done) };
}

impl Player {
    /// The player of the rank `me` of `n`, with room for the answers of so many steps.
    ///
    /// # Errors
    ///
    /// `BadSize` where `n` isn't 1 to 8, then `BadRank` where `me` isn't below `n`, else `OutOfMemory` where a growth
    /// was refused.
    pub fn new(alloc: Global, me: u8, n: u8, steps: u16) -> Result<Player, CallError>
        ensures player { IfOk result (λ p. p.player ≡ start_player me n) }
        ensures room { IfOk result (λ p. steps ≤ p.room) }
        ensures accepted { OnOk result (Passes (start_checks me n)) }
        ensures refused { IfErr result (FailsOrStarves (start_checks me n)) }
    {
        let rank = Rank::start(alloc, me, n)?;
        match Vec::with_capacity(alloc, steps as usize) {
            Ok(done) => Ok(Player {
                rank,
                done,
                current: None,
                at: 0,
                polls: 0,
            }),
            Err(_) => {
                // Let go by the standard library, which saves the check half a minute.
                drop(rank);
                Err(CallError::OutOfMemory)
            }
        }
    }

    /// The rank.
    pub fn me(&self) -> WorldRank
        ensures me { result.number ≡ self.now.player.rank.me }
        ensures sound { IsState self.now.player.rank }
        ensures paired { IsPaired self.now.player.rank.log }
    {
        self.rank.me()
    }

    /// The rank, with its log and its outboxes.
    pub fn rank(&self) -> &Rank
        ensures state { result.now.state ≡ self.now.player.rank }
        ensures keeps { IsTrue result.now.state.keeps }
    {
        &self.rank
    }

    /// The answers of its steps so far, in their order.
    pub fn done(&self) -> &[StepReport]
        ensures { result.now ≡ self.now.player.done }
    {
        &self.done
    }

    /// Whether the rank stopped.
    pub fn is_stopped(&self) -> bool
        ensures { result ≡ is_stopped self.now.player.rank.log }
    {
        self.rank.is_stopped()
    }

    /// How many steps are answered.
    pub fn answered(&self) -> usize
        ensures { result ≡ length self.now.player.done }
    {
        self.done.len()
    }

    /// The step that stands open.
    pub fn unfinished(&self) -> Option<&Step>
        ensures { option_map (λ step. step.now) result ≡ self.now.player.current }
    {
        self.current.as_ref()
    }

    /// How many polls left the open step open, staying at its greatest value. It is 0 where none stands open.
    pub fn polls(&self) -> u32
        ensures { result ≡ self.now.player.polls }
    {
        self.polls
    }

    /// Whether no other step stands open.
    pub fn is_free(&self, asked: &Asked<'_>) -> bool
        ensures { IsTrue result ↔ IsFree self.now.player asked.now }
    {
        match &self.current {
            Some(open) => asked.is_same(open),
            None => true,
        }
    }

    /// Whether there is room for one more answer.
    pub fn has_room(&self) -> bool
        ensures { result ≡ nat_lt 0 self.now.room }
    {
        self.done.len() < self.done.capacity()
    }

    /// Makes room for one more answer. An open step has this room.
    ///
    /// # Errors
    ///
    /// `OutOfMemory` where there was no such room and a growth was refused.
    pub fn room(&mut self) -> Result<(), OutOfMemory>
        ensures player { self.new.player ≡ self.old.player }
        ensures prepared { self.new.prepared ≡ self.old.prepared }
        ensures room { OnOk result (0 < self.new.room) }
        ensures room_lacked { OnErr result (self.old.room ≡ 0) }
        ensures none_open { OnErr result (self.old.player.current ≡ None) }
        ensures stays { self.old.room ≤ self.new.room }
    {
        self.done.reserve(1)
    }

    /// The step has its answer, and none stands open.
    fn answer(&mut self, asked: &Asked<'_>, answer: StepAnswer, at: usize)
        requires { 0 < self.old.room }
        ensures player { self.new.player ≡ answered self.old.player asked.now answer at }
        ensures room { self.new.room + length self.new.player.done ≡ self.old.room + length self.old.player.done }
        ensures prepared { self.new.prepared ≡ self.old.prepared }
    {
        self.done.push_reserved(StepReport {
            step: NotedStep::of(asked),
            answer,
            at,
            polls: self.polls,
        });
        self.current = None;
        self.at = 0;
        self.polls = 0;
    }

    /// The rank's report, with the number of its turns that took nothing since no memory was found.
    pub fn report(self, starved: u32) -> RankReport
        ensures rank { result.rank ≡ self.player.rank }
        ensures steps { result.steps ≡ self.player.done }
        ensures starved { result.starved ≡ starved }
    {
        RankReport::new(self.rank, self.done, starved)
    }
}
