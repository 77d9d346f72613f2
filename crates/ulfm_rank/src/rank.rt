//! One rank (MPI 4.0, chapters 3 and 7; ULFM).

mod agreeing;
mod cancelling;
mod copying;
mod deciding;
mod looking;
mod outgoing;
mod probing;
mod receiving;
mod recovery;
mod sending;
mod shrinking;
mod taking;

ghost use Rattle.std.specs.Prelude.{◌≡◌, ◌&&◌, ℕ, nat_lt, [], IfOk, IfErr, IsTrue, OnOk, Some};
ghost use Rattle.ulfm_rank.specs.Checks.{Passes, Fails, FailsOrStarves, start_checks, comm_checks, is_single, making_checks};
ghost use Rattle.ulfm_log.specs.Communicators.{group_of};
ghost use Rattle.ulfm_log.specs.Facts.{is_stopped};
ghost use Rattle.ulfm_rank.specs.inside.Rank.{HasNumber, stop_places};
ghost use Rattle.ulfm_rank.specs.Paired.{IsPaired};
ghost use Rattle.ulfm_log.specs.State.{start_state, start_state_with, IsState};

use crate::request::Request;
use indexmap::IndexMap;
use std::alloc::Global;
use std::marker::Model;
use ulfm_base::{CONTEXTS, CallError, Context, Group, WorldRank};
use ulfm_fault::Faults;
use ulfm_log::{Block, Comm, Communicators, Entry, Log, Outboxes, Rounds, Row};
use ulfm_match::Matcher;

/// One rank of a world of 1 to 8. Contracts see its number, the number of ranks, its log and whether it keeps it, a mark for
/// each outbox, and whether there is room for one `take` or one call, and for one more request; all its other parts follow
/// from the log.
#[derive(Drop)]
pub struct Rank {
    log: Log,
    // What the log tells of the last shrinks and agreements: at each entry what belongs to earlier ones is let go.
    told: Vec<Row>,
    rounds: Rounds,
    me: WorldRank,
    ranks: u8,
    stopped: bool,
    matcher: Matcher,
    faults: Faults,
    requests: IndexMap<u64, Request>,
    communicators: Communicators,
    outboxes: Outboxes,
    // For the decision that is adopted next.
    block: Block,
}

impl Model for Rank {
    ghost use Rattle.ulfm_log.specs.State.{RankView};
    ghost use Rattle.ulfm_rank.specs.inside.Rank.{view_of, Holds};

    ghost Value = { RankView };

    ghost view = { view_of };

    ghost invariant = { Holds };
}

impl Rank {
    /// The rank `me` of `ranks`, with an empty log.
    ///
    /// # Errors
    ///
    /// `BadSize` where `ranks` isn't 1 to 8, else `BadRank` where `me` isn't below it, else `OutOfMemory` where a
    /// growth was refused.
    pub fn start(alloc: Global, me: u8, ranks: u8) -> Result<Rank, CallError>
        ensures started { IfOk result (λ rank. rank.state ≡ start_state me ranks) }
        ensures accepted { OnOk result (Passes (start_checks me ranks)) }
        ensures refused { IfErr result (FailsOrStarves (start_checks me ranks)) }
    {
        Rank::start_with(alloc, me, ranks, true)
    }

    /// The rank `me` of `ranks`, with an empty log, which is kept or isn't.
    ///
    /// # Errors
    ///
    /// `BadSize` where `ranks` isn't 1 to 8, else `BadRank` where `me` isn't below it, else `OutOfMemory` where a
    /// growth was refused.
    pub fn start_with(alloc: Global, me: u8, ranks: u8, keeps: bool) -> Result<Rank, CallError>
        ensures started { IfOk result (λ rank. rank.state ≡ start_state_with keeps me ranks) }
        ensures accepted { OnOk result (Passes (start_checks me ranks)) }
        ensures refused { IfErr result (FailsOrStarves (start_checks me ranks)) }
    {
        let world = Group::world(alloc, ranks)?;
        if me >= ranks {
            return Err(CallError::BadRank);
        }
        let communicators = Communicators::new(alloc, world)?;
        let outboxes = Outboxes::new(alloc, ranks)?;
        let mut log = Log::new(alloc, keeps);
        log.reserve(1)?;
        Ok(Rank {
            me: WorldRank { number: me },
            ranks,
            stopped: false,
            matcher: Matcher::new(alloc),
            faults: Faults::new(alloc),
            requests: IndexMap::new(alloc),
            communicators,
            outboxes,
            log,
            told: Vec::new(alloc),
            rounds: Rounds::new(alloc),
            block: Block::new(alloc),
        })
    }

    /// Its number in the world, 0 to `ranks - 1`.
    pub fn me(&self) -> WorldRank
        ensures number { result.number ≡ self.now.state.me }
        ensures sound { IsState self.now.state }
        ensures paired { IsPaired self.now.state.log }
    {
        self.me
    }

    /// How many ranks the world has, 1 to 8.
    pub fn ranks(&self) -> u8
        ensures { result ≡ self.now.state.ranks }
    {
        self.ranks
    }

    /// Whether it stopped.
    pub fn is_stopped(&self) -> bool
        ensures { result ≡ is_stopped self.now.state.log }
    {
        self.stopped
    }

    /// All that it did and took, in order, where it keeps its log.
    pub fn log(&self) -> &[Entry]
        requires { IsTrue self.now.state.keeps }
        ensures { result.now ≡ self.now.state.log }
    {
        self.log.entries()
    }

    /// The communicator of the world.
    pub fn world(&self) -> Comm
        ensures { result.context.number ≡ 0 }
    {
        Comm {
            context: Context::WORLD,
        }
    }

    /// The group of a communicator, by a rank that goes on running.
    fn running_group(&self, comm: Comm) -> Result<&Group, CallError>
        ensures accepted { OnOk result (Passes (comm_checks self.now.state comm.context.number [])) }
        ensures group { IfOk result (λ group. group_of self.now.state.ranks self.now.state.log comm.context.number ≡ Some group.now) }
        ensures refused { IfErr result (Fails (comm_checks self.now.state comm.context.number [])) }
    {
        if self.stopped {
            return Err(CallError::Stopped);
        }
        self.communicators
            .group_of(comm.context)
            .ok_or(CallError::NoComm)
    }
}

/// How many places of the log are kept for the stop.
fn stop_places(stopped: bool) -> usize
    ensures { result ≡ stop_places stopped }
{
    if stopped { 0 } else { 1 }
}

/// Whether a communicator has one duplicate and one shrink: one that jobs name by a number, unless a further one is asked for.
fn is_single(again: bool, context: Context) -> bool
    ensures { result ≡ is_single again context.number }
{
    !again && context.number < CONTEXTS as u64
}

/// Whether such a communicator has one already.
fn is_second(again: bool, of: Context, count: u64) -> bool
    ensures { result ≡ (is_single again of.number && nat_lt 0 count) }
{
    is_single(again, of) && 0 < count
}

/// Whether such a communicator is past 30, and so has none.
fn is_late(again: bool, of: Context) -> bool
    ensures { result ≡ (is_single again of.number && nat_lt 30 of.number) }
{
    is_single(again, of) && 30 < of.number
}

/// The context of a communicator that is made of another one, of which so many were made so before.
fn may_make(
    again: bool,
    of: Context,
    count: u64,
    child: Option<Context>,
) -> Result<Context, CallError>
    ensures accepted { (number : ℕ) → HasNumber child number → OnOk result (Passes (making_checks again of.number count number)) }
    ensures made { IfOk result (λ context. child ≡ Some context) }
    ensures refused { (number : ℕ) → HasNumber child number → IfErr result (Fails (making_checks again of.number count number)) }
{
    if is_second(again, of, count) {
        return Err(CallError::AlreadyMade);
    }
    if is_late(again, of) {
        return Err(CallError::NoContext);
    }
    match child {
        Some(context) => Ok(context),
        None => Err(CallError::NoContext),
    }
}
