//! What happens to a world, kept as moves.
ghost use Rattle.std.specs.Prelude.{◌≡◌, ◌++◌, [], IfOk, OnOk};
ghost use Rattle.ulfm_schedule.specs.Words.{moves_text};
ghost use Rattle.ulfm_replay.specs.Lines.{move_line};
ghost use Rattle.ulfm_replay.specs.Moves.{moved_text};
ghost use Rattle.ulfm_replay.specs.Turns.{turned_text, turning_of};

use crate::lines::{moved, turned, turning};
use std::alloc::{AllocError, Global};
use ulfm_base::OutOfMemory;
use ulfm_job::Job;
use ulfm_schedule::{Before, Deed, Move, Numbers};
use ulfm_world::{Event, World};

/// An event that is about to happen.
#[derive(Drop)]
pub struct Underway {
    /// Whose it is.
    pub rank: u8,
    /// What that rank had before.
    pub before: Before,
    /// The move of the item that it moves, if it moves one.
    pub moved: Option<(u8, Deed)>,
    /// If it is a turn: whose, how many of its steps are answered, and whether its next one stands open.
    pub turn: Option<(u8, usize, bool)>,
}

/// The moves of events, one after another, with the numbers of messages and what each move sends.
#[derive(Drop)]
pub struct Recorder {
    /// The moves so far. A poll in vain of a step that stood open is none.
    pub moves: Vec<Move>,
    numbers: Numbers,
}

/// The rank that an event is of.
fn rank_of(event: &Event<'_>) -> u8 {
    match event {
        Event::Call(r, _) | Event::Skip(r, _) | Event::Decide(r, _) | Event::Leave(r) => *r,
        Event::Push(r, _) | Event::Take(r) | Event::TakeFrom(r, _) => *r,
    }
}

impl Recorder {
    /// Of a world in which nothing happened yet.
    pub fn new(alloc: Global) -> Recorder
        ensures { result.moves.items ≡ [] }
    {
        Recorder {
            moves: Vec::new(alloc),
            numbers: Numbers::new(alloc),
        }
    }

    /// Looks at a world of a job before an event.
    ///
    /// # Errors
    ///
    /// `OutOfMemory` where a growth was refused, or the event concerns ranks that aren't there.
    pub fn before(
        &self,
        job: &Job,
        world: &World,
        event: &Event<'_>,
    ) -> Result<Underway, OutOfMemory>
        ensures moved { IfOk result (λ underway. moved_text job.now underway.moved ≡ move_line world.now event.now) }
        ensures turn { IfOk result (λ underway. underway.turn ≡ turning_of world.now event.now) }
    {
        let rank = rank_of(event);
        if rank >= world.size() {
            return Err(AllocError);
        }
        Ok(Underway {
            rank,
            before: Before::of(*self.moves.allocator(), world.player(rank).rank())?,
            moved: moved(job, world, event)?,
            turn: turning(world, event)?,
        })
    }

    /// Keeps the moves of an event of a job, by the world after it.
    ///
    /// # Errors
    ///
    /// `OutOfMemory` where a growth was refused.
    pub fn after(&mut self, job: &Job, world: &World, underway: Underway) -> Result<(), OutOfMemory>
        ensures { OnOk result (moves_text job.now self.new.moves.items ≡ (moves_text job.now self.old.moves.items ++ moved_text job.now underway.moved) ++ turned_text job.now world.now underway.turn) }
    {
        let Underway {
            rank,
            before,
            moved,
            turn,
        } = underway;
        self.add(job, world, rank, &before, moved)?;
        let turned = turned(job, world, turn)?;
        self.add(job, world, rank, &before, turned)
    }

    /// Adds a move of a rank, if it is one.
    fn add(
        &mut self,
        job: &Job,
        world: &World,
        rank: u8,
        before: &Before,
        moved: Option<(u8, Deed)>,
    ) -> Result<(), OutOfMemory>
        ensures { OnOk result (moves_text job.now self.new.moves.items ≡ moves_text job.now self.old.moves.items ++ moved_text job.now moved) }
    {
        // Of which job it is stands in the clause alone.
        let _ = job;
        let Some((r, deed)) = moved else {
            return Ok(());
        };
        if rank >= world.size() {
            return Err(AllocError);
        }
        let now = world.player(rank).rank();
        let message = self.numbers.after(before, now)?;
        let sent = before.sent(*self.moves.allocator(), now)?;
        self.moves.push(Move {
            rank: r,
            deed,
            message,
            sent,
        })?;
        Ok(())
    }
}
