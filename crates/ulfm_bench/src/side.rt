//! A rank at its end of a way: whole letters, with their calls, turns and matching.
ghost use Rattle.std.specs.Prelude.{◌<◌, IsTrue, IfSome};
ghost use Rattle.ulfm_rank.specs.Calls.{IsFrom};
ghost use Rattle.ulfm_log.specs.State.{has_way_back, MayReturn};

use crate::post::{Post, TRIES, put};
use crate::way::Way;
use std::alloc::Global;
use std::sync::Wait;
use std::thread;
use ulfm_base::{Item, RequestId, Tag, WorldRank};
use ulfm_log::TestAnswer;
use ulfm_rank::Rank;

/// The tag of each letter.
const TAG: Tag = Tag { number: 1 };

/// The most bytes that a receive takes.
const ROOM: u16 = 1024;

/// What the test of a receive came to.
pub enum Tested {
    /// The letter was copied into the room, and has so many bytes.
    Done(usize),
    NotYet,
    Failed,
}

/// One of two ranks, with its end of the way between them.
#[derive(Drop)]
pub struct Side<W: Way> {
    pub rank: Rank,
    pub way: W,
    pub other: WorldRank,
}

/// Ranks 0 and 1 of two.
pub fn two_ranks(alloc: Global) -> Option<(Rank, Rank)> {
    rank_of_two(alloc, 0).zip(rank_of_two(alloc, 1))
}

/// One of the two.
fn rank_of_two(alloc: Global, me: u8) -> Option<Rank> {
    Rank::start(alloc, me, 2).ok()
}

/// Starts the send of a letter to the other of two ranks: whether it was accepted.
pub fn start_send(rank: &mut Rank, other: WorldRank, bytes: &[u8]) -> bool {
    let world = rank.world();
    rank.isend(world, other.number, TAG, bytes).is_ok()
}

/// Posts the receive of a letter of the other of two ranks.
pub fn start_receive(rank: &mut Rank, other: WorldRank) -> Option<RequestId> {
    let world = rank.world();
    rank.irecv(world, Some(other.number), Some(TAG), ROOM).ok()
}

/// The first item that waits for a rank goes out, if there is one.
pub fn take_out(rank: &mut Rank, dest: u8) -> Option<Item>
    ensures inside { IfSome result (λ item. dest < rank.new.state.ranks) }
    ensures returns { IfSome result (MayReturn rank.new.state dest) }
    ensures way_back { IfSome result (λ item. IsTrue (has_way_back rank.new.state rank.new.lent dest)) }
{
    if dest >= rank.ranks() {
        return None;
    }
    rank.take_out(dest)
}

/// Takes an item that came from the other rank: whether it could.
pub fn take_in(rank: &mut Rank, other: WorldRank, item: Item) -> bool {
    if rank.prepare().is_err()
        || rank.is_stopped()
        || other.number >= rank.ranks()
        || !is_from(&item, other)
    {
        return false;
    }
    rank.take(other, item);
    true
}

/// Tests a receive, and copies the letter that it got into a room.
pub fn test_into(rank: &mut Rank, id: RequestId, room: &mut [u8]) -> Tested {
    match rank.test(id) {
        Ok(TestAnswer::Done(_, body)) => match put(room, &body) {
            Some(length) => Tested::Done(length),
            None => Tested::Failed,
        },
        Ok(TestAnswer::NotYet | TestAnswer::Pending) => Tested::NotYet,
        Ok(TestAnswer::Over(_)) | Err(_) => Tested::Failed,
    }
}

/// Whether an item is one that may come from this rank.
fn is_from(item: &Item, source: WorldRank) -> bool
    ensures { IsTrue result → IsFrom source item.now }
{
    match item {
        Item::Letter(letter) => letter.envelope.source.number == source.number,
        _ => true,
    }
}

impl<W: Way> Side<W> {
    /// The first item for a rank goes out, if there is one and room for it. Whether one went.
    fn push_one<R: Wait>(&mut self, rt: &R, dest: u8) -> bool {
        let Some(item) = take_out(&mut self.rank, dest) else {
            return false;
        };
        match self.way.push(rt, item) {
            Ok(()) => true,
            Err(back) => {
                self.rank.put_back(dest, back);
                false
            }
        }
    }

    /// Takes the next item of the way, if there is one. Whether one was taken.
    fn take_one<R: Wait>(&mut self, rt: &R) -> bool {
        match self.way.pop(rt) {
            Some(item) => take_in(&mut self.rank, self.other, item),
            None => false,
        }
    }

    /// A turn as a job's ranks have it: what waits goes out while there is room, and one item is taken. Whether anything moved.
    fn turn<R: Wait>(&mut self, rt: &R) -> bool {
        let mut moved = false;
        for dest in 0..self.rank.ranks() {
            for _ in 0..TRIES {
                if !self.push_one(rt, dest) {
                    break;
                }
                moved = true;
            }
        }
        self.take_one(rt) || moved
    }

    /// Whether all that was for the other rank went out.
    fn has_sent(&self) -> bool {
        self.other.number < self.rank.ranks() && self.rank.is_outbox_empty(self.other.number)
    }
}

impl<W: Way> Post for Side<W> {
    fn send<R: Wait>(&mut self, rt: &R, bytes: &[u8]) -> bool {
        if !start_send(&mut self.rank, self.other, bytes) {
            return false;
        }
        for _ in 0..TRIES {
            let moved = self.turn(rt);
            if self.has_sent() {
                return true;
            }
            if !moved {
                thread::yield_now();
            }
        }
        false
    }

    fn receive<R: Wait>(&mut self, rt: &R, room: &mut [u8]) -> Option<usize> {
        let id = start_receive(&mut self.rank, self.other)?;
        for _ in 0..TRIES {
            let moved = self.turn(rt);
            match test_into(&mut self.rank, id, room) {
                Tested::Done(length) => return Some(length),
                Tested::Failed => return None,
                Tested::NotYet => {}
            }
            if !moved {
                thread::yield_now();
            }
        }
        None
    }
}
