//! Ways for items from one thread to another and back.
ghost use Rattle.std.specs.Prelude.{◌≡◌, ◌<◌, vec_len, IsTrue, IfErr};
ghost use Rattle.ulfm_base.specs.Items.{ComesFrom};
ghost use Rattle.ulfm_carrier.specs.Lanes.{IsReady};
ghost use Rattle.ulfm_carrier.specs.Shared.{IsReady as IsReadyShared};

use crossbeam_queue::ArrayQueue;
use rtrb::{Consumer, Producer, PushError};
use std::sync::{Arc, Wait};
use ulfm_base::{Item, WorldRank};
use ulfm_carrier::{Ends, LaneEnds, SharedEnds};

/// What a thread holds of a way there and a way back.
pub trait Way: Drop {
    /// The rank whose letters this end pushes.
    fn me(&self) -> WorldRank;

    /// Pushes an item of this rank. It comes back where there was no room.
    fn push<R: Wait>(&mut self, rt: &R, item: Item) -> Result<(), Item>
        ensures { IfErr result (λ back. back ≡ item) };

    /// Pops an item, if one was there.
    fn pop<R: Wait>(&mut self, rt: &R) -> Option<Item>;
}

/// A rank's end of lanes of two ranks.
#[derive(Drop)]
pub struct Lane {
    end: LaneEnds,
    other: u8,
    ghost ready: { IsReady end },
    ghost inside: { other < vec_len end.outs },
}

impl Lane {
    /// The end, by which items go to the other rank.
    pub fn new(end: LaneEnds, other: u8) -> Lane
        requires ready { IsReady end }
        requires inside { other < vec_len end.outs }
    {
        Lane { end, other }
    }
}

impl Way for Lane {
    fn me(&self) -> WorldRank {
        self.end.me()
    }

    fn push<R: Wait>(&mut self, rt: &R, item: Item) -> Result<(), Item> {
        if !is_of(&item, self.end.me()) {
            return Err(item);
        }
        self.end.push(rt, self.other, item)
    }

    fn pop<R: Wait>(&mut self, rt: &R) -> Option<Item> {
        let (_, item) = self.end.pop(rt)?;
        Some(item)
    }
}

/// A rank's end of shared inboxes of two ranks.
#[derive(Drop)]
pub struct Shared {
    end: SharedEnds,
    other: u8,
    ghost ready: { IsReadyShared end },
    ghost inside: { other < vec_len end.outs },
}

impl Shared {
    /// The end, by which items go to the other rank.
    pub fn new(end: SharedEnds, other: u8) -> Shared
        requires ready { IsReadyShared end }
        requires inside { other < vec_len end.outs }
    {
        Shared { end, other }
    }
}

impl Way for Shared {
    fn me(&self) -> WorldRank {
        self.end.me()
    }

    fn push<R: Wait>(&mut self, rt: &R, item: Item) -> Result<(), Item> {
        if !is_of(&item, self.end.me()) {
            return Err(item);
        }
        self.end.push(rt, self.other, item)
    }

    fn pop<R: Wait>(&mut self, rt: &R) -> Option<Item> {
        let (_, item) = self.end.pop(rt)?;
        Some(item)
    }
}

/// Two rings of the kit, with nothing round them.
#[derive(Drop)]
pub struct Rings {
    pub me: WorldRank,
    pub out: Producer<Item>,
    pub inlet: Consumer<Item>,
}

impl Way for Rings {
    fn me(&self) -> WorldRank {
        self.me
    }

    fn push<R: Wait>(&mut self, _rt: &R, item: Item) -> Result<(), Item> {
        match self.out.push(item) {
            Ok(()) => Ok(()),
            Err(PushError::Full(back)) => Err(back),
        }
    }

    fn pop<R: Wait>(&mut self, _rt: &R) -> Option<Item> {
        self.inlet.pop().ok()
    }
}

/// Two queues of the kit, which their threads share, with nothing round them.
#[derive(Drop)]
pub struct Queues {
    pub me: WorldRank,
    pub out: Arc<ArrayQueue<Item>>,
    pub inlet: Arc<ArrayQueue<Item>>,
}

impl Way for Queues {
    fn me(&self) -> WorldRank {
        self.me
    }

    fn push<R: Wait>(&mut self, rt: &R, item: Item) -> Result<(), Item> {
        self.out.push(rt, item)
    }

    fn pop<R: Wait>(&mut self, rt: &R) -> Option<Item> {
        self.inlet.pop(rt)
    }
}

/// Whether an item is one that this rank may push.
pub fn is_of(item: &Item, rank: WorldRank) -> bool
    ensures { IsTrue result → ComesFrom rank.number item.now }
{
    match item {
        Item::Letter(letter) => letter.envelope.source.number == rank.number,
        _ => true,
    }
}
