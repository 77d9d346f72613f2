//! Which message each receive got, read off ranks.
ghost use Rattle.std.specs.Prelude.{IsTrue};

use crate::cargo::Cargo;
use crate::parcel::Parcel;
use std::alloc::Global;
use ulfm_base::{ItemKind, OutOfMemory};
use ulfm_log::Entry;
use ulfm_rank::{Fate, Rank};

/// What a rank had before a move.
#[derive(Drop)]
pub struct Before {
    /// How many entries its log had.
    log: usize,
    /// How many posts and arrivals its matcher had.
    count: u64,
    /// How many items stood in each of its outboxes.
    waiting: Vec<usize>,
}

impl Before {
    /// What this rank has.
    ///
    /// # Errors
    ///
    /// `OutOfMemory` where a growth was refused.
    pub fn of(alloc: Global, rank: &Rank) -> Result<Before, OutOfMemory>
        requires { IsTrue rank.now.state.keeps }
    {
        let mut waiting = Vec::new(alloc);
        if !rank.is_stopped() {
            for dest in 0..rank.ranks() {
                waiting.push(rank.items_to(dest).len())?;
            }
        }
        Ok(Before {
            log: rank.log().len(),
            count: rank.receives().0.count(),
            waiting,
        })
    }

    /// What stands in the outboxes of the same rank now, and didn't then.
    ///
    /// # Errors
    ///
    /// `OutOfMemory` where a growth was refused.
    pub fn sent(&self, alloc: Global, rank: &Rank) -> Result<Vec<Parcel>, OutOfMemory> {
        let mut sent = Vec::new(alloc);
        for to in 0..rank.ranks() {
            if rank.is_stopped() {
                if !rank.is_outbox_empty(to) {
                    sent.push(Parcel {
                        to,
                        cargo: Cargo::Notice,
                    })?;
                }
                continue;
            }
            let before = self.waiting.get(to as usize).copied().unwrap_or(0);
            for item in rank.items_to(to).iter().skip(before) {
                sent.push(Parcel {
                    to,
                    cargo: Cargo::of(item),
                })?;
            }
        }
        Ok(sent)
    }
}

/// A message by the number that it has at its rank: that of its arrival while nothing got it, then that of the receive that got it.
#[derive(Clone, Copy, Debug, PartialEq, Eq)]
struct Held {
    rank: u8,
    place: u64,
    message: usize,
}

/// The messages that ranks took, by numbers from 1, and which receive got which.
#[derive(Drop)]
pub struct Numbers {
    taken: usize,
    kept: Vec<Held>,
    given: Vec<Held>,
}

impl Numbers {
    /// Of ranks that took nothing.
    pub fn new(alloc: Global) -> Numbers {
        Numbers {
            taken: 0,
            kept: Vec::new(alloc),
            given: Vec::new(alloc),
        }
    }

    /// The number of the message that a rank took or got in a move, by what its log has since then.
    ///
    /// # Errors
    ///
    /// `OutOfMemory` where a growth was refused.
    pub fn after(&mut self, before: &Before, rank: &Rank) -> Result<Option<usize>, OutOfMemory>
        requires { IsTrue rank.now.state.keeps }
    {
        let me = rank.me().number;
        let mut message = None;
        for entry in rank.log().iter().skip(before.log) {
            match entry {
                Entry::Took(_, item) => {
                    if let ItemKind::Letter(_) = item.kind() {
                        message = Some(self.take(before, rank)?);
                    }
                }
                Entry::Posted(_) => {
                    self.give(me, before.count, rank)?;
                }
                Entry::Probed(id, _) => {
                    self.give(me, id.number, rank)?;
                    message = self.given_to(me, id.number);
                }
                Entry::Released(id, _) => message = self.given_to(me, id.number),
                Entry::Received(id, _) => message = self.given_to(me, id.number),
                _ => {}
            }
        }
        self.forget(rank);
        Ok(message)
    }

    /// The number of the message that a rank took: its matcher keeps it, or a receive that waited has it now, or its communicator was revoked.
    fn take(&mut self, before: &Before, rank: &Rank) -> Result<usize, OutOfMemory> {
        let me = rank.me().number;
        self.taken = self.taken.saturating_add(1);
        let mut held = Held {
            rank: me,
            place: before.count,
            message: self.taken,
        };
        let (matcher, requests) = rank.receives();
        if matcher.letter(held.place).is_some() {
            self.kept.push(held)?;
            return Ok(self.taken);
        }
        for place in 0..before.count {
            if let Some(request) = requests.get(&place) {
                if matches!(request.fate, Fate::Paired(_)) && self.given_to(me, place).is_none() {
                    held.place = place;
                    self.given.push(held)?;
                    break;
                }
            }
        }
        Ok(self.taken)
    }

    /// Gives a receive the message that the matcher kept until then, and doesn't keep any more.
    fn give(&mut self, me: u8, place: u64, rank: &Rank) -> Result<(), OutOfMemory> {
        let matcher = rank.receives().0;
        for held in &self.kept {
            if held.rank == me && matcher.letter(held.place).is_none() {
                self.given.push(Held { place, ..*held })?;
            }
        }
        Ok(())
    }

    /// The message that the receive of this number of a rank got.
    fn given_to(&self, rank: u8, place: u64) -> Option<usize> {
        for held in &self.given {
            if held.rank == rank && held.place == place {
                return Some(held.message);
            }
        }
        None
    }

    /// Forgets the messages of a rank that its matcher doesn't keep any more.
    fn forget(&mut self, rank: &Rank) {
        let me = rank.me().number;
        let matcher = rank.receives().0;
        self.kept.retain(|held| held.rank != me || matcher.letter(held.place).is_some());
    }
}
