//! A board of one owner.
ghost use Rattle.std.specs.Prelude.{◌≡◌, ◌≤◌, map, length};
ghost use Rattle.std.specs.FinMap.{find};
ghost use Rattle.std.specs.Ordering.{nat_cmp};
ghost use Rattle.ulfm_board.specs.Known.{by_number, nothing_known};
ghost use Rattle.ulfm_board.specs.inside.Places.{place_for};

use crate::decider::Decider;
use crate::number::number_of;
use std::alloc::Global;
use std::marker::Model;
use ulfm_base::{Decision, OutOfMemory};

/// A board of one owner, for the core and for tests: the first decision handed in on a topic stays. Contracts see its decisions by
/// the numbers of their topics.
#[derive(Drop)]
pub struct MemoryBoard {
    decisions: Vec<Decision>,
}

impl Model for MemoryBoard {
    ghost use Rattle.std.specs.Prelude.{map};
    ghost use Rattle.ulfm_board.specs.Known.{Known, by_number};

    ghost Value = { Known };

    ghost view = { λ b. map by_number b.decisions.items };
}

impl Clone for MemoryBoard {
    ghost is_clone = { λ x y. y ≡ x };

    fn clone(&self) -> Result<MemoryBoard, OutOfMemory> {
        let decisions = self.decisions.clone()?;
        Ok(MemoryBoard { decisions })
    }
}

impl MemoryBoard {
    /// A board on which nothing is decided.
    pub fn new(alloc: Global) -> MemoryBoard
        ensures { result ≡ nothing_known }
    {
        MemoryBoard {
            decisions: Vec::new(alloc),
        }
    }

    /// What is decided, by the rising numbers of topics.
    pub fn decisions(&self) -> &[Decision]
        ensures { map by_number result.now ≡ self.now }
    {
        &self.decisions
    }

    /// How many of its first decisions have a topic of a number below this one.
    fn place_for(&self, number: u128) -> usize
        ensures place { result ≡ place_for number self.now }
        ensures inside { result ≤ length self.now }
    {
        for place in 0..self.decisions.len() {
            if number <= number_of(self.decisions[place].topic) {
                return place;
            }
        }
        self.decisions.len()
    }

    /// The decision on the topic of this number.
    fn decision(&self, number: u128) -> Option<Decision>
        ensures { result ≡ find nat_cmp number self.now }
    {
        for place in 0..self.decisions.len() {
            let decision = &self.decisions[place];
            if number_of(decision.topic) == number {
                return Some(decision.copied());
            }
        }
        None
    }
}

impl Decider for MemoryBoard {
    ghost use Rattle.std.specs.Prelude.{None, ⊤};

    ghost board = { λ b. None };

    ghost known = { λ b. b };

    ghost says = { λ _. ⊤ };

    fn decide(&mut self, decision: Decision) -> Result<Decision, OutOfMemory> {
        let number = number_of(decision.topic);
        if let Some(first) = self.decision(number) {
            return Ok(first);
        }
        let place = self.place_for(number);
        self.decisions.insert(place, decision.copied())?;
        Ok(decision)
    }

    fn same(&mut self, _other: &mut MemoryBoard) {}
}
