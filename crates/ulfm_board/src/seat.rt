//! Seats of one board.
//!
//! Another seat may have set the cell, so nothing says whose group the decision is about: `adopt` looks.
ghost use Rattle.std.specs.Prelude.{◌≡◌, ◌<◌, ◌≤◌, ◌⊎◌, vec_len, IfOk, IfErr, OnOk, All};
ghost use Rattle.std.specs.declared.option.Option.TheVariants.{Some};
ghost use Rattle.std.specs.Arc.{arc_value};
ghost use Rattle.ulfm_board.specs.Known.{nothing_known, OneBoard};
ghost use Rattle.ulfm_board.specs.inside.Trail.{names_of};

use crate::decider::Decider;
use crate::number::{cell_of, row_of};
use crate::register::{Chunk, new_register};
use crate::trail::Trail;
use std::alloc::Global;
use std::sync::Arc;
use ulfm_base::{CallError, Decision, MOST_RANKS, OutOfMemory};

/// One of the deciders that share a board. It may go to another thread.
#[derive(Drop)]
pub struct Seat {
    alloc: Global,
    register: Arc<Vec<Chunk>>,
    trail: Trail,
    ghost tied: { trail.register ≡ names_of (arc_value register).items },
}

/// As many seats, 1 to 8, of one new board. None knows a decision; that the board holds none is held by tests alone.
///
/// # Errors
///
/// `BadSize` where `n` isn't 1 to 8, else `OutOfMemory` where a growth was refused.
pub fn seats(alloc: Global, n: u8) -> Result<Vec<Seat>, CallError>
    ensures in_range { OnOk result ((1 ≤ n) × (n ≤ MOST_RANKS)) }
    ensures count { IfOk result (λ seats. vec_len seats ≡ n) }
    ensures one_board { IfOk result (λ seats. OneBoard ⟦<Seat as Decider>⟧.board seats.items) }
    ensures nothing_known { IfOk result (λ seats. All (λ seat. ⟦<Seat as Decider>⟧.known seat ≡ nothing_known) seats.items) }
    ensures refused { IfErr result (λ error. ((error ≡ CallError.BadSize) × ((n < 1) ⊎ (MOST_RANKS < n))) ⊎ ((error ≡ CallError.OutOfMemory) × (1 ≤ n) × (n ≤ MOST_RANKS))) }
{
    if n == 0 || n > MOST_RANKS {
        return Err(CallError::BadSize);
    }
    let board = Arc::new(alloc, new_register(alloc)?)?;
    let mut all = Vec::with_capacity(alloc, n as usize)?;
    for _ in 0..n {
        all.push_reserved(new_seat(alloc, Arc::try_clone(&board)?)?);
    }
    Ok(all)
}

/// A seat that knows nothing.
fn new_seat(alloc: Global, register: Arc<Vec<Chunk>>) -> Result<Seat, OutOfMemory>
    ensures board { IfOk result (λ seat. ⟦<Seat as Decider>⟧.board seat ≡ Some (names_of (arc_value register).items)) }
    ensures nothing_known { IfOk result (λ seat. ⟦<Seat as Decider>⟧.known seat ≡ nothing_known) }
{
    let trail = Trail::new(alloc, register.as_slice())?;
    Ok(Seat {
        alloc,
        register,
        trail,
    })
}

impl Decider for Seat {
    ghost use Rattle.std.specs.Prelude.{Some};
    ghost use Rattle.std.specs.Arc.{arc_value};
    ghost use Rattle.ulfm_board.specs.Proposals.{WasProposed};
    ghost use Rattle.ulfm_board.specs.inside.Trail.{known_of, names_of};

    ghost board = { λ s. Some (names_of (arc_value s.register).items) };

    ghost known = { λ s. known_of s.trail };

    ghost says = { WasProposed };

    fn decide(&mut self, decision: Decision) -> Result<Decision, OutOfMemory> {
        let alloc = self.alloc;
        let row = row_of(decision.topic);
        let cell = cell_of(decision.topic);
        let register = self.register.as_slice();
        let slot = self.trail.reach(alloc, register, row)?;
        self.trail.decide(alloc, register, slot, cell, decision)
    }

    fn same(&mut self, other: &mut Seat) {
        self.trail.same(&mut other.trail);
    }
}
