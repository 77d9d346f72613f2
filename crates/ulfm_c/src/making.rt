//! The processes of a world.
ghost use Rattle.std.specs.Prelude.{◌≡◌, ◌<◌, ◌≤◌, ◌⊎◌, ◌++◌, ℕ, All, map, vec_len, IfOk, IfErr, OnOk};
ghost use Rattle.ulfm_base.specs.Lists.{at};
ghost use Rattle.ulfm_carrier.specs.Family.{IsFresh};
ghost use Rattle.ulfm_carrier.specs.Lanes.{IsReady, lane_pushed, lane_taken};
ghost use Rattle.ulfm_carrier.specs.declared.lane_ends.LaneEnds.{LaneEnds as Lanes};
ghost use Rattle.ulfm_board.specs.declared.seat.Seat.{Seat as Place};
ghost use Rattle.ulfm_c.specs.Making.{IsWorld, end_of, seat_of, StartsAtEnd};

use crate::process::Process;
use std::alloc::Global;
use ulfm_base::CallError;
use ulfm_board::{Decider, Seat, seats};
use ulfm_carrier::{LaneEnds, lanes};

/// The processes of a world of `ranks`, by their numbers, with a ring of `capacity` places for each ordered pair, and one board.
///
/// # Errors
///
/// `BadSize` where `ranks` isn't 1 to 8 or `capacity` isn't 1 to 64, else `OutOfMemory` where a growth was refused.
pub fn world(alloc: Global, ranks: u8, capacity: u8) -> Result<Vec<Process>, CallError>
    ensures sizes { OnOk result ((1 ≤ ranks) × (ranks ≤ 8) × (1 ≤ capacity) × (capacity ≤ 64)) }
    ensures world { IfOk result (λ all. IsWorld ranks capacity all.items) }
    ensures refused { IfErr result (λ error. (error ≡ CallError.BadSize) × ((ranks ≡ 0) ⊎ (8 < ranks) ⊎ (capacity ≡ 0) ⊎ (64 < capacity)) ⊎ (error ≡ CallError.OutOfMemory) × (1 ≤ ranks) × (ranks ≤ 8) × (1 ≤ capacity) × (capacity ≤ 64)) }
{
    let ends = lanes(alloc, ranks, capacity)?;
    let seats = seats(alloc, ranks)?;
    let all = seated(alloc, ends, seats, ranks)?;
    Ok(all)
}

/// A process for each end, in order, each with the seat at its place.
fn seated(
    alloc: Global,
    ends: Vec<LaneEnds>,
    seats: Vec<Seat>,
    ranks: u8,
) -> Result<Vec<Process>, CallError>
    requires enough { vec_len ends ≤ vec_len seats }
    requires fresh { (k : ℕ) (e : Lanes) → at ends.items k e → IsFresh (λ (e : Lanes). vec_len e.outs) lane_pushed lane_taken IsReady ranks e }
    ensures ends { IfOk result (λ all. map end_of all.items ≡ ends.items) }
    ensures seats { IfOk result (λ all. (rest : _) × (map seat_of all.items ++ rest ≡ map (λ (s : Place). (⟦<Seat as Decider>⟧.board s, ⟦<Seat as Decider>⟧.known s)) seats.items)) }
    ensures start { IfOk result (λ all. All (StartsAtEnd ranks) all.items) }
    ensures starves { IfErr result (λ error. error ≡ CallError.OutOfMemory) }
{
    let mut all = Vec::with_capacity(alloc, ends.len())?;
    let mut seats = seats.into_iter();
    for end in ends {
        let Some(seat) = seats.next() else {
            unreachable!();
        };
        let process = Process::start(alloc, end, seat, ranks)?;
        all.push_reserved(process);
    }
    Ok(all)
}
