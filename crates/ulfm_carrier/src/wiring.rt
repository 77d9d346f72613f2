//! A ring for each ordered pair of ranks.
ghost use Rattle.std.specs.Prelude.{◌≡◌, ◌<◌, ◌≤◌, ◌+◌, ◌⊎◌, ℕ, map, vec_len, IfOk, IfErr, OnOk};
ghost use Rattle.ulfm_carrier.specs.declared.lane_ends.LaneEnds.{LaneEnds as Lanes};
ghost use Rattle.ulfm_carrier.specs.Family.{AllFresh};
ghost use Rattle.ulfm_base.specs.Lists.{InPlace, at};
ghost use Rattle.ulfm_carrier.specs.Lanes.{lane_name, lane_pushed, lane_taken, known_room, IsReady, OneCall};
ghost use Rattle.ulfm_carrier.specs.inside.Wiring.{AreWired};

use crate::inlet::Inlet;
use crate::lane_ends::LaneEnds;
use rtrb::RingBuffer;
use std::alloc::Global;
use ulfm_base::{CallError, WorldRank};

/// The ends of `n` ranks, by their places, with a ring of `capacity` places for each ordered pair, a rank with itself
/// too. They keep room for all that the rings can hold, so that a gathering needs no growth.
///
/// # Errors
///
/// `BadSize` where `n` isn't 1 to 8 or `capacity` isn't 1 to 64, else `OutOfMemory` where a growth was refused.
pub fn lanes(alloc: Global, n: u8, capacity: u8) -> Result<Vec<LaneEnds>, CallError>
    ensures sizes { OnOk result ((1 ≤ n) × (n ≤ 8) × (1 ≤ capacity) × (capacity ≤ 64)) }
    ensures len { IfOk result (λ ends. vec_len ends ≡ n) }
    ensures family { IfOk result (λ ends. OneCall (map lane_name ends.items)) }
    ensures places { IfOk result (λ ends. InPlace (λ (e : Lanes). e.me.number) ends.items) }
    ensures fresh { IfOk result (λ ends. AllFresh (λ (e : Lanes). vec_len e.outs) lane_pushed lane_taken IsReady ends.items) }
    ensures first { IfOk result (λ ends. (k : ℕ) (e : Lanes) → at ends.items k e → e.next ≡ 0) }
    ensures room { IfOk result (λ ends. (k d : ℕ) (e : Lanes) → at ends.items k e → d < n → known_room e d ≡ capacity) }
    ensures refused { IfErr result (λ error. (error ≡ CallError.BadSize) × ((n ≡ 0) ⊎ (8 < n) ⊎ (capacity ≡ 0) ⊎ (64 < capacity)) ⊎ (error ≡ CallError.OutOfMemory) × (1 ≤ n) × (n ≤ 8) × (1 ≤ capacity) × (capacity ≤ 64)) }
{
    if n == 0 || n > 8 || capacity == 0 || capacity > 64 {
        return Err(CallError::BadSize);
    }
    let mut ends = unconnected(alloc, n, capacity)?;
    for source in 0..n {
        connect(&mut ends, WorldRank { number: source }, capacity)?;
    }
    Ok(ends)
}

/// Ends with no ring yet, and with room for what will be left.
fn unconnected(alloc: Global, n: u8, capacity: u8) -> Result<Vec<LaneEnds>, CallError>
    requires { n ≤ 8 }
    ensures wired { IfOk result (λ ends. AreWired n capacity 0 0 ends.items) }
    ensures refused { IfErr result (λ error. error ≡ CallError.OutOfMemory) }
{
    let count = n as usize;
    let mut ends = Vec::with_capacity(alloc, count)?;
    for number in 0..n {
        ends.push(LaneEnds {
            me: WorldRank { number },
            outs: Vec::with_capacity(alloc, count)?,
            ins: Vec::with_capacity(alloc, count)?,
            next: 0,
            left: Vec::with_capacity(alloc, count * capacity as usize)?,
            inboxes: Vec::with_capacity(alloc, count)?,
        })?;
    }
    Ok(ends)
}

/// Makes the rings from one rank to each.
fn connect(ends: &mut Vec<LaneEnds>, source: WorldRank, capacity: u8) -> Result<(), CallError>
    requires source { source.number < vec_len ends.old }
    requires wired { AreWired (vec_len ends.old) capacity source.number 0 ends.old.items }
    ensures wired { OnOk result (AreWired (vec_len ends.old) capacity (source.number + 1) 0 ends.new.items) }
    ensures len { vec_len ends.new ≡ vec_len ends.old }
    ensures refused { IfErr result (λ error. error ≡ CallError.OutOfMemory) }
{
    for dest in 0..ends.len() {
        join(ends, source, dest, capacity)?;
    }
    Ok(())
}

/// Makes the ring from one rank to another.
fn join(
    ends: &mut Vec<LaneEnds>,
    source: WorldRank,
    dest: usize,
    capacity: u8,
) -> Result<(), CallError>
    requires source { source.number < vec_len ends.old }
    requires dest { dest < vec_len ends.old }
    requires wired { AreWired (vec_len ends.old) capacity source.number dest ends.old.items }
    ensures wired { OnOk result (AreWired (vec_len ends.old) capacity source.number (dest + 1) ends.new.items) }
    ensures len { vec_len ends.new ≡ vec_len ends.old }
    ensures refused { IfErr result (λ error. error ≡ CallError.OutOfMemory) }
{
    let alloc = *ends.allocator();
    let (out, ring) = RingBuffer::new(alloc, capacity as usize)?;
    let sender = &mut ends[source.number as usize];
    sender.outs.push(out)?;
    let receiver = &mut ends[dest];
    receiver.ins.push(Inlet::new(source, ring))?;
    Ok(())
}
