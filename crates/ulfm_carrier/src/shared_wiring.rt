//! An inbox for each rank, with a pass for each sender.
//!
//! It takes the allocator and no `rt`, as `lanes` does: making passes waits for nobody.
ghost use Rattle.std.specs.Prelude.{◌≡◌, ◌<◌, ◌≤◌, ◌⊎◌, ℕ, length, map, vec_len, IfOk, IfErr, OnOk};
ghost use Rattle.std.specs.Arc.{arc_value};
ghost use Rattle.ulfm_carrier.specs.declared.shared_ends.SharedEnds.{SharedEnds as Shared};
ghost use Rattle.ulfm_carrier.specs.Family.{AllFresh};
ghost use Rattle.ulfm_base.specs.Lists.{InPlace, at};
ghost use Rattle.ulfm_carrier.specs.inside.SharedWiring.{AreInboxes, AreInlets, AreNextOuts, AreRows, AreOpenInlets, HaveMadeOneMore, AreMade};
ghost use Rattle.ulfm_carrier.specs.Shared.{shared_name, shared_pushed, shared_taken, inbox_capacity, IsReady, OneCall};

use crate::inbox::{InboxPass, SharedInbox, new_inbox, next_sender};
use crate::shared_ends::SharedEnds;
use std::alloc::Global;
use std::mem;
use std::sync::Arc;
use ulfm_base::{CallError, WorldRank};

/// The ends of `n` ranks, by their places, with an inbox of `capacity` places for each rank, which all ranks share as
/// senders, itself too. They keep room for all that the inboxes can hold, so that a gathering needs no growth.
///
/// # Errors
///
/// `BadSize` where `n` isn't 1 to 8 or `capacity` isn't 1 to 64, else `OutOfMemory` where a growth was refused.
pub fn shared(alloc: Global, n: u8, capacity: u8) -> Result<Vec<SharedEnds>, CallError>
    ensures sizes { OnOk result ((1 ≤ n) × (n ≤ 8) × (1 ≤ capacity) × (capacity ≤ 64)) }
    ensures len { IfOk result (λ ends. vec_len ends ≡ n) }
    ensures family { IfOk result (λ ends. OneCall (map shared_name ends.items)) }
    ensures places { IfOk result (λ ends. InPlace (λ (e : Shared). e.me.number) ends.items) }
    ensures fresh { IfOk result (λ ends. AllFresh (λ (e : Shared). vec_len e.outs) shared_pushed shared_taken IsReady ends.items) }
    ensures capacities { IfOk result (λ ends. (k d : ℕ) (e : Shared) → at ends.items k e → d < n → inbox_capacity e d ≡ capacity) }
    ensures refused { IfErr result (λ error. (error ≡ CallError.BadSize) × ((n ≡ 0) ⊎ (8 < n) ⊎ (capacity ≡ 0) ⊎ (64 < capacity)) ⊎ (error ≡ CallError.OutOfMemory) × (1 ≤ n) × (n ≤ 8) × (1 ≤ capacity) × (capacity ≤ 64)) }
{
    if n == 0 || n > 8 || capacity == 0 || capacity > 64 {
        return Err(CallError::BadSize);
    }
    let (inboxes, mut inlets) = new_inboxes(alloc, n, capacity)?;
    let mut rows = all_outs(alloc, n, &inboxes, &mut inlets)?;
    let inboxes = Arc::new(alloc, inboxes)?;
    wired(alloc, capacity, &inboxes, &mut rows, inlets)
}

/// An empty inbox for each rank, and the passes of the receivers, which made no sender yet.
fn new_inboxes(
    alloc: Global,
    n: u8,
    capacity: u8,
) -> Result<(Vec<SharedInbox>, Vec<InboxPass>), CallError>
    requires { 1 ≤ capacity }
    ensures len { IfOk result (λ made. (length made.0.items ≡ n) × (length made.1.items ≡ n)) }
    ensures inboxes { IfOk result (λ made. AreInboxes capacity made.0.items) }
    ensures inlets { IfOk result (λ made. AreInlets 0 made.0.items made.1.items) }
    ensures refused { IfErr result (λ error. error ≡ CallError.OutOfMemory) }
{
    let mut inboxes = Vec::with_capacity(alloc, n as usize)?;
    let mut inlets = Vec::with_capacity(alloc, n as usize)?;
    for _ in 0..n {
        let (inbox, inlet) = new_inbox(alloc, capacity as usize)?;
        inboxes.push(inbox)?;
        inlets.push(inlet)?;
    }
    Ok((inboxes, inlets))
}

/// For each rank the passes by which it sends, by the receivers.
fn all_outs(
    alloc: Global,
    n: u8,
    inboxes: &Vec<SharedInbox>,
    inlets: &mut Vec<InboxPass>,
) -> Result<Vec<Vec<InboxPass>>, CallError>
    requires len { (length inboxes.now.items ≡ n) × (length inlets.old.items ≡ n) }
    requires inlets { AreInlets 0 inboxes.now.items inlets.old.items }
    ensures len { length inlets.new.items ≡ n }
    ensures inlets { OnOk result (AreInlets n inboxes.now.items inlets.new.items) }
    ensures rows { IfOk result (λ rows. AreRows n inboxes.now.items rows.items) }
    ensures refused { IfErr result (λ error. error ≡ CallError.OutOfMemory) }
{
    let mut rows = Vec::with_capacity(alloc, n as usize)?;
    for _ in 0..n {
        let outs = next_outs(alloc, inboxes, inlets)?;
        rows.push(outs)?;
    }
    Ok(rows)
}

/// The passes by which the next rank sends.
fn next_outs(
    alloc: Global,
    inboxes: &Vec<SharedInbox>,
    inlets: &mut Vec<InboxPass>,
) -> Result<Vec<InboxPass>, CallError>
    requires len { length inlets.old.items ≡ length inboxes.now.items }
    requires inlets { AreOpenInlets inboxes.now.items inlets.old.items }
    ensures len { length inlets.new.items ≡ length inlets.old.items }
    ensures inlets { OnOk result (HaveMadeOneMore inlets.old.items inlets.new.items) }
    ensures outs { IfOk result (λ outs. (length outs.items ≡ length inboxes.now.items) × AreNextOuts inboxes.now.items inlets.old.items outs.items) }
    ensures refused { IfErr result (λ error. error ≡ CallError.OutOfMemory) }
{
    let mut outs = Vec::with_capacity(alloc, inboxes.len())?;
    for dest in 0..inboxes.len() {
        let out = next_sender(&inboxes[dest], &mut inlets[dest]);
        outs.push(out)?;
    }
    Ok(outs)
}

/// The ends that have these passes, with room for what will be left.
fn wired(
    alloc: Global,
    capacity: u8,
    inboxes: &Arc<Vec<SharedInbox>>,
    rows: &mut Vec<Vec<InboxPass>>,
    inlets: Vec<InboxPass>,
) -> Result<Vec<SharedEnds>, CallError>
    requires few { length inlets.items ≤ 8 }
    requires len { length (arc_value inboxes.now).items ≡ length inlets.items }
    requires inlets { AreInlets (length inlets.items) (arc_value inboxes.now).items inlets.items }
    requires rows { AreRows (length inlets.items) (arc_value inboxes.now).items rows.old.items }
    ensures made { IfOk result (λ ends. AreMade (length inlets.items) capacity (arc_value inboxes.now).items ends.items) }
    ensures refused { IfErr result (λ error. error ≡ CallError.OutOfMemory) }
{
    let count = inlets.len();
    let mut ends = Vec::with_capacity(alloc, count)?;
    for inlet in inlets {
        let place = ends.len();
        let outs = mem::replace(&mut rows[place], Vec::new(alloc));
        ends.push(SharedEnds {
            me: WorldRank {
                number: place as u8,
            },
            inboxes: Arc::try_clone(inboxes)?,
            outs,
            inlet,
            gathered: None,
            left: Vec::with_capacity(alloc, capacity as usize)?,
            lists: Vec::with_capacity(alloc, count)?,
        })?;
    }
    Ok(ends)
}
