//! What is left in the rings, once all ends are in one hand.
ghost use Rattle.std.specs.Prelude.{◌≡◌, ◌≢◌, ◌<◌, ◌≤◌, ◌++◌, [], ℕ, map, vec_len};
ghost use Rattle.ulfm_carrier.specs.declared.lane_ends.LaneEnds.{LaneEnds as Lanes};
ghost use Rattle.ulfm_carrier.specs.Family.{Keeps, IsGathered};
ghost use Rattle.ulfm_base.specs.Items.{items_from};
ghost use Rattle.ulfm_base.specs.Lists.{at};
ghost use Rattle.ulfm_carrier.specs.Lanes.{lane_name, lane_pushed, lane_taken, HasRings, IsReady, OneCall};

use crate::lane_ends::LaneEnds;
use crate::residue::Residue;
use std::mem;
use ulfm_base::{Item, WorldRank};

/// Empties the inboxes of all ends of one call. It never answers out of memory.
pub(crate) fn gather_all(mut ends: Vec<LaneEnds>) -> (Residue, Vec<LaneEnds>)
    requires family { OneCall (map lane_name ends.items) }
    requires ready { (k : ℕ) (e : Lanes) → at ends.items k e → IsReady e }
    ensures same { Keeps lane_name lane_pushed lane_taken ends.items result.1.items }
    ensures residue { IsGathered lane_pushed lane_taken ends.items result.0.inboxes.items }
{
    let alloc = *ends.allocator();
    let first = &mut ends[0];
    let mut inboxes = mem::replace(&mut first.inboxes, Vec::new(alloc));
    for place in 0..ends.len() {
        let left = gather_one(&mut ends, place);
        inboxes.push_reserved(left);
    }
    (Residue { inboxes }, ends)
}

/// Empties the inbox of one end: answers what was left in it.
fn gather_one(ends: &mut Vec<LaneEnds>, place: usize) -> Vec<(WorldRank, Item)>
    requires place { place < vec_len ends.old }
    requires family { OneCall (map lane_name ends.old.items) }
    requires ready { (e : Lanes) → at ends.old.items place e → HasRings e }
    ensures same { Keeps lane_name lane_pushed lane_taken ends.old.items ends.new.items }
    ensures others { (k : ℕ) (e f : Lanes) → k ≢ place → at ends.old.items k e → at ends.new.items k f → HasRings e → HasRings f }
    ensures left { (s : ℕ) (sender receiver : Lanes) → at ends.old.items s sender → at ends.old.items place receiver → lane_pushed sender place ≡ lane_taken receiver s ++ items_from s result.items }
    ensures no_others { (s : ℕ) → vec_len ends.old ≤ s → items_from s result.items ≡ [] }
{
    let alloc = *ends.allocator();
    let receiver = &mut ends[place];
    let mut ins = mem::replace(&mut receiver.ins, Vec::new(alloc));
    let mut left = mem::replace(&mut receiver.left, Vec::new(alloc));
    for from in 0..ends.len() {
        let sender = &mut ends[from];
        let inlet = &mut ins[from];
        inlet.drain(&mut sender.outs[place], &mut left);
    }
    let receiver = &mut ends[place];
    receiver.ins = ins;
    left
}
