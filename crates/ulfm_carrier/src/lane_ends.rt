//! A rank's ends of the rings to and from each rank.
ghost use Rattle.std.specs.Prelude.{◌≡◌, ◌≢◌, ◌<◌, ◌≤◌, ◌+◌, ◌%◌, ◌++◌, ◌↔◌, [], ◌∷◌, ℕ, length, map, slice_get, vec_len, IsTrue, MatchOption, IfNone, IfSome};
ghost use mathlib.Core.List.{IsPrefix};

use crate::carried::Carried;
use crate::ends::Ends;
use crate::gathering::gather_all;
use crate::head::Head;
use crate::inlet::Inlet;
use crate::residue::Residue;
use rtrb::Producer;
use std::alloc::Global;
use std::collections::LinkedList;
use std::sync::Wait;
use ulfm_base::{Item, WorldRank};

/// What tells a ring from all others. No value of it is made.
pub struct RingName {
    pub words: *mut u64,
    pub slots: *mut Carried,
    pub names: (u64, (u64, u64)),
    pub heap: Global,
}

/// What tells the ends of a rank from all others. No value of it is made.
pub struct LaneName {
    /// The number of the rank.
    pub place: u8,
    /// The rings that it pushes to, by their receivers.
    pub outs: LinkedList<RingName>,
    /// The rings that it pops from, by their senders.
    pub ins: LinkedList<RingName>,
}

/// A rank's ends of the rings to and from each rank, itself too. It may move to a thread of its own.
#[derive(Drop)]
pub struct LaneEnds {
    pub(crate) me: WorldRank,
    pub(crate) outs: Vec<Producer<Carried>>,
    pub(crate) ins: Vec<Inlet>,
    /// Where the next pop begins to look.
    pub(crate) next: u8,
    /// Room for what is left in the rank's inbox at the end.
    pub(crate) left: Vec<(WorldRank, Item)>,
    /// Room for a list of what is left in each inbox.
    pub(crate) inboxes: Vec<Vec<(WorldRank, Item)>>,
}

impl LaneEnds {
    ghost use Rattle.ulfm_base.specs.Items.{ComesFrom};
    ghost use Rattle.ulfm_carrier.specs.Carried.{item_from};
    ghost use Rattle.ulfm_carrier.specs.Head.{head_of};
    ghost use Rattle.ulfm_carrier.specs.Lanes.{heads_from, lane_name, lane_pushed, lane_taken, known_room, seen_from, IsReady, IsPush, IsPop};

    /// `push` without an `rt`, so it waits for nobody.
    ///
    /// # Errors
    ///
    /// The item itself, where this end knows of no free place in the ring to that rank.
    pub fn push_now(&mut self, dest: u8, item: Item) -> Result<(), Item>
        requires ready { IsReady self.old }
        requires dest { dest < vec_len self.old.outs }
        requires item { ComesFrom self.old.me.number item }
        ensures { IsPush self.old self.new dest item result }
    {
        let out = &mut self.outs[dest as usize];
        if out.is_full() {
            return Err(item);
        }
        out.push_reserved(Carried::of(item));
        Ok(())
    }

    /// `pop` without an `rt`, so it waits for nobody. It looks at the ranks upwards and round, from the one after the
    /// last from which it took, first of all from rank 0. Where it finds nothing, that turn stays, and all that the rank
    /// pushed to itself was taken.
    pub fn pop_now(&mut self) -> Option<(WorldRank, Item)>
        requires ready { IsReady self.old }
        ensures { IsPop self.old self.new result }
    {
        let count = self.ins.len() as u8;
        let start = self.next;
        for step in 0..count {
            let peer = place_in_turn(start, step, count);
            if let Some(item) = self.pop_from(peer) {
                self.next = peer + 1;
                return Some((WorldRank { number: peer }, item));
            }
        }
        None
    }

    /// Takes the next item out of the ring from one rank, if one is found. Where the next pop begins to look stays.
    pub fn pop_from(&mut self, source: u8) -> Option<Item>
        requires ready { IsReady self.old }
        requires source { source < vec_len self.old.outs }
        ensures name { (lane_name self.new ≡ lane_name self.old) × (self.new.me ≡ self.old.me) × (vec_len self.new.outs ≡ vec_len self.old.outs) × IsReady self.new }
        ensures pushed { (p : ℕ) → lane_pushed self.new p ≡ lane_pushed self.old p }
        ensures sender { IfSome result (λ item. ComesFrom source item) }
        ensures taken { MatchOption result ((p : ℕ) → lane_taken self.new p ≡ lane_taken self.old p)
            (λ item. (lane_taken self.new source ≡ lane_taken self.old source ++ item ∷ []) × ((p : ℕ) → p ≢ source → lane_taken self.new p ≡ lane_taken self.old p)) }
        ensures first { IfSome result (λ item. IsPrefix (heads_from self.old source) (head_of item ∷ heads_from self.new source)) }
        ensures nothing_seen { IfNone result (seen_from self.new source ≡ []) }
        ensures own { IfNone result (source ≡ self.old.me.number → lane_pushed self.new source ≡ lane_taken self.new source) }
        ensures others_seen { (p : ℕ) → p ≢ source → seen_from self.new p ≡ seen_from self.old p }
        ensures next { self.new.next ≡ self.old.next }
        ensures rooms { (p : ℕ) → known_room self.old p ≤ known_room self.new p }
        ensures other_rooms { (p : ℕ) → p ≢ self.old.me.number → known_room self.new p ≡ known_room self.old p }
    {
        if !self.has_item_from(source) {
            return None;
        }
        let inlet = &mut self.ins[source as usize];
        let item = inlet.take();
        Some(item)
    }

    /// What is told of the item that the next `pop_from` of this rank takes, if one is found. It stays in the ring.
    pub fn first_from(&mut self, source: u8) -> Option<Head>
        requires ready { IsReady self.old }
        requires source { source < vec_len self.old.outs }
        ensures name { (lane_name self.new ≡ lane_name self.old) × (self.new.me ≡ self.old.me) × (vec_len self.new.outs ≡ vec_len self.old.outs) × IsReady self.new }
        ensures next { self.new.next ≡ self.old.next }
        ensures first { result ≡ slice_get (heads_from self.new source) 0 }
        ensures stays { IsPrefix (seen_from self.old source) (seen_from self.new source) }
        ensures own { IfNone result (source ≡ self.old.me.number → lane_pushed self.new source ≡ lane_taken self.new source) }
        ensures others_seen { (p : ℕ) → p ≢ source → seen_from self.new p ≡ seen_from self.old p }
        ensures taken { (p : ℕ) → lane_taken self.new p ≡ lane_taken self.old p }
        ensures pushed { (p : ℕ) → lane_pushed self.new p ≡ lane_pushed self.old p }
        ensures rooms { (p : ℕ) → known_room self.old p ≤ known_room self.new p }
        ensures other_rooms { (p : ℕ) → p ≢ self.old.me.number → known_room self.new p ≡ known_room self.old p }
    {
        if !self.has_item_from(source) {
            return None;
        }
        Some(self.ins[source as usize].head())
    }

    /// Whether an item is found in the ring from one rank. It stays there.
    fn has_item_from(&mut self, peer: u8) -> bool
        requires ready { IsReady self.old }
        requires peer { peer < vec_len self.old.outs }
        ensures name { (lane_name self.new ≡ lane_name self.old) × (self.new.me ≡ self.old.me) × (vec_len self.new.outs ≡ vec_len self.old.outs) × IsReady self.new }
        ensures next { self.new.next ≡ self.old.next }
        ensures found { IsTrue result ↔ (0 < length (seen_from self.new peer)) }
        ensures own { peer ≡ self.old.me.number → lane_pushed self.new peer ≡ lane_taken self.new peer ++ map (item_from self.old.me) (seen_from self.new peer) }
        ensures stays { IsPrefix (seen_from self.old peer) (seen_from self.new peer) }
        ensures others_seen { (p : ℕ) → p ≢ peer → seen_from self.new p ≡ seen_from self.old p }
        ensures taken { (p : ℕ) → lane_taken self.new p ≡ lane_taken self.old p }
        ensures pushed { (p : ℕ) → lane_pushed self.new p ≡ lane_pushed self.old p }
        ensures rooms { (p : ℕ) → known_room self.old p ≤ known_room self.new p }
        ensures other_rooms { (p : ℕ) → p ≢ self.old.me.number → known_room self.new p ≡ known_room self.old p }
    {
        if peer == self.me.number {
            return self.has_item_of_its_own();
        }
        let inlet = &mut self.ins[peer as usize];
        inlet.has_item()
    }

    /// Whether an item is found in the ring from the rank to itself, both ends of which are here.
    fn has_item_of_its_own(&mut self) -> bool
        requires ready { IsReady self.old }
        ensures name { (lane_name self.new ≡ lane_name self.old) × (self.new.me ≡ self.old.me) × (vec_len self.new.outs ≡ vec_len self.old.outs) × IsReady self.new }
        ensures next { self.new.next ≡ self.old.next }
        ensures found { IsTrue result ↔ (0 < length (seen_from self.new self.old.me.number)) }
        ensures own { lane_pushed self.new self.old.me.number ≡ lane_taken self.new self.old.me.number ++ map (item_from self.old.me) (seen_from self.new self.old.me.number) }
        ensures stays { IsPrefix (seen_from self.old self.old.me.number) (seen_from self.new self.old.me.number) }
        ensures others_seen { (p : ℕ) → p ≢ self.old.me.number → seen_from self.new p ≡ seen_from self.old p }
        ensures taken { (p : ℕ) → lane_taken self.new p ≡ lane_taken self.old p }
        ensures pushed { (p : ℕ) → lane_pushed self.new p ≡ lane_pushed self.old p }
        ensures rooms { (p : ℕ) → known_room self.old p ≤ known_room self.new p }
        ensures other_rooms { (p : ℕ) → p ≢ self.old.me.number → known_room self.new p ≡ known_room self.old p }
    {
        let place = self.me.number as usize;
        let inlet = &mut self.ins[place];
        inlet.has_item_beside(&mut self.outs[place])
    }
}

/// The place that is come to after so many others, upwards and round.
fn place_in_turn(start: u8, step: u8, count: u8) -> u8
    requires { step < count }
    ensures { result ≡ (start + step) % count }
{
    let place = start as u16 + step as u16;
    let count = count as u16;
    // A division takes longer than all else of a look. Where the turn began at a place of these, none is made.
    if place < count {
        return place as u8;
    }
    if place - count < count {
        return (place - count) as u8;
    }
    (place % count) as u8
}

impl Ends for LaneEnds {
    ghost use Rattle.std.specs.Prelude.{ℕ, vec_len};
    ghost use Rattle.ulfm_carrier.specs.Family.{Keeps, IsGathered};
    ghost use Rattle.ulfm_base.specs.Items.{ComesFrom};
    ghost use Rattle.ulfm_base.specs.Lists.{at};
    ghost use Rattle.ulfm_carrier.specs.Lanes.{lane_name, lane_pushed, lane_taken, IsReady, IsPush, IsPop, OneCall};

    type Name = LaneName;

    ghost name = { lane_name };

    ghost one_call = { OneCall };

    ghost place = { λ e. e.me.number };

    ghost count = { λ e. vec_len e.outs };

    ghost pushed = { lane_pushed };

    ghost taken = { lane_taken };

    ghost ready = { IsReady };

    fn me(&self) -> WorldRank {
        self.me
    }

    fn push<R: Wait>(&mut self, _rt: &R, dest: u8, item: Item) -> Result<(), Item>
        requires ready { IsReady self.old }
        requires dest { dest < vec_len self.old.outs }
        requires item { ComesFrom self.old.me.number item }
        ensures { IsPush self.old self.new dest item result }
    {
        self.push_now(dest, item)
    }

    fn pop<R: Wait>(&mut self, _rt: &R) -> Option<(WorldRank, Item)>
        requires ready { IsReady self.old }
        ensures { IsPop self.old self.new result }
    {
        self.pop_now()
    }

    fn gather<R: Wait>(_rt: &R, ends: Vec<LaneEnds>) -> (Residue, Vec<LaneEnds>)
        requires family { OneCall (map lane_name ends.items) }
        requires ready { (k : ℕ) (e : _) → at ends.items k e → IsReady e }
        ensures same { Keeps lane_name lane_pushed lane_taken ends.items result.1.items }
        ensures residue { IsGathered lane_pushed lane_taken ends.items result.0.inboxes.items }
    {
        gather_all(ends)
    }
}
