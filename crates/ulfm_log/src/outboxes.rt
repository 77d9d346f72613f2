//! What waits to go out to each rank.
ghost use Rattle.std.specs.Prelude.{◌≡◌, ◌==◌, ◌<◌, ◌^◌, ◌∷◌, [], drop, length, replicate, slice_index_or, slice_set, IsTrue, ◌↔◌, IfNone, IfOk, IfSome, OnOk, OnErr, true, false};
ghost use Rattle.ulfm_base.specs.RankSet.{has};
ghost use Rattle.ulfm_log.specs.Outboxes.{empty_box, box_at, with_first_out, with_item_back, with_notice_out, for_each, item_of_word, AllGrow};

use crate::outbox::Outbox;
use crate::word::Word;
use std::alloc::Global;
use std::collections::VecDeque;
use std::marker::Model;
use ulfm_base::{Item, OutOfMemory, RankSet, WorldRank};

/// An outbox for each rank of the world, and whether it is known that there is room for one item in each.
#[derive(Drop)]
pub struct Outboxes {
    slots: Vec<Outbox>,
    roomy: bool,
}

impl Model for Outboxes {
    ghost use Rattle.std.specs.Prelude.{◌≡◌, true, map};
    ghost use Rattle.std.specs.List.{list_all};
    ghost use Rattle.ulfm_log.specs.Outboxes.{Boxes, contents_of, has_room, is_lent};

    ghost Value = { Boxes };

    ghost view = { λ o. record {
      boxes = map contents_of o.slots.items;
      room = o.roomy;
      lent = map is_lent o.slots.items;
    } };

    ghost invariant = { λ o. o.roomy ≡ true → list_all has_room o.slots.items ≡ true };
}

impl Outboxes {
    /// An empty outbox for each of `n` ranks.
    ///
    /// # Errors
    ///
    /// `OutOfMemory` where the list of outboxes finds no room.
    pub fn new(alloc: Global, n: u8) -> Result<Outboxes, OutOfMemory>
        ensures { IfOk result (λ outboxes. outboxes.boxes ≡ replicate n empty_box) }
    {
        let mut slots = Vec::with_capacity(alloc, n as usize)?;
        for dest in 0..n {
            // The invariant of the loop counts by it.
            let _ = dest;
            slots.push(Outbox::new(alloc))?;
        }
        Ok(Outboxes {
            slots,
            roomy: false,
        })
    }

    /// The same outboxes once more.
    ///
    /// # Errors
    ///
    /// `OutOfMemory` where a growth was refused.
    pub fn copy(&self) -> Result<Outboxes, OutOfMemory>
        ensures { IfOk result (λ outboxes. outboxes.boxes ≡ self.now.boxes) }
    {
        let slots = self.slots.clone()?;
        Ok(Outboxes {
            slots,
            roomy: false,
        })
    }

    /// Makes room for one item in each outbox.
    ///
    /// # Errors
    ///
    /// `OutOfMemory` where an outbox had no such room and a growth was refused.
    pub fn reserve(&mut self) -> Result<(), OutOfMemory>
        ensures boxes { self.new.boxes ≡ self.old.boxes }
        ensures room { OnOk result (IsTrue self.new.room) }
        ensures room_lacked { OnErr result (self.old.room ≡ false) }
    {
        if self.roomy {
            return Ok(());
        }
        for d in 0..self.slots.len() {
            let outbox = &mut self.slots[d];
            outbox.reserve()?;
        }
        self.roomy = true;
        Ok(())
    }

    /// Whether it is known that there is room for one item in each outbox.
    pub fn has_room(&self) -> bool
        ensures { result ≡ self.now.room }
    {
        self.roomy
    }

    /// Puts an item into the outbox towards a rank.
    pub fn put(&mut self, dest: WorldRank, item: Item)
        requires inside { dest.number < length self.old.boxes }
        requires room { IsTrue self.old.room }
        ensures { AllGrow self.old.boxes self.new.boxes (for_each (λ d. dest.number == d) item) }
    {
        let outbox = &mut self.slots[dest.number as usize];
        outbox.put(item);
        self.roomy = outbox.has_room();
    }

    /// Puts word into the outbox towards each rank of a set.
    pub fn put_each(&mut self, to: RankSet, word: Word)
        requires small { length self.old.boxes < 9 }
        requires room { IsTrue self.old.room }
        ensures { AllGrow self.old.boxes self.new.boxes (for_each (has to) (item_of_word word)) }
    {
        for d in 0..self.slots.len() {
            if !to.contains(WorldRank { number: d as u8 }) {
                continue;
            }
            let outbox = &mut self.slots[d];
            outbox.put(word.item());
        }
        self.roomy = false;
    }

    /// The items towards a rank that didn't go out.
    pub fn items(&self, dest: u8) -> &VecDeque<Item>
        requires { dest < length self.now.boxes }
        ensures { result.now.items ≡ (box_at self.now.boxes dest).items }
    {
        let outbox = &self.slots[dest as usize];
        outbox.items()
    }

    /// Whether each item of the outbox towards a rank went out.
    pub fn is_drained(&self, dest: u8) -> bool
        requires { dest < length self.now.boxes }
        ensures { IsTrue result ↔ ((box_at self.now.boxes dest).items ≡ []) }
    {
        let outbox = &self.slots[dest as usize];
        outbox.is_drained()
    }

    /// The next item towards a rank goes out, if there is one, and may come back.
    pub fn take_next(&mut self, dest: u8) -> Option<Item>
        requires inside { dest < length self.old.boxes }
        requires countable { (box_at self.old.boxes dest).items_out < 2 ^ 63 }
        ensures first { IfSome result (λ item. (box_at self.old.boxes dest).items ≡ item ∷ drop 1 (box_at self.old.boxes dest).items) }
        ensures taken { IfSome result (λ item. self.new.boxes ≡ slice_set self.old.boxes dest (with_first_out (box_at self.old.boxes dest))) }
        ensures none { IfNone result ((box_at self.old.boxes dest).items ≡ []) }
        ensures unchanged { IfNone result (self.new ≡ self.old) }
        ensures room { self.new.room ≡ self.old.room }
        ensures lent { IfSome result (λ item. slice_index_or self.new.lent dest false ≡ true) }
    {
        let outbox = &mut self.slots[dest as usize];
        outbox.take_next()
    }

    /// The item towards a rank that went out last comes back.
    pub fn put_back(&mut self, dest: u8, item: Item)
        requires inside { dest < length self.old.boxes }
        requires taken { 0 < (box_at self.old.boxes dest).items_out }
        requires lent { slice_index_or self.old.lent dest false ≡ true }
        ensures boxes { self.new.boxes ≡ slice_set self.old.boxes dest (with_item_back (box_at self.old.boxes dest) item) }
        ensures room { self.new.room ≡ self.old.room }
    {
        let outbox = &mut self.slots[dest as usize];
        outbox.put_back(item);
    }

    /// Whether the notice towards a rank went out.
    pub fn is_notice_out(&self, dest: u8) -> bool
        requires { dest < length self.now.boxes }
        ensures { result ≡ (box_at self.now.boxes dest).notice_out }
    {
        let outbox = &self.slots[dest as usize];
        outbox.is_notice_out()
    }

    /// Notes whether the notice towards a rank went out.
    pub fn set_notice_out(&mut self, dest: u8, notice_out: bool)
        requires { dest < length self.old.boxes }
        ensures boxes { self.new.boxes ≡ slice_set self.old.boxes dest (with_notice_out (box_at self.old.boxes dest) notice_out) }
        ensures room { self.new.room ≡ self.old.room }
    {
        let outbox = &mut self.slots[dest as usize];
        outbox.set_notice_out(notice_out);
    }
}
