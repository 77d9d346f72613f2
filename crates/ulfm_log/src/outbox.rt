//! What waits to go out to one rank.
//!
//! An item moves from its send to the answer and is never copied. The place of what went out last is kept, which alone may come back, until a
//! further item goes out.
ghost use Rattle.std.specs.Prelude.{◌↔◌, ◌≡◌, ◌<◌, ◌^◌, ◌∷◌, [], drop, IsTrue, IfNone, IfSome, OnOk, OnErr, false};
ghost use Rattle.ulfm_log.specs.Outboxes.{one_if};

use std::alloc::Global;
use std::collections::VecDeque;
use std::marker::Model;
use ulfm_base::{Item, OutOfMemory};

/// The items for one destination that didn't go out, in order, and how many did. The last of these may come back, so it
/// keeps its place until then, or until the next one goes out. Of the notice of a stop it has only whether it went out.
#[derive(Drop)]
pub struct Outbox {
    items: VecDeque<Item>,
    items_out: usize,
    // Whether the item that went out last keeps its place, and whether there is one for a further item.
    lent: bool,
    has_place: bool,
    notice_out: bool,
}

impl Model for Outbox {
    ghost use Rattle.std.specs.Prelude.{◌+◌, ◌≤◌};
    ghost use Rattle.std.specs.VecDeque.{deque_len, deque_capacity};
    ghost use Rattle.ulfm_log.specs.Outboxes.{Slot, one_if};

    ghost Value = { Slot };

    ghost view = { λ o. record {
      contents = record { items = o.items.items; items_out = o.items_out; notice_out = o.notice_out };
      room = o.has_place;
      lent = o.lent;
    } };

    ghost invariant = { λ o. deque_len o.items + (one_if o.lent + one_if o.has_place) ≤ deque_capacity o.items };
}

/// To a copy no item comes back.
impl Clone for Outbox {
    ghost is_clone = { λ x y. y.contents ≡ x.contents };

    fn clone(&self) -> Result<Outbox, OutOfMemory> {
        Ok(Outbox {
            items: self.items.clone()?,
            items_out: self.items_out,
            lent: false,
            has_place: false,
            notice_out: self.notice_out,
        })
    }
}

impl Outbox {
    ghost use Rattle.ulfm_log.specs.Outboxes.{empty_box, with_item, with_first_out, with_item_back, with_notice_out};

    /// The empty outbox.
    pub fn new(alloc: Global) -> Self
        ensures { result.contents ≡ empty_box }
    {
        Outbox {
            items: VecDeque::new(alloc),
            items_out: 0,
            lent: false,
            has_place: false,
            notice_out: false,
        }
    }

    /// The items that didn't go out.
    pub fn items(&self) -> &VecDeque<Item>
        ensures { result.now.items ≡ self.now.contents.items }
    {
        &self.items
    }

    /// Makes room for one item.
    ///
    /// # Errors
    ///
    /// `OutOfMemory` where there was no such room and a growth was refused.
    pub fn reserve(&mut self) -> Result<(), OutOfMemory>
        ensures contents { self.new.contents ≡ self.old.contents }
        ensures room { OnOk result (IsTrue self.new.room) }
        ensures room_lacked { OnErr result (self.old.room ≡ false) }
        ensures stays { IsTrue self.old.room → IsTrue self.new.room }
    {
        if self.has_place {
            return Ok(());
        }
        self.items.reserve(places(self.lent) + 1)?;
        self.has_place = true;
        Ok(())
    }

    /// Whether there is room for one item.
    pub fn has_room(&self) -> bool
        ensures { result ≡ self.now.room }
    {
        self.has_place
    }

    /// Puts an item behind the others.
    pub fn put(&mut self, item: Item)
        requires { IsTrue self.old.room }
        ensures { self.new.contents ≡ with_item self.old.contents item }
    {
        self.items.push_back_reserved(item);
        self.has_place = self.items.len() + places(self.lent) < self.items.capacity();
    }

    /// The next item goes out, if there is one, and may come back.
    pub fn take_next(&mut self) -> Option<Item>
        requires { self.old.contents.items_out < 2 ^ 63 }
        ensures first { IfSome result (λ item. self.old.contents.items ≡ item ∷ drop 1 self.old.contents.items) }
        ensures taken { IfSome result (λ item. self.new.contents ≡ with_first_out self.old.contents) }
        ensures none { IfNone result (self.old.contents.items ≡ []) }
        ensures unchanged { IfNone result (self.new ≡ self.old) }
        ensures room { self.new.room ≡ self.old.room }
        ensures lent { IfSome result (λ item. IsTrue self.new.lent) }
    {
        let item = self.items.pop_front()?;
        self.items_out += 1;
        self.lent = true;
        Some(item)
    }

    /// The item that went out last comes back.
    pub fn put_back(&mut self, item: Item)
        requires out { 0 < self.old.contents.items_out }
        requires lent { IsTrue self.old.lent }
        ensures contents { self.new.contents ≡ with_item_back self.old.contents item }
        ensures room { self.new.room ≡ self.old.room }
    {
        self.items.push_front_reserved(item);
        self.items_out -= 1;
        self.lent = false;
    }

    /// Whether each of its items went out.
    pub fn is_drained(&self) -> bool
        ensures { IsTrue result ↔ (self.now.contents.items ≡ []) }
    {
        self.items.is_empty()
    }

    /// Whether the notice went out.
    pub fn is_notice_out(&self) -> bool
        ensures { result ≡ self.now.contents.notice_out }
    {
        self.notice_out
    }

    /// Notes whether the notice went out.
    pub fn set_notice_out(&mut self, notice_out: bool)
        ensures contents { self.new.contents ≡ with_notice_out self.old.contents notice_out }
        ensures room { self.new.room ≡ self.old.room }
    {
        self.notice_out = notice_out;
    }
}

/// How many places are kept for the item that went out last.
fn places(lent: bool) -> usize
    ensures { result ≡ one_if lent }
{
    if lent { 1 } else { 0 }
}
