//! What goes out to the other ranks.
//!
//! `take_out` promises that what went out last keeps its place, and no other call says so: by contract an item comes back before the rank's next
//! call.
ghost use Rattle.std.specs.Prelude.{◌≡◌, ◌<◌, ◌↔◌, [], false, IsTrue, IfNone, IfSome};
ghost use Rattle.ulfm_log.specs.Facts.{is_stopped};
ghost use Rattle.ulfm_log.specs.State.{has_way_back, outbox, returned, GoesOut, MayReturn};

use super::Rank;
use std::collections::VecDeque;
use ulfm_base::Item;

impl Rank {
    /// The items towards a rank that wait in its outbox, where this rank goes on running. Of one that stopped the outbox holds a
    /// notice at most, and `is_outbox_empty` tells of that.
    pub fn items_to(&self, dest: u8) -> &VecDeque<Item>
        requires inside { dest < self.now.state.ranks }
        requires running { is_stopped self.now.state.log ≡ false }
        ensures { result.now.items ≡ outbox self.now.state dest }
    {
        self.outboxes.items(dest)
    }

    /// Whether the outbox towards a rank holds nothing.
    pub fn is_outbox_empty(&self, dest: u8) -> bool
        requires { dest < self.now.state.ranks }
        ensures { IsTrue result ↔ (outbox self.now.state dest ≡ []) }
    {
        if !self.stopped {
            return self.outboxes.is_drained(dest);
        }
        dest == self.me.number || self.outboxes.is_notice_out(dest)
    }

    /// The first item of the outbox towards a rank goes out, if there is one. It may come back until the next one goes out
    /// there. It can't run out of memory.
    pub fn take_out(&mut self, dest: u8) -> Option<Item>
        requires { dest < self.old.state.ranks }
        ensures leaves { IfSome result (λ item. GoesOut self.old.state self.new.state dest item) }
        ensures none { IfNone result (outbox self.old.state dest ≡ []) }
        ensures unchanged { IfNone result (self.new ≡ self.old) }
        ensures prepared { self.new.prepared ≡ self.old.prepared }
        ensures place { self.new.has_place ≡ self.old.has_place }
        ensures way_back { IfSome result (λ item. IsTrue (has_way_back self.new.state self.new.lent dest)) }
    {
        if !self.stopped {
            return self.outboxes.take_next(dest);
        }
        if dest == self.me.number || self.outboxes.is_notice_out(dest) {
            return None;
        }
        self.outboxes.set_notice_out(dest, true);
        Some(Item::Gone)
    }

    /// The item that went out last comes back to the front of its outbox. It can't run out of memory.
    ///
    /// The last `take_out` of this outbox gave this item, and it didn't come back since.
    pub fn put_back(&mut self, dest: u8, item: Item)
        requires inside { dest < self.old.state.ranks }
        requires taken { MayReturn self.old.state dest item }
        requires way_back { IsTrue (has_way_back self.old.state self.old.lent dest) }
        ensures state { self.new.state ≡ returned self.old.state dest }
        ensures prepared { self.new.prepared ≡ self.old.prepared }
        ensures place { self.new.has_place ≡ self.old.has_place }
    {
        if self.stopped {
            self.outboxes.set_notice_out(dest, false);
            return;
        }
        self.outboxes.put_back(dest, item);
    }
}
