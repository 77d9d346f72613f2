//! Items that come, and items that go out.
ghost use Rattle.std.specs.Prelude.{◌≡◌, ◌<◌, ◌↔◌, false, IsTrue, IfSome, IfNone, OnOk, OnErr, []};
ghost use Rattle.ulfm_log.specs.Facts.{is_stopped};
ghost use Rattle.ulfm_log.specs.State.{has_way_back, logged, outbox, returned, GoesOut, MayReturn};
ghost use Rattle.ulfm_rank.specs.Calls.{IsFrom};
ghost use Rattle.ulfm_script.specs.Player.{with_rank};

use super::Player;
use ulfm_base::{Item, OutOfMemory, WorldRank};
use ulfm_log::Entry;

impl Player {
    /// Makes room for one `take` of its rank, or for one poll.
    ///
    /// # Errors
    ///
    /// `OutOfMemory` where there was no such room and a growth was refused.
    pub fn prepare(&mut self) -> Result<(), OutOfMemory>
        ensures player { self.new.player ≡ self.old.player }
        ensures room { self.new.room ≡ self.old.room }
        ensures prepared { OnOk result (IsTrue self.new.prepared) }
        ensures unprepared { OnErr result (self.old.prepared ≡ false) }
    {
        self.rank.prepare()
    }

    /// Whether there is room for one `take`, or for one poll.
    pub fn is_prepared(&self) -> bool
        ensures { result ≡ self.now.prepared }
    {
        self.rank.is_prepared()
    }

    /// Takes an item that came from a rank. It never answers out of memory: it uses the room.
    pub fn take(&mut self, source: WorldRank, item: Item)
        requires prepared { IsTrue self.old.prepared }
        requires running { is_stopped self.old.player.rank.log ≡ false }
        requires below { source.number < self.old.player.rank.ranks }
        requires from { IsFrom source item }
        ensures player { self.new.player ≡ with_rank self.old.player (logged self.old.player.rank (Entry.Took source item)) }
        ensures room { self.new.room ≡ self.old.room }
    {
        self.rank.take(source, item);
    }

    /// Whether an outbox holds nothing.
    pub fn is_outbox_empty(&self, dest: u8) -> bool
        requires { dest < self.now.player.rank.ranks }
        ensures { IsTrue result ↔ (outbox self.now.player.rank dest ≡ []) }
    {
        self.rank.is_outbox_empty(dest)
    }

    /// The first item of an outbox goes out, if there is one. It may come back until the next one goes out there. It never
    /// answers out of memory.
    pub fn take_out(&mut self, dest: u8) -> Option<Item>
        requires inside { dest < self.old.player.rank.ranks }
        ensures leaves { IfSome result (λ item. GoesOut self.old.player.rank self.new.player.rank dest item) }
        ensures none { IfNone result (outbox self.old.player.rank dest ≡ []) }
        ensures unchanged { IfNone result (self.new.player ≡ self.old.player) }
        ensures only { self.new.player ≡ with_rank self.old.player self.new.player.rank }
        ensures room { self.new.room ≡ self.old.room }
        ensures prepared { self.new.prepared ≡ self.old.prepared }
        ensures way_back { IfSome result (λ item. IsTrue (has_way_back self.new.player.rank self.new.lent dest)) }
    {
        self.rank.take_out(dest)
    }

    /// The item that went out last comes back to the front of its outbox. It never answers out of memory.
    pub fn put_back(&mut self, dest: u8, item: Item)
        requires inside { dest < self.old.player.rank.ranks }
        requires taken { MayReturn self.old.player.rank dest item }
        requires way_back { IsTrue (has_way_back self.old.player.rank self.old.lent dest) }
        ensures player { self.new.player ≡ with_rank self.old.player (returned self.old.player.rank dest) }
        ensures room { self.new.room ≡ self.old.room }
        ensures prepared { self.new.prepared ≡ self.old.prepared }
    {
        self.rank.put_back(dest, item);
    }
}
