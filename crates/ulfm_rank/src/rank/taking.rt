//! Items that come from other ranks.
//!
//! A rank that is prepared has room for one `take` or one call, with a place of the log for the release of one more request. The place in the table of
//! requests is told apart (`has_place`): only `irecv` needs it. A test never changes the room. It keeps the place, and a release may bring it back,
//! but needn't, since the table's slot may have to stay marked.
ghost use Rattle.std.specs.Prelude.{◌≡◌, ◌<◌, IsTrue, OnOk, OnErr, false};
ghost use Rattle.ulfm_rank.specs.Calls.{IsFrom};
ghost use Rattle.ulfm_log.specs.Facts.{is_stopped};
ghost use Rattle.ulfm_log.specs.State.{is_ready, logged};

use super::{Rank, stop_places};
use crate::failures::{learn, was_revoked};
use crate::requests::settle;
use ulfm_base::{Item, NotedItem, OutOfMemory, WorldRank};
use ulfm_log::{Entry, hear, make_place, pass_on};

impl Rank {
    /// Makes room for one `take` or one call.
    ///
    /// # Errors
    ///
    /// `OutOfMemory` where there was no such room and a growth was refused.
    pub fn prepare(&mut self) -> Result<(), OutOfMemory>
        ensures state { self.new.state ≡ self.old.state }
        ensures prepared { OnOk result (IsTrue self.new.prepared) }
        ensures place { OnOk result (IsTrue self.new.has_place) }
        ensures room_lacked { OnErr result (is_ready self.old ≡ false) }
        ensures stays_prepared { IsTrue self.old.prepared → IsTrue self.new.prepared }
        ensures keeps_place { IsTrue self.old.has_place → IsTrue self.new.has_place }
    {
        let places = self.requests.len() + stop_places(self.stopped) + 2;
        self.log.reserve(places)?;
        self.requests.reserve(1)?;
        self.matcher.prepare()?;
        make_place(&mut self.told)?;
        self.block.make()?;
        self.faults.make_place()?;
        self.rounds.make_place()?;
        self.communicators.make_place()?;
        self.outboxes.reserve()
    }

    /// Whether there is room for one `take` or one call.
    pub fn is_prepared(&self) -> bool
        ensures { result ≡ is_ready self.now }
    {
        let places = self.log.len() + self.requests.len() + stop_places(self.stopped) + 1;
        self.matcher.is_prepared()
            && places < self.log.capacity()
            && self.requests.len() < self.requests.capacity()
            && self.outboxes.has_room()
            && self.told.len() < self.told.capacity()
            && self.block.is_there()
            && self.faults.has_place()
            && self.rounds.has_place()
            && self.communicators.has_place()
    }

    /// Takes an item that came from a rank. A letter is handed to the earliest receive that takes it, or kept, or
    /// dropped where its communicator is revoked. The notice of a stop ends the receives that name its sender. The
    /// first notice that a communicator is revoked ends its receives, and is passed on to the other ranks. The first
    /// word of another rank's entrance into a shrink or an agreement counts. It can't run out of memory: the room that
    /// `prepare` made is used up.
    pub fn take(&mut self, source: WorldRank, item: Item)
        requires prepared { IsTrue self.old.prepared }
        requires running { is_stopped self.old.state.log ≡ false }
        requires below { source.number < self.old.state.ranks }
        requires from { IsFrom source item }
        ensures { self.new.state ≡ logged self.old.state (Entry.Took source item) }
    {
        let revoked = was_revoked(&self.faults, &item);
        pass_on(
            &mut self.outboxes,
            self.me.number,
            self.faults.known(),
            revoked,
            &item,
        );
        learn(&mut self.faults, source, &item);
        hear(&mut self.told, &self.rounds, source, &item);
        let noted = NotedItem::of(&item);
        settle(&mut self.matcher, &mut self.requests, revoked, source, item);
        self.log.push_reserved(Entry::Took(source, noted));
    }
}
