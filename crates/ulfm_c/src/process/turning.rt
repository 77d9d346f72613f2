//! What comes in, and what goes out.
//!
//! A take of a rank that the caller names leaves where the next turn begins. Were it set, such takes could make each turn begin at the same rank, and
//! pass others over.
ghost use Rattle.std.specs.Prelude.{◌≡◌, ◌<◌, ◌↔◌, [], false, IsTrue, IfOk, IfErr, OnOk, OnErr};
ghost use Rattle.ulfm_log.specs.Facts.{is_gone, is_stopped};
ghost use Rattle.ulfm_c.specs.Progress.{IsFlushed};
ghost use Rattle.ulfm_c.specs.Turning.{IsTakeRefusal, IsTurn, LeavesRoom, Pushes, Takes, TakesFrom};
ghost use Rattle.ulfm_c.specs.inside.Pushing.{PushesOne, PushesTo};
ghost use Rattle.ulfm_log.specs.State.{has_way_back, outbox, returned, MayReturn};

use super::Process;
use ulfm_base::{CallError, Item, OutOfMemory, WorldRank};
use ulfm_rank::Rank;

impl Process {
    /// Takes an item that came, if there is one, and pushes what waits to go out, to each rank as far as its end knows of places in
    /// the ring. It looks at the ranks upwards and round, from the one after the last of which it took, first of all from rank 0.
    /// Answers whether anything moved. Where nothing did, the rank has nothing to do until another one moves, and the next turn has
    /// room.
    ///
    /// # Errors
    ///
    /// `OutOfMemory` where the rank runs, had no room for an item and a growth was refused. Then nothing changed.
    pub fn turn(&mut self) -> Result<bool, OutOfMemory>
        ensures turn { IfOk result (IsTurn self.old.view self.new.view) }
        ensures room { IfOk result (λ moved. moved ≡ false → LeavesRoom self.old self.new) }
        ensures unchanged { OnErr result (self.new.view ≡ self.old.view) }
        ensures runs { OnErr result (is_stopped self.old.view.rank.log ≡ false) }
        ensures room_lacked { OnErr result (self.old.ready ≡ false) }
    {
        let came = self.take_one()?;
        let went = self.push();
        if came {
            return Ok(true);
        }
        Ok(went)
    }

    /// Whether nothing waits to go out to a rank that isn't known to have failed: such a one takes nothing any more. A rank that
    /// stopped knows of failures what it knew as it stopped.
    pub fn has_pushed_all(&self) -> bool
        ensures { IsTrue result ↔ IsFlushed self.now.view }
    {
        for dest in 0..self.rank.ranks() {
            if !self.has_pushed_to(dest) {
                return false;
            }
        }
        true
    }

    /// Whether nothing waits to go out to a rank, or that is known to have failed.
    fn has_pushed_to(&self, dest: u8) -> bool
        requires { dest < self.now.view.rank.ranks }
        ensures { IsTrue result ↔ (is_gone self.now.view.rank.log dest ≡ false → outbox self.now.view.rank dest ≡ []) }
    {
        if self.rank.knows_failed(WorldRank { number: dest }) {
            return true;
        }
        self.rank.is_outbox_empty(dest)
    }

    /// Pushes what waits to go out, to each rank as far as its end knows of places in the ring. Whether anything went.
    pub fn push(&mut self) -> bool
        ensures pushes { Pushes self.old.view self.new.view result }
        ensures room { self.new.ready ≡ self.old.ready }
    {
        let mut moved = false;
        for dest in 0..self.rank.ranks() {
            if self.push_to(dest) {
                moved = true;
            }
        }
        moved
    }

    /// Takes the first item that came from one rank, if there is one and the rank runs. Whether one was taken. Where the next turn
    /// begins to look stays.
    ///
    /// # Errors
    ///
    /// `BadRank` where the world has no such rank, else `OutOfMemory` where the rank runs, had no room for an item and a growth was
    /// refused. Then nothing changed.
    pub fn take_from(&mut self, source: u8) -> Result<bool, CallError>
        ensures takes { IfOk result (TakesFrom self.old.view self.new.view source) }
        ensures rank { OnOk result (source < self.old.view.rank.ranks) }
        ensures room { IfOk result (λ took. took ≡ false → LeavesRoom self.old self.new) }
        ensures refused { IfErr result (IsTakeRefusal self.old source) }
        ensures unchanged { OnErr result (self.new.view ≡ self.old.view) }
    {
        let peer = self.peer(source)?;
        if self.rank.is_stopped() {
            return Ok(false);
        }
        self.rank.prepare()?;
        match self.end.pop_from(source) {
            Some(item) => {
                self.rank.take(peer, item);
                Ok(true)
            }
            None => Ok(false),
        }
    }

    /// Takes an item that came, if there is one and the rank runs. Whether one was taken.
    fn take_one(&mut self) -> Result<bool, OutOfMemory>
        ensures takes { IfOk result (Takes self.old.view self.new.view) }
        ensures room { IfOk result (λ took. took ≡ false → LeavesRoom self.old self.new) }
        ensures unchanged { OnErr result (self.new.view ≡ self.old.view) }
        ensures runs { OnErr result (is_stopped self.old.view.rank.log ≡ false) }
        ensures room_lacked { OnErr result (self.old.ready ≡ false) }
    {
        if self.rank.is_stopped() {
            return Ok(false);
        }
        self.rank.prepare()?;
        match self.end.pop_now() {
            Some((source, item)) => {
                self.rank.take(source, item);
                Ok(true)
            }
            None => Ok(false),
        }
    }

    /// Pushes to one rank, while there is something to push and a place for it. Whether anything went.
    fn push_to(&mut self, dest: u8) -> bool
        requires { dest < self.old.view.rank.ranks }
        ensures pushes { PushesTo self.old.view self.new.view dest result }
        ensures room { self.new.ready ≡ self.old.ready }
    {
        let mut moved = false;
        while self.push_one(dest) {
            moved = true;
        }
        moved
    }

    /// The first item that waits for a rank goes there, if there is one and its ring has a place. Whether one went.
    fn push_one(&mut self, dest: u8) -> bool
        requires { dest < self.old.view.rank.ranks }
        ensures pushes { PushesOne self.old.view self.new.view dest result }
        ensures room { self.new.ready ≡ self.old.ready }
    {
        let Some(item) = self.rank.take_out(dest) else {
            return false;
        };
        match self.end.push_now(dest, item) {
            Ok(()) => true,
            Err(back) => {
                put_back(&mut self.rank, dest, back);
                false
            }
        }
    }
}

/// An item that found no place comes back to its rank.
// Apart: few do, and those that go out are moved whole where none is taken apart.
#[inline(never)]
fn put_back(rank: &mut Rank, dest: u8, item: Item)
    requires inside { dest < rank.old.state.ranks }
    requires taken { MayReturn rank.old.state dest item }
    requires way_back { IsTrue (has_way_back rank.old.state rank.old.lent dest) }
    ensures state { rank.new.state ≡ returned rank.old.state dest }
    ensures prepared { rank.new.prepared ≡ rank.old.prepared }
    ensures place { rank.new.has_place ≡ rank.old.has_place }
{
    rank.put_back(dest, item);
}
