//! What came for one rank and wasn't taken yet.
ghost use Rattle.std.specs.Prelude.{◌≡◌, ◌≢◌, ◌++◌, ◌∷◌, [], length, IfErr, OnOk, OnErr, MatchBool, MatchOption, drop, position, ◌==◌};

use crate::event::Refused;
use crate::room::Room;
use std::alloc::Global;
use std::collections::VecDeque;
use std::marker::Model;
use ulfm_base::{Item, OutOfMemory, WorldRank};

/// Items with their senders, in the order in which they came.
#[derive(Drop)]
pub struct Inbox {
    items: VecDeque<(WorldRank, Item)>,
}

impl Model for Inbox {
    ghost use Rattle.std.specs.Prelude.{List};
    ghost use Rattle.ulfm_base.specs.declared.rank.WorldRank.{WorldRank};
    ghost use Rattle.ulfm_base.specs.declared.item.Item.{Item};

    ghost Value = { List (WorldRank × Item) };

    ghost view = { λ inbox. inbox.items.items };
}

impl Clone for Inbox {
    ghost is_clone = { λ x y. y ≡ x };

    fn clone(&self) -> Result<Inbox, OutOfMemory> {
        let items = self.items.clone()?;
        Ok(Inbox { items })
    }
}

impl Inbox {
    ghost use Rattle.ulfm_base.specs.Items.{items_from};
    ghost use Rattle.ulfm_world.specs.Parts.{IsTakenOut, IsUnfit};
    ghost use Rattle.ulfm_world.specs.Room.{HasRoom, IsFull};

    /// The empty inbox.
    pub fn new(alloc: Global) -> Self
        ensures { result ≡ [] }
    {
        Inbox {
            items: VecDeque::new(alloc),
        }
    }

    /// The items with their senders.
    pub fn items(&self) -> &VecDeque<(WorldRank, Item)>
        ensures { result.now.items ≡ self.now }
    {
        &self.items
    }

    /// How many items there are.
    pub fn len(&self) -> usize
        ensures { result ≡ length self.now }
    {
        self.items.len()
    }

    /// Whether there is none.
    pub fn is_empty(&self) -> bool
        ensures { result ≡ (length self.now == 0) }
    {
        self.items.is_empty()
    }

    /// How many items of this sender there are.
    #[tactic(auto, using(crate::proofs::Senders::counted_from))]
    pub fn len_from(&self, s: u8) -> usize
        ensures { result ≡ length (items_from s self.now) }
    {
        self.items.iter().filter(|x| x.0.number == s).count()
    }

    /// Whether it has a place for one more item of this sender.
    pub fn has_room(&self, room: Room, s: u8) -> bool
        ensures { MatchBool result (HasRoom room s self.now) (IsFull room s self.now) }
    {
        match room {
            Room::PerInbox(places) => self.items.len() < places as usize,
            Room::PerPair(places) => self.len_from(s) < places as usize,
        }
    }

    /// Adds an item at the end, where there is a place for it. Else the item comes back.
    ///
    /// # Errors
    ///
    /// `InboxFull` where there is none, else `OutOfMemory` where the growth is refused; nothing is changed then.
    pub fn offer(
        &mut self,
        room: Room,
        source: WorldRank,
        item: Item,
    ) -> Result<(), (Refused, Item)>
        ensures room { OnOk result (HasRoom room source.number self.old) }
        ensures added { OnOk result (self.new ≡ self.old ++ (source, item) ∷ []) }
        ensures refused { IfErr result (λ back. IsUnfit self.old room source.number back.0) }
        ensures returned { IfErr result (λ back. back.1 ≡ item) }
        ensures unchanged { OnErr result (self.new ≡ self.old) }
    {
        if !self.has_room(room, source.number) {
            return Err((Refused::InboxFull, item));
        }
        if self.items.reserve(1).is_err() {
            return Err((Refused::OutOfMemory, item));
        }
        self.items.push_back_reserved((source, item));
        Ok(())
    }

    /// Takes the first item out, with its sender.
    pub fn take_first(&mut self) -> Option<(WorldRank, Item)>
        ensures first { MatchOption result (self.old ≡ []) (λ x. self.old ≡ x ∷ drop 1 self.old) }
        ensures rest { self.new ≡ drop 1 self.old }
    {
        self.items.pop_front()
    }

    /// Whether there is an item of this sender.
    pub fn has_from(&self, s: u8) -> bool
        ensures { MatchBool result (items_from s self.now ≢ []) (items_from s self.now ≡ []) }
    {
        self.place_of(s).is_some()
    }

    /// Takes the first item of this sender out, with its sender.
    pub fn take_first_from(&mut self, s: u8) -> Option<(WorldRank, Item)>
        ensures { MatchOption result ((items_from s self.old ≡ []) × (self.new ≡ self.old)) (λ x. IsTakenOut self.old s x self.new) }
    {
        let place = self.place_of(s)?;
        self.items.remove(place)
    }

    /// The place of the first item of this sender.
    fn place_of(&self, s: u8) -> Option<usize>
        ensures { result ≡ position (λ x. x.0.number == s) self.now }
    {
        self.items.iter().position(|x| x.0.number == s)
    }
}
