//! The receiver's end of the ring from one rank.
ghost use Rattle.std.specs.Prelude.{◌≡◌, ◌+◌, ◌<◌, ◌≤◌, ◌++◌, ◌∷◌, ◌↔◌, [], List, None, Some, length, map, slice_get, vec_len, vec_capacity, IsTrue};
ghost use mathlib.Core.List.{IsPrefix};
ghost use Rattle.rtrb.specs.Ring.{sent, known_free, IsPair};
ghost use Rattle.ulfm_base.specs.declared.item.Item.{Item as Sent};

use crate::carried::{Carried, sign};
use crate::head::Head;
use rtrb::{Consumer, Producer};
use ulfm_base::{Item, WorldRank};

/// The receiver's end of the ring from one rank.
#[derive(Drop)]
pub(crate) struct Inlet {
    source: WorldRank,
    ring: Consumer<Carried>,
    /// After a gathering: how many items it took.
    gathered: Option<usize>,
}

impl Inlet {
    ghost use Rattle.ulfm_base.specs.Items.{ComesFrom};
    ghost use Rattle.ulfm_carrier.specs.Carried.{item_from};
    ghost use Rattle.ulfm_carrier.specs.Head.{head_in, head_of};
    ghost use Rattle.ulfm_carrier.specs.Lanes.{inlet_name, outlet_name, inlet_capacity, taken_by, pushed_into, seen_in};
    ghost use Rattle.ulfm_carrier.specs.inside.Tagged.{with_sender};

    /// The end of this ring from a rank.
    pub(crate) fn new(source: WorldRank, ring: Consumer<Carried>) -> Inlet
        ensures source { result.source ≡ source }
        ensures ring { result.ring ≡ ring }
        ensures live { result.gathered ≡ None }
    {
        Inlet {
            source,
            ring,
            gathered: None,
        }
    }

    /// Whether an item is found. It stays in the ring.
    pub(crate) fn has_item(&mut self) -> bool
        ensures name { (inlet_name self.new ≡ inlet_name self.old) × (inlet_capacity self.new ≡ inlet_capacity self.old) }
        ensures same { (self.new.source ≡ self.old.source) × (self.new.gathered ≡ self.old.gathered) × (taken_by self.new ≡ taken_by self.old) }
        ensures stays { IsPrefix (seen_in self.old) (seen_in self.new) }
        ensures found { IsTrue result ↔ (0 < length (seen_in self.new)) }
    {
        !self.ring.is_empty()
    }

    /// Whether an item is found in a ring whose other end is this one: all that was pushed was taken, or is found.
    pub(crate) fn has_item_beside(&mut self, out: &mut Producer<Carried>) -> bool
        requires pair { IsPair out.old self.old.ring }
        requires live { self.old.gathered ≡ None }
        ensures name { (inlet_name self.new ≡ inlet_name self.old) × (inlet_capacity self.new ≡ inlet_capacity self.old) }
        ensures same { (self.new.source ≡ self.old.source) × (self.new.gathered ≡ None) × (taken_by self.new ≡ taken_by self.old) }
        ensures stays { IsPrefix (seen_in self.old) (seen_in self.new) }
        ensures out { (outlet_name out.new ≡ outlet_name out.old) × (sent out.new ≡ sent out.old) × (known_free out.old ≤ known_free out.new) }
        ensures found { IsTrue result ↔ (0 < length (seen_in self.new)) }
        ensures all { pushed_into self.old.source out.old ≡ taken_by self.old ++ map (item_from self.old.source) (seen_in self.new) }
    {
        self.ring.slots_beside(out) > 0
    }

    /// What is told of the item that was found. It stays in the ring.
    pub(crate) fn head(&self) -> Head
        requires { 0 < length (seen_in self.now) }
        ensures { slice_get (map head_in (seen_in self.now)) 0 ≡ Some result }
    {
        Head::of(&self.ring.peek_known().item)
    }

    /// Takes the item that was found.
    pub(crate) fn take(&mut self) -> Item
        requires live { self.old.gathered ≡ None }
        requires found { 0 < length (seen_in self.old) }
        ensures name { (inlet_name self.new ≡ inlet_name self.old) × (inlet_capacity self.new ≡ inlet_capacity self.old) }
        ensures same { (self.new.source ≡ self.old.source) × (self.new.gathered ≡ None) }
        ensures taken { ComesFrom self.old.source.number result × (taken_by self.new ≡ taken_by self.old ++ result ∷ []) }
        ensures first { map head_in (seen_in self.old) ≡ head_of result ∷ map head_in (seen_in self.new) }
    {
        let mut item = self.ring.pop_known().item;
        sign(&mut item, self.source);
        item
    }

    /// Takes all that is in the ring, whose other end is this one, and puts it behind what is left.
    pub(crate) fn drain(&mut self, out: &mut Producer<Carried>, left: &mut Vec<(WorldRank, Item)>)
        requires pair { IsPair out.old self.old.ring }
        requires live { self.old.gathered ≡ None }
        requires room { vec_len left.old + inlet_capacity self.old ≤ vec_capacity left.old }
        ensures name { (inlet_name self.new ≡ inlet_name self.old) × (inlet_capacity self.new ≡ inlet_capacity self.old) }
        ensures same { (self.new.source ≡ self.old.source) × (taken_by self.new ≡ taken_by self.old) }
        ensures out { (outlet_name out.new ≡ outlet_name out.old) × (sent out.new ≡ sent out.old) }
        ensures left { (rest : List Sent) × (pushed_into self.old.source out.old ≡ taken_by self.old ++ rest) × (left.new.items ≡ left.old.items ++ map (with_sender self.old.source) rest) }
        ensures room { (vec_capacity left.new ≡ vec_capacity left.old) × (vec_len left.new ≤ vec_len left.old + inlet_capacity self.old) }
    {
        let count = self.ring.slots_beside(out);
        for _ in 0..count {
            let carried = self.ring.pop_known();
            left.push_reserved((self.source, carried.from(self.source)));
        }
        self.gathered = Some(count);
    }
}
