//! What every carrier has to do for the ranks.
ghost use Rattle.std.specs.Prelude.{◌≡◌, ◌≢◌, ◌<◌, ℕ, List, [], ◌∷◌, ◌++◌, map, MatchResult, MatchOption};
ghost use Rattle.ulfm_base.specs.declared.item.Item.{Item as Sent};
ghost use Rattle.ulfm_carrier.specs.Family.{Keeps, IsGathered};
ghost use Rattle.ulfm_base.specs.Items.{ComesFrom};
ghost use Rattle.ulfm_base.specs.Lists.{at};

use crate::residue::Residue;
use std::sync::Wait;
use ulfm_base::{Item, WorldRank};

/// One rank's end of a carrier. The rank's thread owns it.
pub trait Ends: Drop {
    /// What tells an end from all others. No value of it is made.
    type Name;

    /// The end's name, which no call changes.
    ghost name: { Self → Self.Name };

    /// These are the names of all ends that one constructor call made, by their places.
    ghost one_call: { List Self.Name → Type 0 };

    /// The number of the end's rank.
    ghost place: { Self → ℕ };

    /// How many ends were made with this one, itself too.
    ghost count: { Self → ℕ };

    /// What was pushed to the rank of this number, in order.
    ghost pushed: { Self → ℕ → List Sent };

    /// What was taken from the rank of this number, in order.
    ghost taken: { Self → ℕ → List Sent };

    /// It wasn't gathered yet.
    ghost ready: { Self → Type 0 };

    /// The end's rank.
    fn me(&self) -> WorldRank
        ensures { result.number ≡ place self.now };

    /// Pushes an item to the inbox of a rank.
    ///
    /// # Errors
    ///
    /// The item itself. Where that may be each carrier says.
    fn push<R: Wait>(&mut self, rt: &R, dest: u8, item: Item) -> Result<(), Item>
        requires ready { ready self.old }
        requires dest { dest < count self.old }
        requires item { ComesFrom (place self.old) item }
        ensures name { (name self.new ≡ name self.old) × (place self.new ≡ place self.old) × (count self.new ≡ count self.old) × ready self.new }
        ensures taken { (p : ℕ) → taken self.new p ≡ taken self.old p }
        ensures others { (p : ℕ) → p ≢ dest → pushed self.new p ≡ pushed self.old p }
        ensures pushed { MatchResult result (λ _. pushed self.new dest ≡ pushed self.old dest ++ item ∷ []) (λ back. (back ≡ item) × (pushed self.new dest ≡ pushed self.old dest)) };

    /// Takes the next item out of the rank's own inbox, with its sender, if one is found.
    fn pop<R: Wait>(&mut self, rt: &R) -> Option<(WorldRank, Item)>
        requires ready { ready self.old }
        ensures name { (name self.new ≡ name self.old) × (place self.new ≡ place self.old) × (count self.new ≡ count self.old) × ready self.new }
        ensures pushed { (p : ℕ) → pushed self.new p ≡ pushed self.old p }
        ensures sender { MatchOption result (Unit {0}) (λ found. (found.0.number < count self.old) × ComesFrom found.0.number found.1) }
        ensures taken { MatchOption result ((p : ℕ) → taken self.new p ≡ taken self.old p)
            (λ found. (taken self.new found.0.number ≡ taken self.old found.0.number ++ found.1 ∷ []) × ((p : ℕ) → p ≢ found.0.number → taken self.new p ≡ taken self.old p)) };

    /// Empties the inboxes, once all ends of one constructor call are in one hand, by their places. The ends come back
    /// as they were, but for use.
    fn gather<R: Wait>(rt: &R, ends: Vec<Self>) -> (Residue, Vec<Self>)
        requires family { one_call (map name ends.items) }
        requires ready { (k : ℕ) (e : Self) → at ends.items k e → ready e }
        ensures same { Keeps name pushed taken ends.items result.1.items }
        ensures residue { IsGathered pushed taken ends.items result.0.inboxes.items };
}
