//! What happened, as proofs alone know it.
ghost use Rattle.std.specs.Prelude.{◌≡◌, [], ◌∷◌, ◌++◌};

use crate::entry::Entry;
use std::marker::Model;
use std::snapshot::Snapshot;
use ulfm_base::OutOfMemory;

/// What happened, link by link. No link keeps what happened, or those before it: contracts alone see them.
#[derive(Drop)]
pub(crate) enum Chain {
    /// Nothing happened.
    Nothing,
    /// That, and then this.
    Then(Snapshot<Chain>, Snapshot<Entry>),
    /// That, told once more.
    Again(Snapshot<Chain>),
}

/// What happened, in order. It takes no memory. Contracts see the list.
#[derive(Drop)]
pub(crate) struct History {
    chain: Chain,
}

impl Model for History {
    ghost use Rattle.std.specs.Prelude.{List};
    ghost use Rattle.ulfm_log.specs.declared.entry.Entry.{Entry as Happened};
    ghost use Rattle.ulfm_log.specs.inside.Chain.{items_of};

    ghost Value = { List Happened };

    ghost view = { λ h. items_of h.chain };
}

impl History {
    /// Nothing happened.
    pub(crate) fn new() -> History
        ensures { result ≡ [] }
    {
        History {
            chain: Chain::Nothing,
        }
    }

    /// This happened too.
    pub(crate) fn push(&mut self, entry: &Entry)
        ensures { self.new ≡ self.old ++ entry.now ∷ [] }
    {
        let before = Snapshot::of(&self.chain);
        self.chain = Chain::Then(before, Snapshot::of(entry));
    }
}

impl Clone for History {
    ghost is_clone = { λ x y. y ≡ x };

    fn clone(&self) -> Result<History, OutOfMemory> {
        Ok(History {
            chain: Chain::Again(Snapshot::of(&self.chain)),
        })
    }
}
