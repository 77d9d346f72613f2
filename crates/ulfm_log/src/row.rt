//! Entries of a log that tell of shrinks and agreements, as a rank keeps them.
ghost use Rattle.std.specs.Prelude.{◌≡◌};
ghost use Rattle.ulfm_log.specs.inside.Rows.{entry_of_row, IsOfItsTopic};

use crate::entry::Entry;
use std::marker::Model;
use ulfm_base::{Decision, Entrance, Item, Noted, OutOfMemory, Topic, WorldRank};

/// Such an entry by its kind.
#[derive(Drop)]
pub(crate) enum RowKind {
    /// The rank entered a topic.
    Entered(Entrance),
    /// It adopted a decision on a topic, of which proofs alone know the rest.
    Adopted(Topic, Noted<Decision>),
    /// It took another rank's entrance.
    Heard(WorldRank, Entrance),
}

/// Such an entry, without what was decided. Contracts see the whole entry.
#[derive(Drop)]
pub struct Row {
    kind: RowKind,
}

const _: () = prove!(size_of::<Row>() <= 64);

impl Model for Row {
    ghost use Rattle.ulfm_log.specs.declared.entry.Entry.{Entry as Happened};
    ghost use Rattle.ulfm_log.specs.inside.Rows.{entry_of_row, IsOfItsTopic};

    ghost Value = { Happened };

    ghost view = { λ r. entry_of_row r.kind };

    ghost invariant = { λ r. IsOfItsTopic r.kind };
}

impl Clone for Row {
    ghost is_clone = { λ x y. y ≡ x };

    fn clone(&self) -> Result<Row, OutOfMemory> {
        let kind = match &self.kind {
            RowKind::Entered(entrance) => RowKind::Entered(*entrance),
            RowKind::Adopted(topic, decision) => RowKind::Adopted(*topic, decision.clone()?),
            RowKind::Heard(source, entrance) => RowKind::Heard(*source, *entrance),
        };
        Ok(Row { kind })
    }
}

impl Row {
    /// That the rank entered a topic.
    pub fn entered(entrance: Entrance) -> Row
        ensures { result ≡ Entry.Entered entrance }
    {
        Row {
            kind: RowKind::Entered(entrance),
        }
    }

    /// That it adopted a decision. It never answers out of memory.
    pub fn adopted(decision: &Decision) -> Row
        ensures { result ≡ Entry.Adopted decision.now }
    {
        Row {
            kind: RowKind::Adopted(decision.topic, Noted::of(decision)),
        }
    }

    /// That it took another rank's entrance.
    pub(crate) fn heard(source: WorldRank, entrance: Entrance) -> Row
        ensures { result ≡ Entry.Took source (Item.Enter entrance) }
    {
        Row {
            kind: RowKind::Heard(source, entrance),
        }
    }

    /// Its kind.
    pub(crate) fn kind(&self) -> &RowKind
        ensures entry { self.now ≡ entry_of_row result.now }
        ensures topic { IsOfItsTopic result.now }
    {
        &self.kind
    }
}
