//! Values that proofs alone know.
ghost use Rattle.std.specs.Prelude.{◌≡◌};

use crate::error::OutOfMemory;
use std::marker::Model;
use std::snapshot::Snapshot;

/// A value as proofs alone know it, or what was noted of it once more.
#[derive(Drop)]
pub(crate) enum Note<T> {
    /// The value.
    Of(Snapshot<T>),
    /// What that note says.
    Again(Snapshot<Note<T>>),
}

/// A value that contracts see, and nothing is kept of it when it runs.
#[derive(Drop)]
pub struct Noted<T> {
    note: Note<T>,
}

impl<T> Model for Noted<T> {
    ghost use Rattle.ulfm_base.specs.inside.Note.{value_of};

    ghost Value = { T };

    ghost view = { λ n. value_of n.note };
}

impl<T> Noted<T> {
    /// What is noted of a value. It never answers out of memory.
    pub fn of(value: &T) -> Noted<T>
        ensures { result ≡ value.now }
    {
        Noted {
            note: Note::Of(Snapshot::of(value)),
        }
    }
}

impl<T> Clone for Noted<T> {
    ghost is_clone = { λ x y. y ≡ x };

    fn clone(&self) -> Result<Noted<T>, OutOfMemory> {
        Ok(Noted {
            note: Note::Again(Snapshot::of(&self.note)),
        })
    }
}
