//! The first ten of what was found.
ghost use Rattle.std.specs.Prelude.{◌≡◌, ◌++◌, ◌∷◌, ◌<◌, ◌≤◌, ◌↔◌, [], length, IsTrue, OnOk, OnErr, vec_len};

use std::alloc::{AllocError, Global};
use std::marker::Model;

/// How many are kept.
const MOST: usize = 10;

/// The first ten of what was told, in its order. Contracts see the list of them.
#[derive(Drop)]
pub struct FirstTen<T: Drop> {
    found: Vec<T>,
}

impl<T: Drop> Model for FirstTen<T> {
    ghost use Rattle.std.specs.Prelude.{List, ◌≤◌, length};

    ghost Value = { List T };

    ghost view = { λ f. f.found.items };

    ghost invariant = { λ f. length f.found.items ≤ 10 };
}

impl<T: Drop> FirstTen<T> {
    /// Nothing was told yet. It never answers out of memory.
    pub fn new(alloc: Global) -> FirstTen<T>
        ensures { result ≡ [] }
    {
        FirstTen {
            found: Vec::new(alloc),
        }
    }

    /// Whether ten are kept, so that nothing that is told from now on is.
    pub fn is_full(&self) -> bool
        ensures { IsTrue result ↔ (length self.now ≡ 10) }
    {
        self.found.len() == MOST
    }

    /// Keeps what was found, behind the others, if there aren't ten yet.
    ///
    /// # Errors
    ///
    /// `AllocError` where a growth was refused. Then nothing changed.
    pub fn tell(&mut self, it: T) -> Result<(), AllocError>
        ensures kept { OnOk result (length self.old < 10 → self.new ≡ self.old ++ it ∷ []) }
        ensures full { length self.old ≡ 10 → self.new ≡ self.old }
        ensures unchanged { OnErr result (self.new ≡ self.old) }
    {
        if self.found.len() >= MOST {
            return Ok(());
        }
        self.found.push(it)?;
        Ok(())
    }

    /// What was kept, as a list.
    pub fn into_vec(self) -> Vec<T>
        ensures items { result.items ≡ self }
        ensures few { vec_len result ≤ 10 }
    {
        self.found
    }
}
