//! Values by context.
//!
//! A table has an entry for each context that has a value, by rising contexts, so that one content stands in one way. There are few at a time, and
//! most ranks have none.
ghost use Rattle.std.specs.Prelude.{◌≡◌, ◌==◌, ◌≤◌, ℕ, [], Some, if◌then◌else◌, IsTrue, IfOk, OnOk, OnErr, false, length};
ghost use Rattle.ulfm_base.specs.Table.{value_of, put_at, places_below};

use crate::context::Context;
use crate::error::OutOfMemory;
use std::alloc::Global;
use std::marker::Model;

/// Values by context. Contracts see the number of each context that has one, with its value, by rising numbers, and whether there is
/// room for one more.
#[derive(Drop)]
pub struct Table<V> {
    entries: Vec<(u64, V)>,
}

impl<V> Model for Table<V> {
    ghost use Rattle.std.specs.Prelude.{nat_lt, vec_len, vec_capacity};
    ghost use Rattle.ulfm_base.specs.Table.{TableView};
    ghost use Rattle.ulfm_base.specs.Lists.{IsAscending};

    ghost Value = { TableView V };

    ghost view = { λ t. record { entries = t.entries.items; room = nat_lt (vec_len t.entries) (vec_capacity t.entries) } };

    ghost invariant = { λ t. IsAscending t.entries.items };
}

impl<V: Copy> Table<V> {
    /// No context has a value. It never answers out of memory.
    pub fn new(alloc: Global) -> Table<V>
        ensures { result.entries ≡ [] }
    {
        Table {
            entries: Vec::new(alloc),
        }
    }

    /// The same values. There may be less room for more.
    ///
    /// # Errors
    ///
    /// `OutOfMemory` where a growth was refused.
    pub fn copy(&self) -> Result<Table<V>, OutOfMemory>
        ensures { IfOk result (λ copy. copy.entries ≡ self.now.entries) }
    {
        let mut entries = Vec::new(*self.entries.allocator());
        entries.extend_from_slice(self.entries.as_slice())?;
        Ok(Table { entries })
    }

    /// Makes room for one more.
    ///
    /// # Errors
    ///
    /// `OutOfMemory` where there was no such room and a growth was refused. Then nothing changed.
    pub fn make_place(&mut self) -> Result<(), OutOfMemory>
        ensures entries { self.new.entries ≡ self.old.entries }
        ensures room { OnOk result (IsTrue self.new.room) }
        ensures room_lacked { OnErr result (self.old.room ≡ false) }
        ensures unchanged_at_error { OnErr result (self.new ≡ self.old) }
        ensures stays { IsTrue self.old.room → IsTrue self.new.room }
    {
        self.entries.reserve(1)
    }

    /// Whether there is room for one more.
    pub fn has_place(&self) -> bool
        ensures { result ≡ self.now.room }
    {
        self.entries.len() < self.entries.capacity()
    }

    /// The number of each context that has a value, with it, by rising numbers.
    pub fn entries(&self) -> &[(u64, V)]
        ensures { result.now ≡ self.now.entries }
    {
        self.entries.as_slice()
    }

    /// The value of a context, where it has one.
    pub fn get(&self, context: Context) -> Option<V>
        ensures { result ≡ value_of context.number self.now.entries }
    {
        let number = context.number;
        for (at, value) in &self.entries {
            if *at == number {
                return Some(*value);
            }
        }
        None
    }

    /// Gives a context a value, in place of the one that it has. The room may be used up.
    pub fn put(&mut self, context: Context, value: V)
        requires { IsTrue self.old.room }
        ensures entries { self.new.entries ≡ put_at context.number value self.old.entries }
        ensures values { (c : ℕ) → value_of c self.new.entries ≡ (if context.number == c then Some value else value_of c self.old.entries) }
    {
        let number = context.number;
        let place = self.place_of(number);
        if place < self.entries.len() && self.entries[place].0 == number {
            self.entries[place] = (number, value);
            return;
        }
        match self.entries.insert(place, (number, value)) {
            Ok(()) => {}
            Err(_) => unreachable!(),
        }
    }

    /// How many contexts below the one of this number have a value.
    fn place_of(&self, number: u64) -> usize
        ensures place { result ≡ places_below number self.now.entries }
        ensures within { result ≤ length self.now.entries }
    {
        for k in 0..self.entries.len() {
            if number <= self.entries[k].0 {
                return k;
            }
        }
        self.entries.len()
    }
}
