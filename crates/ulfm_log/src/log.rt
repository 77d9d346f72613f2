//! A log that is kept, or of which proofs alone know.
//!
//! The ranks of jobs keep theirs, since reports show it. Nothing that a rank answers is read off a kept log: each answer comes from a table that
//! follows the log by the rank's invariant.
ghost use Rattle.std.specs.Prelude.{◌≡◌, ◌+◌, ◌≤◌, ◌<◌, ◌^◌, [], ◌∷◌, ◌++◌, length, IsTrue, IfOk, OnOk, OnErr, vec_capacity};

use crate::entry::Entry;
use crate::history::History;
use std::alloc::{AllocError, Global};
use std::marker::Model;
use ulfm_base::OutOfMemory;

/// The entries, in order. Contracts see them in either case, with how many there is room for, and whether they are kept.
#[derive(Drop)]
pub struct Log {
    alloc: Global,
    kept: Option<Vec<Entry>>,
    len: usize,
    history: History,
}

impl Model for Log {
    ghost use Rattle.ulfm_log.specs.KeptLog.{LogView, log_view, IsLog};

    ghost Value = { LogView };

    ghost view = { λ l. log_view l.kept l.history };

    ghost invariant = { λ l. IsLog l.kept l.len l.history };
}

impl Log {
    /// An empty log, which is kept or isn't.
    pub fn new(alloc: Global, keeps: bool) -> Log
        ensures items { result.items ≡ [] }
        ensures len { length result.items ≡ 0 }
        ensures keeps { result.keeps ≡ keeps }
        ensures countable { result.capacity < 2 ^ 63 }
    {
        let kept = if keeps { Some(Vec::new(alloc)) } else { None };
        Log {
            alloc,
            kept,
            len: 0,
            history: History::new(),
        }
    }

    /// The same log once more, with room for so many entries more.
    ///
    /// # Errors
    ///
    /// `OutOfMemory` where a growth was refused, or there are too many entries to count.
    pub fn copy(&self, more: usize) -> Result<Log, OutOfMemory>
        ensures items { IfOk result (λ log. log.items ≡ self.now.items) }
        ensures keeps { IfOk result (λ log. log.keeps ≡ self.now.keeps) }
        ensures capacity { IfOk result (λ log. length self.now.items + more ≤ log.capacity) }
        ensures countable { IfOk result (λ log. log.capacity < 2 ^ 63) }
    {
        let kept = match &self.kept {
            Some(entries) => Some(copy_entries(self.alloc, entries, more)?),
            None => {
                if more > COUNTABLE - self.len {
                    return Err(AllocError);
                }
                None
            }
        };
        Ok(Log {
            alloc: self.alloc,
            kept,
            len: self.len,
            history: self.history.clone()?,
        })
    }

    /// What memory comes from.
    pub fn allocator(&self) -> &Global {
        &self.alloc
    }

    /// How many entries there are.
    pub fn len(&self) -> usize
        ensures { result ≡ length self.now.items }
    {
        self.len
    }

    /// The entries, of a log that is kept.
    pub fn entries(&self) -> &[Entry]
        requires { IsTrue self.now.keeps }
        ensures { result.now ≡ self.now.items }
    {
        self.kept.as_ref().unwrap()
    }

    /// Makes room for so many entries more.
    ///
    /// # Errors
    ///
    /// `OutOfMemory` where a growth was refused, or there are too many entries to count.
    pub fn reserve(&mut self, more: usize) -> Result<(), OutOfMemory>
        ensures items { self.new.items ≡ self.old.items }
        ensures len { length self.new.items ≡ length self.old.items }
        ensures keeps { self.new.keeps ≡ self.old.keeps }
        ensures ok { OnOk result (length self.new.items + more ≤ self.new.capacity) }
        ensures capacity { self.old.capacity ≤ self.new.capacity }
        ensures full { OnErr result (self.old.capacity < length self.old.items + more) }
        ensures countable { self.new.capacity < 2 ^ 63 }
    {
        match &mut self.kept {
            Some(entries) => entries.reserve(more),
            None => {
                if more > COUNTABLE - self.len {
                    return Err(AllocError);
                }
                Ok(())
            }
        }
    }

    /// How many entries there is room for.
    pub fn capacity(&self) -> usize
        ensures { result ≡ self.now.capacity }
    {
        match &self.kept {
            Some(entries) => entries.capacity(),
            None => COUNTABLE,
        }
    }

    /// One entry more.
    // In its caller's code: where the log isn't kept, the entry then needn't be built.
    #[inline(always)]
    pub fn push_reserved(&mut self, entry: Entry)
        requires { length self.old.items < self.old.capacity }
        ensures items { self.new.items ≡ self.old.items ++ entry ∷ [] }
        ensures len { length self.new.items ≡ length self.old.items + 1 }
        ensures keeps { self.new.keeps ≡ self.old.keeps }
        ensures capacity { self.new.capacity ≡ self.old.capacity }
    {
        self.len += 1;
        self.history.push(&entry);
        if let Some(entries) = &mut self.kept {
            entries.push_reserved(entry);
        }
    }
}

/// The same entries once more, with room for so many more.
fn copy_entries(alloc: Global, entries: &Vec<Entry>, more: usize) -> Result<Vec<Entry>, OutOfMemory>
    ensures items { IfOk result (λ copy. copy.items ≡ entries.now.items) }
    ensures room { IfOk result (λ copy. length entries.now.items + more ≤ vec_capacity copy) }
    ensures countable { IfOk result (λ copy. vec_capacity copy < 2 ^ 63) }
{
    let mut copy = Vec::new(alloc);
    let Some(places) = entries.len().checked_add(more) else {
        return Err(AllocError);
    };
    copy.reserve(places)?;
    copy.extend_with_clones(entries.as_slice())?;
    Ok(copy)
}

/// How many entries a log counts that isn't kept.
const COUNTABLE: usize = 0x7fff_ffff_ffff_ffff;
