//! Matching by two plain lists: what the matcher is compared with, by its answers and by its time.
//!
//! A [`Plain`] has the calls of a `Matcher`. It searches the receives that wait, and the letters that it keeps, from the front:
//!
//!     let (number, letter) = plain.post(pattern)?;
//!     let receive = plain.arrive(letter)?;
//!
//! `ulfm_tests` makes the same calls to both, and `ulfm_bench` takes the time of both. Nothing else stands on it, and it promises nothing.
ghost use Rattle.std.specs.Prelude.{◌<◌, length, IfSome};

use std::alloc::Global;
use ulfm_base::{Context, Letter, OutOfMemory, Pattern, Table, WorldRank};

/// The receives of one rank that wait, and the letters that it keeps, each in the order in which they came. Both lists are
/// searched from the front.
#[derive(Drop)]
pub struct Plain {
    waiting: Vec<(u64, Pattern)>,
    kept: Vec<Letter>,
    count: u64,
    cleared: Table<()>,
}

impl Plain {
    /// Lists before anything happened.
    pub fn new(alloc: Global) -> Plain {
        Plain {
            waiting: Vec::new(alloc),
            kept: Vec::new(alloc),
            count: 0,
            cleared: Table::new(alloc),
        }
    }

    /// How many posts and arrivals there were.
    pub fn count(&self) -> u64 {
        self.count
    }

    /// Whether `clear` was called with this context.
    pub fn is_cleared(&self, context: Context) -> bool {
        self.cleared.get(context).is_some()
    }

    /// Posts a receive. Answers its number, and the earliest kept letter that it admits; where there is none it waits.
    ///
    /// # Errors
    ///
    /// `OutOfMemory` where a growth was refused.
    pub fn post(&mut self, pattern: Pattern) -> Result<(u64, Option<Letter>), OutOfMemory> {
        self.waiting.reserve(1)?;
        let number = self.count;
        self.count = number.wrapping_add(1);
        match first_kept(self.kept.as_slice(), &pattern) {
            Some(k) => Ok((number, Some(self.kept.remove(k)))),
            None => {
                self.waiting.push_reserved((number, pattern));
                Ok((number, None))
            }
        }
    }

    /// Takes the earliest kept letter that the pattern admits. Where there is one, it counts as a post.
    pub fn probe(&mut self, pattern: &Pattern) -> Option<Letter> {
        let k = first_kept(self.kept.as_slice(), pattern)?;
        self.count = self.count.wrapping_add(1);
        Some(self.kept.remove(k))
    }

    /// Takes a letter that came. Answers the earliest waiting receive that admits it; where there is none it is kept.
    ///
    /// # Errors
    ///
    /// `OutOfMemory` where a growth was refused.
    pub fn arrive(&mut self, letter: Letter) -> Result<Option<u64>, OutOfMemory> {
        self.kept.reserve(1)?;
        self.count = self.count.wrapping_add(1);
        match first_waiting(self.waiting.as_slice(), &letter) {
            Some(k) => Ok(Some(self.waiting.remove(k).0)),
            None => {
                self.kept.push_reserved(letter);
                Ok(None)
            }
        }
    }

    /// Ends a receive. Answers whether it was waiting.
    pub fn withdraw(&mut self, number: u64) -> bool {
        let waited = self.is_waiting(number);
        self.waiting.retain(|entry| entry.0 != number);
        waited
    }

    /// Ends all waiting receives and drops all kept letters of a context.
    ///
    /// # Errors
    ///
    /// `OutOfMemory` where a growth was refused.
    pub fn clear(&mut self, context: Context) -> Result<(), OutOfMemory> {
        self.cleared.make_place()?;
        self.waiting
            .retain(|entry| entry.1.context.number != context.number);
        self.kept
            .retain(|letter| letter.envelope.context.number != context.number);
        self.cleared.put(context, ());
        Ok(())
    }

    /// Ends all waiting receives that name a rank as their source.
    pub fn end_named(&mut self, rank: WorldRank) {
        self.waiting.retain(|entry| !entry.1.source.names(rank));
    }

    /// Whether the receive of this number waits.
    pub fn is_waiting(&self, number: u64) -> bool {
        self.waiting.iter().any(|entry| entry.0 == number)
    }

    /// Whether a letter is kept that a receive with this pattern admits.
    pub fn keeps_match(&self, pattern: &Pattern) -> bool {
        first_kept(self.kept.as_slice(), pattern).is_some()
    }
}

/// Where the first kept letter stands that the pattern admits.
fn first_kept(kept: &[Letter], pattern: &Pattern) -> Option<usize>
    ensures { IfSome result (λ k. k < length kept.now) }
{
    kept.iter()
        .position(|letter| pattern.admits(&letter.envelope))
}

/// Where the first waiting receive stands that admits the letter.
fn first_waiting(waiting: &[(u64, Pattern)], letter: &Letter) -> Option<usize>
    ensures { IfSome result (λ k. k < length waiting.now) }
{
    waiting
        .iter()
        .position(|entry| entry.1.admits(&letter.envelope))
}
