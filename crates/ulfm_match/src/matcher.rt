//! The receives that wait and the letters that are kept.
//!
//! The last that came, at most 128, stand in a short list, which is searched from its front: among so few that is as fast as anything. Those before
//! them stand by number in a map, and their numbers in queues: one for each context, source or any, and tag or any. A message is in two queues, those
//! of its source by its tag and by any; a receive is in one. A receive that is posted looks at the queue of its source, or of each source where it
//! leaves that open. A message that comes looks at one queue, or at four where a receive leaves its source or its tag open. So a search doesn't grow
//! with what is kept.
//!
//! A cleared context is a mark. To post a receive of it, or to hand on a message of it, is the caller's fault, who can ask `is_cleared`: the rank
//! clears at the first revocation, and proves that it never does so.
//!
//! Its contract is a relation. `post` and `arrive` were tried as functions over two lists, and took as many lines in all.
ghost use Rattle.std.specs.Prelude.{◌≡◌, ◌≢◌, ◌+◌, ◌<◌, ◌^◌, ◌↔◌, ℕ, [], IsTrue, Contains, OnOk, OnErr, IfNone, IfOk, IfSome, MatchOption, false, Some};
ghost use Rattle.ulfm_base.specs.Pattern.{Admits, names};
ghost use Rattle.ulfm_match.specs.Arrived.{answered, HandsOn};
ghost use Rattle.ulfm_match.specs.Calls.{TracksPost, TracksProbe, TracksArrival, TracksEnd, TracksClear, TracksNamed};
ghost use Rattle.ulfm_match.specs.State.{is_cleared, unprepared, Tracks, Keeps, Matching};

use crate::arrived::Arrived;
use crate::copying::copy_pool;
use crate::pool::Pool;
use crate::removal::{clear_letters, clear_receives, end_receives};
use crate::settling::{add, prepare_letter, prepare_receive};
use crate::taking::{
    earliest_letter, end_numbered, has_letter, is_there, numbered, take_letter, take_receive,
};
use std::alloc::Global;
use std::marker::Model;
use ulfm_base::{Context, Letter, OutOfMemory, Pattern, RequestId, Table, WorldRank};

/// The receives of one rank that wait, and the letters that it keeps, each by number: the last few in a list, the others in
/// buckets by what they are searched for. Contracts see both as lists in order of their numbers, how many posts and arrivals
/// there were, which contexts were cleared, and whether there is room for one more post, one more arrival and one more clear.
#[derive(Drop)]
pub struct Matcher {
    alloc: Global,
    waiting: Pool<Pattern>,
    kept: Pool<Letter>,
    ready: bool,
    count: u64,
    cleared: Table<()>,
}

impl Model for Matcher {
    ghost use Rattle.std.specs.Prelude.{◌&&◌};
    ghost use Rattle.ulfm_match.specs.State.{Matching};
    ghost use Rattle.ulfm_match.specs.inside.Pools.{all_of, IsWhole};

    ghost Value = { Matching };

    ghost view = { λ m. record {
      waiting = all_of m.waiting;
      kept = all_of m.kept;
      count = m.count;
      cleared = m.cleared.entries;
      prepared = m.ready && m.cleared.room;
    } };

    ghost invariant = { λ m. IsWhole m.waiting m.kept m.count m.ready };
}

impl Matcher {
    /// A matcher before anything happened: nothing waits, nothing is kept. It never answers out of memory.
    pub fn new(alloc: Global) -> Self
        ensures { Tracks [] [] result }
    {
        Matcher {
            alloc,
            waiting: Pool::new(alloc),
            kept: Pool::new(alloc),
            ready: false,
            count: 0,
            cleared: Table::new(alloc),
        }
    }

    /// The same matcher once more, for which `prepare` makes room anew.
    ///
    /// # Errors
    ///
    /// `OutOfMemory` where a growth was refused.
    pub fn copy(&self) -> Result<Matcher, OutOfMemory>
        ensures { IfOk result (λ copy. copy ≡ unprepared self.now) }
    {
        Ok(Matcher {
            alloc: self.alloc,
            waiting: copy_pool(&self.waiting)?,
            kept: copy_pool(&self.kept)?,
            ready: false,
            count: self.count,
            cleared: self.cleared.copy()?,
        })
    }

    /// Makes room for one post, one arrival and one clear.
    ///
    /// # Errors
    ///
    /// `OutOfMemory` where there was no such room and a growth was refused. Then nothing changed.
    pub fn prepare(&mut self) -> Result<(), OutOfMemory>
        ensures prepared { OnOk result (IsTrue self.new.prepared) }
        ensures room_lacked { OnErr result (self.old.prepared ≡ false) }
        ensures unchanged_at_error { OnErr result (self.new ≡ self.old) }
        ensures waiting { self.new.waiting ≡ self.old.waiting }
        ensures kept { self.new.kept ≡ self.old.kept }
        ensures count { self.new.count ≡ self.old.count }
        ensures cleared { self.new.cleared ≡ self.old.cleared }
        ensures stays_prepared { IsTrue self.old.prepared → IsTrue self.new.prepared }
    {
        self.cleared.make_place()?;
        if self.ready {
            return Ok(());
        }
        prepare_receive(&mut self.waiting, self.alloc)?;
        prepare_letter(&mut self.kept, self.alloc)?;
        self.ready = true;
        Ok(())
    }

    /// Whether there is room for one post, one arrival and one clear.
    pub fn is_prepared(&self) -> bool
        ensures { result ≡ self.now.prepared }
    {
        self.ready && self.cleared.has_place()
    }

    /// How many posts and arrivals there were.
    pub fn count(&self) -> u64
        ensures { result ≡ self.now.count }
    {
        self.count
    }

    /// Whether `clear` was called with this context. Then nothing more of it may be posted or come.
    pub fn is_cleared(&self, context: Context) -> bool
        ensures { result ≡ is_cleared self.now context.number }
    {
        self.cleared.get(context).is_some()
    }

    /// Posts a receive (MPI 4.0, 3.7.2). It gets the earliest kept letter that it admits; where there is none it waits.
    /// Answers its number, and the letter. The room that `prepare` made may be used up.
    ///
    /// It is the caller's fault to post a receive of a context that was cleared; `is_cleared` says which those are.
    #[inline(always)]
    pub fn post(&mut self, pattern: Pattern) -> (RequestId, Option<Letter>)
        requires prepared { IsTrue self.old.prepared }
        requires countable { self.old.count + 1 < 2 ^ 64 }
        requires open { is_cleared self.old pattern.context.number ≡ false }
        ensures number { result.0.number ≡ self.old.count }
        ensures count { self.new.count ≡ self.old.count + 1 }
        ensures cleared { self.new.cleared ≡ self.old.cleared }
        ensures tracks { TracksPost pattern self.old result.1 self.new }
    {
        let number = self.count;
        self.count += 1;
        // A reference to the pattern itself would keep it out of registers, and a move of it would wait for its parts.
        let asked = pattern;
        match take_letter(&mut self.kept, &asked) {
            Some(letter) => (RequestId { number }, Some(letter)),
            None => {
                let ready = add(&mut self.waiting, number, pattern);
                self.ready = ready;
                (RequestId { number }, None)
            }
        }
    }

    /// Takes the earliest kept letter that the pattern admits, as a receive that is posted now and ends at once
    /// (MPI 4.0, 3.8.2). `None` where there is none: then nothing changes. It never answers out of memory, and no room is
    /// used up.
    ///
    /// It is the caller's fault to name a context that was cleared; `is_cleared` says which those are.
    pub fn probe(&mut self, pattern: &Pattern) -> Option<Letter>
        requires countable { self.old.count + 1 < 2 ^ 64 }
        requires open { is_cleared self.old pattern.now.context.number ≡ false }
        ensures idle { IfNone result (self.new ≡ self.old) }
        ensures count { IfSome result (λ letter. self.new.count ≡ self.old.count + 1) }
        ensures waiting { self.new.waiting ≡ self.old.waiting }
        ensures cleared { self.new.cleared ≡ self.old.cleared }
        ensures prepared { self.new.prepared ≡ self.old.prepared }
        ensures tracks { TracksProbe pattern.now self.old result self.new }
    {
        let letter = take_letter(&mut self.kept, pattern)?;
        self.count += 1;
        Some(letter)
    }

    /// Takes a letter that came. The earliest waiting receive that admits it gets it; where there is none it is kept.
    /// The room that `prepare` made may be used up.
    ///
    /// It is the caller's fault to hand on a letter of a context that was cleared; `is_cleared` says which those are.
    #[inline(always)]
    pub fn arrive(&mut self, letter: Letter) -> Arrived
        requires prepared { IsTrue self.old.prepared }
        requires countable { self.old.count + 1 < 2 ^ 64 }
        requires open { is_cleared self.old letter.envelope.context.number ≡ false }
        ensures letter { HandsOn result letter }
        ensures count { self.new.count ≡ self.old.count + 1 }
        ensures cleared { self.new.cleared ≡ self.old.cleared }
        ensures tracks { TracksArrival letter self.old (answered result) self.new }
    {
        let number = self.count;
        self.count += 1;
        // As in `post`: no reference to the letter itself.
        let envelope = letter.envelope;
        match take_receive(&mut self.waiting, &envelope) {
            Some(request) => Arrived::Paired(RequestId { number: request }, letter),
            None => {
                let ready = add(&mut self.kept, number, letter);
                self.ready = ready;
                Arrived::Kept
            }
        }
    }

    /// Ends a receive. Answers whether it was waiting; where it wasn't, nothing changes.
    pub fn withdraw(&mut self, id: RequestId) -> bool
        ensures waited { IsTrue result ↔ ((pattern : Pattern) × Contains self.old.waiting (id.number, pattern)) }
        ensures idle { result ≡ false → self.new ≡ self.old }
        ensures kept { self.new.kept ≡ self.old.kept }
        ensures count { self.new.count ≡ self.old.count }
        ensures cleared { self.new.cleared ≡ self.old.cleared }
        ensures prepared { self.new.prepared ≡ self.old.prepared }
        ensures tracks { TracksEnd id.number self.old self.new }
    {
        if !is_there(&self.waiting, id.number) {
            return false;
        }
        end_numbered(&mut self.waiting, id.number);
        true
    }

    /// Ends all waiting receives and drops all kept letters of a context, as a revocation does. From now on nothing of
    /// it may be posted or come. The room that `prepare` made may be used up.
    pub fn clear(&mut self, context: Context)
        requires prepared { IsTrue self.old.prepared }
        ensures others_wait { Keeps (λ (y : ℕ × Pattern). y.1.context.number ≢ context.number) self.old.waiting self.new.waiting }
        ensures others_are_kept { Keeps (λ (y : ℕ × Letter). y.1.envelope.context.number ≢ context.number) self.old.kept self.new.kept }
        ensures count { self.new.count ≡ self.old.count }
        ensures cleared { IsTrue (is_cleared self.new context.number) }
        ensures others_stay { (c : ℕ) → c ≢ context.number → is_cleared self.new c ≡ is_cleared self.old c }
        ensures tracks { TracksClear context.number self.old self.new }
    {
        clear_receives(&mut self.waiting, context);
        clear_letters(&mut self.kept, context);
        self.cleared.put(context, ());
    }

    /// Ends all waiting receives that name a rank as their source, as its failure does. Those that leave the source
    /// open go on waiting, and no letter is dropped.
    pub fn end_named(&mut self, rank: WorldRank)
        ensures others_wait { Keeps (λ (y : ℕ × Pattern). names y.1.source rank.number ≡ false) self.old.waiting self.new.waiting }
        ensures kept { self.new.kept ≡ self.old.kept }
        ensures count { self.new.count ≡ self.old.count }
        ensures cleared { self.new.cleared ≡ self.old.cleared }
        ensures prepared { IsTrue self.old.prepared → IsTrue self.new.prepared }
        ensures tracks { TracksNamed rank.number self.old self.new }
    {
        end_receives(&mut self.waiting, rank);
    }

    /// Whether the receive of this number waits: it was posted, has no letter, and didn't end.
    pub fn is_waiting(&self, id: RequestId) -> bool
        ensures { IsTrue result ↔ ((pattern : Pattern) × Contains self.now.waiting (id.number, pattern)) }
    {
        is_there(&self.waiting, id.number)
    }

    /// The kept letter of this number, if one is kept.
    pub fn letter(&self, number: u64) -> Option<&Letter>
        ensures { MatchOption result ((letter : Letter) → Contains self.now.kept (number, letter) → ⊥) (λ letter. Contains self.now.kept (number, letter.now)) }
    {
        numbered(&self.kept, number)
    }

    /// The earliest kept letter that the pattern admits, which `probe` would take (MPI 4.0, 3.8.1). It stays there.
    ///
    /// It is the caller's fault to name a context that was cleared; `is_cleared` says which those are.
    pub fn earliest(&self, pattern: &Pattern) -> Option<&Letter>
        requires open { is_cleared self.now pattern.now.context.number ≡ false }
        ensures { MatchOption result ((entry : ℕ × Letter) → Contains self.now.kept entry → Admits pattern.now entry.1.envelope → ⊥) (λ letter. (new : Matching) × TracksProbe pattern.now self.now (Some letter.now) new) }
    {
        earliest_letter(&self.kept, pattern)
    }

    /// Whether a letter is kept that a receive with this pattern admits.
    pub fn keeps_match(&self, pattern: &Pattern) -> bool
        ensures { IsTrue result ↔ ((entry : ℕ × Letter) × Contains self.now.kept entry × Admits pattern.now entry.1.envelope) }
    {
        has_letter(&self.kept, pattern)
    }
}
