//! Entries by number.
ghost use Rattle.std.specs.Prelude.{◌≡◌, [], nat_eq};
ghost use Rattle.indexmap.specs.IndexMap.{IsUnique};

use crate::buckets::Buckets;
use crate::near::Near;
use indexmap::IndexMap;
use std::alloc::Global;
use std::collections::VecDeque;

/// What is found by a number, where numbers that came in turn stand near one another.
pub(crate) type Numbered<X> = IndexMap<u64, X, Near>;

/// Entries by number. The last that came stand in a short list, which is searched from the front, and those that came before
/// them by number, with their numbers in buckets.
#[derive(Drop)]
pub(crate) struct Pool<X> {
    pub(crate) early: Numbered<X>,
    pub(crate) buckets: Buckets,
    pub(crate) recent: VecDeque<(u64, X)>,
    /// Whether an early entry may stand in a bucket of any source or of any tag. Where none does, an arrival looks in one bucket.
    pub(crate) wild: bool,
}

impl<X> Pool<X> {
    /// No entries.
    pub(crate) fn new(alloc: Global) -> Pool<X>
        ensures early { result.early.entries ≡ [] }
        ensures unique { IsUnique nat_eq result.early }
        ensures buckets { result.buckets.entries ≡ [] }
        ensures recent { result.recent.items ≡ [] }
    {
        Pool {
            early: IndexMap::with_hasher(alloc, Near),
            buckets: IndexMap::with_hasher(alloc, Near),
            recent: VecDeque::new(alloc),
            wild: false,
        }
    }
}
