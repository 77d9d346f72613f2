//! Entries by number once more.
ghost use Rattle.std.specs.Prelude.{◌≡◌, ℕ, IfOk};
ghost use Rattle.ulfm_match.specs.inside.Buckets.{numbers_at};
ghost use Rattle.ulfm_match.specs.inside.Pools.{IsSamePool};

use crate::buckets::Buckets;
use crate::pool::{Numbered, Pool};
use std::collections::VecDeque;
use ulfm_base::OutOfMemory;

/// Buckets of the same numbers.
fn copy_buckets(buckets: &Buckets) -> Result<Buckets, OutOfMemory>
    ensures { IfOk result (λ copy. (k : ℕ) → numbers_at copy k ≡ numbers_at buckets.now k) }
{
    let copy = buckets.clone()?;
    Ok(copy)
}

/// The same early entries.
fn copy_early<X: Clone>(early: &Numbered<X>) -> Result<Numbered<X>, OutOfMemory>
    requires { (x y : X) → X.is_clone x y → y ≡ x }
    ensures { IfOk result (λ copy. copy.entries ≡ early.now.entries) }
{
    early.clone()
}

/// The same recent entries.
fn copy_recent<X: Clone>(recent: &VecDeque<(u64, X)>) -> Result<VecDeque<(u64, X)>, OutOfMemory>
    requires { (x y : X) → X.is_clone x y → y ≡ x }
    ensures { IfOk result (λ copy. copy.items ≡ recent.now.items) }
{
    recent.clone()
}

/// The same entries. There may be less room for more.
pub(crate) fn copy_pool<X: Clone>(pool: &Pool<X>) -> Result<Pool<X>, OutOfMemory>
    requires { (x y : X) → X.is_clone x y → y ≡ x }
    ensures { IfOk result (IsSamePool pool.now) }
{
    Ok(Pool {
        early: copy_early(&pool.early)?,
        buckets: copy_buckets(&pool.buckets)?,
        recent: copy_recent(&pool.recent)?,
        wild: pool.wild,
    })
}
