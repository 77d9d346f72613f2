//! The buckets of all keys.
ghost use Rattle.std.specs.Prelude.{◌≡◌, ℕ, Bool, Contains, IfSome, None, OnOk, false, nat_eq};
ghost use Rattle.indexmap.specs.IndexMap.{get};
ghost use Rattle.ulfm_match.specs.inside.Buckets.{SweepsFor, Grows, numbers_at};
ghost use Rattle.ulfm_match.specs.inside.Key.{key_at};

use crate::bucket::Bucket;
use crate::key::key_at;
use crate::pool::Numbered;
use std::alloc::Global;
use ulfm_base::{Envelope, OutOfMemory};

/// The bucket of each key that has entries.
pub(crate) type Buckets = Numbered<Bucket>;

/// Puts a number into the bucket of a key.
#[inline(always)]
pub(crate) fn put(
    buckets: &mut Buckets,
    alloc: Global,
    key: u64,
    number: u64,
) -> Result<(), OutOfMemory>
    ensures put { OnOk result (Contains (numbers_at buckets.new key) number) }
    ensures grows { (k : ℕ) → Grows number (numbers_at buckets.old k) (numbers_at buckets.new k) }
{
    if let Some(bucket) = buckets.get_mut(&key) {
        return bucket.push(number);
    }
    buckets.insert(key, Bucket::of(alloc, number))?;
    Ok(())
}

/// Puts a number into the buckets of a letter: those of its source, by its tag and by any.
pub(crate) fn put_letter(
    buckets: &mut Buckets,
    alloc: Global,
    envelope: &Envelope,
    number: u64,
) -> Result<(), OutOfMemory>
    ensures put { OnOk result ((any_tag : Bool) → Contains (numbers_at buckets.new (key_at false any_tag envelope.now)) number) }
    ensures grows { (k : ℕ) → Grows number (numbers_at buckets.old k) (numbers_at buckets.new k) }
{
    put(buckets, alloc, key_at(envelope, false, false), number)?;
    put(buckets, alloc, key_at(envelope, false, true), number)?;
    Ok(())
}

/// Notes that the entry of a number went, which has this key, or many. A bucket that has none left goes too.
#[inline(always)]
pub(crate) fn forget<X>(buckets: &mut Buckets, key: u64, live: &Numbered<X>, went: Option<u64>)
    requires { IfSome went (λ n. get nat_eq live.now n ≡ None) }
    ensures { (k : ℕ) → SweepsFor live.now (numbers_at buckets.old k) (numbers_at buckets.new k) }
{
    if let Some(bucket) = buckets.get_mut(&key) {
        bucket.sweep(live, went);
        if !bucket.is_empty() {
            return;
        }
    } else {
        return;
    }
    let _ = buckets.swap_remove(&key);
}

/// Drops the numbers of many entries that went, and the buckets that have none left.
pub(crate) fn forget_gone<X>(buckets: &mut Buckets, live: &Numbered<X>)
    ensures { (k : ℕ) → SweepsFor live.now (numbers_at buckets.old k) (numbers_at buckets.new k) }
{
    let len = buckets.len();
    for i in 0..len {
        if let Some((key, _)) = buckets.get_index(len - 1 - i) {
            let key = *key;
            forget(buckets, key, live, None);
        }
    }
}

/// Notes that a letter went, which had this number.
#[inline(always)]
pub(crate) fn forget_letter<X>(
    buckets: &mut Buckets,
    envelope: &Envelope,
    live: &Numbered<X>,
    number: u64,
)
    requires { get nat_eq live.now number ≡ None }
    ensures { (k : ℕ) → SweepsFor live.now (numbers_at buckets.old k) (numbers_at buckets.new k) }
{
    let went = Some(number);
    forget(buckets, key_at(envelope, false, false), live, went);
    forget(buckets, key_at(envelope, false, true), live, went);
}
