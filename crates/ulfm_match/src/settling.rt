//! A place for one entry more: where many are recent, the first of them is put into its buckets. That may find no memory, and then is
//! tried again. So no room is kept in buckets, where nobody knows which of them will grow.
ghost use Rattle.std.specs.Prelude.{◌≡◌, ◌<◌, ◌≤◌, ◌∷◌, ◌++◌, ℕ, [], IsTrue, OnOk, false};
ghost use Rattle.std.specs.VecDeque.{deque_len, deque_capacity};
ghost use Rattle.ulfm_match.specs.inside.Key.{IsKeyOf, IsKeyOfReceive, IsWild, key_of};
ghost use Rattle.ulfm_match.specs.inside.Buckets.{NoneIsWild};
ghost use Rattle.ulfm_match.specs.inside.Pools.{all_of, few, IsPool, HasPlace};

use crate::buckets::{forget, forget_letter, put, put_letter};
use crate::key::{is_wild, key_of};
use crate::pool::Pool;
use std::alloc::Global;
use ulfm_base::{Letter, OutOfMemory, Pattern};

/// How many entries are recent at most. A search among so few takes no longer than one by buckets.
const FEW: usize = 128;

/// Whether an early receive may be wild once this one is early too.
fn may_be_wild(pool: &Pool<Pattern>, pattern: &Pattern) -> bool
    requires { pool.now.wild ≡ false → NoneIsWild IsKeyOfReceive pool.now.early }
    ensures early { result ≡ false → NoneIsWild IsKeyOfReceive pool.now.early }
    ensures other { result ≡ false → IsWild (key_of pattern.now) → ⊥ }
{
    if is_wild(pattern) {
        return true;
    }
    // Here alone it is told anew: no end of a receive looks at those that are left. Until then it may speak of one that went.
    if pool.early.is_empty() {
        return false;
    }
    pool.wild
}

/// Puts the first of the recent receives among the early ones.
#[inline(never)]
fn settle_receive(pool: &mut Pool<Pattern>, alloc: Global) -> Result<(), OutOfMemory>
    requires { (count : ℕ) × IsPool IsKeyOfReceive count pool.old }
    ensures all { all_of pool.new ≡ all_of pool.old }
    ensures pool { (count : ℕ) → IsPool IsKeyOfReceive count pool.old → IsPool IsKeyOfReceive count pool.new }
    ensures settled { OnOk result (deque_len pool.new.recent < few) }
    ensures shorter { deque_len pool.new.recent ≤ deque_len pool.old.recent }
    ensures room { deque_capacity pool.new.recent ≡ deque_capacity pool.old.recent }
{
    pool.early.reserve(1)?;
    let Some((number, pattern)) = pool.recent.pop_front() else {
        return Ok(());
    };
    match put(&mut pool.buckets, alloc, key_of(&pattern), number) {
        Ok(()) => {
            pool.wild = may_be_wild(pool, &pattern);
            // There is room for it, and nothing else has its number.
            let _ = pool.early.insert(number, pattern);
            Ok(())
        }
        Err(error) => {
            forget(
                &mut pool.buckets,
                key_of(&pattern),
                &pool.early,
                Some(number),
            );
            pool.recent.push_front_reserved((number, pattern));
            Err(error)
        }
    }
}

/// Puts the first of the recent letters among the early ones.
fn settle_letter(pool: &mut Pool<Letter>, alloc: Global) -> Result<(), OutOfMemory>
    requires { (count : ℕ) × IsPool IsKeyOf count pool.old }
    ensures all { all_of pool.new ≡ all_of pool.old }
    ensures pool { (count : ℕ) → IsPool IsKeyOf count pool.old → IsPool IsKeyOf count pool.new }
    ensures settled { OnOk result (deque_len pool.new.recent < few) }
    ensures shorter { deque_len pool.new.recent ≤ deque_len pool.old.recent }
    ensures room { deque_capacity pool.new.recent ≡ deque_capacity pool.old.recent }
{
    pool.early.reserve(1)?;
    let Some((number, letter)) = pool.recent.pop_front() else {
        return Ok(());
    };
    let envelope = letter.envelope;
    match put_letter(&mut pool.buckets, alloc, &envelope, number) {
        Ok(()) => {
            // A letter stands in a bucket of any tag too.
            pool.wild = true;
            let _ = pool.early.insert(number, letter);
            Ok(())
        }
        Err(error) => {
            forget_letter(&mut pool.buckets, &envelope, &pool.early, number);
            pool.recent.push_front_reserved((number, letter));
            Err(error)
        }
    }
}

/// Adds an entry, which comes last. Answers whether one more may come before more room is made.
pub(crate) fn add<X>(pool: &mut Pool<X>, number: u64, entry: X) -> bool
    requires { HasPlace pool.old }
    ensures early { pool.new.early ≡ pool.old.early }
    ensures buckets { pool.new.buckets ≡ pool.old.buckets }
    ensures wild { pool.new.wild ≡ pool.old.wild }
    ensures recent { pool.new.recent.items ≡ pool.old.recent.items ++ (number, entry) ∷ [] }
    ensures all { all_of pool.new ≡ all_of pool.old ++ (number, entry) ∷ [] }
    ensures place { IsTrue result → HasPlace pool.new }
{
    pool.recent.push_back_reserved((number, entry));
    pool.recent.len() < pool.recent.capacity().min(FEW)
}

/// Makes room for one receive more.
#[inline(always)]
pub(crate) fn prepare_receive(pool: &mut Pool<Pattern>, alloc: Global) -> Result<(), OutOfMemory>
    requires { (count : ℕ) × IsPool IsKeyOfReceive count pool.old }
    ensures all { all_of pool.new ≡ all_of pool.old }
    ensures pool { (count : ℕ) → IsPool IsKeyOfReceive count pool.old → IsPool IsKeyOfReceive count pool.new }
    ensures place { OnOk result (HasPlace pool.new) }
{
    pool.recent.reserve(1)?;
    if pool.recent.len() < FEW {
        return Ok(());
    }
    settle_receive(pool, alloc)
}

/// Makes room for one letter more.
#[inline(never)]
pub(crate) fn prepare_letter(pool: &mut Pool<Letter>, alloc: Global) -> Result<(), OutOfMemory>
    requires { (count : ℕ) × IsPool IsKeyOf count pool.old }
    ensures all { all_of pool.new ≡ all_of pool.old }
    ensures pool { (count : ℕ) → IsPool IsKeyOf count pool.old → IsPool IsKeyOf count pool.new }
    ensures place { OnOk result (HasPlace pool.new) }
{
    pool.recent.reserve(1)?;
    if pool.recent.len() < FEW {
        return Ok(());
    }
    settle_letter(pool, alloc)
}
