//! Entries that are taken out, and their numbers with them.
ghost use Rattle.std.specs.Prelude.{◌≡◌, ◌≢◌, ◌↔◌, ℕ, Contains, IsTrue, MatchOption, IfNone, false};
ghost use Rattle.ulfm_base.specs.Pattern.{Admits};
ghost use Rattle.ulfm_match.specs.inside.Buckets.{IsIndexed, MayGet, MayGoTo, NoneIsWild, NonePass, TakesOut, GivesLetter, GivesReceive};
ghost use Rattle.ulfm_match.specs.inside.Key.{IsKeyOf, IsKeyOfReceive};
ghost use Rattle.ulfm_match.specs.inside.Pools.{all_of, HasPlace, IsLeast, IsPool, NoneOf, TakesLeast};

use crate::buckets::{Buckets, forget, forget_letter};
use crate::key::key_of;
use crate::pool::{Numbered, Pool};
use crate::recent::{
    drop_numbered, first_letter, is_recent, recent_numbered, take_recent_letter,
    take_recent_receive,
};
use crate::search::{first_kept, first_waiting};
use ulfm_base::{Envelope, Letter, Pattern};

/// Takes the earliest of the letters in buckets that the pattern admits, where there are some.
#[inline(never)]
fn take_kept_among(
    kept: &mut Numbered<Letter>,
    buckets: &mut Buckets,
    pattern: &Pattern,
) -> Option<Letter>
    requires { (top : ℕ) × IsIndexed IsKeyOf top kept.old buckets.old }
    ensures taken { MatchOption result (NonePass (MayGet pattern.now) kept.old) (GivesLetter pattern.now kept.old kept.new buckets.old buckets.new) }
    ensures idle { IfNone result ((kept.new ≡ kept.old) × (buckets.new ≡ buckets.old)) }
{
    match first_kept(buckets, kept, pattern) {
        Some(number) => {
            let letter = kept.swap_remove(&number)?;
            let envelope = letter.envelope;
            forget_letter(buckets, &envelope, kept, number);
            Some(letter)
        }
        None => None,
    }
}

/// Takes the earliest of the letters in buckets that the pattern admits.
#[inline(always)]
fn take_kept(
    kept: &mut Numbered<Letter>,
    buckets: &mut Buckets,
    pattern: &Pattern,
) -> Option<Letter>
    requires { (top : ℕ) × IsIndexed IsKeyOf top kept.old buckets.old }
    ensures taken { MatchOption result (NonePass (MayGet pattern.now) kept.old) (GivesLetter pattern.now kept.old kept.new buckets.old buckets.new) }
    ensures idle { IfNone result ((kept.new ≡ kept.old) × (buckets.new ≡ buckets.old)) }
{
    if kept.is_empty() {
        return None;
    }
    take_kept_among(kept, buckets, pattern)
}

/// Takes the earliest of the receives in buckets that admits the envelope, where there are some. Answers its number.
#[inline(never)]
fn take_waiting_among(
    waiting: &mut Numbered<Pattern>,
    buckets: &mut Buckets,
    wild: bool,
    envelope: &Envelope,
) -> Option<u64>
    requires indexed { (top : ℕ) × IsIndexed IsKeyOfReceive top waiting.old buckets.old }
    requires none_wild { wild ≡ false → NoneIsWild IsKeyOfReceive waiting.old }
    ensures taken { MatchOption result (NonePass (MayGoTo envelope.now) waiting.old) (GivesReceive envelope.now waiting.old waiting.new buckets.old buckets.new) }
    ensures idle { IfNone result ((waiting.new ≡ waiting.old) × (buckets.new ≡ buckets.old)) }
{
    match first_waiting(buckets, waiting, wild, envelope) {
        Some(number) => {
            take_numbered(waiting, buckets, number);
            Some(number)
        }
        None => None,
    }
}

/// Takes the earliest of the receives in buckets that admits the envelope. Answers its number.
#[inline(always)]
fn take_waiting(
    waiting: &mut Numbered<Pattern>,
    buckets: &mut Buckets,
    wild: bool,
    envelope: &Envelope,
) -> Option<u64>
    requires indexed { (top : ℕ) × IsIndexed IsKeyOfReceive top waiting.old buckets.old }
    requires none_wild { wild ≡ false → NoneIsWild IsKeyOfReceive waiting.old }
    ensures taken { MatchOption result (NonePass (MayGoTo envelope.now) waiting.old) (GivesReceive envelope.now waiting.old waiting.new buckets.old buckets.new) }
    ensures idle { IfNone result ((waiting.new ≡ waiting.old) × (buckets.new ≡ buckets.old)) }
{
    if waiting.is_empty() {
        return None;
    }
    take_waiting_among(waiting, buckets, wild, envelope)
}

/// Takes the receive of a number out.
#[inline(never)]
fn take_numbered(waiting: &mut Numbered<Pattern>, buckets: &mut Buckets, number: u64)
    ensures { TakesOut number waiting.old waiting.new buckets.old buckets.new }
{
    if let Some(pattern) = waiting.swap_remove(&number) {
        forget(buckets, key_of(&pattern), waiting, Some(number));
    }
}

/// Takes the earliest letter that the pattern admits.
#[inline(always)]
pub(crate) fn take_letter(pool: &mut Pool<Letter>, pattern: &Pattern) -> Option<Letter>
    requires { (count : ℕ) × IsPool IsKeyOf count pool.old }
    ensures taken { MatchOption result (NoneOf (λ (y : ℕ × Letter). MayGet pattern.now y.1) (all_of pool.old)) (λ letter. (n : ℕ) × TakesLeast (λ (y : ℕ × Letter). MayGet pattern.now y.1) (all_of pool.old) (all_of pool.new) (n, letter)) }
    ensures idle { IfNone result (pool.new ≡ pool.old) }
    ensures pool { (count : ℕ) → IsPool IsKeyOf count pool.old → IsPool IsKeyOf count pool.new }
    ensures place { HasPlace pool.old → HasPlace pool.new }
{
    match take_kept(&mut pool.early, &mut pool.buckets, pattern) {
        Some(letter) => Some(letter),
        None => match take_recent_letter(&mut pool.recent, pattern) {
            Some((_, letter)) => Some(letter),
            None => None,
        },
    }
}

/// Takes the earliest receive that admits the envelope. Answers its number.
#[inline(always)]
pub(crate) fn take_receive(pool: &mut Pool<Pattern>, envelope: &Envelope) -> Option<u64>
    requires { (count : ℕ) × IsPool IsKeyOfReceive count pool.old }
    ensures taken { MatchOption result (NoneOf (λ (y : ℕ × Pattern). MayGoTo envelope.now y.1) (all_of pool.old)) (λ n. (pattern : Pattern) × TakesLeast (λ (y : ℕ × Pattern). MayGoTo envelope.now y.1) (all_of pool.old) (all_of pool.new) (n, pattern)) }
    ensures idle { IfNone result (pool.new ≡ pool.old) }
    ensures pool { (count : ℕ) → IsPool IsKeyOfReceive count pool.old → IsPool IsKeyOfReceive count pool.new }
    ensures place { HasPlace pool.old → HasPlace pool.new }
{
    match take_waiting(&mut pool.early, &mut pool.buckets, pool.wild, envelope) {
        Some(number) => Some(number),
        None => match take_recent_receive(&mut pool.recent, envelope) {
            Some((number, _)) => Some(number),
            None => None,
        },
    }
}

/// Whether the receive of a number is there.
pub(crate) fn is_there(pool: &Pool<Pattern>, number: u64) -> bool
    requires { (count : ℕ) × IsPool IsKeyOfReceive count pool.now }
    ensures { IsTrue result ↔ ((pattern : Pattern) × Contains (all_of pool.now) (number, pattern)) }
{
    if pool.early.contains_key(&number) {
        return true;
    }
    is_recent(&pool.recent, number)
}

/// The letter of a number, if it is there.
pub(crate) fn numbered(pool: &Pool<Letter>, number: u64) -> Option<&Letter>
    requires { (count : ℕ) × IsPool IsKeyOf count pool.now }
    ensures { MatchOption result ((letter : Letter) → Contains (all_of pool.now) (number, letter) → ⊥) (λ letter. Contains (all_of pool.now) (number, letter.now)) }
{
    match pool.early.get(&number) {
        Some(letter) => Some(letter),
        None => recent_numbered(&pool.recent, number),
    }
}

/// Takes the receive of a number out, if it is there.
pub(crate) fn end_numbered(pool: &mut Pool<Pattern>, number: u64)
    requires { (count : ℕ) × IsPool IsKeyOfReceive count pool.old }
    ensures left { (y : ℕ × Pattern) → Contains (all_of pool.new) y ↔ (Contains (all_of pool.old) y × (y.0 ≢ number)) }
    ensures pool { (count : ℕ) → IsPool IsKeyOfReceive count pool.old → IsPool IsKeyOfReceive count pool.new }
    ensures place { HasPlace pool.old → HasPlace pool.new }
{
    take_numbered(&mut pool.early, &mut pool.buckets, number);
    drop_numbered(&mut pool.recent, number);
}

/// The earliest letter that the pattern admits. It stays there.
pub(crate) fn earliest_letter<'a>(pool: &'a Pool<Letter>, pattern: &Pattern) -> Option<&'a Letter>
    requires { (count : ℕ) × IsPool IsKeyOf count pool.now }
    ensures { MatchOption result (NoneOf (λ (y : ℕ × Letter). MayGet pattern.now y.1) (all_of pool.now)) (λ letter. (n : ℕ) × IsLeast (λ (y : ℕ × Letter). MayGet pattern.now y.1) (all_of pool.now) (n, letter.now)) }
{
    match first_kept(&pool.buckets, &pool.early, pattern) {
        Some(number) => {
            let letter = pool.early.get(&number)?;
            Some(letter)
        }
        None => match first_letter(&pool.recent, pattern) {
            Some(k) => Some(&pool.recent[k].1),
            None => None,
        },
    }
}

/// Whether a letter is there that the pattern admits.
pub(crate) fn has_letter(pool: &Pool<Letter>, pattern: &Pattern) -> bool
    requires { (count : ℕ) × IsPool IsKeyOf count pool.now }
    ensures { IsTrue result ↔ ((y : ℕ × Letter) × Contains (all_of pool.now) y × Admits pattern.now y.1.envelope) }
{
    if first_kept(&pool.buckets, &pool.early, pattern).is_some() {
        return true;
    }
    first_letter(&pool.recent, pattern).is_some()
}
