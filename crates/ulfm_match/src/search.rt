//! Searches of the waiting receives and of the kept letters for the least number.
ghost use Rattle.std.specs.Prelude.{◌≡◌, ◌<◌, ◌↔◌, ℕ, ⊤, Contains, IsTrue, true, false};
ghost use Rattle.ulfm_base.specs.RankSet.{has};
ghost use Rattle.ulfm_match.specs.inside.Buckets.{Rises, Passes, FindsLeast, IsIndexed, IsLesser, MayGet, MayGoTo, NoneIsWild, StandsFrom, numbers_at};
ghost use Rattle.ulfm_match.specs.inside.Key.{key_from, IsKeyOfReceive};

use crate::buckets::Buckets;
use crate::key::{key_at, key_from};
use crate::pool::Numbered;
use std::collections::VecDeque;
use ulfm_base::{Envelope, Letter, MOST_RANKS, Pattern, RankSet, Source, WorldRank};

/// Whether the letter of a number is there, and the pattern admits it.
#[inline(always)]
fn is_admitted(kept: &Numbered<Letter>, number: u64, pattern: &Pattern) -> bool
    ensures { IsTrue result ↔ Passes (MayGet pattern.now) kept.now number }
{
    match kept.get(&number) {
        Some(letter) => pattern.admits(&letter.envelope),
        None => false,
    }
}

/// Whether the receive of a number is there, and admits the envelope.
#[inline(always)]
fn admits(waiting: &Numbered<Pattern>, number: u64, envelope: &Envelope) -> bool
    ensures { IsTrue result ↔ Passes (MayGoTo envelope.now) waiting.now number }
{
    match waiting.get(&number) {
        Some(pattern) => pattern.admits(envelope),
        None => false,
    }
}

/// The first of some numbers whose letter the pattern admits.
#[inline(always)]
fn first_letter(numbers: &VecDeque<u64>, kept: &Numbered<Letter>, pattern: &Pattern) -> Option<u64>
    requires { Rises numbers.now.items }
    ensures { FindsLeast (Contains numbers.now.items) (Passes (MayGet pattern.now) kept.now) result }
{
    for k in 0..numbers.len() {
        let number = numbers[k];
        if is_admitted(kept, number, pattern) {
            return Some(number);
        }
    }
    None
}

/// The first of some numbers whose receive admits the envelope.
fn first_receive(
    numbers: &VecDeque<u64>,
    waiting: &Numbered<Pattern>,
    envelope: &Envelope,
) -> Option<u64>
    requires { Rises numbers.now.items }
    ensures { FindsLeast (Contains numbers.now.items) (Passes (MayGoTo envelope.now) waiting.now) result }
{
    for k in 0..numbers.len() {
        let number = numbers[k];
        if admits(waiting, number, envelope) {
            return Some(number);
        }
    }
    None
}

/// The earliest letter from a source that the pattern admits.
#[inline(always)]
fn first_kept_from(
    buckets: &Buckets,
    kept: &Numbered<Letter>,
    source: WorldRank,
    pattern: &Pattern,
) -> Option<u64>
    requires { Rises (numbers_at buckets.now (key_from source.number pattern.now)) }
    ensures { FindsLeast (Contains (numbers_at buckets.now (key_from source.number pattern.now))) (Passes (MayGet pattern.now) kept.now) result }
{
    let Some(bucket) = buckets.get(&key_from(source, pattern)) else {
        return None;
    };
    if let Some(first) = bucket.first {
        if is_admitted(kept, first, pattern) {
            return Some(first);
        }
    }
    first_letter(&bucket.rest, kept, pattern)
}

/// The earliest letter that the pattern admits, from a source if it is among these.
fn first_kept_among(
    buckets: &Buckets,
    kept: &Numbered<Letter>,
    members: RankSet,
    source: WorldRank,
    pattern: &Pattern,
) -> Option<u64>
    requires { (k : ℕ) → Rises (numbers_at buckets.now k) }
    ensures { FindsLeast (λ n. (has members source.number ≡ true) × Contains (numbers_at buckets.now (key_from source.number pattern.now)) n) (Passes (MayGet pattern.now) kept.now) result }
{
    if !members.contains(source) {
        return None;
    }
    first_kept_from(buckets, kept, source, pattern)
}

/// The earliest letter that the pattern admits, from these sources.
fn first_kept_of_any(
    buckets: &Buckets,
    kept: &Numbered<Letter>,
    members: RankSet,
    pattern: &Pattern,
) -> Option<u64>
    requires { (k : ℕ) → Rises (numbers_at buckets.now k) }
    ensures { FindsLeast (λ n. (s : ℕ) × (s < 8) × (has members s ≡ true) × Contains (numbers_at buckets.now (key_from s pattern.now)) n) (Passes (MayGet pattern.now) kept.now) result }
{
    let mut found = None;
    for number in 0..MOST_RANKS {
        let source = WorldRank { number };
        found = lesser(
            found,
            first_kept_among(buckets, kept, members, source, pattern),
        );
    }
    found
}

/// The earliest letter that the pattern admits.
#[inline(always)]
pub(crate) fn first_kept(
    buckets: &Buckets,
    kept: &Numbered<Letter>,
    pattern: &Pattern,
) -> Option<u64>
    requires { (k : ℕ) → Rises (numbers_at buckets.now k) }
    ensures { FindsLeast (StandsFrom pattern.now buckets.now) (Passes (MayGet pattern.now) kept.now) result }
{
    match pattern.source {
        Source::One(rank) => first_kept_from(buckets, kept, rank, pattern),
        Source::Any(members) => first_kept_of_any(buckets, kept, members, pattern),
    }
}

/// The earliest waiting receive of a key that admits the envelope.
#[inline(always)]
fn first_of_key(
    buckets: &Buckets,
    waiting: &Numbered<Pattern>,
    key: u64,
    envelope: &Envelope,
) -> Option<u64>
    requires { Rises (numbers_at buckets.now key) }
    ensures { FindsLeast (Contains (numbers_at buckets.now key)) (Passes (MayGoTo envelope.now) waiting.now) result }
{
    let Some(bucket) = buckets.get(&key) else {
        return None;
    };
    if let Some(first) = bucket.first {
        if admits(waiting, first, envelope) {
            return Some(first);
        }
    }
    first_receive(&bucket.rest, waiting, envelope)
}

/// The lesser of two numbers, where there are two.
fn lesser(one: Option<u64>, other: Option<u64>) -> Option<u64>
    ensures { IsLesser one other result }
{
    match (one, other) {
        (Some(m), Some(n)) => Some(if m < n { m } else { n }),
        (Some(m), None) => Some(m),
        (None, found) => found,
    }
}

/// The earliest waiting receive that admits the envelope. Where none is wild, it is sought by its source and tag alone.
#[inline(never)]
pub(crate) fn first_waiting(
    buckets: &Buckets,
    waiting: &Numbered<Pattern>,
    wild: bool,
    envelope: &Envelope,
) -> Option<u64>
    requires indexed { (top : ℕ) × IsIndexed IsKeyOfReceive top waiting.now buckets.now }
    requires none_wild { wild ≡ false → NoneIsWild IsKeyOfReceive waiting.now }
    ensures { FindsLeast (λ _. ⊤) (Passes (MayGoTo envelope.now) waiting.now) result }
{
    let named = first_of_key(buckets, waiting, key_at(envelope, false, false), envelope);
    if !wild {
        return named;
    }
    let named_any = first_of_key(buckets, waiting, key_at(envelope, false, true), envelope);
    let any_named = first_of_key(buckets, waiting, key_at(envelope, true, false), envelope);
    let any = first_of_key(buckets, waiting, key_at(envelope, true, true), envelope);
    lesser(lesser(named, named_any), lesser(any_named, any))
}
