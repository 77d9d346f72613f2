//! The entries that came last, in a short list.
ghost use Rattle.std.specs.Prelude.{◌≡◌, ◌≤◌, ◌==◌, ◌+◌, ◌↔◌, ℕ, Contains, IsTrue, IfNone, MatchOption, filter, not, take, length, false};
ghost use Rattle.std.specs.VecDeque.{deque_len, deque_capacity};
ghost use Rattle.ulfm_base.specs.Pattern.{Admits, names};
ghost use Rattle.ulfm_base.specs.declared.envelope.Envelope.{Envelope};
ghost use Rattle.ulfm_match.specs.inside.Buckets.{MayGet, MayGoTo};
ghost use Rattle.ulfm_match.specs.inside.Glance.{Suits};
ghost use Rattle.ulfm_match.specs.inside.Pools.{FindsFirst, NoneOf, TakesFirst};

use crate::glance::{Glance, word};
use std::collections::VecDeque;
use ulfm_base::{Context, Envelope, Letter, Pattern, Source, WorldRank};

/// How many letters from the front are passed over, four at a time, since none of them has what is looked for.
#[inline(always)]
fn pass_over(letters: &[(u64, Letter)], glance: Glance) -> usize
    ensures within { result ≤ length letters.now }
    ensures none { NoneOf (λ (y : ℕ × Letter). Suits glance y.1.envelope) (take result letters.now) }
{
    let fours = letters.len() / 4;
    for i in 0..fours {
        if is_one_of_four(letters, i * 4, glance) {
            return i * 4;
        }
    }
    fours * 4
}

/// Whether one of four letters has what is looked for, the first of which stands here.
#[inline(always)]
fn is_one_of_four(letters: &[(u64, Letter)], start: usize, glance: Glance) -> bool
    requires { start + 4 ≤ length letters.now }
    ensures { result ≡ false → NoneOf (λ (y : ℕ × Letter). Suits glance y.1.envelope) (take start letters.now) → NoneOf (λ (y : ℕ × Letter). Suits glance y.1.envelope) (take (start + 4) letters.now) }
{
    let first = glance.suits(&letters[start].1.envelope);
    let second = glance.suits(&letters[start + 1].1.envelope);
    let third = glance.suits(&letters[start + 2].1.envelope);
    let fourth = glance.suits(&letters[start + 3].1.envelope);
    first | second | third | fourth
}

/// Where the first letter of some stands that the pattern admits, which asks for what is looked for.
#[inline(always)]
fn first_suited(letters: &[(u64, Letter)], pattern: &Pattern, glance: Glance) -> Option<usize>
    requires { (e : Envelope) → Admits pattern.now e → Suits glance e }
    ensures { FindsFirst (λ (y : ℕ × Letter). MayGet pattern.now y.1) letters.now result }
{
    let start = pass_over(letters, glance);
    for k in start..letters.len() {
        if pattern.admits(&letters[k].1.envelope) {
            return Some(k);
        }
    }
    None
}

/// Where the first letter of some stands that the pattern admits, whatever it asks for.
fn first_admitted(letters: &[(u64, Letter)], pattern: &Pattern) -> Option<usize>
    ensures { FindsFirst (λ (y : ℕ × Letter). MayGet pattern.now y.1) letters.now result }
{
    for k in 0..letters.len() {
        if pattern.admits(&letters[k].1.envelope) {
            return Some(k);
        }
    }
    None
}

/// Where the first letter of some stands that the pattern admits, where there are some.
#[inline(never)]
fn first_letter_among(letters: &[(u64, Letter)], pattern: &Pattern) -> Option<usize>
    ensures { FindsFirst (λ (y : ℕ × Letter). MayGet pattern.now y.1) letters.now result }
{
    match (pattern.source, pattern.tag) {
        (Source::One(rank), Some(tag)) => {
            let word = word(pattern.context.number, rank.number, tag.number);
            first_suited(letters, pattern, Glance::Named(word))
        }
        (Source::One(rank), None) => first_suited(letters, pattern, Glance::From(rank.number)),
        (Source::Any(_), Some(tag)) => first_suited(letters, pattern, Glance::Tagged(tag.number)),
        (Source::Any(_), None) => first_admitted(letters, pattern),
    }
}

/// Where the first letter of some stands that the pattern admits.
#[inline(always)]
fn first_letter_in(letters: &[(u64, Letter)], pattern: &Pattern) -> Option<usize>
    ensures { FindsFirst (λ (y : ℕ × Letter). MayGet pattern.now y.1) letters.now result }
{
    if letters.is_empty() {
        return None;
    }
    first_letter_among(letters, pattern)
}

/// Whether the pattern may admit the envelope: it names no other source, and no other tag.
#[inline(always)]
fn may_admit(pattern: &Pattern, envelope: &Envelope) -> bool
    ensures { Admits pattern.now envelope.now → IsTrue result }
{
    if let Source::One(rank) = pattern.source {
        if rank.number != envelope.source.number {
            return false;
        }
    }
    match pattern.tag {
        Some(tag) => tag.number == envelope.tag.number,
        None => true,
    }
}

/// Whether one of four receives may admit the envelope, the first of which stands here.
#[inline(always)]
fn may_one_of_four(receives: &[(u64, Pattern)], start: usize, envelope: &Envelope) -> bool
    requires { start + 4 ≤ length receives.now }
    ensures { result ≡ false → NoneOf (λ (y : ℕ × Pattern). MayGoTo envelope.now y.1) (take start receives.now) → NoneOf (λ (y : ℕ × Pattern). MayGoTo envelope.now y.1) (take (start + 4) receives.now) }
{
    if may_admit(&receives[start].1, envelope) {
        return true;
    }
    if may_admit(&receives[start + 1].1, envelope) {
        return true;
    }
    if may_admit(&receives[start + 2].1, envelope) {
        return true;
    }
    may_admit(&receives[start + 3].1, envelope)
}

/// How many receives from the front are passed over, four at a time, since none of them admits the envelope.
#[inline(always)]
fn pass_over_receives(receives: &[(u64, Pattern)], envelope: &Envelope) -> usize
    ensures within { result ≤ length receives.now }
    ensures none { NoneOf (λ (y : ℕ × Pattern). MayGoTo envelope.now y.1) (take result receives.now) }
{
    let fours = receives.len() / 4;
    for i in 0..fours {
        if may_one_of_four(receives, i * 4, envelope) {
            return i * 4;
        }
    }
    fours * 4
}

/// Where the first receive of some stands that admits the envelope, where there are some.
#[inline(never)]
fn first_receive_among(receives: &[(u64, Pattern)], envelope: &Envelope) -> Option<usize>
    ensures { FindsFirst (λ (y : ℕ × Pattern). MayGoTo envelope.now y.1) receives.now result }
{
    let start = pass_over_receives(receives, envelope);
    for k in start..receives.len() {
        if receives[k].1.admits(envelope) {
            return Some(k);
        }
    }
    None
}

/// Where the first receive of some stands that admits the envelope.
#[inline(always)]
fn first_receive_in(receives: &[(u64, Pattern)], envelope: &Envelope) -> Option<usize>
    ensures { FindsFirst (λ (y : ℕ × Pattern). MayGoTo envelope.now y.1) receives.now result }
{
    if receives.is_empty() {
        return None;
    }
    first_receive_among(receives, envelope)
}

/// Where the first letter stands that the pattern admits.
pub(crate) fn first_letter(recent: &VecDeque<(u64, Letter)>, pattern: &Pattern) -> Option<usize>
    ensures { FindsFirst (λ (y : ℕ × Letter). MayGet pattern.now y.1) recent.now.items result }
{
    let (front, back) = recent.as_slices();
    match first_letter_in(front, pattern) {
        Some(k) => Some(k),
        None => match first_letter_in(back, pattern) {
            Some(k) => Some(front.len() + k),
            None => None,
        },
    }
}

/// Where the first receive stands that admits the envelope.
fn first_receive(recent: &VecDeque<(u64, Pattern)>, envelope: &Envelope) -> Option<usize>
    ensures { FindsFirst (λ (y : ℕ × Pattern). MayGoTo envelope.now y.1) recent.now.items result }
{
    let (front, back) = recent.as_slices();
    match first_receive_in(front, envelope) {
        Some(k) => Some(k),
        None => match first_receive_in(back, envelope) {
            Some(k) => Some(front.len() + k),
            None => None,
        },
    }
}

/// Takes the first letter that the pattern admits, with its number.
pub(crate) fn take_recent_letter(
    recent: &mut VecDeque<(u64, Letter)>,
    pattern: &Pattern,
) -> Option<(u64, Letter)>
    ensures taken { MatchOption result (NoneOf (λ (y : ℕ × Letter). MayGet pattern.now y.1) recent.old.items) (TakesFirst (λ (y : ℕ × Letter). MayGet pattern.now y.1) recent.old.items recent.new.items) }
    ensures idle { IfNone result (recent.new ≡ recent.old) }
    ensures shorter { deque_len recent.new ≤ deque_len recent.old }
    ensures room { deque_capacity recent.new ≡ deque_capacity recent.old }
{
    match first_letter(recent, pattern) {
        Some(k) => recent.remove(k),
        None => None,
    }
}

/// Takes the first receive that admits the envelope, with its number.
pub(crate) fn take_recent_receive(
    recent: &mut VecDeque<(u64, Pattern)>,
    envelope: &Envelope,
) -> Option<(u64, Pattern)>
    ensures taken { MatchOption result (NoneOf (λ (y : ℕ × Pattern). MayGoTo envelope.now y.1) recent.old.items) (TakesFirst (λ (y : ℕ × Pattern). MayGoTo envelope.now y.1) recent.old.items recent.new.items) }
    ensures idle { IfNone result (recent.new ≡ recent.old) }
    ensures shorter { deque_len recent.new ≤ deque_len recent.old }
    ensures room { deque_capacity recent.new ≡ deque_capacity recent.old }
{
    match first_receive(recent, envelope) {
        Some(k) => recent.remove(k),
        None => None,
    }
}

/// Whether the receive of a number is among these.
pub(crate) fn is_recent(recent: &VecDeque<(u64, Pattern)>, number: u64) -> bool
    ensures { IsTrue result ↔ ((pattern : Pattern) × Contains recent.now.items (number, pattern)) }
{
    for k in 0..recent.len() {
        if recent[k].0 == number {
            return true;
        }
    }
    false
}

/// The letter of a number, if it is among these.
pub(crate) fn recent_numbered(recent: &VecDeque<(u64, Letter)>, number: u64) -> Option<&Letter>
    ensures { MatchOption result (NoneOf (λ (y : ℕ × Letter). y.0 ≡ number) recent.now.items) (λ letter. Contains recent.now.items (number, letter.now)) }
{
    for k in 0..recent.len() {
        if recent[k].0 == number {
            return Some(&recent[k].1);
        }
    }
    None
}

/// Drops the receive of a number.
pub(crate) fn drop_numbered(recent: &mut VecDeque<(u64, Pattern)>, number: u64)
    ensures left { recent.new.items ≡ filter (λ (y : ℕ × Pattern). not (y.0 == number)) recent.old.items }
    ensures shorter { deque_len recent.new ≤ deque_len recent.old }
    ensures room { deque_capacity recent.new ≡ deque_capacity recent.old }
{
    recent.retain(|entry| entry.0 != number);
}

/// Drops the receives of a context.
pub(crate) fn drop_receives(recent: &mut VecDeque<(u64, Pattern)>, context: Context)
    ensures left { recent.new.items ≡ filter (λ (y : ℕ × Pattern). not (y.1.context.number == context.number)) recent.old.items }
    ensures shorter { deque_len recent.new ≤ deque_len recent.old }
    ensures room { deque_capacity recent.new ≡ deque_capacity recent.old }
{
    recent.retain(|entry| entry.1.context.number != context.number);
}

/// Drops the letters of a context.
pub(crate) fn drop_letters(recent: &mut VecDeque<(u64, Letter)>, context: Context)
    ensures left { recent.new.items ≡ filter (λ (y : ℕ × Letter). not (y.1.envelope.context.number == context.number)) recent.old.items }
    ensures shorter { deque_len recent.new ≤ deque_len recent.old }
    ensures room { deque_capacity recent.new ≡ deque_capacity recent.old }
{
    recent.retain(|entry| entry.1.envelope.context.number != context.number);
}

/// Drops the receives that name a rank as their source.
pub(crate) fn drop_named(recent: &mut VecDeque<(u64, Pattern)>, rank: WorldRank)
    ensures left { recent.new.items ≡ filter (λ (y : ℕ × Pattern). not (names y.1.source rank.number)) recent.old.items }
    ensures shorter { deque_len recent.new ≤ deque_len recent.old }
    ensures room { deque_capacity recent.new ≡ deque_capacity recent.old }
{
    recent.retain(|entry| !entry.1.source.names(rank));
}
