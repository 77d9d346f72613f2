//! How long a letter takes, with its arrival and its receive, where the later of these come in the reverse order.

use crate::case::{Case, Keys};
use crate::pairing::{Indexed, Lists, Pairing};
use std::alloc::Global;
use std::rt::Runtime;
use std::time::{Clock, Instant};
use ulfm_base::{Body, CallError, Letter};
use ulfm_match::Matcher;
use ulfm_match::plain::Plain;

/// How many letters a case has.
const COUNTS: [u16; 3] = [100, 1_000, 10_000];

/// How many letters the rounds of a case have together, beside one round more.
const LETTERS: u16 = 20_000;

/// Measures each case of at most so many letters over the matcher and the lists, and tells the times. Nothing where a letter
/// found no receive, or a time can't be told.
pub fn each_case<R: Runtime>(rt: &R, alloc: Global, most: u32) -> Option<()> {
    for kept in [true, false] {
        for keys in [Keys::Tags, Keys::Sources, Keys::AnyTag, Keys::AnySource] {
            for count in COUNTS {
                if count as u32 <= most {
                    over_both(rt, alloc, Case { keys, kept, count })?;
                }
            }
        }
    }
    Some(())
}

/// Measures a case over both.
fn over_both<R: Runtime>(rt: &R, alloc: Global, case: Case) -> Option<()> {
    let indexed = Indexed {
        matcher: Matcher::new(alloc),
    };
    over(rt, "matcher", alloc, indexed, case)?;
    let lists = Lists {
        plain: Plain::new(alloc),
    };
    over(rt, "lists", alloc, lists, case)
}

/// Measures a case over one of them: tells for each round the time of a letter, but for a first round that isn't told.
fn over<R: Runtime, P: Pairing>(
    rt: &R,
    name: &str,
    alloc: Global,
    pairing: P,
    case: Case,
) -> Option<()> {
    let mut pairing = pairing;
    let (what, count) = (case.name(), case.count);
    for round in 0..LETTERS / count.max(1) + 2 {
        let start = Instant::now(rt).ok()?;
        let is_whole = make_round(&mut pairing, alloc, case);
        let time = start.elapsed(rt).ok()?.as_nanos() / (count as u128).max(1);
        if !is_whole {
            return None;
        }
        if round > 0 {
            eprintln!(rt; "{name}, {what}, {count}: {time} ns a letter").ok()?;
        }
    }
    Some(())
}

/// A letter of a case, with 1,024 bytes.
fn letter_of(alloc: Global, case: Case, number: u16) -> Result<Letter, CallError> {
    Ok(Letter {
        envelope: case.envelope(number),
        body: Body::from_bytes(alloc, &[b'x'; 1024])?,
    })
}

/// One round: all letters come and then all receives, or the other way round, the second of them in reverse order. Whether each
/// of the second found its fellow, and none of the first.
fn make_round<P: Pairing>(pairing: &mut P, alloc: Global, case: Case) -> bool {
    if case.kept {
        let is_kept = arrivals(pairing, alloc, case, false);
        posts(pairing, case, true) && is_kept
    } else {
        let is_waiting = posts(pairing, case, false);
        arrivals(pairing, alloc, case, true) && is_waiting
    }
}

/// Hands on the letters, from the first or from the last on: whether a receive got each, or none of them.
fn arrivals<P: Pairing>(pairing: &mut P, alloc: Global, case: Case, backwards: bool) -> bool {
    let mut is_so = true;
    for k in 0..case.count {
        let number = if backwards { case.count - 1 - k } else { k };
        let Ok(letter) = letter_of(alloc, case, number) else {
            return false;
        };
        let found = pairing.arrive(letter);
        is_so = is_so && found == backwards;
    }
    is_so
}

/// Posts the receives, from the first or from the last on: whether each got a letter that it admits, or none of them did.
fn posts<P: Pairing>(pairing: &mut P, case: Case, backwards: bool) -> bool {
    let mut is_so = true;
    for k in 0..case.count {
        let pattern = case.pattern(if backwards { case.count - 1 - k } else { k });
        let is_right = match pairing.post(pattern) {
            Some(letter) => backwards && pattern.admits(&letter.envelope),
            None => !backwards,
        };
        is_so = is_so && is_right;
    }
    is_so
}
