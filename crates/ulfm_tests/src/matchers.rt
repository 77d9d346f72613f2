//! The same calls to the matcher and to two plain lists: each answer is the same.
ghost use Rattle.std.specs.Prelude.{◌≡◌, ◌+◌, ◌<◌, ◌^◌, IsTrue, false};
ghost use Rattle.ulfm_match.specs.State.{is_cleared};

use rand_core::utils::NextWord;
use rand_pcg::Pcg32;
use std::alloc::Global;
use std::test::Fail;
use ulfm_base::{
    Body, Context, Envelope, Letter, OutOfMemory, Pattern, RankSet, RequestId, Source, Tag,
    WorldRank,
};
use ulfm_match::plain::Plain;
use ulfm_match::{Arrived, Matcher};

/// How many lists of calls are drawn.
const LISTS: u32 = 1000;

/// How many calls each list has.
const CALLS: u32 = 200;

/// How many lists have letters and then receives, or receives and then letters.
const LONG_LISTS: u32 = 50;

/// How many letters and how many receives each of these has: more than a matcher keeps in its short list.
const MANY: u32 = 400;

/// Draws a number below this one.
fn below(draws: &mut Pcg32, bound: u32) -> u32
    requires { 0 < bound }
    ensures { result < bound }
{
    draws.next_word() % bound
}

/// Draws one of two contexts.
fn context(draws: &mut Pcg32) -> Context {
    Context {
        number: u64::from(below(draws, 2)),
    }
}

/// Draws one of three ranks.
fn rank(draws: &mut Pcg32) -> WorldRank {
    WorldRank {
        number: below(draws, 3) as u8,
    }
}

/// Draws one of three tags.
fn tag(draws: &mut Pcg32) -> Tag {
    Tag {
        number: below(draws, 3) as u16,
    }
}

/// Draws a source: a rank by name, or any of two drawn ranks.
fn source(draws: &mut Pcg32) -> Source {
    if below(draws, 3) > 0 {
        return Source::One(rank(draws));
    }
    let mut members = RankSet::new();
    members.insert(rank(draws));
    members.insert(rank(draws));
    Source::Any(members)
}

/// Draws what a receive asks for.
fn pattern(draws: &mut Pcg32) -> Pattern {
    Pattern {
        context: context(draws),
        source: source(draws),
        tag: if below(draws, 3) > 0 {
            Some(tag(draws))
        } else {
            None
        },
        room: 4,
    }
}

/// Draws a letter, whose body is the number of the call by which it comes.
fn letter(alloc: Global, draws: &mut Pcg32, call: u32) -> Letter {
    let envelope = Envelope {
        context: context(draws),
        source: rank(draws),
        tag: tag(draws),
    };
    let body = match Body::from_bytes(alloc, &call.to_be_bytes()) {
        Ok(body) => body,
        Err(_) => unreachable!(),
    };
    Letter { envelope, body }
}

/// The same letter once more.
fn copied(alloc: Global, letter: &Letter) -> Result<Letter, OutOfMemory> {
    Ok(Letter {
        envelope: letter.envelope,
        body: Body::from_bytes(alloc, letter.body.as_bytes())?,
    })
}

/// Whether two letters carry the same, or there is none of either.
fn is_same(one: &Option<Letter>, other: &Option<Letter>) -> bool {
    match (one, other) {
        (Some(one), Some(other)) => {
            one.envelope == other.envelope && one.body.as_bytes() == other.body.as_bytes()
        }
        (None, None) => true,
        _ => false,
    }
}

/// Whether both can be handed something of a context.
fn is_open(matcher: &Matcher, context: Context) -> bool
    ensures { IsTrue result → (is_cleared matcher.now context.number ≡ false) × (matcher.now.count + 1 < 2 ^ 64) }
{
    !matcher.is_cleared(context) && matcher.count() < u64::MAX
}

/// Posts a receive to both: whether they answer the same.
fn posts(matcher: &mut Matcher, plain: &mut Plain, pattern: Pattern) -> Result<bool, OutOfMemory> {
    matcher.prepare()?;
    if !is_open(matcher, pattern.context) {
        return Ok(plain.is_cleared(pattern.context));
    }
    let (id, letter) = matcher.post(pattern);
    let (number, other) = plain.post(pattern)?;
    Ok(id.number == number && is_same(&letter, &other))
}

/// Probes both: whether they answer the same.
fn probes(matcher: &mut Matcher, plain: &mut Plain, pattern: &Pattern) -> bool {
    if !is_open(matcher, pattern.context) {
        return plain.is_cleared(pattern.context);
    }
    let letter = matcher.probe(pattern);
    let other = plain.probe(pattern);
    is_same(&letter, &other) && matcher.count() == plain.count()
}

/// Hands a letter to both: whether they answer the same.
fn arrives(
    alloc: Global,
    matcher: &mut Matcher,
    plain: &mut Plain,
    letter: Letter,
) -> Result<bool, OutOfMemory> {
    let other = copied(alloc, &letter)?;
    matcher.prepare()?;
    if !is_open(matcher, letter.envelope.context) {
        return Ok(plain.is_cleared(letter.envelope.context));
    }
    let paired = match matcher.arrive(letter) {
        Arrived::Paired(id, _) => Some(id.number),
        Arrived::Kept => None,
    };
    Ok(paired == plain.arrive(other)?)
}

/// Ends something of both: whether they answer the same.
fn ends(matcher: &mut Matcher, plain: &mut Plain, draws: &mut Pcg32) -> Result<bool, OutOfMemory> {
    let number = below(draws, CALLS) as u64;
    match below(draws, 16) {
        0 => {
            let context = context(draws);
            matcher.prepare()?;
            matcher.clear(context);
            plain.clear(context)?;
            Ok(matcher.is_cleared(context))
        }
        1..4 => {
            let rank = rank(draws);
            matcher.end_named(rank);
            plain.end_named(rank);
            Ok(matcher.is_waiting(RequestId { number }) == plain.is_waiting(number))
        }
        _ => Ok(matcher.withdraw(RequestId { number }) == plain.withdraw(number)),
    }
}

/// Draws one call to both: whether they answer the same.
fn call(
    alloc: Global,
    matcher: &mut Matcher,
    plain: &mut Plain,
    draws: &mut Pcg32,
    call: u32,
) -> Result<bool, OutOfMemory> {
    match below(draws, 13) {
        0..5 => posts(matcher, plain, pattern(draws)),
        5..10 => arrives(alloc, matcher, plain, letter(alloc, draws, call)),
        10 => ends(matcher, plain, draws),
        11 => Ok(probes(matcher, plain, &pattern(draws))),
        _ => {
            let pattern = pattern(draws);
            let number = below(draws, CALLS) as u64;
            Ok(
                matcher.keeps_match(&pattern) == plain.keeps_match(&pattern)
                    && matcher.is_waiting(RequestId { number }) == plain.is_waiting(number)
                    && matcher.count() == plain.count(),
            )
        }
    }
}

/// Draws a list of calls to both: the first call that they answer otherwise.
fn first_apart(
    alloc: Global,
    matcher: &mut Matcher,
    plain: &mut Plain,
    draws: &mut Pcg32,
) -> Result<Option<u32>, OutOfMemory> {
    for k in 0..CALLS {
        if !call(alloc, matcher, plain, draws, k)? {
            return Ok(Some(k));
        }
    }
    Ok(None)
}

/// Draws a list of calls to a matcher and plain lists that hold nothing yet: the first call that they answer otherwise.
fn first_apart_of_new(alloc: Global, draws: &mut Pcg32) -> Result<Option<u32>, OutOfMemory> {
    let mut matcher = Matcher::new(alloc);
    let mut plain = Plain::new(alloc);
    let apart = first_apart(alloc, &mut matcher, &mut plain, draws);
    // Let go by the standard library, which is cheaper to check.
    drop(matcher);
    apart
}

#[test]
fn the_matcher_answers_as_plain_lists_do(rt: HostRuntime) -> Result<(), Fail> {
    let mut draws = Pcg32::new(42, 54);
    for list in 0..LISTS {
        let apart = first_apart_of_new(rt.alloc(), &mut draws)?;
        assert_eq!(rt; apart, None, "list {list}");
    }
    Ok(())
}

/// Draws many letters and then many receives, or receives first, for both: the first of them that they answer otherwise.
fn first_apart_of_many(
    alloc: Global,
    matcher: &mut Matcher,
    plain: &mut Plain,
    draws: &mut Pcg32,
    letters_first: bool,
) -> Result<Option<u32>, OutOfMemory> {
    for k in 0..2 * MANY {
        let is_same = if (k < MANY) == letters_first {
            arrives(alloc, matcher, plain, letter(alloc, draws, k))?
        } else {
            posts(matcher, plain, pattern(draws))?
        };
        if !is_same {
            return Ok(Some(k));
        }
    }
    Ok(None)
}

/// Draws many letters and receives for a matcher and plain lists that hold nothing yet: the first that they answer otherwise.
fn first_apart_of_many_new(
    alloc: Global,
    draws: &mut Pcg32,
    letters_first: bool,
) -> Result<Option<u32>, OutOfMemory> {
    let mut matcher = Matcher::new(alloc);
    let mut plain = Plain::new(alloc);
    let apart = first_apart_of_many(alloc, &mut matcher, &mut plain, draws, letters_first);
    drop(matcher);
    apart
}

#[test]
fn the_matcher_answers_as_plain_lists_do_where_many_wait(rt: HostRuntime) -> Result<(), Fail> {
    let mut draws = Pcg32::new(42, 54);
    for list in 0..LONG_LISTS {
        let apart = first_apart_of_many_new(rt.alloc(), &mut draws, list % 2 == 0)?;
        assert_eq!(rt; apart, None, "list {list}");
    }
    Ok(())
}
