//! Worked examples.
ghost use Rattle.std.specs.Prelude.{◌≡◌, ◌+◌, ◌<◌, ◌^◌, OnOk};

use std::alloc::Global;
use std::test::Fail;
use ulfm_base::{
    Body, Context, Envelope, Letter, Pattern, RankSet, RequestId, Source, Tag, WorldRank,
};
use ulfm_match::{Arrived, Matcher};

const DUP: Context = Context { number: 1 };

const ZERO: WorldRank = WorldRank { number: 0 };

const ONE: WorldRank = WorldRank { number: 1 };

const TWO: WorldRank = WorldRank { number: 2 };

const FIVE: Tag = Tag { number: 5 };

const SIX: Tag = Tag { number: 6 };

fn letter_in(alloc: Global, context: Context, source: WorldRank, tag: Tag, byte: u8) -> Letter {
    let envelope = Envelope {
        context,
        source,
        tag,
    };
    let body = match Body::from_bytes(alloc, &[byte]) {
        Ok(body) => body,
        Err(_) => unreachable!(),
    };
    Letter { envelope, body }
}

fn letter(alloc: Global, source: WorldRank, tag: Tag, byte: u8) -> Letter {
    letter_in(alloc, Context::WORLD, source, tag, byte)
}

fn receive_in(context: Context, source: Source, tag: Option<Tag>) -> Pattern {
    Pattern {
        context,
        source,
        tag,
        room: 10,
    }
}

fn receive(source: WorldRank, tag: Option<Tag>) -> Pattern {
    receive_in(Context::WORLD, Source::One(source), tag)
}

fn zero_or_two() -> Source {
    let mut members = RankSet::new();
    members.insert(ZERO);
    members.insert(TWO);
    Source::Any(members)
}

// The one byte of a letter, or 0 where there is none.
fn byte_of(letter: Option<Letter>) -> u8 {
    match letter {
        Some(letter) => match letter.body.as_bytes() {
            [byte] => *byte,
            _ => 0,
        },
        None => 0,
    }
}

// Posts a receive. Answers its number, and the byte of the letter that it gets, or 0 where it waits.
fn posted(matcher: &mut Matcher, pattern: Pattern) -> Result<(RequestId, u8), Fail>
    requires { matcher.old.count + 1 < 2 ^ 64 }
    ensures { OnOk result (matcher.new.count ≡ matcher.old.count + 1) }
{
    if matcher.is_cleared(pattern.context) {
        return Err(Fail::new("cleared"));
    }
    matcher.prepare()?;
    let (id, letter) = matcher.post(pattern);
    Ok((id, byte_of(letter)))
}

// A letter comes. Answers the receive that gets it.
fn arrived(matcher: &mut Matcher, letter: Letter) -> Result<Option<RequestId>, Fail>
    requires { matcher.old.count + 1 < 2 ^ 64 }
    ensures { OnOk result (matcher.new.count ≡ matcher.old.count + 1) }
{
    if matcher.is_cleared(letter.envelope.context) {
        return Err(Fail::new("cleared"));
    }
    matcher.prepare()?;
    Ok(match matcher.arrive(letter) {
        Arrived::Paired(id, _) => Some(id),
        Arrived::Kept => None,
    })
}

/// Letters come, and are received in their order.
fn keeps_their_order(alloc: Global, matcher: &mut Matcher) -> Result<bool, Fail>
    requires { matcher.old.count + 8 < 2 ^ 64 }
{
    let first = arrived(matcher, letter(alloc, ZERO, FIVE, b'a'))?;
    let second = arrived(matcher, letter(alloc, ZERO, FIVE, b'b'))?;
    let kept = matcher.keeps_match(&receive(ZERO, None));
    let other = matcher.keeps_match(&receive(ONE, None));
    let (_, byte) = posted(matcher, receive(ZERO, None))?;
    let (id, next) = posted(matcher, receive(ZERO, Some(FIVE)))?;
    let none_came = first.is_none() && second.is_none();
    let left = matcher.keeps_match(&receive(ZERO, None));
    let received = byte == b'a' && next == b'b' && id.number == 3;
    Ok(none_came && kept && !other && received && !left && matcher.count() == 4)
}

/// A receive that ended gets nothing, and one that leaves the tag open goes before a later one that names it.
fn gives_to_the_wildcard(alloc: Global, matcher: &mut Matcher) -> Result<bool, Fail>
    requires { matcher.old.count + 8 < 2 ^ 64 }
{
    let ended = posted(matcher, receive(ZERO, Some(FIVE)))?.0;
    let wildcard = posted(matcher, receive(ZERO, None))?.0;
    let named = posted(matcher, receive(ZERO, Some(FIVE)))?.0;
    let once = matcher.withdraw(ended);
    let twice = matcher.withdraw(ended);
    let first = arrived(matcher, letter(alloc, ZERO, FIVE, b'x'))?;
    let paired = !matcher.is_waiting(wildcard) && matcher.is_waiting(named);
    let second = arrived(matcher, letter(alloc, ZERO, FIVE, b'y'))?;
    Ok(once && !twice && paired && first == Some(wildcard) && second == Some(named))
}

/// Receives of any source get letters of their sources alone, the earliest first.
fn receives_of_any(alloc: Global, matcher: &mut Matcher) -> Result<bool, Fail>
    requires { matcher.old.count + 9 < 2 ^ 64 }
{
    let any = receive_in(Context::WORLD, zero_or_two(), None);
    let _ = arrived(matcher, letter(alloc, ONE, FIVE, b'a'))?;
    let _ = arrived(matcher, letter(alloc, TWO, SIX, b'b'))?;
    let _ = arrived(matcher, letter(alloc, ZERO, FIVE, b'c'))?;
    let first = posted(matcher, any)?.1;
    let second = posted(matcher, any)?.1;
    let (third, byte) = posted(matcher, any)?;
    let none = arrived(matcher, letter(alloc, ONE, FIVE, b'd'))?;
    let last = arrived(matcher, letter(alloc, TWO, FIVE, b'e'))?;
    let taken = first == b'b' && second == b'c' && byte == 0;
    Ok(taken && none.is_none() && last == Some(third))
}

/// A failure ends the receives that name the rank. A letter that came before it is still received.
fn ends_the_named(alloc: Global, matcher: &mut Matcher) -> Result<bool, Fail>
    requires { matcher.old.count + 8 < 2 ^ 64 }
{
    let _ = arrived(matcher, letter(alloc, ZERO, SIX, b'b'))?;
    let named = posted(matcher, receive(ZERO, Some(FIVE)))?.0;
    let other = posted(matcher, receive(TWO, Some(FIVE)))?.0;
    let any = receive_in(Context::WORLD, zero_or_two(), Some(FIVE));
    let any = posted(matcher, any)?.0;
    matcher.end_named(ZERO);
    let ended = !matcher.is_waiting(named);
    let waits = matcher.is_waiting(other) && matcher.is_waiting(any);
    let byte = posted(matcher, receive(ZERO, None))?.1;
    Ok(ended && waits && byte == b'b')
}

/// A context is cleared, and what is of another stays.
fn clears_one(alloc: Global, matcher: &mut Matcher) -> Result<bool, Fail>
    requires { matcher.old.count + 8 < 2 ^ 64 }
{
    let cleared = posted(matcher, receive_in(DUP, Source::One(ZERO), None))?.0;
    let stays = posted(matcher, receive(ZERO, None))?.0;
    let _ = arrived(matcher, letter_in(alloc, DUP, ONE, FIVE, b'a'))?;
    let _ = arrived(matcher, letter(alloc, ONE, FIVE, b'b'))?;
    matcher.prepare()?;
    let before = matcher.is_cleared(DUP);
    matcher.clear(DUP);
    let marked = matcher.is_cleared(DUP) && !matcher.is_cleared(Context::WORLD);
    let waits = matcher.is_waiting(stays) && !matcher.is_waiting(cleared);
    let dropped = !matcher.keeps_match(&receive_in(DUP, Source::One(ONE), None));
    let byte = posted(matcher, receive(ONE, None))?.1;
    Ok(!before && marked && waits && dropped && byte == b'b')
}

/// What is asked of a new matcher.
enum Asked {
    KeptInOrder,
    WildcardFirst,
    AnySource,
    NamedEnded,
    OneCleared,
}

/// Whether a matcher does what is asked.
fn answers(alloc: Global, matcher: &mut Matcher, asked: Asked) -> Result<bool, Fail>
    requires { matcher.old.count + 9 < 2 ^ 64 }
{
    match asked {
        Asked::KeptInOrder => keeps_their_order(alloc, matcher),
        Asked::WildcardFirst => gives_to_the_wildcard(alloc, matcher),
        Asked::AnySource => receives_of_any(alloc, matcher),
        Asked::NamedEnded => ends_the_named(alloc, matcher),
        Asked::OneCleared => clears_one(alloc, matcher),
    }
}

/// Whether a new matcher does.
fn new_answers(alloc: Global, asked: Asked) -> Result<bool, Fail> {
    let mut matcher = Matcher::new(alloc);
    let is_answered = answers(alloc, &mut matcher, asked);
    // Let go by the standard library, which is cheaper to check.
    drop(matcher);
    is_answered
}

#[test]
fn letters_in_order(rt: HostRuntime) -> Result<(), Fail> {
    assert!(rt; new_answers(rt.alloc(), Asked::KeptInOrder)?);
    Ok(())
}

#[test]
fn wildcard_before_named(rt: HostRuntime) -> Result<(), Fail> {
    assert!(rt; new_answers(rt.alloc(), Asked::WildcardFirst)?);
    Ok(())
}

#[test]
fn any_source(rt: HostRuntime) -> Result<(), Fail> {
    assert!(rt; new_answers(rt.alloc(), Asked::AnySource)?);
    Ok(())
}

#[test]
fn kept_before_notice(rt: HostRuntime) -> Result<(), Fail> {
    assert!(rt; new_answers(rt.alloc(), Asked::NamedEnded)?);
    Ok(())
}

#[test]
fn other_contexts_stay(rt: HostRuntime) -> Result<(), Fail> {
    assert!(rt; new_answers(rt.alloc(), Asked::OneCleared)?);
    Ok(())
}
