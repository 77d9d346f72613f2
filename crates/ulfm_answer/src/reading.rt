//! Answers that are read back from their codes.
ghost use Rattle.std.specs.Prelude.{◌≡◌, ◌+◌, ◌*◌};
ghost use Rattle.std.specs.List.{position};
ghost use Rattle.ulfm_answer.specs.Told.{has_text, of_two, read_acked, read_agreed, read_alone, read_code, read_done, read_far_made, read_far_shrunk, read_found, read_kind, read_made, read_over, read_refused, read_shrunk, refusal_of};

use crate::bytes::Bytes;
use crate::told_answer::ToldAnswer;
use ulfm_base::CallError;

/// All refusals.
const REFUSALS: [CallError; 15] = [
    CallError::NoComm,
    CallError::BadRank,
    CallError::BadTag,
    CallError::TooLong,
    CallError::ProcFailed,
    CallError::Revoked,
    CallError::NoRequest,
    CallError::AlreadyMade,
    CallError::NoContext,
    CallError::Stopped,
    CallError::NotMember,
    CallError::OutOfMemory,
    CallError::BadSize,
    CallError::NotEntered,
    CallError::Truncated,
];

/// The number that two bytes are, the lower one first.
fn of_two(low: u8, high: u8) -> u16
    ensures { result ≡ of_two low high }
{
    u16::from(low) + 256 * u16::from(high)
}

/// The number that four bytes are.
fn of_four(low: u16, high: u16) -> u32
    ensures { result ≡ low + 65536 * high }
{
    u32::from(low) + 65536 * u32::from(high)
}

/// The number that eight bytes are.
fn of_eight(low: u32, high: u32) -> usize
    ensures { result ≡ low + 4294967296 * high }
{
    (u64::from(low) + 4294967296 * u64::from(high)) as usize
}

/// A letter that came.
fn read_done(rest: &[u8]) -> Option<ToldAnswer<'_>>
    ensures { result ≡ read_done rest.now }
{
    match rest {
        [source, a, b, body @ ..] => {
            Some(ToldAnswer::Done(*source, of_two(*a, *b), Bytes::new(body)))
        }
        _ => None,
    }
}

/// A letter that a probe found.
fn read_found(rest: &[u8]) -> Option<ToldAnswer<'_>>
    ensures { result ≡ read_found rest.now }
{
    match rest {
        [source, a, b, c, d, e, f, g, h, i, j] => {
            let low = of_four(of_two(*c, *d), of_two(*e, *f));
            let high = of_four(of_two(*g, *h), of_two(*i, *j));
            Some(ToldAnswer::Found(*source, of_two(*a, *b), of_eight(low, high)))
        }
        _ => None,
    }
}

/// Whether this is the text of a refusal.
fn has_text(error: &CallError, text: &[u8]) -> bool
    ensures { result ≡ has_text text.now error.now }
{
    error.text().as_bytes() == text
}

/// The place of the one of these that has this text.
fn place_of(refusals: &[CallError], text: &[u8]) -> Option<usize>
    ensures { result ≡ position (has_text text.now) refusals.now }
{
    refusals.iter().position(|error| has_text(error, text))
}

/// The refusal of this text.
fn refusal_of(text: &[u8]) -> Option<CallError>
    ensures { result ≡ refusal_of text.now }
{
    match place_of(&REFUSALS, text) {
        Some(place) => REFUSALS.get(place).copied(),
        None => None,
    }
}

/// That a receive is over.
fn read_over(rest: &[u8]) -> Option<ToldAnswer<'_>>
    ensures { result ≡ read_over rest.now }
{
    Some(ToldAnswer::Over(refusal_of(rest)?))
}

/// That a call is refused.
fn read_refused(rest: &[u8]) -> Option<ToldAnswer<'_>>
    ensures { result ≡ read_refused rest.now }
{
    Some(ToldAnswer::Refused(refusal_of(rest)?))
}

/// How many failures are acknowledged.
fn read_acked(rest: &[u8]) -> Option<ToldAnswer<'_>>
    ensures { result ≡ read_acked rest.now }
{
    match rest {
        [total] => Some(ToldAnswer::Acked(*total)),
        _ => None,
    }
}

/// The context of a duplicate.
fn read_made(rest: &[u8]) -> Option<ToldAnswer<'_>>
    ensures { result ≡ read_made rest.now }
{
    match rest {
        [comm] => Some(ToldAnswer::Made(u64::from(*comm))),
        _ => None,
    }
}

/// What a shrink made.
fn read_shrunk(rest: &[u8]) -> Option<ToldAnswer<'_>>
    ensures { result ≡ read_shrunk rest.now }
{
    match rest {
        [comm, me, members @ ..] => Some(ToldAnswer::Shrunk(
            u64::from(*comm),
            Bytes::new(members),
            *me,
        )),
        _ => None,
    }
}

/// The context of a duplicate, from 256 on.
fn read_far_made(rest: &[u8]) -> Option<ToldAnswer<'_>>
    ensures { result ≡ read_far_made rest.now }
{
    match rest {
        [a, b, c, d, e, f, g, h] => {
            let low = of_four(of_two(*a, *b), of_two(*c, *d));
            let high = of_four(of_two(*e, *f), of_two(*g, *h));
            Some(ToldAnswer::Made(of_eight(low, high) as u64))
        }
        _ => None,
    }
}

/// What a shrink made, from context 256 on.
fn read_far_shrunk(rest: &[u8]) -> Option<ToldAnswer<'_>>
    ensures { result ≡ read_far_shrunk rest.now }
{
    match rest {
        [me, a, b, c, d, e, f, g, h, members @ ..] => {
            let low = of_four(of_two(*a, *b), of_two(*c, *d));
            let high = of_four(of_two(*e, *f), of_two(*g, *h));
            Some(ToldAnswer::Shrunk(of_eight(low, high) as u64, Bytes::new(members), *me))
        }
        _ => None,
    }
}

/// What was agreed.
fn read_agreed(rest: &[u8]) -> Option<ToldAnswer<'_>>
    ensures { result ≡ read_agreed rest.now }
{
    match rest {
        [a, b, c, d, missing @ ..] => {
            let value = of_four(of_two(*a, *b), of_two(*c, *d));
            Some(ToldAnswer::Agreed(value, Bytes::new(missing)))
        }
        _ => None,
    }
}

/// An answer that is told by its kind alone.
fn read_alone<'a>(kind: u8) -> Option<ToldAnswer<'a>>
    ensures { result ≡ read_alone kind }
{
    match kind {
        0 => Some(ToldAnswer::Sent),
        1 => Some(ToldAnswer::Posted),
        2 => Some(ToldAnswer::Pending),
        3 => Some(ToldAnswer::Cancelled),
        4 => Some(ToldAnswer::Revoked),
        5 => Some(ToldAnswer::Noted),
        6 => Some(ToldAnswer::Stopped),
        7 => Some(ToldAnswer::Unfinished),
        8 => Some(ToldAnswer::Skipped),
        _ => None,
    }
}

/// An answer by its kind and what follows that.
fn read_kind(kind: u8, rest: &[u8]) -> Option<ToldAnswer<'_>>
    ensures { result ≡ read_kind kind rest.now }
{
    match kind {
        9 => read_done(rest),
        10 => read_found(rest),
        11 => read_over(rest),
        12 => read_refused(rest),
        13 => Some(ToldAnswer::Ranks(Bytes::new(rest))),
        14 => read_acked(rest),
        15 => read_made(rest),
        16 => read_shrunk(rest),
        17 => read_agreed(rest),
        18 => read_far_made(rest),
        19 => read_far_shrunk(rest),
        _ => None,
    }
}

/// What a code tells.
fn read(code: &[u8]) -> Option<ToldAnswer<'_>>
    ensures { result ≡ read_code code.now }
{
    let (kind, rest) = code.split_first()?;
    if *kind >= 9 {
        return read_kind(*kind, rest);
    }
    if rest.is_empty() {
        read_alone(*kind)
    } else {
        None
    }
}

impl<'a> ToldAnswer<'a> {
    ghost use Rattle.std.specs.Prelude.{◌≡◌, Some};
    ghost use Rattle.ulfm_answer.specs.Told.{code_of, read_code};
    ghost use Rattle.ulfm_answer.specs.declared.told_answer.ToldAnswer.{ToldAnswer as Told};

    /// What a code tells: the code of an answer tells that answer, and one of none nothing.
    pub fn read(code: &'a [u8]) -> Option<ToldAnswer<'a>>
        ensures exact { result ≡ read_code code.now }
        ensures back { (told : Told) → code.now ≡ code_of told → result ≡ Some told }
    {
        read(code)
    }
}
