//! The text of an answer, put piece by piece.
ghost use Rattle.std.specs.Prelude.{◌≡◌, ◌++◌, List, ℕ, OnOk, codes, decimal};
ghost use Rattle.ulfm_base.specs.Error.{error_text};
ghost use Rattle.ulfm_answer.specs.Trace.{answer_text, body_text, parted, spaced, told_text};

use crate::answer::StepAnswer;
use crate::sink::Sink;
use crate::told_answer::{ToldAnswer, members_of, told_of};
use itoa::Buffer;
use smallvec::SmallVec;
use std::alloc::Global;
use ulfm_base::{CallError, Group, RankNumbers};

/// The ranks of the world in a group, in order. It never answers out of memory.
pub fn numbers_of(alloc: Global, group: &Group) -> RankNumbers
    ensures { result.items ≡ group.now }
{
    let mut numbers = SmallVec::new(alloc);
    for position in 0..group.size() {
        match group.world_of(position) {
            Some(rank) => numbers.push_reserved(rank.number),
            None => unreachable!(),
        }
    }
    numbers
}

/// Puts a number.
fn put_number<S: Sink>(sink: &mut S, number: u64) -> Result<(), S::Error>
    ensures { OnOk result ((rest : List ℕ) → S.with_rest sink.new rest ≡ S.with_rest sink.old (decimal number ++ rest)) }
{
    let mut buffer = Buffer::new();
    sink.put(buffer.format(number))
}

/// Puts words, and a number behind them.
fn put_both<S: Sink>(sink: &mut S, words: &str, number: u64) -> Result<(), S::Error>
    ensures { OnOk result ((rest : List ℕ) → S.with_rest sink.new rest ≡ S.with_rest sink.old (words.now ++ decimal number ++ rest)) }
{
    sink.put(words)?;
    put_number(sink, number)
}

/// Puts numbers, each behind a space.
fn put_spaced<S: Sink>(sink: &mut S, numbers: &[u8]) -> Result<(), S::Error>
    ensures { OnOk result ((rest : List ℕ) → S.with_rest sink.new rest ≡ S.with_rest sink.old (spaced numbers.now ++ rest)) }
{
    for number in numbers {
        put_both(sink, " ", u64::from(*number))?;
    }
    Ok(())
}

/// Puts numbers, parted by one space.
fn put_parted<S: Sink>(sink: &mut S, numbers: &[u8]) -> Result<(), S::Error>
    ensures { OnOk result ((rest : List ℕ) → S.with_rest sink.new rest ≡ S.with_rest sink.old (parted numbers.now ++ rest)) }
{
    match numbers.split_first() {
        Some((first, rest)) => {
            put_number(sink, u64::from(*first))?;
            put_spaced(sink, rest)
        }
        None => Ok(()),
    }
}

/// Puts numbers between words and a bracket.
fn put_list<S: Sink>(sink: &mut S, words: &str, numbers: &[u8]) -> Result<(), S::Error>
    ensures { OnOk result ((rest : List ℕ) → S.with_rest sink.new rest ≡ S.with_rest sink.old (words.now ++ parted numbers.now ++ codes "]" ++ rest)) }
{
    sink.put(words)?;
    put_parted(sink, numbers)?;
    sink.put("]")
}

/// Puts a body: two digits a byte, and a dash where it is empty.
fn put_body<S: Sink>(sink: &mut S, body: &[u8]) -> Result<(), S::Error>
    ensures { OnOk result ((rest : List ℕ) → S.with_rest sink.new rest ≡ S.with_rest sink.old (body_text body.now ++ rest)) }
{
    if body.is_empty() {
        sink.put("-")
    } else {
        sink.put_digits(body)
    }
}

/// Puts words, and where a letter came from with its tag.
fn put_letter<S: Sink>(sink: &mut S, words: &str, source: u8, tag: u16) -> Result<(), S::Error>
    ensures { OnOk result ((rest : List ℕ) → S.with_rest sink.new rest ≡ S.with_rest sink.old (words.now ++ decimal source ++ codes " tag " ++ decimal tag ++ rest)) }
{
    put_both(sink, words, u64::from(source))?;
    put_both(sink, " tag ", u64::from(tag))
}

/// Puts words, and a refusal behind them.
fn put_error<S: Sink>(sink: &mut S, words: &str, error: CallError) -> Result<(), S::Error>
    ensures { OnOk result ((rest : List ℕ) → S.with_rest sink.new rest ≡ S.with_rest sink.old (words.now ++ error_text error ++ rest)) }
{
    sink.put(words)?;
    sink.put(error.text())
}

/// Puts the group of a shrink, and the position there.
fn put_group<S: Sink>(sink: &mut S, members: &[u8], me: u8) -> Result<(), S::Error>
    ensures { OnOk result ((rest : List ℕ) → S.with_rest sink.new rest ≡ S.with_rest sink.old (codes " ranks [" ++ parted members.now ++ codes "] me " ++ decimal me ++ rest)) }
{
    sink.put(" ranks [")?;
    put_parted(sink, members)?;
    put_both(sink, "] me ", u64::from(me))
}

/// Puts the text of what is told of an answer.
///
/// # Errors
///
/// The sink's own: a part of the text may be taken then.
pub(crate) fn put_told<S: Sink>(sink: &mut S, told: &ToldAnswer<'_>) -> Result<(), S::Error>
    ensures { OnOk result ((rest : List ℕ) → S.with_rest sink.new rest ≡ S.with_rest sink.old (told_text told.now ++ rest)) }
{
    match told {
        ToldAnswer::Sent => sink.put("sent"),
        ToldAnswer::Posted => sink.put("posted"),
        ToldAnswer::Done(source, tag, body) => {
            put_letter(sink, "done from ", *source, *tag)?;
            sink.put(" ")?;
            put_body(sink, body.as_slice())
        }
        ToldAnswer::Over(reason) => put_error(sink, "over ", *reason),
        ToldAnswer::Pending => sink.put("pending"),
        ToldAnswer::Found(source, tag, length) => {
            put_letter(sink, "found from ", *source, *tag)?;
            put_both(sink, " length ", *length as u64)
        }
        ToldAnswer::Cancelled => sink.put("cancelled"),
        ToldAnswer::Ranks(members) => put_list(sink, "ranks [", members.as_slice()),
        ToldAnswer::Acked(total) => put_both(sink, "acked ", u64::from(*total)),
        ToldAnswer::Revoked => sink.put("revoked"),
        ToldAnswer::Made(comm) => put_both(sink, "comm ", *comm),
        ToldAnswer::Shrunk(comm, members, me) => {
            put_both(sink, "comm ", *comm)?;
            put_group(sink, members.as_slice(), *me)
        }
        ToldAnswer::Agreed(value, missing) => {
            put_both(sink, "agreed ", u64::from(*value))?;
            put_list(sink, " without [", missing.as_slice())
        }
        ToldAnswer::Noted => sink.put("noted"),
        ToldAnswer::Stopped => sink.put("stopped"),
        ToldAnswer::Unfinished => sink.put("unfinished"),
        ToldAnswer::Skipped => sink.put("skipped"),
        ToldAnswer::Refused(error) => put_error(sink, "refused ", *error),
    }
}

/// Puts the text of an answer.
///
/// # Errors
///
/// The sink's own: a part of the answer may be taken then.
pub(crate) fn put_answer<S: Sink>(
    alloc: Global,
    sink: &mut S,
    answer: &StepAnswer,
) -> Result<(), S::Error>
    ensures { OnOk result ((rest : List ℕ) → S.with_rest sink.new rest ≡ S.with_rest sink.old (answer_text answer.now ++ rest)) }
{
    let members = members_of(alloc, answer);
    put_told(sink, &told_of(answer, members.as_slice()))
}
