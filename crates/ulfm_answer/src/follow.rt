//! Whether the text of an answer begins with words. It never answers out of memory.
ghost use Rattle.std.specs.Prelude.{◌≡◌, ◌++◌, ◌∷◌, List, ℕ, []};
ghost use Rattle.hex.specs.Hex.{encode_lower};
ghost use Rattle.ulfm_job.specs.Begins.{begins};
ghost use Rattle.ulfm_answer.specs.Trace.{answer_text, told_text};
ghost use Rattle.ulfm_answer.specs.inside.Follow.{goes_on};

use crate::answer::StepAnswer;
use crate::putting::{put_answer, put_told};
use crate::sink::Sink;
use crate::told_answer::ToldAnswer;
use std::alloc::Global;
use std::convert::Infallible;

/// Words that are followed along a text: those that are left, or whether the text began with them, which no more of it changes.
#[derive(Clone, Copy)]
pub(crate) enum Words<'a> {
    Left(&'a [u8]),
    Known(bool),
}

/// The digits of bytes.
const DIGITS: &[u8] = b"0123456789abcdef";

/// After one more byte of the text.
fn after_byte(words: Words<'_>, byte: u8) -> Words<'_>
    ensures { (text : List ℕ) → goes_on result text ≡ goes_on words.entry (byte ∷ text) }
{
    match words {
        Words::Known(_) => words,
        Words::Left(left) => match left.split_first() {
            Some((first, rest)) => {
                if byte == *first {
                    Words::Left(rest)
                } else {
                    Words::Known(false)
                }
            }
            None => Words::Known(byte == b' '),
        },
    }
}

/// After more of the text.
fn after<'a>(words: Words<'a>, text: &[u8]) -> Words<'a>
    ensures { (more : List ℕ) → goes_on result more ≡ goes_on words.entry (text.now ++ more) }
{
    let mut words = words;
    for byte in text {
        words = after_byte(words, *byte);
    }
    words
}

/// After two digits a byte.
fn after_digits<'a>(words: Words<'a>, body: &[u8]) -> Words<'a>
    ensures { (more : List ℕ) → goes_on result more ≡ goes_on words.entry (encode_lower body.now ++ more) }
{
    let mut words = words;
    for byte in body {
        words = after_byte(words, DIGITS[(*byte / 16) as usize]);
        words = after_byte(words, DIGITS[(*byte % 16) as usize]);
    }
    words
}

impl Sink for Words<'_> {
    ghost use Rattle.std.specs.Prelude.{Bool};
    ghost use Rattle.ulfm_answer.specs.inside.Follow.{goes_on};

    type Error = Infallible;

    ghost Whole = { Bool };

    ghost with_rest = { goes_on };

    fn put(&mut self, piece: &str) -> Result<(), Infallible> {
        *self = after(*self, piece.as_bytes());
        Ok(())
    }

    fn put_digits(&mut self, bytes: &[u8]) -> Result<(), Infallible> {
        *self = after_digits(*self, bytes);
        Ok(())
    }
}

/// What comes of it where the text ends.
fn at_end(words: Words<'_>) -> bool
    ensures { result ≡ goes_on words.entry [] }
{
    match words {
        Words::Left(left) => left.is_empty(),
        Words::Known(answer) => answer,
    }
}

/// Whether the text of an answer begins, by whole words, with these words. It never answers out of memory.
pub(crate) fn begins(alloc: Global, answer: &StepAnswer, words: &[u8]) -> bool
    ensures { result ≡ begins (answer_text answer.now) words.now }
{
    let mut left = Words::Left(words);
    match put_answer(alloc, &mut left, answer) {
        Ok(()) => at_end(left),
        Err(never) => match never {},
    }
}

/// Whether the text of what is told of an answer begins, by whole words, with these words. It never answers out of memory.
pub fn begins_told(told: &ToldAnswer<'_>, words: &[u8]) -> bool
    ensures { result ≡ begins (told_text told.now) words.now }
{
    let mut left = Words::Left(words);
    match put_told(&mut left, told) {
        Ok(()) => at_end(left),
        Err(never) => match never {},
    }
}
