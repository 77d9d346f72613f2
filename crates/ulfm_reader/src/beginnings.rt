//! When a text begins with words, and what words the answer of a step may begin with.
ghost use Rattle.std.specs.Prelude.{◌≡◌, map};
ghost use Rattle.std.specs.List.{list_any};
ghost use Rattle.ulfm_job.specs.Begins.{begins, ends_word};
ghost use Rattle.ulfm_reader.specs.Beginnings.{begin_alike, is_alike, is_front, is_own, may_answer, may_ask, may_expect, may_tell, refusals};
ghost use Rattle.ulfm_reader.specs.Plan.{order_of};

use ulfm_job::limits::MOST_WORDS;
use ulfm_job::{Op, Step};

/// The beginnings behind which an answer goes on.
const FRONTS: &[&str] = &[
    "done from",
    "found from",
    "ranks",
    "acked",
    "comm",
    "agreed",
];

/// The answers that tell of something in the way.
pub const REFUSALS: &[&str] = &[
    "over 5 ProcFailed",
    "over 6 Revoked",
    "over 15 Truncated",
    "refused 1 NoComm",
    "refused 2 BadRank",
    "refused 3 BadTag",
    "refused 4 TooLong",
    "refused 5 ProcFailed",
    "refused 6 Revoked",
    "refused 7 NoRequest",
    "refused 8 AlreadyMade",
    "refused 9 NoContext",
    "refused 10 Stopped",
    "refused 11 NotMember",
    "refused 12 OutOfMemory",
    "refused 13 BadSize",
    "refused 14 NotEntered",
    "refused 15 Truncated",
];

/// Whether a text ends, or goes on with a space.
fn ends_word(text: &[u8]) -> bool
    ensures { result ≡ ends_word text.now }
{
    match text.first() {
        Some(byte) => *byte == b' ',
        None => true,
    }
}

/// Whether a text begins, by whole words, with these words.
pub fn begins(text: &[u8], words: &[u8]) -> bool
    ensures { result ≡ begins text.now words.now }
{
    let mut left = text;
    for word in words {
        match left.split_first() {
            Some((byte, rest)) if *byte == *word => left = rest,
            _ => return false,
        }
    }
    ends_word(left)
}

/// Whether a text begins, by whole words, with these words, both as texts of the program.
pub fn begins_with(text: &str, words: &str) -> bool
    ensures { result ≡ begins text.now words.now }
{
    begins(text.as_bytes(), words.as_bytes())
}

/// Whether a text begins with one of these.
fn begins_with_one(text: &str, fronts: &[&str]) -> bool
    ensures { result ≡ list_any (λ front. begins text.now front.now) fronts.now }
{
    fronts.iter().any(|front| begins_with(text, front))
}

/// Whether an answer goes on behind this text.
fn is_front(text: &str) -> bool
    ensures { result ≡ is_front text.now }
{
    begins_with_one(text, FRONTS)
}

/// Whether an answer that begins with this text may begin with these words: the text does, or the words do with the text, where an
/// answer goes on.
fn begin_alike(text: &str, words: &str) -> bool
    ensures { result ≡ begin_alike text.now words.now }
{
    begins_with(text, words) || (is_front(text) && begins_with(words, text))
}

/// Whether an answer that begins with one of these texts may begin with these words.
fn is_alike_to_one(texts: &[&str], words: &str) -> bool
    ensures { result ≡ list_any (λ text. begin_alike text.now words.now) texts.now }
{
    texts.iter().any(|text| begin_alike(text, words))
}

/// Whether an answer that begins with one of these texts may begin with these words.
pub fn is_alike(texts: &[&str], words: &str) -> bool
    ensures { result ≡ is_alike (map (λ s. s.now) texts.now) words.now }
{
    is_alike_to_one(texts, words)
}

/// Whether the words begin as an answer of the op does that isn't refused, where no receive is told over.
fn is_own(op: Op, words: &str) -> bool
    ensures { result ≡ is_own op words.now }
{
    is_alike(op.answers(), words) || (op.may_stay_open() && is_alike(&["unfinished"], words))
}

/// Whether the words begin as a refusal.
fn is_refusal(words: &str) -> bool
    ensures { result ≡ is_alike refusals words.now }
{
    is_alike(REFUSALS, words)
}

/// Whether an answer of the op may begin with these words, of at most 1,024 bytes.
fn may_tell(op: Op, words: &str) -> bool
    ensures { result ≡ may_tell op words.now }
{
    words.len() <= MOST_WORDS
        && (is_own(op, words) || (!op.is_never_refused() && is_refusal(words)))
}

/// Whether an answer of the step may begin with these words, of at most 1,024 bytes. A note and a stop are never refused.
pub fn may_expect(step: &Step, words: &str) -> bool
    ensures { result ≡ may_expect (order_of step.now) words.now }
{
    may_tell(step.op(), words)
}

/// Whether a condition on the step may ask for these words: as `may_expect`, or whether the step was skipped or is unfinished.
pub fn may_ask(step: &Step, words: &str) -> bool
    ensures { result ≡ may_ask (order_of step.now) words.now }
{
    if is_alike(&["skipped", "unfinished"], words) {
        return true;
    }
    may_expect(step, words)
}

/// Whether a row of `never` may name the step with these words: as `may_expect`, or whether the step was skipped.
pub fn may_answer(step: &Step, words: &str) -> bool
    ensures { result ≡ may_answer (order_of step.now) words.now }
{
    if is_alike(&["skipped"], words) {
        return true;
    }
    may_expect(step, words)
}
