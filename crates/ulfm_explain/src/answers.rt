//! With what words answers begin (docs/JOBS.md).

use crate::rules::Key;
use ulfm_job::Op;
use ulfm_reader::{REFUSALS, is_alike};

/// The answers of a step that isn't played, or not to its end, for which words at a key may ask. A condition may ask for both of each
/// op, a row for `unfinished` of those that poll alone, and what is expected too, but never for `skipped`.
fn unplayed_answers(op: Op, key: Key) -> &'static [&'static str] {
    let polls = op.may_stay_open();
    match key {
        Key::Is | Key::Not => &["unfinished", "skipped"],
        Key::Never if polls => &["unfinished", "skipped"],
        Key::Never => &["skipped"],
        _ if polls => &["unfinished"],
        _ => &[],
    }
}

/// How an answer of an op may begin, in three lists: by a word of its own, as one that isn't played to its end, or by something in the way.
pub fn beginnings(op: Op, key: Key) -> [&'static [&'static str]; 3] {
    let refusals = if op.is_never_refused() { &[] } else { REFUSALS };
    [op.answers(), unplayed_answers(op, key), refusals]
}

/// Whether an answer of an op ever begins with these words, with which a job may let it begin: only what takes a message is over.
pub fn comes(op: Op, words: &str) -> bool {
    matches!(op, Op::Wait | Op::Mrecv | Op::Cancel) || !words.starts_with("over")
}

/// Whether no answer of an op may begin so, but one of the wait for it.
pub fn is_of_wait(op: Op, words: &str) -> bool {
    op == Op::Recv && is_alike(Op::Wait.answers(), words)
}

/// Whether an answer of an op for which words at a key may ask may begin with these.
pub fn may_begin(op: Op, key: Key, words: &str) -> bool {
    beginnings(op, key)
        .iter()
        .any(|texts| is_alike(*texts, words))
}
