//! The nearest word to a misspelt one, or to one of MPI's own.

use crate::mpi::{bare, says_key, says_op};
use crate::rules::{Key, Rules};
use crate::script::name_of;
use std::alloc::{AllocError, Global};
use strsim::osa_distance;
use toml::Value;
use ulfm_job::{OPS, Op};

/// The most letters of a word that is compared, and the most edits to the nearest word.
const MOST_LETTERS: usize = 20;

const MOST_EDITS: usize = 2;

/// How many edits lead from a word to one of a job, where it is few: fewer than the letters of either word.
fn edits(alloc: Global, word: &str, to: &str) -> Result<Option<usize>, AllocError> {
    if word.len() > MOST_LETTERS {
        return Ok(None);
    }
    let count = osa_distance(alloc, word, to)?;
    if count <= MOST_EDITS && count < word.len() && count < to.len() {
        Ok(Some(count))
    } else {
        Ok(None)
    }
}

/// How many lead to a key. None do from a word of MPI that says it.
fn edits_to_key(alloc: Global, word: &str, key: Key) -> Result<Option<usize>, AllocError> {
    let from = bare(word);
    if says_key(key, from) {
        return Ok(Some(0));
    }
    edits(alloc, from, key.name())
}

/// How many lead to an op. None do from a word of MPI that says it.
fn edits_to_op(alloc: Global, word: &str, op: Op) -> Result<Option<usize>, AllocError> {
    let from = bare(word);
    if says_op(op, from) {
        return Ok(Some(0));
    }
    edits(alloc, from, op.name())
}

/// The key of a table that is nearest to a word.
pub fn nearest_key(alloc: Global, word: &str, rules: &Rules) -> Result<Option<Key>, AllocError> {
    let mut nearest = None;
    let mut least = usize::MAX;
    let own = rules.required.iter().chain(rules.optional.iter());
    for key in own.chain(rules.asking.iter()) {
        if !rules.has(*key) {
            continue;
        }
        if let Some(count) = edits_to_key(alloc, word, *key)? {
            if count < least {
                least = count;
                nearest = Some(*key);
            }
        }
    }
    Ok(nearest)
}

/// The op that is nearest to a word.
pub fn nearest_op(alloc: Global, word: &str) -> Result<Option<Op>, AllocError> {
    let mut nearest = None;
    let mut least = usize::MAX;
    for op in OPS {
        if let Some(count) = edits_to_op(alloc, word, op)? {
            if count < least {
                least = count;
                nearest = Some(op);
            }
        }
    }
    Ok(nearest)
}

/// The name of a step that is nearest to a word.
pub fn nearest_name<'a>(
    alloc: Global,
    steps: &'a [Value],
    word: &str,
) -> Result<Option<&'a str>, AllocError> {
    let mut nearest = None;
    let mut least = usize::MAX;
    for step in steps {
        if let Some(name) = name_of(step) {
            if let Some(count) = edits(alloc, word, name)? {
                if count < least {
                    least = count;
                    nearest = Some(name);
                }
            }
        }
    }
    Ok(nearest)
}
