//! The answers that rows of `never` name.

use crate::script::Script;
use toml::Value;
use ulfm_job::is_number;

/// What a text of a row names, as it is written: a rank, one of its steps, and how its answer begins.
#[derive(Clone, Copy)]
pub struct Claim<'a> {
    pub rank: i64,
    pub step: &'a str,
    pub words: &'a str,
}

/// The number of a text of digits alone.
fn number_of(text: &str) -> Option<i64> {
    if is_number(text) {
        text.parse().ok()
    } else {
        None
    }
}

/// What a text of a row names, if it is written so.
pub fn claim_of(text: &str) -> Option<Claim<'_>> {
    let (place, words) = text.split_once(' ')?;
    let (rank, step) = place.split_once('.')?;
    let rank = number_of(rank)?;
    Some(Claim { rank, step, words })
}

impl Claim<'_> {
    /// The number of its step among the steps of its rank: digits alone are a number, all else is a name.
    pub fn number(&self, steps: &[Value]) -> Option<usize> {
        let rank = self.rank;
        match number_of(self.step) {
            Some(number) => usize::try_from(number).ok(),
            None => Script { steps, rank }.named(self.step, steps.len()),
        }
    }
}
