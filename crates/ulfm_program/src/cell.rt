//! What a step comes to at a place.

use std::alloc::{AllocError, Global};
use ulfm_answer::{ToldAnswer, push_told};
use ulfm_job::Job;
use ulfm_outcomes_list::{code_at, is_expected};
use ulfm_reach::Rows;

/// What a step comes to at a place.
#[derive(Clone, Copy, Debug, PartialEq, Eq)]
pub(crate) enum Kind {
    /// Nothing: no schedule comes to it.
    Unreached,
    /// Each schedule that comes to it skips it.
    Skipped,
    /// Each answer is as it is wanted.
    Good,
    /// Some answer isn't as it expects.
    Unmet,
    /// It never ends in some schedule.
    Hangs,
}

/// A step at a place.
#[derive(Drop)]
pub(crate) struct Cell {
    pub(crate) kind: Kind,
    /// Its answers in words, parted by bars.
    pub(crate) words: String,
}

impl Cell {
    /// The step of this number of a rank, by the list of a job.
    pub(crate) fn of(
        alloc: Global,
        job: &Job,
        found: &Rows,
        rank: u8,
        at: usize,
    ) -> Result<Cell, AllocError> {
        let mut cell = Cell {
            kind: Kind::Unreached,
            words: String::new(alloc),
        };
        for place in 0..found.len() {
            if let Some(code) = code_at(found, place, rank, at) {
                cell.add(job, rank, at, ToldAnswer::read(code))?;
            }
        }
        Ok(cell)
    }

    /// Adds an answer; none is that it never ends.
    fn add(
        &mut self,
        job: &Job,
        rank: u8,
        at: usize,
        told: Option<ToldAnswer<'_>>,
    ) -> Result<(), AllocError> {
        if !self.words.is_empty() {
            self.words.push_str(" | ")?;
        }
        self.kind = worse(self.kind, kind_of(job, rank, at, &told));
        match &told {
            Some(told) => push_told(&mut self.words, told),
            None => self.words.push_str("never ends"),
        }
    }
}

/// What an answer of a step makes of it; none is that it never ends.
fn kind_of(job: &Job, rank: u8, at: usize, told: &Option<ToldAnswer<'_>>) -> Kind {
    match told {
        None if expects_unfinished(job, rank, at) => Kind::Good,
        None => Kind::Hangs,
        Some(ToldAnswer::Skipped) => Kind::Skipped,
        Some(told) if is_unmet(job, rank, at, told) => Kind::Unmet,
        Some(_) => Kind::Good,
    }
}

/// The one of two that is told before the other.
fn worse(one: Kind, other: Kind) -> Kind {
    if weight(one) < weight(other) {
        other
    } else {
        one
    }
}

/// How bad it is.
fn weight(kind: Kind) -> u8 {
    match kind {
        Kind::Unreached => 0,
        Kind::Skipped => 1,
        Kind::Good => 2,
        Kind::Unmet => 3,
        Kind::Hangs => 4,
    }
}

/// Whether a step expects some answers.
fn expects(job: &Job, rank: u8, at: usize) -> bool {
    job.expected()
        .iter()
        .any(|clause| clause.rank == rank && clause.at as usize == at)
}

/// Whether a step expects answers, and to be unfinished is one of them.
fn expects_unfinished(job: &Job, rank: u8, at: usize) -> bool {
    expects(job, rank, at) && !is_unmet(job, rank, at, &ToldAnswer::Unfinished)
}

/// Whether a step expects other answers than this one.
fn is_unmet(job: &Job, rank: u8, at: usize, told: &ToldAnswer<'_>) -> bool {
    match u16::try_from(at) {
        Ok(at) => !is_expected(job, rank, at, told),
        Err(_) => false,
    }
}
