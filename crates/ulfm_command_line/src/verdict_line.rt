//! What a list comes to, in a line: for people, and none of it is promised.

use crate::remark::StepTold;
use std::fmt;
use ulfm_job::{Place, Stop};

/// At how many places a list was made, where it is one of places.
#[derive(Clone, Copy)]
pub enum Extent {
    /// It is the list of one job.
    Alone,
    /// It has so many places.
    Places(usize),
}

/// What a list comes to, by the words for that.
#[derive(Drop)]
pub enum Verdict {
    /// A step hangs, or isn't as it expects.
    Step(&'static str, StepTold, Where),
    /// The answers of a row of `never` come, or may: its number.
    Row(&'static str, usize, Where),
    /// Nothing is wrong.
    Good(&'static str, Extent),
}

/// Where that is so: at a place of a list of places, or in the job as it is asked for.
#[derive(Clone, Copy)]
pub struct Where {
    /// Where ranks stop.
    pub place: Place,
    /// Whether it is one of several places.
    pub is_one_of_some: bool,
}

impl Verdict {
    /// Whether nothing is wrong.
    pub fn is_good(&self) -> bool {
        matches!(self, Verdict::Good(..))
    }
}

impl fmt::Display for Verdict {
    fn fmt<W: fmt::Write>(&self, f: &mut fmt::Formatter<W>) -> fmt::Result {
        match self {
            Verdict::Step(what, step, at) => write_step(f, what, step, *at),
            Verdict::Row(what, row, at) => write_row(f, what, *row, *at),
            Verdict::Good(what, extent) => write_good(f, what, *extent),
        }
    }
}

/// Writes what is so of a step, and where.
fn write_step<W: fmt::Write>(
    f: &mut fmt::Formatter<W>,
    what: &str,
    step: &StepTold,
    at: Where,
) -> fmt::Result {
    write!(f, "{what}: ")?;
    step.write_short(f)?;
    write!(f, "{at}")
}

/// Writes what is so of a row, and where.
fn write_row<W: fmt::Write>(
    f: &mut fmt::Formatter<W>,
    what: &str,
    row: usize,
    at: Where,
) -> fmt::Result {
    write!(f, "{what}: never[{row}]{at}")
}

/// Writes what is so everywhere.
fn write_good<W: fmt::Write>(f: &mut fmt::Formatter<W>, what: &str, extent: Extent) -> fmt::Result {
    match extent {
        Extent::Alone => write!(f, "{what}, in every schedule"),
        Extent::Places(1) => write!(f, "{what} at its one place"),
        Extent::Places(count) => write!(f, "{what} at all {count} places"),
    }
}

impl fmt::Display for Where {
    fn fmt<W: fmt::Write>(&self, f: &mut fmt::Formatter<W>) -> fmt::Result {
        match self.place {
            Place::Nowhere if self.is_one_of_some => f.write_str(", where no rank stops"),
            Place::Nowhere => Ok(()),
            Place::One(stop) => write_stop(f, ", where", stop),
            Place::Two(first, second) => {
                write_stop(f, ", where", first)?;
                write_stop(f, ", and", second)
            }
        }
    }
}

/// Writes where a rank stops, behind a word.
fn write_stop<W: fmt::Write>(f: &mut fmt::Formatter<W>, word: &str, stop: Stop) -> fmt::Result {
    let Stop { rank, at, dies } = stop;
    let how = if dies { "dies inside" } else { "stops before" };
    write!(f, "{word} rank {rank} {how} its step {at}")
}
