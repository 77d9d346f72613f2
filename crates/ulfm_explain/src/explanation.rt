//! What is wrong, and where.

use crate::cause::Cause;
use crate::numbered_step::Numbered;
use crate::place::Place;
use std::fmt;

/// A step of the file.
#[derive(Clone, Copy, Debug, PartialEq, Eq)]
pub struct StepPlace {
    /// Its number in the file, from 0.
    pub in_file: usize,
    /// Its rank and its number among the steps of that rank, where the rank can be read.
    pub of_rank: Option<(i64, usize)>,
}

/// What is wrong, and where. It prints as one line.
#[derive(Drop)]
pub struct Explanation {
    /// Where it stands, if it stands anywhere.
    pub place: Option<Place>,
    /// The step that it is about, or none where it is about the whole job.
    pub step: Option<StepPlace>,
    /// The name of that step, if it has one.
    pub name: Option<String>,
    pub cause: Cause,
}

/// A step of the file, and its name, where it has one.
#[derive(Clone, Copy)]
struct Named<'a>(StepPlace, Option<&'a str>);

impl fmt::Display for Named<'_> {
    fn fmt<W: fmt::Write>(&self, f: &mut fmt::Formatter<W>) -> fmt::Result {
        let Named(place, name) = *self;
        let in_file = place.in_file;
        match place.of_rank {
            Some((rank, number)) => {
                let step = Numbered { number, name };
                write!(f, "rank {rank} {step} (step {in_file} of the file)")
            }
            None => {
                let number = in_file;
                let step = Numbered { number, name };
                write!(f, "{step} of the file")
            }
        }
    }
}

impl fmt::Display for Explanation {
    fn fmt<W: fmt::Write>(&self, f: &mut fmt::Formatter<W>) -> fmt::Result {
        if let Some(place) = self.place {
            write!(f, "line {}, column {}: ", place.line, place.column)?;
        }
        if let Some(step) = self.step {
            let name = match &self.name {
                Some(name) => Some(name.as_str()),
                None => None,
            };
            write!(f, "{}: ", Named(step, name))?;
        }
        write!(f, "{}", self.cause)
    }
}
