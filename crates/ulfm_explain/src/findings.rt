//! What was found in a text, and where.

use crate::cause::Cause;
use crate::explanation::{Explanation, StepPlace};
use crate::first_ten::FirstTen;
use crate::lines::Lines;
use crate::marks::{Mark, marks_of};
use crate::place::place_at;
use crate::script::kept_name;
use std::alloc::{AllocError, Global};

/// What was found in a text with these steps: its first ten explanations.
#[derive(Drop)]
pub struct Findings<'a> {
    pub alloc: Global,
    pub text: &'a str,
    pub lines: &'a Lines<'a>,
    pub marks: Vec<Mark>,
    pub found: FirstTen<Explanation>,
    /// The places in the file of the steps that something was told of.
    told: Vec<usize>,
}

impl<'a> Findings<'a> {
    /// Nothing found yet, in a text with these steps.
    pub fn new(
        alloc: Global,
        text: &'a str,
        lines: &'a Lines<'a>,
    ) -> Result<Findings<'a>, AllocError> {
        let marks = marks_of(alloc, text)?;
        Ok(Findings {
            alloc,
            text,
            lines,
            marks,
            found: FirstTen::new(alloc),
            told: Vec::new(alloc),
        })
    }

    /// Whether there is no room for another explanation.
    pub fn is_full(&self) -> bool {
        self.found.is_full()
    }

    /// Keeps an explanation, if there is room for it.
    pub fn tell(
        &mut self,
        at: Option<usize>,
        step: Option<StepPlace>,
        cause: Cause,
    ) -> Result<(), AllocError> {
        if self.found.is_full() {
            return Ok(());
        }
        let place = at.map(|at| place_at(self.text.as_bytes(), at));
        let name = self.name_of(step)?;
        let step = match step {
            Some(step) => {
                let step = self.filed(step);
                self.told.push(step.in_file)?;
                Some(step)
            }
            None => None,
        };
        self.found.tell(Explanation {
            place,
            step,
            name,
            cause,
        })
    }

    /// A step with the place that it has in the file, in place of its number among all that are written out.
    fn filed(&self, step: StepPlace) -> StepPlace {
        StepPlace {
            in_file: self.filed_number(step.in_file),
            of_rank: step.of_rank,
        }
    }

    /// The place in the file of a step, by its number among all that are written out.
    pub fn filed_number(&self, number: usize) -> usize {
        match self.lines.places.get(number) {
            Some(place) => *place,
            None => number,
        }
    }

    /// The place in the file of a step, if there is a step.
    fn filed_if_some(&self, step: Option<usize>) -> Option<usize> {
        match step {
            Some(number) => Some(self.filed_number(number)),
            None => None,
        }
    }

    /// Whether something was told of the step of the file that this one is written out from.
    pub fn is_told(&self, number: usize) -> bool {
        let place = self.filed_number(number);
        self.told.iter().any(|told| *told == place)
    }

    /// Whether what a step comes from has an `all` with too many tables of its own.
    pub fn is_long(&self, number: usize) -> bool {
        let place = self.filed_number(number);
        self.lines.long.iter().any(|long| *long == place)
    }

    /// The name of a step, if it is one and has one.
    fn name_of(&self, step: Option<StepPlace>) -> Result<Option<String>, AllocError> {
        let Some(place) = step else {
            return Ok(None);
        };
        match self.lines.steps.get(place.in_file) {
            Some(step) => kept_name(self.alloc, step),
            None => Ok(None),
        }
    }

    /// Where a key of the job or of a step begins; where it doesn't stand there, the step itself.
    pub fn place_of(&self, step: Option<usize>, key: &str) -> Option<usize> {
        match self.place_of_key(step, key) {
            Some(at) => Some(at),
            None => self.place_of_step(step),
        }
    }

    /// Where a key of the job or of a step begins.
    fn place_of_key(&self, step: Option<usize>, key: &str) -> Option<usize> {
        let step = self.filed_if_some(step);
        for mark in &self.marks {
            if mark.step == step && is_key(mark, key) {
                return Some(mark.at);
            }
        }
        None
    }

    /// Where a step begins.
    pub fn place_of_step(&self, step: Option<usize>) -> Option<usize> {
        let step = self.filed_if_some(step);
        for mark in &self.marks {
            if mark.step == step && mark.key.is_none() {
                return Some(mark.at);
            }
        }
        None
    }

    /// Where a key of the job stands in a step.
    pub fn place_in_steps(&self, key: &str) -> Option<usize> {
        for mark in &self.marks {
            if mark.step.is_some() && is_key(mark, key) {
                return Some(mark.at);
            }
        }
        None
    }
}

/// Whether a mark is one of this key.
fn is_key(mark: &Mark, key: &str) -> bool {
    match &mark.key {
        Some(name) => name.as_str() == key,
        None => false,
    }
}
