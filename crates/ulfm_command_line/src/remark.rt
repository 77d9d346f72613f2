//! What standard error tells beside a reply: for people, and none of it is promised.

use crate::verdict_line::Verdict;
use std::alloc::{AllocError, Global};
use std::fmt;
use ulfm_job::{Clause, Label, Place, Text};
use ulfm_reader::{Proviso, Reading, Subject, name_at};

/// A step as it is told of.
#[derive(Drop)]
pub struct StepTold {
    rank: u8,
    /// Its number there, as the trace has it.
    at: usize,
    /// Its name, where it has one.
    name: Option<String>,
    /// Its place in the file, where stops were put in and the trace has other numbers.
    place: Option<u16>,
    /// What it asks for, in the words of a trace.
    call: String,
}

/// What is told, by the values from which the status was found.
#[derive(Drop)]
pub enum Remark {
    /// A step was left unfinished.
    Unfinished(StepTold),
    /// Each schedule skips a step.
    Skipped(StepTold),
    /// A step expects one of these texts, and its answer is another.
    Unmet(StepTold, Vec<Text>, String),
    /// All answers of a row of `never` came: its number and its texts.
    Came(usize, Vec<Text>),
    /// What a list comes to, which is told before it.
    Verdict(Verdict),
    /// A schedule in which a step never ends, line by line.
    Hanging(String),
    /// A step has an answer that is nearly always a mistake of the script: how it begins, and at which places, where some are looked at.
    Mistaken(StepTold, &'static str, Vec<Place>),
    /// What a step expects only before the steps of this name holds at no place that was looked at.
    UnheldStep(StepTold, Label),
    /// What the row of `never` of this number has only before the steps of this name holds at no place that was looked at.
    UnheldRow(usize, Label),
}

impl StepTold {
    /// The step of this number of a rank.
    ///
    /// # Errors
    ///
    /// `AllocError` where a growth was refused.
    pub fn of(alloc: Global, asked: &Reading, rank: u8, at: usize) -> Result<StepTold, AllocError> {
        let mut call = String::new(alloc);
        if let Some(told) = asked.job.told(rank, at) {
            write!(call, "{told}")?;
        }
        let name = match name_at(&asked.names, rank, at) {
            Some(name) => Some(String::from_str(alloc, name)?),
            None => None,
        };
        Ok(StepTold {
            rank,
            at,
            name,
            place: place_of(asked, rank, at),
            call,
        })
    }

    /// This step by the number that it has in the file.
    pub fn numbered(self, at: usize) -> StepTold {
        StepTold {
            at,
            place: None,
            ..self
        }
    }

    /// Writes it as goals name it, and what it asks for.
    pub(crate) fn write_short<W: fmt::Write>(&self, f: &mut fmt::Formatter<W>) -> fmt::Result {
        match &self.name {
            Some(name) => write!(f, "{}.{name} {}", self.rank, self.call),
            None => write!(f, "{}.{} {}", self.rank, self.at, self.call),
        }
    }
}

impl fmt::Display for StepTold {
    fn fmt<W: fmt::Write>(&self, f: &mut fmt::Formatter<W>) -> fmt::Result {
        write!(f, "rank {} step {}", self.rank, self.at)?;
        if let Some(name) = &self.name {
            write!(f, " '{name}'")?;
        }
        if let Some(place) = self.place {
            write!(f, " (step {place} of the file)")?;
        }
        write!(f, ": {}", self.call)
    }
}

/// The place in the file of a step of a job into which stops were put.
fn place_of(asked: &Reading, rank: u8, at: usize) -> Option<u16> {
    if asked.filed.len() == asked.job.len() {
        return None;
    }
    let mut filed = asked.filed.iter();
    let found = filed.find(|one| one.rank == rank && one.at as usize == at)?;
    Some(found.place)
}

impl Remark {
    /// That a step has an answer that it doesn't expect.
    ///
    /// # Errors
    ///
    /// `AllocError` where a growth was refused.
    pub(crate) fn unmet(
        alloc: Global,
        asked: &Reading,
        rank: u8,
        at: usize,
        answer: String,
    ) -> Result<Remark, AllocError> {
        let mut expected = Vec::new(alloc);
        for clause in asked.job.expected() {
            if asks(rank, at, clause) {
                expected.push(clause.words.copy(alloc)?)?;
            }
        }
        Ok(Remark::Unmet(StepTold::of(alloc, asked, rank, at)?, expected, answer))
    }

    /// That all answers of a row came.
    ///
    /// # Errors
    ///
    /// `AllocError` where a growth was refused.
    pub fn came(alloc: Global, asked: &Reading, number: usize) -> Result<Remark, AllocError> {
        let mut texts = Vec::new(alloc);
        if let Some(row) = asked.texts.get(number) {
            for text in row {
                texts.push(text.copy(alloc)?)?;
            }
        }
        Ok(Remark::Came(number, texts))
    }

    /// That what a proviso is about holds at no place that was looked at.
    ///
    /// # Errors
    ///
    /// `AllocError` where a growth was refused.
    pub fn unheld(alloc: Global, asked: &Reading, proviso: &Proviso) -> Result<Remark, AllocError> {
        let before = proviso.before.copy();
        Ok(match proviso.subject {
            Subject::Step(rank, at) => {
                Remark::UnheldStep(StepTold::of(alloc, asked, rank, at as usize)?, before)
            }
            Subject::Row(number) => Remark::UnheldRow(number, before),
        })
    }
}

/// Whether a step of a rank asks for a clause.
pub(crate) fn asks(rank: u8, at: usize, clause: &Clause) -> bool {
    clause.rank == rank && clause.at as usize == at
}
