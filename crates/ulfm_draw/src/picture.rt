//! What a picture shows.

use crate::arrow::Arrow;
use crate::kind::{Kind, kind_of};
use crate::row::Row;
use crate::wait::Wait;
use std::alloc::{AllocError, Global};
use ulfm_forms::{Wording, push_call_in};
use ulfm_job::{CalledComm, Job, Step, StepWords};
use ulfm_schedule::End;

/// Moves in their order, items on their way, how ranks ended, and what they wait for.
#[derive(Drop)]
pub(crate) struct Picture<'a> {
    pub(crate) rows: Vec<Row>,
    pub(crate) arrows: Vec<Arrow>,
    /// How each rank ended.
    pub(crate) ends: Vec<End>,
    pub(crate) waits: Vec<Wait>,
    /// A note on all of it, or nothing.
    pub(crate) note: &'a str,
    /// Whose words calls and answers are in.
    pub(crate) wording: Wording,
    /// The job.
    job: &'a Job,
}

impl<'a> Picture<'a> {
    /// Of nothing that a job did, in these words, with a note.
    pub(crate) fn new(alloc: Global, wording: Wording, job: &'a Job, note: &'a str) -> Picture<'a> {
        Picture {
            rows: Vec::new(alloc),
            arrows: Vec::new(alloc),
            ends: Vec::new(alloc),
            waits: Vec::new(alloc),
            note,
            wording,
            job,
        }
    }

    /// The step of a rank in the picture's words.
    pub(crate) fn call(&self, alloc: Global, rank: u8, step: usize) -> Result<String, AllocError> {
        match (self.wording, self.job.told(rank, step)) {
            (Wording::Plain, Some(told)) => plain_call(alloc, rank, told),
            (Wording::Mpi, Some(told)) => mpi_call(alloc, told),
            (_, None) => Ok(String::new(alloc)),
        }
    }

    /// How many ranks there are.
    pub(crate) fn ranks(&self) -> usize {
        self.ends.len()
    }

    /// How a rank ended, in words.
    pub(crate) fn ending(&self, rank: usize) -> &'static str {
        match self.ends.get(rank) {
            Some(End::Done) => "done",
            Some(End::Stopped) => "stopped",
            _ => "has steps left",
        }
    }

    /// The row that comes last, by its number.
    pub(crate) fn last(&self) -> usize {
        self.rows.len().saturating_sub(1)
    }

    /// The last row of a rank, if it has one.
    pub(crate) fn last_row_of(&mut self, rank: usize) -> Option<&mut Row> {
        let mut last = None;
        for (number, row) in self.rows.iter().enumerate() {
            if row.rank == rank {
                last = Some(number);
            }
        }
        self.rows.get_mut(last?)
    }

    /// Whether a rank ended by its stop.
    pub(crate) fn has_stopped(&self, rank: usize) -> bool {
        self.ends.get(rank) == Some(&End::Stopped)
    }

    /// Whether a rank came to the end of its script.
    pub(crate) fn is_through(&self, rank: usize) -> bool {
        self.ends.get(rank) == Some(&End::Done)
    }

    /// Whether an item hangs in the air: a message that nobody took, or word of a stopped rank that never came to a running one.
    pub(crate) fn hangs(&self, arrow: &Arrow) -> bool {
        if arrow.end.is_some() || kind_of(arrow.cargo) == Kind::Notice {
            return false;
        }
        kind_of(arrow.cargo) == Kind::Message
            || (self.has_stopped(arrow.from) && !self.has_stopped(arrow.to))
    }

    /// Who sent what a row took.
    pub(crate) fn sender(&self, row: usize) -> Option<usize> {
        let arrow = self.arrows.iter().find(|arrow| arrow.end == Some(row))?;
        Some(arrow.from)
    }

    /// Whether something of a row hangs in the air.
    pub(crate) fn hangs_at(&self, row: usize) -> bool {
        for arrow in &self.arrows {
            if arrow.start == row && self.hangs(arrow) {
                return true;
            }
        }
        false
    }

    /// Whether a step of a rank has a row.
    pub(crate) fn has_row(&self, rank: usize, step: usize) -> bool {
        self.rows.iter().any(|row| row.is_of(rank, step))
    }

    /// The row behind another one in which its step is answered, where it is.
    pub(crate) fn answer_of(&self, opening: usize) -> Option<usize> {
        let opened = self.rows.get(opening)?;
        for (number, row) in self.rows.iter().enumerate() {
            if number > opening && row.is_of(opened.rank, opened.step) {
                return Some(number);
            }
        }
        None
    }

    /// Whether a row answers a step that stood open.
    pub(crate) fn was_open(&self, answer: usize) -> bool {
        for (number, row) in self.rows.iter().enumerate() {
            if row.is_opening() && self.answer_of(number) == Some(answer) {
                return true;
            }
        }
        false
    }

    /// Whether a wait is one of the step that has its answer in a row, as one that is given up.
    pub(crate) fn is_left_by(&self, wait: &Wait, row: &Row) -> bool {
        !row.is_opening() && row.is_of(wait.rank, wait.step)
    }

    /// Whether a wait lasts to the end: its step has no answer.
    pub(crate) fn lasts(&self, wait: &Wait) -> bool {
        !self.rows.iter().any(|row| self.is_left_by(wait, row))
    }

    /// Whether a wait is the first one of its step.
    pub(crate) fn is_first(&self, wait: &Wait) -> bool {
        match self.waits.iter().find(|other| other.is_beside(wait)) {
            Some(first) => first.on == wait.on,
            None => false,
        }
    }

    /// The first step by which a rank waits.
    pub(crate) fn first_step(&self, rank: usize) -> Option<usize> {
        for wait in &self.waits {
            if wait.rank == rank {
                return Some(wait.step);
            }
        }
        None
    }

    /// Whether a rank waits, or did by a step that has an answer.
    pub(crate) fn waits_somewhere(&self, rank: usize) -> bool {
        self.first_step(rank).is_some()
    }
}

/// A step of a rank in plain words. A bare number looks like that of a rank, so what it is stands before it.
fn plain_call(alloc: Global, rank: u8, told: StepWords<'_>) -> Result<String, AllocError> {
    let op = told.step.op().name();
    match told.step {
        Step::Wait { req } => format!(in alloc; "{op} for {rank}.{req}"),
        Step::Mrecv { req, .. } => format!(in alloc; "{op} of {rank}.{req}"),
        Step::Cancel { req } => format!(in alloc; "{op} {rank}.{req}"),
        Step::Ack { count, comm } => {
            let comm = CalledComm(told.called, *comm);
            format!(in alloc; "{op} count {count} comm {comm}")
        }
        Step::Agree { flag, comm } => {
            let comm = CalledComm(told.called, *comm);
            format!(in alloc; "{op} flag {flag} comm {comm}")
        }
        _ => format!(in alloc; "{told}"),
    }
}

/// A step in MPI's words.
fn mpi_call(alloc: Global, told: StepWords<'_>) -> Result<String, AllocError> {
    let mut text = String::new(alloc);
    push_call_in(&mut text, Wording::Mpi, told)?;
    Ok(text)
}
